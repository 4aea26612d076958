// The entries that led to a state, which states share.
ghost use Rattle.std.specs.Prelude.{◌≡◌, [], ◌∷◌, ◌++◌, map, IfOk, OnOk};
ghost use Rattle.std.specs.Rc.{rc_value};

use hm_base::NoMemory;
use hm_history::Entry;
use std::alloc::Global;
use std::rc::Rc;

/// The same entries, shared, with room for one more.
pub(crate) fn shared(alloc: Global, trail: &[Rc<Entry>]) -> Result<Vec<Rc<Entry>>, NoMemory>
    ensures { IfOk result (λ x. map rc_value x.items ≡ map rc_value trail.now) }
{
    let mut all = Vec::with_capacity(alloc, trail.len() + 1)?;
    for at in 0..trail.len() {
        all.push(trail[at].clone()?)?;
    }
    Ok(all)
}

// Adds an entry.
fn push_entry(alloc: Global, trail: &mut Vec<Rc<Entry>>, entry: Entry) -> Result<(), NoMemory>
    ensures { OnOk result (map rc_value trail.new.items ≡ map rc_value trail.old.items ++ entry ∷ []) }
{
    let entry = Rc::new(alloc, entry)?;
    Ok(trail.push(entry)?)
}

/// The same entries, shared, and then this one.
pub(crate) fn longer(
    alloc: Global,
    trail: &[Rc<Entry>],
    entry: Entry,
) -> Result<Vec<Rc<Entry>>, NoMemory>
    ensures { IfOk result (λ x. map rc_value x.items ≡ map rc_value trail.now ++ entry ∷ []) }
{
    let mut all = shared(alloc, trail)?;
    push_entry(alloc, &mut all, entry)?;
    Ok(all)
}
