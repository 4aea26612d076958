// Copies of the key after a set-up, with which each search begins.
ghost use Rattle.std.specs.Prelude.{◌≡◌, [], None, IfOk};
ghost use Rattle.hm_flaw_states.specs.Keyed.{entries_in, form_in};
ghost use Rattle.hm_flaw_search.specs.Races.{IsCopy};

use hm_base::NoMemory;
use hm_flaw_states::key::FlawKey;
use std::alloc::Global;

/// The same key once more, of one with no entry after the set-up. The two share all that they have.
pub(crate) fn copy_first(alloc: Global, key: &FlawKey) -> Result<FlawKey, NoMemory>
    requires unbroken { (form_in key.now).broken ≡ None }
    requires first { entries_in key.now ≡ [] }
    ensures { IfOk result (IsCopy key.now) }
{
    Ok(FlawKey {
        state: key.state.clone()?,
        own: key.own.clone()?,
        marks: key.marks.clone()?,
        trail: Vec::new(alloc),
        broken: None,
    })
}
