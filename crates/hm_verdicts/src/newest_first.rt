// Items, the newest first.
ghost use Rattle.std.specs.Prelude.{◌≡◌, ℕ, ◌∷◌, [], OnOk, reverse, map, MatchOption};
ghost use Rattle.hm_protocol.specs.Words.{drop_if};
ghost use Rattle.hm_verdicts.specs.Inner.{outer, with_inner};
ghost use Rattle.hm_verdicts.specs.Settled.{mapped_to};

use hm_base::NoMemory;
use std::alloc::Global;
use std::marker::Model;

/// A test of items.
pub trait Passes<T> {
    ghost use Rattle.std.specs.Prelude.{Bool};

    ghost test: { Self → T → Bool };

    /// Whether the item passes.
    fn test(&self, item: &T) -> bool
        ensures { result ≡ test self.now item.now };
}

/// What becomes of an item.
pub trait Changes<T> {
    ghost made: { Self → T → T };

    /// Changes it. After a failure nothing is known of it.
    fn change(&self, item: &mut T) -> Result<(), NoMemory>
        ensures { OnOk result (item.new ≡ made self.now item.old) };
}

/// Items, the newest first.
#[derive(Drop)]
pub struct NewestFirst<T: Drop> {
    // The oldest first.
    items: Vec<T>,
}

impl<T: Drop> Model for NewestFirst<T> {
    ghost use Rattle.std.specs.Prelude.{List, reverse};

    ghost Value = { List T };

    ghost view = { λ s. reverse s.items.items };
}

impl<T: Drop> NewestFirst<T> {
    /// None. It takes no memory.
    pub(crate) fn new(alloc: Global) -> NewestFirst<T>
        ensures { result ≡ [] }
    {
        NewestFirst {
            items: Vec::new(alloc),
        }
    }

    /// One more.
    pub(crate) fn push(&mut self, item: T) -> Result<(), NoMemory>
        ensures { OnOk result (self.new ≡ item ∷ self.old) }
    {
        self.items.push(item)?;
        Ok(())
    }

    /// Takes the newest away.
    pub(crate) fn pop(&mut self) -> Option<T>
        ensures { MatchOption result ((self.old ≡ []) × (self.new ≡ [])) (λ x. self.old ≡ x ∷ self.new) }
    {
        self.items.pop()
    }

    /// Without the newest, if there is one.
    pub(crate) fn drop_newest(&mut self)
        ensures { self.new ≡ outer self.old }
    {
        let _ = self.pop();
    }

    /// The newest is changed, if there is one.
    pub(crate) fn change_newest<C: Changes<T>>(&mut self, how: &C) -> Result<(), NoMemory>
        ensures { OnOk result (self.new ≡ with_inner (C.made how.now) self.old) }
    {
        let Some(mut newest) = self.pop() else {
            return Ok(());
        };
        how.change(&mut newest)?;
        self.push(newest)?;
        Ok(())
    }

    /// All are changed.
    #[tactic(auto, using(crate::proofs::Mapping::map_reversed))]
    pub(crate) fn change_all<C: Changes<T>>(&mut self, how: &C) -> Result<(), NoMemory>
        ensures { OnOk result (self.new ≡ map (C.made how.now) self.old) }
    {
        change_items(&mut self.items, how)
    }

    /// The items, the oldest first.
    pub(crate) fn oldest_first(&self) -> &[T]
        ensures { reverse result.now ≡ self.now }
    {
        &self.items
    }

    /// Those that pass are not among them any more.
    #[tactic(auto, using(crate::proofs::Reversed::filter_reversed))]
    pub(crate) fn drop_if<P: Passes<T>>(&mut self, test: &P)
        ensures { self.new ≡ drop_if (P.test test.now) self.old }
    {
        drop_passing(&mut self.items, test);
    }
}

// The same of items, the oldest first.
fn drop_passing<T: Drop, P: Passes<T>>(items: &mut Vec<T>, test: &P)
    ensures { items.new.items ≡ drop_if (P.test test.now) items.old.items }
{
    items.retain(|item| !test.test(item));
}

/// All of these are changed.
pub(crate) fn change_items<T: Drop, C: Changes<T>>(
    items: &mut Vec<T>,
    how: &C,
) -> Result<(), NoMemory>
    ensures { OnOk result (items.new.items ≡ map (C.made how.now) items.old.items) }
{
    for item in items.iter_mut() {
        how.change(item)?;
    }
    Ok(())
}

/// All are changed, from this one on if those before it stay as they are.
pub(crate) fn change_from<T: Drop, C: Changes<T>>(
    items: &mut Vec<T>,
    from: usize,
    how: &C,
) -> Result<(), NoMemory>
    requires { mapped_to (C.made how.now) from items.old.items ≡ items.old.items }
    ensures { OnOk result (items.new.items ≡ map (C.made how.now) items.old.items) }
{
    for number in from..items.len() {
        how.change(&mut items[number])?;
    }
    Ok(())
}
