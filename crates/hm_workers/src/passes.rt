// A list of passes.
ghost use Rattle.std.specs.Prelude.{◌≡◌, [], ◌∷◌, ◌++◌, length, OnOk, OnErr, IfSome, IfNone, option_copied, slice_get};

use hm_base::NoMemory;
use hm_turns::Pass;
use std::alloc::Global;
use std::marker::Model;

/// The passes of some actors, each in the place of its actor's number.
#[derive(Drop)]
pub struct Passes {
    pub(crate) items: Vec<Pass>,
}

impl Model for Passes {
    ghost use Rattle.std.specs.Prelude.{List};
    ghost use Rattle.hm_turns.specs.Sights.{Sight};

    ghost Value = { List Sight };

    ghost view = { λ p. p.items.items };
}

impl Passes {
    /// An empty list, without memory.
    pub fn new(alloc: Global) -> Passes
        ensures { result ≡ [] }
    {
        Passes {
            items: Vec::new(alloc),
        }
    }

    /// Adds a pass at the end.
    pub fn push(&mut self, item: Pass) -> Result<(), NoMemory>
        ensures ok { OnOk result (self.new ≡ self.old ++ item ∷ []) }
        ensures err { OnErr result (self.new ≡ self.old) }
    {
        self.items.push(item)?;
        Ok(())
    }

    /// How many passes there are.
    pub fn len(&self) -> u64
        ensures { result ≡ length self.now }
    {
        self.items.len() as u64
    }

    /// The pass at a place, counted from 0.
    pub fn get(&self, at: u64) -> Option<&Pass>
        ensures { option_copied result ≡ slice_get self.now at }
    {
        self.items.get(at as usize)
    }

    /// Takes the last pass out.
    pub fn pop(&mut self) -> Option<Pass>
        ensures some { IfSome result (λ p. self.old ≡ self.new ++ p ∷ []) }
        ensures none { IfNone result ((self.old ≡ []) × (self.new ≡ [])) }
    {
        self.items.pop()
    }
}
