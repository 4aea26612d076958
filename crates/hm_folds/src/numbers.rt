// A set of numbers.
ghost use Rattle.std.specs.Prelude.{◌≡◌, ◌==◌, ◌||◌, ◌&&◌, not, ℕ, ◌≤◌, ◌<◌, true, false, IfOk, OnOk, OnErr};
ghost use Rattle.hm_folds.specs.Numbers.{has_number, IsFirstNumber};

use hm_base::NoMemory;
use std::alloc::Global;
use std::collections::BTreeSet;

/// A set of numbers, of which the first from a number on is found at once.
#[derive(Drop)]
pub struct Numbers {
    numbers: BTreeSet<u64>,
}

impl Numbers {
    /// No number. It takes no memory.
    pub(crate) fn new(alloc: Global) -> Numbers
        ensures { (n : ℕ) → has_number result n ≡ false }
    {
        Numbers {
            numbers: BTreeSet::new(alloc),
        }
    }

    /// Whether the number is in it.
    pub(crate) fn has(&self, number: u64) -> bool
        ensures { result ≡ has_number self.now number }
    {
        self.numbers.contains(&number)
    }

    /// The number is in it from now on; a failure changes nothing.
    pub(crate) fn add(&mut self, number: u64) -> Result<(), NoMemory>
        ensures ok { OnOk result ((n : ℕ) → has_number self.new n ≡ ((n == number) || has_number self.old n)) }
        ensures err { OnErr result ((n : ℕ) → has_number self.new n ≡ has_number self.old n) }
    {
        match self.numbers.insert(number) {
            Ok(_) => Ok(()),
            Err(_) => Err(NoMemory),
        }
    }

    /// The number is not in it from now on.
    pub(crate) fn remove(&mut self, number: u64)
        ensures { (n : ℕ) → has_number self.new n ≡ (not (n == number) && has_number self.old n) }
    {
        let _ = self.numbers.remove(&number);
    }

    /// The first number of it from there on.
    pub(crate) fn first(&self, from: u64) -> Option<u64>
        ensures { IsFirstNumber self.now from result }
    {
        match self.numbers.range(from..).next() {
            Some(number) => Some(*number),
            None => None,
        }
    }
}
