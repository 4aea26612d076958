// Marks and numbers by numbers: what is marked, and where something was last.
ghost use Rattle.std.specs.Prelude.{◌≡◌, false, OnOk};
ghost use Rattle.hm_history.specs.Memory.Words.{with_at};
ghost use Rattle.hm_verdicts.specs.Numbers.{flags_in, positions_in};

use crate::numbered::Numbered;
use hm_base::NoMemory;
use std::alloc::Global;

/// Some numbers are marked.
#[derive(Drop)]
pub struct Flags {
    marks: Numbered<bool>,
}

impl Flags {
    /// None is. It takes no memory.
    pub(crate) fn new(alloc: Global) -> Flags
        ensures { flags_in result ≡ λ k. false }
    {
        Flags {
            marks: Numbered::new(alloc),
        }
    }

    /// Whether it is.
    pub(crate) fn has(&self, key: u64) -> bool
        ensures { result ≡ flags_in self.now key }
    {
        self.marks.get(key).copied().unwrap_or(false)
    }

    /// It is, or is not, from now on.
    pub(crate) fn set(&mut self, key: u64, mark: bool) -> Result<(), NoMemory>
        ensures { OnOk result (flags_in self.new ≡ with_at (flags_in self.old) key mark) }
    {
        self.marks.set(key, mark)
    }
}

/// Some numbers have a position, and all others 0.
#[derive(Drop)]
pub struct Positions {
    positions: Numbered<u64>,
}

impl Positions {
    /// None has. It takes no memory.
    pub(crate) fn new(alloc: Global) -> Positions
        ensures { positions_in result ≡ λ k. 0 }
    {
        Positions {
            positions: Numbered::new(alloc),
        }
    }

    /// Its position.
    pub(crate) fn at(&self, key: u64) -> u64
        ensures { result ≡ positions_in self.now key }
    {
        self.positions.get(key).copied().unwrap_or(0)
    }

    /// It has this one from now on.
    pub(crate) fn set(&mut self, key: u64, position: u64) -> Result<(), NoMemory>
        ensures { OnOk result (positions_in self.new ≡ with_at (positions_in self.old) key position) }
    {
        self.positions.set(key, position)
    }
}
