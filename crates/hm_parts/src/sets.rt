// The last table entry of each page of a mirror.
ghost use Rattle.std.specs.Prelude.{◌≡◌, ◌==◌, ℕ, if◌then◌else◌, option_map, Some, None, OnOk};
ghost use Rattle.hm_parts.specs.Sets.{set_at, set_of};

use hm_base::NoMemory;
use std::alloc::Global;
use std::collections::BTreeMap;

/// What is kept of the last `set` of a page.
#[derive(Clone, Copy)]
pub struct LastSet {
    /// Whether its look-up began where it says.
    pub goes_back: bool,
    /// The position from which it is to be untold.
    pub since: u64,
}

/// The last `set` of each page of a mirror.
#[derive(Drop)]
pub struct Sets {
    sets: BTreeMap<u64, LastSet>,
}

impl Sets {
    /// None was set. It takes no memory.
    pub(crate) fn new(alloc: Global) -> Sets
        ensures { (v : ℕ) → set_at result v ≡ None }
    {
        Sets {
            sets: BTreeMap::new(alloc),
        }
    }

    /// The last `set` of a page.
    pub(crate) fn get(&self, page: u64) -> Option<LastSet>
        ensures { option_map set_of result ≡ set_at self.now page }
    {
        self.sets.get(&page).copied()
    }

    /// This is the last `set` of the page from now on.
    pub(crate) fn put(&mut self, page: u64, goes_back: bool, since: u64) -> Result<(), NoMemory>
        ensures { OnOk result ((v : ℕ) → set_at self.new v
            ≡ (if v == page then Some (goes_back, since) else set_at self.old v)) }
    {
        match self.sets.insert(page, LastSet { goes_back, since }) {
            Ok(_) => Ok(()),
            Err(_) => Err(NoMemory),
        }
    }
}
