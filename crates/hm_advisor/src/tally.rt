// How often each page was accessed.
ghost use Rattle.std.specs.Prelude.{◌≡◌, ℕ, ◌+◌, ◌≤◌, ◌<◌, ◌^◌, OnOk};
ghost use Rattle.hm_advisor.specs.Tally.{count_in, IsAdded, IsFirst, IsNext};

use hm_base::NoMemory;
use std::alloc::Global;
use std::collections::BTreeMap;

/// Counts of accesses, by page.
#[derive(Drop)]
pub struct Tally {
    counts: BTreeMap<u64, u64>,
}

impl Tally {
    /// No accesses, without memory.
    pub(crate) fn new(alloc: Global) -> Tally
        ensures { (v : ℕ) → count_in result v ≡ 0 }
    {
        Tally {
            counts: BTreeMap::new(alloc),
        }
    }

    /// How often the page was accessed.
    pub(crate) fn count(&self, page: u64) -> u64
        ensures { result ≡ count_in self.now page }
    {
        match self.counts.get(&page) {
            Some(count) => *count,
            None => 0,
        }
    }

    /// One access more.
    pub(crate) fn add(&mut self, page: u64) -> Result<(), NoMemory>
        requires { count_in self.old page + 1 < 2 ^ 64 }
        ensures ok { OnOk result (IsAdded self.old self.new page) }
    {
        let count = self.count(page) + 1;
        match self.counts.insert(page, count) {
            Ok(_) => Ok(()),
            Err(_) => Err(NoMemory),
        }
    }

    /// The first page from there on with a count, if there is one.
    fn first(&self, from: u64) -> Option<u64>
        ensures { IsFirst self.now from result }
    {
        match self.counts.range(from..).next() {
            Some((page, _)) => Some(*page),
            None => None,
        }
    }

    /// The first page from there on with a count, or the end if none below it has one.
    pub(crate) fn next(&self, from: u64, end: u64) -> u64
        requires { from ≤ end }
        ensures { IsNext self.now from end result }
    {
        match self.first(from) {
            Some(page) if page < end => page,
            _ => end,
        }
    }
}
