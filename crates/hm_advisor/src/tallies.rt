// A tally for each process, or for each mirror.
ghost use Rattle.std.specs.Prelude.{◌≡◌, ℕ, ◌+◌, ◌<◌, ◌^◌, length, IfOk, OnOk};
ghost use Rattle.hm_advisor.specs.Tallies.{tally_count, IsAddedAt, IsUnused};
ghost use Rattle.hm_advisor.specs.Tally.{count_in};

use crate::tally::Tally;
use hm_base::NoMemory;
use std::alloc::Global;

/// How many processes there are, and mirrors.
const PARTIES: usize = 32;

/// 32 tallies, by number.
#[derive(Drop)]
pub struct Tallies {
    items: Vec<Tally>,
}

impl Tallies {
    /// No accesses.
    pub(crate) fn new(alloc: Global) -> Result<Tallies, NoMemory>
        ensures { IfOk result IsUnused }
    {
        let mut items = Vec::with_capacity(alloc, PARTIES)?;
        for _ in 0..PARTIES {
            items.push(Tally::new(alloc))?;
        }
        Ok(Tallies { items })
    }

    /// The tally of that number.
    pub(crate) fn get(&self, at: usize) -> &Tally
        requires { at < length self.now.items.items }
        ensures { (v : ℕ) → count_in result.now v ≡ tally_count self.now at v }
    {
        &self.items[at]
    }

    /// One access more of the page, in the tally of that number.
    pub(crate) fn add(&mut self, at: usize, page: u64) -> Result<(), NoMemory>
        requires within { at < length self.old.items.items }
        requires few { tally_count self.old at page + 1 < 2 ^ 64 }
        ensures length { length self.new.items.items ≡ length self.old.items.items }
        ensures added { OnOk result (IsAddedAt self.old self.new at page) }
    {
        self.items[at].add(page)
    }
}
