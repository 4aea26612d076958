// Numbers in a row, and where in it a number may stand: a table of chains, which doubles when it is full.
ghost use Rattle.std.specs.Prelude.{◌≡◌, ◌∷◌, ◌++◌, ◌<◌, [], get_or, length, IfOk, OnOk};
ghost use Rattle.hm_search.specs.Buckets.{IsLast, slot_in, slot_at};

use hm_base::NoMemory;
use std::alloc::Global;
use std::marker::Model;

// A number, and the place before it whose number falls into the same slot.
#[derive(Clone, Copy)]
pub struct Link {
    number: u64,
    before: Option<usize>,
}

/// Numbers in a row. Those that fall into one slot are gone through from the last to the first.
#[derive(Drop)]
pub struct Buckets {
    links: Vec<Link>,
    // For each slot the last place whose number falls into it.
    last: Vec<Option<usize>>,
}

impl Model for Buckets {
    ghost use Rattle.hm_search.specs.Buckets.{BucketsValue, buckets_of, AreChained};

    ghost Value = { BucketsValue };

    ghost view = { λ b. buckets_of b.links.items b.last.items };

    ghost invariant = { λ b. AreChained b.links.items b.last.items };
}

// The slots of a table before the first number.
const FIRST_SLOTS: usize = 64;

impl Buckets {
    // No number, and this many slots.
    fn with_slots(alloc: Global, slots: usize) -> Result<Buckets, NoMemory>
        requires { 0 < slots }
        ensures numbers { IfOk result (λ b. b.numbers ≡ []) }
        ensures slots { IfOk result (λ b. b.slots ≡ slots) }
    {
        Ok(Buckets {
            links: Vec::new(alloc),
            last: vec![in alloc; None; slots]?,
        })
    }

    /// No number.
    pub(crate) fn new(alloc: Global) -> Result<Buckets, NoMemory>
        ensures { IfOk result (λ b. b.numbers ≡ []) }
    {
        Buckets::with_slots(alloc, FIRST_SLOTS)
    }

    // The slot of a number.
    fn slot(&self, number: u64) -> usize
        ensures slot { result ≡ slot_in self.now.slots number }
        ensures within { result < self.now.slots }
    {
        (number % self.last.len() as u64) as usize
    }

    /// The last place whose number falls into the slot of this number.
    pub(crate) fn last(&self, number: u64) -> Option<usize>
        ensures { IsLast self.now (length self.now.numbers) (slot_in self.now.slots number) result }
    {
        self.last[self.slot(number)]
    }

    /// The place before this one whose number falls into the same slot.
    pub(crate) fn before(&self, at: usize) -> Option<usize>
        requires { at < length self.now.numbers }
        ensures { IsLast self.now at (slot_at self.now at) result }
    {
        self.links[at].before
    }

    /// The number at this place.
    pub(crate) fn number(&self, at: usize) -> u64
        requires { at < length self.now.numbers }
        ensures { result ≡ get_or self.now.numbers at 0 }
    {
        self.links[at].number
    }

    // One number more, in a table of the same size.
    fn link(&mut self, number: u64) -> Result<(), NoMemory>
        ensures numbers { OnOk result (self.new.numbers ≡ self.old.numbers ++ number ∷ []) }
        ensures slots { self.new.slots ≡ self.old.slots }
    {
        let at = self.links.len();
        let slot = self.slot(number);
        let before = self.last[slot];
        self.links.push(Link { number, before })?;
        self.last[slot] = Some(at);
        Ok(())
    }

    // The same numbers in a table of twice the size.
    fn doubled(&self, alloc: Global) -> Result<Buckets, NoMemory>
        ensures { IfOk result (λ b. b.numbers ≡ self.now.numbers) }
    {
        let mut doubled = Buckets::with_slots(alloc, 2 * self.last.len())?;
        for link in &self.links {
            doubled.link(link.number)?;
        }
        Ok(doubled)
    }

    /// One number more, at the end.
    pub(crate) fn push(&mut self, alloc: Global, number: u64) -> Result<(), NoMemory>
        ensures { OnOk result (self.new.numbers ≡ self.old.numbers ++ number ∷ []) }
    {
        if self.links.len() >= self.last.len() {
            *self = self.doubled(alloc)?;
        }
        self.link(number)
    }
}
