// The uses of each frame of a pool.
ghost use Rattle.std.specs.Prelude.{◌≡◌, ◌≢◌, ℕ, ◌<◌, ◌≤◌, not, true, false, length, replicate, slice_set, OnOk, OnErr};
ghost use Rattle.std.specs.Prelude.{IfOk};
ghost use Rattle.rev_maps.specs.Uses.{uses_of, unused, has_use, with_moving, added, removed, first_use, is_rising};

use crate::uses::{Use, UseList};
use hm_base::{NoMemory, Page, Proc};
use std::alloc::Global;
use std::marker::Model;

/// The uses of each frame of a pool, by the frame's number.
#[derive(Drop)]
pub struct RevMaps {
    frames: Vec<UseList>,
}

impl Model for RevMaps {
    ghost use Rattle.std.specs.Prelude.{List};
    ghost use Rattle.rev_maps.specs.Uses.{Uses};

    ghost Value = { List Uses };

    ghost view = { λ a. a.frames.items };
}

impl RevMaps {
    /// The maps of `frames` frames, none of which has a use.
    pub fn new(alloc: Global, frames: u32) -> Result<RevMaps, NoMemory>
        ensures { IfOk result (λ maps. maps ≡ replicate frames unused) }
    {
        let mut lists = Vec::with_capacity(alloc, frames as usize)?;
        for _frame in 0..frames {
            if let Err(_) = lists.push(UseList::new(alloc)) {
                return Err(NoMemory);
            }
        }
        Ok(RevMaps { frames: lists })
    }

    /// Makes room for one more use of the frame.
    pub fn reserve(&mut self, number: u32) -> Result<(), NoMemory>
        requires { number < length self.old }
        ensures frame { (uses_of self.new number).list ≡ (uses_of self.old number).list }
        ensures more { (uses_of self.old number).room ≤ (uses_of self.new number).room }
        ensures others { self.new ≡ slice_set self.old number (uses_of self.new number) }
        ensures ok { OnOk result (1 ≤ (uses_of self.new number).room) }
        ensures err { OnErr result (self.new ≡ self.old) }
    {
        let uses = &mut self.frames[number as usize];
        uses.reserve()
    }

    /// Adds a use of the frame, for which there is room.
    pub fn add_reserved(&mut self, number: u32, used: Use)
        requires room { 1 ≤ (uses_of self.old number).room }
        requires new { has_use used.proc used.page (uses_of self.old number).list ≡ false }
        ensures { self.new ≡ slice_set self.old number (added used (uses_of self.old number)) }
    {
        let uses = &mut self.frames[number as usize];
        uses.add_reserved(used);
    }

    /// Removes a use of the frame.
    pub fn remove(&mut self, number: u32, proc: Proc, page: Page)
        requires { has_use proc page (uses_of self.old number).list ≡ true }
        ensures { self.new ≡ slice_set self.old number (removed proc page (uses_of self.old number)) }
    {
        let uses = &mut self.frames[number as usize];
        uses.remove(proc, page);
    }

    /// Marks a use of the frame as a migration entry.
    pub fn set_moving(&mut self, number: u32, proc: Proc, page: Page)
        requires { has_use proc page (uses_of self.old number).list ≡ true }
        ensures { let uses = uses_of self.old number in
            self.new ≡ slice_set self.old number (record uses { list = with_moving proc page uses.list }) }
    {
        let uses = &mut self.frames[number as usize];
        uses.set_moving(proc, page);
    }

    /// The lowest process and page that names the frame, and not by a migration entry.
    pub fn lowest_direct(&self, number: u32) -> Option<(Proc, Page)>
        ensures { result ≡ first_use (λ u. not u.moving) (uses_of self.now number).list }
    {
        let uses = self.frames.get(number as usize)?;
        uses.lowest_direct()
    }

    /// The lowest process and page that names the frame by a migration entry.
    pub fn lowest_moving(&self, number: u32) -> Option<(Proc, Page)>
        ensures { result ≡ first_use (λ u. u.moving) (uses_of self.now number).list }
    {
        let uses = self.frames.get(number as usize)?;
        uses.lowest_moving()
    }

    /// The lowest process and page that names the frame, migration entries included.
    pub fn lowest_named(&self, number: u32) -> Option<(Proc, Page)>
        ensures { result ≡ first_use (λ u. true) (uses_of self.now number).list }
    {
        let uses = self.frames.get(number as usize)?;
        uses.lowest_named()
    }

    /// How many uses the frame has, migration entries included.
    pub fn count(&self, number: u32) -> u64
        ensures { result ≡ length (uses_of self.now number).list }
    {
        match self.frames.get(number as usize) {
            Some(uses) => uses.count(),
            None => 0,
        }
    }

    /// Gives the order of the uses of a frame if only their value is at hand; it does nothing.
    pub fn rising(&self, number: u32)
        ensures { is_rising (uses_of self.now number).list ≡ true }
    {
        if let Some(uses) = self.frames.get(number as usize) {
            uses.facts();
        }
    }
}
