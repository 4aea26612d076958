// The frames that are held.
ghost use Rattle.std.specs.Prelude.{◌≡◌, true, false, [], IfOk, OnOk, OnErr};
ghost use Rattle.hm_base.specs.declared.Frame.{Frame as AnyFrame};
ghost use Rattle.hm_history.specs.Memory.Words.{with_frame};
ghost use Rattle.hm_race_keys.specs.Sparse.{rising_from, mixed_items};
ghost use Rattle.hm_race_keys.specs.FrameTables.{held_in, mixed_held};
ghost use Rattle.hm_race_keys.specs.Trail.{held_next};

use crate::sparse::{Kept, Sparse};
use hm_base::frames::pool_index;
use hm_base::{Frame, NoMemory};
use hm_history::Kind;
use std::alloc::Global;
use std::marker::Model;

impl Kept for () {
    ghost mixed = { mixed_held };

    fn is_same(&self, _other: &()) -> bool {
        true
    }

    fn mixed(&self, sum: u64) -> u64 {
        sum
    }
}

/// The held frames, by pool and number.
#[derive(Drop)]
pub struct HeldFrames {
    items: Sparse<()>,
}

impl Model for HeldFrames {
    ghost use Rattle.std.specs.Prelude.{List, ⊤};
    ghost use Rattle.hm_race_keys.specs.declared.sparse.Item.{Item as AnyItem};

    ghost Value = { List (AnyItem ⊤) };

    ghost view = { λ s. s.items };
}

impl HeldFrames {
    /// No frame is held. It takes no memory.
    pub fn new(alloc: Global) -> HeldFrames
        ensures { result ≡ [] }
    {
        HeldFrames {
            items: Sparse::new(alloc),
        }
    }

    /// Costs nothing: it hands the prover the order.
    pub fn facts(&self)
        ensures { rising_from 0 0 self.now ≡ true }
    {
        self.items.facts();
    }

    /// Whether the frame is held.
    pub(crate) fn is_held(&self, frame: &Frame) -> bool
        ensures { result ≡ held_in self.now frame.now }
    {
        self.items
            .get(pool_index(&frame.pool) as u32, u64::from(frame.number))
            .is_some()
    }

    /// The held frames after an entry; a failure changes nothing.
    pub fn step(&mut self, kind: &Kind) -> Result<(), NoMemory>
        ensures ok { OnOk result (held_in self.new ≡ held_next (held_in self.old) kind.now) }
        ensures err { OnErr result (self.new ≡ self.old) }
    {
        match kind {
            Kind::Take(frame) => self.take(frame),
            Kind::Drop(frame) => {
                self.drop_frame(frame);
                Ok(())
            }
            _ => Ok(()),
        }
    }

    fn take(&mut self, frame: &Frame) -> Result<(), NoMemory>
        ensures ok { OnOk result (held_in self.new ≡ with_frame (held_in self.old) frame.now true) }
        ensures err { OnErr result (self.new ≡ self.old) }
    {
        self.items.set(pool_index(&frame.pool) as u32, u64::from(frame.number), ())
    }

    fn drop_frame(&mut self, frame: &Frame)
        ensures { held_in self.new ≡ with_frame (held_in self.old) frame.now false }
    {
        self.items
            .remove(pool_index(&frame.pool) as u32, u64::from(frame.number));
    }

    /// The same frames, in memory of their own.
    pub fn copy(&self, alloc: Global) -> Result<HeldFrames, NoMemory>
        ensures { IfOk result (λ x. x ≡ self.now) }
    {
        Ok(HeldFrames {
            items: self.items.copy(alloc)?,
        })
    }

    /// Whether the same frames are held in both.
    pub fn same(&self, other: &HeldFrames) -> bool
        ensures yes { result ≡ true → self.now ≡ other.now }
        ensures no { ((f : AnyFrame) → held_in self.now f ≡ held_in other.now f) → result ≡ true }
    {
        self.items.same(&other.items)
    }

    /// A sum with all held frames mixed in.
    pub fn bucket(&self, sum: u64) -> u64
        ensures { result ≡ mixed_items mixed_held sum self.now }
    {
        self.items.bucket(sum)
    }
}
