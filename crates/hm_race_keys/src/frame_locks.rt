// Who has frames locked.
ghost use Rattle.std.specs.Prelude.{◌≡◌, ℕ, true, [], Some, None, IfOk, OnOk, OnErr};
ghost use Rattle.hm_base.specs.declared.Frame.{Frame as AnyFrame};
ghost use Rattle.hm_history.specs.Memory.Words.{with_frame};
ghost use Rattle.hm_history.specs.Memory.Locks.{locks_start, frame_placed, is_locker, other_locker, orphan};
ghost use Rattle.hm_race_keys.specs.Sparse.{rising_from, mixed_items};
ghost use Rattle.hm_race_keys.specs.FrameTables.{lockers_in, mixed_actor};
ghost use Rattle.hm_race_keys.specs.PagePlaces.{places_of};
ghost use Rattle.hm_race_keys.specs.Trail.{lockers_next};

use crate::page_places::Places;
use crate::sparse::{Kept, Sparse, mixed};
use hm_base::frames::{names, pool_index, sys_frame};
use hm_base::{Actor, Frame, NoMemory, Place};
use hm_history::Kind;
use std::alloc::Global;
use std::marker::Model;

impl Kept for Actor {
    ghost mixed = { mixed_actor };

    fn is_same(&self, other: &Actor) -> bool {
        self == other
    }

    fn mixed(&self, sum: u64) -> u64 {
        mixed(sum, u64::from(self.number()))
    }
}

/// Who has each frame locked that somebody has, by pool and number.
#[derive(Drop)]
pub struct FrameLocks {
    items: Sparse<Actor>,
}

impl Model for FrameLocks {
    ghost use Rattle.std.specs.Prelude.{List, ℕ};
    ghost use Rattle.hm_race_keys.specs.declared.sparse.Item.{Item as AnyItem};

    ghost Value = { List (AnyItem ℕ) };

    ghost view = { λ s. s.items };
}

impl FrameLocks {
    /// Nobody has a frame locked. It takes no memory.
    pub fn new(alloc: Global) -> FrameLocks
        ensures { result ≡ [] }
    {
        FrameLocks {
            items: Sparse::new(alloc),
        }
    }

    /// Costs nothing: it hands the prover the order.
    pub fn facts(&self)
        ensures { rising_from 0 0 self.now ≡ true }
    {
        self.items.facts();
    }

    /// Who has the frame locked.
    pub fn locker(&self, frame: &Frame) -> Option<Actor>
        ensures { result ≡ lockers_in self.now frame.now }
    {
        self.items
            .get(pool_index(&frame.pool) as u32, u64::from(frame.number))
    }

    /// The other actor that has the frame locked.
    pub fn other_locker(&self, frame: &Frame, actor: Actor) -> Option<Actor>
        ensures { result ≡ other_locker (record locks_start { frame = lockers_in self.now }) frame.now actor }
    {
        match self.locker(frame) {
            Some(by) => { if actor == by { None } else { Some(by) } }
            None => None,
        }
    }

    /// The frame that the entry leaves without a name, if nobody has it locked: its actor drops it next.
    pub fn orphan(&self, places: &Places, kind: &Kind) -> Option<Frame>
        ensures { result
            ≡ orphan (record locks_start { frame = lockers_in self.now }) (places_of places.now) kind.now }
    {
        match kind {
            Kind::Place { proc, page, place } => match names(&places.get(*proc, *page)) {
                None => None,
                Some(frame) => {
                    if self.locker(&frame).is_none()
                        && !places.is_named_after(*proc, *page, place, &frame)
                    {
                        Some(frame)
                    } else {
                        None
                    }
                }
            },
            _ => None,
        }
    }

    fn is_locker(&self, frame: &Frame, actor: Actor) -> bool
        ensures { result ≡ is_locker (lockers_in self.now frame.now) actor }
    {
        match self.locker(frame) {
            Some(by) => actor == by,
            None => false,
        }
    }

    fn lock(&mut self, frame: &Frame, actor: Actor) -> Result<(), NoMemory>
        ensures ok { OnOk result
            (lockers_in self.new ≡ with_frame (lockers_in self.old) frame.now (Some actor)) }
        ensures err { OnErr result (self.new ≡ self.old) }
    {
        self.items.set(
            pool_index(&frame.pool) as u32,
            u64::from(frame.number),
            actor,
        )
    }

    fn unlock(&mut self, frame: &Frame)
        ensures { lockers_in self.new ≡ with_frame (lockers_in self.old) frame.now None }
    {
        self.items
            .remove(pool_index(&frame.pool) as u32, u64::from(frame.number));
    }

    // After the page of an old place got this one.
    fn place(&mut self, actor: Actor, old: &Place, place: &Place) -> Result<(), NoMemory>
        ensures { OnOk result
            (lockers_in self.new
            ≡ frame_placed (record locks_start { frame = lockers_in self.old }) old.now actor place.now) }
    {
        match place {
            Place::Sys {
                number,
                writable: _,
            } => {
                let frame = sys_frame(*number);
                if !matches!(old, Place::Moving { .. }) && self.is_locker(&frame, actor) {
                    self.unlock(&frame);
                }
                Ok(())
            }
            Place::Moving { frame, writable: _ } => {
                if self.locker(frame).is_none() {
                    self.lock(frame, actor)
                } else {
                    Ok(())
                }
            }
            _ => Ok(()),
        }
    }

    /// The locks after an entry, by the place that it is about and the frame that it leaves without a name.
    pub fn step(
        &mut self,
        actor: Actor,
        kind: &Kind,
        old: &Place,
        left: &Option<Frame>,
    ) -> Result<(), NoMemory>
        ensures { OnOk result
            (lockers_in self.new ≡ lockers_next (lockers_in self.old) actor kind.now old.now left.now) }
    {
        match kind {
            Kind::Take(frame) => self.lock(frame, actor),
            Kind::Done(frame) => {
                self.unlock(frame);
                Ok(())
            }
            Kind::Drop(frame) => {
                self.unlock(frame);
                Ok(())
            }
            Kind::Place { place, .. } => {
                self.place(actor, old, place)?;
                match left {
                    None => Ok(()),
                    Some(frame) => self.lock(frame, actor),
                }
            }
            _ => Ok(()),
        }
    }

    /// The same locks, in memory of their own.
    pub fn copy(&self, alloc: Global) -> Result<FrameLocks, NoMemory>
        ensures { IfOk result (λ x. x ≡ self.now) }
    {
        Ok(FrameLocks {
            items: self.items.copy(alloc)?,
        })
    }

    /// Whether each frame is locked by the same actor in both.
    pub fn same(&self, other: &FrameLocks) -> bool
        ensures yes { result ≡ true → self.now ≡ other.now }
        ensures no { ((f : AnyFrame) → lockers_in self.now f ≡ lockers_in other.now f) → result ≡ true }
    {
        self.items.same(&other.items)
    }

    /// A sum with all locks mixed in.
    pub fn bucket(&self, sum: u64) -> u64
        ensures { result ≡ mixed_items mixed_actor sum self.now }
    {
        self.items.bucket(sum)
    }
}
