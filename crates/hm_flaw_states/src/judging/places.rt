// Whether the places, frames and mirror tables of a state allow an entry.
ghost use Rattle.std.specs.Prelude.{◌≡◌, if◌then◌else◌, IfOk};
ghost use Rattle.hm_history.specs.Memory.Words.{page_of};
ghost use Rattle.hm_history.specs.Memory.Plain.{mirror_owner, owned};
ghost use Rattle.hm_history.specs.Memory.Places.{holds_target, is_for_device, is_removed, is_target, places_accept};
ghost use Rattle.hm_history.specs.Memory.Places.{stands_for, table_reads, table_sole, table_writes};
ghost use Rattle.hm_history.specs.declared.Kind.{Kind as AnyKind};
ghost use Rattle.hm_folds.specs.Standing.{accepts_frames, entry_allows, may_access};
ghost use Rattle.hm_flaw_states.specs.OwnTables.{entry_of};
ghost use Rattle.hm_flaw_states.specs.States.{state_in};
ghost use Rattle.hm_flaw_states.specs.Tidy.{IsTidy};

use crate::details::Details;
use crate::here::FlawHere;
use crate::own_tables::OwnEntry;
use crate::owns::backing;
use hm_base::frames::{is_frame, names};
use hm_base::{Actor, Frame, MirrorId, NoMemory, Page, Place, PoolId, Proc};
use hm_folds::place_tests::{
    cpu_may, is_exclusive_of, is_for_device, is_sole, place_allows, right_allows,
};
use hm_history::{Kind, Who};
use hm_reads::Reads;
use hm_reads::operations::page_of;
use std::alloc::Global;

impl<'a> FlawHere<'a> {
    /// Whether there is a next state of places after an entry of the actor.
    pub(crate) fn meets_places(
        &self,
        alloc: Global,
        actor: Actor,
        kind: &Kind,
    ) -> Result<bool, NoMemory>
        requires { IsTidy (state_in self.now.state.now).after.places }
        ensures { IfOk result (λ b. b
            ≡ places_accept self.now.script.now (mirror_owner (state_in self.now.state.now).after.plain)
            (state_in self.now.state.now).after.places actor kind.now) }
    {
        match kind {
            Kind::Loaded {
                who,
                addr,
                bytes: _,
            } => Ok(self.may_access(who, *addr, false)),
            Kind::Stored {
                who,
                addr,
                bytes: _,
            } => Ok(self.may_access(who, *addr, true)),
            Kind::Fetched {
                mirror,
                addr,
                bytes: _,
            } => Ok(self.has_sole(actor, *mirror, *addr)),
            Kind::Added { mirror, addr, .. } => Ok(self.has_sole(actor, *mirror, *addr)),
            Kind::Set { mirror, target, .. } => Ok(self.is_for_device(*mirror, target)),
            _ => self.accepts_frames(alloc, kind),
        }
    }

    // Whether a place stands for this.
    fn is_target(&self, place: &Place, target: &Option<Frame>) -> bool
        ensures { result
            ≡ is_target (stands_for (state_in self.now.state.now).after.places place.now) target.now }
    {
        match target {
            None => matches!(place, Place::Zero),
            Some(frame) => is_frame(backing(self, place), frame),
        }
    }

    // The place of the page of an address; no page past the last has one.
    fn place_at(&self, proc: Proc, addr: u64) -> Place
        ensures { result ≡ (state_in self.now.state.now).after.places.place proc (page_of addr) }
    {
        if addr >= 1 << 48 {
            self.none_past();
            return Place::Empty;
        }
        self.place(proc, page_of(addr))
    }

    // The table entry of the page of an address; no page past the last has one.
    fn entry_at(&self, mirror: MirrorId, addr: u64) -> Option<OwnEntry>
        ensures { entry_of result ≡ (state_in self.now.state.now).after.places.table mirror (page_of addr) }
    {
        if addr >= 1 << 48 {
            self.state.tables.facts();
            return None;
        }
        self.state.tables.get(mirror, page_of(addr))
    }

    fn may_access(&self, who: &Who, addr: u64, writes: bool) -> bool
        ensures { result
            ≡ may_access (mirror_owner (state_in self.now.state.now).after.plain)
            (state_in self.now.state.now).after.places who.now addr writes }
    {
        match who {
            Who::Cpu(proc) => cpu_may(&self.place_at(*proc, addr), writes),
            Who::Mirror(mirror) => match self.state.mirrors.owner(*mirror) {
                None => false,
                Some(proc) => self.table_may(*mirror, proc, addr, writes),
            },
        }
    }

    fn table_may(&self, mirror: MirrorId, proc: Proc, addr: u64, writes: bool) -> bool
        ensures { result
            ≡ (if writes
            then table_writes (state_in self.now.state.now).after.places mirror proc (page_of addr)
            else table_reads (state_in self.now.state.now).after.places mirror proc (page_of addr)) }
    {
        match self.entry_at(mirror, addr) {
            None => false,
            Some(entry) => self.entry_may(&entry, &self.place_at(proc, addr), writes),
        }
    }

    fn entry_may(&self, entry: &OwnEntry, place: &Place, writes: bool) -> bool
        ensures { result
            ≡ entry_allows (state_in self.now.state.now).after.places
            (record { target = entry.now.mapping.target; right = entry.now.mapping.right; from = entry.now.since })
            place.now writes }
    {
        if !right_allows(entry.mapping.right, writes) {
            return false;
        }
        if !place_allows(place, writes) {
            return false;
        }
        self.is_target(place, &entry.mapping.target)
    }

    // Whether the actor has the page of an address alone, through the mirror.
    fn has_sole(&self, actor: Actor, mirror: MirrorId, addr: u64) -> bool
        ensures { result
            ≡ owned (mirror_owner (state_in self.now.state.now).after.plain mirror)
            (λ p. table_sole (state_in self.now.state.now).after.places actor mirror p (page_of addr)) }
    {
        match self.state.mirrors.owner(mirror) {
            None => false,
            Some(proc) => self.table_is_sole(actor, mirror, proc, addr),
        }
    }

    fn table_is_sole(&self, actor: Actor, mirror: MirrorId, proc: Proc, addr: u64) -> bool
        ensures { result
            ≡ table_sole (state_in self.now.state.now).after.places actor mirror proc (page_of addr) }
    {
        match self.entry_at(mirror, addr) {
            None => false,
            Some(entry) => {
                is_sole(entry.mapping.right)
                    && is_exclusive_of(&self.place_at(proc, addr), actor, &entry.mapping.target)
            }
        }
    }

    fn is_for_device(&self, mirror: MirrorId, target: &Option<Frame>) -> bool
        ensures { result
            ≡ owned ((state_in self.now.state.now).after.places.device mirror) (is_for_device target.now) }
    {
        self.has_mirror(mirror) && is_for_device(target, self.mirror_dev(mirror))
    }

    // Of an entry that changes frames or places.
    fn accepts_frames(&self, alloc: Global, kind: &Kind) -> Result<bool, NoMemory>
        requires { IsTidy (state_in self.now.state.now).after.places }
        ensures { IfOk result (λ b. b
            ≡ accepts_frames self.now.script.now (state_in self.now.state.now).after.places kind.now) }
    {
        match kind {
            Kind::Place { proc, page, place } => self.may_place(alloc, *proc, *page, place),
            Kind::Committed { from, to } => Ok(self.may_commit(from, to)),
            Kind::Take(frame) => Ok(self.may_take(frame)),
            Kind::Drop(frame) => self.may_drop(alloc, frame),
            Kind::Removed(dev) => Ok(self.held_from(*dev, 0).is_none()),
            _ => Ok(true),
        }
    }

    // Whether the frame is held: then taking it changes nothing.
    fn is_held(&self, alloc: Global, frame: &Frame) -> Result<bool, NoMemory>
        ensures { IfOk result (λ b. b ≡ (state_in self.now.state.now).after.places.held frame.now) }
    {
        let taken = self.state.held_after(alloc, &Kind::Take(*frame))?;
        Ok(taken.same(&self.state.held))
    }

    // Whether what a place names is held.
    fn holds(&self, alloc: Global, frame: &Option<Frame>) -> Result<bool, NoMemory>
        ensures { IfOk result (λ b. b ≡ holds_target (state_in self.now.state.now).after.places frame.now) }
    {
        match frame {
            None => Ok(true),
            Some(frame) => self.is_held(alloc, frame),
        }
    }

    fn may_place(
        &self,
        alloc: Global,
        proc: Proc,
        page: Page,
        place: &Place,
    ) -> Result<bool, NoMemory>
        requires { IsTidy (state_in self.now.state.now).after.places }
        ensures { IfOk result (λ b. b
            ≡ accepts_frames self.now.script.now (state_in self.now.state.now).after.places
            (AnyKind.Place proc page place.now)) }
    {
        let holds = self.holds(alloc, &names(place))?;
        Ok(holds && self.is_shared_rightly(proc, page, place))
    }

    fn is_of_removed(&self, pool: &PoolId) -> bool
        ensures { result ≡ is_removed (state_in self.now.state.now).after.places pool.now }
    {
        match pool {
            PoolId::System => false,
            PoolId::Device(dev) => self.is_removed(*dev),
        }
    }

    fn may_take(&self, frame: &Frame) -> bool
        requires { IsTidy (state_in self.now.state.now).after.places }
        ensures { result
            ≡ accepts_frames self.now.script.now (state_in self.now.state.now).after.places
            (AnyKind.Take frame.now) }
    {
        is_frame(self.lowest_free(frame.pool), frame) && !self.is_of_removed(&frame.pool)
    }

    fn may_drop(&self, alloc: Global, frame: &Frame) -> Result<bool, NoMemory>
        ensures { IfOk result (λ b. b
            ≡ accepts_frames self.now.script.now (state_in self.now.state.now).after.places
            (AnyKind.Drop frame.now)) }
    {
        let held = self.is_held(alloc, frame)?;
        Ok(held && self.lowest_named(frame).is_none())
    }
}
