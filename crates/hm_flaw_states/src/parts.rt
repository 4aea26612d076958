// The parts of a state after an entry. What the entry does not change is shared.
ghost use Rattle.std.specs.Prelude.{◌≡◌, length, IfOk, OnOk};
ghost use Rattle.hm_history.specs.Memory.Contents.{contents_next, backing, place_for, stored_in};
ghost use Rattle.hm_history.specs.Memory.Locks.{frame_next, map_next, orphan};
ghost use Rattle.hm_history.specs.Memory.Places.{places_next};
ghost use Rattle.hm_history.specs.Memory.Plain.{owner, plain_next, written_for};
ghost use Rattle.hm_history.specs.Memory.Words.{page_of};
ghost use Rattle.hm_folds.specs.Been.{been_of, been_next};
ghost use Rattle.hm_laws.specs.Allowed.{InPage};
ghost use Rattle.hm_race_keys.specs.Arrays.{flag_in, lock_in};
ghost use Rattle.hm_race_keys.specs.FrameTables.{held_in, lockers_in};
ghost use Rattle.hm_race_keys.specs.PagePlaces.{places_in};
ghost use Rattle.hm_race_keys.specs.Trail.{entry_old};
ghost use Rattle.hm_race_states.specs.Bytes.{bytes_in};
ghost use Rattle.hm_race_states.specs.Mirrors.{mirrors_in};
ghost use Rattle.hm_race_states.specs.Spaces.{bare, spaces_in};
ghost use Rattle.hm_spaces.specs.Spaces.{SpacesFit};
ghost use Rattle.hm_flaw_states.specs.FrameBytes.{contents_in};
ghost use Rattle.hm_flaw_states.specs.OwnTables.{table_in};
ghost use Rattle.hm_flaw_states.specs.Owns.{StaysInPage};
ghost use Rattle.hm_flaw_states.specs.States.{plain_in, state_in};

use crate::details::Details;
use crate::frame_bytes::FrameBytes;
use crate::here::FlawHere;
use crate::own_tables::{OwnEntry, OwnTables};
use crate::owns::shown_at;
use crate::placing;
use crate::state::FlawState;
use hm_base::{Actor, Frame, NoMemory, Place, Proc};
use hm_flaws::Flaw;
use hm_history::{Kind, Who};
use hm_race_keys::device_marks::DeviceMarks;
use hm_race_keys::frame_locks::FrameLocks;
use hm_race_keys::held_frames::HeldFrames;
use hm_race_keys::map_locks::MapLocks;
use hm_race_keys::page_places::Places;
use hm_race_keys::table_entries::Mapping;
use hm_race_states::memory::RaceBytes;
use hm_race_states::mirrors::RaceMirrors;
use hm_race_states::spaces::RaceSpaces;
use std::alloc::Global;
use std::rc::Rc;

/// Which processes were there at some time, after an entry.
pub(crate) fn been_after(been: &[bool; 32], kind: &Kind) -> [bool; 32]
    ensures { been_of result ≡ been_next (been_of been.now) kind.now }
{
    let mut new = *been;
    if let Kind::Forked { parent: _, child } = kind {
        new[child.number() as usize] = true;
    }
    new
}

impl FlawState {
    pub(crate) fn spaces_after(
        &self,
        alloc: Global,
        kind: &Kind,
    ) -> Result<Rc<RaceSpaces>, NoMemory>
        requires { SpacesFit (plain_in self.now) kind.now }
        ensures { IfOk result
            (λ x. spaces_in x.value ≡ bare (plain_next (state_in self.now).after.plain kind.now)) }
    {
        match kind {
            Kind::Mapped { .. }
            | Kind::Unmapped { .. }
            | Kind::Protected { .. }
            | Kind::Named { .. }
            | Kind::Forked { .. }
            | Kind::Exited(..) => Ok(Rc::new(alloc, self.spaces.after(alloc, kind)?)?),
            _ => Ok(self.spaces.clone()?),
        }
    }

    // The process whose memory an access is of; none if its mirror was never attached.
    fn owner_of(&self, who: Who) -> Option<Proc>
        ensures { result ≡ owner (state_in self.now).after.plain who }
    {
        match who {
            Who::Cpu(proc) => Some(proc),
            Who::Mirror(mirror) => self.mirrors.owner(mirror),
        }
    }

    // The bytes of processes after some were written for who accesses.
    fn bytes_written(
        &self,
        alloc: Global,
        who: Who,
        addr: u64,
        written: &[u8],
    ) -> Result<Rc<RaceBytes>, NoMemory>
        requires { InPage addr (length written.now) }
        ensures { IfOk result (λ x. bytes_in x.value
            ≡ written_for (state_in self.now).after.plain.bytes (owner (state_in self.now).after.plain who) addr
            written.now) }
    {
        match self.owner_of(who) {
            None => Ok(self.bytes.clone()?),
            Some(proc) => {
                let mut new = self.bytes.copy(alloc)?;
                new.write(proc, addr, written)?;
                Ok(Rc::new(alloc, new)?)
            }
        }
    }

    pub(crate) fn bytes_after(&self, alloc: Global, kind: &Kind) -> Result<Rc<RaceBytes>, NoMemory>
        requires { StaysInPage kind.now }
        ensures { IfOk result (λ x. bytes_in x.value ≡ (plain_next (state_in self.now).after.plain kind.now).bytes) }
    {
        match kind {
            Kind::Mapped {
                proc,
                span,
                rights: _,
            } => {
                let mut new = self.bytes.copy(alloc)?;
                new.clear(*proc, *span);
                Ok(Rc::new(alloc, new)?)
            }
            Kind::Stored { who, addr, bytes } => {
                Ok(self.bytes_written(alloc, *who, *addr, bytes.as_slice())?)
            }
            Kind::Added {
                mirror,
                addr,
                read: _,
                written,
            } => Ok(self.bytes_written(alloc, Who::Mirror(*mirror), *addr, &[*written])?),
            Kind::Forked { parent, child } => {
                let mut new = self.bytes.copy(alloc)?;
                new.fork(alloc, *parent, *child)?;
                Ok(Rc::new(alloc, new)?)
            }
            _ => Ok(self.bytes.clone()?),
        }
    }

    pub(crate) fn mirrors_after(
        &self,
        alloc: Global,
        kind: &Kind,
    ) -> Result<Rc<RaceMirrors>, NoMemory>
        ensures { IfOk result
            (λ x. mirrors_in x.value ≡ (plain_next (state_in self.now).after.plain kind.now).mirrors) }
    {
        match kind {
            Kind::Attached { .. } | Kind::Detaching { .. } | Kind::Detached(..) => {
                let mut new = self.mirrors.copy(alloc)?;
                new.step(kind)?;
                Ok(Rc::new(alloc, new)?)
            }
            _ => Ok(self.mirrors.clone()?),
        }
    }

    pub(crate) fn places_after(&self, alloc: Global, kind: &Kind) -> Result<Rc<Places>, NoMemory>
        ensures { IfOk result (λ x. places_in x.value ≡ (places_next (state_in self.now).after.places kind.now).place) }
    {
        match kind {
            Kind::Place { .. } => {
                let mut new = self.places.copy(alloc)?;
                new.step(kind)?;
                Ok(Rc::new(alloc, new)?)
            }
            _ => Ok(self.places.clone()?),
        }
    }

    pub(crate) fn held_after(&self, alloc: Global, kind: &Kind) -> Result<Rc<HeldFrames>, NoMemory>
        ensures { IfOk result (λ x. held_in x.value ≡ (places_next (state_in self.now).after.places kind.now).held) }
    {
        match kind {
            Kind::Take(..) | Kind::Drop(..) => {
                let mut new = self.held.copy(alloc)?;
                new.step(kind)?;
                Ok(Rc::new(alloc, new)?)
            }
            _ => Ok(self.held.clone()?),
        }
    }

    pub(crate) fn marks_after(
        &self,
        alloc: Global,
        kind: &Kind,
    ) -> Result<Rc<DeviceMarks>, NoMemory>
        ensures withdrawn { IfOk result (λ x. flag_in x.value.withdrawn
            ≡ (places_next (state_in self.now).after.places kind.now).withdrawn) }
        ensures removed { IfOk result (λ x. flag_in x.value.removed
            ≡ (places_next (state_in self.now).after.places kind.now).removed) }
    {
        match kind {
            Kind::Withdrawn(..) | Kind::Removed(..) => {
                let mut new = *self.marks;
                new.step(kind);
                Ok(Rc::new(alloc, new)?)
            }
            _ => Ok(self.marks.clone()?),
        }
    }

    // The place of the page of an entry.
    fn place_before(&self, kind: &Kind) -> Place
        ensures { result ≡ entry_old (state_in self.now).after.places.place kind.now }
    {
        match kind {
            Kind::Place {
                proc,
                page,
                place: _,
            } => self.places.get(*proc, *page),
            _ => Place::Empty,
        }
    }

    /// The frame that the entry leaves without a name, if nobody has it locked: its actor drops it next.
    pub fn orphan(&self, kind: &Kind) -> Option<Frame>
        ensures { result ≡ orphan (state_in self.now).after.locks (state_in self.now).after.places kind.now }
    {
        placing::orphan(&self.locks, &self.places, &self.placed, kind)
    }

    pub(crate) fn locks_after(
        &self,
        alloc: Global,
        actor: Actor,
        kind: &Kind,
    ) -> Result<Rc<FrameLocks>, NoMemory>
        ensures { IfOk result (λ x. lockers_in x.value
            ≡ frame_next (state_in self.now).after.locks (state_in self.now).after.places actor kind.now) }
    {
        match kind {
            Kind::Take(..) | Kind::Done(..) | Kind::Drop(..) | Kind::Place { .. } => {
                let old = self.place_before(kind);
                let left = self.orphan(kind);
                let mut new = self.locks.copy(alloc)?;
                new.step(actor, kind, &old, &left)?;
                Ok(Rc::new(alloc, new)?)
            }
            _ => Ok(self.locks.clone()?),
        }
    }

    pub(crate) fn maps_after(
        &self,
        alloc: Global,
        actor: Actor,
        kind: &Kind,
    ) -> Result<Rc<MapLocks>, NoMemory>
        ensures { IfOk result (λ x. lock_in x.value.locks ≡ map_next (state_in self.now).after.locks actor kind.now) }
    {
        let mut new = self.maps.copy();
        new.step(actor, kind);
        if new.same(&self.maps) {
            return Ok(self.maps.clone()?);
        }
        Ok(Rc::new(alloc, new)?)
    }
}

// The frame that a process's page stands for; none without a process, and past the last page.
fn frame_for<W: Details>(world: &W, proc: Option<Proc>, addr: u64) -> Option<Frame>
    ensures { result
        ≡ backing (W.state world.now).after.places (place_for (W.state world.now).after.places proc (page_of addr)) }
{
    match proc {
        None => None,
        Some(proc) => shown_at(world, proc, addr),
    }
}

// Writes bytes into the frame that a process's page stands for, if there is a process.
fn store_for<W: Details>(
    world: &W,
    contents: &mut FrameBytes,
    proc: Option<Proc>,
    addr: u64,
    written: &[u8],
) -> Result<(), NoMemory>
    requires { InPage addr (length written.now) }
    ensures { OnOk result (contents_in contents.new
        ≡ stored_in (contents_in contents.old)
        (backing (W.state world.now).after.places (place_for (W.state world.now).after.places proc (page_of addr)))
        addr written.now) }
{
    let frame = frame_for(world, proc, addr);
    Ok(contents.store(&frame, addr, written)?)
}

impl<'a> FlawHere<'a> {
    // The tables after an entry that changes them.
    fn step_tables(&self, tables: &mut OwnTables, kind: &Kind) -> Result<(), NoMemory>
        requires { table_in tables.old ≡ (state_in self.now.state.now).after.places.table }
        ensures { OnOk result (table_in tables.new
            ≡ (places_next (state_in self.now.state.now).after.places kind.now).table) }
    {
        match kind {
            Kind::Set {
                mirror,
                page,
                target,
                right,
                since,
            } => {
                let mapping = Mapping {
                    target: *target,
                    right: *right,
                };
                let since = *since;
                tables.set(*mirror, *page, OwnEntry { mapping, since })
            }
            Kind::Told {
                mirror,
                span,
                seq: _,
            } => {
                tables.tell(self, Flaw::NoFlaw, false, *mirror, *span);
                Ok(())
            }
            Kind::Detaching { mirror, seq: _ } => {
                tables.leave(Flaw::NoFlaw, *mirror);
                Ok(())
            }
            Kind::Detached(mirror) => {
                tables.leave(Flaw::NoFlaw, *mirror);
                Ok(())
            }
            _ => Ok(()),
        }
    }

    pub(crate) fn tables_after(&self, alloc: Global, kind: &Kind) -> Result<Rc<OwnTables>, NoMemory>
        ensures { IfOk result (λ x. table_in x.value
            ≡ (places_next (state_in self.now.state.now).after.places kind.now).table) }
    {
        match kind {
            Kind::Set { .. } | Kind::Told { .. } | Kind::Detaching { .. } | Kind::Detached(..) => {
                let mut new = self.state.tables.copy(alloc)?;
                self.step_tables(&mut new, kind)?;
                Ok(Rc::new(alloc, new)?)
            }
            _ => Ok(self.state.tables.clone()?),
        }
    }

    // The bytes of frames after an access wrote some.
    fn contents_stored(
        &self,
        alloc: Global,
        who: Who,
        addr: u64,
        written: &[u8],
    ) -> Result<Rc<FrameBytes>, NoMemory>
        requires { InPage addr (length written.now) }
        ensures { IfOk result (λ x. contents_in x.value
            ≡ stored_in (state_in self.now.state.now).after.contents
            (backing (state_in self.now.state.now).after.places
            (place_for (state_in self.now.state.now).after.places
            (owner (state_in self.now.state.now).after.plain who) (page_of addr))) addr written.now) }
    {
        let proc = self.state.owner_of(who);
        let mut new = self.state.contents.copy(alloc)?;
        store_for(self, &mut new, proc, addr, written)?;
        Ok(Rc::new(alloc, new)?)
    }

    pub(crate) fn contents_after(
        &self,
        alloc: Global,
        kind: &Kind,
    ) -> Result<Rc<FrameBytes>, NoMemory>
        requires { StaysInPage kind.now }
        ensures { IfOk result (λ x. contents_in x.value
            ≡ contents_next (state_in self.now.state.now).after.plain (state_in self.now.state.now).after.places
            (state_in self.now.state.now).after.contents kind.now) }
    {
        match kind {
            Kind::Take(frame) => {
                let mut new = self.state.contents.copy(alloc)?;
                new.clear(frame);
                Ok(Rc::new(alloc, new)?)
            }
            Kind::Copied { from, to, part } => {
                let mut new = self.state.contents.copy(alloc)?;
                new.copy_part(alloc, from, to, *part)?;
                Ok(Rc::new(alloc, new)?)
            }
            Kind::Stored { who, addr, bytes } => {
                Ok(self.contents_stored(alloc, *who, *addr, bytes.as_slice())?)
            }
            Kind::Added {
                mirror,
                addr,
                read: _,
                written,
            } => Ok(self.contents_stored(alloc, Who::Mirror(*mirror), *addr, &[*written])?),
            _ => Ok(self.state.contents.clone()?),
        }
    }
}
