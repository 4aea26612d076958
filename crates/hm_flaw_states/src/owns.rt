// All that a driver has of its own.
ghost use Rattle.std.specs.Prelude.{◌≡◌, ℕ, [], length, IfOk, OnOk};
ghost use Rattle.hm_history.specs.Memory.Words.{with_at, page_of};
ghost use Rattle.hm_history.specs.Memory.Places.{with_entry};
ghost use Rattle.hm_history.specs.Memory.Sequences.{interval_proc};
ghost use Rattle.hm_history.specs.Memory.Contents.{backing};
ghost use Rattle.hm_history.specs.Memory.After.{After, after_nothing};
ghost use Rattle.hm_history.specs.declared.Kind as kinds;
ghost use Rattle.hm_flaws.specs.Drivers.{driver_of, driver_next, leaves_seq, is_late, erased_all, target_at};
ghost use Rattle.hm_flaws.specs.Drivers.{taken_contents, driver_contents};
ghost use Rattle.hm_flaws.specs.declared.flaws.Flaw.{Flaw as AnyFlaw};
ghost use Rattle.hm_laws.specs.Allowed.{InPage};
ghost use Rattle.hm_flaw_states.specs.Owns.{driver_in, leaves_bytes, StaysInPage};

use crate::details::Details;
use crate::frame_bytes::FrameBytes;
use crate::late_spans::{LateSpan, LateSpans};
use crate::own_tables::{OwnEntry, OwnTables, is_device};
use hm_base::frames::names;
use hm_base::{Actor, Frame, MirrorId, NoMemory, Page, Place, Proc, Span};
use hm_flaws::Flaw;
use hm_history::{Kind, TableRight, Who};
use hm_race_keys::table_entries::Mapping;
use hm_reads::operations::page_of;
use std::alloc::Global;

/// What a driver has of its own: its tables, the sequence of each mirror's interval, the spans that are erased at the
/// end of their invalidation, and the bytes of frames.
#[derive(Drop)]
pub struct Own {
    pub table: OwnTables,
    pub seqs: [u64; 32],
    pub late: LateSpans,
    pub bytes: FrameBytes,
}

// Whether the interval's sequence is left when its mirror is told.
fn leaves_seq(flaw: Flaw, own: bool) -> bool
    ensures { result ≡ leaves_seq flaw own }
{
    match flaw {
        Flaw::SequenceLeft => true,
        Flaw::OwnIgnored => own,
        Flaw::OwnSequenceLeft => own,
        _ => false,
    }
}

// Whether what a mirror is told of is erased at the end only.
fn is_late(flaw: Flaw) -> bool
    ensures { result ≡ is_late flaw }
{
    match flaw {
        Flaw::ErasedAtEnd => true,
        _ => false,
    }
}

/// The frame that a place stands for; none for the zero page and where nothing is mapped.
pub(crate) fn backing<W: Details>(world: &W, place: &Place) -> Option<Frame>
    ensures { result ≡ backing (W.state world.now).after.places place.now }
{
    match place {
        Place::Moving { frame, writable: _ } => match world.committed_to(frame) {
            Some(to) => Some(to),
            None => Some(*frame),
        },
        _ => names(place),
    }
}

/// The frame that a process's page stands for; none past the last page.
pub(crate) fn shown_at<W: Details>(world: &W, proc: Proc, addr: u64) -> Option<Frame>
    ensures { result
        ≡ backing (W.state world.now).after.places
        ((W.state world.now).after.places.place proc (page_of addr)) }
{
    if addr >= 1 << 48 {
        world.none_past();
        return None;
    }
    backing(world, &world.place(proc, page_of(addr)))
}

/// The sequence that a mirror's interval gets when it is told.
pub(crate) fn told_seq<W: Details>(world: &W, mirror: MirrorId) -> u64
    ensures { result
        ≡ (W.state world.now).after.sequences.seq (interval_proc (W.state world.now).after.sequences mirror) }
{
    match world.interval_proc(mirror) {
        Some(proc) => world.process_seq(proc),
        None => world.process_seq(Proc::new(0)),
    }
}

// Whether a frame that is taken keeps its bytes.
fn leaves_bytes(flaw: Flaw, frame: &Frame) -> bool
    ensures { result ≡ leaves_bytes flaw frame.now }
{
    match flaw {
        Flaw::NotCleared => is_device(frame),
        _ => false,
    }
}

impl Own {
    /// What the right driver has before the first entry.
    pub fn new(alloc: Global) -> Result<Own, NoMemory>
        ensures { IfOk result (λ x. driver_in x ≡ driver_of after_nothing) }
    {
        Ok(Own {
            table: OwnTables::new(alloc),
            seqs: [0; 32],
            late: LateSpans::new(alloc)?,
            bytes: FrameBytes::new(alloc),
        })
    }

    /// The frame of the table entry at an address of a mirror; none for the zero page, and if there is no entry, as
    /// past the last page.
    pub(crate) fn target(&self, mirror: MirrorId, addr: u64) -> Option<Frame>
        ensures { result ≡ target_at (driver_in self.now) mirror addr }
    {
        if addr >= 1 << 48 {
            self.table.facts();
            return None;
        }
        match self.table.get(mirror, page_of(addr)) {
            Some(entry) => entry.mapping.target,
            None => None,
        }
    }

    // A mirror was told of a span by an actor.
    fn tell<W: Details>(
        &mut self,
        world: &W,
        flaw: Flaw,
        own: bool,
        actor: Actor,
        mirror: MirrorId,
        span: Span,
    ) -> Result<(), NoMemory>
        ensures { OnOk result ((q : ℕ)
            → driver_in self.new
            ≡ driver_next flaw (W.state world.now).after own (driver_in self.old) actor
            (kinds.Kind.Told mirror span q)) }
    {
        self.table.tell(world, flaw, own, mirror, span);
        if !leaves_seq(flaw, own) {
            self.seqs[mirror.number() as usize] = told_seq(world, mirror);
        }
        if is_late(flaw) {
            self.late.push(actor, LateSpan { mirror, span })?;
        }
        Ok(())
    }

    // The actor's invalidation ends.
    fn end(&mut self, actor: Actor)
        ensures { driver_in self.new ≡ record (driver_in self.old) {
          table = erased_all (driver_in self.old).table ((driver_in self.old).late actor);
          late = with_at (driver_in self.old).late actor [];
        } }
    {
        self.table.erase_all(self.late.at(actor));
        self.late.clear(actor);
    }

    // The bytes of an access are written into the frame that it goes to.
    fn store<W: Details>(
        &mut self,
        world: &W,
        who: Who,
        addr: u64,
        bytes: &[u8],
    ) -> Result<(), NoMemory>
        requires { InPage addr (length bytes.now) }
        ensures { OnOk result ((l : AnyFlaw)
            → driver_in self.new ≡ record (driver_in self.old) {
              contents = driver_contents l (W.state world.now).after (driver_in self.old) (kinds.Kind.Stored who addr
                  bytes.now);
            }) }
    {
        let frame = match who {
            Who::Cpu(proc) => shown_at(world, proc, addr),
            Who::Mirror(mirror) => self.target(mirror, addr),
        };
        Ok(self.bytes.store(&frame, addr, bytes)?)
    }

    // A frame was taken.
    fn take(&mut self, flaw: Flaw, frame: &Frame)
        ensures { (s : After) → driver_in self.new ≡ record (driver_in self.old) {
          contents = taken_contents flaw s (driver_in self.old).contents frame.now;
        } }
    {
        if !leaves_bytes(flaw, frame) {
            self.bytes.clear(frame);
        }
    }

    // A mirror's page is set.
    fn set(
        &mut self,
        mirror: MirrorId,
        page: Page,
        target: Option<Frame>,
        right: TableRight,
        since: u64,
    ) -> Result<(), NoMemory>
        ensures { OnOk result
            (driver_in self.new ≡ record (driver_in self.old) {
              table = with_entry (driver_in self.old).table mirror page (record {
                target = target;
                right = right;
                from = since;
              });
            }) }
    {
        let mapping = Mapping { target, right };
        Ok(self.table.set(mirror, page, OwnEntry { mapping, since })?)
    }

    // The bytes after an entry.
    fn step_bytes<W: Details>(
        &mut self,
        alloc: Global,
        world: &W,
        flaw: Flaw,
        kind: &Kind,
    ) -> Result<(), NoMemory>
        requires { StaysInPage kind.now }
        ensures { OnOk result (driver_in self.new ≡ record (driver_in self.old) {
          contents = driver_contents flaw (W.state world.now).after (driver_in self.old) kind.now;
        }) }
    {
        match kind {
            Kind::Take(frame) => {
                self.take(flaw, frame);
                Ok(())
            }
            Kind::Stored { who, addr, bytes } => {
                Ok(self.store(world, *who, *addr, bytes.as_slice())?)
            }
            Kind::Added {
                mirror,
                addr,
                read: _,
                written,
            } => Ok(self.store(world, Who::Mirror(*mirror), *addr, &[*written])?),
            Kind::Copied { from, to, part } => Ok(self.bytes.copy_part(alloc, from, to, *part)?),
            _ => Ok(()),
        }
    }

    /// What the driver has after an entry of the actor; `world` is the state before it, and `own` says that the entry
    /// tells a mirror of an invalidation for a migration of its own device. If memory runs out, it is of no more use.
    pub fn step<W: Details>(
        &mut self,
        alloc: Global,
        world: &W,
        flaw: Flaw,
        own: bool,
        actor: Actor,
        kind: &Kind,
    ) -> Result<(), NoMemory>
        requires { StaysInPage kind.now }
        ensures { OnOk result
            (driver_in self.new
            ≡ driver_next flaw (W.state world.now).after own (driver_in self.old) actor kind.now) }
    {
        match kind {
            Kind::Set {
                mirror,
                page,
                target,
                right,
                since,
            } => Ok(self.set(*mirror, *page, *target, *right, *since)?),
            Kind::Told {
                mirror,
                span,
                seq: _,
            } => Ok(self.tell(world, flaw, own, actor, *mirror, *span)?),
            Kind::End { .. } => {
                self.end(actor);
                Ok(())
            }
            Kind::Detaching { mirror, seq: _ } => {
                self.table.leave(flaw, *mirror);
                Ok(())
            }
            Kind::Detached(mirror) => {
                self.table.leave(flaw, *mirror);
                Ok(())
            }
            Kind::Attached { mirror, proc, .. } => {
                self.seqs[mirror.number() as usize] = world.interval_inserted(*proc);
                Ok(())
            }
            Kind::Copied { from, .. } => {
                self.table.bring(alloc, flaw, from)?;
                Ok(self.step_bytes(alloc, world, flaw, kind)?)
            }
            _ => Ok(self.step_bytes(alloc, world, flaw, kind)?),
        }
    }
}
