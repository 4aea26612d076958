// What the events of migrations and of tables make of what is known.
ghost use Rattle.std.specs.Prelude.{◌≡◌, OnOk, false};
ghost use Rattle.hm_history.specs.declared.TableRight.{TableRight as AnyRight};
ghost use Rattle.hm_protocol.specs.declared.events.Event.{Event as AnyEvent};
ghost use Rattle.hm_protocol.specs.Noted.{noted};
ghost use Rattle.hm_verdicts.specs.Knowledge.{known_of};

use crate::asking::is_look_up;
use crate::frames::is_sole;
use crate::knowledge::Knowledge;
use crate::moves::Move;
use crate::moving::{Collected, Freed, Known, Moved, PageSet, Stayed};
use crate::slots::Slot;
use crate::{frames, table};
use hm_base::NoMemory;
use hm_history::TableRight;
use hm_protocol::{TraceFrame, TraceSpan};

impl Knowledge {
    // A migration has collected its pages.
    pub(crate) fn set_up(
        &mut self,
        thread: u64,
        proc: u64,
        span: TraceSpan,
        to_device: bool,
        owner: Option<u64>,
    ) -> Result<(), NoMemory>
        ensures { OnOk result
            (known_of self.new ≡ noted (known_of self.old) thread (AnyEvent.Setup proc span to_device owner)) }
    {
        let one = Move::new(self.alloc, self.at, span, to_device);
        self.moves.push(self.alloc, thread, one)?;
        Ok(())
    }

    // It has collected a page.
    pub(crate) fn from(
        &mut self,
        thread: u64,
        page: u64,
        frame: TraceFrame,
        writes: bool,
    ) -> Result<(), NoMemory>
        ensures { OnOk result
            (known_of self.new ≡ noted (known_of self.old) thread (AnyEvent.From page frame writes)) }
    {
        self.moves
            .change_newest(self.alloc, thread, &Collected(page, writes))
    }

    // A page has moved.
    pub(crate) fn moved(
        &mut self,
        thread: u64,
        page: u64,
        frame: TraceFrame,
    ) -> Result<(), NoMemory>
        ensures { OnOk result (known_of self.new ≡ noted (known_of self.old) thread (AnyEvent.Moved page frame)) }
    {
        self.moves.change_newest(self.alloc, thread, &Moved(page))
    }

    // A page was given a frame, and does not have it.
    pub(crate) fn stayed(
        &mut self,
        thread: u64,
        page: u64,
        frame: TraceFrame,
    ) -> Result<(), NoMemory>
        ensures { OnOk result (known_of self.new ≡ noted (known_of self.old) thread (AnyEvent.Stayed page frame)) }
    {
        self.moves
            .change_newest(self.alloc, thread, &Stayed(page, frame))
    }

    // What moved is known.
    pub(crate) fn paged(&mut self, thread: u64, proc: u64) -> Result<(), NoMemory>
        ensures { OnOk result (known_of self.new ≡ noted (known_of self.old) thread (AnyEvent.Paged proc)) }
    {
        let moves = self.moves.oldest_first(thread);
        self.calls
            .know_inner(self.alloc, &self.device, thread, moves)?;
        self.moves.change_newest(self.alloc, thread, &Known)
    }

    // It is over.
    pub(crate) fn finalize(&mut self, thread: u64, proc: u64) -> Result<(), NoMemory>
        ensures { OnOk result (known_of self.new ≡ noted (known_of self.old) thread (AnyEvent.Finalize proc)) }
    {
        self.moves.pop(self.alloc, thread)?;
        Ok(())
    }

    // A frame is free.
    pub(crate) fn free(&mut self, thread: u64, frame: TraceFrame) -> Result<(), NoMemory>
        ensures { OnOk result (known_of self.new ≡ noted (known_of self.old) thread (AnyEvent.Free frame)) }
    {
        frames::free(&mut self.held, frame);
        self.moves.change_all(self.alloc, thread, &Freed(frame))
    }

    // An entry is set.
    pub(crate) fn set(
        &mut self,
        thread: u64,
        mirror: u64,
        page: u64,
        frame: TraceFrame,
        right: TableRight,
    ) -> Result<(), NoMemory>
        ensures { OnOk result
            (known_of self.new ≡ noted (known_of self.old) thread (AnyEvent.Set mirror page frame right)) }
    {
        let is_look_up = is_look_up(self, thread, page, right);
        table::set(&mut self.slots, Slot::new(mirror, page, right, self.at))?;
        self.calls.set_over(mirror, page)?;
        if is_look_up {
            return self.commit(thread, mirror);
        }
        if is_sole(right) {
            return Ok(());
        }
        self.moves.change_newest(self.alloc, thread, &PageSet(page))
    }
}
