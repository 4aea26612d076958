// An event more.
ghost use Rattle.std.specs.Prelude.{◌≡◌, ◌<◌, ◌^◌, false, OnOk};
ghost use Rattle.hm_protocol.specs.Noted.{noted, known_next};
ghost use Rattle.hm_verdicts.specs.Kinds.{is_of_notifiers, is_of_mirrors};
ghost use Rattle.hm_verdicts.specs.Knowledge.{known_of};

use crate::knowledge::Knowledge;
use hm_base::NoMemory;
use hm_protocol::{Event, Traced};

impl Knowledge {
    // What an event of a migration or of a frame makes of what is known, or one that makes nothing of it.
    fn note_other(&mut self, thread: u64, event: &Event) -> Result<(), NoMemory>
        requires { is_of_mirrors event.now ≡ false }
        ensures { OnOk result (known_of self.new ≡ noted (known_of self.old) thread event.now) }
    {
        match *event {
            Event::Setup {
                proc,
                span,
                to_device,
                owner,
            } => self.set_up(thread, proc, span, to_device, owner),
            Event::From {
                page,
                frame,
                writes,
            } => self.from(thread, page, frame, writes),
            Event::Moved { page, frame } => self.moved(thread, page, frame),
            Event::Stayed { page, frame } => self.stayed(thread, page, frame),
            Event::Paged { proc } => self.paged(thread, proc),
            Event::Finalize { proc } => self.finalize(thread, proc),
            Event::Take { frame } => self.take(frame),
            Event::Free { frame } => self.free(thread, frame),
            Event::Withdraw { device } => self.withdraw(device),
            Event::Pass { frame } => self.pass(frame),
            Event::Inserted { .. } | Event::Ready { .. } | Event::Use { .. } => Ok(()),
            Event::Fetch { .. } | Event::Add { .. } | Event::Gone { .. } => Ok(()),
            _ => unreachable!(),
        }
    }

    // What one of a look-up or of a table does, or one of those.
    fn note_table(&mut self, thread: u64, event: &Event) -> Result<(), NoMemory>
        requires { is_of_notifiers event.now ≡ false }
        ensures { OnOk result (known_of self.new ≡ noted (known_of self.old) thread event.now) }
    {
        match *event {
            Event::Begin { mirror, seq } => self.begin(thread, mirror, seq),
            Event::Walk {
                mirror,
                seq,
                owner,
                ..
            } => self.walk(thread, mirror, seq, owner),
            Event::Found {
                mirror,
                page,
                writes,
                ..
            } => self.found(thread, mirror, page, writes),
            Event::Walked { mirror, done } => self.walked(thread, mirror, done),
            Event::Set {
                mirror,
                page,
                frame,
                right,
            } => self.set(thread, mirror, page, frame, right),
            Event::Erase { mirror, page } => self.erase(thread, mirror, page),
            _ => self.note_other(thread, event),
        }
    }

    // What an event of a thread makes of what is known, but for its position.
    fn note_event(&mut self, thread: u64, event: &Event) -> Result<(), NoMemory>
        ensures { OnOk result (known_of self.new ≡ noted (known_of self.old) thread event.now) }
    {
        match *event {
            Event::Insert {
                mirror,
                window,
                device,
                ..
            } => self.insert(mirror, window, device),
            Event::Remove { mirror } => self.remove(mirror),
            Event::Removed { mirror } => self.removed(mirror),
            Event::Start {
                proc,
                span,
                reason,
                owner,
            } => self.start(thread, proc, span, reason, owner),
            Event::End { proc, span } => self.end(thread, proc, span),
            Event::Tell { mirror, span, seq } => self.tell(thread, mirror, span, seq),
            Event::Told { mirror, seq, done } => if done {
                self.told(thread, mirror, seq)
            } else {
                self.not_told(thread, mirror, seq)
            },
            _ => self.note_table(thread, event),
        }
    }

    /// Notes an event. After a failure nothing is known.
    pub fn note(&mut self, event: &Traced) -> Result<(), NoMemory>
        requires { self.old.at < 2 ^ 32 }
        ensures { OnOk result (known_of self.new ≡ known_next (known_of self.old) event.now) }
    {
        let at = self.at;
        self.note_event(event.thread, &event.event)?;
        self.last.set(event.thread, at)?;
        self.at = at + 1;
        Ok(())
    }
}
