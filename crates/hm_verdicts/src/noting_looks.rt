// What the events of look-ups make of what is known.
ghost use Rattle.std.specs.Prelude.{◌≡◌, OnOk};
ghost use Rattle.hm_protocol.specs.declared.events.Event.{Event as AnyEvent};
ghost use Rattle.hm_protocol.specs.declared.events.TraceFrame.{TraceFrame};
ghost use Rattle.hm_protocol.specs.Noted.{noted, begin, walk, commit};
ghost use Rattle.hm_verdicts.specs.Knowledge.{known_of};

use crate::knowledge::Knowledge;
use crate::looking::{follow, give_up, give_up_by_walk, learn_device, note_early, note_stale};
use hm_base::NoMemory;

impl Knowledge {
    // A look-up begins.
    pub(crate) fn begin(&mut self, thread: u64, mirror: u64, seq: u64) -> Result<(), NoMemory>
        ensures { OnOk result (known_of self.new ≡ begin (known_of self.old) thread mirror seq) }
    {
        let mut look = self.looks.take(self.alloc, thread, mirror)?;
        give_up(&mut self.given_up, &self.calls, mirror, &look)?;
        follow(&mut self.early, thread, mirror, &look)?;
        note_early(
            &mut self.early,
            &self.calls,
            thread,
            mirror,
            seq,
            false,
            self.at,
        )?;
        look.begin(self.at, seq);
        self.looks.put(self.alloc, thread, mirror, look)?;
        Ok(())
    }

    // A walk begins, for this owner.
    pub(crate) fn walk(
        &mut self,
        thread: u64,
        mirror: u64,
        seq: u64,
        owner: Option<u64>,
    ) -> Result<(), NoMemory>
        ensures { OnOk result (known_of self.new ≡ walk (known_of self.old) thread mirror seq owner) }
    {
        let mut look = self.looks.take(self.alloc, thread, mirror)?;
        give_up_by_walk(&mut self.given_up, &self.calls, mirror, &look, seq)?;
        note_early(
            &mut self.early,
            &self.calls,
            thread,
            mirror,
            seq,
            true,
            self.at,
        )?;
        learn_device(&mut self.device, mirror, owner)?;
        look.walk(self.alloc, self.at, seq);
        self.looks.put(self.alloc, thread, mirror, look)?;
        Ok(())
    }

    // It has found a page.
    pub(crate) fn found(
        &mut self,
        thread: u64,
        mirror: u64,
        page: u64,
        writes: bool,
    ) -> Result<(), NoMemory>
        ensures { OnOk result (known_of self.new
            ≡ noted (known_of self.old) thread (AnyEvent.Found mirror page TraceFrame.Nothing writes)) }
    {
        let mut look = self.looks.take(self.alloc, thread, mirror)?;
        look.find(page, writes)?;
        self.looks.put(self.alloc, thread, mirror, look)?;
        Ok(())
    }

    // It is over, and went through if it is done.
    pub(crate) fn walked(&mut self, thread: u64, mirror: u64, done: bool) -> Result<(), NoMemory>
        ensures { OnOk result (known_of self.new ≡ noted (known_of self.old) thread (AnyEvent.Walked mirror done)) }
    {
        let mut look = self.looks.take(self.alloc, thread, mirror)?;
        look.end_walk(self.at, done);
        self.looks.put(self.alloc, thread, mirror, look)?;
        Ok(())
    }

    // It is committed.
    pub(crate) fn commit(&mut self, thread: u64, mirror: u64) -> Result<(), NoMemory>
        ensures { OnOk result (known_of self.new ≡ commit (known_of self.old) thread mirror) }
    {
        let mut look = self.looks.take(self.alloc, thread, mirror)?;
        note_stale(&mut self.stale, &self.calls, mirror, &look, self.at)?;
        look.commit();
        self.looks.put(self.alloc, thread, mirror, look)?;
        Ok(())
    }
}
