// What an event makes of what is known.
ghost use Rattle.std.specs.Prelude.{◌≡◌, OnOk};
ghost use Rattle.hm_protocol.specs.declared.events.Event.{Event as AnyEvent};
ghost use Rattle.hm_protocol.specs.Noted.{noted, known_next, withdraw, pass_over, held_more, over};
ghost use Rattle.hm_verdicts.specs.Knowledge.{known_of};

use crate::insides::Inside;
use crate::knowledge::Knowledge;
use crate::{frames, table};
use hm_base::NoMemory;
use hm_protocol::{Event, Reason, TraceFrame, TraceSpan, Traced};

impl Knowledge {
    // An interval is about to be inserted.
    pub(crate) fn insert(
        &mut self,
        mirror: u64,
        window: TraceSpan,
        device: Option<u64>,
    ) -> Result<(), NoMemory>
        ensures { OnOk result
            (known_of self.new ≡ noted (known_of self.old) 0 (AnyEvent.Insert mirror 0 window device)) }
    {
        self.device.set_or_take(mirror, device)?;
        self.first.set(mirror, window.first())?;
        self.gone.set(mirror, false)?;
        table::forget(&mut self.slots, mirror);
        self.looks.forget(mirror);
        Ok(())
    }

    // One is about to be removed.
    pub(crate) fn remove(&mut self, mirror: u64) -> Result<(), NoMemory>
        ensures { OnOk result (known_of self.new ≡ noted (known_of self.old) 0 (AnyEvent.Remove mirror)) }
    {
        let is_leaving = self.calls.are_telling(mirror);
        self.leaving.set(mirror, is_leaving)?;
        Ok(())
    }

    // It is removed.
    pub(crate) fn removed(&mut self, mirror: u64) -> Result<(), NoMemory>
        ensures { OnOk result (known_of self.new ≡ noted (known_of self.old) 0 (AnyEvent.Removed mirror)) }
    {
        self.gone.set(mirror, true)?;
        Ok(())
    }

    // A device gives out no frame any more.
    pub(crate) fn withdraw(&mut self, device: u64) -> Result<(), NoMemory>
        ensures { OnOk result (known_of self.new ≡ withdraw (known_of self.old) device) }
    {
        let is_held = frames::are_of(&self.held, device);
        self.withdrawn.set(device, true)?;
        self.held_then.set(device, is_held)?;
        self.passed.set(device, false)?;
        Ok(())
    }

    // A removal passes over a frame.
    pub(crate) fn pass(&mut self, frame: TraceFrame) -> Result<(), NoMemory>
        ensures { OnOk result (known_of self.new ≡ noted (known_of self.old) 0 (AnyEvent.Pass frame)) }
    {
        if let Some(device) = frames::device_of(frame) {
            if self.withdrawn.has(device) {
                self.passed.set(device, true)?;
            }
        }
        Ok(())
    }

    // A frame is given out.
    pub(crate) fn take(&mut self, frame: TraceFrame) -> Result<(), NoMemory>
        ensures { OnOk result (known_of self.new ≡ noted (known_of self.old) 0 (AnyEvent.Take frame)) }
    {
        if let Some(device) = frames::device_of(frame) {
            if !self.withdrawn.has(device) {
                frames::hold(&mut self.held, frame)?;
            }
        }
        Ok(())
    }
}
