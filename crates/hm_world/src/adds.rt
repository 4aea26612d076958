// How a world goes on by an entry.
ghost use Rattle.std.specs.Prelude.{◌≡◌, ℕ, ◌<◌, ◌∷◌, List, None, Some, length, OnOk, OnErr};
ghost use Rattle.hm_base.specs.declared.limits.TheConstants.{MOST_ENTRIES};
ghost use Rattle.hm_history.specs.Kernel.Due.{due};
ghost use Rattle.hm_history.specs.declared.Progress.{Progress};
ghost use Rattle.hm_world.specs.WorldValue.{grown, now};
ghost use Rattle.hm_world.specs.Fits.{Fits};

use crate::World;
use crate::rooms::{lost, reserve};
use crate::steps::{step_frames, step_tables};
use hm_base::NoMemory;
use hm_history::Entry;
use hm_history::phases::Seen;

impl World {
    /// Adds an entry that is due. Where memory runs out, that is before the first change.
    #[inline(always)]
    pub fn add(&mut self, entry: Entry) -> Result<(), NoMemory>
        requires limit { length self.old.history < MOST_ENTRIES }
        requires running { self.old.halted ≡ None }
        requires due { due self.old.script self.old.history entry.actor ≡ Progress.Did entry }
        ensures added { OnOk result (self.new ≡ grown self.old entry.actor entry.kind) }
        ensures same { OnErr result (self.new ≡ self.old) }
    {
        match reserve(
            &mut self.history,
            &mut self.tables,
            &mut self.mirrors,
            &mut self.actors,
            &mut self.notifiers,
            &entry,
        ) {
            Ok(_) => (),
            Err(_) => return lost(entry),
        }
        let actor = entry.actor;
        let kind = &entry.kind;
        let before = self.place_before(kind);
        let orphan = self.left_behind(kind, &before);
        let seen = Seen {
            at: self.history.len(),
            overlapped: self.overlaps(kind),
            place: self.place_seen(actor, kind, &before),
            orphan,
            page: self.page_seen(actor),
        };
        self.actors.step(&self.script, actor, kind, &seen);
        self.spaces.step(actor, kind);
        step_frames(&mut self.frames, actor, kind, &before, &orphan);
        step_tables(&mut self.tables, kind, &before);
        self.notifiers.step(kind);
        self.mirrors.step(kind);
        self.history.push_reserved(entry);
        Ok(())
    }
}
