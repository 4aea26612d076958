// A machine that threads share.
ghost use Rattle.std.specs.Prelude.{◌≡◌, ◌-◌, length, option_copied, slice_get};
ghost use Rattle.hm_base.specs.Program.{IsScript};
ghost use Rattle.hm_history.specs.Kernel.Due.{due};
ghost use Rattle.hm_history.specs.Kernel.Legal.{Legal};
ghost use Rattle.hm_history.specs.Memory.Plain.{mirror_owner, touched};
ghost use Rattle.hm_turns.specs.Stepping.{Steps};
ghost use Rattle.hm_world.specs.WorldValue.{HaltsRightly, now};

use crate::copies::copy_entry;
use crate::{Machine, Turn};
use hm_base::{Actor, MirrorId, NoMemory, Proc};
use hm_history::{Entry, Kind, Progress, StepError, Who};
use hm_reads::Reads;
use hm_turns::Stepped;
use skip_rules::SkipRule;

// The last entry.
fn last(history: &[Entry]) -> Option<&Entry>
    ensures { option_copied result ≡ slice_get history.now (length history.now - 1) }
{
    history.get(history.len().saturating_sub(1))
}

impl<R: SkipRule> Machine<R> {
    /// Costs nothing: it hands the prover what holds of every machine.
    pub fn stands(&self)
        ensures script { IsScript self.now.script }
        ensures legal { Legal self.now.script self.now.history }
        ensures halted { HaltsRightly self.now.script self.now.history self.now.halted }
    {
        hm_laws::every_history_is_legal();
        self.world.facts();
    }

    // Adds an entry that is due, and answers a copy, for which memory is taken before.
    fn add_copied(&mut self, entry: Entry) -> Result<Progress, StepError>
        requires running { self.old.halted ≡ None }
        requires due { due self.old.script self.old.history entry.actor ≡ Progress.Did entry }
        ensures { Steps (Progress.Did entry) self.old.history result self.new.history self.new.halted
            × (self.new.script ≡ self.old.script) }
    {
        match copy_entry(self.alloc, &entry) {
            Ok(copy) => match self.add(entry) {
                Ok(_) => Ok(Progress::Did(copy)),
                Err(error) => Err(error),
            },
            Err(NoMemory) => {
                self.halt_short();
                Err(StepError::NoMemory)
            }
        }
    }

    // The process of a mirror that was attached.
    fn owner(&self, mirror: MirrorId) -> Option<Proc>
        ensures { result ≡ mirror_owner (now self.now).after.plain mirror }
    {
        if self.world.has_mirror(mirror) {
            Some(self.world.mirror_proc(mirror))
        } else {
            None
        }
    }

    // The process whose plain state such an entry changes.
    fn touched_by(&self, kind: &Kind) -> Option<Proc>
        ensures { result ≡ touched (now self.now).after.plain kind.now }
    {
        match kind {
            Kind::Mapped { proc, .. } => Some(*proc),
            Kind::Unmapped { proc, .. } => Some(*proc),
            Kind::Protected { proc, .. } => Some(*proc),
            Kind::Exited(proc) => Some(*proc),
            Kind::Stored {
                who: Who::Cpu(proc),
                ..
            } => Some(*proc),
            Kind::Stored {
                who: Who::Mirror(mirror),
                ..
            } => self.owner(*mirror),
            Kind::Added { mirror, .. } => self.owner(*mirror),
            Kind::Forked { parent: _, child } => Some(*child),
            _ => None,
        }
    }
}

impl<R: SkipRule> Stepped for Machine<R> {
    ghost use Rattle.hm_history.specs.Kernel.Due.{due};
    ghost use Rattle.hm_history.specs.Kernel.Legal.{Legal};

    ghost script = { λ m. m.script };

    ghost history = { λ m. m.history };

    ghost halt = { λ m. m.halted };

    ghost legal = { Legal };

    ghost due = { due };

    fn step(&mut self, actor: Actor) -> Result<Progress, StepError> {
        self.stands();
        if let Some(error) = self.world.halted() {
            return Err(error);
        }
        self.world.facts();
        let result = match hm_steps::due(&*self.world, &self.rule, self.alloc, actor) {
            Ok(Progress::Did(entry)) => self.add_copied(entry),
            Ok(Progress::Waiting(why)) => Ok(Progress::Waiting(why)),
            Ok(Progress::Idle) => Ok(Progress::Idle),
            Err(NoMemory) => {
                self.halt_short();
                Err(StepError::NoMemory)
            }
        };
        self.stands();
        result
    }

    fn halted(&self) -> Option<StepError> {
        self.stands();
        self.world.halted()
    }

    fn length(&self) -> u64 {
        self.stands();
        self.world.history().len()
    }

    fn touched(&self) -> Option<Proc> {
        match last(self.world.history().as_slice()) {
            None => None,
            Some(entry) => self.touched_by(&entry.kind),
        }
    }
}
