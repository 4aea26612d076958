// What the right driver owed: where a driver first does otherwise in a race, and what was due there.
ghost use Rattle.std.specs.Prelude.{◌≡◌, IfOk};
ghost use Rattle.hm_flaw_states.specs.Keyed.{form_in};
ghost use Rattle.hm_flaw_search.specs.Owing.{IsOwedAt, earlier};

use crate::answer::Owed;
use crate::differing::same_due;
use crate::race::FlawRace;
use hm_base::{Actor, NoMemory};
use hm_flaw_states::key::FlawKey;
use hm_flaws::Flaw;
use hm_history::Progress;

/// The earlier of two.
pub(crate) fn earlier(was: Option<Owed>, now: Option<Owed>) -> Option<Owed>
    ensures { result ≡ earlier was now }
{
    match was {
        Some(owed) => Some(owed),
        None => now,
    }
}

impl<'a> FlawRace<'a> {
    /// What is owed at a turn of the actor.
    pub(crate) fn owed_at(&self, key: &FlawKey, actor: Actor) -> Result<Option<Owed>, NoMemory>
        ensures { IfOk result (IsOwedAt self.now.flaw self.now.script (form_in key.now) actor) }
    {
        if key.part().is_some() {
            return Ok(None);
        }
        let made = self.due_with(self.flaw, key, actor)?;
        let due = self.due_with(Flaw::NoFlaw, key, actor)?;
        if same_due(&made, &due) {
            return Ok(None);
        }
        match made {
            Progress::Did(_) => Ok(Some(Owed {
                at: key.state.entries,
                actor,
                due,
            })),
            Progress::Waiting(_) | Progress::Idle => Ok(None),
        }
    }
}
