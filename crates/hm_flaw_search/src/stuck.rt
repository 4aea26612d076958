// Whether nobody can go on at a state.
ghost use Rattle.std.specs.Prelude.{◌≡◌, not, IfOk};
ghost use Rattle.std.specs.List.{list_all};
ghost use Rattle.hm_history.specs.Kernel.Run.{actors_of, is_entry};
ghost use Rattle.hm_flaws.specs.Flawed.{due_by};
ghost use Rattle.hm_flaws.specs.Races.{is_stuck};
ghost use Rattle.hm_race_laws.specs.Outcomes.{ended_in};
ghost use Rattle.hm_flaw_states.specs.Keyed.{form_in};

use crate::race::FlawRace;
use hm_base::{Actor, NoMemory};
use hm_flaw_states::due_by;
use hm_flaw_states::here::FlawHere;
use hm_flaw_states::key::FlawKey;
use hm_history::Progress;
use hm_reads::Reads;
use skip_rules::Multiples;

impl<'a> FlawRace<'a> {
    /// Whether an entry is due to the actor.
    pub fn can_go(&self, key: &FlawKey, actor: Actor) -> Result<bool, NoMemory>
        ensures { IfOk result
            (λ b. b ≡ is_entry (due_by self.now.flaw self.now.script (form_in key.now).flawed actor)) }
    {
        let here = FlawHere {
            script: self.script,
            state: &key.state,
        };
        match due_by(&here, &key.own, self.flaw, &Multiples, self.alloc, actor)? {
            Progress::Did(_) => Ok(true),
            Progress::Waiting(_) | Progress::Idle => Ok(false),
        }
    }

    // Whether an entry is due to no actor.
    fn none_can_go(&self, key: &FlawKey) -> Result<bool, NoMemory>
        ensures { IfOk result (λ b. b
            ≡ list_all (λ a. not (is_entry (due_by self.now.flaw self.now.script (form_in key.now).flawed a)))
            (actors_of self.now.script)) }
    {
        for number in 0..self.count() {
            if self.can_go(key, Actor::new(number))? {
                return Ok(false);
            }
        }
        Ok(true)
    }

    // Whether all operations of all actors have ended.
    fn have_ended(&self, key: &FlawKey) -> bool
        ensures { result ≡ ended_in self.now.script (form_in key.now).flawed.state }
    {
        let here = FlawHere {
            script: self.script,
            state: &key.state,
        };
        for number in 0..self.count() {
            if here.op(Actor::new(number)).is_some() {
                return false;
            }
        }
        true
    }

    /// Whether nothing is due to any actor at the state with this key, and some operation has not ended.
    pub(crate) fn is_stuck_at(&self, key: &FlawKey) -> Result<bool, NoMemory>
        ensures { IfOk result
            (λ b. b ≡ is_stuck self.now.flaw self.now.script (form_in key.now).flawed) }
    {
        if self.none_can_go(key)? {
            return Ok(!self.have_ended(key));
        }
        Ok(false)
    }
}
