// The race of a script, for the search.
ghost use Rattle.std.specs.Prelude.{◌≡◌, ◌+◌, ◌≤◌, ℕ, length, IfOk, IfErr, IfSome};
ghost use Rattle.hm_base.specs.declared.limits.TheConstants.{MOST_ACTORS, MOST_ENTRIES};
ghost use Rattle.hm_history.specs.Kernel.Run.{run};
ghost use Rattle.hm_race_laws.specs.Blur.{form_of};
ghost use Rattle.hm_race_laws.specs.Outcomes.{Point, Reached, point_from};
ghost use Rattle.hm_race_top.specs.Run.Known.{IsNext, MayFail};
ghost use Rattle.hm_race_top.specs.Run.Systems.{race_of};
ghost use Rattle.hm_race_top.specs.Run.Turns.{IsShown};
ghost use Rattle.hm_race_states.specs.Keyed.{form_in};

use crate::run::keys::{first_key, has_ended, next_key};
use crate::run::laws::races_are_systems;
use hm_base::{Actor, NoMemory, Script};
use hm_history::{History, StepError};
use hm_machine::Machine;
use hm_race_states::key::StateKey;
use hm_search::System;
use skip_rules::Multiples;
use std::alloc::Global;
use std::marker::Model;

/// The race of a script: the entries of its schedule are the set-up.
#[derive(Drop)]
pub struct ScriptRace {
    alloc: Global,
    script: Script,
    set_up: History,
}

impl Model for ScriptRace {
    ghost use Rattle.hm_race_top.specs.Run.Races.{RaceValue, IsRace};

    ghost Value = { RaceValue };

    ghost view = { λ r. record { script = r.script; set_up = r.set_up.entries } };

    ghost invariant = { λ r. IsRace (record { script = r.script; set_up = r.set_up.entries }) };
}

/// A script, with the entries of its schedule. It fails if memory runs out, and if the history has all its entries and
/// one more is due.
pub fn set_up_of(alloc: Global, script: Script) -> Result<(Script, History), StepError>
    ensures script { IfOk result (λ x. x.0 ≡ script) }
    ensures run { IfOk result (λ x. x.1.entries ≡ run script) }
    ensures few { IfOk result (λ x. length x.1.entries ≤ MOST_ENTRIES) }
    ensures fails { IfErr result (λ e. MayFail script (run script) e) }
{
    match Machine::new(alloc, script, Multiples) {
        Err(_) => Err(StepError::NoMemory),
        Ok(mut machine) => {
            let ran = machine.run();
            machine.world().facts();
            let parts = machine.into_parts();
            match ran {
                Ok(()) => Ok(parts),
                Err(error) => Err(error),
            }
        }
    }
}

impl ScriptRace {
    ghost use Rattle.hm_race_top.specs.Run.Races.{IsRace};

    /// The race of a script.
    pub fn new(alloc: Global, script: Script) -> Result<ScriptRace, StepError>
        ensures script { IfOk result (λ r. r.script ≡ script) }
        ensures set_up { IfOk result (λ r. r.set_up ≡ run script) }
        ensures fails { IfErr result (λ e. MayFail script (run script) e) }
    {
        hm_history::laws::runs_are_due();
        script.facts();
        let (script, set_up) = set_up_of(alloc, script)?;
        Ok(ScriptRace {
            alloc,
            script,
            set_up,
        })
    }

    /// The script.
    pub fn script(&self) -> &Script
        ensures { result.now ≡ self.now.script }
    {
        &self.script
    }

    fn count(&self) -> u32
        ensures same { result ≡ length self.now.script.actors }
        ensures few { result ≤ MOST_ACTORS }
    {
        self.stands();
        self.script.actors.len() as u32
    }

    /// Costs nothing: it hands the prover what holds of every race.
    pub fn stands(&self)
        ensures { IsRace self.now }
    {
        let _ = &self.script;
    }

    // The key after the set-up.
    fn first_key(&self) -> Result<StateKey, NoMemory>
        ensures form { IfOk result
            (λ k. form_in k ≡ form_of self.now.script (point_from self.now.script self.now.set_up)) }
        ensures kept { IfOk result (λ k. IsShown self.now.script k.state (length self.now.set_up)) }
    {
        self.stands();
        first_key(self.alloc, &self.script, self.set_up.as_slice())
    }

    // The key after a turn of the actor.
    fn next_key(&self, key: &StateKey, actor: Actor) -> Result<Option<StateKey>, NoMemory>
        requires { IsShown self.now.script key.now.state 2000000 }
        ensures next { IfOk result (λ o. (x : Point) → Reached self.now.script self.now.set_up x
            → form_of self.now.script x ≡ form_in key.now → IsNext form_in self.now.script x actor o) }
        ensures kept { IfOk result (λ o. (n : ℕ) → IsShown self.now.script key.now.state n
            → IfSome o (λ k. IsShown self.now.script k.state (n + 1))) }
    {
        self.stands();
        Ok(next_key(self.alloc, &self.script, key, actor)?)
    }
}

impl System for ScriptRace {
    type Key = StateKey;

    ghost Points = { Point };

    ghost Forms = { Point };

    ghost form = { form_in };

    ghost value = { λ r. race_of r.script r.set_up };

    ghost Kept = { λ r k n. IsShown r.script k.state n };

    fn facts(&self) {
        races_are_systems();
        self.stands();
    }

    fn actors(&self) -> u32 {
        self.count()
    }

    fn entries(&self) -> u64 {
        self.stands();
        self.set_up.len()
    }

    fn first(&self) -> Result<StateKey, StepError> {
        match self.first_key() {
            Ok(key) => Ok(key),
            Err(NoMemory) => Err(StepError::NoMemory),
        }
    }

    fn next(
        &self,
        key: &StateKey,
        actor: Actor,
        _entries: u64,
    ) -> Result<Option<StateKey>, StepError> {
        match self.next_key(key, actor) {
            Ok(next) => Ok(next),
            Err(NoMemory) => Err(StepError::NoMemory),
        }
    }

    fn ended(&self, key: &StateKey) -> bool {
        has_ended(&self.script, &key.state)
    }
}
