// The race of a driver with a flaw, for the search.
ghost use Rattle.std.specs.Prelude.{◌≡◌, ◌+◌, ◌≤◌, [], length, IfOk, IfSome};
ghost use Rattle.hm_flaw_parts.specs.Judged.{judged_parts};
ghost use Rattle.hm_flaw_states.specs.Keyed.{entries_in, form_in};
ghost use Rattle.hm_flaw_states.specs.Turns.{IsNextKey};
ghost use Rattle.hm_flaw_parts.specs.Races.Races.{FlawPoint, flaw_system, point_from};

use crate::firsts::copy_first;
use crate::keys::StandingKey;
use hm_base::{Actor, NoMemory, Script};
use hm_flaw_parts::Judging;
use hm_flaw_states::key::FlawKey;
use hm_flaw_states::next_key;
use hm_flaws::Flaw;
use hm_history::{Entry, StepError};
use hm_search::System;
use skip_rules::Multiples;
use std::alloc::Global;
use std::marker::Model;

/// The race of a script after a set-up by a right driver, if the driver has this flaw, and is judged by these parts.
/// The key after the set-up is the same for all of them.
#[derive(Drop)]
pub struct FlawRace<'a> {
    pub alloc: Global,
    pub script: &'a Script,
    pub set_up: &'a [Entry],
    pub first: &'a FlawKey,
    pub flaw: Flaw,
    pub judging: Judging,
}

impl<'a> Model for FlawRace<'a> {
    ghost use Rattle.hm_flaw_search.specs.Races.{FlawRaceValue, IsFlawRace};

    ghost Value = { FlawRaceValue };

    ghost view = { λ r. record {
      script = r.script.now;
      set_up = r.set_up.now;
      first = r.first.now;
      flaw = r.flaw;
      judging = r.judging;
    } };

    ghost invariant = { λ r. IsFlawRace (record {
      script = r.script.now;
      set_up = r.set_up.now;
      first = r.first.now;
      flaw = r.flaw;
      judging = r.judging;
    }) };
}

impl<'a> FlawRace<'a> {
    ghost use Rattle.hm_flaw_search.specs.Races.{IsFlawRace, IsKeyOf};

    /// Costs nothing: it hands the prover what holds of every race.
    pub fn stands(&self)
        ensures { IsFlawRace self.now }
    {
        let _ = &self.script;
    }

    /// How many actors the script has.
    pub fn count(&self) -> u32
        ensures same { result ≡ length self.now.script.actors }
        ensures few { result ≤ 16 }
    {
        let script = self.script;
        script.facts();
        script.actors.len() as u32
    }

    /// The key after the set-up.
    pub fn first_key(&self) -> Result<FlawKey, NoMemory>
        ensures form { IfOk result (λ k. form_in k ≡ point_from self.now.script self.now.set_up) }
        ensures trail { IfOk result (λ k. entries_in k ≡ []) }
        ensures kept { IfOk result (λ k. IsKeyOf self.now k (length self.now.set_up)) }
    {
        self.stands();
        Ok(copy_first(self.alloc, self.first)?)
    }

    /// The key after a turn of the actor, or `None` if nothing is due to it. The key's state has at most this many
    /// entries.
    pub fn next_key(
        &self,
        key: &FlawKey,
        actor: Actor,
        entries: u64,
    ) -> Result<Option<FlawKey>, NoMemory>
        requires kept { IsKeyOf self.now key.now entries }
        requires room { entries ≤ 2000000 }
        ensures kept { IfOk result (λ o. IfSome o (λ k. IsKeyOf self.now k (entries + 1))) }
        ensures next { IfOk result
            (IsNextKey (judged_parts self.now.judging) self.now.flaw self.now.script key.now actor) }
    {
        let _ = entries;
        let (flaw, judging) = (self.flaw, self.judging);
        next_key(
            self.alloc,
            self.script,
            &Multiples,
            flaw,
            judging,
            key,
            actor,
        )
    }
}

impl<'a> System for FlawRace<'a> {
    ghost use Rattle.hm_flaw_search.specs.Races.{IsKeyOf};

    type Key = StandingKey;

    ghost Points = { FlawPoint };

    ghost Forms = { FlawPoint };

    ghost form = { form_in };

    ghost value = { λ r. flaw_system (judged_parts r.judging) r.flaw r.script r.set_up };

    ghost Kept = { IsKeyOf };

    fn facts(&self) {
        hm_flaw_parts::races::flaw_races_are_systems();
        let script = self.script;
        script.facts();
        self.stands();
    }

    fn actors(&self) -> u32 {
        self.count()
    }

    fn entries(&self) -> u64 {
        self.set_up.len() as u64
    }

    fn first(&self) -> Result<StandingKey, StepError> {
        match self.first_key() {
            Ok(key) => Ok(StandingKey::of(key)),
            Err(NoMemory) => Err(StepError::NoMemory),
        }
    }

    fn next(
        &self,
        key: &StandingKey,
        actor: Actor,
        entries: u64,
    ) -> Result<Option<StandingKey>, StepError> {
        match self.next_key(key.key(), actor, entries) {
            Ok(Some(next)) => Ok(Some(StandingKey::of(next))),
            Ok(None) => Ok(None),
            Err(NoMemory) => Err(StepError::NoMemory),
        }
    }

    fn ended(&self, _key: &StandingKey) -> bool {
        true
    }
}
