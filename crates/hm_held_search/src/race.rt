// The race of a driver with a flaw, of which only the orders of turns are looked at that keep some holds.
ghost use Rattle.std.specs.Prelude.{◌≡◌, map, IfOk, IfErr};
ghost use Rattle.hm_history.specs.declared.StepError.{StepError as AnyError};
ghost use Rattle.hm_flaw_search.specs.Races.{IsKeyOf};
ghost use Rattle.hm_flaw_states.specs.Follows.{Standing};
ghost use Rattle.hm_flaw_states.specs.States.{state_in};
ghost use Rattle.hm_holds.specs.Held.{HeldPoint};
ghost use Rattle.hm_holds.specs.Holds.{hold_next, hold_start};
ghost use Rattle.hm_held_search.specs.Keys.{held_form};
ghost use Rattle.hm_held_search.specs.Races.{held_value, holds_by, IsMade};

use crate::keys::HeldKey;
use hm_base::{Actor, NoMemory};
use hm_flaw_search::{FlawRace, StandingKey};
use hm_flaw_states::key::FlawKey;
use hm_history::{Entry, StepError};
use hm_holds::{Hold, HoldState};
use hm_search::System;
use std::alloc::Global;

/// The race, if the orders of turns keep these holds.
#[derive(Clone, Copy)]
pub struct HeldRace<'r, 'h> {
    pub race: &'r FlawRace<'r>,
    pub holds: &'h [Hold],
}

// The holds before the first entry after the set-up.
fn begun(alloc: Global, holds: &[Hold]) -> Result<Vec<HoldState>, NoMemory>
    ensures { IfOk result (λ v. v.items ≡ map hold_start holds.now) }
{
    let mut states = Vec::new(alloc);
    for hold in holds {
        states.push(HoldState::new(*hold))?;
    }
    Ok(states)
}

// The holds after one entry more.
fn gone_on(alloc: Global, holds: &[HoldState], entry: &Entry) -> Result<Vec<HoldState>, NoMemory>
    ensures { IfOk result (λ v. v.items ≡ map (λ s. hold_next s entry.now) holds.now) }
{
    let mut states = Vec::new(alloc);
    for hold in holds {
        states.push(hold.after(entry))?;
    }
    Ok(states)
}

// The holds after the entry that led to this key. One that broke a part leaves them.
fn holds_after(
    alloc: Global,
    holds: &[HoldState],
    key: &FlawKey,
) -> Result<Vec<HoldState>, NoMemory>
    ensures { IfOk result (λ v. v.items ≡ holds_by key.now holds.now) }
{
    if key.broken.is_some() {
        return Ok(Vec::from_slice(alloc, holds)?);
    }
    match key.trail.last() {
        Some(entry) => gone_on(alloc, holds, entry),
        None => Ok(Vec::from_slice(alloc, holds)?),
    }
}

impl<'r, 'h> HeldRace<'r, 'h> {
    // The key after a turn at which the holds were so far, by the race's key after it.
    fn turned(&self, holds: &[HoldState], next: FlawKey) -> Result<HeldKey, StepError>
        requires { Standing (state_in next.state.value) }
        ensures made { IfOk result (IsMade next holds.now) }
        ensures fails { IfErr result (λ e. e ≡ AnyError.NoMemory) }
    {
        let race = self.race;
        match holds_after(race.alloc, holds, &next) {
            Ok(holds) => Ok(HeldKey {
                race: StandingKey::of(next),
                holds,
            }),
            Err(NoMemory) => Err(StepError::NoMemory),
        }
    }
}

impl<'r, 'h> System for HeldRace<'r, 'h> {
    type Key = HeldKey;

    ghost Points = { HeldPoint };

    ghost Forms = { HeldPoint };

    ghost form = { held_form };

    ghost value = { λ r. held_value r.race.now r.holds.now };

    ghost Kept = { λ r k n. IsKeyOf r.race.now k.race n };

    fn facts(&self) {
        hm_holds::held_races_are_systems();
        let race = self.race;
        race.stands();
        let script = race.script;
        script.facts();
    }

    fn actors(&self) -> u32 {
        self.race.count()
    }

    fn entries(&self) -> u64 {
        self.race.entries()
    }

    fn first(&self) -> Result<HeldKey, StepError> {
        let race = self.race;
        let key = race.first()?;
        match begun(race.alloc, self.holds) {
            Ok(holds) => Ok(HeldKey { race: key, holds }),
            Err(NoMemory) => Err(StepError::NoMemory),
        }
    }

    fn next(
        &self,
        key: &HeldKey,
        actor: Actor,
        entries: u64,
    ) -> Result<Option<HeldKey>, StepError> {
        if key.stops(actor) {
            return Ok(None);
        }
        match self.race.next_key(key.race.key(), actor, entries) {
            Ok(Some(next)) => Ok(Some(self.turned(&key.holds, next)?)),
            Ok(None) => Ok(None),
            Err(NoMemory) => Err(StepError::NoMemory),
        }
    }

    fn ended(&self, _key: &HeldKey) -> bool {
        true
    }
}
