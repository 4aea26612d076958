// What a search looks for, and the first known state that reaches it.
ghost use Rattle.std.specs.Prelude.{◌≡◌, map, IfOk};
ghost use Rattle.hm_search.specs.Values.{at_goal};
ghost use Rattle.hm_flaw_states.specs.Keyed.{form_in};
ghost use Rattle.hm_flaw_parts.specs.Races.Judging.{breaks_at, sticks_at};
ghost use Rattle.hm_flaw_parts.specs.Races.Races.{FlawPoint};
ghost use Rattle.hm_flaw_search.specs.Finding.{IsFirstTrue};

use crate::keys::StandingKey;
use crate::race::FlawRace;
use hm_base::NoMemory;
use hm_search::{Goal, Known};

/// A part of legality was broken.
#[derive(Clone, Copy)]
pub struct Broken;

impl Goal<StandingKey> for Broken {
    ghost Read = { FlawPoint };

    ghost read = { form_in };

    ghost reached = { λ _ x. breaks_at x };

    fn is_reached(&self, key: &StandingKey) -> Result<bool, NoMemory> {
        Ok(key.key().part().is_some())
    }
}

/// No part was broken, and nothing is due to anybody, though some operation has not ended.
#[derive(Drop)]
pub struct Stuck<'a> {
    pub race: &'a FlawRace<'a>,
}

impl<'a> Goal<StandingKey> for Stuck<'a> {
    ghost Read = { FlawPoint };

    ghost read = { form_in };

    ghost reached = { λ s x. sticks_at s.race.now.flaw s.race.now.script x };

    fn is_reached(&self, key: &StandingKey) -> Result<bool, NoMemory> {
        let key = key.key();
        if key.part().is_some() {
            return Ok(false);
        }
        self.race.is_stuck_at(key)
    }
}

// Whether the state counts as ended, and reaches the goal.
fn is_at<G: Goal<StandingKey>>(goal: &G, state: &Known<StandingKey>) -> Result<bool, NoMemory>
    ensures { IfOk result (λ b. b ≡ at_goal G.read (G.reached goal.now) state.now) }
{
    if !state.ended {
        return Ok(false);
    }
    goal.is_reached(&state.key)
}

/// The place of the first known state that reaches the goal, if one does.
pub(crate) fn first_reached<G: Goal<StandingKey>>(
    goal: &G,
    known: &[Known<StandingKey>],
) -> Result<Option<usize>, NoMemory>
    ensures { IfOk result (IsFirstTrue (map (at_goal G.read (G.reached goal.now)) known.now)) }
{
    for at in 0..known.len() {
        if is_at(goal, &known[at])? {
            return Ok(Some(at));
        }
    }
    Ok(None)
}
