// Whether no actor may go on, and nothing went wrong.
ghost use Rattle.std.specs.Prelude.{◌≡◌, not, IfOk};
ghost use Rattle.std.specs.List.{list_all};
ghost use Rattle.hm_history.specs.Kernel.Run.{actors_of};
ghost use Rattle.hm_holds.specs.Held.{HeldPoint, held_go, is_dead};
ghost use Rattle.hm_search.specs.Values.{key_forms};
ghost use Rattle.hm_held_search.specs.Keys.{held_form};
ghost use Rattle.hm_held_search.specs.Tried.{IsDeadPlace};

use crate::keys::HeldKey;
use hm_base::{Actor, NoMemory};
use hm_flaw_search::FlawRace;
use hm_search::{Goal, Known};

// Whether no part was broken, an entry is due to the actor, and no hold keeps it from making it.
fn may_go(race: &FlawRace, key: &HeldKey, actor: Actor) -> Result<bool, NoMemory>
    ensures { IfOk result (λ b. b ≡ held_go race.now.flaw race.now.script (held_form key.now) actor) }
{
    if key.stops(actor) || key.race.key().part().is_some() {
        return Ok(false);
    }
    race.can_go(key.race.key(), actor)
}

// Whether no actor may go on.
fn none_may_go(race: &FlawRace, key: &HeldKey) -> Result<bool, NoMemory>
    ensures { IfOk result (λ b. b
        ≡ list_all (λ a. not (held_go race.now.flaw race.now.script (held_form key.now) a))
        (actors_of race.now.script)) }
{
    for number in 0..race.count() {
        if may_go(race, key, Actor::new(number))? {
            return Ok(false);
        }
    }
    Ok(true)
}

/// No part was broken, and no actor may go on.
#[derive(Clone, Copy)]
pub struct Dead<'a> {
    pub race: &'a FlawRace<'a>,
}

impl<'a> Goal<HeldKey> for Dead<'a> {
    ghost Read = { HeldPoint };

    ghost read = { held_form };

    ghost reached = { λ d x. is_dead d.race.now.flaw d.race.now.script x };

    fn is_reached(&self, key: &HeldKey) -> Result<bool, NoMemory> {
        if key.race.key().part().is_some() {
            return Ok(false);
        }
        none_may_go(self.race, key)
    }
}

/// The place of the first known state that is a dead end, if one is.
pub(crate) fn first_dead(
    race: &FlawRace,
    known: &[Known<HeldKey>],
) -> Result<Option<usize>, NoMemory>
    ensures { IfOk result (IsDeadPlace race.now (key_forms held_form known.now)) }
{
    let goal = Dead { race };
    for at in 0..known.len() {
        if goal.is_reached(&known[at].key)? {
            return Ok(Some(at));
        }
    }
    Ok(None)
}
