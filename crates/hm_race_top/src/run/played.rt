// Orders of turns that are played to their end if a search was cut, so that some outcomes are shown.
ghost use Rattle.std.specs.Prelude.{◌≡◌, ◌++◌, ◌∷◌, [], ◌+◌, ◌≤◌, ℕ, List, length, IfOk, IfSome, OnOk};
ghost use Rattle.hm_history.specs.Kernel.Run.{run};
ghost use Rattle.hm_race_states.specs.Keyed.{form_in};
ghost use Rattle.hm_race_top.specs.Run.Known.{AreKnown, IsKnown};
ghost use Rattle.hm_race_top.specs.Run.Played.{all_played, played_of, AreOrders, HasGone, IsAt, IsNextTurn, IsOrder};
ghost use Rattle.hm_race_top.specs.Run.Played.{HaveOrders, IsTurnBy};
ghost use Rattle.hm_race_top.specs.Run.Systems.{race_of};
ghost use Rattle.hm_race_top.specs.Run.Turns.{IsShown};
ghost use Rattle.hm_search.specs.Systems.{Stands, form_after, point_at};

use crate::run::race::ScriptRace;
use hm_base::{Actor, ListOf, MOST_ENTRIES, NoMemory};
use hm_race_states::key::StateKey;
use hm_search::{End, System};
use std::alloc::Global;

/// As many turns as an order has at most.
pub const MOST_TURNS: u64 = 4_096;

/// What an order of turns comes to.
#[derive(Drop)]
pub struct Played {
    pub key: StateKey,
    pub turns: ListOf<Actor>,
    pub ended: bool,
}

/// A turn of an actor, and the key after it.
#[derive(Drop)]
pub struct Turn {
    pub actor: Actor,
    pub key: StateKey,
}

// The turn of the actor at a key whose state has so many entries, or `None` if nothing is due to it.
fn turn_of(
    race: &ScriptRace,
    key: &StateKey,
    actor: Actor,
    entries: u64,
) -> Result<Option<Turn>, NoMemory>
    requires stands { Stands (race_of race.now.script race.now.set_up) (form_in key.now) }
    requires kept { IsShown race.now.script key.now.state entries }
    requires room { entries ≤ 2000000 }
    ensures kept { IfOk result (λ o. IfSome o (λ t. IsShown race.now.script t.key.state (entries + 1))) }
    ensures own { IfOk result (λ o. IfSome o (λ t. t.actor ≡ actor)) }
    ensures turn { IfOk result (λ o. (turns : List ℕ)
        → form_after (race_of race.now.script race.now.set_up) turns ≡ form_in key.now
        → IsTurnBy (race_of race.now.script race.now.set_up)
        (point_at (race_of race.now.script race.now.set_up) turns) actor o) }
{
    match race.next(key, actor, entries) {
        Ok(Some(key)) => Ok(Some(Turn { actor, key })),
        Ok(None) => Ok(None),
        Err(_) => Err(NoMemory),
    }
}

// The next turn at a key whose state has so many entries, of an order which prefers this actor. `None` if nothing is
// due to anybody.
fn next_turn(
    race: &ScriptRace,
    key: &StateKey,
    first: Actor,
    entries: u64,
) -> Result<Option<Turn>, NoMemory>
    requires stands { Stands (race_of race.now.script race.now.set_up) (form_in key.now) }
    requires kept { IsShown race.now.script key.now.state entries }
    requires room { entries ≤ 2000000 }
    ensures kept { IfOk result (λ o. IfSome o (λ t. IsShown race.now.script t.key.state (entries + 1))) }
    ensures turn { IfOk result (λ o. (turns : List ℕ)
        → form_after (race_of race.now.script race.now.set_up) turns ≡ form_in key.now
        → IsNextTurn (race_of race.now.script race.now.set_up)
        (point_at (race_of race.now.script race.now.set_up) turns) first o) }
{
    race.facts();
    if let Some(turn) = turn_of(race, key, first, entries)? {
        return Ok(Some(turn));
    }
    for number in 0..race.actors() {
        if let Some(turn) = turn_of(race, key, Actor::new(number), entries)? {
            return Ok(Some(turn));
        }
    }
    Ok(None)
}

/// An order of turns that is played.
#[derive(Drop)]
pub struct Order {
    key: StateKey,
    turns: ListOf<Actor>,
}

impl Order {
    // The order without turns.
    fn new(alloc: Global, race: &ScriptRace) -> Result<Order, NoMemory>
        ensures at { IfOk result (λ x. IsAt race.now x.key x.turns) }
        ensures none { IfOk result (λ x. x.turns ≡ []) }
    {
        race.facts();
        race.stands();
        match race.first() {
            Ok(key) => Ok(Order {
                key,
                turns: ListOf::new(alloc),
            }),
            Err(_) => Err(NoMemory),
        }
    }

    // One turn more; whether there was one.
    fn go(&mut self, race: &ScriptRace, first: Actor) -> Result<bool, NoMemory>
        requires at { IsAt race.now self.old.key self.old.turns }
        ensures at { OnOk result (IsAt race.now self.new.key self.new.turns) }
        ensures gone { IfOk result (λ b. HasGone (race_of race.now.script race.now.set_up) first
            self.old.turns self.new.turns b) }
    {
        race.facts();
        race.stands();
        let entries = race.entries() + self.turns.len();
        if entries >= MOST_ENTRIES {
            return Ok(false);
        }
        match next_turn(race, &self.key, first, entries)? {
            None => Ok(false),
            Some(turn) => {
                self.turns.push(turn.actor)?;
                self.key = turn.key;
                Ok(true)
            }
        }
    }
}

/// An order of turns from the set-up on: the actor has the turn as long as something is due to it, and else the lowest
/// to which something is due.
fn play(alloc: Global, race: &ScriptRace, first: Actor) -> Result<Played, NoMemory>
    ensures known { IfOk result (λ p. IsKnown race.now.script race.now.set_up (played_of p)) }
    ensures order { IfOk result (λ p. IsOrder (race_of race.now.script race.now.set_up) first p.turns) }
{
    race.facts();
    race.stands();
    let mut order = Order::new(alloc, race)?;
    for _ in 0..MOST_TURNS {
        if !order.go(race, first)? {
            break;
        }
    }
    let ended = race.ended(&order.key);
    Ok(Played {
        key: order.key,
        turns: order.turns,
        ended,
    })
}

// Such an order for each actor.
fn orders(alloc: Global, race: &ScriptRace) -> Result<ListOf<Played>, NoMemory>
    ensures known { IfOk result (λ ps. AreKnown race.now.script race.now.set_up (all_played ps)) }
    ensures each { IfOk result (λ ps. length ps ≡ length race.now.script.actors) }
    ensures orders { IfOk result (λ ps.
        AreOrders (race_of race.now.script race.now.set_up) 0 (all_played ps)) }
{
    race.facts();
    race.stands();
    let mut played = ListOf::new(alloc);
    for number in 0..race.actors() {
        played.push(play(alloc, race, Actor::new(number))?)?;
    }
    Ok(played)
}

/// The orders that are played after a search which ended so: one for each actor if it was cut, and else none.
pub(crate) fn orders_after(
    alloc: Global,
    race: &ScriptRace,
    end: End,
) -> Result<ListOf<Played>, NoMemory>
    ensures orders { IfOk result (λ ps. end ≡ End.Cut → HaveOrders race.now.script (all_played ps)) }
    ensures led { IfOk result (λ ps. AreKnown race.now.script (run race.now.script) (all_played ps)) }
    ensures none { IfOk result (λ ps. ¬ (end ≡ End.Cut) → all_played ps ≡ []) }
{
    race.stands();
    match end {
        End::Cut => Ok(orders(alloc, race)?),
        End::Whole | End::Reached => Ok(ListOf::new(alloc)),
    }
}
