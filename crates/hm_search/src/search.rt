// The search: from each state that is known it goes on by a turn of each actor, until nothing new comes.
ghost use Rattle.std.specs.Prelude.{◌≡◌, ◌+◌, ◌<◌, ◌≤◌, true, false, drop, length, IfOk, IfErr, OnOk};
ghost use Rattle.std.specs.List.{list_any};
ghost use Rattle.hm_history.specs.declared.StepError.{StepError as AnyError};
ghost use Rattle.hm_race_laws.specs.Closed.{AreDistinct};
ghost use Rattle.hm_search.specs.Systems.{point_at};
ghost use Rattle.hm_search.specs.Goals.{AreMissed, IsSoon, Reaches};
ghost use Rattle.hm_search.specs.Values.{all_known, at_goal, AreKept, HasGrown, HasSearched, Searching};
ghost use Rattle.hm_search.specs.Known.{forms, turns_at, Within, LeadsOn, GoesOn};
ghost use Rattle.hm_search.specs.Known.{HaveFewer, HaveForms, AreKnown, AreRising, AreFewest};
ghost use Rattle.hm_search.specs.Known.{IsCut, IsNear, MayFail};

use crate::goal::{Goal, any_reached};
use crate::known::{Edge, Known, States};
use crate::system::{SearchKey, System};
use hm_base::{Actor, MOST_ENTRIES, NoMemory};
use hm_history::StepError;
use std::alloc::Global;

/// How a search ended.
#[derive(Clone, Copy)]
pub enum End {
    /// It knows all states to which turns lead.
    Whole,
    /// It knows more states than were asked for.
    Cut,
    /// A state that it knows reaches the goal.
    Reached,
}

/// What a search has found: the states that it knows, and how it ended.
#[derive(Drop)]
pub struct Explored<K> {
    pub known: Vec<Known<K>>,
    pub end: End,
}

// A search at its end, and whether it has come to the goal.
#[derive(Drop)]
struct Stopped<K> {
    states: States<K>,
    reached: bool,
}

// The state with this key, to which a turn leads, is known from now on.
fn add<S: System>(
    system: &S,
    alloc: Global,
    states: &mut States<S::Key>,
    key: S::Key,
    turn: Edge,
    depth: u64,
) -> Result<(), StepError>
    requires searching { Searching (S.value system.now) S.form S.Key.form S.Key.number S.Key.Valid
        states.old.known.items states.old.buckets turn.state }
    requires state { turn.state < length states.old.known.items }
    requires actor { turn.actor < (S.value system.now).actors }
    requires depth { depth ≡ length (turns_at (all_known S.form states.old.known.items) turn.state) + 1 }
    requires leads { LeadsOn (S.value system.now)
        (turns_at (all_known S.form states.old.known.items) turn.state) turn.actor (S.form key) }
    requires kept { AreKept (S.value system.now) (S.Kept system.now) states.old.known.items }
    requires made { S.Kept system.now key ((S.value system.now).entries (S.value system.now).start + depth) }
    ensures searching { OnOk result (Searching (S.value system.now) S.form S.Key.form S.Key.number
        S.Key.Valid states.new.known.items states.new.buckets turn.state) }
    ensures grown { OnOk result (HasGrown states.old.known.items states.new.known.items 1) }
    ensures within { OnOk result (Within (all_known S.form states.new.known.items) (S.form key) depth) }
    ensures kept { OnOk result (AreKept (S.value system.now) (S.Kept system.now) states.new.known.items) }
    ensures fails { IfErr result (λ e. e ≡ AnyError.NoMemory) }
{
    system.facts();
    let bucket = key.bucket();
    if states.has(bucket, &key) {
        return Ok(());
    }
    let ended = system.ended(&key);
    let state = Known {
        key,
        from: Some(turn),
        depth,
        ended,
    };
    match states.push(alloc, bucket, state) {
        Ok(()) => Ok(()),
        Err(NoMemory) => Err(StepError::NoMemory),
    }
}

// Comes to the state after one turn of the actor at a known state, unless nothing is due to it, and notes it if it is
// new.
fn go<S: System>(
    system: &S,
    alloc: Global,
    states: &mut States<S::Key>,
    turn: Edge,
) -> Result<(), StepError>
    requires searching { Searching (S.value system.now) S.form S.Key.form S.Key.number S.Key.Valid
        states.old.known.items states.old.buckets turn.state }
    requires state { turn.state < length states.old.known.items }
    requires actor { turn.actor < (S.value system.now).actors }
    requires kept { AreKept (S.value system.now) (S.Kept system.now) states.old.known.items }
    ensures searching { OnOk result (Searching (S.value system.now) S.form S.Key.form S.Key.number
        S.Key.Valid states.new.known.items states.new.buckets turn.state) }
    ensures grown { OnOk result (HasGrown states.old.known.items states.new.known.items 1) }
    ensures goes { OnOk result (GoesOn (S.value system.now) (all_known S.form states.new.known.items)
        (point_at (S.value system.now)
        (turns_at (all_known S.form states.old.known.items) turn.state))
        (length (turns_at (all_known S.form states.old.known.items) turn.state) + 1) turn.actor) }
    ensures kept { OnOk result (AreKept (S.value system.now) (S.Kept system.now) states.new.known.items) }
    ensures fails { IfErr result (λ e. MayFail (S.value system.now) e) }
{
    system.facts();
    let depth = states.known[turn.state].depth;
    let entries = system.entries() + depth;
    match system.next(&states.known[turn.state].key, turn.actor, entries)? {
        None => Ok(()),
        Some(key) => {
            if entries >= MOST_ENTRIES {
                return Err(StepError::Full(MOST_ENTRIES));
            }
            add(system, alloc, states, key, turn, depth + 1)
        }
    }
}

// The search goes on from the state at this place, by a turn of each actor.
fn step<S: System>(
    system: &S,
    alloc: Global,
    states: &mut States<S::Key>,
    at: usize,
) -> Result<(), StepError>
    requires searching { Searching (S.value system.now) S.form S.Key.form S.Key.number S.Key.Valid
        states.old.known.items states.old.buckets at }
    requires at { at < length states.old.known.items }
    requires kept { AreKept (S.value system.now) (S.Kept system.now) states.old.known.items }
    ensures searching { OnOk result (Searching (S.value system.now) S.form S.Key.form S.Key.number
        S.Key.Valid states.new.known.items states.new.buckets (at + 1)) }
    ensures grown { OnOk result (HasGrown states.old.known.items states.new.known.items
        ((S.value system.now).actors)) }
    ensures kept { OnOk result (AreKept (S.value system.now) (S.Kept system.now) states.new.known.items) }
    ensures fails { IfErr result (λ e. MayFail (S.value system.now) e) }
{
    system.facts();
    for number in 0..system.actors() {
        let turn = Edge {
            state: at,
            actor: Actor::new(number),
        };
        go(system, alloc, states, turn)?;
    }
    Ok(())
}

// The search before its first step: it knows the state at the start.
fn begin<S: System>(system: &S, alloc: Global) -> Result<States<S::Key>, StepError>
    ensures searching { IfOk result (λ s. Searching (S.value system.now) S.form S.Key.form S.Key.number
        S.Key.Valid s.known.items s.buckets 0) }
    ensures one { IfOk result (λ s. length s.known.items ≡ 1) }
    ensures kept { IfOk result (λ s. AreKept (S.value system.now) (S.Kept system.now) s.known.items) }
    ensures fails { IfErr result (λ e. e ≡ AnyError.NoMemory) }
{
    system.facts();
    let key = system.first()?;
    let bucket = key.bucket();
    let has_ended = system.ended(&key);
    let state = Known {
        key,
        from: None,
        depth: 0,
        ended: has_ended,
    };
    match States::new(alloc) {
        Err(NoMemory) => Err(StepError::NoMemory),
        Ok(mut states) => match states.push(alloc, bucket, state) {
            Ok(()) => Ok(states),
            Err(NoMemory) => Err(StepError::NoMemory),
        },
    }
}

// Whether one of the states from this place on that counts as ended reaches the goal.
fn has_come<K, G: Goal<K>>(goal: &G, states: &States<K>, from: usize) -> Result<bool, StepError>
    requires { from ≤ length states.now.known.items }
    ensures come { IfOk result (λ b. b ≡ list_any (at_goal G.read (G.reached goal.now))
        (drop from states.now.known.items)) }
    ensures fails { IfErr result (λ e. e ≡ AnyError.NoMemory) }
{
    match any_reached(goal, &states.known, from) {
        Ok(come) => Ok(come),
        Err(NoMemory) => Err(StepError::NoMemory),
    }
}

// The search until it comes to the goal, to its end, or to more than `most` states.
fn run_search<S: System, G: Goal<S::Key>>(
    system: &S,
    alloc: Global,
    goal: &G,
    most: u64,
) -> Result<Stopped<S::Key>, StepError>
    ensures searched { IfOk result (λ s. HasSearched (S.value system.now) S.form S.Key.form S.Key.number
        S.Key.Valid s.states.known.items s.states.buckets most s.reached) }
    ensures reached { IfOk result (λ s. s.reached ≡ true
        → Reaches (G.reached goal.now) (all_known G.read s.states.known.items)) }
    ensures soon { IfOk result (λ s. s.reached ≡ true
        → IsSoon (S.value system.now).actors (G.reached goal.now) (all_known G.read s.states.known.items)) }
    ensures missed { IfOk result (λ s. s.reached ≡ false
        → AreMissed (G.reached goal.now) (all_known G.read s.states.known.items)) }
    ensures fails { IfErr result (λ e. MayFail (S.value system.now) e) }
{
    let mut states = begin(system, alloc)?;
    if has_come(goal, &states, 0)? {
        return Ok(Stopped {
            states,
            reached: true,
        });
    }
    for at in 0..most {
        let found = states.known.len() as u64;
        if found <= at || found > most {
            return Ok(Stopped {
                states,
                reached: false,
            });
        }
        step(system, alloc, &mut states, at as usize)?;
        if has_come(goal, &states, found as usize)? {
            return Ok(Stopped {
                states,
                reached: true,
            });
        }
    }
    Ok(Stopped {
        states,
        reached: false,
    })
}

// How a search ended, by whether it has come to the goal, and whether it knows no more states than were asked for.
fn end_of(reached: bool, few: bool) -> End
    ensures whole { result ≡ End.Whole → (reached ≡ false) × (few ≡ true) }
    ensures cut { result ≡ End.Cut → few ≡ false }
    ensures reached { result ≡ End.Reached → reached ≡ true }
    ensures missed { ¬ (result ≡ End.Reached) → reached ≡ false }
{
    if reached {
        End::Reached
    } else if few {
        End::Whole
    } else {
        End::Cut
    }
}

/// All states to which turns lead, each once, if these are at most `most`; else more than `most` of them. It
/// comes first to the states that the fewest turns lead to, and stops after the step in which it comes to a state that
/// reaches the goal.
pub fn explore<S: System, G: Goal<S::Key>>(
    system: &S,
    alloc: Global,
    goal: &G,
    most: u64,
) -> Result<Explored<S::Key>, StepError>
    ensures all { IfOk result (λ x. x.end ≡ End.Whole
        → HaveForms (S.value system.now) (all_known S.form x.known.items)) }
    ensures few { IfOk result (λ x. x.end ≡ End.Whole → length x.known.items ≤ most) }
    ensures cut { IfOk result (λ x. x.end ≡ End.Cut → IsCut (S.value system.now).actors most (length x.known.items)) }
    ensures reached { IfOk result (λ x. x.end ≡ End.Reached
        → Reaches (G.reached goal.now) (all_known G.read x.known.items)) }
    ensures soon { IfOk result (λ x. x.end ≡ End.Reached
        → IsSoon (S.value system.now).actors (G.reached goal.now) (all_known G.read x.known.items)) }
    ensures near { IfOk result (λ x. x.end ≡ End.Reached
        → IsNear (S.value system.now).actors most (length x.known.items)) }
    ensures missed { IfOk result (λ x. ¬ (x.end ≡ End.Reached)
        → AreMissed (G.reached goal.now) (all_known G.read x.known.items)) }
    ensures known { IfOk result (λ x.
        AreKnown (S.value system.now) (all_known S.form x.known.items)) }
    ensures distinct { IfOk result (λ x. AreDistinct (forms (all_known S.form x.known.items))) }
    ensures rising { IfOk result (λ x. AreRising (all_known S.form x.known.items)) }
    ensures fewest { IfOk result (λ x.
        AreFewest (S.value system.now) (all_known S.form x.known.items)) }
    ensures below { IfOk result (λ x.
        HaveFewer (S.value system.now) (all_known S.form x.known.items)) }
    ensures fails { IfErr result (λ e. MayFail (S.value system.now) e) }
{
    system.facts();
    let stopped = run_search(system, alloc, goal, most)?;
    let end = end_of(stopped.reached, stopped.states.known.len() as u64 <= most);
    let states = stopped.states;
    Ok(Explored {
        known: states.known,
        end,
    })
}
