// The keys of a race's states.
ghost use Rattle.std.specs.Prelude.{◌≡◌, ◌+◌, ◌≤◌, ℕ, [], List, length, IfOk, IfSome};
ghost use Rattle.hm_history.specs.Laws.{DueFrom};
ghost use Rattle.hm_history.specs.declared.Entry.{Entry as AnyEntry};
ghost use Rattle.hm_race_laws.specs.Blur.{form_of};
ghost use Rattle.hm_race_laws.specs.Outcomes.{Point, Reached, ended_in, point_from};
ghost use Rattle.hm_race_top.specs.Run.Known.{IsNext};
ghost use Rattle.hm_race_states.specs.Keyed.{form_in};
ghost use Rattle.hm_race_states.specs.States.{state_in};
ghost use Rattle.hm_race_top.specs.Run.Turns.{IsShown, Shows};

use crate::run::turn::{after_entry, turn};
use hm_base::{Actor, NoMemory, Script};
use hm_history::Entry;
use hm_race_keys::shared_answers::SharedAnswers;
use hm_race_states::after::answers_after;
use hm_race_states::here::Here;
use hm_race_states::key::StateKey;
use hm_race_states::start::count_of;
use hm_race_states::state::RaceState;
use hm_reads::Reads;
use std::alloc::Global;
use std::rc::Rc;

// The state after the entries of a set-up.
fn after_set_up(alloc: Global, script: &Script, set_up: &[Entry]) -> Result<RaceState, NoMemory>
    requires due { DueFrom script.now [] set_up.now }
    requires few { length set_up.now ≤ 2000000 }
    ensures { IfOk result (λ x. Shows script.now set_up.now x) }
{
    let mut state = RaceState::start(alloc, script)?;
    for entry in set_up {
        state = after_entry(alloc, script, &state, entry)?;
    }
    Ok(state)
}

/// The key after the set-up.
pub fn first_key(alloc: Global, script: &Script, set_up: &[Entry]) -> Result<StateKey, NoMemory>
    requires due { DueFrom script.now [] set_up.now }
    requires few { length set_up.now ≤ 2000000 }
    ensures form { IfOk result (λ k. form_in k ≡ form_of script.now (point_from script.now set_up.now)) }
    ensures kept { IfOk result (λ k. IsShown script.now k.state (length set_up.now)) }
{
    let state = after_set_up(alloc, script, set_up)?;
    let answers = Rc::new(alloc, SharedAnswers::new(alloc)?)?;
    Ok(StateKey { state, answers })
}

/// The key after a turn of the actor, or `None` if nothing is due to it.
pub fn next_key(
    alloc: Global,
    script: &Script,
    key: &StateKey,
    actor: Actor,
) -> Result<Option<StateKey>, NoMemory>
    requires { IsShown script.now key.now.state 2000000 }
    ensures next { IfOk result (λ o. (h : List AnyEntry) (x : Point) → DueFrom script.now [] h → Reached script.now h x
        → form_of script.now x ≡ form_in key.now → IsNext form_in script.now x actor o) }
    ensures kept { IfOk result (λ o. (n : ℕ) → IsShown script.now key.now.state n
        → IfSome o (λ k. IsShown script.now k.state (n + 1))) }
{
    match turn(alloc, script, &key.state, actor)? {
        None => Ok(None),
        Some(turned) => {
            let answers = answers_after(alloc, &key.answers, &turned.entry)?;
            Ok(Some(StateKey {
                state: turned.state,
                answers,
            }))
        }
    }
}

/// Whether all operations of all actors have ended.
pub(crate) fn has_ended(script: &Script, state: &RaceState) -> bool
    ensures { result ≡ ended_in script.now (state_in state.now) }
{
    let here = Here { script, state };
    for number in 0..count_of(script) {
        if here.op(Actor::new(number)).is_some() {
            return false;
        }
    }
    true
}
