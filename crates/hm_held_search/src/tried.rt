// Whether every order of turns that keeps some holds goes wrong, by one whole search.
ghost use Rattle.std.specs.Prelude.{◌≡◌, IfOk, IfErr};
ghost use Rattle.hm_search.specs.Known.{MayFail};
ghost use Rattle.hm_held_search.specs.Races.{held_value};
ghost use Rattle.hm_held_search.specs.Tried.{IsSaid, IsTried};

use crate::dead::{Dead, first_dead};
use crate::keys::HeldKey;
use crate::race::HeldRace;
use hm_base::{Actor, NoMemory};
use hm_flaw_search::FlawRace;
use hm_history::StepError;
use hm_holds::Hold;
use hm_search::{End, Explored, explore, turns_to};

/// What one search says of holds.
#[derive(Drop)]
pub enum Tried {
    /// Every order of turns that keeps them goes wrong. The orders come to so many states.
    Sure(u64),
    /// Turns that keep them, and come to where no actor may go on and nothing went wrong.
    Fails(Vec<Actor>),
    /// It knows more states than were asked for, so many.
    Cut(u64),
}

// What is said by a search that ended so.
fn said_of(race: &FlawRace, explored: &Explored<HeldKey>) -> Result<Tried, NoMemory>
    ensures { IfOk result (IsSaid race.now explored.now.known.items explored.now.end) }
{
    let states = explored.known.len() as u64;
    match explored.end {
        End::Whole => Ok(Tried::Sure(states)),
        End::Cut => Ok(Tried::Cut(states)),
        End::Reached => match first_dead(race, &explored.known)? {
            Some(at) => Ok(Tried::Fails(turns_to(race.alloc, &explored.known, at)?)),
            None => Ok(Tried::Cut(states)),
        },
    }
}

/// Searches the orders of turns that keep the holds, each state once and the nearest first, for one at which no actor
/// may go on and nothing went wrong. It stops if it knows more than `most` states. It fails if memory runs out, and if
/// a history has all its entries and one more is due.
pub fn try_holds(race: &FlawRace, holds: &[Hold], most: u64) -> Result<Tried, StepError>
    ensures says { IfOk result (IsTried race.now holds.now most) }
    ensures fails { IfErr result (λ e. MayFail (held_value race.now holds.now) e) }
{
    hm_holds::whole_is_sure();
    hm_holds::reached_fails();
    race.stands();
    race.script.facts();
    let held = HeldRace { race, holds };
    let explored = explore(&held, race.alloc, &Dead { race }, most)?;
    match said_of(race, &explored) {
        Ok(said) => Ok(said),
        Err(NoMemory) => Err(StepError::NoMemory),
    }
}
