// The holds that are needed.
ghost use Rattle.std.specs.Prelude.{◌≡◌, ◌<◌, remove, length, IfErr, IfOk};
ghost use Rattle.hm_history.specs.declared.StepError.{StepError as AnyError};
ghost use Rattle.hm_held_search.specs.Finding.{IsFound, IsLess, MayFailBy};
ghost use Rattle.hm_held_search.specs.Tried.{IsSure};

use crate::tried::{Tried, try_holds};
use hm_base::{Actor, NoMemory};
use hm_flaw_search::FlawRace;
use hm_history::StepError;
use hm_holds::Hold;
use std::alloc::Global;

/// What a search for holds comes to.
#[derive(Drop)]
pub enum FoundHolds {
    /// Every order of turns that keeps these goes wrong, and none of them can be left out. The orders come to so many
    /// states.
    Needed { holds: Vec<Hold>, states: u64 },
    /// Turns that keep the holds that it began with, and come to where no actor may go on and nothing went wrong.
    NotSure(Vec<Actor>),
    /// A search came to more states than were asked for.
    Cut,
}

// What is found when one hold is left out.
#[derive(Drop)]
enum Less {
    // Without one of them every order goes wrong too.
    Sure { holds: Vec<Hold>, states: u64 },
    // Each of them is needed.
    Nothing,
    // A search came to more states than were asked for.
    Cut,
}

// The holds but the one at this place.
fn without(alloc: Global, holds: &[Hold], at: usize) -> Result<Vec<Hold>, StepError>
    requires { at < length holds.now }
    ensures left { IfOk result (λ v. v.items ≡ remove holds.now at) }
    ensures fails { IfErr result (λ e. e ≡ AnyError.NoMemory) }
{
    match Vec::from_slice(alloc, holds) {
        Ok(mut rest) => {
            rest.remove(at);
            Ok(rest)
        }
        Err(_) => Err(StepError::NoMemory),
    }
}

// The first list of holds but one with which every order of turns goes wrong.
fn leave_one(race: &FlawRace, holds: &[Hold], most: u64) -> Result<Less, StepError>
    ensures less { IfOk result (IsLess race.now holds.now most) }
    ensures fails { IfErr result (MayFailBy race.now) }
{
    for at in 0..holds.len() {
        let rest = without(race.alloc, holds, at)?;
        match try_holds(race, &rest, most)? {
            Tried::Sure(states) => {
                return Ok(Less::Sure {
                    holds: rest,
                    states,
                });
            }
            Tried::Fails(_) => (),
            Tried::Cut(_) => return Ok(Less::Cut),
        }
    }
    Ok(Less::Nothing)
}

// Leaves holds out, one after the other, until each of them is needed.
fn leave_out(
    race: &FlawRace,
    first: Vec<Hold>,
    count: u64,
    most: u64,
) -> Result<FoundHolds, StepError>
    requires { IsSure race.now first.items most count }
    ensures found { IfOk result (IsFound race.now first.items most) }
    ensures fails { IfErr result (MayFailBy race.now) }
{
    let mut holds = first;
    let mut states = count;
    loop {
        match leave_one(race, &holds, most)? {
            Less::Sure {
                holds: rest,
                states: fewer,
            } => {
                holds = rest;
                states = fewer;
            }
            Less::Nothing => return Ok(FoundHolds::Needed { holds, states }),
            Less::Cut => return Ok(FoundHolds::Cut),
        }
    }
}

/// Leaves out of these holds what is not needed: with those that are left every order of turns goes wrong, and without
/// one of them some order does not. Each is proved by a search of at most `most` states.
pub fn find_holds(race: &FlawRace, first: Vec<Hold>, most: u64) -> Result<FoundHolds, StepError>
    ensures found { IfOk result (IsFound race.now first.items most) }
    ensures fails { IfErr result (MayFailBy race.now) }
{
    match try_holds(race, &first, most)? {
        Tried::Sure(states) => leave_out(race, first, states, most),
        Tried::Fails(turns) => Ok(FoundHolds::NotSure(turns)),
        Tried::Cut(_) => Ok(FoundHolds::Cut),
    }
}
