// What is to be written of drivers that leave a rule out, and how the call ends then.
ghost use Rattle.std.specs.Prelude.{◌≡◌, ◌≤◌, [], length, IfErr, IfOk, OnOk};
ghost use Rattle.hm_held_search.specs.Finding.{MayFailBy};
ghost use Rattle.hm_flaw_parts.specs.Judged.{judged_parts};
ghost use Rattle.hm_flaw_search.specs.Races.{IsFirst};
ghost use Rattle.hm_flaw_top.specs.Text.Names.{all_flaws};
ghost use Rattle.hm_flaw_parts.specs.Races.Races.{flaw_system};
ghost use Rattle.hm_history.specs.Laws.{DueFrom};
ghost use Rattle.hm_race_top.specs.Telling.{IsEnding};
ghost use Rattle.hm_search.specs.Known.{MayFail};
ghost use Rattle.hm_flaw_top.specs.Told.{rules_in, AddsMore, AreAnswers, FailsAtSome, FlawsMayFail};
ghost use Rattle.hm_flaw_top.specs.Told.{HoldsMayFail, Tells, TellsAll, TellsHolds, TellsOne};

use crate::ending::{ending_of, ending_of_all};
use crate::text::{RuleAnswer, Task, Which, all_flaws, answer_text, rules_text};
use hm_base::{ListOf, NoMemory, Script, Text};
use hm_flaw_search::{FlawRace, Found, find_race};
use hm_flaw_states::first_key;
use hm_flaw_states::key::FlawKey;
use hm_flaws::Flaw;
use hm_held_search::{add_found, holds_of_race};
use hm_history::{Entry, StepError};
use hm_race_top::telling::Telling;
use skip_rules::Multiples;
use std::alloc::Global;

/// What is to be written of the driver with this flaw. It fails as the search does, and if memory runs out.
fn tell_one(
    alloc: Global,
    script: &Script,
    set_up: &[Entry],
    first: &FlawKey,
    flaw: Flaw,
    task: Task,
) -> Result<Telling, StepError>
    requires due { DueFrom script.now [] set_up.now }
    requires few { length set_up.now ≤ 2000000 }
    requires first { IsFirst script.now set_up.now first.now }
    ensures tells { IfOk result (TellsOne (judged_parts task.judging) task.most flaw script.now set_up.now) }
    ensures ends { IfOk result (λ t. IsEnding t.ends) }
    ensures fails { IfErr result
        (λ e. MayFail (flaw_system (judged_parts task.judging) flaw script.now set_up.now) e) }
{
    match find_race(alloc, script, set_up, first, flaw, task.judging, task.most) {
        Ok(answer) => match answer_text(alloc, set_up.len() as u64, &answer) {
            Ok(text) => Ok(Telling {
                text,
                ends: ending_of(&answer),
            }),
            Err(NoMemory) => Err(StepError::NoMemory),
        },
        Err(error) => Err(error),
    }
}

/// Adds what is to be written of the holds of what was found. It fails as a search for holds does.
fn add_holds(race: &FlawRace, found: &Found, most: u64, text: &mut Text) -> Result<(), StepError>
    ensures holds { OnOk result (AddsMore race.now most found.now text.old text.new) }
    ensures fails { IfErr result (MayFailBy race.now) }
{
    match found {
        Found::Broken { entries, last, .. } => {
            let holds = holds_of_race(race, entries.as_slice(), last, most)?;
            match add_found(race.alloc, text, &holds) {
                Ok(()) => Ok(()),
                Err(NoMemory) => Err(StepError::NoMemory),
            }
        }
        Found::Stuck { .. } | Found::Nothing => Ok(()),
    }
}

/// What is to be written of the driver with this flaw, and of the holds of the race. It fails as the searches do, and
/// if memory runs out.
fn tell_holds(
    alloc: Global,
    script: &Script,
    set_up: &[Entry],
    first: &FlawKey,
    flaw: Flaw,
    task: Task,
) -> Result<Telling, StepError>
    requires due { DueFrom script.now [] set_up.now }
    requires few { length set_up.now ≤ 2000000 }
    requires first { IsFirst script.now set_up.now first.now }
    ensures tells { IfOk result (TellsHolds (judged_parts task.judging) task.most flaw script.now set_up.now) }
    ensures ends { IfOk result (λ t. IsEnding t.ends) }
    ensures fails { IfErr result (HoldsMayFail (judged_parts task.judging) flaw script.now set_up.now) }
{
    let judging = task.judging;
    let answer = match find_race(alloc, script, set_up, first, flaw, judging, task.most) {
        Ok(answer) => answer,
        Err(error) => return Err(error),
    };
    let Ok(mut text) = answer_text(alloc, set_up.len() as u64, &answer) else {
        return Err(StepError::NoMemory);
    };
    let race = FlawRace {
        alloc,
        script,
        set_up,
        first,
        flaw,
        judging,
    };
    match add_holds(&race, &answer.found, task.most, &mut text) {
        Ok(()) => Ok(Telling {
            text,
            ends: ending_of(&answer),
        }),
        Err(error) => Err(error),
    }
}

/// What was found of each driver, in the order in which their lines are written.
fn answers_of(
    alloc: Global,
    script: &Script,
    set_up: &[Entry],
    first: &FlawKey,
    task: Task,
) -> Result<ListOf<RuleAnswer>, StepError>
    requires due { DueFrom script.now [] set_up.now }
    requires few { length set_up.now ≤ 2000000 }
    requires first { IsFirst script.now set_up.now first.now }
    ensures rules { IfOk result (λ rows. rules_in rows ≡ all_flaws) }
    ensures are { IfOk result (AreAnswers (judged_parts task.judging) task.most script.now set_up.now) }
    ensures fails { IfErr result (FailsAtSome (judged_parts task.judging) script.now set_up.now) }
{
    let flaws = all_flaws();
    let mut rows = ListOf::new(alloc);
    for flaw in &flaws {
        let answer = match find_race(alloc, script, set_up, first, *flaw, task.judging, task.most) {
            Ok(answer) => answer,
            Err(error) => return Err(error),
        };
        match rows.push(RuleAnswer {
            rule: *flaw,
            answer,
        }) {
            Ok(()) => (),
            Err(NoMemory) => return Err(StepError::NoMemory),
        }
    }
    Ok(rows)
}

/// What is to be written of all drivers. It fails as a search does, and if memory runs out.
fn tell_all(
    alloc: Global,
    script: &Script,
    set_up: &[Entry],
    first: &FlawKey,
    task: Task,
) -> Result<Telling, StepError>
    requires due { DueFrom script.now [] set_up.now }
    requires few { length set_up.now ≤ 2000000 }
    requires first { IsFirst script.now set_up.now first.now }
    ensures tells { IfOk result (TellsAll (judged_parts task.judging) task.most script.now set_up.now) }
    ensures ends { IfOk result (λ t. IsEnding t.ends) }
    ensures fails { IfErr result (FailsAtSome (judged_parts task.judging) script.now set_up.now) }
{
    match answers_of(alloc, script, set_up, first, task) {
        Ok(rows) => match rules_text(alloc, rows.as_slice()) {
            Ok(text) => Ok(Telling {
                text,
                ends: ending_of_all(rows.as_slice()),
            }),
            Err(NoMemory) => Err(StepError::NoMemory),
        },
        Err(error) => Err(error),
    }
}

/// What is to be written for a task, after a set-up whose entries were due one after the other. The key after the set-
/// up is made once, for all searches. It fails as a search does, and if memory runs out.
pub(crate) fn tell(
    alloc: Global,
    script: &Script,
    set_up: &[Entry],
    task: Task,
) -> Result<Telling, StepError>
    requires due { DueFrom script.now [] set_up.now }
    requires few { length set_up.now ≤ 2000000 }
    ensures tells { IfOk result (Tells task.which (judged_parts task.judging) task.most script.now set_up.now) }
    ensures ends { IfOk result (λ t. IsEnding t.ends) }
    ensures fails { IfErr result
        (FlawsMayFail task.which (judged_parts task.judging) script.now set_up.now) }
{
    let Ok(first) = first_key(alloc, script, &Multiples, set_up) else {
        return Err(StepError::NoMemory);
    };
    match task.which {
        Which::One(flaw) => tell_one(alloc, script, set_up, &first, flaw, task),
        Which::Holds(flaw) => tell_holds(alloc, script, set_up, &first, flaw, task),
        Which::All => tell_all(alloc, script, set_up, &first, task),
    }
}
