// The shortest races of a driver with a flaw: the set-up is by a right driver, from there every actor may take its turn
// at any time.

ghost use Rattle.std.specs.Prelude.{◌≤◌, [], length, IfOk, IfErr};
ghost use Rattle.hm_history.specs.Laws.{DueFrom};
ghost use Rattle.hm_search.specs.Known.{MayFail};
ghost use Rattle.hm_flaw_parts.specs.Judged.{judged_parts};
ghost use Rattle.hm_flaw_parts.specs.Races.Races.{flaw_system};
ghost use Rattle.hm_flaw_search.specs.Answers.{IsAnswer};
ghost use Rattle.hm_flaw_search.specs.Races.{IsFirst};

use crate::answer::Answer;
use crate::finding::answer_of;
use crate::goals::Broken;
use crate::race::FlawRace;
use hm_base::{NoMemory, Script};
use hm_flaw_parts::Judging;
use hm_flaw_states::key::FlawKey;
use hm_flaws::Flaw;
use hm_history::{Entry, StepError};
use hm_search::explore;
use std::alloc::Global;

/// Searches the race of a driver with this flaw after a set-up, from the key after it, each state once and the nearest
/// first, for an entry that breaks a part of legality, and stops after the step in which one is due. If there is none,
/// it looks at the states that it knows for one at which nothing is due to anybody and some operation has not ended. It
/// stops if it knows more than `most` states. It fails if memory runs out, and if a history has all its entries and one
/// more is due.
pub fn find_race(
    alloc: Global,
    script: &Script,
    set_up: &[Entry],
    first: &FlawKey,
    flaw: Flaw,
    judging: Judging,
    most: u64,
) -> Result<Answer, StepError>
    requires due { DueFrom script.now [] set_up.now }
    requires few { length set_up.now ≤ 2000000 }
    requires first { IsFirst script.now set_up.now first.now }
    ensures answer { IfOk result (IsAnswer (judged_parts judging) flaw script.now set_up.now most) }
    ensures fails { IfErr result (λ e. MayFail (flaw_system (judged_parts judging) flaw script.now set_up.now) e) }
{
    script.facts();
    hm_flaw_parts::races::first_breaks_soonest();
    hm_flaw_parts::races::first_sticks_soonest();
    hm_flaw_parts::races::whole_breaks_none();
    hm_flaw_parts::races::whole_never_sticks();
    hm_flaw_parts::races::right_turns_find_none();
    let race = FlawRace {
        alloc,
        script,
        set_up,
        first,
        flaw,
        judging,
    };
    let explored = explore(&race, alloc, &Broken, most)?;
    match answer_of(&race, &explored.known, explored.end) {
        Ok(answer) => Ok(answer),
        Err(NoMemory) => Err(StepError::NoMemory),
    }
}
