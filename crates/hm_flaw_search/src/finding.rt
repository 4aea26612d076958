// What was found by a search that ended.
ghost use Rattle.std.specs.Prelude.{◌≡◌, ◌↔◌, length, map, true, IfOk};
ghost use Rattle.hm_search.specs.Values.{all_known, at_goal};
ghost use Rattle.hm_flaw_parts.specs.Judged.{judged_parts};
ghost use Rattle.hm_flaw_states.specs.Keyed.{form_in};
ghost use Rattle.hm_flaw_search.specs.Owing.{IsOwed, race_entries};
ghost use Rattle.hm_flaw_search.specs.Unused.{HaveEntries, LooksUnused, MayBeUnused};
ghost use Rattle.hm_flaw_search.specs.Finding.{goal_of, HaveRoom, IsFoundFirst};

use crate::answer::{Answer, Found};
use crate::goals::{Broken, Stuck, first_reached};
use crate::keys::StandingKey;
use crate::played::Shown;
use crate::race::FlawRace;
use hm_base::NoMemory;
use hm_flaws::Flaw;
use hm_search::{End, Goal, Known, turns_to};

// What turns come to that lead to the first known state which reaches the goal; nothing if none does.
fn found_first<G: Goal<StandingKey>>(
    race: &FlawRace,
    goal: &G,
    known: &[Known<StandingKey>],
) -> Result<Shown, NoMemory>
    requires { HaveRoom race.now.set_up (all_known form_in known.now) }
    ensures found { IfOk result (λ s. IsFoundFirst (judged_parts race.now.judging) race.now.flaw race.now.script
        race.now.set_up (all_known form_in known.now) (map (at_goal G.read (G.reached goal.now)) known.now) s.found) }
    ensures owed { IfOk result (λ s. IsOwed race.now.flaw race.now.script race.now.set_up
        (race_entries s.found) s.owed) }
{
    match first_reached(goal, known)? {
        Some(at) => {
            let turns = turns_to(race.alloc, known, at)?;
            race.race_of(&turns)
        }
        None => Ok(Shown {
            found: Found::Nothing,
            owed: None,
        }),
    }
}

// What was found by a search that knows these states, and ended so: if it came to an entry that breaks a part, the
// first such, and else the first state at which nobody can go on.
fn found_of(race: &FlawRace, known: &[Known<StandingKey>], end: End) -> Result<Shown, NoMemory>
    requires { HaveRoom race.now.set_up (all_known form_in known.now) }
    ensures found { IfOk result (λ s. IsFoundFirst (judged_parts race.now.judging) race.now.flaw race.now.script
        race.now.set_up (all_known form_in known.now)
        (map (at_goal form_in (goal_of race.now.flaw race.now.script end)) known.now) s.found) }
    ensures owed { IfOk result (λ s. IsOwed race.now.flaw race.now.script race.now.set_up
        (race_entries s.found) s.owed) }
{
    match end {
        End::Reached => found_first(race, &Broken, known),
        End::Whole | End::Cut => found_first(race, &Stuck { race }, known),
    }
}

// Whether it may be that a rule was left out and never used: all states are known, and nothing was found.
fn may_be_unused(flaw: Flaw, end: End, found: &Found) -> bool
    ensures { (result ≡ true) ↔ MayBeUnused flaw end found.now }
{
    match (flaw, end, found) {
        (Flaw::NoFlaw, _, _) => false,
        (_, End::Whole, Found::Nothing) => true,
        _ => false,
    }
}

// Whether the driver leaves a rule out and never does otherwise than the right one, by the states that a search knows
// which ended so, and found this.
fn is_unused(
    race: &FlawRace,
    known: &[Known<StandingKey>],
    end: End,
    found: &Found,
) -> Result<bool, NoMemory>
    requires { HaveEntries known.now }
    ensures { IfOk result (λ b. (b ≡ true)
        ↔ LooksUnused race.now.flaw race.now.script known.now end found.now) }
{
    if !may_be_unused(race.flaw, end, found) {
        return Ok(false);
    }
    race.known_turn_alike(known)
}

/// What a search says that knows these states, and ended so.
pub(crate) fn answer_of(
    race: &FlawRace,
    known: &[Known<StandingKey>],
    end: End,
) -> Result<Answer, NoMemory>
    requires room { HaveRoom race.now.set_up (all_known form_in known.now) }
    requires entries { HaveEntries known.now }
    ensures found { IfOk result (λ a. IsFoundFirst (judged_parts race.now.judging) race.now.flaw
        race.now.script race.now.set_up (all_known form_in known.now)
        (map (at_goal form_in (goal_of race.now.flaw race.now.script end)) known.now) a.found) }
    ensures states { IfOk result (λ a. a.states ≡ length known.now) }
    ensures end { IfOk result (λ a. a.end ≡ end) }
    ensures unused { IfOk result (λ a. (a.unused ≡ true)
        ↔ LooksUnused race.now.flaw race.now.script known.now end a.found) }
    ensures owed { IfOk result (λ a. IsOwed race.now.flaw race.now.script race.now.set_up
        (race_entries a.found) a.owed) }
{
    let shown = found_of(race, known, end)?;
    let unused = is_unused(race, known, end, &shown.found)?;
    Ok(Answer {
        found: shown.found,
        states: known.len() as u64,
        end,
        unused,
        owed: shown.owed,
    })
}
