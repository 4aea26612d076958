// All outcomes of a script's race: its schedule is the set-up, from there every actor may take its turn at any time. A
// race is a system that can be searched; what a search knows of it, and laws that lead from there to its outcomes.

ghost use Rattle.std.specs.Prelude.{◌≡◌, ◌≤◌, length, IfOk, IfErr};
ghost use Rattle.hm_history.specs.Kernel.Run.{run};
ghost use Rattle.hm_race_laws.specs.Closed.{AreDistinct};
ghost use Rattle.hm_race_top.specs.Run.Known.{AreFewest, AreKnown, AreReal, HaveForms, IsComplete};
ghost use Rattle.hm_race_top.specs.Run.Known.{IsCut, IsNear, IsSoon, MayFail};
ghost use Rattle.hm_search.specs.Goals.{AreMissed, Reaches};
ghost use Rattle.hm_search.specs.Known.{forms, AreRising};
ghost use Rattle.hm_search.specs.Values.{all_known};
ghost use Rattle.hm_race_states.specs.Keyed.{form_in};

mod keys;
mod laws;
mod played;
mod race;
mod turn;

use hm_history::StepError;
use hm_race_states::key::StateKey;
use hm_search::{End, Explored, Goal, explore};
pub use laws::{forms_have_outcomes, known_are_real, races_are_systems, turns_are_all};
pub(crate) use played::{Played, orders_after};
pub(crate) use race::ScriptRace;
pub use race::set_up_of;
use std::alloc::Global;

/// All states of a script's race, each once: its schedule is the set-up, and from there every actor may take its turn
/// at any time. The search comes first to the states that the fewest turns lead to. It stops if it knows more than
/// `most`, and after the step in which it comes to a state that reaches the goal. It fails if memory runs out, and if a
/// history has all its entries and one more is due.
pub(crate) fn search<G: Goal<StateKey>>(
    alloc: Global,
    race: &ScriptRace,
    goal: &G,
    most: u64,
) -> Result<Explored<StateKey>, StepError>
    ensures complete { IfOk result (λ x. x.end ≡ End.Whole
        → IsComplete race.now.script (run race.now.script) (all_known form_in x.known.items)) }
    ensures all { IfOk result (λ x. x.end ≡ End.Whole
        → HaveForms race.now.script (run race.now.script) (all_known form_in x.known.items)) }
    ensures few { IfOk result (λ x. x.end ≡ End.Whole → length x.known.items ≤ most) }
    ensures cut { IfOk result (λ x. x.end ≡ End.Cut → IsCut race.now.script most (length x.known.items)) }
    ensures reached { IfOk result (λ x. x.end ≡ End.Reached
        → Reaches (G.reached goal.now) (all_known G.read x.known.items)) }
    ensures soon { IfOk result (λ x. x.end ≡ End.Reached
        → IsSoon race.now.script (G.reached goal.now) (all_known G.read x.known.items)) }
    ensures near { IfOk result (λ x. x.end ≡ End.Reached → IsNear race.now.script most (length x.known.items)) }
    ensures missed { IfOk result (λ x. ¬ (x.end ≡ End.Reached)
        → AreMissed (G.reached goal.now) (all_known G.read x.known.items)) }
    ensures real { IfOk result (λ x. AreReal race.now.script (run race.now.script) (all_known form_in x.known.items)) }
    ensures known { IfOk result (λ x.
        AreKnown race.now.script (run race.now.script) (all_known form_in x.known.items)) }
    ensures distinct { IfOk result (λ x. AreDistinct (forms (all_known form_in x.known.items))) }
    ensures rising { IfOk result (λ x. AreRising (all_known form_in x.known.items)) }
    ensures fewest { IfOk result (λ x.
        AreFewest race.now.script (run race.now.script) (all_known form_in x.known.items)) }
    ensures fails { IfErr result (λ e. MayFail race.now.script (run race.now.script) e) }
{
    turns_are_all();
    forms_have_outcomes();
    known_are_real();
    race.stands();
    Ok(explore(race, alloc, goal, most)?)
}
