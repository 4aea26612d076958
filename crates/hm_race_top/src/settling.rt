// Where a search for conditions stops.
ghost use Rattle.std.specs.Prelude.{◌≡◌, ◌≤◌, IfOk};
ghost use Rattle.hm_race_laws.specs.Outcomes.{Point};
ghost use Rattle.hm_race_states.specs.Keyed.{form_in};
ghost use Rattle.hm_race_top.specs.Goals.{IsGoal, settled};

use crate::text::{Question, answer_lines, settles};
use hm_base::NoMemory;
use hm_race_states::key::StateKey;
use hm_search::Goal;
use std::alloc::Global;
use std::marker::Model;

/// An outcome that settles conditions, in a race of this many actors.
#[derive(Drop)]
pub struct Settling<'a> {
    alloc: Global,
    questions: &'a [Question],
    actors: u64,
}

impl<'a> Model for Settling<'a> {
    ghost use Rattle.hm_race_top.specs.Goals.{GoalValue, IsGoal};

    ghost Value = { GoalValue };

    ghost view = { λ g. record { questions = g.questions.now; actors = g.actors } };

    ghost invariant = { λ g. IsGoal (record { questions = g.questions.now; actors = g.actors }) };
}

impl<'a> Settling<'a> {
    pub(crate) fn new(alloc: Global, questions: &'a [Question], actors: u64) -> Settling<'a>
        requires { actors ≤ 16 }
        ensures questions { result.questions ≡ questions.now }
        ensures actors { result.actors ≡ actors }
    {
        Settling {
            alloc,
            questions,
            actors,
        }
    }

    /// Costs nothing: it hands the prover what holds of every goal.
    fn facts(&self)
        ensures { IsGoal self.now }
    {
        let _ = &self.actors;
    }

    /// Whether the outcome at this state settles the conditions.
    fn is_settled(&self, key: &StateKey) -> Result<bool, NoMemory>
        ensures { IfOk result (λ b. b ≡ settled self.now.questions self.now.actors (form_in key.now)) }
    {
        self.facts();
        if self.questions.is_empty() {
            return Ok(false);
        }
        let lines = answer_lines(self.alloc, &key.answers, self.actors)?;
        Ok(settles(self.questions, lines.as_slice()))
    }
}

impl<'a> Goal<StateKey> for Settling<'a> {
    ghost Read = { Point };

    ghost read = { form_in };

    ghost reached = { λ g. settled g.questions g.actors };

    fn is_reached(&self, key: &StateKey) -> Result<bool, NoMemory> {
        self.is_settled(key)
    }
}
