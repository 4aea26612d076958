// What the turn is about.
ghost use Rattle.std.specs.Prelude.{◌≡◌, ℕ, ◌<◌, List, length, Option};
ghost use Rattle.hm_base.specs.Program.{Program, IsScript};
ghost use Rattle.hm_history.specs.declared.Entry.{Entry};
ghost use Rattle.hm_history.specs.declared.Progress.{Progress};
ghost use Rattle.hm_history.specs.declared.StepError.{StepError};
ghost use Rattle.hm_turns.specs.Touching.{last_touched};
ghost use Rattle.hm_turns.specs.Stepping.{StepsFrom};

use hm_base::{Actor, Proc};
use hm_history::{Progress, StepError};

/// A value that runs a script step by step. It keeps its history, which is legal for the script, and a step that
/// fails halts it for good.
pub trait Stepped: Drop {
    ghost script: { Self → Program };

    ghost history: { Self → List Entry };

    /// Why it is halted.
    ghost halt: { Self → Option StepError };

    ghost legal: { Program → List Entry → Type 0 };

    /// What is due to an actor after a history.
    ghost due: { Program → List Entry → ℕ → Progress };

    /// Does what is due to the actor, or fails if the history is full or memory runs out.
    fn step(&mut self, actor: Actor) -> Result<Progress, StepError>
        requires { actor < length (script self.old).actors }
        ensures script { script self.new ≡ script self.old }
        ensures after { legal (script self.new) (history self.new) }
        ensures answer { StepsFrom (halt self.old) (due (script self.old) (history self.old) actor)
            (history self.old) result (history self.new) (halt self.new) };

    /// The error of the step that halted it.
    fn halted(&self) -> Option<StepError>
        ensures halt { result ≡ halt self.now }
        ensures legal { legal (script self.now) (history self.now) };

    /// The number of entries of its history.
    fn length(&self) -> u64
        ensures length { result ≡ length (history self.now) }
        ensures legal { legal (script self.now) (history self.now) }
        ensures script { IsScript (script self.now) };

    /// The process whose plain state the last entry of its history changes.
    fn touched(&self) -> Option<Proc>
        ensures { result ≡ last_touched (history self.now) };
}
