// A law of the steps, the contract of a function with an empty body.
ghost use Rattle.hm_turns.specs.Held.{OnlyHeldTurnsCount};

use crate::stepped::Stepped;

/// Only a compare-exchange on the turn that finds it held raises a pass's count of held turns.
pub fn only_held_turns_count<S: Stepped>()
    ensures { OnlyHeldTurnsCount S.script S.history S.halt }
{}
