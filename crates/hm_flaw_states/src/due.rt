// What is due to an actor of a driver with a flaw, by the state that the history gives and what the driver has of its
// own.
ghost use Rattle.std.specs.Prelude.{◌≡◌, IfOk};
ghost use Rattle.hm_flaws.specs.Flawed as spec;
ghost use Rattle.hm_flaw_states.specs.Owns.{driver_in};

use crate::details::Details;
use crate::found::Found;
use crate::owns::Own;
use crate::steps::due_found;
use hm_base::{Actor, NoMemory};
use hm_flaws::Flaw;
use hm_history::Progress;
use hm_steps::due;
use skip_rules::SkipRule;
use std::alloc::Global;

/// What is due to the actor, if the driver has this flaw: the entry that its next step adds, or why it waits; idle if
/// it has no operation left. `world` is the state that the history gives. The rule decides which pages a migration
/// skips. Memory is taken for the bytes of an answer alone.
pub fn due_by<W: Details, R: SkipRule>(
    world: &W,
    own: &Own,
    flaw: Flaw,
    rule: &R,
    alloc: Global,
    actor: Actor,
) -> Result<Progress, NoMemory>
    ensures { IfOk result (λ progress. progress
        ≡ spec.due_by flaw (W.program world.now)
        (record { state = W.state world.now; driver = driver_in own.now })
        actor) }
{
    match flaw {
        Flaw::NoFlaw => due(world, rule, alloc, actor),
        _ => due_found(&Found { world, own, flaw }, rule, alloc, flaw, actor),
    }
}
