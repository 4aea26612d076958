// What is due to an actor, by the crates of the steps.
#![tactic(auto)]

ghost use Rattle.std.specs.Prelude.{◌≡◌, IfOk};
ghost use Rattle.hm_history.specs.Kernel.Due as spec;

mod bodies;
mod moves;
mod operations;
mod phases;

pub use bodies::due_guard;
use hm_base::{Actor, NoMemory};
use hm_history::Progress;
use hm_reads::Reads;
use phases::due_phase;
use skip_rules::SkipRule;
use std::alloc::Global;

/// What is due to the actor in the world: the entry that its next step adds, or why it waits; idle if it has no
/// operation left. The rule decides which pages a migration skips. Memory is taken for the bytes of an answer alone.
#[inline(always)]
pub fn due<W: Reads, R: SkipRule>(
    world: &W,
    rule: &R,
    alloc: Global,
    actor: Actor,
) -> Result<Progress, NoMemory>
    ensures { IfOk result (λ progress. progress ≡ spec.due_in (W.program world.now) (W.state world.now) actor) }
{
    world.script().facts();
    let Some(op) = world.op(actor) else {
        return Ok(Progress::Idle);
    };
    let Some(top) = world.phase(actor) else {
        return Ok(Progress::Idle);
    };
    due_phase(world, rule, alloc, actor, op, top)
}
