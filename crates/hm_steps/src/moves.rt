// What is due in the steps of a migration after its setup.
ghost use Rattle.std.specs.Prelude.{◌≡◌};
ghost use Rattle.hm_history.specs.Memory.Plain.{mirror_proc};
ghost use Rattle.hm_history.specs.Kernel.Operation.{op_mirror};
ghost use Rattle.hm_history.specs.Kernel.Going.{coming};
ghost use Rattle.hm_history.specs.Kernel.Due as spec;
ghost use Rattle.hm_history.specs.declared.phases.Phase as phase;

use hm_base::{Actor, Op, Proc};
use hm_history::Kind;
use hm_history::phases::{Migrating, MoveStep};
use hm_reads::Reads;
use hm_reads::operations::op_mirror;
use mig_copy::step_copy;
use mig_finish::finish_page;
use mig_freeze::others;
use migrate_ops::{commit, set_own};
use skip_rules::SkipRule;

fn mirrors_proc<W: Reads>(world: &W, op: &Op) -> Proc
    ensures { result ≡ mirror_proc (W.state world.now).after.plain (op_mirror op.now) }
{
    world.mirror_proc(op_mirror(op))
}

fn due_step<W: Reads, R: SkipRule>(
    world: &W,
    rule: &R,
    op: &Op,
    step: MoveStep,
    page: &Migrating,
) -> Kind
    ensures { result ≡ spec.due_step (W.program world.now) (W.state world.now).after op.now step page.now }
{
    match step {
        MoveStep::FreezeOthers => others(world, &page.source),
        MoveStep::TakeAndCopy => step_copy(world, rule, op, page.page),
        MoveStep::Commit => commit(
            world,
            mirrors_proc(world, op),
            page.page,
            page.source,
            page.dest,
        ),
        MoveStep::SetOwnTable => set_own(world, op_mirror(op), mirrors_proc(world, op), page),
        MoveStep::Finish => finish_page(world, &page.source, page.dest, page.moved),
    }
}

/// The turn of a migration that has come to a step and a page: what that step has for its next page, or the answer.
pub(crate) fn due_moves<W: Reads, R: SkipRule>(
    world: &W,
    rule: &R,
    actor: Actor,
    op: &Op,
    step: MoveStep,
    next: u64,
) -> Kind
    ensures { result
        ≡ spec.due_moves (W.program world.now) (W.state world.now).after op.now
        ((W.state world.now).going actor).pages
        (coming (W.state world.now).after op.now ((W.state world.now).going actor).pages
        (phase.Phase.Moves step next)) }
{
    match world.coming(actor, op, step, next) {
        None => Kind::Migrated(world.moved_pages(actor)),
        Some((at, page)) => due_step(world, rule, op, at, &page),
    }
}
