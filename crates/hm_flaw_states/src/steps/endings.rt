// The end of a migration, if the memory manager leaves a page or a frame as it is then.
ghost use Rattle.std.specs.Prelude.{◌≡◌};
ghost use Rattle.hm_history.specs.Kernel.Going.{coming};
ghost use Rattle.hm_history.specs.declared.phases.Phase as phase;
ghost use Rattle.hm_history.specs.declared.phases.Next.TheVariants.{Do};
ghost use Rattle.hm_flaws.specs.Overrides.{unmoved, unmoved_at, settling, done_with};
ghost use Rattle.hm_flaws.specs.declared.flaws.Flaw as flaws;
ghost use Rattle.hm_flaw_states.specs.Steps.Found.{right_at, flawed_at};

use hm_base::{Actor, Frame, Op};
use hm_history::Kind;
use hm_history::phases::{Migrating, MoveStep, Next, Phase};
use hm_reads::Reads;
use mig_finish::settle;

// The frame of a page that was not moved, at the last step of a migration.
fn unmoved(step: MoveStep, page: &Migrating) -> Option<Frame>
    ensures { result ≡ unmoved step page.now }
{
    match step {
        MoveStep::Finish => { if page.moved { None } else { page.source } }
        _ => None,
    }
}

// The same of a migration that has come to a step and a page.
fn unmoved_at<W: Reads>(
    found: &W,
    actor: Actor,
    op: &Op,
    step: MoveStep,
    next: u64,
) -> Option<Frame>
    ensures { result
        ≡ unmoved_at (coming (W.state found.now).after op.now ((W.state found.now).going actor).pages (phase.Phase.Moves
        step next)) }
{
    match found.coming(actor, op, step, next) {
        Some((step, page)) => unmoved(step, &page),
        None => None,
    }
}

// The frame that is settled at the end of a migration: that of a page that was not moved, or the one that it was moved
// to.
fn settling<W: Reads>(found: &W, actor: Actor, op: &Op, top: &Phase) -> Option<Frame>
    ensures { result
        ≡ settling (W.state found.now).after op.now ((W.state found.now).going actor).pages top.now }
{
    match top {
        Phase::Finish { from, to: None } => Some(*from),
        Phase::Settle { frame } => Some(*frame),
        Phase::Moves { step, next } => unmoved_at(found, actor, op, *step, *next),
        _ => None,
    }
}

// What is dropped is done with; another entry stays.
fn done(kind: Kind) -> Kind
    ensures { done_with (Do kind) ≡ Do result }
{
    match kind {
        Kind::Drop(frame) => Kind::Done(frame),
        other => other,
    }
}

// What is due, but that what is dropped is done with.
fn done_with(next: Next) -> Next
    ensures { result ≡ done_with next }
{
    match next {
        Next::Do(kind) => Next::Do(done(kind)),
        Next::Wait(why) => Next::Wait(why),
    }
}

/// A migration that does not put back what was not moved.
pub(crate) fn not_put_back<W: Reads>(
    found: &W,
    actor: Actor,
    op: &Op,
    top: &Phase,
    right: Next,
) -> Next
    requires { right ≡ right_at (W.program found.now) (W.state found.now) actor op.now top.now }
    ensures { result
        ≡ flawed_at flaws.Flaw.NotPutBack (W.program found.now) (W.state found.now) actor op.now top.now }
{
    match settling(found, actor, op, top) {
        Some(frame) => Next::Do(settle(found, &frame)),
        None => right,
    }
}

/// A migration that drops no frame that no place names any more.
pub(crate) fn unnamed_held<W: Reads>(
    found: &W,
    actor: Actor,
    op: &Op,
    top: &Phase,
    right: Next,
) -> Next
    requires { right ≡ right_at (W.program found.now) (W.state found.now) actor op.now top.now }
    ensures { result
        ≡ flawed_at flaws.Flaw.UnnamedHeld (W.program found.now) (W.state found.now) actor op.now top.now }
{
    match settling(found, actor, op, top) {
        Some(_) => done_with(right),
        None => right,
    }
}
