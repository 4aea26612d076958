// Invalidations of a memory manager that tells mirrors too late, or ends them too early.
ghost use Rattle.std.specs.Prelude.{◌≡◌, IsTrue};
ghost use Rattle.hm_history.specs.declared.phases.Next.TheVariants.{Do};
ghost use Rattle.hm_reads.specs.Ranges.{phase_in_range};
ghost use Rattle.hm_flaws.specs.Overrides.{told_last, seq_ended_alone, ended_now};
ghost use Rattle.hm_flaws.specs.declared.flaws.Flaw as flaws;
ghost use Rattle.hm_flaw_states.specs.Steps.Found.{right_at, flawed_at};

use crate::steps::Finds;
use hm_base::{Actor, Op, Proc};
use hm_history::Kind;
use hm_history::phases::{Next, Phase};
use hm_reads::Reads;
use hm_steps::due_guard;

// What is due after the last entry of a body comes before it.
fn told_after(untold: Kind, then: Next) -> Next
    ensures { result ≡ told_last (Do untold) then }
{
    match untold {
        Kind::End { .. } => then,
        other => Next::Do(other),
    }
}

// The sequence after an end that counts no other invalidation.
fn seq_ended_alone<W: Finds>(found: &W, proc: Proc) -> u64
    ensures { result ≡ seq_ended_alone (W.state found.now).after.sequences proc }
{
    found.can_be_raised();
    let seq = found.process_seq(proc);
    if seq % 2 == 1 { seq + 1 } else { seq }
}

// An end that counts no other invalidation; another entry stays.
fn ended<W: Finds>(found: &W, kind: Kind) -> Kind
    ensures { ended_now (W.state found.now).after (Do kind) ≡ Do result }
{
    match kind {
        Kind::End { proc, span, seq: _ } => Kind::End {
            proc,
            span,
            seq: seq_ended_alone(found, proc),
        },
        other => other,
    }
}

// What is due, but that an end counts no other invalidation.
fn ended_now<W: Finds>(found: &W, next: Next) -> Next
    ensures { result ≡ ended_now (W.state found.now).after next }
{
    match next {
        Next::Do(kind) => Next::Do(ended(found, kind)),
        Next::Wait(why) => Next::Wait(why),
    }
}

/// An invalidation that changes places first, and tells mirrors at its end.
pub(crate) fn told_last<W: Reads>(
    found: &W,
    actor: Actor,
    op: &Op,
    top: &Phase,
    right: Next,
) -> Next
    requires range { IsTrue (phase_in_range top.now) }
    requires right { right ≡ right_at (W.program found.now) (W.state found.now) actor op.now top.now }
    ensures { result
        ≡ flawed_at flaws.Flaw.ToldLast (W.program found.now) (W.state found.now) actor op.now top.now }
{
    match top {
        Phase::Guard {
            proc,
            span,
            told,
            body,
            ..
        } => {
            let untold = due_guard(found, actor, op, *proc, *span, false, *told, body);
            told_after(untold, right)
        }
        _ => right,
    }
}

/// An invalidation whose end makes the sequence even, though another is under way.
pub(crate) fn ended_at_once<W: Finds>(
    found: &W,
    actor: Actor,
    op: &Op,
    top: &Phase,
    right: Next,
) -> Next
    requires { right ≡ right_at (W.program found.now) (W.state found.now) actor op.now top.now }
    ensures { result
        ≡ flawed_at flaws.Flaw.EndedAtOnce (W.program found.now) (W.state found.now) actor op.now top.now }
{
    let _ = actor;
    let _ = op;
    match top {
        Phase::Guard { .. } => ended_now(found, right),
        _ => right,
    }
}
