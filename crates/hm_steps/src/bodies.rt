// What is due in a guard.
ghost use Rattle.std.specs.Prelude.{◌≡◌, IsTrue};
ghost use Rattle.hm_history.specs.Kernel.Due as spec;
ghost use Rattle.hm_reads.specs.Ranges.{body_in_range};

use anon_fault::replace;
use cow_fork::{copy, give};
use exclusive_ops::{restore, seize};
use fault_home::catch;
use hm_base::{Actor, MirrorId, Op, Proc, Span};
use hm_history::Kind;
use hm_history::phases::Body;
use hm_reads::Reads;
use hm_reads::guards::{body_or_end, to_tell};
use hm_reads::operations::child_of;
use mig_freeze::{freeze, step_freeze};
use migrate_ops::insert;
use unmap_zap::{narrow, zap};

fn due_body<W: Reads>(
    world: &W,
    actor: Actor,
    op: &Op,
    proc: Proc,
    span: Span,
    body: &Body,
) -> Option<Kind>
    requires { IsTrue (body_in_range body.now) }
    ensures { result
        ≡ spec.due_body (W.state world.now).after actor op.now proc span
        ((W.state world.now).after.places.place proc span.first) body.now }
{
    let first = span.first();
    match body {
        Body::Nothing => None,
        Body::Zap { next } => zap(world, proc, span, *next),
        Body::Narrow { next } => narrow(world, proc, span, *next),
        Body::Fork { next, half: false } => copy(world, proc, child_of(op), span, *next),
        Body::Fork { next, half: true } => Some(give(world, proc, child_of(op), *next)),
        Body::Select { next } => step_freeze(world, actor, op, proc, span, *next),
        Body::Replace { over, by } => replace(world, proc, first, over, by),
        Body::Restore => restore(world, proc, first),
        Body::Catch { frame } => catch(world, proc, first, frame),
        Body::Freeze { frame } => freeze(world, proc, first, frame),
        Body::Fresh { by } => insert(world, proc, first, by),
        Body::Seize { frame } => seize(world, actor, proc, first, frame),
    }
}

/// The turn in a guard: a mirror is told, the body goes on, or the guard ends.
pub fn due_guard<W: Reads>(
    world: &W,
    actor: Actor,
    op: &Op,
    proc: Proc,
    span: Span,
    overlapped: bool,
    told: Option<MirrorId>,
    body: &Body,
) -> Kind
    requires { IsTrue (body_in_range body.now) }
    ensures { result ≡ spec.due_guard (W.state world.now).after actor op.now proc span overlapped told body.now }
{
    match to_tell(world, proc, span, overlapped, told) {
        Some(mirror) => Kind::Told {
            mirror,
            span,
            seq: world.process_seq(proc),
        },
        None => {
            let next = due_body(world, actor, op, proc, span, body);
            body_or_end(world, proc, span, next)
        }
    }
}
