// What is due at the phases that an operation has of its own.
ghost use Rattle.std.specs.Prelude.{◌≡◌, IsTrue, IfOk};
ghost use Rattle.hm_base.specs.Program.{op_in_range};
ghost use Rattle.hm_history.specs.Kernel.Due as spec;

use anon_fault::step_anon;
use cow_fork::step_fork;
use hm_base::{Actor, Cause, NoMemory, Op};
use hm_history::Kind;
use hm_history::phases::Next;
use hm_reads::Reads;
use hm_reads::decisions::{
    in_window_rlock, one_page, runlock_mirror, start_all, start_mirror, under_wlock,
};
use hm_reads::operations::op_mirror;
use mirror_ops::{attach, detach, step_mirror};
use range_walk::step_walk;
use std::alloc::Global;
use unmap_zap::step_areas;

/// The first turn of an operation that is no access.
pub(crate) fn due_begin<W: Reads>(world: &W, actor: Actor, op: &Op) -> Next
    ensures { result ≡ spec.due_begin (W.state world.now).after actor op.now }
{
    match op {
        Op::Map { proc, .. } => under_wlock(world, actor, *proc),
        Op::Unmap { proc, .. } => under_wlock(world, actor, *proc),
        Op::Protect { proc, .. } => under_wlock(world, actor, *proc),
        Op::Exit { proc } => under_wlock(world, actor, *proc),
        Op::Fork { proc, .. } => under_wlock(world, actor, *proc),
        Op::Attach {
            mirror,
            dev,
            proc,
            span,
        } => Next::Do(attach(world, *mirror, *dev, *proc, *span)),
        Op::Detach { mirror } => Next::Do(detach(world, *mirror)),
        Op::Snap { mirror, span } => in_window_rlock(world, *mirror, *span),
        Op::ToDevice { mirror, span } => in_window_rlock(world, *mirror, *span),
        Op::ToSystem { mirror, span } => in_window_rlock(world, *mirror, *span),
        Op::Exclusive { mirror, page } => in_window_rlock(world, *mirror, one_page(*page)),
        _ => Next::Do(Kind::Refused(Cause::Never)),
    }
}

/// The turn under the write lock.
pub(crate) fn due_locked<W: Reads>(world: &W, op: &Op) -> Kind
    ensures { result ≡ spec.due_locked (W.state world.now).after op.now }
{
    match op {
        Op::Fork { proc, child } => step_fork(world, *proc, *child),
        _ => step_areas(world, op),
    }
}

/// The start of the guard over an operation's span.
pub(crate) fn due_ready<W: Reads>(world: &W, op: &Op) -> Kind
    ensures { result ≡ spec.due_ready (W.state world.now).after op.now }
{
    match op {
        Op::Fork { proc, .. } => start_all(world, *proc),
        Op::ToDevice { mirror, span } => start_mirror(world, *mirror, *span),
        Op::ToSystem { mirror, span } => start_mirror(world, *mirror, *span),
        _ => Kind::Refused(Cause::Never),
    }
}

/// An operation's answer, or the release of its lock.
pub(crate) fn due_answer<W: Reads>(world: &W, op: &Op) -> Kind
    ensures { result ≡ spec.due_answer (W.state world.now).after op.now }
{
    match op {
        Op::Unmap { proc, span } => Kind::Unmapped {
            proc: *proc,
            span: *span,
        },
        Op::Protect { proc, span, rights } => Kind::Protected {
            proc: *proc,
            span: *span,
            rights: *rights,
        },
        Op::Exit { proc } => Kind::Exited(*proc),
        Op::Fork { proc, child } => Kind::Forked {
            parent: *proc,
            child: *child,
        },
        Op::Exclusive { mirror, page } => Kind::Excluded {
            mirror: *mirror,
            page: *page,
        },
        _ => runlock_mirror(world, op_mirror(op)),
    }
}

/// A snapshot's turn.
pub(crate) fn due_pages<W: Reads>(world: &W, op: &Op, next: u64) -> Kind
    ensures { result ≡ spec.due_pages (W.state world.now).after op.now next }
{
    match op {
        Op::Snap { mirror, span } => step_mirror(world, *mirror, *span, next),
        _ => Kind::Refused(Cause::Never),
    }
}

/// The turn at a piece of an access.
pub(crate) fn due_piece<W: Reads>(
    world: &W,
    alloc: Global,
    actor: Actor,
    op: &Op,
    piece: u32,
) -> Result<Next, NoMemory>
    requires { IsTrue (op_in_range op.now) }
    ensures { IfOk result (λ next. next ≡ spec.due_piece (W.state world.now).after actor op.now piece) }
{
    match op {
        Op::Add { mirror, addr, .. } => {
            exclusive_ops::add(world, alloc, actor, op, *mirror, *addr)
        }
        Op::DeviceLoad { mirror, .. } => step_walk(world, alloc, op, piece, *mirror),
        Op::DeviceStore { mirror, .. } => step_walk(world, alloc, op, piece, *mirror),
        Op::Load { proc, .. } => step_anon(world, alloc, op, piece, *proc),
        Op::Store { proc, .. } => step_anon(world, alloc, op, piece, *proc),
        _ => Ok(Next::Do(Kind::Refused(Cause::Never))),
    }
}
