// Decisions that the steps of several operations share.
ghost use Rattle.std.specs.Prelude.{◌≡◌, IsTrue, IfOk};
ghost use Rattle.hm_base.specs.Pages.{one_page, all_pages};
ghost use Rattle.hm_base.specs.Program.{op_in_range};
ghost use Rattle.hm_history.specs.Memory.Plain.{mirror_proc};
ghost use Rattle.hm_history.specs.Kernel.Operation.{op_who, op_piece, op_bytes};
ghost use Rattle.hm_history.specs.Kernel.Due as spec;
ghost use Rattle.hm_history.specs.declared.Kind.{Kind};
ghost use Rattle.hm_history.specs.declared.phases.Next.TheVariants.{Do};

use crate::Reads;
use crate::operations::{is_exclusive_op, op_bytes, op_piece, op_who};
use hm_base::{Actor, Cause, MirrorId, NoMemory, Op, Page, PoolId, Proc, Span};
use hm_history::phases::Next;
use hm_history::{Kind, TableRight, Why};
use std::alloc::Global;

/// Takes the mmap lock for reading, once nobody has it for writing.
pub fn rlock<W: Reads>(world: &W, proc: Proc) -> Next
    ensures { result ≡ spec.rlock (W.state world.now).after proc }
{
    match world.writer(proc) {
        None => Next::Do(Kind::Rlock(proc)),
        Some(by) => Next::Wait(Why::MapLock(proc, by)),
    }
}

/// Takes the mmap lock of a mirror's process for reading.
pub fn rlock_mirror<W: Reads>(world: &W, mirror: MirrorId) -> Next
    ensures { result ≡ spec.rlock (W.state world.now).after (mirror_proc (W.state world.now).after.plain mirror) }
{
    rlock(world, world.mirror_proc(mirror))
}

/// Takes the mmap lock for writing, once nobody else has it.
pub(crate) fn wlock<W: Reads>(world: &W, proc: Proc, actor: Actor) -> Next
    ensures { result ≡ spec.wlock (W.state world.now).after proc actor }
{
    match world.lowest_other(proc, actor) {
        None => Next::Do(Kind::Wlock(proc)),
        Some(by) => Next::Wait(Why::MapLock(proc, by)),
    }
}

/// The first turn of what needs the mmap lock for writing.
pub fn under_wlock<W: Reads>(world: &W, actor: Actor, proc: Proc) -> Next
    ensures { result ≡ spec.under_wlock (W.state world.now).after actor proc }
{
    if world.there(proc) {
        wlock(world, proc, actor)
    } else {
        Next::Do(Kind::Refused(Cause::NoProcess))
    }
}

/// The first turn of what a mirror does over pages of its window.
pub fn in_window_rlock<W: Reads>(world: &W, mirror: MirrorId, span: Span) -> Next
    ensures { result ≡ spec.in_window_rlock (W.state world.now).after mirror span }
{
    if world.in_window(mirror, span) {
        rlock_mirror(world, mirror)
    } else {
        Next::Do(Kind::Refused(Cause::Outside))
    }
}

/// The start of an invalidation over the span.
pub fn start<W: Reads>(world: &W, proc: Proc, span: Span) -> Kind
    ensures { result ≡ spec.start_entry (W.state world.now).after proc span }
{
    Kind::Start {
        proc,
        span,
        seq: world.seq_started(proc, span),
    }
}

/// The span of one page.
pub fn one_page(page: Page) -> Span
    ensures { result ≡ one_page page }
{
    page.facts();
    Span::new(page, 1)
}

fn all_pages() -> Span
    ensures { result ≡ all_pages }
{
    Span::new(Page::new(0), 1 << 36)
}

/// The start of an invalidation over all pages.
pub fn start_all<W: Reads>(world: &W, proc: Proc) -> Kind
    ensures { result ≡ spec.start_entry (W.state world.now).after proc all_pages }
{
    start(world, proc, all_pages())
}

/// The start of an invalidation over one page.
pub fn start_page<W: Reads>(world: &W, proc: Proc, page: Page) -> Kind
    ensures { result ≡ spec.start_entry (W.state world.now).after proc (one_page page) }
{
    start(world, proc, one_page(page))
}

/// The start of an invalidation over a span of a mirror's process.
pub fn start_mirror<W: Reads>(world: &W, mirror: MirrorId, span: Span) -> Kind
    ensures { result
        ≡ spec.start_entry (W.state world.now).after (mirror_proc (W.state world.now).after.plain mirror) span }
{
    start(world, world.mirror_proc(mirror), span)
}

/// The failure of a piece of an access.
pub fn failed(op: &Op, piece: u32, cause: Cause) -> Kind
    requires { IsTrue (op_in_range op.now) }
    ensures { result ≡ spec.failed op.now piece cause }
{
    let (addr, len) = op_piece(op, piece);
    Kind::Failed {
        who: op_who(op),
        addr,
        len,
        cause,
    }
}

/// A failure; that of `exclusive` refuses the operation.
pub fn fails(op: &Op, piece: u32, cause: Cause) -> Kind
    requires { IsTrue (op_in_range op.now) }
    ensures { result ≡ spec.fails op.now piece cause }
{
    if is_exclusive_op(op) {
        Kind::Refused(cause)
    } else {
        failed(op, piece, cause)
    }
}

/// The answer of a piece that writes.
pub fn stored(alloc: Global, op: &Op, piece: u32) -> Result<Next, NoMemory>
    requires { IsTrue (op_in_range op.now) }
    ensures { IfOk result
        (λ next. next
        ≡ Do (Kind.Stored (op_who op.now) (op_piece op.now piece).0 (op_bytes op.now (op_piece op.now piece)))) }
{
    let (addr, len) = op_piece(op, piece);
    let bytes = op_bytes(alloc, op, addr, len)?;
    Ok(Next::Do(Kind::Stored {
        who: op_who(op),
        addr,
        bytes,
    }))
}

/// The lowest free system frame is taken, or without one this is due.
pub(crate) fn take_or<W: Reads>(world: &W, failing: Kind) -> Next
    ensures { result ≡ spec.take_or (W.program world.now) (W.state world.now).after failing }
{
    match world.lowest_free(PoolId::System) {
        Some(frame) => Next::Do(Kind::Take(frame)),
        None => Next::Do(failing),
    }
}

/// The release of the mmap lock of a mirror's process.
pub fn runlock_mirror<W: Reads>(world: &W, mirror: MirrorId) -> Kind
    ensures { result ≡ Kind.Runlock (mirror_proc (W.state world.now).after.plain mirror) }
{
    Kind::Runlock(world.mirror_proc(mirror))
}

/// The sequence of a mirror's process.
pub fn process_seq<W: Reads>(world: &W, mirror: MirrorId) -> u64
    ensures { result ≡ spec.process_seq (W.state world.now).after mirror }
{
    world.process_seq(world.mirror_proc(mirror))
}

/// Whether the mirror's interval is being invalidated: its sequence is the process's.
pub fn is_invalidating<W: Reads>(world: &W, mirror: MirrorId) -> bool
    ensures { result ≡ spec.is_invalidating (W.state world.now).after mirror }
{
    world.interval_seq(mirror) == process_seq(world, mirror)
}

/// The wait until the invalidation ends.
pub fn invalidating<W: Reads>(world: &W, mirror: MirrorId) -> Next
    ensures { result ≡ spec.invalidating (W.state world.now).after mirror }
{
    Next::Wait(Why::Invalidating(mirror, world.interval_seq(mirror)))
}

/// Whether a look-up that began with this sequence is to be repeated.
pub fn repeats<W: Reads>(world: &W, mirror: MirrorId, seq: u64) -> bool
    ensures { result ≡ spec.repeats (W.state world.now).after mirror seq }
{
    !world.is_attached(mirror) || world.interval_seq(mirror) != seq
}

/// The right of a table's entry for a place that is writable or not.
pub fn right_of(writable: bool) -> TableRight
    ensures { result ≡ spec.right_of writable }
{
    if writable {
        TableRight::Write
    } else {
        TableRight::Read
    }
}
