// Accesses through a mirror's table, of a driver that asks less of it, or sets it sooner.
ghost use Rattle.std.specs.Prelude.{◌≡◌, true, false, IsTrue, IfOk};
ghost use Rattle.hm_base.specs.Program.{op_in_range};
ghost use Rattle.hm_history.specs.Memory.Words.{page_of};
ghost use Rattle.hm_history.specs.Kernel.Operation.{op_writes, op_who, op_piece, op_mirror};
ghost use Rattle.hm_history.specs.Kernel.Due as spec;
ghost use Rattle.hm_history.specs.declared.Who as who;
ghost use Rattle.hm_history.specs.declared.phases.Next.TheVariants.{Do, Wait};
ghost use Rattle.hm_flaws.specs.Overrides.{is_device_access, answered, has_usable, has_readable, set_alone, added_at};
ghost use Rattle.hm_flaws.specs.declared.flaws.Flaw as flaws;
ghost use Rattle.hm_flaw_states.specs.Steps.Found.{right_at, flawed_at};

use crate::steps::Finds;
use hm_base::frames::names;
use hm_base::{Actor, MirrorId, NoMemory, Op, Page, Proc};
use hm_history::phases::{Next, Phase};
use hm_history::{Kind, TableRight, Who, Why};
use hm_reads::Reads;
use hm_reads::decisions::stored;
use hm_reads::operations::{op_piece, op_writes, piece_page, touch_page, touch_proc};
use std::alloc::Global;

// The answer of a piece: what it writes, or the plain bytes, which reading puts right.
fn answer<W: Reads>(
    found: &W,
    alloc: Global,
    op: &Op,
    piece: u32,
    mirror: MirrorId,
) -> Result<Next, NoMemory>
    requires range { IsTrue (op_in_range op.now) }
    requires who { op_who op.now ≡ who.Who.Mirror mirror }
    requires reads { spec.is_usable false
        ((W.state found.now).after.places.table mirror (page_of (op_piece op.now piece).0)) ≡ true }
    ensures { IfOk result (λ next. next ≡ Do (spec.answer_of_piece (W.state found.now).after op.now piece)) }
{
    if op_writes(op) {
        stored(alloc, op, piece)
    } else {
        let (addr, len) = op_piece(op, piece);
        let bytes = found.mirror_bytes(alloc, mirror, addr, len)?;
        Ok(Next::Do(Kind::Loaded {
            who: Who::Mirror(mirror),
            addr,
            bytes,
        }))
    }
}

// The answer, if the table has an entry that allows the access.
fn usable_or<W: Finds>(
    found: &W,
    alloc: Global,
    op: &Op,
    piece: u32,
    mirror: MirrorId,
    right: Next,
) -> Result<Next, NoMemory>
    requires range { IsTrue (op_in_range op.now) }
    requires access { is_device_access op.now ≡ true }
    requires who { op_who op.now ≡ who.Who.Mirror mirror }
    requires of { op_mirror op.now ≡ mirror }
    ensures { IfOk result
        (λ n. n
        ≡ answered (has_usable (W.state found.now).after op.now piece) (W.state found.now).after op.now piece right) }
{
    if found.is_usable(mirror, piece_page(op, piece), op_writes(op)) {
        answer(found, alloc, op, piece, mirror)
    } else {
        Ok(right)
    }
}

// The answer, if the mirror is attached and its table has an entry for reads.
fn readable_or<W: Finds>(
    found: &W,
    alloc: Global,
    op: &Op,
    piece: u32,
    mirror: MirrorId,
    right: Next,
) -> Result<Next, NoMemory>
    requires range { IsTrue (op_in_range op.now) }
    requires access { is_device_access op.now ≡ true }
    requires who { op_who op.now ≡ who.Who.Mirror mirror }
    requires of { op_mirror op.now ≡ mirror }
    ensures { IfOk result
        (λ n. n
        ≡ answered (has_readable (W.state found.now).after op.now piece) (W.state found.now).after op.now piece right) }
{
    if found.is_attached(mirror) && found.is_readable(mirror, piece_page(op, piece)) {
        answer(found, alloc, op, piece, mirror)
    } else {
        Ok(right)
    }
}

// A piece of an access: that of a device by its table entry, another one as is due.
fn detached_piece<W: Finds>(
    found: &W,
    alloc: Global,
    op: &Op,
    piece: u32,
    right: Next,
) -> Result<Next, NoMemory>
    requires { IsTrue (op_in_range op.now) }
    ensures { IfOk result
        (λ n. n
        ≡ answered (has_usable (W.state found.now).after op.now piece) (W.state found.now).after op.now piece right) }
{
    match op {
        Op::DeviceLoad { mirror, .. } => usable_or(found, alloc, op, piece, *mirror, right),
        Op::DeviceStore { mirror, .. } => usable_or(found, alloc, op, piece, *mirror, right),
        _ => Ok(right),
    }
}

// A piece of an access: that of a device by its table entry, another one as is due.
fn written_piece<W: Finds>(
    found: &W,
    alloc: Global,
    op: &Op,
    piece: u32,
    right: Next,
) -> Result<Next, NoMemory>
    requires { IsTrue (op_in_range op.now) }
    ensures { IfOk result
        (λ n. n
        ≡ answered (has_readable (W.state found.now).after op.now piece) (W.state found.now).after op.now piece right) }
{
    match op {
        Op::DeviceLoad { mirror, .. } => readable_or(found, alloc, op, piece, *mirror, right),
        Op::DeviceStore { mirror, .. } => readable_or(found, alloc, op, piece, *mirror, right),
        _ => Ok(right),
    }
}

/// A device that goes on with its table after the detach.
pub(crate) fn used_detached<W: Finds>(
    found: &W,
    alloc: Global,
    actor: Actor,
    op: &Op,
    top: &Phase,
    right: Next,
) -> Result<Next, NoMemory>
    requires range { IsTrue (op_in_range op.now) }
    requires right { right ≡ right_at (W.program found.now) (W.state found.now) actor op.now top.now }
    ensures { IfOk result
        (λ n. n ≡ flawed_at flaws.Flaw.UsedDetached (W.program found.now) (W.state found.now) actor op.now top.now) }
{
    let _ = actor;
    match top {
        Phase::Piece { piece } => detached_piece(found, alloc, op, *piece, right),
        _ => Ok(right),
    }
}

/// A device that writes through an entry for reads.
pub(crate) fn reads_written<W: Finds>(
    found: &W,
    alloc: Global,
    actor: Actor,
    op: &Op,
    top: &Phase,
    right: Next,
) -> Result<Next, NoMemory>
    requires range { IsTrue (op_in_range op.now) }
    requires right { right ≡ right_at (W.program found.now) (W.state found.now) actor op.now top.now }
    ensures { IfOk result
        (λ n. n ≡ flawed_at flaws.Flaw.ReadsWritten (W.program found.now) (W.state found.now) actor op.now top.now) }
{
    let _ = actor;
    match top {
        Phase::Piece { piece } => written_piece(found, alloc, op, *piece, right),
        _ => Ok(right),
    }
}

// What is done with the byte that was read.
fn added(op: &Op, old: u8, right: Next) -> Next
    ensures { result ≡ added_at op.now old right }
{
    match op {
        Op::Add {
            mirror,
            addr,
            amount,
        } => Next::Do(Kind::Added {
            mirror: *mirror,
            addr: *addr,
            read: old,
            written: old.wrapping_add(*amount),
        }),
        _ => right,
    }
}

/// An addition that writes its sum, whatever became of the page.
pub(crate) fn added_anyway<W: Reads>(
    found: &W,
    actor: Actor,
    op: &Op,
    top: &Phase,
    right: Next,
) -> Next
    requires { right ≡ right_at (W.program found.now) (W.state found.now) actor op.now top.now }
    ensures { result
        ≡ flawed_at flaws.Flaw.AddedAnyway (W.program found.now) (W.state found.now) actor op.now top.now }
{
    let _ = found;
    let _ = actor;
    match top {
        Phase::Fetched { old } => added(op, *old, right),
        _ => right,
    }
}

// A page that the actor has alone is set in place of a wait.
fn sets_alone<W: Reads>(found: &W, proc: Proc, page: Page, why: Why) -> Next
    ensures { result ≡ set_alone (W.state found.now).after proc page (Wait why) }
{
    match why {
        Why::Invalidating(mirror, _) => Next::Do(Kind::Set {
            mirror,
            page,
            target: names(&found.place(proc, page)),
            right: TableRight::Sole,
            since: found.length(),
        }),
        other => Next::Wait(other),
    }
}

// What a fault does that does not wait before it sets such a page.
fn set_alone<W: Reads>(found: &W, proc: Proc, page: Page, right: Next) -> Next
    ensures { result ≡ set_alone (W.state found.now).after proc page right }
{
    match right {
        Next::Do(kind) => Next::Do(kind),
        Next::Wait(why) => sets_alone(found, proc, page, why),
    }
}

/// An actor that sets a page which it has alone, though the interval is being invalidated.
pub(crate) fn sole_anyway<W: Reads>(
    found: &W,
    actor: Actor,
    op: &Op,
    top: &Phase,
    right: Next,
) -> Next
    requires range { IsTrue (op_in_range op.now) }
    requires right { right ≡ right_at (W.program found.now) (W.state found.now) actor op.now top.now }
    ensures { result
        ≡ flawed_at flaws.Flaw.SoleAnyway (W.program found.now) (W.state found.now) actor op.now top.now }
{
    let _ = actor;
    match top {
        Phase::Decide { touch } => set_alone(
            found,
            touch_proc(found, op),
            touch_page(op, *touch),
            right,
        ),
        _ => right,
    }
}
