// Look-ups of a driver that commits, or walks, otherwise.
ghost use Rattle.std.specs.Prelude.{◌≡◌, ◌||◌, IsTrue};
ghost use Rattle.hm_base.specs.Program.{op_in_range};
ghost use Rattle.hm_history.specs.Kernel.Operation.{op_mirror, op_writes};
ghost use Rattle.hm_history.specs.Kernel.Going.{touch_page, touch_proc};
ghost use Rattle.hm_history.specs.Kernel.Due as spec;
ghost use Rattle.hm_history.specs.declared.phases.Next as next;
ghost use Rattle.hm_flaws.specs.Overrides.{retry_or_commit, is_left, for_writes, suits_any, walk_any};
ghost use Rattle.hm_flaws.specs.declared.flaws.Flaw as flaws;
ghost use Rattle.hm_flaw_states.specs.Steps.Found.{right_at, flawed_at, any_decides};

use hm_base::{Actor, Op, Place};
use hm_history::phases::{Next, Phase, Touch};
use hm_history::{Kind, TableRight};
use hm_reads::Reads;
use hm_reads::decisions::{is_invalidating, repeats};
use hm_reads::faults::{Wanted, fault, suits};
use hm_reads::operations::{op_mirror, op_writes, touch_page, touch_proc};
use range_walk::noted;

// The commit with no comparison: as if the interval still had the sequence with which the look-up began.
fn commit<W: Reads>(found: &W, op: &Op, piece: u32, since: u64, place: &Place) -> Next
    requires { IsTrue (op_in_range op.now) }
    ensures { result ≡ retry_or_commit (is_left (W.state found.now).after op.now) op.now piece since place.now }
{
    let seq = found.interval_seq(op_mirror(op));
    noted(found, op, piece, since, seq, place)
}

// The commit, unless the interval is being invalidated now.
fn commit_now<W: Reads>(found: &W, op: &Op, piece: u32, since: u64, place: &Place) -> Next
    requires { IsTrue (op_in_range op.now) }
    ensures { result
        ≡ retry_or_commit
        (is_left (W.state found.now).after op.now
        || spec.is_invalidating (W.state found.now).after (op_mirror op.now)) op.now piece since place.now }
{
    let mirror = op_mirror(op);
    if is_invalidating(found, mirror) {
        Next::Do(Kind::Retry(mirror))
    } else {
        commit(found, op, piece, since, place)
    }
}

fn set_for_writes(kind: Kind) -> Kind
    ensures { for_writes (next.Next.Do kind) ≡ next.Next.Do result }
{
    match kind {
        Kind::Set {
            mirror,
            page,
            target,
            right: _,
            since,
        } => Kind::Set {
            mirror,
            page,
            target,
            right: TableRight::Write,
            since,
        },
        other => other,
    }
}

/// A table entry is set for writes.
pub(crate) fn for_writes(next: Next) -> Next
    ensures { result ≡ for_writes next }
{
    match next {
        Next::Do(kind) => Next::Do(set_for_writes(kind)),
        Next::Wait(why) => Next::Wait(why),
    }
}

/// Whether an access may do this at the place, if any device's memory is its own.
pub(crate) fn suits_any(writes: bool, place: &Place) -> bool
    ensures { result ≡ suits_any writes place.now }
{
    match place {
        Place::Own {
            dev: _,
            number: _,
            writable,
        } => !writes || *writable,
        _ => suits(writes, *place),
    }
}

// A fault to which any device's memory is no fault.
fn walk<W: Reads>(found: &W, actor: Actor, op: &Op, at: &Wanted) -> Next
    requires { IsTrue (op_in_range op.now) }
    ensures { result
        ≡ spec.fault (W.program found.now) (W.state found.now).after actor op.now at.now.piece
        (suits_any (op_writes op.now)) at.now.proc at.now.page }
{
    let place = found.place(at.proc, at.page);
    let suited = suits_any(op_writes(op), &place);
    fault(found, actor, op, at, suited)
}

// The decision of a walk that takes any device's memory.
fn walk_any<W: Reads>(found: &W, actor: Actor, op: &Op, seq: u64, at: &Wanted) -> Next
    requires { IsTrue (op_in_range op.now) }
    ensures { result
        ≡ walk_any (W.program found.now) (W.state found.now).after actor op.now at.now.piece seq at.now.proc
        at.now.page }
{
    let mirror = op_mirror(op);
    if repeats(found, mirror, seq) {
        Next::Do(Kind::Retry(mirror))
    } else {
        walk(found, actor, op, at)
    }
}

/// A look-up that commits without comparing sequences.
pub(crate) fn not_compared<W: Reads>(
    found: &W,
    actor: Actor,
    op: &Op,
    top: &Phase,
    right: Next,
) -> Next
    requires range { IsTrue (op_in_range op.now) }
    requires right { right ≡ right_at (W.program found.now) (W.state found.now) actor op.now top.now }
    ensures { result
        ≡ flawed_at flaws.Flaw.NotCompared (W.program found.now) (W.state found.now) actor op.now top.now }
{
    let _ = actor;
    match top {
        Phase::Noted {
            piece,
            since,
            seq: _,
            place,
        } => commit(found, op, *piece, *since, place),
        _ => right,
    }
}

/// A look-up that asks only whether its interval is being invalidated at its commit.
pub(crate) fn compared_now<W: Reads>(
    found: &W,
    actor: Actor,
    op: &Op,
    top: &Phase,
    right: Next,
) -> Next
    requires range { IsTrue (op_in_range op.now) }
    requires right { right ≡ right_at (W.program found.now) (W.state found.now) actor op.now top.now }
    ensures { result
        ≡ flawed_at flaws.Flaw.ComparedNow (W.program found.now) (W.state found.now) actor op.now top.now }
{
    let _ = actor;
    match top {
        Phase::Noted {
            piece,
            since,
            seq: _,
            place,
        } => commit_now(found, op, *piece, *since, place),
        _ => right,
    }
}

/// A look-up that sets its page for writes.
pub(crate) fn all_for_writes<W: Reads>(
    found: &W,
    actor: Actor,
    op: &Op,
    top: &Phase,
    right: Next,
) -> Next
    requires { right ≡ right_at (W.program found.now) (W.state found.now) actor op.now top.now }
    ensures { result
        ≡ flawed_at flaws.Flaw.AllForWrites (W.program found.now) (W.state found.now) actor op.now top.now }
{
    let _ = found;
    let _ = actor;
    let _ = op;
    match top {
        Phase::Noted { .. } => for_writes(right),
        _ => right,
    }
}

/// A look-up that does not wait for the mmap lock.
pub(crate) fn walks_unlocked<W: Reads>(
    found: &W,
    actor: Actor,
    op: &Op,
    top: &Phase,
    right: Next,
) -> Next
    requires { right ≡ right_at (W.program found.now) (W.state found.now) actor op.now top.now }
    ensures { result
        ≡ flawed_at flaws.Flaw.WalksUnlocked (W.program found.now) (W.state found.now) actor op.now top.now }
{
    let _ = actor;
    match top {
        Phase::Begun { .. } => Next::Do(Kind::Rlock(found.mirror_proc(op_mirror(op)))),
        _ => right,
    }
}

// A fault of a walk decides; that of another touch does what is due.
fn any_decides<W: Reads>(found: &W, actor: Actor, op: &Op, touch: &Touch, right: Next) -> Next
    requires range { IsTrue (op_in_range op.now) }
    requires right { right
        ≡ spec.due_decide (W.program found.now) (W.state found.now).after actor op.now touch.now
        (touch_proc (W.state found.now).after op.now) (touch_page op.now touch.now) }
    ensures { result
        ≡ any_decides (W.program found.now) (W.state found.now).after actor op.now touch.now
        (touch_proc (W.state found.now).after op.now) (touch_page op.now touch.now) }
{
    match touch {
        Touch::Walk {
            piece,
            since: _,
            seq,
        } => {
            let at = Wanted {
                piece: *piece,
                proc: touch_proc(found, op),
                page: touch_page(op, *touch),
            };
            walk_any(found, actor, op, *seq, &at)
        }
        _ => right,
    }
}

/// A look-up that takes another device's memory for its own.
pub(crate) fn any_device<W: Reads>(
    found: &W,
    actor: Actor,
    op: &Op,
    top: &Phase,
    right: Next,
) -> Next
    requires range { IsTrue (op_in_range op.now) }
    requires right { right ≡ right_at (W.program found.now) (W.state found.now) actor op.now top.now }
    ensures { result
        ≡ flawed_at flaws.Flaw.AnyDevice (W.program found.now) (W.state found.now) actor op.now top.now }
{
    match top {
        Phase::Decide { touch } => any_decides(found, actor, op, touch, right),
        _ => right,
    }
}
