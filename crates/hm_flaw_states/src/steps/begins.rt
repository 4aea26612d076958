// Begins of look-ups and ends of mirrors, of a driver that does not wait for an invalidation, or begins late.
ghost use Rattle.std.specs.Prelude.{◌≡◌, IsTrue};
ghost use Rattle.hm_base.specs.Program.{op_in_range};
ghost use Rattle.hm_history.specs.Kernel.Going.{touch_page, touch_proc};
ghost use Rattle.hm_history.specs.Kernel.Due as spec;
ghost use Rattle.hm_history.specs.declared.phases.Next.TheVariants.{Do, Wait};
ghost use Rattle.hm_flaws.specs.Overrides.{begun_anyway, walked_first, unread, begun_late, detached_now};
ghost use Rattle.hm_flaws.specs.declared.flaws.Flaw as flaws;
ghost use Rattle.hm_flaw_states.specs.Steps.Found.{right_at, flawed_at};

use hm_base::{Actor, MirrorId, Op};
use hm_history::phases::{Next, Phase, Touch};
use hm_history::{Kind, Why};
use hm_reads::Reads;
use hm_reads::decisions::{invalidating, is_invalidating, rlock_mirror};
use hm_reads::faults::Wanted;
use hm_reads::operations::{op_mirror, touch_page, touch_proc};
use range_walk::decide;

// A begin in place of the wait for it.
fn begun_now(why: Why) -> Next
    ensures { begun_anyway (Wait why) ≡ result }
{
    match why {
        Why::Invalidating(mirror, seq) => Next::Do(Kind::Begin { mirror, seq }),
        other => Next::Wait(other),
    }
}

// What is due, but that a look-up does not wait.
fn begins_anyway(next: Next) -> Next
    ensures { result ≡ begun_anyway next }
{
    match next {
        Next::Do(kind) => Next::Do(kind),
        Next::Wait(why) => begun_now(why),
    }
}

// The lock of a walk in place of a begin.
fn locked_first<W: Reads>(found: &W, kind: Kind) -> Next
    ensures { walked_first (W.state found.now).after (Do kind) ≡ result }
{
    match kind {
        Kind::Begin { mirror, seq: _ } => rlock_mirror(found, mirror),
        other => Next::Do(other),
    }
}

// The lock of a walk in place of the wait for a begin.
fn not_awaited<W: Reads>(found: &W, why: Why) -> Next
    ensures { walked_first (W.state found.now).after (Wait why) ≡ result }
{
    match why {
        Why::Invalidating(mirror, _) => rlock_mirror(found, mirror),
        other => Next::Wait(other),
    }
}

// What is due, but that a walk comes before the begin.
fn walked_first<W: Reads>(found: &W, next: Next) -> Next
    ensures { result ≡ walked_first (W.state found.now).after next }
{
    match next {
        Next::Do(kind) => locked_first(found, kind),
        Next::Wait(why) => not_awaited(found, why),
    }
}

// A walk decides as if its interval had not changed; another touch does what is due.
fn decides_unread<W: Reads>(found: &W, actor: Actor, op: &Op, touch: &Touch, right: Next) -> Next
    requires range { IsTrue (op_in_range op.now) }
    requires right { right
        ≡ spec.due_decide (W.program found.now) (W.state found.now).after actor op.now touch.now
        (touch_proc (W.state found.now).after op.now) (touch_page op.now touch.now) }
    ensures { result
        ≡ spec.due_decide (W.program found.now) (W.state found.now).after actor op.now
        (unread (W.state found.now).after op.now touch.now) (touch_proc (W.state found.now).after op.now)
        (touch_page op.now (unread (W.state found.now).after op.now touch.now)) }
{
    match touch {
        Touch::Walk {
            piece,
            since,
            seq: _,
        } => {
            let at = Wanted {
                piece: *piece,
                proc: touch_proc(found, op),
                page: touch_page(op, *touch),
            };
            let seq = found.interval_seq(op_mirror(op));
            decide(found, actor, op, &at, *since, seq)
        }
        _ => right,
    }
}

// The begin of a look-up, once its interval is not being invalidated.
fn begins<W: Reads>(found: &W, mirror: MirrorId) -> Next
    ensures { result ≡ spec.begin_look_up (W.state found.now).after mirror }
{
    if is_invalidating(found, mirror) {
        invalidating(found, mirror)
    } else {
        Next::Do(Kind::Begin {
            mirror,
            seq: found.interval_seq(mirror),
        })
    }
}

// A look-up that has walked begins; one that has begun does what is due.
fn begun_late<W: Reads>(found: &W, op: &Op, since: u64, right: Next) -> Next
    ensures { result ≡ begun_late (W.state found.now).after op.now since right }
{
    if since > 0 {
        return right;
    }
    let mirror = op_mirror(op);
    if found.is_attached(mirror) {
        begins(found, mirror)
    } else {
        Next::Do(Kind::Retry(mirror))
    }
}

// A mirror's end in place of the wait for it.
fn detached(kind: Kind) -> Kind
    ensures { detached_now (Do kind) ≡ Do result }
{
    match kind {
        Kind::Detaching { mirror, seq: _ } => Kind::Detached(mirror),
        other => other,
    }
}

// What is due, but that a mirror is detached at once.
fn detached_now(next: Next) -> Next
    ensures { result ≡ detached_now next }
{
    match next {
        Next::Do(kind) => Next::Do(detached(kind)),
        Next::Wait(why) => Next::Wait(why),
    }
}

/// A look-up that begins while its interval is being invalidated.
pub(crate) fn begun_anyway<W: Reads>(
    found: &W,
    actor: Actor,
    op: &Op,
    top: &Phase,
    right: Next,
) -> Next
    requires { right ≡ right_at (W.program found.now) (W.state found.now) actor op.now top.now }
    ensures { result
        ≡ flawed_at flaws.Flaw.BegunAnyway (W.program found.now) (W.state found.now) actor op.now top.now }
{
    let _ = found;
    let _ = actor;
    let _ = op;
    match top {
        Phase::Piece { .. } => begins_anyway(right),
        _ => right,
    }
}

/// A look-up that reads the sequence of its interval after the walk.
pub(crate) fn begun_last<W: Reads>(
    found: &W,
    actor: Actor,
    op: &Op,
    top: &Phase,
    right: Next,
) -> Next
    requires range { IsTrue (op_in_range op.now) }
    requires right { right ≡ right_at (W.program found.now) (W.state found.now) actor op.now top.now }
    ensures { result
        ≡ flawed_at flaws.Flaw.BegunLast (W.program found.now) (W.state found.now) actor op.now top.now }
{
    match top {
        Phase::Piece { .. } => walked_first(found, right),
        Phase::Decide { touch } => decides_unread(found, actor, op, touch, right),
        Phase::Noted { since, .. } => begun_late(found, op, *since, right),
        _ => right,
    }
}

/// A detach that does not wait until its interval has left the tree.
pub(crate) fn detached_at_once<W: Reads>(
    found: &W,
    actor: Actor,
    op: &Op,
    top: &Phase,
    right: Next,
) -> Next
    requires { right ≡ right_at (W.program found.now) (W.state found.now) actor op.now top.now }
    ensures { result
        ≡ flawed_at flaws.Flaw.DetachedAtOnce (W.program found.now) (W.state found.now) actor op.now top.now }
{
    let _ = found;
    let _ = actor;
    let _ = op;
    match top {
        Phase::Begin => detached_now(right),
        _ => right,
    }
}
