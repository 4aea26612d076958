// Removals of a driver that leaves one of their steps out.
ghost use Rattle.std.specs.Prelude.{◌≡◌, ℕ, true, false};
ghost use Rattle.hm_base.specs.declared.ops.Op as op;
ghost use Rattle.hm_history.specs.Kernel.Due as spec;
ghost use Rattle.hm_flaws.specs.Overrides.{passes_locked, removed_now, all_withdrawn};
ghost use Rattle.hm_flaws.specs.declared.flaws.Flaw as flaws;
ghost use Rattle.hm_flaw_states.specs.Steps.Found.{right_at, flawed_at};

use device_evict::step_evict;
use hm_base::frames::dev_frame;
use hm_base::{Actor, Cause, Dev, Op};
use hm_history::phases::{Next, Phase};
use hm_history::{Kind, Why};
use hm_reads::Reads;

// What an eviction of the device would do, which has come to this frame.
fn evicted<W: Reads>(found: &W, actor: Actor, dev: Dev, next: u64, emptied: u64) -> Next
    ensures { result
        ≡ spec.due_frames_of (W.program found.now) (W.state found.now).after actor dev false next emptied }
{
    step_evict(found, actor, &Op::Evict { dev }, next, emptied)
}

// The answer of a removal.
fn removed<W: Reads>(found: &W, dev: Dev) -> Kind
    ensures { (emptied : ℕ) → result ≡ spec.frames_end (W.state found.now).after dev true emptied }
{
    if found.is_removed(dev) {
        Kind::Refused(Cause::Removed)
    } else {
        Kind::Removed(dev)
    }
}

// A removal that need not withdraw its device any more.
fn emptied_first<W: Reads>(found: &W, actor: Actor, dev: Dev, next: u64, emptied: u64) -> Next
    ensures { result
        ≡ spec.due_frames_of (W.program found.now) (all_withdrawn true (W.state found.now).after) actor dev true next
        emptied }
{
    match found.held_from(dev, next) {
        None => Next::Do(removed(found, dev)),
        Some(number) => match found.other_locker(&dev_frame(dev, number), actor) {
            Some(by) => Next::Wait(Why::FrameLocked(dev_frame(dev, number), by)),
            None => evicted(found, actor, dev, next, emptied),
        },
    }
}

// A removal at a frame that another actor may have locked.
fn passing<W: Reads>(
    found: &W,
    actor: Actor,
    dev: Dev,
    next: u64,
    emptied: u64,
    right: Next,
) -> Next
    ensures { result
        ≡ passes_locked (W.program found.now) (W.state found.now).after actor (op.Op.Remove dev) next right }
{
    if found.is_withdrawn(dev) && found.held_from(dev, next).is_some() {
        evicted(found, actor, dev, next, emptied)
    } else {
        right
    }
}

// The end of a removal, if it has withdrawn its device; before that it does what is due.
fn withdrawn_now<W: Reads>(found: &W, dev: Dev, emptied: u64, right: Next) -> Next
    ensures { result ≡ removed_now (W.state found.now).after (op.Op.Remove dev) emptied right }
{
    if found.is_withdrawn(dev) {
        Next::Do(removed(found, dev))
    } else {
        right
    }
}

// The end of a removal; another operation does what is due.
fn removed_now<W: Reads>(found: &W, op: &Op, emptied: u64, right: Next) -> Next
    ensures { result ≡ removed_now (W.state found.now).after op.now emptied right }
{
    match op {
        Op::Remove { dev } => withdrawn_now(found, *dev, emptied, right),
        _ => right,
    }
}

// A removal or an eviction, if each device is withdrawn.
fn emptied_now<W: Reads>(
    found: &W,
    actor: Actor,
    op: &Op,
    next: u64,
    emptied: u64,
    right: Next,
) -> Next
    requires { right
        ≡ spec.due_frames (W.program found.now) (W.state found.now).after actor op.now next emptied }
    ensures { result
        ≡ spec.due_frames (W.program found.now) (all_withdrawn true (W.state found.now).after) actor op.now next
        emptied }
{
    match op {
        Op::Remove { dev } => emptied_first(found, actor, *dev, next, emptied),
        _ => right,
    }
}

// A removal that passes over locked frames; another operation does what is due.
fn passed<W: Reads>(found: &W, actor: Actor, op: &Op, next: u64, emptied: u64, right: Next) -> Next
    ensures { result ≡ passes_locked (W.program found.now) (W.state found.now).after actor op.now next right }
{
    match op {
        Op::Remove { dev } => passing(found, actor, *dev, next, emptied, right),
        _ => right,
    }
}

/// A removal that ends once its device is withdrawn.
pub(crate) fn removed_at_once<W: Reads>(
    found: &W,
    actor: Actor,
    op: &Op,
    top: &Phase,
    right: Next,
) -> Next
    requires { right ≡ right_at (W.program found.now) (W.state found.now) actor op.now top.now }
    ensures { result
        ≡ flawed_at flaws.Flaw.RemovedAtOnce (W.program found.now) (W.state found.now) actor op.now top.now }
{
    let _ = actor;
    match top {
        Phase::Frames { next: _, emptied } => removed_now(found, op, *emptied, right),
        _ => right,
    }
}

/// A removal that does not withdraw its device first.
pub(crate) fn not_withdrawn<W: Reads>(
    found: &W,
    actor: Actor,
    op: &Op,
    top: &Phase,
    right: Next,
) -> Next
    requires { right ≡ right_at (W.program found.now) (W.state found.now) actor op.now top.now }
    ensures { result
        ≡ flawed_at flaws.Flaw.NotWithdrawn (W.program found.now) (W.state found.now) actor op.now top.now }
{
    match top {
        Phase::Frames { next, emptied } => { emptied_now(found, actor, op, *next, *emptied, right) }
        _ => right,
    }
}

/// A removal that passes over a frame that another actor has locked.
pub(crate) fn locked_passed<W: Reads>(
    found: &W,
    actor: Actor,
    op: &Op,
    top: &Phase,
    right: Next,
) -> Next
    requires { right ≡ right_at (W.program found.now) (W.state found.now) actor op.now top.now }
    ensures { result
        ≡ flawed_at flaws.Flaw.LockedPassed (W.program found.now) (W.state found.now) actor op.now top.now }
{
    match top {
        Phase::Frames { next, emptied } => passed(found, actor, op, *next, *emptied, right),
        _ => right,
    }
}
