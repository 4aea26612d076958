// What is due at a phase, in place of what the definitions say.
ghost use Rattle.std.specs.Prelude.{◌≡◌, ◌||◌, IsTrue};
ghost use Rattle.hm_base.specs.Program.{op_in_range};
ghost use Rattle.hm_history.specs.declared.phases.Phase as phases;
ghost use Rattle.hm_linux.specs.HeldPage.{keeps_referred};
ghost use Rattle.hm_linux.specs.Instead.{if_on, begins_as, sees_as, decides_as, guards_as, due_varied};
ghost use Rattle.hm_linux_steps.specs.Notes.{noted_in};

use crate::attaching::attaches;
use crate::deciding::{area_first, set_fails, takes_own};
use crate::guarding::{selects_mapped, spares_locked};
use crate::locking::decides_busy;
use crate::moving::keeps_referred;
use crate::notes::Notes;
use crate::shows::Shows;
use crate::snapshots::{begins_snap, ends_snap, sees_mapped};
use hm_base::{Actor, Op, Proc, Span};
use hm_history::phases::{Body, MoveStep, Next, Phase, Touch};
use hm_linux::Variant;
use hm_reads::Reads;

// An operation's first entry.
fn begins_as<W: Shows>(found: &W, variant: Variant, op: &Op, next: Next) -> Next
    ensures { result ≡ begins_as variant (W.state found.now).after op.now next }
{
    let begun = if variant.whole_snapshot {
        begins_snap(found, op, next)
    } else {
        next
    };
    if variant.first_attach {
        attaches(found, begun)
    } else {
        begun
    }
}

// A page of a snapshot, or its end.
fn sees_as<W: Reads>(
    found: &W,
    notes: &Notes,
    variant: Variant,
    actor: Actor,
    op: &Op,
    next: Next,
) -> Next
    ensures { result ≡ sees_as variant (noted_in notes.now) (W.state found.now).after actor op.now next }
{
    let ended = if variant.whole_snapshot {
        ends_snap(notes, actor, op, next)
    } else {
        next
    };
    if variant.unmap_lets_in {
        sees_mapped(found, ended)
    } else {
        ended
    }
}

// A fault's decision.
fn decides_as<W: Reads>(
    found: &W,
    notes: &Notes,
    variant: Variant,
    actor: Actor,
    op: &Op,
    touch: &Touch,
    next: Next,
) -> Next
    requires { IsTrue (op_in_range op.now) }
    ensures { result
        ≡ decides_as variant (noted_in notes.now) (W.state found.now).after actor op.now touch.now next }
{
    let busy = if variant.exclusive_busy {
        decides_busy(found, notes, actor, op, touch, next)
    } else {
        next
    };
    let taken = if variant.own_read_only {
        takes_own(found, op, touch, busy)
    } else {
        busy
    };
    if variant.unmap_lets_in {
        area_first(found, op, touch, taken)
    } else {
        taken
    }
}

// The body of a guard.
fn guards_as<W: Reads>(
    found: &W,
    notes: &Notes,
    variant: Variant,
    actor: Actor,
    proc: Proc,
    span: Span,
    body: &Body,
    next: Next,
) -> Next
    ensures { result
        ≡ guards_as variant (noted_in notes.now) (W.state found.now).after actor proc span body.now next }
{
    let spared = if variant.exclusive_busy {
        spares_locked(found, notes, actor, proc, span, body, next)
    } else {
        next
    };
    if variant.unmap_lets_in {
        selects_mapped(found, body, spared)
    } else {
        spared
    }
}

// A step of a migration.
fn moves_as<W: Reads>(
    found: &W,
    notes: &Notes,
    variant: Variant,
    actor: Actor,
    op: &Op,
    step: MoveStep,
    from: u64,
    next: Next,
) -> Next
    ensures { result
        ≡ if_on (variant.held_page || variant.exclusive_pins)
        (keeps_referred (noted_in notes.now) (W.state found.now).after actor op.now
        ((W.state found.now).going actor).pages (phases.Phase.Moves step from)) next }
{
    if variant.held_page || variant.exclusive_pins {
        keeps_referred(found, notes, actor, op, step, from, next)
    } else {
        next
    }
}

/// What is due at a phase, in place of what the definitions say.
pub(crate) fn due_varied<W: Shows>(
    found: &W,
    notes: &Notes,
    variant: Variant,
    actor: Actor,
    op: &Op,
    top: &Phase,
    next: Next,
) -> Next
    requires { IsTrue (op_in_range op.now) }
    ensures { result
        ≡ due_varied variant (W.program found.now) (noted_in notes.now) (W.state found.now).after actor op.now
        ((W.state found.now).going actor).pages top.now next }
{
    match top {
        Phase::Begin => begins_as(found, variant, op, next),
        Phase::Pages { .. } => sees_as(found, notes, variant, actor, op, next),
        Phase::Decide { touch } => decides_as(found, notes, variant, actor, op, touch, next),
        Phase::Noted { piece, place, .. } if variant.own_read_only => {
            set_fails(op, *piece, place, next)
        }
        Phase::Guard {
            proc,
            span,
            body,
            ..
        } => guards_as(found, notes, variant, actor, *proc, *span, body, next),
        Phase::Moves { step, next: from } => {
            moves_as(found, notes, variant, actor, op, *step, *from, next)
        }
        _ => next,
    }
}
