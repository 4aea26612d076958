// Pages that a memory manager places without a second look, or with a right that they do not have.
ghost use Rattle.std.specs.Prelude.{◌≡◌};
ghost use Rattle.hm_history.specs.Memory.Plain.{rights_of, is_read_write};
ghost use Rattle.hm_history.specs.Kernel.Due.{child_of};
ghost use Rattle.hm_history.specs.declared.Kind as kinds;
ghost use Rattle.hm_history.specs.declared.phases.Next.TheVariants.{Do};
ghost use Rattle.hm_flaws.specs.Overrides.{placed_anyway, replaced_anyway, fresh_anyway, widened, placed_for_writes};
ghost use Rattle.hm_flaws.specs.Overrides.{fresh_for_writes, forked_whole, forked_at};
ghost use Rattle.hm_flaws.specs.declared.flaws.Flaw as flaws;
ghost use Rattle.hm_flaw_states.specs.Steps.Found.{right_at, flawed_at};

use hm_base::frames::place_in;
use hm_base::{Actor, Frame, Op, Page, Place, Proc, Rights, Span};
use hm_history::Kind;
use hm_history::phases::{Body, Next, Phase};
use hm_reads::Reads;
use hm_reads::operations::child_of;

// A frame is placed in place of an end.
fn placed(span: Span, by: &Frame, writable: bool, kind: Kind) -> Kind
    ensures { placed_anyway span by.now writable (Do kind) ≡ Do result }
{
    match kind {
        Kind::End { proc, .. } => Kind::Place {
            proc,
            page: span.first(),
            place: place_in(by, writable),
        },
        other => other,
    }
}

// What is due, but that a body that would end places the frame.
fn placed_anyway(span: Span, by: &Frame, writable: bool, next: Next) -> Next
    ensures { result ≡ placed_anyway span by.now writable next }
{
    match next {
        Next::Do(kind) => Next::Do(placed(span, by, writable, kind)),
        Next::Wait(why) => Next::Wait(why),
    }
}

// The guard of a fault places its frame; another one does what is due.
fn replaces_anyway(span: Span, body: &Body, right: Next) -> Next
    ensures { result ≡ replaced_anyway span body.now right }
{
    match body {
        Body::Replace { over: _, by } => placed_anyway(span, by, true, right),
        _ => right,
    }
}

// Whether the area of the span's first page is one for writes.
fn is_for_writes<W: Reads>(found: &W, proc: Proc, span: Span) -> bool
    ensures { result ≡ is_read_write (rights_of (W.state found.now).after.plain proc span.first) }
{
    found.rights(proc, span.first()) == Some(Rights::ReadWrite)
}

// The guard of a fresh page places its frame; another one does what is due.
fn inserts_anyway<W: Reads>(found: &W, proc: Proc, span: Span, body: &Body, right: Next) -> Next
    ensures { result ≡ fresh_anyway (W.state found.now).after proc span body.now right }
{
    match body {
        Body::Fresh { by } => placed_anyway(span, by, is_for_writes(found, proc, span), right),
        _ => right,
    }
}

// The place with the right to write.
fn widened(place: Place) -> Place
    ensures { result ≡ widened place }
{
    match place {
        Place::Sys {
            number,
            writable: _,
        } => Place::Sys {
            number,
            writable: true,
        },
        Place::Own {
            dev,
            number,
            writable: _,
        } => Place::Own {
            dev,
            number,
            writable: true,
        },
        other => other,
    }
}

// A page is placed for writes; another entry stays.
fn placed_wide(kind: Kind) -> Kind
    ensures { placed_for_writes (Do kind) ≡ Do result }
{
    match kind {
        Kind::Place { proc, page, place } => Kind::Place {
            proc,
            page,
            place: widened(place),
        },
        other => other,
    }
}

// What is due, but that a page is placed for writes.
fn placed_for_writes(next: Next) -> Next
    ensures { result ≡ placed_for_writes next }
{
    match next {
        Next::Do(kind) => Next::Do(placed_wide(kind)),
        Next::Wait(why) => Next::Wait(why),
    }
}

// The guard of a fresh page places it for writes; another one does what is due.
fn inserts_for_writes(body: &Body, right: Next) -> Next
    ensures { result ≡ fresh_for_writes body.now right }
{
    match body {
        Body::Fresh { .. } => placed_for_writes(right),
        _ => right,
    }
}

// The parent's place is given to the child.
fn given<W: Reads>(found: &W, op: &Op, parent: Proc, page: Page) -> Kind
    ensures { result
        ≡ kinds.Kind.Place (child_of op.now) page ((W.state found.now).after.places.place parent page) }
{
    Kind::Place {
        proc: child_of(op),
        page,
        place: found.place(parent, page),
    }
}

// A page of the child is placed in place of one of the parent.
fn forked<W: Reads>(found: &W, op: &Op, parent: Proc, kind: Kind) -> Kind
    ensures { forked_whole (W.state found.now).after op.now parent (Do kind) ≡ Do result }
{
    match kind {
        Kind::Place { proc, page, place } => {
            if proc == parent {
                given(found, op, parent, page)
            } else {
                Kind::Place { proc, page, place }
            }
        }
        other => other,
    }
}

// What is due, but that no page of the parent loses its right.
fn forks_whole<W: Reads>(found: &W, op: &Op, parent: Proc, next: Next) -> Next
    ensures { result ≡ forked_whole (W.state found.now).after op.now parent next }
{
    match next {
        Next::Do(kind) => Next::Do(forked(found, op, parent, kind)),
        Next::Wait(why) => Next::Wait(why),
    }
}

// The guard of a fork gives the child the parent's place; another one does what is due.
fn forked_at<W: Reads>(found: &W, op: &Op, proc: Proc, body: &Body, right: Next) -> Next
    ensures { result ≡ forked_at (W.state found.now).after op.now proc body.now right }
{
    match body {
        Body::Fork {
            next: _,
            half: false,
        } => forks_whole(found, op, proc, right),
        _ => right,
    }
}

/// A fork that gives the child the parent's right, and leaves the parent that right.
pub(crate) fn forked_whole<W: Reads>(
    found: &W,
    actor: Actor,
    op: &Op,
    top: &Phase,
    right: Next,
) -> Next
    requires { right ≡ right_at (W.program found.now) (W.state found.now) actor op.now top.now }
    ensures { result
        ≡ flawed_at flaws.Flaw.ForkedWhole (W.program found.now) (W.state found.now) actor op.now top.now }
{
    let _ = actor;
    match top {
        Phase::Guard { proc, body, .. } => forked_at(found, op, *proc, body, right),
        _ => right,
    }
}

/// A fault that replaces a page without a second look at it.
pub(crate) fn replaced_anyway<W: Reads>(
    found: &W,
    actor: Actor,
    op: &Op,
    top: &Phase,
    right: Next,
) -> Next
    requires { right ≡ right_at (W.program found.now) (W.state found.now) actor op.now top.now }
    ensures { result
        ≡ flawed_at flaws.Flaw.ReplacedAnyway (W.program found.now) (W.state found.now) actor op.now top.now }
{
    let _ = found;
    let _ = actor;
    let _ = op;
    match top {
        Phase::Guard { span, body, .. } => replaces_anyway(*span, body, right),
        _ => right,
    }
}

/// A migration that places a fresh page without a second look at it.
pub(crate) fn fresh_anyway<W: Reads>(
    found: &W,
    actor: Actor,
    op: &Op,
    top: &Phase,
    right: Next,
) -> Next
    requires { right ≡ right_at (W.program found.now) (W.state found.now) actor op.now top.now }
    ensures { result
        ≡ flawed_at flaws.Flaw.FreshAnyway (W.program found.now) (W.state found.now) actor op.now top.now }
{
    let _ = actor;
    let _ = op;
    match top {
        Phase::Guard {
            proc,
            span,
            body,
            ..
        } => inserts_anyway(found, *proc, *span, body, right),
        _ => right,
    }
}

/// A migration that places a fresh page for writes.
pub(crate) fn fresh_for_writes<W: Reads>(
    found: &W,
    actor: Actor,
    op: &Op,
    top: &Phase,
    right: Next,
) -> Next
    requires { right ≡ right_at (W.program found.now) (W.state found.now) actor op.now top.now }
    ensures { result
        ≡ flawed_at flaws.Flaw.FreshForWrites (W.program found.now) (W.state found.now) actor op.now top.now }
{
    let _ = found;
    let _ = actor;
    let _ = op;
    match top {
        Phase::Guard { body, .. } => inserts_for_writes(body, right),
        _ => right,
    }
}

/// Mappings that come back for writes.
pub(crate) fn back_for_writes<W: Reads>(
    found: &W,
    actor: Actor,
    op: &Op,
    top: &Phase,
    right: Next,
) -> Next
    requires { right ≡ right_at (W.program found.now) (W.state found.now) actor op.now top.now }
    ensures { result
        ≡ flawed_at flaws.Flaw.BackForWrites (W.program found.now) (W.state found.now) actor op.now top.now }
{
    let _ = found;
    let _ = actor;
    let _ = op;
    match top {
        Phase::Finish { .. } => placed_for_writes(right),
        Phase::Moves { .. } => placed_for_writes(right),
        _ => right,
    }
}
