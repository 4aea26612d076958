// Bodies of guards: a migration selects no page without an area, and a locked frame is left where it is.
ghost use Rattle.std.specs.Prelude.{◌≡◌, ℕ};
ghost use Rattle.hm_history.specs.Kernel.Due as spec;
ghost use Rattle.hm_history.specs.declared.phases.Body as bodies;
ghost use Rattle.hm_history.specs.declared.phases.Next as next;
ghost use Rattle.hm_linux.specs.ExclusiveBusy.{is_of_exclusive, spares_locked};
ghost use Rattle.hm_linux.specs.UnmapLetsIn.{selects_mapped};
ghost use Rattle.hm_linux_steps.specs.Notes.{noted_in};

use crate::locking::place_locker;
use crate::notes::Notes;
use hm_base::{Actor, Page, Proc, Span};
use hm_history::phases::{Body, Next};
use hm_history::{KeptAt, KeptWhy, Kind};
use hm_reads::Reads;
use hm_reads::guards::body_or_end;

fn not_here(page: Page) -> Kind
    ensures { result ≡ spec.not_here page }
{
    Kind::Kept {
        at: KeptAt::Page(page),
        why: KeptWhy::NotHere,
    }
}

// A page without an area is not here.
fn selected<W: Reads>(found: &W, kind: Kind) -> Next
    ensures { (n : ℕ) → result
        ≡ selects_mapped (W.state found.now).after (bodies.Body.Select n) (next.Next.Do kind) }
{
    match kind {
        Kind::Place { proc, page, place } => {
            if found.rights(proc, page).is_none() {
                Next::Do(not_here(page))
            } else {
                Next::Do(Kind::Place { proc, page, place })
            }
        }
        other => Next::Do(other),
    }
}

/// A migration selects no page without an area.
pub(crate) fn selects_mapped<W: Reads>(found: &W, body: &Body, next: Next) -> Next
    ensures { result ≡ selects_mapped (W.state found.now).after body.now next }
{
    match body {
        Body::Select { .. } => match next {
            Next::Do(kind) => selected(found, kind),
            Next::Wait(why) => Next::Wait(why),
        },
        _ => next,
    }
}

// Whether the guard makes a page exclusive, or an ordinary page of it.
fn is_of_exclusive(body: &Body) -> bool
    ensures { result ≡ is_of_exclusive body.now }
{
    match body {
        Body::Restore => true,
        Body::Seize { .. } => true,
        _ => false,
    }
}

// Such a guard ends where another actor has the frame locked.
fn spared<W: Reads>(
    found: &W,
    notes: &Notes,
    actor: Actor,
    proc: Proc,
    span: Span,
    body: &Body,
    kind: Kind,
) -> Next
    ensures { result ≡ spares_locked (noted_in notes.now) (W.state found.now).after actor proc span body.now
        (next.Next.Do kind) }
{
    match kind {
        Kind::Place {
            proc: of,
            page,
            place,
        } => {
            let old = found.place(proc, span.first());
            if is_of_exclusive(body) && place_locker(found, notes, actor, &old).is_some() {
                Next::Do(body_or_end(found, proc, span, None))
            } else {
                Next::Do(Kind::Place {
                    proc: of,
                    page,
                    place,
                })
            }
        }
        other => Next::Do(other),
    }
}

/// A guard leaves an exclusive page as it is whose frame another actor has locked.
pub(crate) fn spares_locked<W: Reads>(
    found: &W,
    notes: &Notes,
    actor: Actor,
    proc: Proc,
    span: Span,
    body: &Body,
    next: Next,
) -> Next
    ensures { result
        ≡ spares_locked (noted_in notes.now) (W.state found.now).after actor proc span body.now next }
{
    match next {
        Next::Do(kind) => spared(found, notes, actor, proc, span, body, kind),
        Next::Wait(why) => Next::Wait(why),
    }
}
