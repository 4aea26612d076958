// Migrations and evictions that take what another actor has locked.
ghost use Rattle.std.specs.Prelude.{◌≡◌};
ghost use Rattle.hm_history.specs.declared.phases.Next.TheVariants.{Do};
ghost use Rattle.hm_history.specs.declared.KeptAt as kept_at;
ghost use Rattle.hm_history.specs.declared.KeptWhy as kept_why;
ghost use Rattle.hm_history.specs.declared.Kind as kinds;
ghost use Rattle.hm_flaws.specs.Overrides.{frozen, selected_anyway, caught_anyway, taken_in, begun_locked};
ghost use Rattle.hm_flaws.specs.declared.flaws.Flaw as flaws;
ghost use Rattle.hm_flaw_states.specs.Steps.Found.{right_at, flawed_at};

use hm_base::frames::{is_frame, names};
use hm_base::{Actor, Frame, Op, Page, Place, Proc, Span};
use hm_history::phases::{Body, Next, Phase};
use hm_history::{KeptAt, KeptWhy, Kind};
use hm_reads::Reads;
use hm_reads::decisions::start_page;

/// A place as it is frozen; one that names no frame stays.
pub(crate) fn frozen(place: Place) -> Place
    ensures { result ≡ frozen place }
{
    match names(&place) {
        None => place,
        Some(frame) => Place::Moving {
            frame,
            writable: place.writable(),
        },
    }
}

// The page is frozen.
fn freeze<W: Reads>(found: &W, proc: Proc, page: Page) -> Kind
    ensures { result
        ≡ kinds.Kind.Place proc page (frozen ((W.state found.now).after.places.place proc page)) }
{
    Kind::Place {
        proc,
        page,
        place: frozen(found.place(proc, page)),
    }
}

// A page that was not found where the migration begins: if it is a migration entry, it is frozen once more.
fn not_found<W: Reads>(found: &W, proc: Proc, page: Page) -> Kind
    ensures { selected_anyway (W.state found.now).after proc
        (Do (kinds.Kind.Kept (kept_at.KeptAt.Page page) kept_why.KeptWhy.NotHere))
        ≡ Do result }
{
    let place = found.place(proc, page);
    match place {
        Place::Moving { .. } => Kind::Place { proc, page, place },
        _ => Kind::Kept {
            at: KeptAt::Page(page),
            why: KeptWhy::NotHere,
        },
    }
}

// A page that a setup would keep for this reason.
fn selected_page<W: Reads>(found: &W, proc: Proc, page: Page, why: KeptWhy) -> Kind
    ensures { selected_anyway (W.state found.now).after proc (Do (kinds.Kind.Kept (kept_at.KeptAt.Page page) why))
        ≡ Do result }
{
    match why {
        KeptWhy::LockedBy(_) => freeze(found, proc, page),
        KeptWhy::NotHere => not_found(found, proc, page),
        _ => Kind::Kept {
            at: KeptAt::Page(page),
            why,
        },
    }
}

// What a setup has that keeps what it has come to.
fn selected_at<W: Reads>(found: &W, proc: Proc, at: KeptAt, why: KeptWhy) -> Kind
    ensures { selected_anyway (W.state found.now).after proc (Do (kinds.Kind.Kept at why)) ≡ Do result }
{
    match at {
        KeptAt::Page(page) => selected_page(found, proc, page, why),
        KeptAt::Frame(_) => Kind::Kept { at, why },
    }
}

// What a setup has for its page.
fn selected<W: Reads>(found: &W, proc: Proc, kind: Kind) -> Kind
    ensures { selected_anyway (W.state found.now).after proc (Do kind) ≡ Do result }
{
    match kind {
        Kind::Kept { at, why } => selected_at(found, proc, at, why),
        other => other,
    }
}

// A guard that would end without having frozen the page of its frame.
fn caught<W: Reads>(found: &W, proc: Proc, span: Span, frame: &Frame, kind: Kind) -> Kind
    ensures { caught_anyway (W.state found.now).after proc span frame.now (Do kind) ≡ Do result }
{
    match kind {
        Kind::End {
            proc: of,
            span: over,
            seq,
        } => {
            if is_frame(names(&found.place(proc, span.first())), frame) {
                freeze(found, proc, span.first())
            } else {
                Kind::End {
                    proc: of,
                    span: over,
                    seq,
                }
            }
        }
        other => other,
    }
}

// An eviction that would keep its frame, since another actor has it locked.
fn begun<W: Reads>(found: &W, frame: Frame, by: Actor) -> Kind
    ensures { begun_locked (W.state found.now).after
        (Do (kinds.Kind.Kept (kept_at.KeptAt.Frame frame) (kept_why.KeptWhy.LockedBy by)))
        ≡ Do result }
{
    let _ = by;
    match found.lowest_named(&frame) {
        Some((proc, page)) => start_page(found, proc, page),
        None => Kind::Drop(frame),
    }
}

// An eviction that would keep its frame for this reason.
fn begun_frame<W: Reads>(found: &W, frame: Frame, why: KeptWhy) -> Kind
    ensures { begun_locked (W.state found.now).after (Do (kinds.Kind.Kept (kept_at.KeptAt.Frame frame) why))
        ≡ Do result }
{
    match why {
        KeptWhy::LockedBy(by) => begun(found, frame, by),
        _ => Kind::Kept {
            at: KeptAt::Frame(frame),
            why,
        },
    }
}

// What an eviction has that keeps what it has come to.
fn begun_at<W: Reads>(found: &W, at: KeptAt, why: KeptWhy) -> Kind
    ensures { begun_locked (W.state found.now).after (Do (kinds.Kind.Kept at why)) ≡ Do result }
{
    match at {
        KeptAt::Frame(frame) => begun_frame(found, frame, why),
        KeptAt::Page(_) => Kind::Kept { at, why },
    }
}

// What an eviction has for its frame.
fn begun_locked<W: Reads>(found: &W, kind: Kind) -> Kind
    ensures { begun_locked (W.state found.now).after (Do kind) ≡ Do result }
{
    match kind {
        Kind::Kept { at, why } => begun_at(found, at, why),
        other => other,
    }
}

// What a guard does that selects or catches pages, whoever has them locked.
fn taken_in<W: Reads>(found: &W, proc: Proc, span: Span, body: &Body, kind: Kind) -> Kind
    ensures { taken_in (W.state found.now).after proc span body.now (Do kind) ≡ Do result }
{
    match body {
        Body::Select { .. } => selected(found, proc, kind),
        Body::Catch { frame } => caught(found, proc, span, frame, kind),
        _ => kind,
    }
}

fn in_guard<W: Reads>(found: &W, proc: Proc, span: Span, body: &Body, right: Next) -> Next
    ensures { result ≡ taken_in (W.state found.now).after proc span body.now right }
{
    match right {
        Next::Do(kind) => Next::Do(taken_in(found, proc, span, body, kind)),
        Next::Wait(why) => Next::Wait(why),
    }
}

fn at_frame<W: Reads>(found: &W, right: Next) -> Next
    ensures { result ≡ begun_locked (W.state found.now).after right }
{
    match right {
        Next::Do(kind) => Next::Do(begun_locked(found, kind)),
        Next::Wait(why) => Next::Wait(why),
    }
}

/// Migrations that take a page, and evictions that take a frame, which another actor has locked.
pub(crate) fn locked_taken<W: Reads>(
    found: &W,
    actor: Actor,
    op: &Op,
    top: &Phase,
    right: Next,
) -> Next
    requires { right ≡ right_at (W.program found.now) (W.state found.now) actor op.now top.now }
    ensures { result
        ≡ flawed_at flaws.Flaw.LockedTaken (W.program found.now) (W.state found.now) actor op.now top.now }
{
    let _ = actor;
    let _ = op;
    match top {
        Phase::Guard {
            proc,
            span,
            body,
            ..
        } => in_guard(found, *proc, *span, body, right),
        Phase::Frames { .. } => at_frame(found, right),
        _ => right,
    }
}
