// Migrations that freeze the mappings of a frame only after they have copied it.
ghost use Rattle.std.specs.Prelude.{◌≡◌, ℕ, Bool, Option, List, ◌∷◌, unwrap_or};
ghost use Rattle.hm_base.specs.Pages.{Pages};
ghost use Rattle.hm_history.specs.Kernel.Going.{is_direct, coming};
ghost use Rattle.hm_history.specs.declared.phases.Body as bodies;
ghost use Rattle.hm_history.specs.declared.phases.Phase as phase;
ghost use Rattle.hm_history.specs.declared.phases.Phase.{Phase as AnyPhase};
ghost use Rattle.hm_history.specs.declared.phases.Next.TheVariants.{Do};
ghost use Rattle.hm_flaws.specs.Overrides.{left_mapped, frozen_before, frozen_late};
ghost use Rattle.hm_flaws.specs.Flawed.{taken_for};
ghost use Rattle.hm_flaws.specs.declared.flaws.Flaw as flaws;
ghost use Rattle.hm_flaw_states.specs.Steps.Found.{right_at, flawed_at};

use crate::steps::locking::frozen;
use hm_base::{Actor, Frame, Op};
use hm_flaws::Flaw;
use hm_history::Kind;
use hm_history::phases::{Body, Migrating, MoveStep, Next, Phase};
use hm_reads::Reads;
use mig_freeze::others;

// What a guard places: each page as it is.
fn unchanged<W: Reads>(found: &W, kind: Kind) -> Kind
    ensures { (u : ℕ) → left_mapped (W.state found.now).after (bodies.Body.Select u) (Do kind) ≡ Do result }
{
    match kind {
        Kind::Place { proc, page, .. } => Kind::Place {
            proc,
            page,
            place: found.place(proc, page),
        },
        other => other,
    }
}

// A setup leaves its pages as they are; another guard does what is due.
fn left_mapped<W: Reads>(found: &W, body: &Body, right: Next) -> Next
    ensures { result ≡ left_mapped (W.state found.now).after body.now right }
{
    match body {
        Body::Select { .. } => match right {
            Next::Do(kind) => Next::Do(unchanged(found, kind)),
            Next::Wait(why) => Next::Wait(why),
        },
        _ => right,
    }
}

// Whether the frame has a mapping that is not frozen.
fn is_direct<W: Reads>(found: &W, frame: &Option<Frame>) -> bool
    ensures { result ≡ is_direct (W.state found.now).after frame.now }
{
    match frame {
        Some(frame) => found.lowest_direct(frame).is_some(),
        None => false,
    }
}

// A page that is to be committed: the mappings of its frame are frozen before that.
fn frozen_before<W: Reads>(found: &W, step: MoveStep, page: &Migrating, right: Next) -> Next
    ensures { result ≡ frozen_before (W.state found.now).after step page.now right }
{
    match step {
        MoveStep::Commit => {
            if is_direct(found, &page.source) {
                Next::Do(others(found, &page.source))
            } else {
                right
            }
        }
        _ => right,
    }
}

// The same, wherever the migration has come to.
fn frozen_at<W: Reads>(
    found: &W,
    actor: Actor,
    op: &Op,
    step: MoveStep,
    next: u64,
    right: Next,
) -> Next
    ensures { result
        ≡ frozen_late (W.state found.now).after (coming (W.state found.now).after op.now
        ((W.state found.now).going actor).pages (phase.Phase.Moves step next)) right }
{
    match found.coming(actor, op, step, next) {
        Some((at, page)) => frozen_before(found, at, &page, right),
        None => right,
    }
}

/// A migration that freezes the mappings of a frame only after it has copied it.
pub(crate) fn frozen_late<W: Reads>(
    found: &W,
    actor: Actor,
    op: &Op,
    top: &Phase,
    right: Next,
) -> Next
    requires { right ≡ right_at (W.program found.now) (W.state found.now) actor op.now top.now }
    ensures { result
        ≡ flawed_at flaws.Flaw.FrozenLate (W.program found.now) (W.state found.now) actor op.now top.now }
{
    match top {
        Phase::Guard { body, .. } => left_mapped(found, body, right),
        Phase::Moves { step, next } => frozen_at(found, actor, op, *step, *next, right),
        _ => right,
    }
}

// What an entry of a setup that freezes late counts as: a page that it places counts as frozen.
fn counts_as(kind: &Kind) -> Option<Kind>
    ensures { (p : ℕ) (r : Pages) (met : Bool) (told : Option ℕ) (u : ℕ) (below : List AnyPhase)
        → taken_for flaws.Flaw.FrozenLate (phase.Phase.Guard p r met told (bodies.Body.Select u) ∷ below) kind.now
        ≡ unwrap_or result kind.now }
{
    match kind {
        Kind::Place { proc, page, place } => Some(Kind::Place {
            proc: *proc,
            page: *page,
            place: frozen(*place),
        }),
        _ => None,
    }
}

// What an entry at this phase counts as.
fn counts_at(top: &Phase, kind: &Kind) -> Option<Kind>
    ensures { (below : List AnyPhase)
        → taken_for flaws.Flaw.FrozenLate (top.now ∷ below) kind.now ≡ unwrap_or result kind.now }
{
    match top {
        Phase::Guard {
            body: Body::Select { .. },
            ..
        } => counts_as(kind),
        _ => None,
    }
}

// What an entry of the actor counts as, if migrations freeze late.
fn counts_late<W: Reads>(world: &W, actor: Actor, kind: &Kind) -> Option<Kind>
    ensures { unwrap_or result kind.now
        ≡ taken_for flaws.Flaw.FrozenLate ((W.state world.now).going actor).stack kind.now }
{
    match world.phase(actor) {
        Some(top) => counts_at(top, kind),
        None => None,
    }
}

/// What the actor goes on from after its entry; none if that is the entry as it is.
pub fn taken_for<W: Reads>(world: &W, flaw: Flaw, actor: Actor, kind: &Kind) -> Option<Kind>
    ensures { unwrap_or result kind.now ≡ taken_for flaw ((W.state world.now).going actor).stack kind.now }
{
    match flaw {
        Flaw::FrozenLate => counts_late(world, actor, kind),
        _ => None,
    }
}
