// What an actor sees at its entry, just before it, in a state as it finds it.
ghost use Rattle.std.specs.Prelude.{◌≡◌, Some};
ghost use Rattle.hm_history.specs.Memory.Locks as locks;
ghost use Rattle.hm_history.specs.Kernel.Going.{seen_overlap, seen_place, coming, coming_page, op_at, touch_page};
ghost use Rattle.hm_history.specs.Kernel.Going.{touch_proc};
ghost use Rattle.hm_actors.specs.Actors.{IsSeen};
ghost use Rattle.hm_base.specs.declared.ops.Op.{Op as AnyOp};
ghost use Rattle.hm_history.specs.declared.phases.Phase.{Phase as AnyPhase};
ghost use Rattle.hm_race_states.specs.Afters.{AtPhase};

use hm_base::{Actor, Frame, Place};
use hm_history::Kind;
use hm_history::phases::{Migrating, MoveStep, Phase, Seen, Touch};
use hm_reads::Reads;
use hm_reads::operations::{touch_page, touch_proc};

// Whether the invalidation that starts meets an interval.
fn overlaps<W: Reads>(world: &W, kind: &Kind) -> bool
    ensures { result ≡ seen_overlap (W.state world.now).after kind.now }
{
    match kind {
        Kind::Start { proc, span, seq: _ } => world.next_told(*proc, *span, None).is_some(),
        _ => false,
    }
}

// The place of the page that a fault is about.
fn decided_place<W: Reads>(world: &W, actor: Actor, touch: &Touch) -> Place
    ensures { (o : AnyOp)
        → op_at (W.program world.now) actor ((W.state world.now).going actor).index ≡ Some o
        → result
        ≡ (W.state world.now).after.places.place (touch_proc (W.state world.now).after o) (touch_page o touch.now) }
{
    world.script().facts();
    match world.op(actor) {
        Some(op) => world.place(touch_proc(world, op), touch_page(op, *touch)),
        None => Place::Empty,
    }
}

// The place of the page that the actor's step is about.
fn place_seen<W: Reads>(world: &W, actor: Actor, kind: &Kind) -> Place
    ensures { AtPhase (W.program world.now) actor ((W.state world.now).going actor)
        (λ o top. result ≡ seen_place (W.state world.now).after o top kind.now) }
{
    match kind {
        Kind::Start { proc, span, seq: _ } => world.place(*proc, span.first()),
        Kind::Place {
            proc,
            page,
            place: _,
        } => world.place(*proc, *page),
        _ => match world.phase(actor) {
            Some(Phase::Decide { touch }) => decided_place(world, actor, touch),
            _ => Place::Empty,
        },
    }
}

// The record of the page to which a migration has come.
fn page_at_step<W: Reads>(world: &W, actor: Actor, step: MoveStep, next: u64) -> Option<Migrating>
    ensures { (o : AnyOp)
        → op_at (W.program world.now) actor ((W.state world.now).going actor).index ≡ Some o
        → result
        ≡ coming_page
        (coming (W.state world.now).after o ((W.state world.now).going actor).pages (AnyPhase.Moves step next)) }
{
    match world.op(actor) {
        Some(op) => match world.coming(actor, op, step, next) {
            Some((_, page)) => Some(page),
            None => None,
        },
        None => None,
    }
}

// The record of the page that the actor's migration has come to.
fn page_seen<W: Reads>(world: &W, actor: Actor) -> Option<Migrating>
    ensures { AtPhase (W.program world.now) actor ((W.state world.now).going actor)
        (λ o top. result
        ≡ coming_page (coming (W.state world.now).after o ((W.state world.now).going actor).pages top)) }
{
    match world.phase(actor) {
        Some(Phase::Moves { step, next }) => page_at_step(world, actor, *step, *next),
        _ => None,
    }
}

/// What the actor sees at its entry; `orphan` is the frame that the entry leaves without a name and unlocked.
pub(crate) fn seen<W: Reads>(world: &W, actor: Actor, kind: &Kind, orphan: Option<Frame>) -> Seen
    requires { orphan ≡ locks.orphan (W.state world.now).after.locks (W.state world.now).after.places kind.now }
    ensures seen { IsSeen (W.program world.now) (W.state world.now).after actor ((W.state world.now).going actor)
        kind.now result }
    ensures at { result.at ≡ (W.state world.now).after.length }
{
    Seen {
        at: world.length(),
        overlapped: overlaps(world, kind),
        place: place_seen(world, actor, kind),
        orphan,
        page: page_seen(world, actor),
    }
}
