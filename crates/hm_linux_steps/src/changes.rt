// How the references of an actor change by its entry.
ghost use Rattle.std.specs.Prelude.{◌≡◌, ℕ, Bool, Option, List, ◌++◌, IfOk, IsTrue};
ghost use Rattle.hm_base.specs.Pages.{Pages};
ghost use Rattle.hm_base.specs.Program.{op_in_range};
ghost use Rattle.hm_base.specs.declared.Frame.{Frame as AnyFrame};
ghost use Rattle.hm_base.specs.declared.ops.Op.{Op as AnyOp};
ghost use Rattle.hm_history.specs.declared.phases.Body as bodies;
ghost use Rattle.hm_history.specs.declared.phases.Phase as phases;
ghost use Rattle.hm_linux.specs.HeldPage.{frames_of, without_frame, with_taken_away, references_held};
ghost use Rattle.hm_linux.specs.ExclusivePins.{references_pinned};
ghost use Rattle.hm_linux_steps.specs.Changes.{changed};

use hm_base::frames::{is_frame, names};
use hm_base::{Frame, NoMemory, Op, Place};
use hm_history::Kind;
use hm_history::phases::{Body, Phase, Touch};
use hm_reads::Reads;
use hm_reads::operations::{touch_page, touch_proc};
use std::alloc::Global;

/// How a list of frames changes.
#[derive(Clone, Copy)]
pub(crate) enum Change {
    /// Not at all.
    Keep,
    /// None is left.
    Clear,
    /// This one is left alone, if it is one.
    Only(Option<Frame>),
    /// This one comes first, if it is one.
    With(Option<Frame>),
    /// This one is dropped; the others are turned round.
    Without(Frame),
}

// A frame, if it is one, before the others.
fn with_first(
    alloc: Global,
    first: &Option<Frame>,
    frames: &[Frame],
) -> Result<Vec<Frame>, NoMemory>
    ensures { IfOk result (λ x. x.items ≡ frames_of first.now ++ frames.now) }
{
    let mut all = Vec::new(alloc);
    if let Some(frame) = first {
        all.push(*frame)?;
    }
    all.extend_from_slice(frames)?;
    Ok(all)
}

// The frames without one, turned round.
fn without_frame(alloc: Global, frames: &[Frame], dropped: &Frame) -> Result<Vec<Frame>, NoMemory>
    ensures { IfOk result (λ x. x.items ≡ without_frame frames.now dropped.now) }
{
    let mut left = Vec::new(alloc);
    for frame in frames {
        if !is_frame(Some(*dropped), frame) {
            left.insert(0, *frame)?;
        }
    }
    Ok(left)
}

impl Change {
    /// The frames after the change.
    pub(crate) fn of(self, alloc: Global, frames: &[Frame]) -> Result<Vec<Frame>, NoMemory>
        ensures { IfOk result (λ x. x.items ≡ changed self frames.now) }
    {
        match &self {
            Change::Keep => with_first(alloc, &None, frames),
            Change::Clear => Ok(Vec::new(alloc)),
            Change::Only(first) => with_first(alloc, first, &[]),
            Change::With(first) => with_first(alloc, first, frames),
            Change::Without(frame) => without_frame(alloc, frames, frame),
        }
    }
}

// With the system frame of the place that was taken away.
fn taken_away(place: &Place) -> Change
    ensures { (fs : List AnyFrame) → changed result fs ≡ with_taken_away place.now fs }
{
    match place {
        Place::Sys { .. } => Change::With(names(place)),
        _ => Change::Keep,
    }
}

// The change by an entry of a fault that decides.
fn decided<W: Reads>(world: &W, op: &Op, touch: &Touch, kind: &Kind) -> Change
    requires { IsTrue (op_in_range op.now) }
    ensures { (fs : List AnyFrame) → changed result fs
        ≡ references_held (W.state world.now).after op.now fs (phases.Phase.Decide touch.now) kind.now }
{
    match kind {
        Kind::Take(_) => {
            let place = world.place(touch_proc(world, op), touch_page(op, *touch));
            Change::Only(names(&place))
        }
        Kind::End { .. } => Change::Clear,
        _ => Change::Keep,
    }
}

// The change by an entry of an unmap or exit that empties pages.
fn zapped<W: Reads>(world: &W, kind: &Kind) -> Change
    ensures { (o : AnyOp) (p : ℕ) (r : Pages) (met : Bool) (told : Option ℕ) (v : ℕ) (fs : List AnyFrame)
        → changed result fs ≡ references_held (W.state world.now).after o fs
        (phases.Phase.Guard p r met told (bodies.Body.Zap v)) kind.now }
{
    match kind {
        Kind::Place {
            proc,
            page,
            place: Place::Empty,
        } => taken_away(&world.place(*proc, *page)),
        Kind::End { .. } => Change::Clear,
        _ => Change::Keep,
    }
}

// The change by an entry in a guard.
fn guarded<W: Reads>(world: &W, body: &Body, kind: &Kind) -> Change
    ensures { (o : AnyOp) (p : ℕ) (r : Pages) (met : Bool) (told : Option ℕ) (fs : List AnyFrame)
        → changed result fs ≡ references_held (W.state world.now).after o fs
        (phases.Phase.Guard p r met told body.now) kind.now }
{
    match body {
        Body::Zap { .. } => zapped(world, kind),
        _ => match kind {
            Kind::End { .. } => Change::Clear,
            _ => Change::Keep,
        },
    }
}

/// The change of the references that a fault, an unmap or an exit has.
pub(crate) fn held_change<W: Reads>(world: &W, op: &Op, top: &Phase, kind: &Kind) -> Change
    requires { IsTrue (op_in_range op.now) }
    ensures { (fs : List AnyFrame) → changed result fs
        ≡ references_held (W.state world.now).after op.now fs top.now kind.now }
{
    match top {
        Phase::Decide { touch } => decided(world, op, touch, kind),
        Phase::Taken { .. } => match kind {
            Kind::Drop(_) => Change::Clear,
            Kind::End { .. } => Change::Clear,
            _ => Change::Keep,
        },
        Phase::Guard { body, .. } => guarded(world, body, kind),
        Phase::Drop { .. } => match kind {
            Kind::Drop(frame) => Change::Without(*frame),
            Kind::End { .. } => Change::Clear,
            _ => Change::Keep,
        },
        _ => match kind {
            Kind::End { .. } => Change::Clear,
            _ => Change::Keep,
        },
    }
}

/// The change of the references that a call for an exclusive page has.
pub(crate) fn pinned_change<W: Reads>(world: &W, top: &Phase, kind: &Kind) -> Change
    ensures { (fs : List AnyFrame) → changed result fs
        ≡ references_pinned (W.state world.now).after fs top.now kind.now }
{
    match kind {
        Kind::Start { proc, span, .. } => match top {
            Phase::Decide { touch: Touch::Sole } => taken_away(&world.place(*proc, span.first())),
            _ => Change::Keep,
        },
        Kind::End { .. } => Change::Clear,
        _ => Change::Keep,
    }
}
