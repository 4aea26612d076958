// The first steps of an operation, and the operations on areas and snapshots.
ghost use Rattle.std.specs.Prelude.{◌≡◌, false, [], ◌∷◌};
ghost use Rattle.hm_history.specs.Kernel.Stacks as spec;

use crate::Stack;
use crate::guards::opened_over;
use hm_base::{Op, Rights, Span};
use hm_history::Kind;
use hm_history::phases::{Body, MoveStep, Phase, Seen, Touch};

pub(crate) fn first_phase(op: &Op) -> Phase
    ensures { result ≡ spec.first_phase op.now }
{
    match op {
        Op::Load { .. } | Op::Store { .. } | Op::DeviceLoad { .. } | Op::DeviceStore { .. } =>
            Phase::Piece { piece: 0 },
        Op::Add { .. } => Phase::Piece { piece: 0 },
        Op::Evict { .. } | Op::Remove { .. } => Phase::Frames {
            next: 0,
            emptied: 0,
        },
        _ => Phase::Begin,
    }
}

fn read_locked(op: &Op) -> Phase
    ensures { result ≡ spec.read_locked op.now }
{
    match op {
        Op::Snap { mirror: _, span } => Phase::Pages {
            next: span.first().number(),
        },
        Op::Exclusive { .. } => Phase::Decide { touch: Touch::Sole },
        _ => Phase::Ready,
    }
}

pub(crate) fn after_begin(stack: &mut Stack, op: &Op, kind: &Kind)
    ensures { stack.new ≡ spec.after_begin op.now kind.now }
{
    match kind {
        Kind::Wlock(_) => stack.only(Phase::Locked),
        Kind::Rlock(_) => stack.only(read_locked(op)),
        Kind::Detaching { mirror: _, seq } => stack.only(Phase::Detaching { seq: *seq }),
        _ => stack.clear(),
    }
}

fn body_of(op: &Op, span: Span) -> Body
    ensures { result ≡ spec.body_of op.now span }
{
    match op {
        Op::Protect {
            proc: _,
            span: _,
            rights: Rights::Read,
        } => Body::Narrow {
            next: span.first().number(),
        },
        Op::Protect {
            proc: _,
            span: _,
            rights: Rights::ReadWrite,
        } => Body::Nothing,
        _ => Body::Zap {
            next: span.first().number(),
        },
    }
}

#[inline(never)]
pub(crate) fn after_locked(stack: &mut Stack, op: &Op, kind: &Kind, seen: &Seen)
    ensures { stack.new ≡ spec.after_locked op.now kind.now seen.now }
{
    match kind {
        Kind::Named {
            parent: _,
            child: _,
        } => stack.only(Phase::Ready),
        Kind::Start {
            proc: _,
            span,
            seq: _,
        } => {
            opened_over(stack, Phase::Answer, kind, seen, body_of(op, *span));
        }
        _ => stack.clear(),
    }
}

fn selects(stack: &mut Stack, span: &Span, kind: &Kind, seen: &Seen)
    ensures { stack.new
        ≡ spec.with_guard kind.now seen.now (Body.Select span.now.first)
        (Phase.Moves MoveStep.FreezeOthers span.now.first ∷ []) }
{
    let next = span.first().number();
    let below = Phase::Moves {
        step: MoveStep::FreezeOthers,
        next,
    };
    opened_over(stack, below, kind, seen, Body::Select { next });
}

fn forks(stack: &mut Stack, kind: &Kind, seen: &Seen)
    ensures { stack.new ≡ spec.with_guard kind.now seen.now (Body.Fork 0 false) (Phase.Answer ∷ []) }
{
    let body = Body::Fork {
        next: 0,
        half: false,
    };
    opened_over(stack, Phase::Answer, kind, seen, body);
}

#[inline(never)]
pub(crate) fn after_ready(stack: &mut Stack, op: &Op, kind: &Kind, seen: &Seen)
    ensures { stack.new ≡ spec.after_ready op.now kind.now seen.now }
{
    match op {
        Op::Fork { .. } => forks(stack, kind, seen),
        Op::ToDevice { mirror: _, span } => selects(stack, span, kind, seen),
        Op::ToSystem { mirror: _, span } => selects(stack, span, kind, seen),
        _ => stack.clear(),
    }
}

pub(crate) fn after_answer(stack: &mut Stack, kind: &Kind)
    ensures { stack.new ≡ spec.after_answer kind.now }
{
    match kind {
        Kind::Runlock(_) => stack.only(Phase::Piece { piece: 0 }),
        _ => stack.clear(),
    }
}

pub(crate) fn after_pages(stack: &mut Stack, kind: &Kind)
    ensures { stack.new ≡ spec.after_pages kind.now }
{
    match kind {
        Kind::Seen {
            mirror: _,
            page,
            code: _,
        } => stack.only(Phase::Pages {
            next: page.number() + 1,
        }),
        _ => stack.clear(),
    }
}
