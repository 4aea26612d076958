// A guard: the mirrors told, its body, its end.
ghost use Rattle.std.specs.Prelude.{◌≡◌, [], ◌∷◌, ◌+◌, ◌≤◌, ◌<◌, ◌^◌, length};
ghost use Rattle.hm_history.specs.Kernel.Operation.{is_evicting};
ghost use Rattle.hm_history.specs.Kernel.Stacks as spec;
ghost use Rattle.hm_history.specs.declared.KeptAt.{KeptAt};

use crate::Stack;
use hm_base::{Frame, MirrorId, Op, Place, Proc, Span};
use hm_history::phases::{Body, Phase, Seen};
use hm_history::{KeptAt, Kind};

pub(crate) fn opened(below: &mut Stack, kind: &Kind, seen: &Seen, body: Body)
    requires { length (spec.with_guard kind.now seen.now body below.old) ≤ 3 }
    ensures { below.new ≡ spec.with_guard kind.now seen.now body below.old }
{
    match kind {
        Kind::Start { proc, span, seq: _ } => below.put(Phase::Guard {
            proc: *proc,
            span: *span,
            overlapped: seen.overlapped,
            told: None,
            body,
        }),
        _ => (),
    }
}

/// The guard that a `start` opens, over this phase alone.
#[inline(always)]
pub(crate) fn opened_over(stack: &mut Stack, below: Phase, kind: &Kind, seen: &Seen, body: Body)
    ensures { stack.new ≡ spec.with_guard kind.now seen.now body (below ∷ []) }
{
    match kind {
        Kind::Start { proc, span, seq: _ } => stack.two(
            Phase::Guard {
                proc: *proc,
                span: *span,
                overlapped: seen.overlapped,
                told: None,
                body,
            },
            below,
        ),
        _ => stack.only(below),
    }
}

fn page_of_entry(kind: &Kind) -> u64
    ensures same { result ≡ spec.page_of_entry kind.now }
    ensures below { result < 2 ^ 36 }
{
    match kind {
        Kind::Place {
            proc: _,
            page,
            place: _,
        } => page.number(),
        Kind::Fresh { proc: _, page } => page.number(),
        Kind::Kept {
            at: KeptAt::Page(page),
            why: _,
        } => page.number(),
        _ => 0,
    }
}

fn is_place_of(kind: &Kind, proc: Proc) -> bool
    ensures { result ≡ spec.is_place_of kind.now proc }
{
    match kind {
        Kind::Place {
            proc: of,
            page: _,
            place: _,
        } => *of == proc,
        _ => false,
    }
}

fn fork_goes_on(next: &mut u64, half: &mut bool, proc: Proc, kind: &Kind)
    ensures { Body.Fork next.new half.new ≡ spec.body_next (Body.Fork next.old half.old) proc kind.now }
{
    if is_place_of(kind, proc) {
        *next = page_of_entry(kind);
        *half = true;
    } else {
        *next = page_of_entry(kind) + 1;
        *half = false;
    }
}

/// Changes a body by one of its entries.
pub(crate) fn body_goes_on(body: &mut Body, proc: Proc, kind: &Kind)
    ensures { body.new ≡ spec.body_next body.old proc kind.now }
{
    match body {
        Body::Zap { next } => *next = page_of_entry(kind) + 1,
        Body::Narrow { next } => *next = page_of_entry(kind) + 1,
        Body::Select { next } => *next = page_of_entry(kind) + 1,
        Body::Fork { next, half } => fork_goes_on(next, half, proc, kind),
        _ => *body = Body::Nothing,
    }
}

fn ended(below: &mut Stack, body: Body, span: Span)
    requires { length (spec.after_body body span below.old) ≤ 3 }
    ensures { below.new ≡ spec.after_body body span below.old }
{
    match body {
        Body::Replace { over: _, by } => below.put(Phase::Drop { frame: by }),
        Body::Fresh { by } => below.put(Phase::Lost {
            page: span.first(),
            by,
        }),
        _ => (),
    }
}

pub(crate) fn dropping(below: &mut Stack, orphan: Option<Frame>)
    requires { length (spec.dropping orphan below.old) ≤ 3 }
    ensures { below.new ≡ spec.dropping orphan below.old }
{
    match orphan {
        None => (),
        Some(frame) => below.put(Phase::Drop { frame }),
    }
}

fn frames_past(below: &mut Stack, frame: &Frame)
    ensures { below.new ≡ spec.frames_past frame.now below.old }
{
    if let Some(Phase::Frames { next: _, emptied }) = below.top() {
        let emptied = *emptied;
        below.renew(past_frame(frame, emptied));
    }
}

pub(crate) fn past_frame(frame: &Frame, emptied: u64) -> Phase
    ensures { result ≡ Phase.Frames (frame.now.number + 1) emptied }
{
    Phase::Frames {
        next: u64::from(frame.number) + 1,
        emptied,
    }
}

fn alone_for_frame(frame: &Frame) -> Phase
    ensures { result ≡ Phase.Emptying frame.now (KeptAt.Frame frame.now) }
{
    Phase::Emptying {
        frame: *frame,
        at: KeptAt::Frame(*frame),
    }
}

fn evicts(op: &Op) -> bool
    ensures { result ≡ is_evicting op.now }
{
    match op {
        Op::Evict { .. } | Op::Remove { .. } => true,
        _ => false,
    }
}

fn caught_next(below: &mut Stack, op: &Op, frame: &Frame, span: Span)
    requires { length (spec.caught_next op.now frame.now span below.old) ≤ 3 }
    ensures { below.new ≡ spec.caught_next op.now frame.now span below.old }
{
    if evicts(op) {
        frames_past(below, frame);
        below.put(alone_for_frame(frame));
    } else {
        below.put(Phase::Emptying {
            frame: *frame,
            at: KeptAt::Page(span.first()),
        });
    }
}

fn below_next(below: &mut Stack, op: &Op, body: Body, span: Span)
    requires { length (spec.below_next op.now body span below.old) ≤ 3 }
    ensures { below.new ≡ spec.below_next op.now body span below.old }
{
    match body {
        Body::Catch { frame } => caught_next(below, op, &frame, span),
        _ => (),
    }
}

// A guard, as its phase has it.
#[derive(Clone, Copy)]
struct Guarding {
    proc: Proc,
    span: Span,
    overlapped: bool,
    told: Option<MirrorId>,
    body: Body,
}

pub(crate) fn told_mirror(kind: &Kind) -> Option<MirrorId>
    ensures { result ≡ spec.told_mirror kind.now }
{
    match kind {
        Kind::Told {
            mirror,
            span: _,
            seq: _,
        } => Some(*mirror),
        _ => None,
    }
}

pub(crate) fn is_end(kind: &Kind) -> bool
    ensures { result ≡ spec.is_end kind.now }
{
    match kind {
        Kind::End { .. } => true,
        _ => false,
    }
}

fn guard_phase(guard: &Guarding, told: Option<MirrorId>, body: Body) -> Phase
    ensures { result ≡ Phase.Guard guard.now.proc guard.now.span guard.now.overlapped told body }
{
    Phase::Guard {
        proc: guard.proc,
        span: guard.span,
        overlapped: guard.overlapped,
        told,
        body,
    }
}

fn guard_goes_on(below: &mut Stack, op: &Op, guard: &Guarding, kind: &Kind, seen: &Seen)
    requires { length
        (spec.guard_goes_on op.now guard.now.proc guard.now.span guard.now.overlapped guard.now.told guard.now.body
        below.old kind.now seen.now)
        ≤ 3 }
    ensures { below.new
        ≡ spec.guard_goes_on op.now guard.now.proc guard.now.span guard.now.overlapped guard.now.told guard.now.body
        below.old kind.now seen.now }
{
    let mut body = guard.body;
    body_goes_on(&mut body, guard.proc, kind);
    below_next(below, op, guard.body, guard.span);
    below.put(guard_phase(guard, guard.told, body));
    dropping(below, seen.orphan);
}

fn after_guard(below: &mut Stack, op: &Op, guard: &Guarding, kind: &Kind, seen: &Seen)
    requires { length
        (spec.after_guard op.now guard.now.proc guard.now.span guard.now.overlapped guard.now.told guard.now.body
        below.old kind.now seen.now)
        ≤ 3 }
    ensures { below.new
        ≡ spec.after_guard op.now guard.now.proc guard.now.span guard.now.overlapped guard.now.told guard.now.body
        below.old kind.now seen.now }
{
    match told_mirror(kind) {
        Some(mirror) => below.put(guard_phase(guard, Some(mirror), guard.body)),
        None => {
            if is_end(kind) {
                ended(below, guard.body, guard.span);
            } else {
                guard_goes_on(below, op, guard, kind, seen);
            }
        }
    }
}

/// What comes after an entry of the guard of these parts.
#[inline(never)]
pub(crate) fn after_guard_at(
    below: &mut Stack,
    op: &Op,
    proc: &Proc,
    span: &Span,
    overlapped: bool,
    told: &Option<MirrorId>,
    body: &Body,
    kind: &Kind,
    seen: &Seen,
)
    requires { length
        (spec.after_guard op.now proc.now span.now overlapped told.now body.now below.old kind.now seen.now)
        ≤ 3 }
    ensures { below.new
        ≡ spec.after_guard op.now proc.now span.now overlapped told.now body.now below.old kind.now seen.now }
{
    let guard = Guarding {
        proc: *proc,
        span: *span,
        overlapped,
        told: *told,
        body: *body,
    };
    after_guard(below, op, &guard, kind, seen);
}

/// The page got a frame meanwhile: the taken one is dropped.
#[inline(never)]
pub(crate) fn after_lost(below: &mut Stack, by: &Frame)
    requires { length below.old < 3 }
    ensures { below.new ≡ Phase.Drop by.now ∷ below.old }
{
    below.put(Phase::Drop { frame: *by });
}
