// A frame that is emptied: its other mappings, the copy, the finish; and the frames of an eviction.
ghost use Rattle.std.specs.Prelude.{◌≡◌, [], ◌≤◌, ◌<◌, ◌∷◌, length, IsTrue};
ghost use Rattle.hm_history.specs.Memory.Words.{names};
ghost use Rattle.hm_history.specs.Kernel.Operation.{is_remove};
ghost use Rattle.hm_history.specs.Kernel.Stacks as spec;
ghost use Rattle.hm_phases.specs.Items.{first_takes_count};

use crate::Stack;
use crate::guards::{opened, opened_over, past_frame};
use hm_base::frames::names;
use hm_base::{Frame, Op};
use hm_history::phases::{Body, Phase, Seen};
use hm_history::{KeptAt, Kind};

fn removes(op: &Op) -> bool
    ensures { result ≡ is_remove op.now }
{
    match op {
        Op::Remove { .. } => true,
        _ => false,
    }
}

fn giving_up(op: &Op, top: &Phase) -> Option<Phase>
    ensures { result ≡ spec.giving_up op.now top.now }
{
    match top {
        Phase::Decide { touch } => Some(Phase::GiveUp {
            touch: Some(*touch),
        }),
        Phase::Frames { .. } => {
            if removes(op) {
                Some(Phase::GiveUp { touch: None })
            } else {
                None
            }
        }
        _ => None,
    }
}

fn gives_up(below: &mut Stack, op: &Op)
    ensures { below.new ≡ spec.gives_up op.now below.old }
{
    let Some(top) = below.top() else {
        return;
    };
    if let Some(by) = giving_up(op, top) {
        below.only(by);
    }
}

fn copy_phases(below: &mut Stack, from: &Frame, to: &Frame)
    requires { length below.old < 2 }
    ensures { below.new ≡ Phase.Copy from.now to.now 0 ∷ Phase.Copied from.now to.now ∷ below.old }
{
    below.put(Phase::Copied {
        from: *from,
        to: *to,
    });
    below.put(Phase::Copy {
        from: *from,
        to: *to,
        part: 0,
    });
}

#[inline(never)]
pub(crate) fn after_emptying(
    below: &mut Stack,
    op: &Op,
    frame: &Frame,
    at: &KeptAt,
    kind: &Kind,
    seen: &Seen,
)
    requires { length (spec.after_emptying op.now frame.now at.now below.old kind.now seen.now) ≤ 3 }
    ensures { below.new ≡ spec.after_emptying op.now frame.now at.now below.old kind.now seen.now }
{
    match kind {
        Kind::Start { .. } => {
            below.put(Phase::Emptying {
                frame: *frame,
                at: *at,
            });
            opened(below, kind, seen, Body::Freeze { frame: *frame });
        }
        Kind::Take(to) => copy_phases(below, frame, to),
        _ => {
            gives_up(below, op);
            below.put(Phase::Finish {
                from: *frame,
                to: None,
            });
        }
    }
}

fn counted(below: &mut Stack)
    requires { IsTrue (first_takes_count below.old) }
    ensures { below.new ≡ spec.with_one_more below.old }
{
    if let Some(Phase::Frames { next, emptied }) = below.top() {
        let next = *next;
        let emptied = *emptied + 1;
        below.renew(Phase::Frames { next, emptied });
    }
}

#[inline(never)]
pub(crate) fn after_copied(below: &mut Stack, from: &Frame, to: &Frame)
    requires room { length (Phase.Finish from.now (Some to.now) ∷ spec.with_one_more below.old) ≤ 3 }
    requires counted { IsTrue (first_takes_count below.old) }
    ensures { below.new ≡ Phase.Finish from.now (Some to.now) ∷ spec.with_one_more below.old }
{
    counted(below);
    below.put(Phase::Finish {
        from: *from,
        to: Some(*to),
    });
}

#[inline(never)]
pub(crate) fn after_copy(below: &mut Stack, from: &Frame, to: &Frame, part: u8)
    requires { length (spec.after_copy from.now to.now part below.old) ≤ 3 }
    ensures { below.new ≡ spec.after_copy from.now to.now part below.old }
{
    if part < 7 {
        below.put(Phase::Copy {
            from: *from,
            to: *to,
            part: part + 1,
        });
    }
}

#[inline(never)]
pub(crate) fn after_finish(below: &mut Stack, from: &Frame, to: &Option<Frame>, kind: &Kind)
    requires { length (spec.after_finish from.now to.now below.old kind.now) ≤ 3 }
    ensures { below.new ≡ spec.after_finish from.now to.now below.old kind.now }
{
    match (kind, *to) {
        (Kind::Place { .. }, _) => below.put(Phase::Finish {
            from: *from,
            to: *to,
        }),
        (Kind::Drop(_), Some(frame)) => below.put(Phase::Settle { frame }),
        _ => (),
    }
}

/// A finish over this phase alone, after one of its entries.
pub(crate) fn finishing_over(
    stack: &mut Stack,
    below: Phase,
    from: Frame,
    to: Option<Frame>,
    kind: &Kind,
)
    ensures { stack.new ≡ spec.after_finish from to (below ∷ []) kind.now }
{
    match (kind, to) {
        (Kind::Place { .. }, _) => stack.two(Phase::Finish { from, to }, below),
        (Kind::Drop(_), Some(frame)) => stack.two(Phase::Settle { frame }, below),
        _ => stack.only(below),
    }
}

fn number_of(frame: &Option<Frame>) -> u64
    ensures { result ≡ spec.number_of frame.now }
{
    match frame {
        None => 0,
        Some(frame) => u64::from(frame.number),
    }
}

fn catching(frame: Option<Frame>) -> Body
    ensures { result ≡ spec.catching frame }
{
    match frame {
        None => Body::Nothing,
        Some(frame) => Body::Catch { frame },
    }
}

#[inline(never)]
pub(crate) fn after_frames(stack: &mut Stack, next: u64, emptied: u64, kind: &Kind, seen: &Seen)
    ensures { stack.new ≡ spec.after_frames next emptied kind.now seen.now }
{
    match kind {
        Kind::Start { .. } => {
            let frame = names(&seen.place);
            let next = number_of(&frame);
            opened_over(
                stack,
                Phase::Frames { next, emptied },
                kind,
                seen,
                catching(frame),
            );
        }
        Kind::Kept {
            at: KeptAt::Frame(frame),
            why: _,
        } => stack.only(past_frame(frame, emptied)),
        Kind::Drop(frame) => stack.only(past_frame(frame, emptied)),
        Kind::Withdrawn(_) => stack.only(Phase::Frames { next, emptied }),
        _ => stack.clear(),
    }
}
