// The phases after an entry of their actor.
ghost use Rattle.std.specs.Prelude.{◌≡◌, ◌≤◌, length, IsTrue};
ghost use Rattle.hm_history.specs.Kernel.Stacks as spec;
ghost use Rattle.hm_phases.specs.Items.{first_takes_count, below_takes_count};

use crate::accesses::{
    after_armed, after_begun, after_decide, after_fetched, after_first, after_give_up, after_noted,
    after_taken,
};
use crate::frames::{after_copied, after_copy, after_emptying, after_finish, after_frames};
use crate::guards::{after_guard_at, after_lost};
use crate::migrations::after_migration;
use crate::operations::{after_answer, after_begin, after_locked, after_pages, after_ready};
use crate::{Depth, Stack};
use hm_base::Op;
use hm_history::Kind;
use hm_history::phases::{Phase, Seen};

// What comes after the entry at the top phase, put on what stands below it.
fn after_top(below: &mut Stack, top: &Phase, op: &Op, kind: &Kind, seen: &Seen)
    requires room { length (spec.after_top op.now top.now below.old kind.now seen.now) ≤ 3 }
    requires counted { IsTrue (first_takes_count below.old) }
    ensures { below.new ≡ spec.after_top op.now top.now below.old kind.now seen.now }
{
    match top {
        Phase::Begin => after_begin(below, op, kind),
        Phase::Locked => after_locked(below, op, kind, seen),
        Phase::Ready => after_ready(below, op, kind, seen),
        Phase::Answer => after_answer(below, kind),
        Phase::Detaching { .. } => below.clear(),
        Phase::Pages { .. } => after_pages(below, kind),
        Phase::Piece { piece } => after_first(below, op, *piece, kind, seen),
        Phase::Fetched { .. } => after_fetched(below, op, kind, seen),
        Phase::Begun { piece, since, seq } => {
            after_begun(below, op, *piece, *since, *seq, kind, seen);
        }
        Phase::Decide { touch } => after_decide(below, op, touch, kind, seen),
        Phase::Noted { piece, .. } => after_noted(below, *piece),
        Phase::Taken { touch, by, over } => after_taken(below, touch, by, over, kind),
        Phase::Armed { touch, by, over } => after_armed(below, touch, by, over, kind, seen),
        Phase::Guard {
            proc,
            span,
            overlapped,
            told,
            body,
        } => after_guard_at(below, op, proc, span, *overlapped, told, body, kind, seen),
        Phase::Drop { .. } | Phase::Settle { .. } => (),
        Phase::Emptying { frame, at } => after_emptying(below, op, frame, at, kind, seen),
        Phase::Copy { from, to, part } => after_copy(below, from, to, *part),
        Phase::Copied { from, to } => after_copied(below, from, to),
        Phase::Finish { from, to } => after_finish(below, from, to, kind),
        Phase::GiveUp { touch } => after_give_up(below, op, touch, kind),
        Phase::Frames { next, emptied } => after_frames(below, *next, *emptied, kind, seen),
        Phase::Moves { step, .. } => after_migration(below, *step, kind, seen),
        Phase::Lost { page: _, by } => after_lost(below, by),
    }
}

/// The phases after an entry that does not only change the top.
#[inline(never)]
pub(crate) fn moved(stack: &mut Stack, op: &Op, kind: &Kind, seen: &Seen)
    requires room { length (spec.stack_after op.now stack.old kind.now seen.now) ≤ 3 }
    requires counted { IsTrue (below_takes_count stack.old) }
    ensures { stack.new ≡ spec.stack_after op.now stack.old kind.now seen.now }
{
    match stack.depth {
        Depth::Zero => (),
        _ => {
            let top = stack.top;
            stack.pop();
            after_top(stack, &top, op, kind, seen);
        }
    }
}
