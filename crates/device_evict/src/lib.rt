// A device's memory is emptied, frame by frame: lib/test_hmm.c, `dmirror_device_evict_chunk` (which makes each step for
// all frames of a chunk) and `dmirror_device_remove_chunks`.
#![tactic(auto)]

ghost use Rattle.std.specs.Prelude.{◌≡◌};
ghost use Rattle.hm_history.specs.Kernel.Due as spec;

use hm_base::frames::dev_frame;
use hm_base::{Actor, Cause, Dev, Frame, Op};
use hm_history::phases::Next;
use hm_history::{KeptAt, KeptWhy, Kind, Why};
use hm_reads::Reads;
use hm_reads::decisions::start_page;

fn locked_frame(remove: bool, frame: &Frame, by: Actor) -> Next
    ensures { result ≡ spec.locked_frame remove frame.now by }
{
    if remove {
        Next::Wait(Why::FrameLocked(*frame, by))
    } else {
        Next::Do(Kind::Kept {
            at: KeptAt::Frame(*frame),
            why: KeptWhy::LockedBy(by),
        })
    }
}

fn frame_at<W: Reads>(world: &W, actor: Actor, remove: bool, frame: &Frame) -> Next
    ensures { result ≡ spec.frame_at (W.state world.now).after actor remove frame.now }
{
    match world.other_locker(frame, actor) {
        Some(by) => locked_frame(remove, frame, by),
        None => match world.lowest_named(frame) {
            Some((proc, page)) => Next::Do(start_page(world, proc, page)),
            None => Next::Do(Kind::Drop(*frame)),
        },
    }
}

fn frames_end<W: Reads>(world: &W, dev: Dev, remove: bool, emptied: u64) -> Kind
    ensures { result ≡ spec.frames_end (W.state world.now).after dev remove emptied }
{
    if !remove {
        Kind::Evicted(emptied)
    } else if world.is_removed(dev) {
        Kind::Refused(Cause::Removed)
    } else {
        Kind::Removed(dev)
    }
}

fn frames_of<W: Reads>(
    world: &W,
    actor: Actor,
    dev: Dev,
    remove: bool,
    next: u64,
    emptied: u64,
) -> Next
    ensures { result
        ≡ spec.due_frames_of (W.program world.now) (W.state world.now).after actor dev remove next emptied }
{
    if remove && !world.is_withdrawn(dev) {
        Next::Do(Kind::Withdrawn(dev))
    } else {
        match world.held_from(dev, next) {
            None => Next::Do(frames_end(world, dev, remove, emptied)),
            Some(number) => frame_at(world, actor, remove, &dev_frame(dev, number)),
        }
    }
}

/// What is due to an eviction or a removal that has come to this frame, and has emptied `emptied`.
pub fn step_evict<W: Reads>(world: &W, actor: Actor, op: &Op, next: u64, emptied: u64) -> Next
    ensures { result ≡ spec.due_frames (W.program world.now) (W.state world.now).after actor op.now next emptied }
{
    match op {
        Op::Evict { dev } => frames_of(world, actor, *dev, false, next, emptied),
        Op::Remove { dev } => frames_of(world, actor, *dev, true, next, emptied),
        _ => Next::Do(Kind::Refused(Cause::Never)),
    }
}
