// The decision of a fault, which accesses of the CPU, look-ups and exclusive access share (`handle_mm_fault`,
// mm/memory.c).
ghost use Rattle.std.specs.Prelude.{◌≡◌, IsTrue};
ghost use Rattle.hm_base.specs.Program.{op_in_range};
ghost use Rattle.hm_history.specs.Kernel.Due as spec;

use crate::Reads;
use crate::decisions::{fails, start_page, take_or};
use crate::operations::op_writes;
use hm_base::frames::{dev_frame, sys_frame};
use hm_base::{Actor, Cause, Frame, Op, Page, Place, Proc, Rights};
use hm_history::phases::Next;
use hm_history::{Kind, Why};

/// What a fault is about: the piece of its access, and the page that it wants.
#[derive(Clone, Copy)]
pub struct Wanted {
    pub piece: u32,
    pub proc: Proc,
    pub page: Page,
}

/// Whether the CPU may do this at the place.
pub fn suits(writes: bool, place: Place) -> bool
    ensures { result ≡ spec.suits writes place }
{
    match place {
        Place::Zero => !writes,
        Place::Sys {
            number: _,
            writable,
        } => !writes || writable,
        _ => false,
    }
}

fn is_used_once<W: Reads>(world: &W, frame: &Frame) -> bool
    ensures { result ≡ spec.is_used_once (W.state world.now).after frame.now }
{
    world.locker(frame).is_none() && world.uses(frame) == 1
}

fn bring_home<W: Reads>(world: &W, actor: Actor, at: &Wanted, frame: &Frame) -> Next
    ensures { result ≡ spec.bring_home (W.state world.now).after actor at.now.proc at.now.page frame.now }
{
    match world.other_locker(frame, actor) {
        None => Next::Do(start_page(world, at.proc, at.page)),
        Some(by) => Next::Wait(Why::FrameLocked(*frame, by)),
    }
}

fn fault_sys<W: Reads>(world: &W, at: &Wanted, number: u32, failing: Kind) -> Next
    ensures { result
        ≡ spec.fault_sys (W.program world.now) (W.state world.now).after at.now.proc at.now.page number failing }
{
    if is_used_once(world, &sys_frame(number)) {
        let place = Place::Sys {
            number,
            writable: true,
        };
        Next::Do(Kind::Place {
            proc: at.proc,
            page: at.page,
            place,
        })
    } else {
        take_or(world, failing)
    }
}

fn fault_empty<W: Reads>(world: &W, op: &Op, at: &Wanted) -> Next
    requires { IsTrue (op_in_range op.now) }
    ensures { result
        ≡ spec.fault_at (W.program world.now)
        (W.state world.now).after 0 op.now at.now.piece at.now.proc at.now.page Place.Empty }
{
    if op_writes(op) {
        take_or(world, fails(op, at.piece, Cause::NoFrame))
    } else {
        Next::Do(Kind::Place {
            proc: at.proc,
            page: at.page,
            place: Place::Zero,
        })
    }
}

fn fault_at<W: Reads>(world: &W, actor: Actor, op: &Op, at: &Wanted, place: Place) -> Next
    requires { IsTrue (op_in_range op.now) }
    ensures { result
        ≡ spec.fault_at (W.program world.now)
        (W.state world.now).after actor op.now at.now.piece at.now.proc at.now.page place }
{
    match place {
        Place::Moving { .. } => Next::Wait(Why::Moving(at.proc, at.page)),
        Place::Own {
            dev,
            number,
            writable: _,
        } => bring_home(world, actor, at, &dev_frame(dev, number)),
        Place::Exclusive { .. } => Next::Do(start_page(world, at.proc, at.page)),
        Place::Empty => fault_empty(world, op, at),
        Place::Zero => take_or(world, fails(op, at.piece, Cause::NoFrame)),
        Place::Sys {
            number,
            writable: _,
        } => fault_sys(world, at, number, fails(op, at.piece, Cause::NoFrame)),
    }
}

/// What a fault decides: failures, the release of the lock where the place suits, and else what brings it nearer.
pub fn fault<W: Reads>(world: &W, actor: Actor, op: &Op, at: &Wanted, suited: bool) -> Next
    requires { IsTrue (op_in_range op.now) }
    ensures { result
        ≡ spec.fault (W.program world.now) (W.state world.now).after actor op.now at.now.piece
        (λ x. suited) at.now.proc at.now.page }
{
    match world.rights(at.proc, at.page) {
        None => Next::Do(fails(op, at.piece, Cause::Unmapped)),
        Some(rights) => {
            if op_writes(op) && rights == Rights::Read {
                Next::Do(fails(op, at.piece, Cause::Forbidden))
            } else if suited {
                Next::Do(Kind::Runlock(at.proc))
            } else {
                fault_at(world, actor, op, at, world.place(at.proc, at.page))
            }
        }
    }
}
