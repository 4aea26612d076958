// Exclusive pages whose frames are locked: they are waited for, and who wants a page alone does not wait for its frame.
ghost use Rattle.std.specs.Prelude.{◌≡◌, IsTrue};
ghost use Rattle.hm_base.specs.Program.{op_in_range};
ghost use Rattle.hm_history.specs.Memory.Places.{cpu_writes};
ghost use Rattle.hm_history.specs.Memory.Words.{is_frame};
ghost use Rattle.hm_linux.specs.ExclusiveBusy.{locker_of, other_than, place_locker, waits_for_locked};
ghost use Rattle.hm_linux.specs.ExclusiveBusy.{is_busy, busy_fails, decides_busy};
ghost use Rattle.hm_linux_steps.specs.Notes.{noted_in};

use crate::first::{Passes, first_actor};
use crate::notes::Notes;
use hm_base::frames::{is_frame, names, sys_frame};
use hm_base::{Actor, Cause, Frame, Op, Place};
use hm_history::Why;
use hm_history::phases::{Next, Touch};
use hm_reads::Reads;
use hm_reads::decisions::fails;
use hm_reads::operations::{op_mirror, touch_page, touch_proc};

// Who has the frame locked as that of an exclusive page.
#[derive(Drop)]
struct Locks<'a> {
    notes: &'a Notes,
    frame: &'a Frame,
}

impl<'a> Passes for Locks<'a> {
    ghost passes = { λ q a. is_frame ((noted_in q.notes.now).locks a) q.frame.now };

    fn passes(&self, actor: Actor) -> bool {
        is_frame(self.notes.locked(actor), self.frame)
    }
}

// Who has the frame locked, be it as the frame of an exclusive page.
fn locker_of<W: Reads>(found: &W, notes: &Notes, frame: &Frame) -> Option<Actor>
    ensures { result ≡ locker_of (noted_in notes.now) (W.state found.now).after frame.now }
{
    match found.locker(frame) {
        Some(by) => Some(by),
        None => first_actor(&Locks { notes, frame }),
    }
}

fn other_than(actor: Actor, by: Option<Actor>) -> Option<Actor>
    ensures { result ≡ other_than actor by }
{
    match by {
        None => None,
        Some(by) => { if actor == by { None } else { Some(by) } }
    }
}

/// The other actor that has the frame of this place locked.
pub(crate) fn place_locker<W: Reads>(
    found: &W,
    notes: &Notes,
    actor: Actor,
    place: &Place,
) -> Option<Actor>
    ensures { result ≡ place_locker (noted_in notes.now) (W.state found.now).after actor place.now }
{
    match names(place) {
        None => None,
        Some(frame) => other_than(actor, locker_of(found, notes, &frame)),
    }
}

// An exclusive page whose frame another actor has locked is waited for.
fn waits_for_locked<W: Reads>(
    found: &W,
    notes: &Notes,
    actor: Actor,
    place: &Place,
    next: Next,
) -> Next
    ensures { result ≡ waits_for_locked (noted_in notes.now) (W.state found.now).after actor place.now next }
{
    match place {
        Place::Exclusive { number, actor: _ } => match place_locker(found, notes, actor, place) {
            None => next,
            Some(by) => Next::Wait(Why::FrameLocked(sys_frame(*number), by)),
        },
        _ => next,
    }
}

fn cpu_writes(place: &Place) -> bool
    ensures { result ≡ cpu_writes place.now }
{
    match place {
        Place::Sys {
            number: _,
            writable,
        } => *writable,
        _ => false,
    }
}

// Whether the page that an actor wants alone was changed, or another actor has its frame locked.
fn is_busy<W: Reads>(found: &W, notes: &Notes, actor: Actor, place: &Place) -> bool
    ensures { result ≡ is_busy (noted_in notes.now) (W.state found.now).after actor place.now }
{
    notes.is_busy(actor) || cpu_writes(place) && place_locker(found, notes, actor, place).is_some()
}

// Who wants a page alone fails at a busy one.
fn busy_fails<W: Reads>(
    found: &W,
    notes: &Notes,
    actor: Actor,
    op: &Op,
    place: &Place,
    next: Next,
) -> Next
    requires { IsTrue (op_in_range op.now) }
    ensures { result ≡ busy_fails (noted_in notes.now) (W.state found.now).after actor op.now place.now next }
{
    if found.is_attached(op_mirror(op)) && is_busy(found, notes, actor, place) {
        Next::Do(fails(op, 0, Cause::Never))
    } else {
        next
    }
}

/// What a fault decides, by whose touch it is.
pub(crate) fn decides_busy<W: Reads>(
    found: &W,
    notes: &Notes,
    actor: Actor,
    op: &Op,
    touch: &Touch,
    next: Next,
) -> Next
    requires { IsTrue (op_in_range op.now) }
    ensures { result ≡ decides_busy (noted_in notes.now) (W.state found.now).after actor op.now touch.now next }
{
    let place = found.place(touch_proc(found, op), touch_page(op, *touch));
    let waiting = waits_for_locked(found, notes, actor, &place, next);
    match touch {
        Touch::Sole => busy_fails(found, notes, actor, op, &place, waiting),
        _ => waiting,
    }
}
