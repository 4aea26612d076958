// What a fault decides, and what a look-up commits.
ghost use Rattle.std.specs.Prelude.{◌≡◌, IsTrue};
ghost use Rattle.hm_base.specs.Program.{op_in_range};
ghost use Rattle.hm_history.specs.Kernel.Legal.{is_own_of};
ghost use Rattle.hm_history.specs.Kernel.Going.{touch_page, touch_proc};
ghost use Rattle.hm_history.specs.declared.phases.Next as next;
ghost use Rattle.hm_history.specs.declared.phases.Touch as touches;
ghost use Rattle.hm_linux.specs.UnmapLetsIn.{area_first};
ghost use Rattle.hm_linux.specs.OwnReadOnly.{is_own_page, takes_own, set_fails};

use hm_base::{Cause, Dev, Op, Page, Place, Proc};
use hm_history::Kind;
use hm_history::phases::{Next, Touch};
use hm_reads::Reads;
use hm_reads::decisions::{failed, fails, repeats};
use hm_reads::operations::{op_mirror, op_writes, touch_page, touch_proc};

/// Who wants a page alone that has no area fails.
pub(crate) fn area_first<W: Reads>(found: &W, op: &Op, touch: &Touch, next: Next) -> Next
    requires { IsTrue (op_in_range op.now) }
    ensures { result ≡ area_first (W.state found.now).after op.now touch.now next }
{
    match touch {
        Touch::Sole => {
            let page = touch_page(op, Touch::Sole);
            if found.is_attached(op_mirror(op))
                && found.rights(touch_proc(found, op), page).is_none()
            {
                Next::Do(fails(op, 0, Cause::Unmapped))
            } else {
                next
            }
        }
        _ => next,
    }
}

// Whether the page lies in that device's memory.
fn is_own_of(place: &Place, dev: Dev) -> bool
    ensures { result ≡ is_own_of place.now dev }
{
    match place {
        Place::Own {
            dev: of,
            number: _,
            writable: _,
        } => dev == *of,
        _ => false,
    }
}

// Whether the page has an area, and lies in the memory of the operation's device.
fn is_own_page<W: Reads>(found: &W, op: &Op, proc: Proc, page: Page) -> bool
    ensures { result ≡ is_own_page (W.state found.now).after op.now proc page }
{
    found.rights(proc, page).is_some()
        && is_own_of(&found.place(proc, page), found.mirror_dev(op_mirror(op)))
}

/// A walk takes a page of its own device as it is.
pub(crate) fn takes_own<W: Reads>(found: &W, op: &Op, touch: &Touch, next: Next) -> Next
    requires { IsTrue (op_in_range op.now) }
    ensures { result ≡ takes_own (W.state found.now).after op.now touch.now next }
{
    match touch {
        Touch::Walk { seq, .. } => {
            let proc = touch_proc(found, op);
            if !repeats(found, op_mirror(op), *seq)
                && is_own_page(found, op, proc, touch_page(op, *touch))
            {
                Next::Do(Kind::Runlock(proc))
            } else {
                next
            }
        }
        _ => next,
    }
}

// A write to a page that may not be written fails where its look-up would commit.
fn set_or_fails(op: &Op, piece: u32, place: &Place, kind: Kind) -> Next
    requires { IsTrue (op_in_range op.now) }
    ensures { result ≡ set_fails op.now piece place.now (next.Next.Do kind) }
{
    match kind {
        Kind::Set {
            mirror,
            page,
            target,
            right,
            since,
        } => {
            if op_writes(op) && !place.writable() {
                Next::Do(failed(op, piece, Cause::Unmapped))
            } else {
                Next::Do(Kind::Set {
                    mirror,
                    page,
                    target,
                    right,
                    since,
                })
            }
        }
        other => Next::Do(other),
    }
}

/// A write to a page that may not be written fails, in place of the commit.
pub(crate) fn set_fails(op: &Op, piece: u32, place: &Place, next: Next) -> Next
    requires { IsTrue (op_in_range op.now) }
    ensures { result ≡ set_fails op.now piece place.now next }
{
    match next {
        Next::Do(kind) => set_or_fails(op, piece, place, kind),
        Next::Wait(why) => Next::Wait(why),
    }
}
