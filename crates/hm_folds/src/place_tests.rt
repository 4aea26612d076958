// Tests of places, of table entries and of frames.
ghost use Rattle.std.specs.Prelude.{◌≡◌, ◌&&◌, not, true, if◌then◌else◌};
ghost use Rattle.hm_base.specs.PlaceWords.{writable};
ghost use Rattle.hm_history.specs.Memory.Places.{cpu_reads, cpu_writes, may_read, may_write, is_sole, is_exclusive};
ghost use Rattle.hm_history.specs.Memory.Places.{is_exclusive_of, is_for_device};

use hm_base::frames::{is_frame, sys_frame};
use hm_base::{Actor, Dev, Frame, Place, PoolId};
use hm_history::TableRight;

/// Whether the CPU may read, or write, through a place.
pub fn cpu_may(place: &Place, writes: bool) -> bool
    ensures { result ≡ (if writes then cpu_writes place.now else cpu_reads place.now) }
{
    match place {
        Place::Zero => !writes,
        Place::Sys {
            number: _,
            writable,
        } => !writes || *writable,
        _ => false,
    }
}

/// Whether an entry with this right is read, or written.
pub fn right_allows(right: TableRight, writes: bool) -> bool
    ensures { result ≡ (if writes then may_write right else may_read right) }
{
    match right {
        TableRight::Read => !writes,
        TableRight::Write => true,
        TableRight::Sole => false,
    }
}

/// Whether a device reads, or writes, a page with this place through an entry that others may have too.
pub fn place_allows(place: &Place, writes: bool) -> bool
    ensures { result ≡ (not (is_exclusive place.now) && (if writes then writable place.now else true)) }
{
    match place {
        Place::Exclusive { .. } => false,
        _ => !writes || place.writable(),
    }
}

/// Whether one actor alone has the page of an entry with this right.
pub fn is_sole(right: TableRight) -> bool
    ensures { result ≡ is_sole right }
{
    matches!(right, TableRight::Sole)
}

/// Whether the actor has the page of this place alone, and the entry names its frame.
pub fn is_exclusive_of(place: &Place, actor: Actor, target: &Option<Frame>) -> bool
    ensures { result ≡ is_exclusive_of place.now actor target.now }
{
    match place {
        Place::Exclusive { number, actor: by } => {
            actor == *by && is_frame(*target, &sys_frame(*number))
        }
        _ => false,
    }
}

/// Whether an entry of the device may name this: a frame of its own or of the system, or none.
pub fn is_for_device(target: &Option<Frame>, dev: Dev) -> bool
    ensures { result ≡ is_for_device target.now dev }
{
    match target {
        None => true,
        Some(frame) => match frame.pool {
            PoolId::System => true,
            PoolId::Device(of) => dev == of,
        },
    }
}
