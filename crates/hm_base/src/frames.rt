// What frames and places are to one another.
ghost use Rattle.std.specs.Prelude.{◌≡◌, ◌<◌, not, if◌then◌else◌};
ghost use Rattle.hm_base.specs.PlaceWords as words;

use crate::{Dev, Frame, Place, PoolId};

/// Where a pool stands among all: the system first, then the devices.
pub fn pool_index(pool: &PoolId) -> usize
    ensures same { result ≡ words.pool_index pool.now }
    ensures below { result < 5 }
{
    match pool {
        PoolId::System => 0,
        PoolId::Device(dev) => dev.number() as usize + 1,
    }
}

/// The system's frame of this number.
pub fn sys_frame(number: u32) -> Frame
    ensures { result ≡ words.sys_frame number }
{
    Frame {
        pool: PoolId::System,
        number,
    }
}

/// The device's frame of this number.
pub fn dev_frame(dev: Dev, number: u32) -> Frame
    ensures { result ≡ words.dev_frame dev number }
{
    Frame {
        pool: PoolId::Device(dev),
        number,
    }
}

/// The frame that a place names.
pub fn names(place: &Place) -> Option<Frame>
    ensures { result ≡ words.names place.now }
{
    match place {
        Place::Empty | Place::Zero => None,
        Place::Sys {
            number,
            writable: _,
        } => Some(sys_frame(*number)),
        Place::Own {
            dev,
            number,
            writable: _,
        } => Some(dev_frame(*dev, *number)),
        Place::Moving { frame, writable: _ } => Some(*frame),
        Place::Exclusive { number, actor: _ } => Some(sys_frame(*number)),
    }
}

/// The frame that a place names, but for a migration entry's.
pub fn names_directly(place: &Place) -> Option<Frame>
    ensures { result ≡ words.names_directly place.now }
{
    match place {
        Place::Moving { .. } => None,
        _ => names(place),
    }
}

/// The place that names the frame directly.
pub fn place_in(frame: &Frame, writable: bool) -> Place
    ensures { result ≡ words.place_in frame.now writable }
{
    let number = frame.number;
    match &frame.pool {
        PoolId::System => Place::Sys { number, writable },
        PoolId::Device(dev) => Place::Own {
            dev: *dev,
            number,
            writable,
        },
    }
}

/// Whether it is this frame.
pub fn is_frame(one: Option<Frame>, other: &Frame) -> bool
    ensures { result ≡ words.is_frame one other.now }
{
    one == Some(*other)
}

/// Whether the page has this place still.
pub fn same_place(one: &Place, other: &Place) -> bool
    ensures { result ≡ words.same_place one.now other.now }
{
    one == other
}
