// The types that every layer shares, and their limits.
#![tactic(auto)]

ghost use Rattle.std.specs.Prelude.{◌≡◌, ◌<◌, ◌^◌, IsTrue, true};
ghost use Rattle.hm_base.specs.declared.limits.TheConstants.{MOST_ACTORS, MOST_DEVICES, MOST_MIRRORS, MOST_PROCESSES};

use std::alloc::{AllocError, AllocFailed};
use std::marker::Model;

mod area;
mod bytes;
mod cause;
pub mod frames;
mod limits;
mod lists;
mod ops;
mod snap;

pub use area::Area;
pub use bytes::Bytes;
pub use cause::Cause;
pub use limits::{
    MOST_ACTORS, MOST_AREAS, MOST_DEVICE_FRAMES, MOST_DEVICES, MOST_ENTRIES, MOST_MIRRORS,
    MOST_OPERATIONS, MOST_PROCESSES, MOST_REPORT_BYTES, MOST_SCHEDULE_LINES, MOST_SCRIPT_BYTES,
    MOST_SYSTEM_FRAMES, PAGE_BYTES,
};
pub use lists::{ActorLists, DeviceList, ListOf, MaskList, Masks, OpList, Schedule, Text};
pub use ops::{Op, Rights, ScheduleLine, Script, Version};
pub use snap::snap_code;

/// The allocator gave no memory, and the value that was asked is as it was.
#[derive(Clone, Copy, Debug, thiserror::Error)]
#[error("out of memory")]
pub struct NoMemory;

impl From<AllocError> for NoMemory {
    fn from(_error: AllocError) -> NoMemory {
        NoMemory
    }
}

impl<T: Drop> From<AllocFailed<T>> for NoMemory {
    fn from(_failed: AllocFailed<T>) -> NoMemory {
        NoMemory
    }
}

/// A page number: an address divided by 4,096. It is below 2^36, four table levels of nine bits.
#[derive(Clone, Copy, PartialEq, Eq)]
pub struct Page(u64);

impl Model for Page {
    ghost use Rattle.std.specs.Prelude.{ℕ, ◌<◌, ◌^◌};

    ghost Value = { ℕ };

    ghost view = { λ x. x.0 };

    ghost invariant = { λ x. x.0 < 2 ^ 36 };

    ghost inverse = { λ n. record { 0 = n } };
}

impl Page {
    /// Costs nothing: it hands the prover the invariant.
    pub fn facts(self)
        ensures { self < 2 ^ 36 }
    {
        let _ = &self.0;
    }

    /// The page of this number.
    pub fn new(number: u64) -> Page
        requires { number < 2 ^ 36 }
        ensures { result ≡ number }
    {
        Page(number)
    }

    /// Its number.
    pub fn number(self) -> u64
        ensures same { result ≡ self }
        ensures below { result < 2 ^ 36 }
    {
        self.0
    }
}

/// A process, by its number below 32.
#[derive(Clone, Copy, PartialEq, Eq)]
pub struct Proc(u8);

impl Model for Proc {
    ghost use Rattle.std.specs.Prelude.{ℕ, ◌<◌};
    ghost use Rattle.hm_base.specs.declared.limits.TheConstants.{MOST_PROCESSES};

    ghost Value = { ℕ };

    ghost view = { λ x. x.0 };

    ghost invariant = { λ x. x.0 < MOST_PROCESSES };

    ghost inverse = { λ n. record { 0 = n } };
}

impl Proc {
    /// The process of this number.
    pub fn new(number: u32) -> Proc
        requires { number < MOST_PROCESSES }
        ensures { result ≡ number }
    {
        Proc(number as u8)
    }

    /// Costs nothing: it hands the prover the invariant.
    pub fn facts(self)
        ensures { self < MOST_PROCESSES }
    {
        let _ = &self.0;
    }

    /// Its number.
    pub fn number(self) -> u32
        ensures same { result ≡ self }
        ensures below { result < MOST_PROCESSES }
    {
        u32::from(self.0)
    }
}

/// A device with private memory, by its number below 4.
#[derive(Clone, Copy, PartialEq, Eq)]
pub struct Dev(u8);

impl Model for Dev {
    ghost use Rattle.std.specs.Prelude.{ℕ, ◌<◌};
    ghost use Rattle.hm_base.specs.declared.limits.TheConstants.{MOST_DEVICES};

    ghost Value = { ℕ };

    ghost view = { λ x. x.0 };

    ghost invariant = { λ x. x.0 < MOST_DEVICES };

    ghost inverse = { λ n. record { 0 = n } };
}

impl Dev {
    /// The device of this number.
    pub fn new(number: u32) -> Dev
        requires { number < MOST_DEVICES }
        ensures { result ≡ number }
    {
        Dev(number as u8)
    }

    /// Its number.
    pub fn number(self) -> u32
        ensures same { result ≡ self }
        ensures below { result < MOST_DEVICES }
    {
        u32::from(self.0)
    }
}

/// A mirror of a process's memory in a device, by its number below 32 (`struct dmirror` of
/// lib/test_hmm.c).
#[derive(Clone, Copy, PartialEq, Eq)]
pub struct MirrorId(u8);

impl Model for MirrorId {
    ghost use Rattle.std.specs.Prelude.{ℕ, ◌<◌};
    ghost use Rattle.hm_base.specs.declared.limits.TheConstants.{MOST_MIRRORS};

    ghost Value = { ℕ };

    ghost view = { λ x. x.0 };

    ghost invariant = { λ x. x.0 < MOST_MIRRORS };

    ghost inverse = { λ n. record { 0 = n } };
}

impl MirrorId {
    /// The mirror of this number.
    pub fn new(number: u32) -> MirrorId
        requires { number < MOST_MIRRORS }
        ensures { result ≡ number }
    {
        MirrorId(number as u8)
    }

    /// Its number.
    pub fn number(self) -> u32
        ensures same { result ≡ self }
        ensures below { result < MOST_MIRRORS }
    {
        u32::from(self.0)
    }
}

/// An actor of a script, by its number below 16.
#[derive(Clone, Copy, PartialEq, Eq, Debug)]
pub struct Actor(u8);

impl Model for Actor {
    ghost use Rattle.std.specs.Prelude.{ℕ, ◌<◌};
    ghost use Rattle.hm_base.specs.declared.limits.TheConstants.{MOST_ACTORS};

    ghost Value = { ℕ };

    ghost view = { λ x. x.0 };

    ghost invariant = { λ x. x.0 < MOST_ACTORS };

    ghost inverse = { λ n. record { 0 = n } };
}

impl Actor {
    /// The actor of this number.
    pub fn new(number: u32) -> Actor
        requires { number < MOST_ACTORS }
        ensures { result ≡ number }
    {
        Actor(number as u8)
    }

    /// Its number.
    pub fn number(self) -> u32
        ensures same { result ≡ self }
        ensures below { result < MOST_ACTORS }
    {
        u32::from(self.0)
    }
}

/// Where frames come from: the system's memory, or a device's own.
#[derive(Clone, Copy, PartialEq, Eq)]
pub enum PoolId {
    /// Memory that the CPU reads and writes.
    System,
    /// Memory that only this device reads and writes (`MEMORY_DEVICE_PRIVATE`).
    Device(Dev),
}

/// A frame of 4,096 bytes, by its pool and its number there.
#[derive(Clone, Copy, PartialEq, Eq)]
pub struct Frame {
    pub pool: PoolId,
    pub number: u32,
}

/// One or more pages in a row, none at or above 2^36.
#[derive(Clone, Copy, PartialEq, Eq)]
pub struct Span {
    first: Page,
    count: u64,
}

impl Model for Span {
    ghost use Rattle.hm_base.specs.Pages.{Pages, IsSpan};

    ghost Value = { Pages };

    ghost view = { λ s. record { first = s.first; count = s.count } };

    ghost invariant = { λ s. IsSpan (record { first = s.first; count = s.count }) };

    ghost inverse = { λ s. record { first = s.first; count = s.count } };
}

impl Span {
    ghost use Rattle.hm_base.specs.Pages.{IsSpan};

    /// So many pages from this one on.
    pub fn new(first: Page, count: u64) -> Span
        requires { IsSpan (record { first = first; count = count }) }
        ensures { result ≡ record { first = first; count = count } }
    {
        Span { first, count }
    }

    /// Costs nothing: it hands the prover the invariant.
    pub fn facts(self)
        ensures { IsSpan self }
    {
        let _ = &self.count;
    }

    /// The first page.
    pub fn first(self) -> Page
        ensures same { result ≡ self.first }
        ensures span { IsSpan self }
    {
        self.first
    }

    /// How many pages it has.
    pub fn count(self) -> u64
        ensures same { result ≡ self.count }
        ensures span { IsSpan self }
    {
        self.count
    }
}

/// What a page table has for a page: the meaning of a page table entry.
#[derive(Clone, Copy, PartialEq, Eq)]
pub enum Place {
    /// No entry.
    Empty,
    /// The shared zero page, read-only.
    Zero,
    /// A frame of the system.
    Sys {
        number: u32,
        writable: bool,
    },
    /// A device-private entry: a frame of that device, which the CPU cannot touch.
    Own {
        dev: Dev,
        number: u32,
        writable: bool,
    },
    /// A migration entry: the frame is on its way elsewhere, and a touch waits.
    Moving {
        frame: Frame,
        writable: bool,
    },
    /// A device-exclusive entry: a system frame that one actor of a mirror has alone.
    Exclusive {
        number: u32,
        actor: Actor,
    },
}

impl Place {
    ghost use Rattle.hm_base.specs.PlaceWords.{writable, narrowed};

    /// Whether it has the write right, which entries for migration and device memory record too.
    pub fn writable(self) -> bool
        ensures { result ≡ writable self }
    {
        match self {
            Place::Empty | Place::Zero => false,
            Place::Sys {
                number: _,
                writable,
            } => writable,
            Place::Own {
                dev: _,
                number: _,
                writable,
            } => writable,
            Place::Moving { frame: _, writable } => writable,
            Place::Exclusive { .. } => true,
        }
    }

    /// The same place without the write right; an exclusive page is then a read-only system page.
    pub fn narrowed(self) -> Place
        ensures { result ≡ narrowed self }
    {
        match self {
            Place::Empty | Place::Zero => self,
            Place::Sys { number, .. } => Place::Sys {
                number,
                writable: false,
            },
            Place::Own { dev, number, .. } => Place::Own {
                dev,
                number,
                writable: false,
            },
            Place::Moving { frame, .. } => Place::Moving {
                frame,
                writable: false,
            },
            Place::Exclusive { number, .. } => Place::Sys {
                number,
                writable: false,
            },
        }
    }
}
