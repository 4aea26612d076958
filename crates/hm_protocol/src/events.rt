// The events of a trace: what a driver and the memory manager do, in the order in which it was seen.
ghost use Rattle.std.specs.Prelude.{◌≡◌};

use hm_history::TableRight;
use std::marker::Model;

/// Pages in a row; unlike a `Span`, as a trace has them: none, or more than a process has.
#[derive(Clone, Copy, PartialEq, Eq)]
pub struct TraceSpan {
    first: u64,
    count: u64,
}

impl Model for TraceSpan {
    ghost use Rattle.hm_base.specs.Pages.{Pages};

    ghost Value = { Pages };

    ghost view = { λ s. record { first = s.first; count = s.count } };

    ghost inverse = { λ s. record { first = s.first; count = s.count } };
}

impl TraceSpan {
    /// So many pages from this one on.
    pub fn new(first: u64, count: u64) -> TraceSpan
        ensures { result ≡ record { first = first; count = count } }
    {
        TraceSpan { first, count }
    }

    /// The first page.
    pub fn first(self) -> u64
        ensures { result ≡ self.first }
    {
        self.first
    }

    /// How many pages it has.
    pub fn count(self) -> u64
        ensures { result ≡ self.count }
    {
        self.count
    }
}

/// What stands behind a page, or the frame that an event is about.
#[derive(Clone, Copy, PartialEq, Eq)]
pub enum TraceFrame {
    /// No frame.
    Nothing,
    /// The shared zero page.
    ZeroPage,
    /// A frame of the system, by its number.
    System(u64),
    /// A frame of a device's private memory.
    Private { device: u64, number: u64 },
    /// A frame of a device's memory that the CPU reads and writes too (`MEMORY_DEVICE_COHERENT`).
    Coherent { device: u64, number: u64 },
}

/// Why an invalidation begins (`enum mmu_notifier_event`).
#[derive(Clone, Copy, PartialEq, Eq)]
pub enum Reason {
    Unmap,
    Clear,
    ProtectArea,
    ProtectPage,
    SoftDirty,
    Release,
    Migrate,
    Exclusive,
}

/// An event. Threads, processes, mirrors and devices are numbers; a mirror's is another interval after its next
/// `Insert`.
#[derive(Clone, Copy, PartialEq, Eq)]
pub enum Event {
    /// An interval is about to be inserted; its driver's device, if that is known.
    Insert {
        mirror: u64,
        proc: u64,
        window: TraceSpan,
        device: Option<u64>,
    },
    /// It was inserted, unless it failed.
    Inserted {
        mirror: u64,
        seq: u64,
        done: bool,
    },
    /// An interval is about to be removed.
    Remove {
        mirror: u64,
    },
    /// It is removed.
    Removed {
        mirror: u64,
    },
    /// An invalidation begins; nobody was told. The owner is the device whose driver asked for it.
    Start {
        proc: u64,
        span: TraceSpan,
        reason: Reason,
        owner: Option<u64>,
    },
    /// An invalidation ends: the last one of this thread and span.
    End {
        proc: u64,
        span: TraceSpan,
    },
    /// A callback begins: the mirror is told, with this sequence.
    Tell {
        mirror: u64,
        span: TraceSpan,
        seq: u64,
    },
    /// It returns, and this is the interval's sequence. If it is not done, it would have had to sleep and must not: the
    /// invalidation is given up.
    Told {
        mirror: u64,
        seq: u64,
        done: bool,
    },
    /// A look-up has read this sequence.
    Begin {
        mirror: u64,
        seq: u64,
    },
    /// A walk begins, with this sequence; whether somebody holds the mmap lock, and for which owner.
    Walk {
        mirror: u64,
        span: TraceSpan,
        seq: u64,
        locked: bool,
        owner: Option<u64>,
    },
    /// A page that it found, and whether that may be written.
    Found {
        mirror: u64,
        page: u64,
        frame: TraceFrame,
        writes: bool,
    },
    /// The walk is over, and went through if it is done.
    Walked {
        mirror: u64,
        done: bool,
    },
    /// A migration has collected its pages, which are said next; the device is the one that it goes to or comes from.
    Setup {
        proc: u64,
        span: TraceSpan,
        to_device: bool,
        owner: Option<u64>,
    },
    /// A page that it collected, and whether that may be written.
    From {
        page: u64,
        frame: TraceFrame,
        writes: bool,
    },
    /// All collected pages were said.
    Ready {
        proc: u64,
    },
    /// A page that has this new frame.
    Moved {
        page: u64,
        frame: TraceFrame,
    },
    /// A page that was given this frame, and does not have it.
    Stayed {
        page: u64,
        frame: TraceFrame,
    },
    /// All moved pages and all that stayed were said.
    Paged {
        proc: u64,
    },
    /// The migration is over.
    Finalize {
        proc: u64,
    },
    /// The driver sets an entry of its table.
    Set {
        mirror: u64,
        page: u64,
        frame: TraceFrame,
        right: TableRight,
    },
    /// It erases one.
    Erase {
        mirror: u64,
        page: u64,
    },
    /// The device went through the table for these pages, to read or to write.
    Use {
        mirror: u64,
        span: TraceSpan,
        writes: bool,
    },
    /// The first half of a device's addition to an exclusive page.
    Fetch {
        mirror: u64,
        page: u64,
    },
    /// The second half.
    Add {
        mirror: u64,
        page: u64,
    },
    /// A frame of a device is given out.
    Take {
        frame: TraceFrame,
    },
    /// It is free again.
    Free {
        frame: TraceFrame,
    },
    /// A device gives out no frame any more.
    Withdraw {
        device: u64,
    },
    /// Its memory is gone.
    Gone {
        device: u64,
    },
    /// A removal passes over a frame that another thread has locked.
    Pass {
        frame: TraceFrame,
    },
}

/// An event with the thread in which it was seen; in a history a thread is an actor.
#[derive(Clone, Copy, PartialEq, Eq)]
pub struct Traced {
    pub thread: u64,
    pub event: Event,
}

/// What a trace has, beside the kernel's own events: which functions of the driver were recorded.
#[derive(Clone, Copy, PartialEq, Eq)]
pub struct Recorded {
    pub set: bool,
    pub erase: bool,
    pub uses: bool,
    pub take: bool,
    pub free: bool,
    /// It is a trace of the model, which has two rules of its own.
    pub model: bool,
}
