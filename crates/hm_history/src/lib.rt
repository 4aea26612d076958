// Entries, histories, and the phases of an operation; in specs/ what they mean.
#![tactic(auto)]

mod history;
pub mod laws;
pub mod locks;
pub mod phases;

pub use history::History;
use hm_base::{
    Actor, Bytes, Cause, Dev, Frame, MirrorId, NoMemory, Page, Place, Proc, Rights, Span,
};
use thiserror::Error;

/// Whose access it is: a process's by the CPU, or a mirror's.
#[derive(Clone, Copy, PartialEq, Eq)]
pub enum Who {
    Cpu(Proc),
    Mirror(MirrorId),
}

/// What an entry of a mirror table allows.
#[derive(Clone, Copy, PartialEq, Eq)]
pub enum TableRight {
    Read,
    Write,
    /// One actor's reads and writes, of a page that it has alone.
    Sole,
}

/// What was kept where it is.
#[derive(Clone, Copy, PartialEq, Eq)]
pub enum KeptAt {
    Page(Page),
    Frame(Frame),
}

/// Why it was kept.
#[derive(Clone, Copy)]
pub enum KeptWhy {
    /// The page is not where it would be migrated from, or has no area.
    NotHere,
    /// Another actor has the frame locked.
    LockedBy(Actor),
    /// No frame is free in the pool that it would go to.
    NoFrame,
    /// The driver passes it over.
    Skipped,
    /// The page got a frame meanwhile.
    Lost,
}

/// What an entry tells: one atomic event. Addresses and lengths count bytes, positions count entries from 0.
#[derive(Drop)]
pub enum Kind {
    /// The bytes that a piece of an access read.
    Loaded {
        who: Who,
        addr: u64,
        bytes: Bytes,
    },
    /// The bytes that a piece of an access wrote.
    Stored {
        who: Who,
        addr: u64,
        bytes: Bytes,
    },
    /// A piece of an access failed, for one of the first four causes.
    Failed {
        who: Who,
        addr: u64,
        len: u64,
        cause: Cause,
    },
    /// Ends `map`: the span and the right of the new area.
    Mapped {
        proc: Proc,
        span: Span,
        rights: Rights,
    },
    /// Ends `unmap`.
    Unmapped {
        proc: Proc,
        span: Span,
    },
    /// Ends `protect`.
    Protected {
        proc: Proc,
        span: Span,
        rights: Rights,
    },
    /// Ends `fork`: the child is there from now on.
    Forked {
        parent: Proc,
        child: Proc,
    },
    /// Ends `exit`: the process is not there from now on.
    Exited(Proc),
    /// Ends `attach`: the mirror with its device, process and window, and its interval's sequence.
    Attached {
        mirror: MirrorId,
        dev: Dev,
        proc: Proc,
        span: Span,
        seq: u64,
    },
    /// The mirror is no longer attached, and its interval is removed when this sequence ends.
    Detaching {
        mirror: MirrorId,
        seq: u64,
    },
    /// Ends `detach`.
    Detached(MirrorId),
    /// Ends an operation that was refused.
    Refused(Cause),
    /// Ends a migration, with the number of pages that were moved.
    Migrated(u64),
    /// A snapshot's code for a page.
    Seen {
        mirror: MirrorId,
        page: Page,
        code: u8,
    },
    /// Ends `evict`, with the number of frames that were emptied.
    Evicted(u64),
    /// Ends `remove`.
    Removed(Dev),
    /// The process's mmap lock is taken for reading (`mmap_read_lock`).
    Rlock(Proc),
    /// The mmap lock that was taken for reading is released.
    Runlock(Proc),
    /// The process's mmap lock is taken for writing (`mmap_write_lock`).
    Wlock(Proc),
    /// The number of a child is given away.
    Named {
        parent: Proc,
        child: Proc,
    },
    /// The frame is held from now on, filled with zeros and locked by its taker.
    Take(Frame),
    /// The frame is free from now on.
    Drop(Frame),
    /// The page of the process has this place from now on.
    Place {
        proc: Proc,
        page: Page,
        place: Place,
    },
    /// An invalidation of the span begins; the process's sequence afterwards (`mn_itree_inv_start_range`).
    Start {
        proc: Proc,
        span: Span,
        seq: u64,
    },
    /// The mirror is told of the invalidation, and its table erased in the span; its interval's sequence.
    Told {
        mirror: MirrorId,
        span: Span,
        seq: u64,
    },
    /// The invalidation ends; the process's sequence afterwards (`mn_itree_inv_end`).
    End {
        proc: Proc,
        span: Span,
        seq: u64,
    },
    /// A look-up begins with its interval's sequence (`mmu_interval_read_begin`).
    Begin {
        mirror: MirrorId,
        seq: u64,
    },
    /// The look-up is given up, since its interval was told (`mmu_interval_read_retry`).
    Retry(MirrorId),
    /// The mirror's table has this frame for the page, none for the zero page, with this right. `since` is the position
    /// of the look-up's begin, or this entry's own after a migration or for an exclusive page.
    Set {
        mirror: MirrorId,
        page: Page,
        target: Option<Frame>,
        right: TableRight,
        since: u64,
    },
    /// An untouched page, or the zero page, was selected for migration.
    Fresh {
        proc: Proc,
        page: Page,
    },
    /// One eighth of a frame was copied, or all of it (a copy on write).
    Copied {
        from: Frame,
        to: Frame,
        part: Option<u8>,
    },
    /// The contents of the first frame are the second's from now on.
    Committed {
        from: Frame,
        to: Frame,
    },
    /// A page or a frame stays where it is, and why.
    Kept {
        at: KeptAt,
        why: KeptWhy,
    },
    /// The frame is no longer locked.
    Done(Frame),
    /// No frame of the device is taken from now on.
    Withdrawn(Dev),
    /// Ends `exclusive`.
    Excluded {
        mirror: MirrorId,
        page: Page,
    },
    /// The byte that an addition read.
    Fetched {
        mirror: MirrorId,
        addr: u64,
        bytes: Bytes,
    },
    /// Ends `dadd`: the byte that was read, and the byte that was written.
    Added {
        mirror: MirrorId,
        addr: u64,
        read: u8,
        written: u8,
    },
}

/// One entry of a history: who added it, and what it tells.
#[derive(Drop)]
pub struct Entry {
    pub actor: Actor,
    pub kind: Kind,
}

/// Why an actor waits.
#[derive(Clone, Copy, PartialEq, Eq)]
pub enum Why {
    /// That actor holds the process's mmap lock.
    MapLock(Proc, Actor),
    /// The page is being migrated.
    Moving(Proc, Page),
    /// That actor has the frame locked.
    FrameLocked(Frame, Actor),
    /// The mirror's interval is being invalidated, at this sequence.
    Invalidating(MirrorId, u64),
}

/// What a turn comes to: the entry that is due, or why there is none.
#[derive(Drop)]
pub enum Progress {
    /// It added this entry.
    Did(Entry),
    /// It added none.
    Waiting(Why),
    /// The actor has no operation left.
    Idle,
}

/// The history takes no more; it has this number of entries.
#[derive(Clone, Copy)]
pub struct Full(pub u64);

/// Why no step was made: the history, with this number of entries, takes no more, or memory ran out.
#[derive(Clone, Copy, PartialEq, Eq, Debug, Error)]
pub enum StepError {
    #[error("the history is full, with {0} entries")]
    Full(u64),
    #[error("out of memory")]
    NoMemory,
}

/// Why an entry was not applied to a state: it may not follow, or memory ran out.
#[derive(Clone, Copy, Debug, Error)]
pub enum FoldError {
    #[error("the entry may not follow those before it")]
    NotLegal,
    #[error("out of memory")]
    NoMemory,
}
