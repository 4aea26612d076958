// Where an actor is within its operation.
use crate::{KeptAt, Kind, Why};
use hm_base::{Frame, MirrorId, Page, Place, Proc, Span};

/// The steps of a migration after its setup, in order (mm/migrate_device.c, and the driver's part in lib/test_hmm.c).
#[derive(Clone, Copy, PartialEq, Eq)]
pub enum MoveStep {
    /// The other mappings of each frame are frozen (`try_to_migrate`).
    FreezeOthers,
    /// A frame is taken for each page at the destination, and the contents are copied into it
    /// (`dmirror_migrate_alloc_and_copy`).
    TakeAndCopy,
    /// Each copy is committed, and each fresh page gets its frame (`migrate_vma_pages`).
    Commit,
    /// The driver sets the new frames in its own table (`dmirror_migrate_finalize_and_map`).
    SetOwnTable,
    /// Migration entries become mappings again (`migrate_vma_finalize`).
    Finish,
}

/// A page that a migration under way has frozen or found fresh: its frame, which a fresh page has not, the
/// frame that was taken for it, and whether it was committed or placed.
#[derive(Clone, Copy, PartialEq, Eq)]
pub struct Migrating {
    pub page: Page,
    pub source: Option<Frame>,
    pub dest: Option<Frame>,
    pub moved: bool,
}

/// What the world shows at an entry, before it: the entry's position, whether an interval overlapped the span
/// that it starts, the place that the step is about, the frame that it leaves unnamed, and the page that a
/// migration has come to.
#[derive(Clone, Copy)]
pub struct Seen {
    pub at: u64,
    pub overlapped: bool,
    pub place: Place,
    pub orphan: Option<Frame>,
    pub page: Option<Migrating>,
}

/// Whose touch a fault is: a piece of a CPU access, the walk of a look-up with the position and sequence of its
/// `begin`, or an access that wants the page alone.
#[derive(Clone, Copy, PartialEq, Eq)]
pub enum Touch {
    Cpu { piece: u32 },
    Walk { piece: u32, since: u64, seq: u64 },
    Sole,
}

/// What a guard does between its start, after which mirrors are told, and its end.
#[derive(Clone, Copy, PartialEq, Eq)]
pub enum Body {
    /// Nothing more.
    Nothing,
    /// Empty every page from the cursor on.
    Zap { next: u64 },
    /// Take the write right of every page from the cursor on.
    Narrow { next: u64 },
    /// Take the write right of each page and give the child its place; `half` is between the two.
    Fork { next: u64, half: bool },
    /// Freeze, or note as fresh, each page of a migration.
    Select { next: u64 },
    /// Put the taken frame in the place that was seen.
    Replace { over: Place, by: Frame },
    /// Give an exclusive page back to all.
    Restore,
    /// Freeze the first mapping of a frame that is to be emptied.
    Catch { frame: Frame },
    /// Freeze another mapping of the frame.
    Freeze { frame: Frame },
    /// Put the taken device frame under a fresh page.
    Fresh { by: Frame },
    /// Make the page this actor's alone.
    Seize { frame: Frame },
}

/// Where an actor is within its operation. Cursors count pages or frames, and may pass a span's end.
#[derive(Clone, Copy, PartialEq, Eq)]
pub enum Phase {
    /// Nothing was done.
    Begin,
    /// It holds the write lock, and nothing was tested.
    Locked,
    /// The guard over its span is next.
    Ready,
    /// Its answer is next, or for an addition the release of the lock.
    Answer,
    /// It waits until the interval has left the tree.
    Detaching {
        seq: u64,
    },
    /// A snapshot has come to this page.
    Pages {
        next: u64,
    },
    /// This piece of an access is next.
    Piece {
        piece: u32,
    },
    /// An addition has read this byte.
    Fetched {
        old: u8,
    },
    /// A look-up has begun, at this position, with this sequence.
    Begun {
        piece: u32,
        since: u64,
        seq: u64,
    },
    /// A fault decides.
    Decide {
        touch: Touch,
    },
    /// A look-up has noted this place, and commits next.
    Noted {
        piece: u32,
        since: u64,
        seq: u64,
        place: Place,
    },
    /// A fault has taken a frame, for a page that had this place.
    Taken {
        touch: Touch,
        by: Frame,
        over: Place,
    },
    /// The frame has its contents, and the guard is next.
    Armed {
        touch: Touch,
        by: Frame,
        over: Place,
    },
    /// An invalidation of the span is under way; the last mirror that was told.
    Guard {
        proc: Proc,
        span: Span,
        overlapped: bool,
        told: Option<MirrorId>,
        body: Body,
    },
    /// No place names the frame: it is dropped next.
    Drop {
        frame: Frame,
    },
    /// A frame is being emptied: its other mappings are frozen; `at` is what fails if no frame is free.
    Emptying {
        frame: Frame,
        at: KeptAt,
    },
    /// This eighth of a frame is copied next.
    Copy {
        from: Frame,
        to: Frame,
        part: u8,
    },
    /// The copy is committed next.
    Copied {
        from: Frame,
        to: Frame,
    },
    /// Migration entries of the frame become mappings again.
    Finish {
        from: Frame,
        to: Option<Frame>,
    },
    /// The destination is unlocked, or dropped if no place names it.
    Settle {
        frame: Frame,
    },
    /// No frame was free: the access or the removal fails.
    GiveUp {
        touch: Option<Touch>,
    },
    /// An eviction has come to this frame, and has emptied `emptied`.
    Frames {
        next: u64,
        emptied: u64,
    },
    /// A migration is at this step, from this page on.
    Moves {
        step: MoveStep,
        next: u64,
    },
    /// The page got a frame meanwhile, and the taken one is dropped.
    Lost {
        page: Page,
        by: Frame,
    },
}

/// What is due: an entry of this kind, or a wait.
#[derive(Drop)]
pub enum Next {
    Do(Kind),
    Wait(Why),
}
