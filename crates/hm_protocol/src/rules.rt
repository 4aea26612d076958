// The rules of docs/BROKEN.md that events decide, and what is said of each.

/// A rule. `copy-all` and `clear` are not here: no event has bytes.
#[derive(Clone, Copy, PartialEq, Eq)]
pub enum Rule {
    // look-ups
    Compare,
    CompareSequence,
    EntryRight,
    MmapLock,
    OwnDevice,
    BeginWaits,
    BeginFirst,
    // a mirror that is told
    SetSequence,
    Erase,
    EraseAll,
    EraseInTime,
    OwnEvents,
    OwnSequence,
    OwnEntries,
    // the table
    StopAtDetach,
    WriteEntry,
    DetachWaits,
    // migrations
    SetMoved,
    SetRight,
    SetUnlessInvalidated,
    DropLost,
    // devices
    TakeFromThere,
    EvictFirst,
    WithdrawFirst,
    WaitForLocked,
    // exclusive pages
    ExclusiveWaits,
    LookAgain,
}

/// A joint rule: to break it is to break one of several rules, and a trace may end before it is known which.
#[derive(Clone, Copy, PartialEq, Eq)]
pub enum Joint {
    /// A look-up is committed though its mirror was told since it began: `Compare` or `CompareSequence` is broken.
    StaleCommit,
    /// A mirror has answered, and has entries of the span that it had: a rule of erasing is broken.
    EntriesLeft,
    /// It has answered its own device's migration, and has another sequence: `SetSequence`, `OwnEvents` or
    /// `OwnSequence` is broken.
    OwnSequenceLeft,
}

/// What is said of a rule after a trace. Positions count events from 0.
#[derive(Clone, Copy, PartialEq, Eq)]
pub enum Verdict {
    /// It was put to the test so often, and kept.
    Kept(u64),
    /// Nothing puts it to the test.
    Unseen,
    /// The event here breaks one of some rules, and the trace does not say which.
    Maybe(u64),
    /// The event here breaks it, the first that does.
    Broken(u64),
}
