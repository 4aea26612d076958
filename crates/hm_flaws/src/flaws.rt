// Flaws of a driver, and some of the memory manager: each is one thing that is done otherwise than is due, or left out.

/// Which flaw a driver has; the right driver has none. With one of the memory manager's, the driver is a right one.
#[derive(Clone, Copy)]
pub enum Flaw {
    NoFlaw,
    // look-ups
    /// It commits without comparing sequences.
    NotCompared,
    /// In place of that it asks whether its interval is being invalidated at that moment.
    ComparedNow,
    /// It sets each page for writes, whatever right its place has.
    AllForWrites,
    /// It walks without the mmap lock.
    WalksUnlocked,
    /// It takes another device's memory for its own.
    AnyDevice,
    /// It begins while its interval is being invalidated.
    BegunAnyway,
    /// It reads the sequence of its interval after the walk, not before.
    BegunLast,
    // a mirror that is told
    /// It leaves the interval's sequence as it was.
    SequenceLeft,
    /// It erases nothing.
    TableLeft,
    /// It erases the first page alone.
    FirstErased,
    /// It erases only at the end of the invalidation.
    ErasedAtEnd,
    /// It does neither at an invalidation for a migration of its own device.
    OwnIgnored,
    /// It does neither then, but erases the entries of each frame that is copied.
    OwnSequenceLeft,
    /// It sets the sequence, but erases only the entries of each frame that is copied.
    OwnTableLeft,
    // its table
    /// It goes on with it after the detach.
    UsedDetached,
    /// It writes through an entry for reads.
    ReadsWritten,
    /// It detaches its mirror while that is being invalidated.
    DetachedAtOnce,
    // migrations
    /// It copies seven eighths of a frame.
    PartCopied,
    /// It takes frames of a device without clearing them.
    NotCleared,
    /// It takes a lost page for one that moved.
    LostAsMoved,
    /// It sets each page for writes in its own table.
    OwnForWrites,
    /// It sets each page that it moved, though its interval is being invalidated.
    OwnAnyway,
    /// It does not drop the frame of a lost page.
    LostHeld,
    // removals
    /// It takes frames of a withdrawn device.
    WithdrawnTaken,
    /// It removes a device that was neither withdrawn nor emptied.
    RemovedAtOnce,
    /// It empties a device without withdrawing it first.
    NotWithdrawn,
    /// It passes over a frame that another actor has locked.
    LockedPassed,
    // exclusive pages
    /// It sets a page that its actor has alone, though its interval is being invalidated.
    SoleAnyway,
    /// It adds to the byte, though its actor may have lost the page since it was fetched.
    AddedAnyway,
    // the memory manager's own rules, which are left out for everybody
    /// An invalidation changes places first, and tells mirrors at its end.
    ToldLast,
    /// The end of an invalidation makes the sequence even, though another is under way.
    EndedAtOnce,
    /// A fork gives the child the parent's right, and leaves the parent that right.
    ForkedWhole,
    /// A fault replaces a page without a second look at it.
    ReplacedAnyway,
    /// The CPU accesses a device's memory.
    DeviceAccessed,
    /// A migration freezes no mapping of a frame but the first.
    OthersLeft,
    /// A migration freezes the mappings of a frame, the first among them, only after it has copied the frame.
    FrozenLate,
    /// A migration places a fresh page without a second look at it.
    FreshAnyway,
    /// A migration places a fresh page for writes, whatever right its area has.
    FreshForWrites,
    /// A page that comes back is for writes, whatever right it had.
    BackForWrites,
    /// A migration takes a page, and an eviction a frame, that another actor has locked.
    LockedTaken,
    /// A page that was not moved stays a migration entry.
    NotPutBack,
    /// At the end of a migration a frame is done with, though no place names it any more.
    UnnamedHeld,
}
