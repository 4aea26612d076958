// The parts of legality.

/// A part of legality, beside that an entry is due.
#[derive(Clone, Copy, PartialEq, Eq)]
pub enum Part {
    /// An access answers the plain bytes, and fails only for a cause.
    Answers,
    /// It goes through a place or table entry that allows it; frames and places are used rightly.
    Places,
    /// It fails for want of a frame only if none was free.
    Frames,
    /// Sequences are as invalidations and look-ups leave them.
    Sequences,
    /// A table entry is used only if its mirror was not told of the page.
    Untold,
    /// A place takes something away only in an invalidation in which all were told.
    Guarded,
    /// The reason holds for which something is kept.
    Kept,
}
