// What a seat at the table knows. Values of these types are never made: clauses speak of them.
use hm_base::{Proc, Script};
use hm_history::{Entry, StepError};
use std::collections::LinkedList;

/// A mark that was loaded: the length of the history just after the last entry that touches the process, if
/// the entries from `upto` on are not looked at.
pub struct Marked {
    pub proc: Proc,
    pub at: u64,
    pub upto: u64,
}

/// An entry that was added with a pass, and its position in the history.
pub struct Own {
    pub at: u64,
    pub entry: Entry,
}

/// What a seat knows.
pub struct Knowledge {
    pub script: Script,
    /// The history as far as it was seen.
    pub list: LinkedList<Entry>,
    /// The list of a seat that was joined, until the two are compared.
    pub other: LinkedList<Entry>,
    /// The entries that were added with it.
    pub own: LinkedList<Own>,
    pub shares: u64,
    /// The greatest published length that was loaded.
    pub loaded: u64,
    pub marks: LinkedList<Marked>,
    /// How often the turn was found held.
    pub busy: u64,
    /// How often a step that was made with it halted the value.
    pub stops: u64,
    /// Why the value is halted, if it was told so.
    pub told: Option<StepError>,
    /// The list is longer than the published length.
    pub ahead: bool,
    /// The marks are right for its list.
    pub marked: bool,
    /// It has the turn.
    pub holds: bool,
}
