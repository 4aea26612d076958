// A copy, and what the calls about one answer.
use hm_base::{Actor, Bytes, Proc};

/// Bytes of a process as they were after a number of entries.
#[derive(Drop)]
pub struct Snapshot {
    pub proc: Proc,
    /// The address of the first byte.
    pub addr: u64,
    pub bytes: Bytes,
    /// How many entries the history had.
    pub at: u64,
}

/// What a try for a copy comes to.
#[derive(Drop)]
pub enum Taken {
    /// All the bytes were copied.
    Taken(Snapshot),
    /// Another pass had the turn.
    Busy,
    /// The value is halted.
    Halted,
    /// This actor has the process's mmap lock for writing.
    Locked(Actor),
    /// Nobody has, and some byte has no area.
    Unmapped,
}

/// Whether a copy is current.
#[derive(Clone, Copy)]
pub struct Still {
    /// The copy has the process's bytes after `count` entries.
    pub holds: bool,
    /// The length of the history that was loaded.
    pub count: u64,
    /// The length of the history just after the last entry that changed the process's memory, loaded after that.
    pub mark: u64,
}
