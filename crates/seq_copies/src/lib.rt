// Copies of a process's memory that are checked later, without the turn: load a count, copy, and see whether it still
// holds (Documentation/locking/seqlock.rst, and `mmu_interval_read_begin` with its retry in mm/mmu_notifier.c).
#![tactic(auto)]

mod answers;
mod copies;

pub use answers::{Snapshot, Still, Taken};
pub use copies::{still, take_copy};
