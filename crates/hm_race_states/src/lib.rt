// The states of a race as values that a search copies, changes by one entry, and compares: without positions and
// absolute sequences. Copies share their parts.
#![tactic(auto)]

pub mod after;
mod blur;
mod buckets;
mod came;
pub mod compare;
pub mod here;
mod joined;
pub mod key;
mod listed;
pub mod memory;
pub mod mirrors;
mod next;
mod parts;
mod same_phases;
pub mod same_seqs;
mod same_spaces;
pub mod same_tasks;
mod seen;
pub mod shared_phases;
pub mod shared_records;
pub mod small;
pub mod spaces;
pub mod start;
pub mod state;
pub mod tasks;
