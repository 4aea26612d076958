// The table of a mirror: what a device's page table has for the pages of a window of a process (`pt` of `struct
// dmirror`, lib/test_hmm.c).
#![tactic(auto)]

mod block;
mod entry;
mod table;

pub use entry::{MirrorEntry, Target};
pub use table::MirrorTable;
