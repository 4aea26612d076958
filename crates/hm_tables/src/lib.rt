// The page tables of all processes (mm/memory.c), and for each frame the pages that name it (mm/rmap.c).
#![tactic(auto)]

mod places;
mod pools;
mod tables;

pub use places::PageTest;
pub use tables::PageTables;
