// Reverse maps: which page table entries name a frame (mm/rmap.c, `rmap_walk`).
#![tactic(auto)]

mod maps;
mod uses;

pub use maps::RevMaps;
pub use uses::Use;
