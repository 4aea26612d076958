// The keys of the states of a race: what of a state an outcome can depend on, kept entry by entry.
#![tactic(auto)]

pub mod answers;
pub mod device_marks;
pub mod frame_locks;
mod free_frames;
pub mod held_frames;
pub mod map_locks;
pub mod page_places;
pub mod questions;
pub mod shared_answers;
pub mod sparse;
pub mod table_entries;
