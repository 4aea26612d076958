// The folds over a history, for programs that read histories: each keeps one part of the state, entry by entry, and
// refuses an entry after which there is no next state.
#![tactic(auto)]

mod been;
mod commits;
pub mod guards;
mod held;
mod held_frames;
pub mod intervals;
pub mod memory;
pub mod mirror_tables;
mod numbers;
pub mod place_tests;
mod places;
mod plain;
mod sequences;
pub mod shares;
mod stored;
mod table_map;
mod windows;

pub use places::PlaceState;
pub use plain::{PlainState, is_cause};
pub use sequences::SeqState;
