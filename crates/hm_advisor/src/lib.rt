// Where pages should live: how often each page of each mirror's window was accessed by the CPU and by the device, and
// which pages should move.
#![tactic(auto)]

mod accesses;
mod advice;
mod counts;
mod tallies;
mod tally;
mod text;
mod windows;

pub use advice::{Advice, Move, MoveList, advise};
pub use counts::{Count, CountList, counts_of};
pub use text::{advice_text, write_advice};
