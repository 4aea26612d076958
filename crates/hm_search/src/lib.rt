// A search through all states of a system to which its actors' turns lead, in any order, until a goal.
#![tactic(auto)]

mod buckets;
mod goal;
mod known;
mod search;
mod system;

pub use goal::{Goal, Nowhere};
pub use known::{Edge, Known, turns_to};
pub use search::{End, Explored, explore};
pub use system::{SearchKey, System};
