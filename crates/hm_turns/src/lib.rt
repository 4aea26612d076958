// One value for many threads: whoever has its turn makes a step of it, and every pass tells what it has seen.
#![tactic(auto)]

mod known;
pub mod laws;
mod looks;
mod pass;
mod plays;
mod receipt;
mod rule;
mod stepped;
mod turn;
mod turns;

pub use looks::{Look, Looked, Looks};
pub use pass::Pass;
pub use receipt::Receipt;
pub use stepped::Stepped;
pub use turn::Turn;
pub use turns::Turns;
