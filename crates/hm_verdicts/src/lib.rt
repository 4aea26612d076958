// What is known of a driver after the events of a trace, and the verdict on each rule of the protocol.
#![tactic(auto)]

mod all_calls;
mod all_looks;
mod asking;
mod blaming;
mod calls;
mod counting;
mod ending;
mod failed;
mod flags;
mod frames;
mod insides;
mod judge;
mod keeping;
mod kept_calls;
mod knowledge;
mod looking;
mod looks;
mod moves;
mod moving;
mod newest_first;
mod note;
mod noting;
mod noting_calls;
mod noting_looks;
mod noting_moves;
mod numbered;
mod of_threads;
mod over;
mod pages;
mod saying;
mod slots;
mod suspecting;
mod table;
mod verdicts;

pub use failed::Failed;
pub use judge::{Judge, all_rules};
pub use verdicts::verdicts_of;
