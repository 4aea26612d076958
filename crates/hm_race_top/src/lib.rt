// The top call: a script is read, and all outcomes of its race are written, or what they say of conditions.
#![tactic(auto)]

mod asked;
mod call;
mod laws;
mod process;
pub mod run;
mod settling;
pub mod telling;
pub mod text;
mod ways;

pub use asked::MOST_STATES;
pub use call::races;
pub use laws::{
    all_is_listed, complete_is_all, drain_is_last, known_is_true, none_has_unasked, true_is_real,
    users_are_told, ways_are_outcomes,
};
pub use process::{NAME, USAGE, program};
pub use ways::has_drain;
