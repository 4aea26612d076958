// The answers of `try_turn`.
use hm_history::{Progress, StepError};

/// What a try for the turn comes to.
#[derive(Drop)]
pub enum Turn {
    /// Another pass had the turn, and no step was made.
    Busy,
    /// A step was made, and came to this.
    Did(Progress),
    /// A step failed, and the value is halted from now on.
    Stopped(StepError),
    /// The value was halted before, and no step was made.
    Halted,
}
