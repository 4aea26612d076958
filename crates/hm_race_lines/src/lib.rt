// The lines of an outcome's answers: their words, and which lines an operation of a script may end with.
#![tactic(auto)]

mod answers;
mod endings;
mod laws;

pub use answers::put_answer;
pub use endings::may_end_with;
pub use laws::lines_may_end;
