// The top call: what the words after the program's name ask for.
#![tactic(auto)]

mod advise;
mod check;
mod command;
mod ended;
mod generate;
mod laws;
mod output;
mod peek;
mod process;
mod replay;
mod schedule;
mod threads;
mod top;
mod upgrade;
mod why;

pub use command::{Command, PeekedBytes};
pub use ended::Ended;
pub use laws::{calls_answer_so, users_are_told};
pub use process::{NAME, USAGE, program};
pub use top::{run, run_alone};
