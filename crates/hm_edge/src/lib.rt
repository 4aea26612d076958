// What every program does at its ends: the words after its name, the script that it reads, its status, and what it says
// of that on standard error.
#![tactic(auto)]

mod ending;
mod input;
mod messages;
mod process;
mod status;
mod words;

pub use ending::finish;
pub use input::{Input, read_all, read_report, read_script};
pub use messages::message;
pub use process::{Call, program};
pub use status::{RaceEnd, Status};
pub use words::words_after_name;
