// The trace of a legal report: the events of its history, as hm_protocol defines them, in the language of traces. It is
// made in one pass over the history, by a world that goes on with it.
#![tactic(auto)]

mod call;
mod entries;
mod homes;
mod laws;
mod look_ups;
mod migrations;
mod process;
mod reasons;
mod tables;
mod tellings;
mod text;
mod words;

pub use call::write_trace_of;
pub use entries::project;
pub use laws::{the_trace_is_unblamed, users_are_told};
pub use process::{NAME, USAGE, program};
