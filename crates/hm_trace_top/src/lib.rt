// Judges a trace of a driver: reads its events, and says of each rule of the protocol whether they keep it.
#![tactic(auto)]

mod call;
mod ended;
mod judged;
mod laws;
mod names;
mod origins;
mod process;
mod reading;
mod sentences;
mod text;
mod together;
mod words;

pub use call::judge;
pub use ended::{Ended, NAME, Outcome, USAGE};
pub use laws::{events_are_named, origins_are_before, rules_have_their_own, users_are_told};
pub use names::rule_name;
pub use process::program;
pub use reading::{Trace, Unread, read_trace};
pub use sentences::sentence;
pub use text::lines_text;
