// The language of traces: the text of the events that were seen of a driver, read a line at a time, and written.
#![tactic(auto)]

mod event;
mod event_word;
mod fields;
mod laws;
mod line;
mod reader;
mod words;
mod writing;

pub use laws::{
    a_bad_line_stays, one_trace, parts_are_read, what_is_read_is_written,
    what_is_refused_is_no_line, what_is_written_is_read,
};
pub use line::{TraceLine, put_line, read_line};
pub use reader::{Fault, Numbers, Progress, Refused, TraceReader};
