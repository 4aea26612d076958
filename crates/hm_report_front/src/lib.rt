// The lines of a report: the script at its front, whether a line is that of an entry, and the lines that texts share.
#![tactic(auto)]

mod front;
mod head;
mod line_of;
mod lines;

pub use head::{BadLine, Head, read_head};
pub use line_of::{is_line_of, strip_front};
pub use lines::first_difference;
