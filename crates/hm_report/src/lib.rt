// The texts that go out: the report of a script and a history, and its summary.
#![tactic(auto)]

mod buffer;
mod digits;
mod ended;
mod entry_text;
mod kinds;
mod laws;
mod numerals;
mod outlet;
mod report;
mod shapes;
mod totals;
mod words;
mod written;

pub use buffer::Buffer;
pub use ended::{op_count, operations_ended};
pub use entry_text::{add_entry, add_tail};
pub use kinds::{put_front, put_head, put_interval};
pub use laws::ends_are_counted;
pub use numerals::{digit, put_decimal};
pub use outlet::{Stop, send_on, write_all, write_last};
pub use report::{put_end, put_unfinished_line, write_report, write_text};
pub use totals::summary;
pub use written::Written;
