// The way back from the text of a report: the entry that a line tells, and a whole report, be its history legal or not.
#![tactic(auto)]

mod entries;
mod entry;
mod kind_word;
mod kinds;
mod laws;
mod reader;
mod reading;
mod unfinished;
mod words;

pub use entries::read_entries;
pub use kind_word::KindWord;
pub use laws::{one_line, one_report, report_text};
pub use reader::{LineReader, Unfinished};
pub use reading::{WholeReport, read_report};
