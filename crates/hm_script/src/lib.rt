// The text of a script, read and written.
#![tactic(auto)]

mod generator;
mod keyword;
mod laws;
mod line_words;
mod lines;
mod numeral;
mod op_line;
mod part;
mod printing;
mod reader;
mod reason;
mod script;
mod version;
mod words;

pub use generator::generate;
pub use keyword::OpWord;
pub use laws::{is_trial, one_text, upgraded_text, whole_grammar};
pub use line_words::LineWords;
pub use lines::cut_line;
pub use numeral::{address, number};
pub use printing::{extend_hex, print};
pub use reason::{Reason, Refused, ScriptError};
pub use script::{parse, parse_words};
pub use version::upgrade;
pub use words::{ALL_WORDS, Words};
