// The checker of reports: bytes are a legal report, or have a first line that no legal report has there.
#![tactic(auto)]

mod actor;
mod entries;
mod judging;
mod tail;
mod taken;
mod verdict;
mod waiting;

pub use judging::check_source;
pub use tail::put_tail;
pub use taken::{Taken, put_ending, take_all};
pub use verdict::{Report, Verdict, check};
pub use waiting::{put_frame, put_why};
