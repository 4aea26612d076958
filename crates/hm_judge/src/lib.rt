// Judges a report: whether it is legal, and else what is wrong with its first bad line, which parts of legality the
// entry of that line breaks, and what was due to each actor instead.
#![tactic(auto)]

mod answer;
mod asked;
mod behind;
mod call;
mod fault;
mod followed;
mod head;
mod judgement;
mod later;
mod later_text;
mod laws;
mod lines;
mod nearest;
mod process;
mod source;
mod standing;
mod text;
mod verdict;

pub use answer::{Answer, answer_on};
pub use asked::Asked;
pub use call::judge;
pub use followed::{Followed, Later};
pub use judgement::{BadReport, Fault, Judgement, LegalReport};
pub use later_text::answer_text;
pub use laws::users_are_told;
pub use process::{NAME, USAGE, program};
pub use source::answer_source;
pub use verdict::judge_bytes;
