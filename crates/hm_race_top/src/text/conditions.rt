// Conditions on the outcomes of a race: whether some, none or every outcome has these answers.

mod absent;
mod asking;
mod condition;
mod grammar;
mod judging;
mod laws;
mod lines;
mod question;
mod reading;
mod rulings;
mod wording;
mod words;

pub use absent::have_absent;
pub use asking::unasked;
pub use condition::{Condition, Literal, Quantifier};
pub use grammar::{BadCondition, parse};
pub use judging::{Verdict, judge, meets};
pub use laws::{
    holds_by_witness, listed_is_right, real_is_right, rulings_are_right, same_end, seen_is_right,
    strict_is_right, whole_is_right,
};
pub use lines::has_line;
pub use question::{BadQuestion, Question, questions_of};
pub use rulings::{Ruling, ruling_of, settles, strictly, summary};
pub use wording::{is_whole, rulings_text};
