// The parts of legality in a race of a driver with a flaw: what they ask of the entries so far beside the state, as
// values that a search can copy and compare; and which of them an entry breaks first.
#![tactic(auto)]

ghost use Rattle.hm_flaw_parts.specs.Marks.{MarksRecall};

mod judged;
mod marks;
pub mod races;
mod told_spans;
mod values;

pub use judged::{Judging, first_unmet};
pub use marks::Marks;
pub use told_spans::{ToldSpan, ToldSpans};
pub use values::{Position, SetMark};

/// What the parts recall of a history is given by its state and its marks, entry by entry.
pub fn marks_recall()
    ensures { MarksRecall }
{}
