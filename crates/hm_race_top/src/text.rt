// The outcomes of a race as text: for each the answers of the actors and a schedule that leads to it, all of them as a
// table, and conditions on them.

mod answers;
mod block;
mod conditions;
mod decimal;
mod laws;
mod outcomes;
mod padded;
mod schedule;
mod table;
mod turned;

pub use answers::answer_lines;
pub use block::{OutcomeBlock, add_block};
pub use conditions::{
    BadCondition, BadQuestion, Condition, Literal, Quantifier, Question, Ruling, Verdict, has_line,
    have_absent, holds_by_witness, is_whole, judge, listed_is_right, meets, parse, questions_of,
    real_is_right, ruling_of, rulings_are_right, rulings_text, same_end, seen_is_right, settles,
    strict_is_right, strictly, summary, unasked, whole_is_right,
};
pub use decimal::add_decimal;
pub use laws::{
    blocks_are_found, none_twice, points_are_led, same_due, same_legal, turns_come_last,
    turns_lead, turns_stand, ways_are_shown,
};
pub use outcomes::{add_outcome, add_states, outcomes_text};
pub use padded::add_padded;
pub use table::table_text;
pub use turned::text_with_turns;
