// What is asked of the outcomes of a race.
use hm_base::{ListOf, Text};

/// Of how many outcomes the body of a condition is to hold.
#[derive(Clone, Copy)]
pub enum Quantifier {
    /// Of one at least.
    Exists,
    /// Of none.
    Never,
    /// Of all.
    Always,
}

/// An answer that an outcome has, or has not.
#[derive(Drop)]
pub struct Literal {
    pub wanted: bool,
    /// How often the outcome has it; at least once if this is none.
    pub count: Option<u64>,
    /// The answer's line as it stands in an outcome, without its line feed.
    pub line: Text,
}

/// A question on the outcomes of a race.
#[derive(Drop)]
pub struct Condition {
    pub quantifier: Quantifier,
    /// Alternatives, each of literals that hold together.
    pub body: ListOf<ListOf<Literal>>,
}
