// A small value to try the turn and the workers with.
#![tactic(auto)]

pub mod toy;
