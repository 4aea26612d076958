// The worked scripts (examples/worked/README.md), computed by the definitions: all that is said stands in proofs/,
// which tools/make_rows.py makes.
#![tactic(auto)]

/// Names the worked scripts that the check computes; it does nothing.
pub fn worked() {}
