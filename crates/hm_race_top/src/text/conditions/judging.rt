// Whether an outcome meets a condition, and what all outcomes say of it.
ghost use Rattle.std.specs.Prelude.{◌≡◌};
ghost use Rattle.hm_race_top.specs.Text.Conditions.Meets.{all_hold, holds_in, is_there, meets};
ghost use Rattle.hm_race_top.specs.Text.Conditions.Judged.{by_witness, holds, is_witness, witness};
ghost use Rattle.hm_race_top.specs.Text.Laws.{lines_of};

use crate::text::block::OutcomeBlock;
use crate::text::conditions::condition::{Condition, Literal, Quantifier};
use crate::text::conditions::laws::holds_by_witness;
use crate::text::conditions::lines::{has_line, line_count};

/// What outcomes say of a condition.
#[derive(Clone, Copy)]
pub struct Verdict {
    pub holds: bool,
    /// The index of the first outcome that decides it alone, if one does: it shows that a condition of `some` holds, or
    /// that one of `none` or `every` fails.
    pub witness: Option<usize>,
}

/// Whether an outcome of these lines has that of the literal, so often as it asks for.
fn is_there(literal: &Literal, lines: &[u8]) -> bool
    ensures { result ≡ is_there lines.now literal.now }
{
    match literal.count {
        None => has_line(lines, literal.line.as_slice()),
        Some(n) => line_count(lines, literal.line.as_slice()) == n,
    }
}

/// Whether the literal holds of an outcome of these lines.
fn holds_in(literal: &Literal, lines: &[u8]) -> bool
    ensures { result ≡ holds_in lines.now literal.now }
{
    let has = is_there(literal, lines);
    if literal.wanted { has } else { !has }
}

/// Whether all of the literals hold.
fn all_hold(literals: &[Literal], lines: &[u8]) -> bool
    ensures { result ≡ all_hold lines.now literals.now }
{
    for literal in literals {
        if !holds_in(literal, lines) {
            return false;
        }
    }
    true
}

/// Whether the body of the condition holds of an outcome of these lines.
pub fn meets(condition: &Condition, lines: &[u8]) -> bool
    ensures { result ≡ meets condition.now.body lines.now }
{
    for literals in condition.body.as_slice() {
        if all_hold(literals.as_slice(), lines) {
            return true;
        }
    }
    false
}

/// Whether an outcome of these lines decides the condition alone.
pub(crate) fn is_witness(condition: &Condition, lines: &[u8]) -> bool
    ensures { result ≡ is_witness condition.now lines.now }
{
    match condition.quantifier {
        Quantifier::Exists | Quantifier::Never => meets(condition, lines),
        Quantifier::Always => !meets(condition, lines),
    }
}

/// The index of the first outcome that decides the condition alone.
fn witness(condition: &Condition, blocks: &[OutcomeBlock]) -> Option<usize>
    ensures { result ≡ witness condition.now (lines_of blocks.now) }
{
    for at in 0..blocks.len() {
        if is_witness(condition, blocks[at].lines.as_slice()) {
            return Some(at);
        }
    }
    None
}

/// Whether the condition holds, by the witness that there is or is not.
fn by_witness(quantifier: Quantifier, witness: Option<usize>) -> bool
    ensures { result ≡ by_witness quantifier witness }
{
    match quantifier {
        Quantifier::Exists => witness.is_some(),
        Quantifier::Never | Quantifier::Always => witness.is_none(),
    }
}

/// What these outcomes say of the condition. If they are not all that there are, it is sure only with a witness.
pub fn judge(condition: &Condition, blocks: &[OutcomeBlock]) -> Verdict
    ensures holds { result.holds ≡ holds condition.now (lines_of blocks.now) }
    ensures witness { result.witness ≡ witness condition.now (lines_of blocks.now) }
{
    holds_by_witness();
    let witness = witness(condition, blocks);
    Verdict {
        holds: by_witness(condition.quantifier, witness),
        witness,
    }
}
