// The lines of conditions that are in no outcome.
ghost use Rattle.std.specs.Prelude.{◌≡◌};
ghost use Rattle.hm_race_top.specs.Text.Conditions.Absent as spec;
ghost use Rattle.hm_race_top.specs.Text.Laws.{lines_of};

use crate::text::block::OutcomeBlock;
use crate::text::conditions::condition::{Condition, Literal, Quantifier};
use crate::text::conditions::lines::has_line;
use crate::text::conditions::question::Question;

/// Whether one of the outcomes has the line.
pub(crate) fn is_in(blocks: &[OutcomeBlock], line: &[u8]) -> bool
    ensures { result ≡ spec.is_in (lines_of blocks.now) line.now }
{
    for block in blocks {
        if has_line(block.lines.as_slice(), line) {
            return true;
        }
    }
    false
}

/// Whether the condition says itself that the line of this literal, which is one of these, is in no outcome, and not
/// how often it is there: `none`, of an alternative that has no other line; or `every`, with `not` before the line, of
/// a body that has no other alternative.
fn denies(condition: &Condition, literals: &[Literal], literal: &Literal) -> bool
    ensures { result ≡ spec.denies condition.now literals.now literal.now }
{
    if literal.count.is_some() {
        return false;
    }
    match condition.quantifier {
        Quantifier::Exists => false,
        Quantifier::Never => literal.wanted && literals.len() == 1,
        Quantifier::Always => !literal.wanted && condition.body.len() == 1,
    }
}

/// Whether none of the outcomes has the line of this literal, which is one of these, and the condition does not say so
/// itself.
fn is_absent(
    condition: &Condition,
    blocks: &[OutcomeBlock],
    literals: &[Literal],
    literal: &Literal,
) -> bool
    ensures { result ≡ spec.is_absent condition.now (lines_of blocks.now) literals.now literal.now }
{
    !denies(condition, literals, literal) && !is_in(blocks, literal.line.as_slice())
}

/// Whether that is so of a line of this alternative.
fn some_absent(condition: &Condition, blocks: &[OutcomeBlock], literals: &[Literal]) -> bool
    ensures { result ≡ spec.some_absent condition.now (lines_of blocks.now) literals.now }
{
    for literal in literals {
        if is_absent(condition, blocks, literals, literal) {
            return true;
        }
    }
    false
}

/// Whether it is so of a line of the condition.
fn has_absent(condition: &Condition, blocks: &[OutcomeBlock]) -> bool
    ensures { result ≡ spec.has_absent condition.now (lines_of blocks.now) }
{
    for literals in condition.body.as_slice() {
        if some_absent(condition, blocks, literals.as_slice()) {
            return true;
        }
    }
    false
}

/// Whether it is so of a line of one of the conditions.
pub fn have_absent(questions: &[Question], blocks: &[OutcomeBlock]) -> bool
    ensures { result ≡ spec.have_absent questions.now (lines_of blocks.now) }
{
    for question in questions {
        if has_absent(&question.condition, blocks) {
            return true;
        }
    }
    false
}
