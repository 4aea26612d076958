// What the outcomes that a search has found say of conditions, and whether one of them settles all.
ghost use Rattle.std.specs.Prelude.{◌≡◌};
ghost use Rattle.hm_race_top.specs.Text.Conditions.Rulings.{all_decided, fails_by, ruling_by, ruling_of, one_fails};
ghost use Rattle.hm_race_top.specs.Text.Conditions.Rulings.{one_has, settles, strictly};
ghost use Rattle.hm_race_top.specs.Text.Conditions.Rulings.{summary};
ghost use Rattle.hm_race_top.specs.Text.Laws.{lines_of};

use crate::text::block::OutcomeBlock;
use crate::text::conditions::condition::{Condition, Quantifier};
use crate::text::conditions::judging::{Verdict, is_witness, judge};
use crate::text::conditions::question::Question;

/// What is said of a condition.
#[derive(Clone, Copy)]
pub enum Ruling {
    /// It holds of the race.
    Holds,
    /// It fails.
    Fails,
    /// Neither is known: no outcome that was found decides it alone, and there may be others.
    Open,
}

/// What is said by a verdict on all outcomes, or on some of them.
fn ruling_by(verdict: &Verdict, whole: bool) -> Ruling
    ensures { result ≡ ruling_by verdict.now.witness verdict.now.holds whole }
{
    if verdict.witness.is_none() && !whole {
        return Ruling::Open;
    }
    if verdict.holds {
        Ruling::Holds
    } else {
        Ruling::Fails
    }
}

/// What these outcomes say of the condition: all that there are, or some of them.
pub fn ruling_of(condition: &Condition, blocks: &[OutcomeBlock], whole: bool) -> Ruling
    ensures { result ≡ ruling_of condition.now (lines_of blocks.now) whole }
{
    ruling_by(&judge(condition, blocks), whole)
}

/// Whether this is said of one of the conditions.
fn one_has(questions: &[Question], blocks: &[OutcomeBlock], whole: bool, wanted: Ruling) -> bool
    ensures { result ≡ one_has questions.now (lines_of blocks.now) whole wanted }
{
    for question in questions {
        if ruling_of(&question.condition, blocks, whole) == wanted {
            return true;
        }
    }
    false
}

/// What is said of all conditions together: that one fails, or else that one is open, or that all hold.
pub fn summary(questions: &[Question], blocks: &[OutcomeBlock], whole: bool) -> Ruling
    ensures { result ≡ summary questions.now (lines_of blocks.now) whole }
{
    if one_has(questions, blocks, whole, Ruling::Fails) {
        return Ruling::Fails;
    }
    if one_has(questions, blocks, whole, Ruling::Open) {
        return Ruling::Open;
    }
    Ruling::Holds
}

/// The same with `--strict`: a line that no outcome has, though its condition does not say so itself, counts as a
/// condition that fails. If not all outcomes are known, it is open whether one has it.
pub fn strictly(ruling: Ruling, absent: bool, whole: bool) -> Ruling
    ensures { result ≡ strictly ruling absent whole }
{
    match ruling {
        Ruling::Holds if absent && whole => Ruling::Fails,
        Ruling::Holds if absent => Ruling::Open,
        Ruling::Holds | Ruling::Fails | Ruling::Open => ruling,
    }
}

/// Whether the condition fails by an outcome of these lines alone.
fn fails_by(lines: &[u8], condition: &Condition) -> bool
    ensures { result ≡ fails_by lines.now condition.now }
{
    match condition.quantifier {
        Quantifier::Exists => false,
        Quantifier::Never | Quantifier::Always => is_witness(condition, lines),
    }
}

/// Whether one of the conditions fails by an outcome of these lines alone.
fn one_fails(questions: &[Question], lines: &[u8]) -> bool
    ensures { result ≡ one_fails questions.now lines.now }
{
    for question in questions {
        if fails_by(lines, &question.condition) {
            return true;
        }
    }
    false
}

/// Whether an outcome of these lines decides each of the conditions alone.
fn all_decided(questions: &[Question], lines: &[u8]) -> bool
    ensures { result ≡ all_decided questions.now lines.now }
{
    for question in questions {
        if !is_witness(&question.condition, lines) {
            return false;
        }
    }
    true
}

/// Whether an outcome of these lines settles the conditions, whatever the others are: one of them fails by it, or it
/// decides all of them. If there is no condition, nothing is to be settled.
pub fn settles(questions: &[Question], lines: &[u8]) -> bool
    ensures { result ≡ settles questions.now lines.now }
{
    match questions {
        [] => false,
        _ => one_fails(questions, lines) || all_decided(questions, lines),
    }
}
