// The text of what is said of conditions.
ghost use Rattle.std.specs.Prelude.{◌≡◌, ◌∷◌, ◌++◌, [], IfOk, OnOk};
ghost use Rattle.hm_race_top.specs.Text.Conditions.Rulings.{ruling_of};
ghost use Rattle.hm_race_top.specs.Text.Conditions.Judged.{witness};
ghost use Rattle.hm_race_top.specs.Text.Conditions.Texts.{absent_text, absents_text, all_absents_text};
ghost use Rattle.hm_race_top.specs.Text.Conditions.Texts.{ruling_word, rulings_text, is_whole, question_line};
ghost use Rattle.hm_race_top.specs.Text.Conditions.Texts.{question_text};
ghost use Rattle.hm_race_top.specs.Text.Conditions.Texts.{questions_text, witness_text};
ghost use Rattle.hm_race_top.specs.Text.Laws.{lines_of};

use crate::text::block::OutcomeBlock;
use crate::text::conditions::absent::is_in;
use crate::text::conditions::condition::{Condition, Literal};
use crate::text::conditions::judging::judge;
use crate::text::conditions::question::Question;
use crate::text::conditions::rulings::{Ruling, ruling_of};
use crate::text::outcomes::{add_outcome, add_states};
use hm_base::{NoMemory, Text};
use hm_search::End;
use std::alloc::Global;

/// Whether the search knows all states.
pub fn is_whole(end: End) -> bool
    ensures { result ≡ is_whole end }
{
    match end {
        End::Whole => true,
        End::Cut | End::Reached => false,
    }
}

/// The word of a ruling.
fn ruling_word(ruling: Ruling) -> &'static [u8]
    ensures { result.now ≡ ruling_word ruling }
{
    match ruling {
        Ruling::Holds => b"holds ",
        Ruling::Fails => b"fails ",
        Ruling::Open => b"open ",
    }
}

/// Adds the line of a condition.
#[tactic(auto, using(std::proofs::Common::append_assoc))]
fn add_line(text: &mut Text, question: &Question, ruling: Ruling) -> Result<(), NoMemory>
    ensures { OnOk result (text.new ≡ text.old ++ question_line question.now.text ruling) }
{
    text.extend(ruling_word(ruling))?;
    text.extend(question.text.as_slice())?;
    text.push(b'\n')
}

/// Adds the outcome that decides a condition alone, if there is one.
fn add_witness(
    alloc: Global,
    text: &mut Text,
    blocks: &[OutcomeBlock],
    witness: Option<usize>,
) -> Result<(), NoMemory>
    ensures { OnOk result (text.new ≡ text.old ++ witness_text blocks.now witness) }
{
    let Some(at) = witness else {
        return Ok(());
    };
    match blocks.get(at) {
        Some(block) => add_outcome(alloc, text, at as u64 + 1, block),
        None => Ok(()),
    }
}

/// Adds the line of a literal, if none of the outcomes has it.
#[tactic(auto, using(std::proofs::Common::append_assoc))]
fn add_absent(text: &mut Text, literal: &Literal, blocks: &[OutcomeBlock]) -> Result<(), NoMemory>
    ensures { OnOk result (text.new ≡ text.old ++ absent_text (lines_of blocks.now) literal.now) }
{
    if is_in(blocks, literal.line.as_slice()) {
        return Ok(());
    }
    text.extend(b"in no outcome ")?;
    text.extend(literal.line.as_slice())?;
    text.push(b'\n')
}

/// Adds such lines of an alternative.
fn add_absents(
    text: &mut Text,
    literals: &[Literal],
    blocks: &[OutcomeBlock],
) -> Result<(), NoMemory>
    ensures { OnOk result (text.new ≡ text.old ++ absents_text (lines_of blocks.now) literals.now) }
{
    for literal in literals {
        add_absent(text, literal, blocks)?;
    }
    Ok(())
}

/// Adds such lines of a condition, if all outcomes are known.
fn add_all_absents(
    text: &mut Text,
    condition: &Condition,
    blocks: &[OutcomeBlock],
    whole: bool,
) -> Result<(), NoMemory>
    ensures { OnOk result (text.new ≡ text.old ++ all_absents_text (lines_of blocks.now) whole condition.now) }
{
    if !whole {
        return Ok(());
    }
    for literals in condition.body.as_slice() {
        add_absents(text, literals.as_slice(), blocks)?;
    }
    Ok(())
}

/// Adds what is said of a condition.
#[tactic(auto, using(std::proofs::Common::append_assoc))]
fn add_question(
    alloc: Global,
    text: &mut Text,
    question: &Question,
    blocks: &[OutcomeBlock],
    whole: bool,
) -> Result<(), NoMemory>
    ensures { OnOk result (text.new ≡ text.old ++ question_text blocks.now whole question.now) }
{
    let verdict = judge(&question.condition, blocks);
    add_line(
        text,
        question,
        ruling_of(&question.condition, blocks, whole),
    )?;
    add_all_absents(text, &question.condition, blocks, whole)?;
    add_witness(alloc, text, blocks, verdict.witness)
}

/// Adds what is said of each condition.
fn add_questions(
    alloc: Global,
    text: &mut Text,
    questions: &[Question],
    blocks: &[OutcomeBlock],
    whole: bool,
) -> Result<(), NoMemory>
    ensures { OnOk result (text.new ≡ text.old ++ questions_text blocks.now whole questions.now) }
{
    for question in questions {
        add_question(alloc, text, question, blocks, whole)?;
    }
    Ok(())
}

/// The text of what is said of conditions: for each a line with its ruling; if all outcomes are known, those of its
/// lines that none of them has; and the outcome that decides it alone, if one does, with its number and a schedule that
/// leads to it. Then how many states a search knows, and how it ended.
#[tactic(auto, using(std::proofs::Common::append_assoc), unfolding(crate::specs::Text::Conditions::Texts::rulings_text))]
pub fn rulings_text(
    alloc: Global,
    questions: &[Question],
    blocks: &[OutcomeBlock],
    states: u64,
    end: End,
) -> Result<Text, NoMemory>
    ensures { IfOk result (λ t. t ≡ rulings_text questions.now blocks.now states end) }
{
    let mut text = Text::new(alloc);
    add_questions(alloc, &mut text, questions, blocks, is_whole(end))?;
    add_states(alloc, &mut text, states, end)?;
    Ok(text)
}
