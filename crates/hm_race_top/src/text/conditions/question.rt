// Several conditions, each with its text.
ghost use Rattle.std.specs.Prelude.{◌≡◌, None, map, string_bytes, IfOk, IfErr};
ghost use Rattle.hm_script.specs.Splitting.{split};
ghost use Rattle.hm_race_top.specs.Text.Conditions.Grammar.{IsBad, first_bad};
ghost use Rattle.hm_race_top.specs.Text.Conditions.Questions.{AreQuestions, IsBadAmong, IsQuestion, bad_question};

use crate::text::conditions::condition::Condition;
use crate::text::conditions::grammar::{BadCondition, parse};
use hm_base::{ListOf, NoMemory, Text};
use std::alloc::Global;

/// A condition and its text.
#[derive(Drop)]
pub struct Question {
    pub text: Text,
    pub condition: Condition,
}

/// Why texts are not read as conditions.
#[derive(Clone, Copy)]
pub enum BadQuestion {
    /// The number, from 1, of the first text that is no condition; and that of its first word that may not come, or of
    /// the one that is missing at the end.
    Word(u64, u64),
    NoMemory,
}

impl From<NoMemory> for BadQuestion {
    ghost use Rattle.std.specs.Prelude.{◌≡◌};
    ghost use Rattle.hm_race_top.specs.declared.text.conditions.question.BadQuestion.TheVariants as bad;

    ghost from_gives = { λ _ e. e ≡ bad.NoMemory };

    fn from(_e: NoMemory) -> BadQuestion {
        BadQuestion::NoMemory
    }
}

/// Reads a condition, and keeps its text.
fn question_of(alloc: Global, bytes: &[u8]) -> Result<Question, BadCondition>
    ensures text { IfOk result (λ q. q.text ≡ bytes.now) }
    ensures is { IfOk result IsQuestion }
    ensures good { IfOk result (λ q. first_bad (split bytes.now) ≡ None) }
    ensures bad { IfErr result (IsBad (first_bad (split bytes.now))) }
{
    let condition = parse(alloc, bytes)?;
    Ok(Question {
        text: Text::from_slice(alloc, bytes)?,
        condition,
    })
}

/// Reads a condition from each of the texts.
pub fn questions_of(alloc: Global, texts: &[String]) -> Result<ListOf<Question>, BadQuestion>
    ensures questions { IfOk result (AreQuestions (map string_bytes texts.now)) }
    ensures bad { IfErr result (IsBadAmong (bad_question 1 (map string_bytes texts.now))) }
{
    let mut questions = ListOf::new(alloc);
    for at in 0..texts.len() {
        match question_of(alloc, texts[at].as_bytes()) {
            Ok(question) => questions.push(question)?,
            Err(BadCondition::Word(word)) => return Err(BadQuestion::Word(at as u64 + 1, word)),
            Err(BadCondition::NoMemory) => return Err(BadQuestion::NoMemory),
        }
    }
    Ok(questions)
}
