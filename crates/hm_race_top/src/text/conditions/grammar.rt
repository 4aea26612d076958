// A condition, read from its line.
ghost use Rattle.std.specs.Prelude.{◌≡◌, [], true, None, IfOk, IfErr};
ghost use Rattle.hm_script.specs.Splitting.{split};
ghost use Rattle.hm_race_top.specs.Text.Conditions.Grammar.{IsBad, bad_from, body_text, condition_text, first_bad};
ghost use Rattle.hm_race_top.specs.Text.Conditions.Grammar.{is_plain};
ghost use Rattle.hm_race_top.specs.Text.Conditions.Reading.{so_far, stands};
ghost use Rattle.hm_race_top.specs.Text.Conditions.Tails.{tail_of, words_in};
ghost use Rattle.hm_race_top.specs.declared.text.conditions.words.Place.{Place};

use crate::text::conditions::condition::{Condition, Literal};
use crate::text::conditions::reading::Reading;
use crate::text::conditions::words::{Place, cut, quantifier_of};
use hm_base::{ListOf, NoMemory};
use std::alloc::Global;

/// Why a line is not read as a condition.
#[derive(Clone, Copy)]
pub enum BadCondition {
    /// The number, from 1, of the first word that may not come, or of the one that is missing at the end.
    Word(u64),
    NoMemory,
}

impl From<NoMemory> for BadCondition {
    ghost use Rattle.std.specs.Prelude.{◌≡◌};
    ghost use Rattle.hm_race_top.specs.declared.text.conditions.grammar.BadCondition.TheVariants as bad;

    ghost from_gives = { λ _ e. e ≡ bad.NoMemory };

    fn from(_e: NoMemory) -> BadCondition {
        BadCondition::NoMemory
    }
}

/// The body at the end of its words, the next of which would have this number.
fn end(reading: Reading, number: u64) -> Result<ListOf<ListOf<Literal>>, BadCondition>
    requires { stands reading ≡ true }
    ensures text { IfOk result (λ body. body_text body ≡ so_far reading) }
    ensures plain { IfOk result (λ body. is_plain body ≡ true) }
    ensures good { IfOk result (λ body. bad_from number reading.place [] ≡ None) }
    ensures bad { IfErr result (IsBad (bad_from number reading.place [])) }
{
    match reading.place {
        Place::Inside => Ok(reading.finish()?),
        Place::Fresh | Place::Negated | Place::Counted(_) | Place::Times | Place::Opened => {
            Err(BadCondition::Word(number))
        }
    }
}

/// Reads the body, whose first word is the second of the line.
fn read_body(alloc: Global, words: Option<&[u8]>) -> Result<ListOf<ListOf<Literal>>, BadCondition>
    ensures text { IfOk result (λ body. body_text body ≡ tail_of words.entry) }
    ensures plain { IfOk result (λ body. is_plain body ≡ true) }
    ensures good { IfOk result (λ body. bad_from 2 Place.Fresh (words_in words.entry) ≡ None) }
    ensures bad { IfErr result (IsBad (bad_from 2 Place.Fresh (words_in words.entry))) }
{
    let mut reading = Reading::new(alloc);
    let mut number: u64 = 2;
    let mut rest = words;
    while let Some(text) = rest {
        let (word, after) = cut(text);
        match reading.with_word(alloc, word)? {
            Some(longer) => reading = longer,
            None => return Err(BadCondition::Word(number)),
        }
        number += 1;
        rest = after;
    }
    end(reading, number)
}

/// Reads a condition from its line, which has no line feed.
pub fn parse(alloc: Global, bytes: &[u8]) -> Result<Condition, BadCondition>
    ensures text { IfOk result (λ k. bytes.now ≡ condition_text k) }
    ensures plain { IfOk result (λ k. is_plain k.body ≡ true) }
    ensures good { IfOk result (λ k. first_bad (split bytes.now) ≡ None) }
    ensures bad { IfErr result (IsBad (first_bad (split bytes.now))) }
{
    let (word, after) = cut(bytes);
    let Some(quantifier) = quantifier_of(word) else {
        return Err(BadCondition::Word(1));
    };
    Ok(Condition {
        quantifier,
        body: read_body(alloc, after)?,
    })
}
