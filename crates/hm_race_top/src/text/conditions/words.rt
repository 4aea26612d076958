// The words of a condition.
ghost use Rattle.std.specs.Prelude.{◌≡◌, ◌==◌, ◌<◌, ◌≤◌, ◌∷◌, ◌++◌, [], length, position, IfSome};
ghost use Rattle.hm_script.specs.Splitting.{split};
ghost use Rattle.hm_race_top.specs.Text.Conditions.Grammar.{is_actor, other_kind, quantifier_of, word_kind};
ghost use Rattle.hm_race_top.specs.Text.Conditions.Tails.{size_of, tail_of, words_in};

use crate::text::conditions::condition::Quantifier;
use hm_script::number;

/// What a word is for.
#[derive(Clone, Copy)]
pub enum WordKind {
    And,
    Or,
    Not,
    /// The name of an actor, which is the first word of an answer.
    Actor,
    Empty,
    /// `x`, after a number.
    Times,
    Number(u64),
    Other,
}

/// Where the words of a body have come to.
#[derive(Clone, Copy, PartialEq, Eq)]
pub enum Place {
    /// Where a literal begins.
    Fresh,
    /// After `not`.
    Negated,
    /// After a number.
    Counted(u64),
    /// After a number and `x`.
    Times,
    /// After the first word of an answer.
    Opened,
    /// After more of its words.
    Inside,
}

fn space_in(text: &[u8]) -> Option<usize>
    ensures gives { result ≡ position (λ b. b == 32) text.now }
    ensures inside { IfSome result (λ at. at < length text.now) }
{
    text.iter().position(|b| *b == b' ')
}

/// The first word, and the text after the space that follows it, if there is one.
pub(crate) fn cut(text: &[u8]) -> (&[u8], Option<&[u8]>)
    ensures text { text.now ≡ result.0.now ++ tail_of result.1 }
    ensures words { split text.now ≡ result.0.now ∷ words_in result.1 }
    ensures alone { split result.0.now ≡ result.0.now ∷ [] }
    ensures shorter { size_of result.1 ≤ length text.now }
{
    match space_in(text) {
        Some(end) => (&text[..end], Some(&text[end + 1..])),
        None => (text, None),
    }
}

/// The quantifier that the word names.
pub(crate) fn quantifier_of(word: &[u8]) -> Option<Quantifier>
    ensures { result ≡ quantifier_of word.now }
{
    if word == b"some".as_slice() {
        Some(Quantifier::Exists)
    } else if word == b"none".as_slice() {
        Some(Quantifier::Never)
    } else if word == b"every".as_slice() {
        Some(Quantifier::Always)
    } else {
        None
    }
}

/// Whether the word is `a` and a number below 16.
fn is_actor(word: &[u8]) -> bool
    ensures { result ≡ is_actor word.now }
{
    match word {
        [b'a', digits @ ..] => match number(digits) {
            Ok(n) => n < 16,
            Err(_) => false,
        },
        _ => false,
    }
}

/// What a word is for that is none of the others: a number, the `x` after one, or a word of an answer.
fn other_kind(word: &[u8]) -> WordKind
    ensures { result ≡ other_kind word.now }
{
    if word == b"x".as_slice() {
        return WordKind::Times;
    }
    match number(word) {
        Ok(n) => WordKind::Number(n),
        Err(_) => WordKind::Other,
    }
}

/// What the word is for.
pub(crate) fn word_kind(word: &[u8]) -> WordKind
    ensures { result ≡ word_kind word.now }
{
    if word == b"and".as_slice() {
        WordKind::And
    } else if word == b"or".as_slice() {
        WordKind::Or
    } else if word == b"not".as_slice() {
        WordKind::Not
    } else if is_actor(word) {
        WordKind::Actor
    } else if word.is_empty() {
        WordKind::Empty
    } else {
        other_kind(word)
    }
}
