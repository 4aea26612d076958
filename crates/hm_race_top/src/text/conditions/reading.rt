// The body of a condition, read word by word.
ghost use Rattle.std.specs.Prelude.{◌≡◌, ◌∷◌, ◌++◌, [], true, IfOk, IfSome, MatchOption, None, Some};
ghost use Rattle.hm_script.specs.Splitting.{split};
ghost use Rattle.hm_race_top.specs.Text.Conditions.Grammar.{body_text, goes_on, is_front, is_plain, literal_text};
ghost use Rattle.hm_race_top.specs.Text.Conditions.Grammar.{count_text, not_text};
ghost use Rattle.hm_race_top.specs.Text.Conditions.Grammar.{place_after, word_kind};
ghost use Rattle.hm_race_top.specs.Text.Conditions.Reading.{literal_of, open_text, so_far, stands};
ghost use Rattle.hm_race_top.specs.declared.text.conditions.words.Place.{Place};
ghost use Rattle.hm_race_top.specs.declared.text.conditions.words.WordKind.{WordKind};

use crate::text::conditions::condition::Literal;
use crate::text::conditions::words::{Place, WordKind, word_kind};
use hm_base::{ListOf, NoMemory, Text};
use std::alloc::Global;

/// What has been read of a body.
#[derive(Drop)]
pub struct Reading {
    pub place: Place,
    /// The alternatives that have ended.
    pub body: ListOf<ListOf<Literal>>,
    /// Of the last alternative the literals that have ended.
    pub literals: ListOf<Literal>,
    /// Of the last literal whether it is wanted, how often, and the words of its line so far.
    pub wanted: bool,
    pub count: Option<u64>,
    pub line: Text,
}

impl Reading {
    /// Nothing yet.
    pub fn new(alloc: Global) -> Reading
        ensures place { result.place ≡ Place.Fresh }
        ensures text { so_far result ≡ [] }
        ensures plain { stands result ≡ true }
    {
        Reading {
            place: Place::Fresh,
            body: ListOf::new(alloc),
            literals: ListOf::new(alloc),
            wanted: true,
            count: None,
            line: Text::new(alloc),
        }
    }

    /// With the word `not`, before a literal.
    fn negated(self, word: &[u8]) -> Reading
        requires fresh { self.place ≡ Place.Fresh }
        requires word { word_kind word.now ≡ WordKind.Not }
        requires plain { stands self ≡ true }
        ensures place { result.place ≡ Place.Negated }
        ensures text { so_far result ≡ so_far self ++ 32 ∷ word.now }
        ensures plain { stands result ≡ true }
    {
        let _ = word;
        Reading {
            place: Place::Negated,
            body: self.body,
            literals: self.literals,
            wanted: self.wanted,
            count: self.count,
            line: self.line,
        }
    }

    /// With a number, of an answer that is wanted or not.
    fn counted(self, wanted: bool, n: u64, word: &[u8]) -> Reading
        requires open { open_text self.place (literal_of self) ≡ not_text wanted }
        requires word { word_kind word.now ≡ WordKind.Number n }
        requires plain { stands self ≡ true }
        ensures place { result.place ≡ Place.Counted n }
        ensures text { so_far result ≡ so_far self ++ 32 ∷ word.now }
        ensures plain { stands result ≡ true }
    {
        let _ = word;
        Reading {
            place: Place::Counted(n),
            body: self.body,
            literals: self.literals,
            wanted,
            count: self.count,
            line: self.line,
        }
    }

    /// With the word `x` after this number.
    fn repeated(self, n: u64, word: &[u8]) -> Reading
        requires counted { self.place ≡ Place.Counted n }
        requires word { word_kind word.now ≡ WordKind.Times }
        requires plain { stands self ≡ true }
        ensures place { result.place ≡ Place.Times }
        ensures text { so_far result ≡ so_far self ++ 32 ∷ word.now }
        ensures plain { stands result ≡ true }
    {
        let _ = word;
        Reading {
            place: Place::Times,
            body: self.body,
            literals: self.literals,
            wanted: self.wanted,
            count: Some(n),
            line: self.line,
        }
    }

    /// With the first word of an answer, which is wanted or not, and so often.
    fn opened(
        self,
        alloc: Global,
        wanted: bool,
        count: Option<u64>,
        word: &[u8],
    ) -> Result<Reading, NoMemory>
        requires open { open_text self.place (literal_of self) ≡ not_text wanted ++ count_text count }
        requires word { word_kind word.now ≡ WordKind.Actor }
        requires alone { split word.now ≡ word.now ∷ [] }
        requires plain { stands self ≡ true }
        ensures place { IfOk result (λ r. r.place ≡ Place.Opened) }
        ensures text { IfOk result (λ r. so_far r ≡ so_far self ++ 32 ∷ word.now) }
        ensures plain { IfOk result (λ r. stands r ≡ true) }
    {
        let line = Text::from_slice(alloc, word)?;
        Ok(Reading {
            place: Place::Opened,
            body: self.body,
            literals: self.literals,
            wanted,
            count,
            line,
        })
    }

    /// The same after a number and `x`.
    fn opened_after(self, alloc: Global, word: &[u8]) -> Result<Reading, NoMemory>
        requires times { self.place ≡ Place.Times }
        requires word { word_kind word.now ≡ WordKind.Actor }
        requires alone { split word.now ≡ word.now ∷ [] }
        requires plain { stands self ≡ true }
        ensures place { IfOk result (λ r. r.place ≡ Place.Opened) }
        ensures text { IfOk result (λ r. so_far r ≡ so_far self ++ 32 ∷ word.now) }
        ensures plain { IfOk result (λ r. stands r ≡ true) }
    {
        let wanted = self.wanted;
        let count = self.count;
        self.opened(alloc, wanted, count, word)
    }

    /// With one more word of an answer.
    fn longer(self, word: &[u8]) -> Result<Reading, NoMemory>
        requires open { open_text self.place (literal_of self) ≡ literal_text (literal_of self) }
        requires front { is_front (split self.line) ≡ true }
        requires word { goes_on (word_kind word.now) ≡ true }
        requires alone { split word.now ≡ word.now ∷ [] }
        requires plain { stands self ≡ true }
        ensures place { IfOk result (λ r. r.place ≡ Place.Inside) }
        ensures text { IfOk result (λ r. so_far r ≡ so_far self ++ 32 ∷ word.now) }
        ensures plain { IfOk result (λ r. stands r ≡ true) }
    {
        let mut line = self.line;
        line.push(b' ')?;
        line.extend(word)?;
        Ok(Reading {
            place: Place::Inside,
            body: self.body,
            literals: self.literals,
            wanted: self.wanted,
            count: self.count,
            line,
        })
    }

    /// With the word `and`.
    fn and(self, alloc: Global, word: &[u8]) -> Result<Reading, NoMemory>
        requires inside { self.place ≡ Place.Inside }
        requires word { word_kind word.now ≡ WordKind.And }
        requires plain { stands self ≡ true }
        ensures place { IfOk result (λ r. r.place ≡ Place.Fresh) }
        ensures text { IfOk result (λ r. so_far r ≡ so_far self ++ 32 ∷ word.now) }
        ensures plain { IfOk result (λ r. stands r ≡ true) }
    {
        let _ = word;
        Ok(Reading {
            place: Place::Fresh,
            body: self.body,
            literals: with_literal(self.literals, self.wanted, self.count, self.line)?,
            wanted: true,
            count: None,
            line: Text::new(alloc),
        })
    }

    /// With the word `or`.
    fn or(self, alloc: Global, word: &[u8]) -> Result<Reading, NoMemory>
        requires inside { self.place ≡ Place.Inside }
        requires word { word_kind word.now ≡ WordKind.Or }
        requires plain { stands self ≡ true }
        ensures place { IfOk result (λ r. r.place ≡ Place.Fresh) }
        ensures text { IfOk result (λ r. so_far r ≡ so_far self ++ 32 ∷ word.now) }
        ensures plain { IfOk result (λ r. stands r ≡ true) }
    {
        let _ = word;
        let mut body = self.body;
        let literals = with_literal(self.literals, self.wanted, self.count, self.line)?;
        body.push(literals)?;
        Ok(Reading {
            place: Place::Fresh,
            body,
            literals: ListOf::new(alloc),
            wanted: true,
            count: None,
            line: Text::new(alloc),
        })
    }

    /// With one more word, if it may come.
    pub(crate) fn with_word(self, alloc: Global, word: &[u8]) -> Result<Option<Reading>, NoMemory>
        requires alone { split word.now ≡ word.now ∷ [] }
        requires plain { stands self ≡ true }
        ensures place { IfOk result (λ o. MatchOption o (place_after self.place (word_kind word.now) ≡ None)
            (λ r. place_after self.place (word_kind word.now) ≡ Some r.place)) }
        ensures text { IfOk result (λ o. IfSome o (λ r. so_far r ≡ so_far self ++ 32 ∷ word.now)) }
        ensures plain { IfOk result (λ o. IfSome o (λ r. stands r ≡ true)) }
    {
        let kind = word_kind(word);
        match self.place {
            Place::Fresh => match kind {
                WordKind::Not => Ok(Some(self.negated(word))),
                WordKind::Number(n) => Ok(Some(self.counted(true, n, word))),
                WordKind::Actor => Ok(Some(self.opened(alloc, true, None, word)?)),
                _ => Ok(None),
            },
            Place::Negated => match kind {
                WordKind::Number(n) => Ok(Some(self.counted(false, n, word))),
                WordKind::Actor => Ok(Some(self.opened(alloc, false, None, word)?)),
                _ => Ok(None),
            },
            Place::Counted(n) => match kind {
                WordKind::Times => Ok(Some(self.repeated(n, word))),
                _ => Ok(None),
            },
            Place::Times => match kind {
                WordKind::Actor => Ok(Some(self.opened_after(alloc, word)?)),
                _ => Ok(None),
            },
            Place::Opened => match kind {
                WordKind::And | WordKind::Or | WordKind::Not | WordKind::Empty => Ok(None),
                WordKind::Actor | WordKind::Times | WordKind::Number(_) | WordKind::Other => {
                    Ok(Some(self.longer(word)?))
                }
            },
            Place::Inside => match kind {
                WordKind::And => Ok(Some(self.and(alloc, word)?)),
                WordKind::Or => Ok(Some(self.or(alloc, word)?)),
                WordKind::Not | WordKind::Empty => Ok(None),
                WordKind::Actor | WordKind::Times | WordKind::Number(_) | WordKind::Other => {
                    Ok(Some(self.longer(word)?))
                }
            },
        }
    }

    /// The whole body, at its end.
    pub fn finish(self) -> Result<ListOf<ListOf<Literal>>, NoMemory>
        requires inside { self.place ≡ Place.Inside }
        requires plain { stands self ≡ true }
        ensures text { IfOk result (λ body. body_text body ≡ so_far self) }
        ensures plain { IfOk result (λ body. is_plain body ≡ true) }
    {
        let mut body = self.body;
        let literals = with_literal(self.literals, self.wanted, self.count, self.line)?;
        body.push(literals)?;
        Ok(body)
    }
}

/// The literals with one more at their end.
fn with_literal(
    literals: ListOf<Literal>,
    wanted: bool,
    count: Option<u64>,
    line: Text,
) -> Result<ListOf<Literal>, NoMemory>
    ensures { IfOk result (λ all. all ≡ literals ++ record { wanted = wanted; count = count; line = line } ∷ []) }
{
    let mut literals = literals;
    literals.push(Literal {
        wanted,
        count,
        line,
    })?;
    Ok(literals)
}
