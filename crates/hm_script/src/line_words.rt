// The words of a line, and what they spell.

ghost use Rattle.std.specs.Prelude.{◌≡◌, ◌==◌, ◌+◌, ◌∷◌, ◌<◌, ◌≤◌, ◌^◌, List, [], slice_index_or, length, position};
ghost use Rattle.std.specs.Prelude.{count_by, take, drop, IfSome, IfNone, IfOk, IfErr, MatchResult};
ghost use Rattle.std.specs.List.{list_all, slice_split};
ghost use Rattle.hm_script.specs.Splitting.{split, word};
ghost use Rattle.hm_script.specs.Reading.{is_some_word, shape};

use crate::reason::{LineError, Reason};
use hm_base::{Bytes, NoMemory, Rights};
use std::alloc::Global;
use std::marker::Model;

fn space_in(line: &[u8]) -> Option<usize>
    ensures gives { result ≡ position (λ b. b == 32) line.now }
    ensures inside { IfSome result (λ at. at < length line.now) }
{
    line.iter().position(|b| *b == b' ')
}

/// The first word and the rest of the line after its space, if there is a space.
fn cut_word(line: &[u8]) -> Option<(&[u8], &[u8])>
    ensures none { IfNone result (split line.now ≡ line.now ∷ []) }
    ensures splits { IfSome result (λ parts. split line.now ≡ parts.0.now ∷ split parts.1.now) }
    ensures shorter { IfSome result (λ parts. length parts.1.now < length line.now) }
{
    match space_in(line) {
        Some(end) => Some((&line[..end], &line[end + 1..])),
        None => None,
    }
}

/// The word at this place, and nothing past the last one.
fn word_at(line: &[u8], at: usize) -> &[u8]
    ensures { result.now ≡ word at (split line.now) }
{
    let mut rest = line;
    for _ in 0..at {
        match cut_word(rest) {
            Some((_, after)) => rest = after,
            None => return &[],
        }
    }
    match cut_word(rest) {
        Some((word, _)) => word,
        None => rest,
    }
}

fn spaces(line: &[u8]) -> usize
    ensures count { result ≡ count_by (λ b. b == 32) line.now }
    ensures bound { result ≤ length line.now }
{
    line.iter().filter(|b| **b == b' ').count()
}

#[tactic(auto, using(crate::proofs::Splits::split_lengths))]
fn word_count(line: &[u8]) -> usize
    ensures { result ≡ length (split line.now) }
{
    spaces(line) + 1
}

/// Whether no word is empty, by one pass over the line.
fn has_no_empty_word(line: &[u8]) -> bool
    ensures { result ≡ list_all is_some_word (split line.now) }
{
    let mut rest = line;
    while let Some((word, after)) = cut_word(rest) {
        if word.is_empty() {
            return false;
        }
        rest = after;
    }
    !rest.is_empty()
}

/// Whether there are `count` words, none of them empty.
#[tactic(auto, unfolding(crate::specs::Reading::shape))]
fn shape_of(line: &[u8], count: usize) -> Result<(), Reason>
    ensures { result ≡ shape count (split line.now) }
{
    if word_count(line) == count && has_no_empty_word(line) {
        Ok(())
    } else {
        Err(Reason::Shape)
    }
}

/// The words of a line, which single spaces separate.
#[derive(Drop)]
pub struct LineWords<'a> {
    line: &'a [u8],
}

impl<'a> Model for LineWords<'a> {
    ghost use Rattle.std.specs.Prelude.{List, ℕ};
    ghost use Rattle.hm_script.specs.Splitting.{split};

    ghost Value = { List (List ℕ) };

    ghost view = { λ w. split w.line.now };
}

impl<'a> LineWords<'a> {
    /// The words of this line, without its end.
    pub fn of(line: &'a [u8]) -> LineWords<'a>
        ensures { result ≡ split line.now }
    {
        LineWords { line }
    }

    /// The word at this place, from 0, and nothing past the last one.
    pub fn get(&self, at: usize) -> &'a [u8]
        ensures { result.now ≡ word at self.now }
    {
        word_at(self.line, at)
    }

    /// Whether there are `count` words, none of them empty.
    pub(crate) fn shape(&self, count: usize) -> Result<(), Reason>
        ensures { result ≡ shape count self.now }
    {
        shape_of(self.line, count)
    }
}
