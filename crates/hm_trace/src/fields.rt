// The words of a line, one after the other, by one pass over it.
ghost use Rattle.std.specs.Prelude.{◌≡◌, ◌∷◌, [], drop, IfNone, IfSome};
ghost use Rattle.hm_script.specs.Splitting.{split, word};

use crate::words::find_byte;
use std::marker::Model;

/// The first word and the rest of the line after its space, if there is a space.
fn cut_word(line: &[u8]) -> Option<(&[u8], &[u8])>
    ensures none { IfNone result (split line.now ≡ line.now ∷ []) }
    ensures splits { IfSome result (λ parts. split line.now ≡ parts.0.now ∷ split parts.1.now) }
{
    match find_byte(line, b' ') {
        Some(end) => Some((&line[..end], &line[end + 1..])),
        None => None,
    }
}

/// The words of a line that have not been asked for.
#[derive(Drop)]
pub(crate) struct Fields<'a> {
    rest: &'a [u8],
    done: bool,
}

impl<'a> Model for Fields<'a> {
    ghost use Rattle.std.specs.Prelude.{List, ℕ, [], if◌then◌else◌};
    ghost use Rattle.hm_script.specs.Splitting.{split};

    ghost Value = { List (List ℕ) };

    ghost view = { λ s. if s.done then [] else split s.rest.now };
}

impl<'a> Fields<'a> {
    /// All words of this line.
    pub(crate) fn of(line: &'a [u8]) -> Fields<'a>
        ensures { result ≡ split line.now }
    {
        Fields {
            rest: line,
            done: false,
        }
    }

    /// The next word, and nothing past the last one.
    pub(crate) fn next(&mut self) -> &'a [u8]
        ensures word { result.now ≡ word 0 self.old }
        ensures after { self.new ≡ drop 1 self.old }
    {
        if self.done {
            return &[];
        }
        match cut_word(self.rest) {
            Some((word, after)) => {
                self.rest = after;
                word
            }
            None => {
                self.done = true;
                self.rest
            }
        }
    }
}
