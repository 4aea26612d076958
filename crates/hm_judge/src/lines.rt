// A line of a text, by its place.
ghost use Rattle.std.specs.Prelude.{◌≡◌, MatchOption, IfOk, Some, None, slice_get};
ghost use Rattle.hm_script.specs.Automaton.{lines};
ghost use Rattle.hm_judge.specs.Judgements.{line_or_none};

use hm_base::{NoMemory, Text};
use hm_script::cut_line;
use std::alloc::Global;

/// The line at a place, counted from 0.
pub(crate) fn line_at(bytes: &[u8], place: u64) -> Option<&[u8]>
    ensures { MatchOption result (slice_get (lines bytes.now) place ≡ None)
        (λ line. slice_get (lines bytes.now) place ≡ Some line.now) }
{
    let mut rest = bytes;
    for at in 0..place {
        let _at = at;
        if rest.is_empty() {
            return None;
        }
        let (_, after) = cut_line(rest);
        rest = after;
    }
    if rest.is_empty() {
        return None;
    }
    let (line, _) = cut_line(rest);
    Some(line)
}

/// The line at a place; empty if there is none.
pub(crate) fn line_or_empty(bytes: &[u8], place: u64) -> &[u8]
    ensures { result.now ≡ line_or_none (lines bytes.now) place }
{
    match line_at(bytes, place) {
        Some(line) => line,
        None => b"",
    }
}

/// A copy of the line at a place; empty if there is none.
pub(crate) fn copy_line(alloc: Global, bytes: &[u8], place: u64) -> Result<Text, NoMemory>
    ensures { IfOk result (λ t. t ≡ line_or_none (lines bytes.now) place) }
{
    Text::from_slice(alloc, line_or_empty(bytes, place))
}
