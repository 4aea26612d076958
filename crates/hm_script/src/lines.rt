// The lines of a script.

ghost use Rattle.std.specs.Prelude.{◌≡◌, ◌<◌, ◌∷◌, ◌+◌, ◌-◌, ◌==◌, length, position, take, slice_index, IfSome};
ghost use Rattle.std.specs.Prelude.{MatchResult, Ok, Err};
ghost use Rattle.std.specs.List.{list_all};
ghost use Rattle.hm_script.specs.Automaton.{lines, line_text, is_printable};

use crate::reason::Reason;

fn feed_in(bytes: &[u8]) -> Option<usize>
    ensures gives { result ≡ position (λ b. b == 10) bytes.now }
    ensures inside { IfSome result (λ at. at < length bytes.now) }
{
    bytes.iter().position(|b| *b == b'\n')
}

/// The first line, with its line feed if it has one, and the bytes after it.
pub fn cut_line(bytes: &[u8]) -> (&[u8], &[u8])
    requires { 0 < length bytes.now }
    ensures lines { lines bytes.now ≡ result.0.now ∷ lines result.1.now }
    ensures some { 0 < length result.0.now }
    ensures shorter { length result.1.now < length bytes.now }
{
    match feed_in(bytes) {
        Some(end) => bytes.split_at(end + 1),
        None => bytes.split_at(bytes.len()),
    }
}

fn all_printable(text: &[u8]) -> bool
    ensures { result ≡ list_all is_printable text.now }
{
    text.iter().all(|b| *b >= b' ' && *b <= b'~')
}

/// The line without its line feed.
#[tactic(auto, unfolding(crate::specs::Automaton::line_text))]
pub(crate) fn text_of(line: &[u8]) -> Result<&[u8], Reason>
    requires { 0 < length line.now }
    ensures { MatchResult result (λ text. line_text line.now ≡ Ok text.now) (λ r. line_text line.now ≡ Err r) }
{
    let (text, end) = line.split_at(line.len() - 1);
    if end[0] != b'\n' || !all_printable(text) {
        return Err(Reason::LineEnd);
    }
    Ok(text)
}
