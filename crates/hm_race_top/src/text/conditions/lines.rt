// The lines of a text.
ghost use Rattle.std.specs.Prelude.{◌≡◌, ◌∷◌, ◌++◌, [], ℕ, List, MatchOption};
ghost use Rattle.hm_race_top.specs.Text.Conditions.Meets.{has_line, is_ended, line_count};

use hm_script::cut_line;

/// The line without its line feed, if it has one.
fn strip_feed(line: &[u8]) -> Option<&[u8]>
    ensures { MatchOption result ((front : List ℕ) → line.now ≡ front ++ 10 ∷ [] → ⊥)
        (λ front. line.now ≡ front.now ++ 10 ∷ []) }
{
    line.strip_suffix(b"\n")
}

/// Whether the first is the second and a line feed.
fn is_ended(line: &[u8], text: &[u8]) -> bool
    ensures { result ≡ is_ended text.now line.now }
{
    match strip_feed(line) {
        Some(front) => front == text,
        None => false,
    }
}

/// How many of the lines, each of which a line feed ends, are this text.
pub(crate) fn line_count(lines: &[u8], text: &[u8]) -> u64
    ensures { result ≡ line_count lines.now text.now }
{
    let mut count = 0;
    let mut rest = lines;
    while !rest.is_empty() {
        let (line, after) = cut_line(rest);
        if is_ended(line, text) {
            count += 1;
        }
        rest = after;
    }
    count
}

/// Whether the text is one of the lines, each of which a line feed ends.
pub fn has_line(lines: &[u8], text: &[u8]) -> bool
    ensures { result ≡ has_line lines.now text.now }
{
    let mut rest = lines;
    while !rest.is_empty() {
        let (line, after) = cut_line(rest);
        if is_ended(line, text) {
            return true;
        }
        rest = after;
    }
    false
}
