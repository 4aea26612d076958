// Whether a line is that of an entry, found without a copy of the line.
ghost use Rattle.std.specs.Prelude.{◌≡◌, ◌↔◌, ◌++◌, ◌∷◌, [], ℕ, List, IsTrue, MatchOption};
ghost use Rattle.hm_report.specs.Report.{entry_line};
ghost use Rattle.hm_report.specs.Words.{byte_text, tail_text};
ghost use Rattle.hm_script.specs.Spelling.{hex_text};

use hm_history::{Entry, Kind};
use hm_report::{Buffer, digit, put_front};

/// What follows the front, if the text begins with it.
pub fn strip_front<'a>(text: &'a [u8], front: &[u8]) -> Option<&'a [u8]>
    ensures { MatchOption result ((rest : List ℕ) → ¬ (text.now ≡ front.now ++ rest))
        (λ rest. text.now ≡ front.now ++ rest.now) }
{
    text.strip_prefix(front)
}

/// What follows the two digits of a byte, if the text begins with them.
fn strip_byte(text: &[u8], byte: u8) -> Option<&[u8]>
    ensures { MatchOption result ((rest : List ℕ) → ¬ (text.now ≡ byte_text byte ++ rest))
        (λ rest. text.now ≡ byte_text byte ++ rest.now) }
{
    let digits = [digit(byte / 16), digit(byte % 16)];
    strip_front(text, &digits)
}

/// What follows the digits of the bytes, if the text begins with them.
fn strip_hex<'a>(text: &'a [u8], bytes: &[u8]) -> Option<&'a [u8]>
    ensures { MatchOption result ((rest : List ℕ) → ¬ (text.now ≡ hex_text bytes.now ++ rest))
        (λ rest. text.now ≡ hex_text bytes.now ++ rest.now) }
{
    let mut rest = text;
    for byte in bytes {
        match strip_byte(rest, *byte) {
            Some(after) => rest = after,
            None => return None,
        }
    }
    Some(rest)
}

/// Whether the text is a space, the digits of the bytes and a line feed.
fn is_hex_end(text: &[u8], bytes: &[u8]) -> bool
    ensures { IsTrue result ↔ text.now ≡ (32 ∷ hex_text bytes.now) ++ 10 ∷ [] }
{
    match strip_front(text, b" ") {
        Some(digits) => match strip_hex(digits, bytes) {
            Some(rest) => rest == b"\n".as_slice(),
            None => false,
        },
        None => false,
    }
}

/// Whether the text is the end of the line of an entry of this kind.
fn is_end(text: &[u8], kind: &Kind) -> bool
    ensures { IsTrue result ↔ text.now ≡ tail_text kind.now ++ 10 ∷ [] }
{
    match kind {
        Kind::Loaded { bytes, .. } => is_hex_end(text, bytes.as_slice()),
        Kind::Stored { bytes, .. } => is_hex_end(text, bytes.as_slice()),
        Kind::Fetched { bytes, .. } => is_hex_end(text, bytes.as_slice()),
        _ => text == b"\n".as_slice(),
    }
}

/// Whether the line is that of the entry at this position. The buffer is written over.
pub fn is_line_of(out: &mut Buffer, line: &[u8], at: u64, entry: &Entry) -> bool
    ensures { IsTrue result ↔ line.now ≡ entry_line at entry.now }
{
    out.clear();
    put_front(out, at, entry);
    match strip_front(line, out.as_slice()) {
        Some(end) => is_end(end, &entry.kind),
        None => false,
    }
}
