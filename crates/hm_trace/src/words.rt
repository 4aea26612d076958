// The words of an event's line, each by its reader. A letter before a number is passed over: whoever reads a line
// compares it with the event's text afterwards.
ghost use Rattle.std.specs.Prelude.{◌≡◌, ◌==◌, ◌≤◌, ◌<◌, drop, length, position, IfSome};
ghost use Rattle.std.specs.List.{position_or_len};
ghost use Rattle.hm_trace.specs.Spelling.{reason_text};
ghost use Rattle.hm_trace.specs.Words as spec;

use hm_history::TableRight;
use hm_protocol::{Reason as StartReason, TraceFrame, TraceSpan};
use hm_script::{Reason, number};

/// The word after its first byte.
fn behind(word: &[u8]) -> &[u8]
    ensures { result.now ≡ drop 1 word.now }
{
    match word {
        [] => word,
        [_, rest @ ..] => rest,
    }
}

/// Whether the word begins with this letter.
fn begins(word: &[u8], letter: u8) -> bool
    ensures { result ≡ spec.begins letter word.now }
{
    match word {
        [] => false,
        [first, ..] => *first == letter,
    }
}

/// A number after one letter.
#[tactic(auto, unfolding(crate::specs::Words::lettered))]
pub(crate) fn lettered(word: &[u8]) -> Result<u64, Reason>
    ensures { result ≡ spec.lettered word.now }
{
    number(behind(word))
}

/// A device, or that there is none.
#[tactic(auto, unfolding(crate::specs::Words::owner_at))]
pub(crate) fn owner(word: &[u8]) -> Result<Option<u64>, Reason>
    ensures { result ≡ spec.owner_at word.now }
{
    if word == b"-".as_slice() {
        return Ok(None);
    }
    let device = lettered(word)?;
    Ok(Some(device))
}

/// Where this byte stands first.
pub(crate) fn find_byte(bytes: &[u8], byte: u8) -> Option<usize>
    ensures gives { result ≡ position (λ b. b == byte) bytes.now }
    ensures inside { IfSome result (λ at. at < length bytes.now) }
{
    bytes.iter().position(|b| *b == byte)
}

/// Where this byte stands first, or the end.
pub(crate) fn first_or_end(bytes: &[u8], byte: u8) -> usize
    ensures at { result ≡ position_or_len (λ b. b == byte) bytes.now }
    ensures within { result ≤ length bytes.now }
{
    match find_byte(bytes, byte) {
        Some(at) => at,
        None => bytes.len(),
    }
}

/// What stands before the first point, and after it.
fn cut_at_point(word: &[u8]) -> (&[u8], &[u8])
    ensures before { result.0.now ≡ spec.before_point word.now }
    ensures after { result.1.now ≡ spec.after_point word.now }
{
    let (before, rest) = word.split_at(first_or_end(word, b'.'));
    (before, behind(rest))
}

#[tactic(auto, unfolding(crate::specs::Words::device_frame_at))]
fn device_frame(word: &[u8]) -> Result<TraceFrame, Reason>
    ensures { result ≡ spec.device_frame_at word.now }
{
    let (before, after) = cut_at_point(word);
    let device = lettered(before)?;
    let number = number(after)?;
    if begins(word, b'd') {
        Ok(TraceFrame::Private { device, number })
    } else {
        Ok(TraceFrame::Coherent { device, number })
    }
}

#[tactic(auto, unfolding(crate::specs::Words::frame_at))]
pub(crate) fn frame(word: &[u8]) -> Result<TraceFrame, Reason>
    ensures { result ≡ spec.frame_at word.now }
{
    if begins(word, b's') {
        let number = lettered(word)?;
        return Ok(TraceFrame::System(number));
    }
    if begins(word, b'z') {
        return Ok(TraceFrame::ZeroPage);
    }
    if begins(word, b'n') {
        return Ok(TraceFrame::Nothing);
    }
    device_frame(word)
}

/// Pages from the first on.
#[tactic(auto, unfolding(crate::specs::Words::span_at))]
pub(crate) fn span(first: &[u8], count: &[u8]) -> Result<TraceSpan, Reason>
    ensures { result ≡ spec.span_at first.now count.now }
{
    let first = number(first)?;
    let count = number(count)?;
    Ok(TraceSpan::new(first, count))
}

/// Whether a call did what it was to do.
pub(crate) fn done(word: &[u8]) -> bool
    ensures { result ≡ spec.done_at word.now }
{
    word == b"done".as_slice()
}

/// Whether somebody holds the mmap lock.
pub(crate) fn locked(word: &[u8]) -> bool
    ensures { result ≡ spec.locked_at word.now }
{
    word == b"locked".as_slice()
}

/// Whether a migration goes to a device.
pub(crate) fn to_device(word: &[u8]) -> bool
    ensures { result ≡ spec.to_device_at word.now }
{
    word == b"todev".as_slice()
}

/// Whether a page may be written.
pub(crate) fn writes(word: &[u8]) -> bool
    ensures { result ≡ spec.writes_at word.now }
{
    word == b"w".as_slice()
}

/// The right of a table's entry.
pub(crate) fn table_right(word: &[u8]) -> TableRight
    ensures { result ≡ spec.right_at word.now }
{
    if word == b"r".as_slice() {
        return TableRight::Read;
    }
    if word == b"w".as_slice() {
        return TableRight::Write;
    }
    TableRight::Sole
}

const REASONS: [StartReason; 8] = [
    StartReason::Unmap,
    StartReason::Clear,
    StartReason::ProtectArea,
    StartReason::ProtectPage,
    StartReason::SoftDirty,
    StartReason::Release,
    StartReason::Migrate,
    StartReason::Exclusive,
];

/// The word of a reason.
pub(crate) fn reason_text(why: StartReason) -> &'static [u8]
    ensures { result.now ≡ reason_text why }
{
    match why {
        StartReason::Unmap => b"unmap",
        StartReason::Clear => b"clear",
        StartReason::ProtectArea => b"protect_vma",
        StartReason::ProtectPage => b"protect_page",
        StartReason::SoftDirty => b"soft_dirty",
        StartReason::Release => b"release",
        StartReason::Migrate => b"migrate",
        StartReason::Exclusive => b"exclusive",
    }
}

/// The reason that this word names.
#[tactic(auto, unfolding(crate::specs::Words::reason_named))]
fn reason_named(word: &[u8]) -> Option<StartReason>
    ensures { result ≡ spec.reason_named word.now }
{
    REASONS
        .iter()
        .copied()
        .find(|why| reason_text(*why) == word)
}

/// Why an invalidation begins.
#[tactic(auto, unfolding(crate::specs::Words::reason_at))]
pub(crate) fn reason(word: &[u8]) -> Result<StartReason, Reason>
    ensures { result ≡ spec.reason_at word.now }
{
    reason_named(word).ok_or(Reason::Word)
}
