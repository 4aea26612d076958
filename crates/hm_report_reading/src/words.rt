// The words of an entry's line, each by its reader. A letter before a number is passed over: whoever reads a line
// compares it with the entry's text afterwards.
ghost use Rattle.std.specs.Prelude.{◌≡◌, ◌<◌, drop, IfOk};
ghost use Rattle.hm_report_reading.specs.Words as spec;

use hm_base::frames::{dev_frame, sys_frame};
use hm_base::{
    Actor, Bytes, Cause, Dev, Frame, MirrorId, NoMemory, Page, Place, PoolId, Proc, Rights, Span,
};
use hm_history::{KeptAt, TableRight, Who};
use hm_script::{Reason, number};
use std::alloc::Global;

/// The number, if it is below the limit.
fn below(limit: u64, number: u64) -> Result<u64, Reason>
    ensures same { result ≡ spec.below limit number }
    ensures bound { IfOk result (λ n. n < limit) }
{
    if number < limit {
        return Ok(number);
    }
    Err(Reason::Range)
}

/// The word after its first byte.
fn behind(word: &[u8]) -> &[u8]
    ensures { result.now ≡ drop 1 word.now }
{
    match word {
        [] => word,
        [_, rest @ ..] => rest,
    }
}

/// Whether the word begins with this letter.
fn begins(word: &[u8], letter: u8) -> bool
    ensures { result ≡ spec.begins letter word.now }
{
    match word {
        [] => false,
        [first, ..] => *first == letter,
    }
}

/// A number below the limit, after one letter.
#[tactic(auto, unfolding(crate::specs::Words::numbered))]
fn numbered(limit: u64, word: &[u8]) -> Result<u64, Reason>
    ensures same { result ≡ spec.numbered limit word.now }
    ensures bound { IfOk result (λ n. n < limit) }
{
    let number = number(behind(word))?;
    below(limit, number)
}

#[tactic(auto, unfolding(crate::specs::Words::numbered))]
pub(crate) fn proc(word: &[u8]) -> Result<Proc, Reason>
    ensures { result ≡ spec.numbered 32 word.now }
{
    let number = number(behind(word))?;
    if number < 32 {
        return Ok(Proc::new(number as u32));
    }
    Err(Reason::Range)
}

#[tactic(auto, unfolding(crate::specs::Words::numbered))]
pub(crate) fn mirror(word: &[u8]) -> Result<MirrorId, Reason>
    ensures { result ≡ spec.numbered 32 word.now }
{
    let number = number(behind(word))?;
    if number < 32 {
        return Ok(MirrorId::new(number as u32));
    }
    Err(Reason::Range)
}

#[tactic(auto, unfolding(crate::specs::Words::numbered))]
pub(crate) fn device(word: &[u8]) -> Result<Dev, Reason>
    ensures { result ≡ spec.numbered 4 word.now }
{
    let number = number(behind(word))?;
    if number < 4 {
        return Ok(Dev::new(number as u32));
    }
    Err(Reason::Range)
}

#[tactic(auto, unfolding(crate::specs::Words::numbered))]
pub(crate) fn actor(word: &[u8]) -> Result<Actor, Reason>
    ensures { result ≡ spec.numbered 16 word.now }
{
    let number = number(behind(word))?;
    if number < 16 {
        return Ok(Actor::new(number as u32));
    }
    Err(Reason::Range)
}

#[tactic(auto, unfolding(crate::specs::Words::page_at))]
pub(crate) fn page(word: &[u8]) -> Result<Page, Reason>
    ensures { result ≡ spec.page_at word.now }
{
    let number = number(word)?;
    if number < 1 << 36 {
        return Ok(Page::new(number));
    }
    Err(Reason::Range)
}

/// The span, if it has a page and ends in range.
fn checked_span(first: u64, count: u64) -> Result<Span, Reason>
    ensures { result ≡ spec.checked_span first count }
{
    if count < 1 || count > 1 << 36 || first > (1 << 36) - count {
        return Err(Reason::Range);
    }
    Ok(Span::new(Page::new(first), count))
}

#[tactic(auto, unfolding(crate::specs::Words::span_at))]
pub(crate) fn span(first: &[u8], count: &[u8]) -> Result<Span, Reason>
    ensures { result ≡ spec.span_at first.now count.now }
{
    let first = number(first)?;
    let count = number(count)?;
    checked_span(first, count)
}

/// The value of a hexadecimal digit.
fn nibble(digit: u8) -> u8
    ensures { result ≡ spec.nibble digit }
{
    if digit < b'a' {
        digit.saturating_sub(b'0') % 16
    } else {
        (digit - 87) % 16
    }
}

fn pair(high: u8, low: u8) -> u8
    ensures { result ≡ spec.pair high low }
{
    16 * nibble(high) + nibble(low)
}

/// The byte that two hexadecimal digits write.
pub(crate) fn byte(word: &[u8]) -> u8
    ensures { result ≡ spec.byte_at word.now }
{
    match word {
        [high, low, ..] => pair(*high, *low),
        _ => 0,
    }
}

/// The bytes that pairs of hexadecimal digits write.
pub(crate) fn bytes(alloc: Global, word: &[u8]) -> Result<Bytes, NoMemory>
    ensures { IfOk result (λ bytes. bytes ≡ spec.bytes_at word.now) }
{
    let mut bytes = Bytes::new(alloc);
    let mut rest = word;
    while let [high, low, after @ ..] = rest {
        bytes.push(pair(*high, *low))?;
        rest = after;
    }
    Ok(bytes)
}

/// What an area allows.
pub(crate) fn right(word: &[u8]) -> Rights
    ensures { result ≡ spec.right_at word.now }
{
    if word == b"rw".as_slice() {
        Rights::ReadWrite
    } else {
        Rights::Read
    }
}

#[tactic(auto, unfolding(crate::specs::Words::who_at))]
pub(crate) fn who(word: &[u8]) -> Result<Who, Reason>
    ensures { result ≡ spec.who_at word.now }
{
    let number = numbered(32, word)?;
    if begins(word, b'm') {
        return Ok(Who::Mirror(MirrorId::new(number as u32)));
    }
    Ok(Who::Cpu(Proc::new(number as u32)))
}

fn system_frame(word: &[u8]) -> Result<Frame, Reason>
    ensures { result ≡ spec.system_frame_at word.now }
{
    let number = numbered(1 << 32, word)?;
    Ok(sys_frame(number as u32))
}

/// The words around a device's number, of one digit, and the point after it.
fn device_frame(word: &[u8]) -> Result<Frame, Reason>
    ensures { result ≡ spec.device_frame_at word.now }
{
    let [_, _, _, rest @ ..] = word else {
        return Err(Reason::Number);
    };
    let dev = below(4, number(&word[1..2])?)?;
    let number = below(1 << 32, number(rest)?)?;
    Ok(dev_frame(Dev::new(dev as u32), number as u32))
}

#[tactic(auto, unfolding(crate::specs::Words::frame_at))]
pub(crate) fn frame(word: &[u8]) -> Result<Frame, Reason>
    ensures { result ≡ spec.frame_at word.now }
{
    if begins(word, b's') {
        system_frame(word)
    } else {
        device_frame(word)
    }
}

#[tactic(auto, unfolding(crate::specs::Words::target_at))]
pub(crate) fn target(word: &[u8]) -> Result<Option<Frame>, Reason>
    ensures { result ≡ spec.target_at word.now }
{
    if word == b"zero".as_slice() {
        return Ok(None);
    }
    let frame = frame(word)?;
    Ok(Some(frame))
}

/// What a table entry allows.
pub(crate) fn table_right(word: &[u8]) -> TableRight
    ensures { result ≡ spec.table_right_at word.now }
{
    if word == b"r".as_slice() {
        return TableRight::Read;
    }
    if word == b"w".as_slice() {
        return TableRight::Write;
    }
    TableRight::Sole
}

#[tactic(auto, unfolding(crate::specs::Words::part_at))]
pub(crate) fn part(word: &[u8]) -> Result<Option<u8>, Reason>
    ensures { result ≡ spec.part_at word.now }
{
    if word == b"all".as_slice() {
        return Ok(None);
    }
    let number = below(256, number(word)?)?;
    Ok(Some(number as u8))
}

#[tactic(auto, unfolding(crate::specs::Words::kept_at))]
pub(crate) fn kept(word: &[u8]) -> Result<KeptAt, Reason>
    ensures { result ≡ spec.kept_at word.now }
{
    if begins(word, b's') || begins(word, b'd') {
        let frame = frame(word)?;
        return Ok(KeptAt::Frame(frame));
    }
    let page = page(word)?;
    Ok(KeptAt::Page(page))
}

fn cause_of(number: u64) -> Result<Cause, Reason>
    ensures { result ≡ spec.cause_of number }
{
    match number {
        0 => Ok(Cause::Never),
        1 => Ok(Cause::Unmapped),
        2 => Ok(Cause::Forbidden),
        3 => Ok(Cause::NoFrame),
        4 => Ok(Cause::Outside),
        5 => Ok(Cause::Overlap),
        6 => Ok(Cause::TooManyAreas),
        7 => Ok(Cause::NameTaken),
        8 => Ok(Cause::NoProcess),
        9 => Ok(Cause::MirrorTaken),
        10 => Ok(Cause::Removed),
        _ => Err(Reason::Range),
    }
}

#[tactic(auto, unfolding(crate::specs::Words::cause_at))]
pub(crate) fn cause(word: &[u8]) -> Result<Cause, Reason>
    ensures { result ≡ spec.cause_at word.now }
{
    let number = number(word)?;
    cause_of(number)
}

/// Whether writes are allowed.
pub(crate) fn writes(word: &[u8]) -> bool
    ensures { result ≡ spec.writes word.now }
{
    word == b"w".as_slice()
}

/// The number of a frame of the system.
pub(crate) fn system_number(frame: &Frame) -> Result<u32, Reason>
    ensures { result ≡ spec.system_number frame.now.pool frame.now.number }
{
    match frame.pool {
        PoolId::System => Ok(frame.number),
        PoolId::Device(_) => Err(Reason::Word),
    }
}

/// The place in a device's own frame.
pub(crate) fn own_place(frame: &Frame, writable: bool) -> Result<Place, Reason>
    ensures { result ≡ spec.own_place frame.now.pool frame.now.number writable }
{
    match frame.pool {
        PoolId::System => Err(Reason::Word),
        PoolId::Device(dev) => Ok(Place::Own {
            dev,
            number: frame.number,
            writable,
        }),
    }
}
