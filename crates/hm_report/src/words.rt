// The words of a line, each with a space before it, written into a buffer.
ghost use Rattle.std.specs.Prelude.{◌≡◌, ◌+◌, ◌≤◌, ◌∷◌, ◌++◌, [], length};
ghost use Rattle.std.specs.Fmt.{decimal};
ghost use Rattle.hm_script.specs.Spelling.{right_text};
ghost use Rattle.hm_report.specs.Words.{proc_text, mirror_text, device_text, actor_text, who_text, byte_text};
ghost use Rattle.hm_report.specs.Words.{frame_text, write_text, target_text, table_right_text, part_text, kept_text};
ghost use Rattle.hm_report.specs.Words.{cause_number};
ghost use Rattle.hm_report.specs.Line.{spaced};

use crate::buffer::{Buffer, ROOM};
use crate::numerals::{put_byte, put_decimal, put_lettered, put_spaced};
use hm_base::{Actor, Cause, Dev, Frame, MirrorId, PoolId, Proc, Rights, Span};
use hm_history::{KeptAt, TableRight, Who};

/// The most bytes that a word has, with its space.
pub const WORD: usize = 132;

pub(crate) fn put_number(out: &mut Buffer, number: u64)
    requires { length out.old + WORD ≤ ROOM }
    ensures text { out.new ≡ out.old ++ 32 ∷ decimal number }
    ensures room { length out.new ≤ length out.old + WORD }
{
    put_spaced(out, number);
}

/// The first page of a span, and how many pages it has.
#[tactic(auto, using(std::proofs::Common::append_assoc))]
pub(crate) fn put_span(out: &mut Buffer, span: Span)
    requires { length out.old + WORD + WORD ≤ ROOM }
    ensures text { out.new ≡ out.old ++ spaced (decimal span.first ∷ decimal span.count ∷ []) }
    ensures room { length out.new ≤ length out.old + WORD + WORD }
{
    put_number(out, span.first().number());
    put_number(out, span.count());
}

pub(crate) fn put_proc(out: &mut Buffer, proc: Proc)
    requires { length out.old + WORD ≤ ROOM }
    ensures text { out.new ≡ out.old ++ 32 ∷ proc_text proc }
    ensures room { length out.new ≤ length out.old + WORD }
{
    put_lettered(out, b'p', u64::from(proc.number()));
}

pub(crate) fn put_mirror(out: &mut Buffer, mirror: MirrorId)
    requires { length out.old + WORD ≤ ROOM }
    ensures text { out.new ≡ out.old ++ 32 ∷ mirror_text mirror }
    ensures room { length out.new ≤ length out.old + WORD }
{
    put_lettered(out, b'm', u64::from(mirror.number()));
}

pub(crate) fn put_device(out: &mut Buffer, dev: Dev)
    requires { length out.old + WORD ≤ ROOM }
    ensures text { out.new ≡ out.old ++ 32 ∷ device_text dev }
    ensures room { length out.new ≤ length out.old + WORD }
{
    put_lettered(out, b'd', u64::from(dev.number()));
}

#[inline(always)]
pub(crate) fn put_actor(out: &mut Buffer, actor: Actor)
    requires { length out.old + WORD ≤ ROOM }
    ensures text { out.new ≡ out.old ++ 32 ∷ actor_text actor }
    ensures room { length out.new ≤ length out.old + WORD }
{
    put_lettered(out, b'a', u64::from(actor.number()));
}

pub(crate) fn put_who(out: &mut Buffer, who: Who)
    requires { length out.old + WORD ≤ ROOM }
    ensures text { out.new ≡ out.old ++ 32 ∷ who_text who }
    ensures room { length out.new ≤ length out.old + WORD }
{
    match who {
        Who::Cpu(proc) => put_proc(out, proc),
        Who::Mirror(mirror) => put_mirror(out, mirror),
    }
}

/// The two digits of a byte.
#[tactic(auto, using(std::proofs::Common::append_assoc))]
pub(crate) fn put_hex(out: &mut Buffer, byte: u8)
    requires { length out.old + WORD ≤ ROOM }
    ensures text { out.new ≡ out.old ++ 32 ∷ byte_text byte }
    ensures room { length out.new ≤ length out.old + WORD }
{
    out.put(b" ");
    put_byte(out, byte);
}

#[tactic(auto, using(std::proofs::Common::append_assoc))]
pub(crate) fn put_frame(out: &mut Buffer, frame: &Frame)
    requires { length out.old + WORD ≤ ROOM }
    ensures text { out.new ≡ out.old ++ 32 ∷ frame_text frame.now }
    ensures room { length out.new ≤ length out.old + WORD }
{
    match frame.pool {
        PoolId::System => put_lettered(out, b's', u64::from(frame.number)),
        PoolId::Device(dev) => {
            put_lettered(out, b'd', u64::from(dev.number()));
            put_decimal(out, b".", u64::from(frame.number));
        }
    }
}

pub(crate) fn put_rights(out: &mut Buffer, rights: Rights)
    requires { length out.old + WORD ≤ ROOM }
    ensures text { out.new ≡ out.old ++ 32 ∷ right_text rights }
    ensures room { length out.new ≤ length out.old + WORD }
{
    match rights {
        Rights::Read => out.put(b" r"),
        Rights::ReadWrite => out.put(b" rw"),
    }
}

/// Whether writes are allowed.
pub(crate) fn put_writes(out: &mut Buffer, writes: bool)
    requires { length out.old + WORD ≤ ROOM }
    ensures text { out.new ≡ out.old ++ 32 ∷ write_text writes }
    ensures room { length out.new ≤ length out.old + WORD }
{
    if writes {
        out.put(b" w");
    } else {
        out.put(b" r");
    }
}

/// What a table entry names.
pub(crate) fn put_target(out: &mut Buffer, target: &Option<Frame>)
    requires { length out.old + WORD ≤ ROOM }
    ensures text { out.new ≡ out.old ++ 32 ∷ target_text target.now }
    ensures room { length out.new ≤ length out.old + WORD }
{
    match target {
        None => out.put(b" zero"),
        Some(frame) => put_frame(out, frame),
    }
}

pub(crate) fn put_table_right(out: &mut Buffer, right: TableRight)
    requires { length out.old + WORD ≤ ROOM }
    ensures text { out.new ≡ out.old ++ 32 ∷ table_right_text right }
    ensures room { length out.new ≤ length out.old + WORD }
{
    match right {
        TableRight::Read => out.put(b" r"),
        TableRight::Write => out.put(b" w"),
        TableRight::Sole => out.put(b" x"),
    }
}

/// An eighth of a frame, or all of it.
pub(crate) fn put_part(out: &mut Buffer, part: Option<u8>)
    requires { length out.old + WORD ≤ ROOM }
    ensures text { out.new ≡ out.old ++ 32 ∷ part_text part }
    ensures room { length out.new ≤ length out.old + WORD }
{
    match part {
        None => out.put(b" all"),
        Some(part) => put_number(out, u64::from(part)),
    }
}

pub(crate) fn put_kept(out: &mut Buffer, at: &KeptAt)
    requires { length out.old + WORD ≤ ROOM }
    ensures text { out.new ≡ out.old ++ 32 ∷ kept_text at.now }
    ensures room { length out.new ≤ length out.old + WORD }
{
    match at {
        KeptAt::Page(page) => put_number(out, page.number()),
        KeptAt::Frame(frame) => put_frame(out, frame),
    }
}

pub(crate) fn put_cause(out: &mut Buffer, cause: Cause)
    requires { length out.old + WORD ≤ ROOM }
    ensures text { out.new ≡ out.old ++ 32 ∷ decimal (cause_number cause) }
    ensures room { length out.new ≤ length out.old + WORD }
{
    put_number(out, cause_number(cause));
}

fn cause_number(cause: Cause) -> u64
    ensures { result ≡ cause_number cause }
{
    match cause {
        Cause::Never => 0,
        Cause::Unmapped => 1,
        Cause::Forbidden => 2,
        Cause::NoFrame => 3,
        Cause::Outside => 4,
        Cause::Overlap => 5,
        Cause::TooManyAreas => 6,
        Cause::NameTaken => 7,
        Cause::NoProcess => 8,
        Cause::MirrorTaken => 9,
        Cause::Removed => 10,
    }
}
