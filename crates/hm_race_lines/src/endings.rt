// Which lines an operation of a script may end with.
ghost use Rattle.std.specs.Prelude.{◌≡◌, ◌≤◌, None, Some, true, IsTrue, MatchOption};
ghost use Rattle.std.specs.List.{list_all};
ghost use Rattle.hm_base.specs.Program.{op_in_range};
ghost use Rattle.hm_history.specs.Kernel.Going.{ops_of};
ghost use Rattle.hm_history.specs.Kernel.Operation.{op_who};
ghost use Rattle.hm_race_lines.specs.Endings as spec;

use crate::answers::put_answer;
use hm_base::{Bytes, Cause, MirrorId, Op, Proc, Script};
use hm_history::{Kind, Who};
use hm_reads::operations::{op_piece, op_writes};
use hm_report::{Buffer, put_decimal};
use hm_report_front::strip_front;
use std::alloc::Global;

/// What comes after these bytes, if the text begins with them.
fn rest_after<'a>(head: &[u8], text: &'a [u8]) -> Option<&'a [u8]>
    ensures { MatchOption result (spec.rest_after head.now text.now ≡ None)
        (λ rest. spec.rest_after head.now text.now ≡ Some rest.now) }
{
    strip_front(text, head)
}

fn is_digit(byte: u8) -> bool
    ensures { result ≡ spec.is_digit byte }
{
    (byte >= b'0' && byte <= b'9') || byte >= b'a'
}

fn are_digits(text: &[u8]) -> bool
    ensures { result ≡ list_all spec.is_digit text.now }
{
    for byte in text {
        if !is_digit(*byte) {
            return false;
        }
    }
    true
}

/// Whether each byte is a digit or a space.
fn are_figures(text: &[u8]) -> bool
    ensures { result ≡ list_all spec.is_figure text.now }
{
    for byte in text {
        if !is_digit(*byte) && *byte != b' ' {
            return false;
        }
    }
    true
}

fn is_number(text: &[u8]) -> bool
    ensures { result ≡ spec.is_number text.now }
{
    !text.is_empty() && are_digits(text)
}

fn are_numbers(text: &[u8]) -> bool
    ensures { result ≡ spec.are_numbers text.now }
{
    !text.is_empty() && are_figures(text)
}

/// Whether the text is a space and as many bytes in hexadecimal.
fn is_bytes(count: u64, text: &[u8]) -> bool
    requires { count ≤ 4096 }
    ensures { result ≡ spec.is_bytes count text.now }
{
    match text {
        [] => false,
        [first, digits @ ..] => {
            *first == b' ' && (digits.len() as u64 == 2 * count && are_digits(digits))
        }
    }
}

fn is_counted(head: &[u8], text: &[u8]) -> bool
    ensures { result ≡ spec.begins_with head.now spec.is_number text.now }
{
    match rest_after(head, text) {
        Some(rest) => is_number(rest),
        None => false,
    }
}

fn is_refused(text: &[u8]) -> bool
    ensures { result ≡ spec.is_refused text.now }
{
    is_counted(b" refused ", text)
}

/// Whether the text is this answer, whose words have no bytes. The buffer is written over, as by all that follow.
fn says(out: &mut Buffer, kind: &Kind, text: &[u8]) -> bool
    ensures { result ≡ spec.says kind.now text.now }
{
    out.clear();
    put_answer(out, kind);
    text == out.as_slice()
}

fn says_or_refused(out: &mut Buffer, kind: &Kind, text: &[u8]) -> bool
    ensures { result ≡ spec.says_or_refused kind.now text.now }
{
    says(out, kind, text) || is_refused(text)
}

fn is_migrated(text: &[u8]) -> bool
    ensures { result ≡ spec.is_migrated text.now }
{
    is_counted(b" migrated ", text) || is_refused(text)
}

fn is_evicted(text: &[u8]) -> bool
    ensures { result ≡ spec.is_evicted text.now }
{
    is_counted(b" evicted ", text)
}

/// Whether the text begins with what is in the buffer, and numbers come after it.
fn has_numbers(out: &Buffer, text: &[u8]) -> bool
    ensures { result ≡ spec.begins_with out.now spec.are_numbers text.now }
{
    match rest_after(out.as_slice(), text) {
        Some(rest) => are_numbers(rest),
        None => false,
    }
}

fn is_seen(out: &mut Buffer, mirror: MirrorId, text: &[u8]) -> bool
    ensures { result ≡ spec.is_seen mirror text.now }
{
    out.clear();
    put_decimal(out, b" seen m", u64::from(mirror.number()));
    out.push(b' ');
    has_numbers(out, text) || is_refused(text)
}

fn is_added(out: &mut Buffer, mirror: MirrorId, text: &[u8]) -> bool
    ensures { result ≡ spec.is_added mirror text.now }
{
    out.clear();
    put_decimal(out, b" added m", u64::from(mirror.number()));
    out.put(b" 0x");
    has_numbers(out, text)
}

fn fails_by(out: &mut Buffer, who: &Who, addr: u64, len: u64, text: &[u8], cause: Cause) -> bool
    ensures { result ≡ spec.fails_by who.now (addr, len) text.now cause }
{
    let kind = Kind::Failed {
        who: *who,
        addr,
        len,
        cause,
    };
    says(out, &kind, text)
}

fn is_failed(out: &mut Buffer, who: &Who, addr: u64, len: u64, text: &[u8]) -> bool
    ensures { result ≡ spec.is_failed who.now (addr, len) text.now }
{
    fails_by(out, who, addr, len, text, Cause::Unmapped)
        || (fails_by(out, who, addr, len, text, Cause::Forbidden)
            || (fails_by(out, who, addr, len, text, Cause::NoFrame)
                || fails_by(out, who, addr, len, text, Cause::Outside)))
}

fn access_at(alloc: Global, writes: bool, who: &Who, addr: u64) -> Kind
    ensures { result ≡ spec.access_at writes who.now addr }
{
    let bytes = Bytes::new(alloc);
    if writes {
        Kind::Stored {
            who: *who,
            addr,
            bytes,
        }
    } else {
        Kind::Loaded {
            who: *who,
            addr,
            bytes,
        }
    }
}

fn is_done(
    alloc: Global,
    out: &mut Buffer,
    writes: bool,
    who: &Who,
    addr: u64,
    len: u64,
    text: &[u8],
) -> bool
    requires { len ≤ 4096 }
    ensures { result ≡ spec.is_done writes who.now (addr, len) text.now }
{
    out.clear();
    put_answer(out, &access_at(alloc, writes, who, addr));
    match rest_after(out.as_slice(), text) {
        Some(rest) => is_bytes(len, rest),
        None => false,
    }
}

/// Whose access it is.
fn who_of(op: &Op) -> Who
    ensures { result ≡ op_who op.now }
{
    match op {
        Op::Load { proc, .. } | Op::Store { proc, .. } => Who::Cpu(*proc),
        Op::DeviceLoad { mirror, .. } | Op::DeviceStore { mirror, .. } => Who::Mirror(*mirror),
        Op::Add { mirror, .. } | Op::Exclusive { mirror, .. } => Who::Mirror(*mirror),
        _ => Who::Cpu(Proc::new(0)),
    }
}

fn ends_piece(alloc: Global, out: &mut Buffer, op: &Op, text: &[u8], number: u32) -> bool
    requires { IsTrue (op_in_range op.now) }
    ensures { result ≡ spec.ends_piece op.now text.now number }
{
    let (addr, len) = op_piece(op, number);
    let who = who_of(op);
    len > 0
        && (is_failed(out, &who, addr, len, text)
            || is_done(alloc, out, op_writes(op), &who, addr, len, text))
}

fn ends_access(alloc: Global, out: &mut Buffer, op: &Op, text: &[u8]) -> bool
    requires { IsTrue (op_in_range op.now) }
    ensures { result ≡ spec.ends_access op.now text.now }
{
    ends_piece(alloc, out, op, text, 0) || ends_piece(alloc, out, op, text, 1)
}

/// The answer of an operation that changes areas or processes.
fn locked_answer(op: &Op) -> Option<Kind>
    ensures { result ≡ spec.locked_answer op.now }
{
    match op {
        Op::Map { proc, span, rights } => Some(Kind::Mapped {
            proc: *proc,
            span: *span,
            rights: *rights,
        }),
        Op::Unmap { proc, span } => Some(Kind::Unmapped {
            proc: *proc,
            span: *span,
        }),
        Op::Protect { proc, span, rights } => Some(Kind::Protected {
            proc: *proc,
            span: *span,
            rights: *rights,
        }),
        Op::Fork { proc, child } => Some(Kind::Forked {
            parent: *proc,
            child: *child,
        }),
        Op::Exit { proc } => Some(Kind::Exited(*proc)),
        _ => None,
    }
}

/// The answer of an operation that is no access, and answers once and always the same if it is not refused.
fn whole_answer(op: &Op) -> Option<Kind>
    ensures { result ≡ spec.whole_answer op.now }
{
    match op {
        Op::Attach {
            mirror,
            dev,
            proc,
            span,
        } => Some(Kind::Attached {
            mirror: *mirror,
            dev: *dev,
            proc: *proc,
            span: *span,
            seq: 0,
        }),
        Op::Detach { mirror } => Some(Kind::Detached(*mirror)),
        Op::Remove { dev } => Some(Kind::Removed(*dev)),
        Op::Exclusive { mirror, page } => Some(Kind::Excluded {
            mirror: *mirror,
            page: *page,
        }),
        _ => locked_answer(op),
    }
}

/// Whether it is a load or a store, by the CPU or through a mirror.
fn is_access(op: &Op) -> bool
    ensures { result ≡ spec.is_access op.now }
{
    match op {
        Op::Load { .. } | Op::Store { .. } => true,
        Op::DeviceLoad { .. } | Op::DeviceStore { .. } => true,
        _ => false,
    }
}

/// Whether an operation that answers with a number, or more than once, may end with the text after its actor, or tell
/// it.
fn ends_rarely(out: &mut Buffer, op: &Op, text: &[u8]) -> bool
    ensures { result ≡ spec.ends_rarely op.now text.now }
{
    match op {
        Op::ToDevice { .. } | Op::ToSystem { .. } => is_migrated(text),
        Op::Snap { mirror, .. } => is_seen(out, *mirror, text),
        Op::Evict { .. } => is_evicted(text),
        Op::Add { mirror, addr, .. } => {
            is_failed(out, &Who::Mirror(*mirror), *addr, 1, text) || is_added(out, *mirror, text)
        }
        _ => false,
    }
}

/// Whether an access or such an operation may end with the text after its actor, or end a piece with it.
fn ends_otherwise(alloc: Global, out: &mut Buffer, op: &Op, text: &[u8]) -> bool
    requires { IsTrue (op_in_range op.now) }
    ensures { result ≡ spec.ends_otherwise op.now text.now }
{
    if is_access(op) {
        ends_access(alloc, out, op, text)
    } else {
        ends_rarely(out, op, text)
    }
}

/// Whether the operation may end with the text after its actor, or end a piece with it.
fn may_end(alloc: Global, out: &mut Buffer, op: &Op, text: &[u8]) -> bool
    requires { IsTrue (op_in_range op.now) }
    ensures { result ≡ spec.may_end op.now text.now }
{
    match whole_answer(op) {
        Some(kind) => says_or_refused(out, &kind, text),
        None => ends_otherwise(alloc, out, op, text),
    }
}

/// Whether one of these operations may.
fn one_ends(alloc: Global, out: &mut Buffer, ops: &[Op], text: &[u8]) -> bool
    requires { list_all (λ o. op_in_range o) ops.now ≡ true }
    ensures { result ≡ spec.one_ends ops.now text.now }
{
    for op in ops {
        if may_end(alloc, out, op, text) {
            return true;
        }
    }
    false
}

/// The operations of an actor.
fn ops_of(script: &Script, actor: u64) -> &[Op]
    ensures ops { result.now ≡ ops_of script.now actor }
    ensures in_range { list_all (λ o. op_in_range o) result.now ≡ true }
{
    script.facts();
    match script.actors.get(actor) {
        Some(ops) => ops.as_slice(),
        None => &[],
    }
}

/// Whether the line begins with this actor, one of whose operations may end with the rest.
fn ends_actor(alloc: Global, out: &mut Buffer, script: &Script, line: &[u8], actor: u64) -> bool
    ensures { result ≡ spec.ends_actor script.now line.now actor }
{
    out.clear();
    put_decimal(out, b"a", actor);
    match rest_after(out.as_slice(), line) {
        Some(text) => one_ends(alloc, out, ops_of(script, actor), text),
        None => false,
    }
}

/// Whether an operation of the script may end with the line, or end a piece with it; a line without its line feed. The
/// buffer is written over.
pub fn may_end_with(alloc: Global, out: &mut Buffer, script: &Script, line: &[u8]) -> bool
    ensures { result ≡ spec.may_end_with script.now line.now }
{
    for actor in 0..script.actors.len() {
        if ends_actor(alloc, out, script, line, actor) {
            return true;
        }
    }
    false
}
