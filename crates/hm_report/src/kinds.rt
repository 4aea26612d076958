// The words of an entry, written into a buffer.
ghost use Rattle.std.specs.Prelude.{◌≡◌, ◌+◌, ◌≤◌, ◌∷◌, ◌++◌, [], codes, length, true};
ghost use Rattle.std.specs.Fmt.{decimal};
ghost use Rattle.hm_history.specs.declared.Kind.{Kind as AnyKind};
ghost use Rattle.hm_script.specs.Spelling.{address_text};
ghost use Rattle.hm_report.specs.Kinds.{is_step};
ghost use Rattle.hm_report.specs.Words.{place_words, why_words, actor_text, mirror_text, head_words, interval_words};
ghost use Rattle.hm_report.specs.Line.{spaced};

use crate::buffer::{Buffer, ROOM};
use crate::numerals::{put_address, put_decimal};
use crate::shapes::{
    put_of_access, put_of_area, put_of_device, put_of_frame, put_of_frames, put_of_guard,
    put_of_mirror, put_of_mirror_at, put_of_number, put_of_page, put_of_proc, put_of_procs,
    put_of_span,
};
use crate::words::{
    put_actor, put_cause, put_device, put_frame, put_hex, put_kept, put_mirror, put_number,
    put_part, put_proc, put_rights, put_span, put_table_right, put_target, put_who, put_writes,
};
use hm_base::frames::{dev_frame, sys_frame};
use hm_base::{Cause, Dev, Frame, MirrorId, Page, Place, Proc, Span};
use hm_history::{Entry, KeptAt, KeptWhy, Kind, TableRight, Who};

/// Adds the words of a place.
#[tactic(auto, using(std::proofs::Common::append_assoc))]
fn put_place(out: &mut Buffer, place: &Place)
    requires { length out.old + 300 ≤ ROOM }
    ensures text { out.new ≡ out.old ++ spaced (place_words place.now) }
    ensures room { length out.new ≤ length out.old + 300 }
{
    match place {
        Place::Empty => out.put(b" none"),
        Place::Zero => out.put(b" zero"),
        Place::Sys { number, writable } => {
            out.put(b" sys");
            put_frame(out, &sys_frame(*number));
            put_writes(out, *writable);
        }
        Place::Own {
            dev,
            number,
            writable,
        } => {
            out.put(b" own");
            put_frame(out, &dev_frame(*dev, *number));
            put_writes(out, *writable);
        }
        Place::Moving { frame, writable } => {
            out.put(b" moving");
            put_frame(out, frame);
            put_writes(out, *writable);
        }
        Place::Exclusive { number, actor } => {
            out.put(b" excl");
            put_frame(out, &sys_frame(*number));
            put_actor(out, *actor);
        }
    }
}

/// Adds the words of a reason.
#[tactic(auto, using(std::proofs::Common::append_assoc))]
fn put_why(out: &mut Buffer, why: &KeptWhy)
    requires { length out.old + 200 ≤ ROOM }
    ensures text { out.new ≡ out.old ++ spaced (why_words why.now) }
    ensures room { length out.new ≤ length out.old + 200 }
{
    match why {
        KeptWhy::NotHere => out.put(b" nothere"),
        KeptWhy::LockedBy(actor) => {
            out.put(b" locked");
            put_actor(out, *actor);
        }
        KeptWhy::NoFrame => out.put(b" noframe"),
        KeptWhy::Skipped => out.put(b" skipped"),
        KeptWhy::Lost => out.put(b" lost"),
    }
}

/// Adds the words of an interval's coming, but for its sequence.
#[tactic(auto, using(std::proofs::Common::append_assoc))]
pub fn put_interval(out: &mut Buffer, mirror: MirrorId, dev: Dev, proc: Proc, window: Span)
    requires { length out.old + 800 ≤ ROOM }
    ensures text { out.new ≡ out.old ++ spaced (interval_words mirror dev proc window) }
    ensures room { length out.new ≤ length out.old + 800 }
{
    out.put(b" attached");
    put_mirror(out, mirror);
    put_device(out, dev);
    put_proc(out, proc);
    put_span(out, window);
}

/// Adds the words of an interval's coming.
#[tactic(auto, using(std::proofs::Common::append_assoc))]
fn put_attached(out: &mut Buffer, mirror: MirrorId, dev: Dev, proc: Proc, window: Span, seq: u64)
    requires { length out.old + 1000 ≤ ROOM }
    ensures text { out.new ≡ out.old ++ spaced (head_words (AnyKind.Attached mirror dev proc window seq)) }
    ensures room { length out.new ≤ length out.old + 1000 }
{
    put_interval(out, mirror, dev, proc, window);
    put_number(out, seq);
}

/// Adds the words of an access that failed.
#[inline(always)]
#[tactic(auto, using(std::proofs::Common::append_assoc))]
fn put_failed(out: &mut Buffer, who: Who, addr: u64, len: u64, cause: Cause)
    requires { length out.old + 1000 ≤ ROOM }
    ensures text { out.new ≡ out.old ++ spaced (head_words (AnyKind.Failed who addr len cause)) }
    ensures room { length out.new ≤ length out.old + 1000 }
{
    put_of_access(out, b" failed", who, addr);
    put_number(out, len);
    put_cause(out, cause);
}

/// Adds the words of a refusal.
#[inline(always)]
#[tactic(auto, using(std::proofs::Common::append_assoc))]
fn put_refused(out: &mut Buffer, cause: Cause)
    requires { length out.old + 1000 ≤ ROOM }
    ensures text { out.new ≡ out.old ++ spaced (head_words (AnyKind.Refused cause)) }
    ensures room { length out.new ≤ length out.old + 1000 }
{
    out.put(b" refused");
    put_cause(out, cause);
}

/// Adds the words of a snapshot's code.
#[inline(always)]
#[tactic(auto, using(std::proofs::Common::append_assoc))]
fn put_seen(out: &mut Buffer, mirror: MirrorId, page: Page, code: u8)
    requires { length out.old + 1000 ≤ ROOM }
    ensures text { out.new ≡ out.old ++ spaced (head_words (AnyKind.Seen mirror page code)) }
    ensures room { length out.new ≤ length out.old + 1000 }
{
    put_of_mirror_at(out, b" seen", mirror, page.number());
    put_hex(out, code);
}

/// Adds the words of an addition.
#[inline(always)]
#[tactic(auto, using(std::proofs::Common::append_assoc))]
fn put_added(out: &mut Buffer, mirror: MirrorId, addr: u64, read: u8, written: u8)
    requires { length out.old + 1000 ≤ ROOM }
    ensures text { out.new ≡ out.old ++ spaced (head_words (AnyKind.Added mirror addr read written)) }
    ensures room { length out.new ≤ length out.old + 1000 }
{
    out.put(b" added");
    put_mirror(out, mirror);
    put_address(out, addr);
    put_hex(out, read);
    put_hex(out, written);
}

/// Adds the words of a page's place.
#[inline(always)]
#[tactic(auto, using(std::proofs::Common::append_assoc))]
fn put_placed(out: &mut Buffer, proc: Proc, page: Page, place: &Place)
    requires { length out.old + 1000 ≤ ROOM }
    ensures text { out.new ≡ out.old ++ spaced (head_words (AnyKind.Place proc page place.now)) }
    ensures room { length out.new ≤ length out.old + 1000 }
{
    put_of_page(out, b" place", proc, page);
    put_place(out, place);
}

/// Adds the words of a mirror's being told.
#[inline(always)]
#[tactic(auto, using(std::proofs::Common::append_assoc))]
fn put_told(out: &mut Buffer, mirror: MirrorId, span: Span, seq: u64)
    requires { length out.old + 1000 ≤ ROOM }
    ensures text { out.new ≡ out.old ++ spaced (head_words (AnyKind.Told mirror span seq)) }
    ensures room { length out.new ≤ length out.old + 1000 }
{
    out.put(b" told");
    put_mirror(out, mirror);
    put_span(out, span);
    put_number(out, seq);
}

/// Adds the words of an entry in a mirror's table.
#[inline(always)]
#[tactic(auto, using(std::proofs::Common::append_assoc))]
fn put_set(
    out: &mut Buffer,
    mirror: MirrorId,
    page: Page,
    target: &Option<Frame>,
    right: TableRight,
    since: u64,
)
    requires { length out.old + 1000 ≤ ROOM }
    ensures text { out.new ≡ out.old ++ spaced (head_words (AnyKind.Set mirror page target.now right since)) }
    ensures room { length out.new ≤ length out.old + 1000 }
{
    put_of_mirror_at(out, b" set", mirror, page.number());
    put_target(out, target);
    put_table_right(out, right);
    put_number(out, since);
}

/// Adds the words of a copy.
#[inline(always)]
#[tactic(auto, using(std::proofs::Common::append_assoc))]
fn put_copied(out: &mut Buffer, from: &Frame, to: &Frame, part: Option<u8>)
    requires { length out.old + 1000 ≤ ROOM }
    ensures text { out.new ≡ out.old ++ spaced (head_words (AnyKind.Copied from.now to.now part)) }
    ensures room { length out.new ≤ length out.old + 1000 }
{
    put_of_frames(out, b" copied", from, to);
    put_part(out, part);
}

/// Adds the words of what stays where it is.
#[inline(always)]
#[tactic(auto, using(std::proofs::Common::append_assoc))]
fn put_left(out: &mut Buffer, at: &KeptAt, why: &KeptWhy)
    requires { length out.old + 1000 ≤ ROOM }
    ensures text { out.new ≡ out.old ++ spaced (head_words (AnyKind.Kept at.now why.now)) }
    ensures room { length out.new ≤ length out.old + 1000 }
{
    out.put(b" kept");
    put_kept(out, at);
    put_why(out, why);
}

/// Adds the words of what an addition read, but for the byte.
#[inline(always)]
#[tactic(auto, using(std::proofs::Common::append_assoc))]
fn put_fetched(out: &mut Buffer, mirror: MirrorId, addr: u64)
    requires { length out.old + 1000 ≤ ROOM }
    ensures text { out.new ≡ out.old ++ spaced (codes "fetched" ∷ mirror_text mirror ∷ address_text addr ∷ []) }
    ensures room { length out.new ≤ length out.old + 1000 }
{
    out.put(b" fetched");
    put_mirror(out, mirror);
    put_address(out, addr);
}

/// Adds the words of a step within an operation.
#[inline(always)]
#[tactic(auto, using(std::proofs::Common::append_assoc))]
fn put_step(out: &mut Buffer, kind: &Kind)
    requires step { is_step kind.now ≡ true }
    requires room { length out.old + 1000 ≤ ROOM }
    ensures text { out.new ≡ out.old ++ spaced (head_words kind.now) }
    ensures room { length out.new ≤ length out.old + 1000 }
{
    match kind {
        Kind::Detaching { mirror, seq } => put_of_mirror_at(out, b" detaching", *mirror, *seq),
        Kind::Rlock(proc) => put_of_proc(out, b" rlock", *proc),
        Kind::Runlock(proc) => put_of_proc(out, b" runlock", *proc),
        Kind::Wlock(proc) => put_of_proc(out, b" wlock", *proc),
        Kind::Named { parent, child } => put_of_procs(out, b" named", *parent, *child),
        Kind::Take(frame) => put_of_frame(out, b" take", frame),
        Kind::Drop(frame) => put_of_frame(out, b" drop", frame),
        Kind::Place { proc, page, place } => put_placed(out, *proc, *page, place),
        Kind::Start { proc, span, seq } => put_of_guard(out, b" start", *proc, *span, *seq),
        Kind::Told { mirror, span, seq } => put_told(out, *mirror, *span, *seq),
        Kind::End { proc, span, seq } => put_of_guard(out, b" end", *proc, *span, *seq),
        Kind::Begin { mirror, seq } => put_of_mirror_at(out, b" begin", *mirror, *seq),
        Kind::Retry(mirror) => put_of_mirror(out, b" retry", *mirror),
        Kind::Set {
            mirror,
            page,
            target,
            right,
            since,
        } => put_set(out, *mirror, *page, target, *right, *since),
        Kind::Fresh { proc, page } => put_of_page(out, b" fresh", *proc, *page),
        Kind::Copied { from, to, part } => put_copied(out, from, to, *part),
        Kind::Committed { from, to } => put_of_frames(out, b" committed", from, to),
        Kind::Kept { at, why } => put_left(out, at, why),
        Kind::Done(frame) => put_of_frame(out, b" done", frame),
        Kind::Withdrawn(dev) => put_of_device(out, b" withdrawn", *dev),
        Kind::Fetched { mirror, addr, .. } => put_fetched(out, *mirror, *addr),
        _ => unreachable!(),
    }
}

/// Adds the words of a kind, but for bytes that were read or written.
#[inline(always)]
#[tactic(auto, using(std::proofs::Common::append_assoc))]
pub fn put_head(out: &mut Buffer, kind: &Kind)
    requires { length out.old + 1000 ≤ ROOM }
    ensures text { out.new ≡ out.old ++ spaced (head_words kind.now) }
    ensures room { length out.new ≤ length out.old + 1000 }
{
    match kind {
        Kind::Loaded { who, addr, .. } => put_of_access(out, b" loaded", *who, *addr),
        Kind::Stored { who, addr, .. } => put_of_access(out, b" stored", *who, *addr),
        Kind::Failed {
            who,
            addr,
            len,
            cause,
        } => put_failed(out, *who, *addr, *len, *cause),
        Kind::Mapped { proc, span, rights } => put_of_area(out, b" mapped", *proc, *span, *rights),
        Kind::Unmapped { proc, span } => put_of_span(out, b" unmapped", *proc, *span),
        Kind::Protected { proc, span, rights } => {
            put_of_area(out, b" protected", *proc, *span, *rights)
        }
        Kind::Forked { parent, child } => put_of_procs(out, b" forked", *parent, *child),
        Kind::Exited(proc) => put_of_proc(out, b" exited", *proc),
        Kind::Attached {
            mirror,
            dev,
            proc,
            span,
            seq,
        } => put_attached(out, *mirror, *dev, *proc, *span, *seq),
        Kind::Detached(mirror) => put_of_mirror(out, b" detached", *mirror),
        Kind::Refused(cause) => put_refused(out, *cause),
        Kind::Migrated(pages) => put_of_number(out, b" migrated", *pages),
        Kind::Seen { mirror, page, code } => put_seen(out, *mirror, *page, *code),
        Kind::Evicted(frames) => put_of_number(out, b" evicted", *frames),
        Kind::Removed(dev) => put_of_device(out, b" removed", *dev),
        Kind::Excluded { mirror, page } => {
            put_of_mirror_at(out, b" excluded", *mirror, page.number())
        }
        Kind::Added {
            mirror,
            addr,
            read,
            written,
        } => put_added(out, *mirror, *addr, *read, *written),
        _ => put_step(out, kind),
    }
}

/// Adds an entry's line, but for bytes that were read or written and the line feed.
#[tactic(auto, using(std::proofs::Common::append_assoc))]
pub fn put_front(out: &mut Buffer, at: u64, entry: &Entry)
    requires { length out.old + 1200 ≤ ROOM }
    ensures text { out.new
        ≡ out.old ++ (decimal at ++ spaced (actor_text entry.now.actor ∷ head_words entry.now.kind)) }
    ensures room { length out.new ≤ length out.old + 1200 }
{
    put_decimal(out, b"", at);
    put_actor(out, entry.actor);
    put_head(out, &entry.kind);
}
