// Copies of entries, in memory of their own.
ghost use Rattle.std.specs.Prelude.{◌≡◌, true, IfOk};
ghost use Rattle.hm_machine.specs.Copies.{is_plain, is_plain_step};

use hm_base::{Bytes, NoMemory};
use hm_history::{Entry, Kind};
use std::alloc::Global;

fn copy_bytes(alloc: Global, bytes: &Bytes) -> Result<Bytes, NoMemory>
    ensures { IfOk result (λ b. b ≡ bytes.now) }
{
    Bytes::from_slice(alloc, bytes.as_slice())
}

// The same kind once more, of a step of an operation that tells no bytes.
fn copy_step(kind: &Kind) -> Kind
    requires { is_plain_step kind.now ≡ true }
    ensures { result ≡ kind.now }
{
    match *kind {
        Kind::Detaching { mirror, seq } => Kind::Detaching { mirror, seq },
        Kind::Rlock(proc) => Kind::Rlock(proc),
        Kind::Runlock(proc) => Kind::Runlock(proc),
        Kind::Wlock(proc) => Kind::Wlock(proc),
        Kind::Named { parent, child } => Kind::Named { parent, child },
        Kind::Take(frame) => Kind::Take(frame),
        Kind::Drop(frame) => Kind::Drop(frame),
        Kind::Place { proc, page, place } => Kind::Place { proc, page, place },
        Kind::Start { proc, span, seq } => Kind::Start { proc, span, seq },
        Kind::Told { mirror, span, seq } => Kind::Told { mirror, span, seq },
        Kind::End { proc, span, seq } => Kind::End { proc, span, seq },
        Kind::Begin { mirror, seq } => Kind::Begin { mirror, seq },
        Kind::Retry(mirror) => Kind::Retry(mirror),
        Kind::Set {
            mirror,
            page,
            target,
            right,
            since,
        } => Kind::Set {
            mirror,
            page,
            target,
            right,
            since,
        },
        Kind::Fresh { proc, page } => Kind::Fresh { proc, page },
        Kind::Copied { from, to, part } => Kind::Copied { from, to, part },
        Kind::Committed { from, to } => Kind::Committed { from, to },
        Kind::Kept { at, why } => Kind::Kept { at, why },
        Kind::Done(frame) => Kind::Done(frame),
        Kind::Withdrawn(dev) => Kind::Withdrawn(dev),
        _ => unreachable!(),
    }
}

// The same kind once more, of one that tells no bytes and is no access that failed.
fn copy_plain(kind: &Kind) -> Kind
    requires { is_plain kind.now ≡ true }
    ensures { result ≡ kind.now }
{
    match *kind {
        Kind::Mapped { proc, span, rights } => Kind::Mapped { proc, span, rights },
        Kind::Unmapped { proc, span } => Kind::Unmapped { proc, span },
        Kind::Protected { proc, span, rights } => Kind::Protected { proc, span, rights },
        Kind::Forked { parent, child } => Kind::Forked { parent, child },
        Kind::Exited(proc) => Kind::Exited(proc),
        Kind::Attached {
            mirror,
            dev,
            proc,
            span,
            seq,
        } => Kind::Attached {
            mirror,
            dev,
            proc,
            span,
            seq,
        },
        Kind::Detached(mirror) => Kind::Detached(mirror),
        Kind::Refused(cause) => Kind::Refused(cause),
        Kind::Migrated(pages) => Kind::Migrated(pages),
        Kind::Seen { mirror, page, code } => Kind::Seen { mirror, page, code },
        Kind::Evicted(frames) => Kind::Evicted(frames),
        Kind::Removed(dev) => Kind::Removed(dev),
        Kind::Excluded { mirror, page } => Kind::Excluded { mirror, page },
        Kind::Added {
            mirror,
            addr,
            read,
            written,
        } => Kind::Added {
            mirror,
            addr,
            read,
            written,
        },
        _ => copy_step(kind),
    }
}

fn copy_kind(alloc: Global, kind: &Kind) -> Result<Kind, NoMemory>
    ensures { IfOk result (λ k. k ≡ kind.now) }
{
    Ok(match kind {
        Kind::Loaded { who, addr, bytes } => Kind::Loaded {
            who: *who,
            addr: *addr,
            bytes: copy_bytes(alloc, bytes)?,
        },
        Kind::Stored { who, addr, bytes } => Kind::Stored {
            who: *who,
            addr: *addr,
            bytes: copy_bytes(alloc, bytes)?,
        },
        Kind::Fetched {
            mirror,
            addr,
            bytes,
        } => Kind::Fetched {
            mirror: *mirror,
            addr: *addr,
            bytes: copy_bytes(alloc, bytes)?,
        },
        Kind::Failed {
            who,
            addr,
            len,
            cause,
        } => Kind::Failed {
            who: *who,
            addr: *addr,
            len: *len,
            cause: *cause,
        },
        _ => copy_plain(kind),
    })
}

/// The same entry. It takes memory for the bytes that the entry tells, and for nothing else.
pub fn copy_entry(alloc: Global, entry: &Entry) -> Result<Entry, NoMemory>
    ensures { IfOk result (λ e. e ≡ entry.now) }
{
    Ok(Entry {
        actor: entry.actor,
        kind: copy_kind(alloc, &entry.kind)?,
    })
}
