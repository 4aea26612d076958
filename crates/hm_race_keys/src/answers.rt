// Answers, copied and compared.
ghost use Rattle.std.specs.Prelude.{◌≡◌, true, Some, IfOk};
ghost use Rattle.hm_race_laws.specs.Outcomes.{answer_of};
ghost use Rattle.hm_race_keys.specs.Answers.{is_plain};

use hm_base::{Bytes, NoMemory};
use hm_history::Kind;
use std::alloc::Global;

// What an entry answers, if it is no answer to an access or a snapshot.
fn plain_answer(kind: &Kind) -> Option<Kind>
    requires { is_plain kind.now ≡ true }
    ensures { result ≡ answer_of kind.now }
{
    match *kind {
        Kind::Mapped { proc, span, rights } => Some(Kind::Mapped { proc, span, rights }),
        Kind::Unmapped { proc, span } => Some(Kind::Unmapped { proc, span }),
        Kind::Protected { proc, span, rights } => Some(Kind::Protected { proc, span, rights }),
        Kind::Forked { parent, child } => Some(Kind::Forked { parent, child }),
        Kind::Exited(proc) => Some(Kind::Exited(proc)),
        Kind::Attached {
            mirror,
            dev,
            proc,
            span,
            seq: _,
        } => Some(Kind::Attached {
            mirror,
            dev,
            proc,
            span,
            seq: 0,
        }),
        Kind::Detached(mirror) => Some(Kind::Detached(mirror)),
        Kind::Refused(cause) => Some(Kind::Refused(cause)),
        Kind::Migrated(pages) => Some(Kind::Migrated(pages)),
        Kind::Evicted(frames) => Some(Kind::Evicted(frames)),
        Kind::Removed(dev) => Some(Kind::Removed(dev)),
        Kind::Excluded { mirror, page } => Some(Kind::Excluded { mirror, page }),
        _ => None,
    }
}

// What an entry answers, if it answers anything; of an `attached` its sequence is left out.
pub(crate) fn answer_of(alloc: Global, kind: &Kind) -> Result<Option<Kind>, NoMemory>
    ensures { IfOk result (λ o. o ≡ answer_of kind.now) }
{
    Ok(match kind {
        Kind::Loaded { who, addr, bytes } => Some(Kind::Loaded {
            who: *who,
            addr: *addr,
            bytes: Bytes::from_slice(alloc, bytes.as_slice())?,
        }),
        Kind::Stored { who, addr, bytes } => Some(Kind::Stored {
            who: *who,
            addr: *addr,
            bytes: Bytes::from_slice(alloc, bytes.as_slice())?,
        }),
        Kind::Failed {
            who,
            addr,
            len,
            cause,
        } => Some(Kind::Failed {
            who: *who,
            addr: *addr,
            len: *len,
            cause: *cause,
        }),
        Kind::Seen { mirror, page, code } => Some(Kind::Seen {
            mirror: *mirror,
            page: *page,
            code: *code,
        }),
        Kind::Added {
            mirror,
            addr,
            read,
            written,
        } => Some(Kind::Added {
            mirror: *mirror,
            addr: *addr,
            read: *read,
            written: *written,
        }),
        _ => plain_answer(kind),
    })
}

// Whether the two are the same, of answers to no access and no snapshot.
fn same_plain(one: &Kind, other: &Kind) -> bool
    ensures yes { result ≡ true → one.now ≡ other.now }
    ensures no { is_plain one.now ≡ true → answer_of one.now ≡ Some one.now
        → one.now ≡ other.now → result ≡ true }
{
    match one {
        Kind::Mapped { proc, span, rights } => {
            let one = (*proc, *span, *rights);
            matches!(other, Kind::Mapped { proc, span, rights } if one == (*proc, *span, *rights))
        }
        Kind::Unmapped { proc, span } => {
            let one = (*proc, *span);
            matches!(other, Kind::Unmapped { proc, span } if one == (*proc, *span))
        }
        Kind::Protected { proc, span, rights } => {
            let one = (*proc, *span, *rights);
            matches!(other, Kind::Protected { proc, span, rights } if one == (*proc, *span, *rights))
        }
        Kind::Forked { parent, child } => {
            let one = (*parent, *child);
            matches!(other, Kind::Forked { parent, child } if one == (*parent, *child))
        }
        Kind::Exited(x) => matches!(other, Kind::Exited(y) if x == y),
        Kind::Attached {
            mirror,
            dev,
            proc,
            span,
            seq,
        } => {
            let one = (*mirror, *dev, *proc, *span, *seq);
            matches!(other, Kind::Attached { mirror, dev, proc, span, seq }
                if one == (*mirror, *dev, *proc, *span, *seq))
        }
        Kind::Detached(x) => matches!(other, Kind::Detached(y) if x == y),
        Kind::Refused(x) => matches!(other, Kind::Refused(y) if x == y),
        Kind::Migrated(x) => matches!(other, Kind::Migrated(y) if x == y),
        Kind::Evicted(x) => matches!(other, Kind::Evicted(y) if x == y),
        Kind::Removed(x) => matches!(other, Kind::Removed(y) if x == y),
        Kind::Excluded { mirror, page } => {
            let one = (*mirror, *page);
            matches!(other, Kind::Excluded { mirror, page } if one == (*mirror, *page))
        }
        _ => false,
    }
}

// Whether the two answers are the same.
pub(crate) fn same_kind(one: &Kind, other: &Kind) -> bool
    ensures yes { result ≡ true → one.now ≡ other.now }
    ensures no { answer_of one.now ≡ Some one.now → one.now ≡ other.now → result ≡ true }
{
    match one {
        Kind::Loaded { who, addr, bytes } => {
            let one = (*who, *addr);
            let read = bytes.as_slice();
            matches!(other, Kind::Loaded { who, addr, bytes } if one == (*who, *addr) && read == bytes.as_slice())
        }
        Kind::Stored { who, addr, bytes } => {
            let one = (*who, *addr);
            let stored = bytes.as_slice();
            matches!(other, Kind::Stored { who, addr, bytes } if one == (*who, *addr) && stored == bytes.as_slice())
        }
        Kind::Failed {
            who,
            addr,
            len,
            cause,
        } => {
            let one = (*who, *addr, *len, *cause);
            matches!(other, Kind::Failed { who, addr, len, cause } if one == (*who, *addr, *len, *cause))
        }
        Kind::Seen { mirror, page, code } => {
            let one = (*mirror, *page, *code);
            matches!(other, Kind::Seen { mirror, page, code } if one == (*mirror, *page, *code))
        }
        Kind::Added {
            mirror,
            addr,
            read,
            written,
        } => {
            let one = (*mirror, *addr, *read, *written);
            matches!(other, Kind::Added { mirror, addr, read, written } if one == (*mirror, *addr, *read, *written))
        }
        _ => same_plain(one, other),
    }
}
