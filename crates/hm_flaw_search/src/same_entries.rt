// Whether two entries are the same.
ghost use Rattle.std.specs.Prelude.{◌≡◌, true};
ghost use Rattle.hm_flaw_search.specs.Same.{is_no_access, is_no_load, is_no_end, is_change};

use hm_history::{Entry, KeptWhy, Kind};

// Whether the two reasons are the same.
fn same_why(one: &KeptWhy, other: &KeptWhy) -> bool
    ensures yes { result ≡ true → one.now ≡ other.now }
    ensures no { one.now ≡ other.now → result ≡ true }
{
    match one {
        KeptWhy::NotHere => matches!(other, KeptWhy::NotHere),
        KeptWhy::LockedBy(x) => matches!(other, KeptWhy::LockedBy(y) if x == y),
        KeptWhy::NoFrame => matches!(other, KeptWhy::NoFrame),
        KeptWhy::Skipped => matches!(other, KeptWhy::Skipped),
        KeptWhy::Lost => matches!(other, KeptWhy::Lost),
    }
}

// Whether the two are the same, of those that tell what becomes of a lock, a mirror, a process, a frame, a page or a
// device.
fn same_changes(one: &Kind, other: &Kind) -> bool
    ensures yes { result ≡ true → one.now ≡ other.now }
    ensures no { is_change one.now ≡ true → one.now ≡ other.now → result ≡ true }
{
    match one {
        Kind::Rlock(x) => matches!(other, Kind::Rlock(y) if x == y),
        Kind::Runlock(x) => matches!(other, Kind::Runlock(y) if x == y),
        Kind::Wlock(x) => matches!(other, Kind::Wlock(y) if x == y),
        Kind::Detaching { mirror, seq } => {
            let one = (*mirror, *seq);
            matches!(other, Kind::Detaching { mirror, seq } if one == (*mirror, *seq))
        }
        Kind::Named { parent, child } => {
            let one = (*parent, *child);
            matches!(other, Kind::Named { parent, child } if one == (*parent, *child))
        }
        Kind::Take(x) => matches!(other, Kind::Take(y) if x == y),
        Kind::Drop(x) => matches!(other, Kind::Drop(y) if x == y),
        Kind::Place { proc, page, place } => {
            let one = (*proc, *page, *place);
            matches!(other, Kind::Place { proc, page, place } if one == (*proc, *page, *place))
        }
        Kind::Fresh { proc, page } => {
            let one = (*proc, *page);
            matches!(other, Kind::Fresh { proc, page } if one == (*proc, *page))
        }
        Kind::Copied { from, to, part } => {
            let one = (*from, *to, *part);
            matches!(other, Kind::Copied { from, to, part } if one == (*from, *to, *part))
        }
        Kind::Committed { from, to } => {
            let one = (*from, *to);
            matches!(other, Kind::Committed { from, to } if one == (*from, *to))
        }
        Kind::Kept { at, why } => {
            let (x, y) = (at, why);
            matches!(other, Kind::Kept { at, why } if x == at && same_why(y, why))
        }
        Kind::Done(x) => matches!(other, Kind::Done(y) if x == y),
        Kind::Withdrawn(x) => matches!(other, Kind::Withdrawn(y) if x == y),
        _ => false,
    }
}

// Whether the two are the same, of those that are no access, and end no operation but a snapshot.
fn same_step(one: &Kind, other: &Kind) -> bool
    ensures yes { result ≡ true → one.now ≡ other.now }
    ensures no { is_no_end one.now ≡ true → one.now ≡ other.now → result ≡ true }
{
    match one {
        Kind::Seen { mirror, page, code } => {
            let one = (*mirror, *page, *code);
            matches!(other, Kind::Seen { mirror, page, code } if one == (*mirror, *page, *code))
        }
        Kind::Start { proc, span, seq } => {
            let one = (*proc, *span, *seq);
            matches!(other, Kind::Start { proc, span, seq } if one == (*proc, *span, *seq))
        }
        Kind::Told { mirror, span, seq } => {
            let one = (*mirror, *span, *seq);
            matches!(other, Kind::Told { mirror, span, seq } if one == (*mirror, *span, *seq))
        }
        Kind::End { proc, span, seq } => {
            let one = (*proc, *span, *seq);
            matches!(other, Kind::End { proc, span, seq } if one == (*proc, *span, *seq))
        }
        Kind::Begin { mirror, seq } => {
            let one = (*mirror, *seq);
            matches!(other, Kind::Begin { mirror, seq } if one == (*mirror, *seq))
        }
        Kind::Retry(x) => matches!(other, Kind::Retry(y) if x == y),
        Kind::Set {
            mirror,
            page,
            target,
            right,
            since,
        } => {
            let one = (*mirror, *page, *target, *right, *since);
            matches!(other, Kind::Set { mirror, page, target, right, since }
                if one == (*mirror, *page, *target, *right, *since))
        }
        _ => same_changes(one, other),
    }
}

// Whether the two are the same, of those that are no access.
fn same_end(one: &Kind, other: &Kind) -> bool
    ensures yes { result ≡ true → one.now ≡ other.now }
    ensures no { is_no_access one.now ≡ true → one.now ≡ other.now → result ≡ true }
{
    match one {
        Kind::Mapped { proc, span, rights } => {
            let one = (*proc, *span, *rights);
            matches!(other, Kind::Mapped { proc, span, rights } if one == (*proc, *span, *rights))
        }
        Kind::Unmapped { proc, span } => {
            let one = (*proc, *span);
            matches!(other, Kind::Unmapped { proc, span } if one == (*proc, *span))
        }
        Kind::Protected { proc, span, rights } => {
            let one = (*proc, *span, *rights);
            matches!(other, Kind::Protected { proc, span, rights } if one == (*proc, *span, *rights))
        }
        Kind::Forked { parent, child } => {
            let one = (*parent, *child);
            matches!(other, Kind::Forked { parent, child } if one == (*parent, *child))
        }
        Kind::Exited(x) => matches!(other, Kind::Exited(y) if x == y),
        Kind::Attached {
            mirror,
            dev,
            proc,
            span,
            seq,
        } => {
            let one = (*mirror, *dev, *proc, *span, *seq);
            matches!(other, Kind::Attached { mirror, dev, proc, span, seq }
                if one == (*mirror, *dev, *proc, *span, *seq))
        }
        Kind::Detached(x) => matches!(other, Kind::Detached(y) if x == y),
        Kind::Refused(x) => matches!(other, Kind::Refused(y) if x == y),
        Kind::Migrated(x) => matches!(other, Kind::Migrated(y) if x == y),
        Kind::Evicted(x) => matches!(other, Kind::Evicted(y) if x == y),
        Kind::Removed(x) => matches!(other, Kind::Removed(y) if x == y),
        Kind::Excluded { mirror, page } => {
            let one = (*mirror, *page);
            matches!(other, Kind::Excluded { mirror, page } if one == (*mirror, *page))
        }
        _ => same_step(one, other),
    }
}

// Whether the two are the same, of those that are no load and no store.
fn same_access(one: &Kind, other: &Kind) -> bool
    ensures yes { result ≡ true → one.now ≡ other.now }
    ensures no { is_no_load one.now ≡ true → one.now ≡ other.now → result ≡ true }
{
    match one {
        Kind::Failed {
            who,
            addr,
            len,
            cause,
        } => {
            let one = (*who, *addr, *len, *cause);
            matches!(other, Kind::Failed { who, addr, len, cause } if one == (*who, *addr, *len, *cause))
        }
        Kind::Fetched {
            mirror,
            addr,
            bytes,
        } => {
            let one = (*mirror, *addr);
            let read = bytes.as_slice();
            matches!(other, Kind::Fetched { mirror, addr, bytes }
                if one == (*mirror, *addr) && read == bytes.as_slice())
        }
        Kind::Added {
            mirror,
            addr,
            read,
            written,
        } => {
            let one = (*mirror, *addr, *read, *written);
            matches!(other, Kind::Added { mirror, addr, read, written } if one == (*mirror, *addr, *read, *written))
        }
        _ => same_end(one, other),
    }
}

// Whether the two are the same.
fn same_kind(one: &Kind, other: &Kind) -> bool
    ensures yes { result ≡ true → one.now ≡ other.now }
    ensures no { one.now ≡ other.now → result ≡ true }
{
    match one {
        Kind::Loaded { who, addr, bytes } => {
            let one = (*who, *addr);
            let read = bytes.as_slice();
            matches!(other, Kind::Loaded { who, addr, bytes } if one == (*who, *addr) && read == bytes.as_slice())
        }
        Kind::Stored { who, addr, bytes } => {
            let one = (*who, *addr);
            let stored = bytes.as_slice();
            matches!(other, Kind::Stored { who, addr, bytes } if one == (*who, *addr) && stored == bytes.as_slice())
        }
        _ => same_access(one, other),
    }
}

/// Whether the two entries are the same.
pub(crate) fn same_entry(one: &Entry, other: &Entry) -> bool
    ensures yes { result ≡ true → one.now ≡ other.now }
    ensures no { one.now ≡ other.now → result ≡ true }
{
    one.actor == other.actor && same_kind(&one.kind, &other.kind)
}
