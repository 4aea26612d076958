// The words of entries.
ghost use Rattle.std.specs.Prelude.{◌≡◌};
ghost use Rattle.hm_holds.specs.Words.{same_word, word_of};

use hm_history::Kind;

/// What an entry begins with in a report, after its position and its actor: one word for each kind.
#[derive(Clone, Copy, PartialEq, Eq)]
pub enum Word {
    Loaded,
    Stored,
    Failed,
    Mapped,
    Unmapped,
    Protected,
    Forked,
    Exited,
    Attached,
    Detaching,
    Detached,
    Refused,
    Migrated,
    Seen,
    Evicted,
    Removed,
    Rlock,
    Runlock,
    Wlock,
    Named,
    Take,
    Drop,
    Place,
    Start,
    Told,
    End,
    Begin,
    Retry,
    Set,
    Fresh,
    Copied,
    Committed,
    Kept,
    Done,
    Withdrawn,
    Excluded,
    Fetched,
    Added,
}

/// The word of an entry of this kind.
pub fn word_of(kind: &Kind) -> Word
    ensures { result ≡ word_of kind.now }
{
    match kind {
        Kind::Loaded { .. } => Word::Loaded,
        Kind::Stored { .. } => Word::Stored,
        Kind::Failed { .. } => Word::Failed,
        Kind::Mapped { .. } => Word::Mapped,
        Kind::Unmapped { .. } => Word::Unmapped,
        Kind::Protected { .. } => Word::Protected,
        Kind::Forked { .. } => Word::Forked,
        Kind::Exited(_) => Word::Exited,
        Kind::Attached { .. } => Word::Attached,
        Kind::Detaching { .. } => Word::Detaching,
        Kind::Detached(_) => Word::Detached,
        Kind::Refused(_) => Word::Refused,
        Kind::Migrated(_) => Word::Migrated,
        Kind::Seen { .. } => Word::Seen,
        Kind::Evicted(_) => Word::Evicted,
        Kind::Removed(_) => Word::Removed,
        Kind::Rlock(_) => Word::Rlock,
        Kind::Runlock(_) => Word::Runlock,
        Kind::Wlock(_) => Word::Wlock,
        Kind::Named { .. } => Word::Named,
        Kind::Take(_) => Word::Take,
        Kind::Drop(_) => Word::Drop,
        Kind::Place { .. } => Word::Place,
        Kind::Start { .. } => Word::Start,
        Kind::Told { .. } => Word::Told,
        Kind::End { .. } => Word::End,
        Kind::Begin { .. } => Word::Begin,
        Kind::Retry(_) => Word::Retry,
        Kind::Set { .. } => Word::Set,
        Kind::Fresh { .. } => Word::Fresh,
        Kind::Copied { .. } => Word::Copied,
        Kind::Committed { .. } => Word::Committed,
        Kind::Kept { .. } => Word::Kept,
        Kind::Done(_) => Word::Done,
        Kind::Withdrawn(_) => Word::Withdrawn,
        Kind::Excluded { .. } => Word::Excluded,
        Kind::Fetched { .. } => Word::Fetched,
        Kind::Added { .. } => Word::Added,
    }
}

/// Whether the two are the same.
pub fn same_word(one: Word, other: Word) -> bool
    ensures { result ≡ same_word one other }
{
    one == other
}
