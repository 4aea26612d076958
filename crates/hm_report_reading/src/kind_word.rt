// The words that name the kinds of entries.
ghost use Rattle.std.specs.Prelude.{◌≡◌};
ghost use Rattle.hm_report_reading.specs.KindWords.{kind_named, kind_text};

/// The word of a kind of entry, by the name that the kind has in the program.
#[derive(Clone, Copy)]
pub enum KindWord {
    Loaded,
    Stored,
    Failed,
    Mapped,
    Unmapped,
    Protected,
    Forked,
    Exited,
    Attached,
    Detaching,
    Detached,
    Refused,
    Migrated,
    Seen,
    Evicted,
    Removed,
    Rlock,
    Runlock,
    Wlock,
    Named,
    Take,
    Drop,
    Place,
    Start,
    Told,
    End,
    Begin,
    Retry,
    Set,
    Fresh,
    Copied,
    Committed,
    Kept,
    Done,
    Withdrawn,
    Excluded,
    Fetched,
    Added,
}

impl KindWord {
    const ALL: [KindWord; 38] = [
        KindWord::Loaded,
        KindWord::Stored,
        KindWord::Failed,
        KindWord::Mapped,
        KindWord::Unmapped,
        KindWord::Protected,
        KindWord::Forked,
        KindWord::Exited,
        KindWord::Attached,
        KindWord::Detaching,
        KindWord::Detached,
        KindWord::Refused,
        KindWord::Migrated,
        KindWord::Seen,
        KindWord::Evicted,
        KindWord::Removed,
        KindWord::Rlock,
        KindWord::Runlock,
        KindWord::Wlock,
        KindWord::Named,
        KindWord::Take,
        KindWord::Drop,
        KindWord::Place,
        KindWord::Start,
        KindWord::Told,
        KindWord::End,
        KindWord::Begin,
        KindWord::Retry,
        KindWord::Set,
        KindWord::Fresh,
        KindWord::Copied,
        KindWord::Committed,
        KindWord::Kept,
        KindWord::Done,
        KindWord::Withdrawn,
        KindWord::Excluded,
        KindWord::Fetched,
        KindWord::Added,
    ];

    /// As a report spells it.
    pub fn text(self) -> &'static [u8]
        ensures { result.now ≡ kind_text self }
    {
        match self {
            KindWord::Loaded => b"loaded",
            KindWord::Stored => b"stored",
            KindWord::Failed => b"failed",
            KindWord::Mapped => b"mapped",
            KindWord::Unmapped => b"unmapped",
            KindWord::Protected => b"protected",
            KindWord::Forked => b"forked",
            KindWord::Exited => b"exited",
            KindWord::Attached => b"attached",
            KindWord::Detaching => b"detaching",
            KindWord::Detached => b"detached",
            KindWord::Refused => b"refused",
            KindWord::Migrated => b"migrated",
            KindWord::Seen => b"seen",
            KindWord::Evicted => b"evicted",
            KindWord::Removed => b"removed",
            KindWord::Rlock => b"rlock",
            KindWord::Runlock => b"runlock",
            KindWord::Wlock => b"wlock",
            KindWord::Named => b"named",
            KindWord::Take => b"take",
            KindWord::Drop => b"drop",
            KindWord::Place => b"place",
            KindWord::Start => b"start",
            KindWord::Told => b"told",
            KindWord::End => b"end",
            KindWord::Begin => b"begin",
            KindWord::Retry => b"retry",
            KindWord::Set => b"set",
            KindWord::Fresh => b"fresh",
            KindWord::Copied => b"copied",
            KindWord::Committed => b"committed",
            KindWord::Kept => b"kept",
            KindWord::Done => b"done",
            KindWord::Withdrawn => b"withdrawn",
            KindWord::Excluded => b"excluded",
            KindWord::Fetched => b"fetched",
            KindWord::Added => b"added",
        }
    }

    /// The kind that the word names.
    #[tactic(auto, unfolding(crate::specs::KindWords::kind_named))]
    pub fn named(word: &[u8]) -> Option<KindWord>
        ensures { result ≡ kind_named word.now }
    {
        KindWord::ALL
            .iter()
            .copied()
            .find(|kind| kind.text() == word)
    }
}
