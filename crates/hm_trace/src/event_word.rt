// The words that name the events.
ghost use Rattle.std.specs.Prelude.{◌≡◌};
ghost use Rattle.hm_trace.specs.EventWords.{event_named, word_text};

/// The word of an event, by the name that the event has in the program.
#[derive(Clone, Copy)]
pub(crate) enum EventWord {
    Found,
    Use,
    Set,
    Erase,
    Start,
    End,
    Tell,
    Told,
    Begin,
    Walk,
    Walked,
    From,
    Moved,
    Stayed,
    Setup,
    Ready,
    Paged,
    Finalize,
    Take,
    Free,
    Insert,
    Inserted,
    Remove,
    Removed,
    Fetch,
    Add,
    Withdraw,
    Gone,
    Pass,
}

impl EventWord {
    /// The frequent ones first: a word is looked for in this order.
    const ALL: [EventWord; 29] = [
        EventWord::Found,
        EventWord::Use,
        EventWord::Set,
        EventWord::Erase,
        EventWord::Start,
        EventWord::End,
        EventWord::Tell,
        EventWord::Told,
        EventWord::Begin,
        EventWord::Walk,
        EventWord::Walked,
        EventWord::From,
        EventWord::Moved,
        EventWord::Stayed,
        EventWord::Setup,
        EventWord::Ready,
        EventWord::Paged,
        EventWord::Finalize,
        EventWord::Take,
        EventWord::Free,
        EventWord::Insert,
        EventWord::Inserted,
        EventWord::Remove,
        EventWord::Removed,
        EventWord::Fetch,
        EventWord::Add,
        EventWord::Withdraw,
        EventWord::Gone,
        EventWord::Pass,
    ];

    fn text(self) -> &'static [u8]
        ensures { result.now ≡ word_text self }
    {
        match self {
            EventWord::Found => b"found",
            EventWord::Use => b"use",
            EventWord::Set => b"set",
            EventWord::Erase => b"erase",
            EventWord::Start => b"start",
            EventWord::End => b"end",
            EventWord::Tell => b"tell",
            EventWord::Told => b"told",
            EventWord::Begin => b"begin",
            EventWord::Walk => b"walk",
            EventWord::Walked => b"walked",
            EventWord::From => b"from",
            EventWord::Moved => b"moved",
            EventWord::Stayed => b"stayed",
            EventWord::Setup => b"setup",
            EventWord::Ready => b"ready",
            EventWord::Paged => b"pages",
            EventWord::Finalize => b"finalize",
            EventWord::Take => b"take",
            EventWord::Free => b"free",
            EventWord::Insert => b"insert",
            EventWord::Inserted => b"inserted",
            EventWord::Remove => b"remove",
            EventWord::Removed => b"removed",
            EventWord::Fetch => b"fetch",
            EventWord::Add => b"add",
            EventWord::Withdraw => b"withdraw",
            EventWord::Gone => b"gone",
            EventWord::Pass => b"pass",
        }
    }

    /// The event that this word names.
    #[tactic(auto, unfolding(crate::specs::EventWords::event_named))]
    pub(crate) fn named(word: &[u8]) -> Option<EventWord>
        ensures { result ≡ event_named word.now }
    {
        EventWord::ALL
            .iter()
            .copied()
            .find(|event| event.text() == word)
    }
}
