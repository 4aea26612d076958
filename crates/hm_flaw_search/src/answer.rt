// What a search has found of a driver, and the exit status of a program that writes it.
ghost use Rattle.std.specs.Prelude.{◌≡◌};
ghost use Rattle.hm_flaw_search.specs.Outcomes.{extent, answer_code, nothing_word};

use hm_base::{Actor, ListOf};
use hm_flaws::Part;
use hm_history::{Entry, Progress};
use hm_search::End;

/// What was found.
#[derive(Drop)]
pub enum Found {
    /// Entries after the set-up that break no part of legality, and then one that breaks a part.
    Broken {
        entries: ListOf<Entry>,
        last: Entry,
        part: Part,
    },
    /// Entries after the set-up, after which nothing is due to anybody, and some operation has not ended.
    Stuck {
        entries: ListOf<Entry>,
    },
    /// Neither.
    Nothing,
}

/// What was due where a driver does otherwise than the right one.
#[derive(Drop)]
pub struct Owed {
    /// The position in the history of the entry that was made in its place.
    pub at: u64,
    pub actor: Actor,
    /// What the right driver would have come to with that turn, in the same state.
    pub due: Progress,
}

/// What a search for races of a driver says.
#[derive(Drop)]
pub struct Answer {
    pub found: Found,
    /// How many states the search knows.
    pub states: u64,
    pub end: End,
    /// Whether the driver leaves a rule out, all states are known, nothing was found, and it never does otherwise than
    /// the right driver.
    pub unused: bool,
    /// What was due where the driver first does otherwise in the race. `None` if each entry is one that the right
    /// driver would have made in the same state: then the rule left out a step, which is not looked for any more.
    pub owed: Option<Owed>,
}

impl Answer {
    /// How much of the race is known, as it is written: a search that came to an entry that breaks a part has looked at
    /// all that it was to look at.
    pub fn extent(&self) -> End
        ensures { result ≡ extent self.now.found self.now.end }
    {
        match &self.found {
            Found::Broken { .. } => match self.end {
                End::Whole | End::Reached => End::Whole,
                End::Cut => End::Cut,
            },
            Found::Stuck { .. } | Found::Nothing => self.end,
        }
    }

    /// The word for a search that found nothing.
    pub fn nothing_word(&self) -> &'static str
        ensures { result.now ≡ nothing_word self.now.unused }
    {
        if self.unused { "unused" } else { "none" }
    }

    /// The exit status: 1 if the driver does what it must not do, 0 if it does so in no order of turns, and 10 if the
    /// search ended before it was known.
    pub fn code(&self) -> u8
        ensures { result ≡ answer_code self.now }
    {
        match &self.found {
            Found::Broken { .. } | Found::Stuck { .. } => 1,
            Found::Nothing => match self.end {
                End::Whole => 0,
                End::Cut | End::Reached => 10,
            },
        }
    }
}
