// Holds, and how far each of them is.
ghost use Rattle.std.specs.Prelude.{◌≡◌};
ghost use Rattle.hm_holds.specs.Holds.{hold_next, hold_start, is_now_at, own_next, stops_now, left_next};

use crate::words::{Word, same_word, word_of};
use hm_base::Actor;
use hm_history::Entry;

/// One of the entries that an actor makes after the set-up, by its word and the number of those with this word: the
/// first has the number 1.
#[derive(Clone, Copy, PartialEq, Eq)]
pub struct Nth {
    pub word: Word,
    pub number: u64,
}

/// After an entry of its own, or before it has made any, an actor makes none until another one has made one of its own.
#[derive(Clone, Copy, PartialEq, Eq)]
pub struct Hold {
    pub actor: Actor,
    /// The entry after which it waits. It waits at first if there is none.
    pub after: Option<Nth>,
    pub other: Actor,
    /// The entry of the other one for which it waits.
    pub until: Nth,
}

/// A hold, and what a search keeps of it.
#[derive(Clone, Copy, PartialEq, Eq)]
pub struct HoldState {
    pub hold: Hold,
    /// Whether the actor's last entry is the one after which it waits.
    pub is_at: bool,
    /// How many entries with the word of that one the actor has still to make until it has made that one.
    pub own_left: u64,
    /// How many with the word of the one for which it waits the other actor has still to make.
    pub left: u64,
}

// The number left after one more, if it counts.
fn one_less(left: u64, counts: bool) -> u64
    ensures { result ≡ left_next counts left }
{
    if counts { left.saturating_sub(1) } else { left }
}

impl HoldState {
    /// The hold before the first entry after the set-up.
    pub fn new(hold: Hold) -> HoldState
        ensures { result ≡ hold_start hold }
    {
        let left = hold.until.number;
        let is_at = hold.after.is_none();
        let own_left = match hold.after {
            None => 0,
            Some(own) => own.number,
        };
        HoldState {
            hold,
            is_at,
            own_left,
            left,
        }
    }

    // Whether the actor's last entry is the one after which it waits, after one of the actor with this word.
    fn is_now_at(&self, word: Word) -> bool
        ensures { result ≡ is_now_at self.now word }
    {
        match self.hold.after {
            None => false,
            Some(own) => same_word(own.word, word) && self.own_left == 1,
        }
    }

    // How many the actor has still to make, after one with this word.
    fn own_after(&self, word: Word) -> u64
        ensures { result ≡ own_next self.now word }
    {
        match self.hold.after {
            None => self.own_left,
            Some(own) => one_less(self.own_left, same_word(own.word, word)),
        }
    }

    /// The hold after one entry more.
    pub fn after(&self, entry: &Entry) -> HoldState
        ensures { result ≡ hold_next self.now entry.now }
    {
        let word = word_of(&entry.kind);
        let is_own = entry.actor == self.hold.actor;
        let counts = entry.actor == self.hold.other && same_word(self.hold.until.word, word);
        HoldState {
            hold: self.hold,
            is_at: if is_own {
                self.is_now_at(word)
            } else {
                self.is_at
            },
            own_left: if is_own {
                self.own_after(word)
            } else {
                self.own_left
            },
            left: one_less(self.left, counts),
        }
    }

    /// Whether the actor may make no entry.
    pub fn stops(&self, actor: Actor) -> bool
        ensures { result ≡ stops_now self.now actor }
    {
        actor == self.hold.actor && self.is_at && self.left > 0
    }
}
