// A race of a driver with a flaw as its few holds: places at which one actor waits for another, so that every order of
// turns that keeps them goes wrong. Each law is the contract of a function that does nothing.
#![tactic(auto)]

ghost use Rattle.hm_holds.specs.Laws.{HeldRacesAreSystems, KeptTurnsAreJudged, KeptTurnsBreak, ReachedFails};
ghost use Rattle.hm_holds.specs.Laws.{SureBreaks, WholeIsSure};

mod holds;
mod same;
mod words;

pub use holds::{Hold, HoldState, Nth};
pub use words::{Word, same_word, word_of};

/// A race of a driver with a flaw, of which only the orders of turns are looked at that keep some holds, is a system
/// that can be searched.
pub fn held_races_are_systems()
    ensures { HeldRacesAreSystems }
{
    hm_flaw_parts::races::flaw_races_are_systems();
}

/// After turns that keep the holds, its point is that of what they are judged to come to without holds.
pub fn kept_turns_are_judged()
    ensures { KeptTurnsAreJudged }
{
    hm_flaw_parts::races::turns_are_judged();
}

/// Turns that keep the holds and break a part are a race in which the driver breaks it, with the last of them.
pub fn kept_turns_break()
    ensures { KeptTurnsBreak }
{
    hm_flaw_parts::races::turns_are_judged();
    hm_flaw_parts::races::broken_turns_break();
    held_races_are_systems();
}

/// A search that knows the form after all turns, and no state that is a dead end, has shown that every order of turns
/// that keeps the holds goes wrong.
pub fn whole_is_sure()
    ensures { WholeIsSure }
{
    hm_flaw_parts::races::turns_are_judged();
    held_races_are_systems();
}

/// A known state that is a dead end is what an order of turns comes to that keeps the holds and does not go wrong.
pub fn reached_fails()
    ensures { ReachedFails }
{
    hm_flaw_parts::races::turns_are_judged();
    held_races_are_systems();
}

/// If every order of turns that keeps the holds goes wrong, there is such an order, and the race in which the driver
/// breaks a part with its last turn.
pub fn sure_breaks()
    ensures { SureBreaks }
{
    kept_turns_break();
}
