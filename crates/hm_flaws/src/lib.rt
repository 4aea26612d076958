// Drivers with a flaw, and the parts of legality that they break. Each law is the contract of a function with an empty
// body.
#![tactic(auto)]

ghost use Rattle.hm_flaws.specs.Laws.{RightIsDue, RightKeepsItsOwn, RightBreaksNone, JudgedBreaks, ClosedBreaksNone};
ghost use Rattle.hm_flaws.specs.Laws.{UncomparedIsStale, OwnIgnoredLosesStore, LostHeldSticks};
ghost use Rattle.hm_flaws.specs.Told.{ToldApart};

mod flaws;
mod parts;

pub use flaws::Flaw;
pub use parts::Part;

/// What is due to a driver without a flaw is what is due.
pub fn right_is_due()
    ensures { RightIsDue }
{}

/// Without a flaw, the table and the sequences that a driver has of its own are those of the state.
pub fn right_keeps_its_own()
    ensures { RightKeepsItsOwn }
{}

/// A driver without a flaw breaks no part of legality, after any set-up and in any order.
pub fn right_breaks_none()
    ensures { RightBreaksNone }
{}

/// Turns that are judged to break a part are a real race: what came before was due to the driver and broke no part, and
/// the last entry was due to it and breaks that one.
pub fn judged_breaks()
    ensures { JudgedBreaks }
{}

/// A search that is closed, and in which no entry breaks a part of legality, has shown that no order of turns does.
pub fn closed_breaks_none()
    ensures { ClosedBreaksNone }
{}

/// A driver that commits a look-up without comparing sequences uses a stale entry, and answers a wrong byte: two races,
/// by computation.
pub fn uncompared_is_stale()
    ensures { UncomparedIsStale }
{}

/// A driver that ignores the invalidations for its own migrations loses a store of its device: a race, by computation.
pub fn own_ignored_loses_store()
    ensures { OwnIgnoredLosesStore }
{}

/// A driver that never drops the frame of a lost page breaks no part of legality, and the removal of its device waits
/// for ever: a race, by computation.
pub fn lost_held_sticks()
    ensures { LostHeldSticks }
{}

/// What drivers come to in short races, as far as it tells each of them from the right one and from all others: by
/// computation. Of two drivers no short race is known (`SoleAnyway`, `UnnamedHeld`).
pub fn drivers_are_told_apart()
    ensures { ToldApart }
{}
