// Races of a driver with a flaw, as systems that are searched, and what a search says. Each law is the contract of a
// function that does nothing.

ghost use Rattle.hm_flaw_parts.specs.Races.Laws.{BrokenTurnsBreak, FirstBreaksSoonest, FirstSticksSoonest};
ghost use Rattle.hm_flaw_parts.specs.Races.Laws.{FlawRacesAreSystems, RightTurnsBreakNone, RightTurnsFindNone};
ghost use Rattle.hm_flaw_parts.specs.Races.Laws.{StuckTurnsStick, TurnsAreJudged, UnbrokenBreaksLater};
ghost use Rattle.hm_flaw_parts.specs.Races.Laws.{UnbrokenBreaksNone};
ghost use Rattle.hm_flaw_parts.specs.Races.Laws.{UnstuckNeverSticks, UnstuckSticksLater, WholeBreaksNone};
ghost use Rattle.hm_flaw_parts.specs.Races.Laws.{WholeNeverSticks};

/// A race of a driver with a flaw is a system that can be searched.
pub fn flaw_races_are_systems()
    ensures { FlawRacesAreSystems }
{}

/// The point after turns is what these turns are judged to come to.
pub fn turns_are_judged()
    ensures { TurnsAreJudged }
{}

/// Turns that break a part are a race in which the driver breaks it; if each adds an entry, with the last of them.
pub fn broken_turns_break()
    ensures { BrokenTurnsBreak }
{
    hm_flaws::judged_breaks();
}

/// Turns after which the driver is stuck, if no part was broken, are a race that comes to that.
pub fn stuck_turns_stick()
    ensures { StuckTurnsStick }
{}

/// If no turns break a part, the driver breaks none, in whatever order its actors take turns.
pub fn unbroken_breaks_none()
    ensures { UnbrokenBreaksNone }
{}

/// If no turns that are fewer than n break a part, no race breaks one with fewer than n entries.
pub fn unbroken_breaks_later()
    ensures { UnbrokenBreaksLater }
{}

/// If no turns come to where nobody can go on, the driver is never stuck.
pub fn unstuck_never_sticks()
    ensures { UnstuckNeverSticks }
{}

/// If no turns that are fewer than n come to where nobody can go on, nobody is stuck after fewer than n entries.
pub fn unstuck_sticks_later()
    ensures { UnstuckSticksLater }
{}

/// A search that knows the form after all turns, and no state at which a part was broken, has shown that the driver
/// breaks none.
pub fn whole_breaks_none()
    ensures { WholeBreaksNone }
{}

/// A search that knows the form after all turns, and no state at which nobody can go on, has shown that the driver is
/// never stuck.
pub fn whole_never_sticks()
    ensures { WholeNeverSticks }
{}

/// The first known state at which a part was broken is a shortest race that breaks one.
pub fn first_breaks_soonest()
    ensures { FirstBreaksSoonest }
{
    broken_turns_break();
}

/// The first known state at which nobody can go on is a shortest race that comes to that.
pub fn first_sticks_soonest()
    ensures { FirstSticksSoonest }
{
    stuck_turns_stick();
}

/// No turns of the right driver break a part.
pub fn right_turns_break_none()
    ensures { RightTurnsBreakNone }
{
    broken_turns_break();
    hm_flaws::right_breaks_none();
}

/// Nothing is found after any turns of the right driver.
pub fn right_turns_find_none()
    ensures { RightTurnsFindNone }
{
    right_turns_break_none();
    stuck_turns_stick();
    hm_laws::never_stuck();
}
