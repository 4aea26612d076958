// Operations that meet nobody: how long they may take, and what a migration does. Each law is the contract of a
// function with an empty body, and speaks of the definitions alone.
#![tactic(auto)]

ghost use Rattle.hm_quiet_laws.specs.Quiet.{DrainAloneHasRoom, DrainsHaveRoom, QuietEnds, QuietMoves, SelectedMove};

/// An operation of any kind that begins while no other actor has one under way ends within its bound, if its actor
/// goes on alone, and never waits.
pub fn quiet_operations_end()
    ensures { QuietEnds }
{}

/// A migration that meets nobody keeps no page because another actor has its frame locked, or because it was lost.
pub fn quiet_moves()
    ensures { QuietMoves }
{}

/// Such a migration moves each page that it selected, but for those that the script skips, and those for which it
/// found no frame free. A page that it moved is in a frame of the pool that it was to go to. Its last entry tells how
/// many it moved, or that the operation is refused.
pub fn selected_pages_move()
    ensures { SelectedMove }
{}

/// A drain that begins while no operation is under way finds no full history, if the bounds of what has not ended
/// leave room.
pub fn drains_have_room()
    ensures { DrainsHaveRoom }
{}

/// So the run of a script whose schedule is `drain` alone finds none, if the bounds of all operations leave room.
pub fn drain_alone_has_room()
    ensures { DrainAloneHasRoom }
{}
