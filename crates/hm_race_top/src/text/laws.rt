// Laws of blocks and schedules: each is the contract of a function with an empty body.
ghost use Rattle.hm_race_top.specs.Text.Laws.{BlocksAreFound, NoneTwice, PointsAreLed, SameDue, SameLegal};
ghost use Rattle.hm_race_top.specs.Text.Laws.{TurnsComeLast, TurnsLead, TurnsStand, WaysAreShown};

/// The run of a script with turns after its schedule goes on from its own run by these turns.
pub fn turns_lead()
    ensures { TurnsLead }
{}

/// It is a script again, if a schedule may have these lines.
pub fn turns_stand()
    ensures { TurnsStand }
{}

/// Its text is the script's own, and then the lines of these turns.
pub fn turns_come_last()
    ensures { TurnsComeLast }
{}

/// What is due does not depend on a schedule.
pub fn same_due()
    ensures { SameDue }
{}

/// Nor does what is legal.
pub fn same_legal()
    ensures { SameLegal }
{}

/// Turns lead by entries that are due to the point that is known of them, if the history has room.
pub fn points_are_led()
    ensures { PointsAreLed }
{}

/// Each block is that of a way.
pub fn blocks_are_found()
    ensures { BlocksAreFound }
{}

/// Each way's answers are those of a block.
pub fn ways_are_shown()
    ensures { WaysAreShown }
{}

/// No two blocks have the same answers.
pub fn none_twice()
    ensures { NoneTwice }
{}
