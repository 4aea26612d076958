// Laws of what is written of a search: each is the contract of a function that does nothing.
ghost use Rattle.hm_race_top.specs.Laws.{AllIsListed, CompleteIsAll, DrainIsLast, KnownIsTrue, TrueIsReal};
ghost use Rattle.hm_race_top.specs.Laws.{NoneHasUnasked, WaysAreOutcomes};
ghost use Rattle.hm_race_top.specs.Theorem.{Theorem};

/// The answers of the ways that are written are the outcomes that a search knows.
pub fn ways_are_outcomes()
    ensures { WaysAreOutcomes }
{}

/// After a `drain` no turn adds an entry: such a set-up leaves nothing to race.
pub fn drain_is_last()
    ensures { DrainIsLast }
{
    hm_laws::never_stuck();
}

/// What is written of states that are known is true: the schedules lead to the answers.
pub fn known_is_true()
    ensures { KnownIsTrue }
{
    hm_history::laws::runs_are_due();
    hm_laws::every_history_is_legal();
    crate::text::turns_lead();
    crate::text::turns_stand();
    crate::text::same_legal();
    crate::text::points_are_led();
    crate::text::blocks_are_found();
}

/// If the states that are known have every outcome, what is written has it.
pub fn complete_is_all()
    ensures { CompleteIsAll }
{
    crate::text::ways_are_shown();
}

/// Blocks that are true are outcomes of the race.
pub fn true_is_real()
    ensures { TrueIsReal }
{
    crate::text::same_end();
}

/// If they are all, every outcome is listed.
pub fn all_is_listed()
    ensures { AllIsListed }
{}

/// No outcome has a line that no operation of the script may end with: what is refused for such a line asks for
/// nothing.
pub fn none_has_unasked()
    ensures { NoneHasUnasked }
{}

/// What the user of the program is told follows from how it ends. Every field of the records of its call is used here,
/// so none of them can be left out unseen.
pub fn users_are_told()
    ensures { Theorem }
{}
