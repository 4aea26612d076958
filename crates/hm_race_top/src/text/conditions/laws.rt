// Laws of conditions on the outcomes of a race: each is the contract of a function with an empty body.
ghost use Rattle.hm_race_top.specs.Text.Conditions.Absent.{SeenIsRight, StrictIsRight};
ghost use Rattle.hm_race_top.specs.Text.Conditions.Rulings.{RulingsAreRight};
ghost use Rattle.hm_race_top.specs.Text.Conditions.Laws.{HoldsByWitness, ListedIsRight, RealIsRight, SameEnd};
ghost use Rattle.hm_race_top.specs.Text.Conditions.Laws.{WholeIsRight};

/// A condition of `some` holds by a witness, and one of `none` or `every` if there is no witness.
pub fn holds_by_witness()
    ensures { HoldsByWitness }
{}

/// If every outcome of the race is listed, what is said without a witness is right.
pub fn listed_is_right()
    ensures { ListedIsRight }
{}

/// If all that is listed are outcomes of the race, what is said with a witness is right.
pub fn real_is_right()
    ensures { RealIsRight }
{}

/// If the outcomes that are listed are all that there are, what is said is right.
pub fn whole_is_right()
    ensures { WholeIsRight }
{}

/// Turns after a script's schedule change nothing of when its race has ended.
pub fn same_end()
    ensures { SameEnd }
{}

/// What the outcomes that a search has found say of a condition is right of the race.
pub fn rulings_are_right()
    ensures { RulingsAreRight }
{}

/// What the outcomes that a search has found say of a line is right of the race: that one has it, or, if all are known,
/// that none has.
pub fn seen_is_right()
    ensures { SeenIsRight }
{}

/// If conditions hold with `--strict`, an outcome of the race has each of their lines, but for those of which a
/// condition says itself that none has them.
pub fn strict_is_right()
    ensures { StrictIsRight }
{}
