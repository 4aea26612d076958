// The law of the lines of outcomes: the contract of a function with an empty body.
ghost use Rattle.hm_race_lines.specs.Laws.{LinesMayEnd};

/// Each line of an outcome is one that an operation of the script may end with. So no outcome has another.
pub fn lines_may_end()
    ensures { LinesMayEnd }
{}
