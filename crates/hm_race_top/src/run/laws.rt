// Laws of every outcome of a race: what a search through its states has found, in the words of races. Each is the
// contract of a function that does nothing.
ghost use Rattle.hm_race_top.specs.Run.Laws.{FormsHaveOutcomes, KnownAreReal, RacesAreSystems, TurnsAreAll};

/// A race is a system that can be searched.
pub fn races_are_systems()
    ensures { RacesAreSystems }
{
    hm_race_laws::forms_go_alike();
}

/// A search that knows the form after all turns knows that of each state to which the race comes.
pub fn turns_are_all()
    ensures { TurnsAreAll }
{}

/// And then it knows each outcome.
pub fn forms_have_outcomes()
    ensures { FormsHaveOutcomes }
{}

/// The outcomes that a search knows are real.
pub fn known_are_real()
    ensures { KnownAreReal }
{}
