// All outcomes of a race: states that are alike have futures that are alike, so a set of states that is closed under
// what is due has every outcome. Each law is the contract of a function with an empty body.
#![tactic(auto)]

ghost use Rattle.hm_race_laws.specs.Laws.{BlurredIsComplete, ClosedIsComplete, FormsAreAll, FormsAreComplete};
ghost use Rattle.hm_race_laws.specs.Laws.{FormsEndAlike, FormsGoAlike, FormsGoOn, RacedIsDue, TidiedIsComplete};

/// A set of states that is closed under what is due has every outcome.
pub fn closed_is_complete()
    ensures { ClosedIsComplete }
{}

/// Turns in any order add entries that are due.
pub fn raced_is_due()
    ensures { RacedIsDue }
{}

/// So has one whose states are told apart only by what is asked of positions and sequences.
pub fn blurred_is_complete()
    ensures { BlurredIsComplete }
{}

/// And one whose states leave out in which order pages were placed.
pub fn tidied_is_complete()
    ensures { TidiedIsComplete }
{}

/// So has one whose keys are read as such states, if equal keys mean equal states; a code of them may be any.
pub fn forms_are_complete()
    ensures { FormsAreComplete }
{}

/// What is due at a state, and the form that comes next, is read from its form alone: from any state that has the
/// form's parts, and lists the pages that have a place in any order.
pub fn forms_go_on()
    ensures { FormsGoOn }
{}

/// Two states of one form have next states of one form.
pub fn forms_go_alike()
    ensures { FormsGoAlike }
{}

/// Whether all operations have ended is read from the form.
pub fn forms_end_alike()
    ensures { FormsEndAlike }
{}

/// A search by forms that has nothing left to look at knows the form of each state to which the race comes.
pub fn forms_are_all()
    ensures { FormsAreAll }
{}
