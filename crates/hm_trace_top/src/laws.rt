// What holds of every trace, and what the user of the program is told: laws in the contracts of functions that do
// nothing.
ghost use Rattle.hm_trace_top.specs.Laws.{EventsAreNamed, LookUpsAreKnown, OriginsAreBefore, VerdictsAreTheirs};
ghost use Rattle.hm_trace_top.specs.Names.{NamesAreTheirs};
ghost use Rattle.hm_trace_top.specs.Theorem.{Theorem};

/// A trace has a number for each of its events, and no more events than bytes; and no verdict names an event that is not
/// there.
pub fn events_are_named()
    ensures { EventsAreNamed }
{}

/// What the user of the program is told follows from how it ends. Every field of the records of its call is used here,
/// so none of them can be left out unseen.
pub fn users_are_told()
    ensures { Theorem }
{}

/// A word names a rule if and only if it is its own; and what the verdicts on a trace say of a rule is the verdict on it.
pub fn rules_have_their_own()
    ensures names { NamesAreTheirs }
    ensures verdicts { VerdictsAreTheirs }
{}

/// An event goes back to events before it; and where a look-up began is where it is known to have begun.
pub fn origins_are_before()
    ensures before { OriginsAreBefore }
    ensures look_ups { LookUpsAreKnown }
{}
