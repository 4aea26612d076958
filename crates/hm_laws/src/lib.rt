// Laws of every history that a script can have, each the contract of a function with an empty body. They speak of
// the definitions alone: a program that adds what is due has them for nothing.
#![tactic(auto)]

ghost use Rattle.hm_laws.specs.Laws.{RunIsLegal, HistoryIsLegal, FramesRead, RulesAreKept, AllowedMayStand};
ghost use Rattle.hm_laws.specs.Laws.{HistoryStands};
ghost use Rattle.hm_laws.specs.NeverStuck.{NeverStuck};

/// The run of a script's schedule is legal, whatever the turns.
pub fn every_run_is_legal()
    ensures { RunIsLegal }
{}

/// So is each history of entries that were due, be it the run of a schedule or not.
pub fn every_history_is_legal()
    ensures { HistoryIsLegal }
{}

/// Memory works: what a page shows is what its process wrote, whatever frame it has.
pub fn frames_read()
    ensures { FramesRead }
{}

/// The rules of states are kept by each entry that is allowed, of every kind, whoever adds it.
pub fn rules_kept()
    ensures { RulesAreKept }
{}

/// An entry that is allowed obeys the laws on answers, places, sequences and narrowing.
pub fn allowed_may_stand()
    ensures { AllowedMayStand }
{}

/// What a program that keeps the state of a history may rest on.
pub fn history_stands()
    ensures { HistoryStands }
{}

/// Somebody always goes on: as long as an operation has not ended, an entry is due to an actor that has one.
pub fn never_stuck()
    ensures { NeverStuck }
{}
