// The protocol between the memory manager and a driver, as rules of the events that are seen of both; in specs/ the
// rules, and the events of a history. Each law is the contract of a function with an empty body.
#![tactic(auto)]

ghost use Rattle.hm_protocol.specs.Laws.{IsCleared, IsKept, IsJointKept};
ghost use Rattle.hm_protocol.specs.LongRaces.{LongRacesAreBlamed};
ghost use Rattle.hm_protocol.specs.RightRaces.{RightRacesAreUnblamed};
ghost use Rattle.hm_protocol.specs.ShortRaces.{ShortRacesAreBlamed};
ghost use Rattle.hm_protocol.specs.declared.rules.Joint as joint;
ghost use Rattle.hm_protocol.specs.declared.rules.Rule as rule;

mod events;
mod rules;

pub use events::{Event, Reason, Recorded, TraceFrame, TraceSpan, Traced};
pub use rules::{Joint, Rule, Verdict};

/// In 18 races of right drivers no rule is broken: by computation.
pub fn right_races_are_unblamed()
    ensures { RightRacesAreUnblamed }
{}

/// In 128 races of drivers that leave a rule out no other rule is broken than theirs, and it is seen where: by
/// computation.
pub fn short_races_are_blamed()
    ensures { ShortRacesAreBlamed }
{}

/// The same in 21 longer ones, of rules that the short ones do not decide.
pub fn long_races_are_blamed()
    ensures { LongRacesAreBlamed }
{}

/// No legal history breaks a rule: the events of a right driver are blamed for none of the 27.
pub fn no_legal_history_is_blamed()
    ensures compare { IsKept rule.Rule.Compare }
    ensures compare_sequence { IsKept rule.Rule.CompareSequence }
    ensures entry_right { IsKept rule.Rule.EntryRight }
    ensures mmap_lock { IsKept rule.Rule.MmapLock }
    ensures own_device { IsKept rule.Rule.OwnDevice }
    ensures begin_waits { IsKept rule.Rule.BeginWaits }
    ensures begin_first { IsKept rule.Rule.BeginFirst }
    ensures set_sequence { IsKept rule.Rule.SetSequence }
    ensures erase { IsKept rule.Rule.Erase }
    ensures erase_all { IsKept rule.Rule.EraseAll }
    ensures erase_in_time { IsKept rule.Rule.EraseInTime }
    ensures own_events { IsKept rule.Rule.OwnEvents }
    ensures own_sequence { IsKept rule.Rule.OwnSequence }
    ensures own_entries { IsKept rule.Rule.OwnEntries }
    ensures stop_at_detach { IsKept rule.Rule.StopAtDetach }
    ensures write_entry { IsKept rule.Rule.WriteEntry }
    ensures detach_waits { IsKept rule.Rule.DetachWaits }
    ensures set_moved { IsKept rule.Rule.SetMoved }
    ensures set_right { IsKept rule.Rule.SetRight }
    ensures set_unless_invalidated { IsKept rule.Rule.SetUnlessInvalidated }
    ensures drop_lost { IsKept rule.Rule.DropLost }
    ensures take_from_there { IsKept rule.Rule.TakeFromThere }
    ensures evict_first { IsKept rule.Rule.EvictFirst }
    ensures withdraw_first { IsKept rule.Rule.WithdrawFirst }
    ensures wait_for_locked { IsKept rule.Rule.WaitForLocked }
    ensures exclusive_waits { IsKept rule.Rule.ExclusiveWaits }
    ensures look_again { IsKept rule.Rule.LookAgain }
{}

/// Nor a joint rule: a right driver commits no stale look-up, and its callbacks leave no entries, and set the sequence
/// also for its own migrations.
pub fn no_legal_history_is_blamed_jointly()
    ensures stale_commit { IsJointKept joint.Joint.StaleCommit }
    ensures entries_left { IsJointKept joint.Joint.EntriesLeft }
    ensures own_sequence_left { IsJointKept joint.Joint.OwnSequenceLeft }
{}

/// So no verdict on a legal history says that a rule is broken, or may be: each of the 27 is kept or unseen, whatever
/// was recorded.
pub fn no_verdict_blames_a_legal_history()
    ensures compare { IsCleared rule.Rule.Compare }
    ensures compare_sequence { IsCleared rule.Rule.CompareSequence }
    ensures entry_right { IsCleared rule.Rule.EntryRight }
    ensures mmap_lock { IsCleared rule.Rule.MmapLock }
    ensures own_device { IsCleared rule.Rule.OwnDevice }
    ensures begin_waits { IsCleared rule.Rule.BeginWaits }
    ensures begin_first { IsCleared rule.Rule.BeginFirst }
    ensures set_sequence { IsCleared rule.Rule.SetSequence }
    ensures erase { IsCleared rule.Rule.Erase }
    ensures erase_all { IsCleared rule.Rule.EraseAll }
    ensures erase_in_time { IsCleared rule.Rule.EraseInTime }
    ensures own_events { IsCleared rule.Rule.OwnEvents }
    ensures own_sequence { IsCleared rule.Rule.OwnSequence }
    ensures own_entries { IsCleared rule.Rule.OwnEntries }
    ensures stop_at_detach { IsCleared rule.Rule.StopAtDetach }
    ensures write_entry { IsCleared rule.Rule.WriteEntry }
    ensures detach_waits { IsCleared rule.Rule.DetachWaits }
    ensures set_moved { IsCleared rule.Rule.SetMoved }
    ensures set_right { IsCleared rule.Rule.SetRight }
    ensures set_unless_invalidated { IsCleared rule.Rule.SetUnlessInvalidated }
    ensures drop_lost { IsCleared rule.Rule.DropLost }
    ensures take_from_there { IsCleared rule.Rule.TakeFromThere }
    ensures evict_first { IsCleared rule.Rule.EvictFirst }
    ensures withdraw_first { IsCleared rule.Rule.WithdrawFirst }
    ensures wait_for_locked { IsCleared rule.Rule.WaitForLocked }
    ensures exclusive_waits { IsCleared rule.Rule.ExclusiveWaits }
    ensures look_again { IsCleared rule.Rule.LookAgain }
{}
