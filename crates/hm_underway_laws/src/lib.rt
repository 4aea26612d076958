// What holds of operations that are under way, each law the contract of a function with an empty body. They speak of
// every history of entries that were due, of any script.
#![tactic(auto)]

ghost use Rattle.hm_underway_laws.specs.Refused.{RefusedLeavesPlain, RefusedRemovalWithdraws};
ghost use Rattle.hm_underway_laws.specs.Busy.{BusyGoesOn};
ghost use Rattle.hm_underway_laws.specs.Invalidating.{ToldStaysEmpty, DeferredStaysEmpty, NewcomerStaysEmpty};
ghost use Rattle.hm_underway_laws.specs.Upgraded.{SameRun, SameLegal};

/// An operation that ends with a refusal has left the plain state as it was: none of its entries changes it.
pub fn refused_leaves_plain()
    ensures { RefusedLeavesPlain }
{}

/// A removal that ends with a refusal, such as the one for want of a frame, leaves the device withdrawn.
pub fn refused_removal_withdraws()
    ensures { RefusedRemovalWithdraws }
{}

/// An actor inside a guard, with an mmap lock for writing or with a frame locked never waits: an entry is due to it.
pub fn busy_goes_on()
    ensures { BusyGoesOn }
{}

/// As long as a guard is under way, a mirror that was told in it has no table entry in its span.
pub fn told_stays_empty()
    ensures { ToldStaysEmpty }
{}

/// A mirror whose insert is deferred has no table entry.
pub fn deferred_stays_empty()
    ensures { DeferredStaysEmpty }
{}

/// As long as a guard is under way, a mirror that was attached to its process since its start has no table entry,
/// wherever its window lies.
pub fn newcomer_stays_empty()
    ensures { NewcomerStaysEmpty }
{}

/// A script of version 1 and the same under version 2 have the same run, and the same legal histories.
pub fn upgrade_keeps_all()
    ensures run { SameRun }
    ensures legal { SameLegal }
{}
