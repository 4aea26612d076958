// Linux as variants of the memory manager, and what stays as it is with them. Each law is the contract of a function
// with an empty body.
#![tactic(auto)]

ghost use Rattle.hm_linux.specs.Laws.{NoneIsDue, NoneGoesOn, MemoryIsTheSame, OthersAreFew, ReadsArePlain};
ghost use Rattle.hm_linux.specs.Laws.{FramesReadAs, EntriesStand, UsesUntold, FailsWhenFull, KeptForReasons};
ghost use Rattle.hm_linux.specs.Laws.{NeverStuckAs, NoneHasAll, ClosedHasAll};

mod variant;

pub use variant::Variant;

/// With no variant, what is due is what the definitions say.
pub fn none_is_due()
    ensures { NoneIsDue }
{}

/// With no variant, the state after any entries is that of the definitions.
pub fn none_goes_on()
    ensures { NoneGoesOn }
{}

/// With any variants, the memory goes on as in the definitions.
pub fn memory_is_the_same()
    ensures { MemoryIsTheSame }
{}

/// With any variants, what is due is what the definitions say in the state as an actor finds it, or one of few others.
pub fn others_are_few()
    ensures { OthersAreFew }
{}

/// With any variants, each load and each fetch that is due reads the bytes that its process has.
pub fn reads_are_plain()
    ensures { ReadsArePlain }
{}

/// With variants that leave the state as actors find it, what a page shows is what its process wrote.
pub fn frames_read_as()
    ensures { FramesReadAs }
{}

/// With these, each entry that is due passes the tests that legality makes of a state, but for failures that a variant
/// has.
pub fn entries_stand()
    ensures { EntriesStand }
{}

/// And none uses a table entry of whose page its mirror was told since the look-up that made it.
pub fn untold_alone_is_used()
    ensures { UsesUntold }
{}

/// And none fails or is refused for want of a frame while one was free.
pub fn fails_when_full()
    ensures { FailsWhenFull }
{}

/// And what is kept, is kept for the reason that a history has, or since another actor has a reference to its frame.
pub fn kept_for_reasons()
    ensures { KeptForReasons }
{}

/// And with these but `exclusive-busy` somebody always goes on.
pub fn never_stuck_as()
    ensures { NeverStuckAs }
{}

/// With no variant, a list has every outcome of a race just if it has those of the definitions.
pub fn none_has_all()
    ensures { NoneHasAll }
{}

/// With any variants, a search with nothing left to look at has every outcome, if points with one key go on alike.
pub fn closed_has_all()
    ensures { ClosedHasAll }
{}
