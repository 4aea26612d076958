// The words of rules, each by the driver that leaves the rule out, and of the parts of legality.
ghost use Rattle.std.specs.Prelude.{◌≡◌, Some, IfSome};
ghost use Rattle.hm_flaws.specs.declared.flaws.Flaw.{Flaw as AnyFlaw};
ghost use Rattle.hm_flaw_top.specs.Text.Names.{all_flaws, flaw_named, manager_name, name_of, part_text, NamesAreTheirs};

use hm_flaws::{Flaw, Part};

/// All drivers, in the order of the table of rules; the right one comes first.
const FLAWS: [Flaw; 43] = [
    Flaw::NoFlaw,
    Flaw::NotCompared,
    Flaw::ComparedNow,
    Flaw::AllForWrites,
    Flaw::WalksUnlocked,
    Flaw::AnyDevice,
    Flaw::BegunAnyway,
    Flaw::BegunLast,
    Flaw::SequenceLeft,
    Flaw::TableLeft,
    Flaw::FirstErased,
    Flaw::ErasedAtEnd,
    Flaw::OwnIgnored,
    Flaw::OwnSequenceLeft,
    Flaw::OwnTableLeft,
    Flaw::UsedDetached,
    Flaw::ReadsWritten,
    Flaw::DetachedAtOnce,
    Flaw::PartCopied,
    Flaw::NotCleared,
    Flaw::LostAsMoved,
    Flaw::OwnForWrites,
    Flaw::OwnAnyway,
    Flaw::LostHeld,
    Flaw::WithdrawnTaken,
    Flaw::RemovedAtOnce,
    Flaw::NotWithdrawn,
    Flaw::LockedPassed,
    Flaw::SoleAnyway,
    Flaw::AddedAnyway,
    Flaw::ToldLast,
    Flaw::EndedAtOnce,
    Flaw::ForkedWhole,
    Flaw::ReplacedAnyway,
    Flaw::DeviceAccessed,
    Flaw::OthersLeft,
    Flaw::FrozenLate,
    Flaw::FreshAnyway,
    Flaw::FreshForWrites,
    Flaw::BackForWrites,
    Flaw::LockedTaken,
    Flaw::NotPutBack,
    Flaw::UnnamedHeld,
];

/// All drivers, in the order in which their lines are written: the right one, and then those with a flaw.
pub fn all_flaws() -> [Flaw; 43]
    ensures { result ≡ all_flaws }
{
    FLAWS
}

/// A word names a driver if and only if it is its own. So no two have the same word.
pub fn names_are_theirs()
    ensures { NamesAreTheirs }
{}

// The word of a rule of the memory manager's own; it is empty if the flaw is a driver's.
fn manager_name(flaw: Flaw) -> &'static str
    ensures { result.now ≡ manager_name flaw }
{
    match flaw {
        Flaw::ToldLast => "tell-first",
        Flaw::EndedAtOnce => "end-last",
        Flaw::ForkedWhole => "fork-narrows",
        Flaw::ReplacedAnyway => "fault-looks-again",
        Flaw::DeviceAccessed => "bring-home",
        Flaw::OthersLeft => "freeze-others",
        Flaw::FrozenLate => "freeze-first",
        Flaw::FreshAnyway => "fresh-looks-again",
        Flaw::FreshForWrites => "fresh-right",
        Flaw::BackForWrites => "back-right",
        Flaw::LockedTaken => "lock-page",
        Flaw::NotPutBack => "put-back",
        Flaw::UnnamedHeld => "drop-unnamed",
        _ => "",
    }
}

/// The word of the rule that the driver leaves out, or the memory manager does; of the right driver `right`.
pub fn rule_name(flaw: Flaw) -> &'static str
    ensures { result.now ≡ name_of flaw }
{
    match flaw {
        Flaw::NoFlaw => "right",
        Flaw::NotCompared => "compare",
        Flaw::ComparedNow => "compare-sequence",
        Flaw::AllForWrites => "entry-right",
        Flaw::WalksUnlocked => "mmap-lock",
        Flaw::AnyDevice => "own-device",
        Flaw::BegunAnyway => "begin-waits",
        Flaw::BegunLast => "begin-first",
        Flaw::SequenceLeft => "set-sequence",
        Flaw::TableLeft => "erase",
        Flaw::FirstErased => "erase-all",
        Flaw::ErasedAtEnd => "erase-in-time",
        Flaw::OwnIgnored => "own-events",
        Flaw::OwnSequenceLeft => "own-sequence",
        Flaw::OwnTableLeft => "own-entries",
        Flaw::UsedDetached => "stop-at-detach",
        Flaw::ReadsWritten => "write-entry",
        Flaw::DetachedAtOnce => "detach-waits",
        Flaw::PartCopied => "copy-all",
        Flaw::NotCleared => "clear",
        Flaw::LostAsMoved => "set-moved",
        Flaw::OwnForWrites => "set-right",
        Flaw::OwnAnyway => "set-unless-invalidated",
        Flaw::LostHeld => "drop-lost",
        Flaw::WithdrawnTaken => "take-from-there",
        Flaw::RemovedAtOnce => "evict-first",
        Flaw::NotWithdrawn => "withdraw-first",
        Flaw::LockedPassed => "wait-for-locked",
        Flaw::SoleAnyway => "exclusive-waits",
        Flaw::AddedAnyway => "look-again",
        _ => manager_name(flaw),
    }
}

// The first driver with this word.
#[tactic(auto, unfolding(crate::specs::Text::Names::flaw_named))]
fn first_named(word: &[u8]) -> Option<Flaw>
    ensures { result ≡ flaw_named word.now }
{
    FLAWS
        .iter()
        .copied()
        .find(|flaw| rule_name(*flaw).as_bytes() == word)
}

/// The driver that leaves the rule of this name out; the right one for `right`.
pub fn rule_named(word: &[u8]) -> Option<Flaw>
    ensures named { result ≡ flaw_named word.now }
    ensures known { IfSome result (λ l. name_of l ≡ word.now) }
    ensures each { (l : AnyFlaw) → name_of l ≡ word.now → result ≡ Some l }
{
    names_are_theirs();
    first_named(word)
}

/// The word of a part of legality.
pub fn part_name(part: Part) -> &'static str
    ensures { result.now ≡ part_text part }
{
    match part {
        Part::Answers => "answers",
        Part::Places => "places",
        Part::Frames => "frames",
        Part::Sequences => "sequences",
        Part::Untold => "untold",
        Part::Guarded => "guarded",
        Part::Kept => "kept",
    }
}
