// The words of rules.
ghost use Rattle.std.specs.Prelude.{◌≡◌};
ghost use Rattle.hm_trace_top.specs.Names.{place_of, rule_name};

use hm_protocol::Rule;

/// The word of a rule, as docs/BROKEN.md has it.
pub fn rule_name(rule: Rule) -> &'static str
    ensures { result.now ≡ rule_name rule }
{
    match rule {
        Rule::Compare => "compare",
        Rule::CompareSequence => "compare-sequence",
        Rule::EntryRight => "entry-right",
        Rule::MmapLock => "mmap-lock",
        Rule::OwnDevice => "own-device",
        Rule::BeginWaits => "begin-waits",
        Rule::BeginFirst => "begin-first",
        Rule::SetSequence => "set-sequence",
        Rule::Erase => "erase",
        Rule::EraseAll => "erase-all",
        Rule::EraseInTime => "erase-in-time",
        Rule::OwnEvents => "own-events",
        Rule::OwnSequence => "own-sequence",
        Rule::OwnEntries => "own-entries",
        Rule::StopAtDetach => "stop-at-detach",
        Rule::WriteEntry => "write-entry",
        Rule::DetachWaits => "detach-waits",
        Rule::SetMoved => "set-moved",
        Rule::SetRight => "set-right",
        Rule::SetUnlessInvalidated => "set-unless-invalidated",
        Rule::DropLost => "drop-lost",
        Rule::TakeFromThere => "take-from-there",
        Rule::EvictFirst => "evict-first",
        Rule::WithdrawFirst => "withdraw-first",
        Rule::WaitForLocked => "wait-for-locked",
        Rule::ExclusiveWaits => "exclusive-waits",
        Rule::LookAgain => "look-again",
    }
}

/// The place of a rule among all.
pub(crate) fn place_of(rule: Rule) -> usize
    ensures { result ≡ place_of rule }
{
    match rule {
        Rule::Compare => 0,
        Rule::CompareSequence => 1,
        Rule::EntryRight => 2,
        Rule::MmapLock => 3,
        Rule::OwnDevice => 4,
        Rule::BeginWaits => 5,
        Rule::BeginFirst => 6,
        Rule::SetSequence => 7,
        Rule::Erase => 8,
        Rule::EraseAll => 9,
        Rule::EraseInTime => 10,
        Rule::OwnEvents => 11,
        Rule::OwnSequence => 12,
        Rule::OwnEntries => 13,
        Rule::StopAtDetach => 14,
        Rule::WriteEntry => 15,
        Rule::DetachWaits => 16,
        Rule::SetMoved => 17,
        Rule::SetRight => 18,
        Rule::SetUnlessInvalidated => 19,
        Rule::DropLost => 20,
        Rule::TakeFromThere => 21,
        Rule::EvictFirst => 22,
        Rule::WithdrawFirst => 23,
        Rule::WaitForLocked => 24,
        Rule::ExclusiveWaits => 25,
        Rule::LookAgain => 26,
    }
}
