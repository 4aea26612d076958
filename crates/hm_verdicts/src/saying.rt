// The verdict on a rule, by what was counted.
ghost use Rattle.std.specs.Prelude.{◌≡◌};
ghost use Rattle.hm_protocol.specs.Verdicts as verdicts;
ghost use Rattle.hm_verdicts.specs.Saying.{kept_by, may_break_by, unbroken_by, verdict_by};
ghost use Rattle.hm_verdicts.specs.Knowledge.{known_of};

use crate::keeping::kept_in_end;
use crate::knowledge::Knowledge;
use crate::suspecting::suspect;
use hm_protocol::{Recorded, Rule, Verdict};

/// The verdict on a rule, and where it is broken; whether none of the rules that are joined with it is broken, and how
/// often events put it to the test.
pub(crate) fn verdict_of(
    recorded: Recorded,
    rule: Rule,
    knowledge: &Knowledge,
    broken: Option<u64>,
    none_joined_broken: bool,
    asked: u64,
) -> Verdict
    ensures { result ≡ verdict_by recorded rule (known_of knowledge.now) broken none_joined_broken asked }
{
    if !is_recorded(recorded, rule) {
        return Verdict::Unseen;
    }
    match broken {
        None => unbroken(rule, knowledge, none_joined_broken, asked),
        Some(at) => Verdict::Broken(at),
    }
}

// The functions of the driver are recorded that the rule is about.
fn is_recorded(recorded: Recorded, rule: Rule) -> bool
    ensures { result ≡ verdicts.is_recorded recorded rule }
{
    match rule {
        Rule::Compare | Rule::CompareSequence | Rule::SetMoved => recorded.set,
        Rule::Erase
        | Rule::EraseAll
        | Rule::EraseInTime
        | Rule::OwnEvents
        | Rule::OwnSequence
        | Rule::OwnEntries => recorded.set && recorded.erase,
        Rule::StopAtDetach => recorded.set || recorded.uses,
        Rule::SetUnlessInvalidated | Rule::ExclusiveWaits => recorded.set && recorded.model,
        Rule::DropLost => recorded.free,
        Rule::TakeFromThere => recorded.take,
        Rule::EvictFirst | Rule::WaitForLocked => recorded.take && recorded.free,
        _ => true,
    }
}

// The verdict on a rule that is not broken.
fn unbroken(rule: Rule, knowledge: &Knowledge, none_joined_broken: bool, asked: u64) -> Verdict
    ensures { result ≡ unbroken_by rule (known_of knowledge.now) none_joined_broken asked }
{
    match may_break(rule, knowledge, none_joined_broken) {
        None => if_asked(kept(rule, knowledge, asked)),
        Some(at) => Verdict::Maybe(at),
    }
}

// The event that may break it.
fn may_break(rule: Rule, knowledge: &Knowledge, none_joined_broken: bool) -> Option<u64>
    ensures { result ≡ may_break_by rule (known_of knowledge.now) none_joined_broken }
{
    if none_joined_broken {
        suspect(knowledge, rule)
    } else {
        None
    }
}

// How often it was kept.
fn kept(rule: Rule, knowledge: &Knowledge, asked: u64) -> u64
    ensures { result ≡ kept_by rule (known_of knowledge.now) asked }
{
    match rule {
        Rule::Compare
        | Rule::CompareSequence
        | Rule::SetSequence
        | Rule::Erase
        | Rule::EraseAll
        | Rule::EraseInTime
        | Rule::OwnEvents
        | Rule::OwnSequence
        | Rule::OwnEntries => kept_in_end(knowledge, rule),
        _ => asked,
    }
}

// Kept so often, if it was put to the test.
fn if_asked(times: u64) -> Verdict
    ensures { result ≡ verdicts.if_asked times }
{
    if 0 < times {
        Verdict::Kept(times)
    } else {
        Verdict::Unseen
    }
}
