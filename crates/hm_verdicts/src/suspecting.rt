// Where a rule may be broken that no event breaks, by all that is known.
ghost use Rattle.std.specs.Prelude.{◌≡◌};
ghost use Rattle.hm_protocol.specs.Callbacks as callbacks;
ghost use Rattle.hm_protocol.specs.Rules.{first_call};
ghost use Rattle.hm_protocol.specs.Verdicts as verdicts;
ghost use Rattle.hm_verdicts.specs.Ending as ending;
ghost use Rattle.hm_verdicts.specs.Knowledge.{known_of};

use crate::blaming::{entries_left, is_own, left_first, own_sequence_left};
use crate::calls::Call;
use crate::ending::stale_commit;
use crate::knowledge::Knowledge;
use hm_protocol::Rule;

/// The event that may break the rule.
pub(crate) fn suspect(knowledge: &Knowledge, rule: Rule) -> Option<u64>
    ensures { result ≡ ending.suspect_at_end rule (known_of knowledge.now) }
{
    match rule {
        Rule::Compare | Rule::CompareSequence => stale_commit(knowledge),
        Rule::Erase => first_left(knowledge),
        Rule::EraseAll => first_some(knowledge),
        Rule::EraseInTime => first_late(knowledge),
        Rule::OwnEntries => first_own(knowledge),
        Rule::SetSequence => first_without(knowledge),
        Rule::OwnEvents | Rule::OwnSequence => first_sequence(knowledge),
        _ => None,
    }
}

// Whether the callback leaves entries, and it is not known yet what becomes of them.
fn may_leave(knowledge: &Knowledge, call: &Call) -> bool
    ensures { result ≡ verdicts.may_leave (known_of knowledge.now) call.now }
{
    entries_left(knowledge, call)
        && (!is_own(knowledge, call) || call.is_alone() && !call.is_known())
}

// Whether so it does after a migration of another device, and not the first one.
#[tactic(auto, unfolding(crate::specs::Ending::may_leave_some))]
fn may_leave_some(knowledge: &Knowledge, call: &Call) -> bool
    ensures { result ≡ ending.may_leave_some (known_of knowledge.now) call.now }
{
    may_leave(knowledge, call) && !is_own(knowledge, call) && !left_first(knowledge, call)
}

// Whether so it does after its own migration, or while its invalidation is under way.
fn may_leave_late(knowledge: &Knowledge, call: &Call) -> bool
    ensures { result ≡ ending.may_leave_late (known_of knowledge.now) call.now }
{
    may_leave(knowledge, call) && (is_own(knowledge, call) || call.ended().is_none())
}

// Whether so it does after its own migration.
fn may_leave_own(knowledge: &Knowledge, call: &Call) -> bool
    ensures { result ≡ ending.may_leave_own (known_of knowledge.now) call.now }
{
    may_leave(knowledge, call) && is_own(knowledge, call)
}

// Whether it leaves the sequence to its own migration, and had no entries.
fn leaves_without(knowledge: &Knowledge, call: &Call) -> bool
    ensures { result ≡ ending.leaves_without (known_of knowledge.now) call.now }
{
    own_sequence_left(knowledge, call) && call.had_none()
}

// The first that leaves entries.
fn first_left(knowledge: &Knowledge) -> Option<u64>
    ensures { result ≡ first_call verdicts.may_leave (known_of knowledge.now) }
{
    knowledge
        .calls
        .all()
        .iter()
        .find(|call| may_leave(knowledge, call))
        .map(|call| call.at())
}

// The first that leaves entries, and not the first one.
fn first_some(knowledge: &Knowledge) -> Option<u64>
    ensures { result ≡ first_call ending.may_leave_some (known_of knowledge.now) }
{
    knowledge
        .calls
        .all()
        .iter()
        .find(|call| may_leave_some(knowledge, call))
        .map(|call| call.at())
}

// The first that leaves entries which may go later.
fn first_late(knowledge: &Knowledge) -> Option<u64>
    ensures { result ≡ first_call ending.may_leave_late (known_of knowledge.now) }
{
    knowledge
        .calls
        .all()
        .iter()
        .find(|call| may_leave_late(knowledge, call))
        .map(|call| call.at())
}

// The first that leaves entries to its own migration.
fn first_own(knowledge: &Knowledge) -> Option<u64>
    ensures { result ≡ first_call ending.may_leave_own (known_of knowledge.now) }
{
    knowledge
        .calls
        .all()
        .iter()
        .find(|call| may_leave_own(knowledge, call))
        .map(|call| call.at())
}

// The first that leaves the sequence, and had no entries.
fn first_without(knowledge: &Knowledge) -> Option<u64>
    ensures { result ≡ first_call ending.leaves_without (known_of knowledge.now) }
{
    knowledge
        .calls
        .all()
        .iter()
        .find(|call| leaves_without(knowledge, call))
        .map(|call| call.at())
}

// The first that leaves the sequence to its own migration.
fn first_sequence(knowledge: &Knowledge) -> Option<u64>
    ensures { result ≡ first_call callbacks.own_sequence_left (known_of knowledge.now) }
{
    knowledge
        .calls
        .all()
        .iter()
        .find(|call| own_sequence_left(knowledge, call))
        .map(|call| call.at())
}
