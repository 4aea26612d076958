// Where a rule is broken that no event breaks, by all that is known.
ghost use Rattle.std.specs.Prelude.{◌≡◌, not};
ghost use Rattle.hm_protocol.specs.Callbacks as callbacks;
ghost use Rattle.hm_protocol.specs.Rules as rules;
ghost use Rattle.hm_protocol.specs.Rules.{first_call, first_commit};
ghost use Rattle.hm_verdicts.specs.Ending.{fails_at_end, erase_if, erase_some, own_events_if, own_sequence_if};
ghost use Rattle.hm_verdicts.specs.Knowledge.{known_of};

use crate::blaming;
use crate::blaming::{some_late, some_own_events_if, some_set_sequence};
use crate::knowledge::Knowledge;
use hm_protocol::Rule;

/// Where a rule is broken that no event breaks.
pub(crate) fn fails_in_end(knowledge: &Knowledge, rule: Rule) -> Option<u64>
    ensures { result ≡ fails_at_end rule (known_of knowledge.now) }
{
    match rule {
        Rule::Compare => compare(knowledge),
        Rule::CompareSequence => compare_sequence(knowledge),
        Rule::BeginWaits => begin_waits(knowledge),
        Rule::SetSequence => set_sequence(knowledge),
        Rule::Erase => erase(knowledge),
        Rule::EraseAll => erase_all(knowledge),
        Rule::EraseInTime => erase_in_time(knowledge),
        Rule::OwnEvents => own_events(knowledge),
        Rule::OwnSequence => own_sequence(knowledge),
        Rule::OwnEntries => own_entries(knowledge),
        _ => None,
    }
}

// ---- look-ups

/// The first commit of a stale look-up while the invalidation is under way.
pub(crate) fn compare(knowledge: &Knowledge) -> Option<u64>
    ensures { result ≡ rules.compare (known_of knowledge.now) }
{
    knowledge.stale.iter().find(|x| x.1).map(|x| x.0)
}

// The first one when it is over.
fn first_over(knowledge: &Knowledge) -> Option<u64>
    ensures { result ≡ first_commit not (known_of knowledge.now) }
{
    knowledge.stale.iter().find(|x| !x.1).map(|x| x.0)
}

// That, if such look-ups are given up, and none is committed while the invalidation is under way.
fn compare_sequence(knowledge: &Knowledge) -> Option<u64>
    ensures { result ≡ rules.compare_sequence (known_of knowledge.now) }
{
    if compare(knowledge).is_some() || knowledge.given_up.is_empty() {
        None
    } else {
        first_over(knowledge)
    }
}

/// The first commit of a stale look-up.
pub(crate) fn stale_commit(knowledge: &Knowledge) -> Option<u64>
    ensures { result ≡ rules.stale_commit (known_of knowledge.now) }
{
    knowledge.stale.iter().find(|_| true).map(|x| x.0)
}

// The first look-up that has the sequence of an invalidation under way.
fn begin_waits(knowledge: &Knowledge) -> Option<u64>
    ensures { result ≡ rules.begin_waits (known_of knowledge.now) }
{
    knowledge.early.iter().find(|_| true).map(|x| x.at())
}

// ---- callbacks

// The first that leaves another sequence than it was given.
fn set_sequence(knowledge: &Knowledge) -> Option<u64>
    ensures { result ≡ first_call callbacks.set_sequence (known_of knowledge.now) }
{
    knowledge
        .calls
        .all()
        .iter()
        .find(|call| blaming::set_sequence(knowledge, call))
        .map(|call| call.at())
}

// The first that leaves all entries, if this is so of all callbacks.
fn erase_in(is_so: bool, knowledge: &Knowledge) -> Option<u64>
    ensures { result ≡ first_call (erase_if is_so) (known_of knowledge.now) }
{
    knowledge
        .calls
        .all()
        .iter()
        .find(|call| blaming::erase_if(is_so, knowledge, call))
        .map(|call| call.at())
}

// The first that leaves all entries.
fn erase(knowledge: &Knowledge) -> Option<u64>
    ensures { result ≡ first_call callbacks.erase (known_of knowledge.now) }
{
    erase_in(!some_late(knowledge), knowledge)
}

// The first that leaves some, in a word that proofs need not look into.
fn erase_some(knowledge: &Knowledge) -> Option<u64>
    ensures { result ≡ first_call erase_some (known_of knowledge.now) }
{
    knowledge
        .calls
        .all()
        .iter()
        .find(|call| blaming::erase_some(knowledge, call))
        .map(|call| call.at())
}

// The first that leaves some.
#[tactic(auto, unfolding(crate::specs::Ending::erase_some))]
fn erase_all(knowledge: &Knowledge) -> Option<u64>
    ensures { result ≡ first_call callbacks.erase_all (known_of knowledge.now) }
{
    erase_some(knowledge)
}

// The first that leaves entries which go after it has returned.
fn erase_in_time(knowledge: &Knowledge) -> Option<u64>
    ensures { result ≡ first_call callbacks.erase_in_time (known_of knowledge.now) }
{
    knowledge
        .calls
        .all()
        .iter()
        .find(|call| call.is_late())
        .map(|call| call.at())
}

// The first that leaves the sequence and stale entries to its own migration, if this is so of all callbacks.
fn own_events_in(is_so: bool, knowledge: &Knowledge) -> Option<u64>
    ensures { result ≡ first_call (own_events_if is_so) (known_of knowledge.now) }
{
    knowledge
        .calls
        .all()
        .iter()
        .find(|call| blaming::own_events_if(is_so, knowledge, call))
        .map(|call| call.at())
}

// The first that does.
fn own_events(knowledge: &Knowledge) -> Option<u64>
    ensures { result ≡ first_call callbacks.own_events (known_of knowledge.now) }
{
    own_events_in(!some_set_sequence(knowledge), knowledge)
}

// The first that leaves the sequence, if both are so.
fn own_sequence_in(is_so: bool, is_other: bool, knowledge: &Knowledge) -> Option<u64>
    ensures { result ≡ first_call (own_sequence_if is_so is_other) (known_of knowledge.now) }
{
    knowledge
        .calls
        .all()
        .iter()
        .find(|call| blaming::own_sequence_if(is_so, is_other, knowledge, call))
        .map(|call| call.at())
}

// The first that leaves the sequence, and not stale entries.
fn own_sequence(knowledge: &Knowledge) -> Option<u64>
    ensures { result ≡ first_call callbacks.own_sequence (known_of knowledge.now) }
{
    let is_so = !some_set_sequence(knowledge);
    own_sequence_in(is_so, !some_own_events_if(is_so, knowledge), knowledge)
}

// The first that sets the sequence, and leaves entries until they are copied.
fn own_entries(knowledge: &Knowledge) -> Option<u64>
    ensures { result ≡ first_call callbacks.own_entries (known_of knowledge.now) }
{
    knowledge
        .calls
        .all()
        .iter()
        .find(|call| blaming::own_entries(knowledge, call))
        .map(|call| call.at())
}
