// How often a rule was kept that no event breaks, by all that is known.
ghost use Rattle.std.specs.Prelude.{◌≡◌, if◌then◌else◌, is_some, count_by};
ghost use Rattle.hm_protocol.specs.Rules.{compare};
ghost use Rattle.hm_protocol.specs.Verdicts as verdicts;
ghost use Rattle.hm_verdicts.specs.Ending.{kept_at_end};
ghost use Rattle.hm_verdicts.specs.Knowledge.{known_of};

use crate::blaming::is_own;
use crate::calls::Call;
use crate::ending::compare;
use crate::knowledge::Knowledge;
use hm_protocol::Rule;

/// How often the rule was kept.
pub(crate) fn kept_in_end(knowledge: &Knowledge, rule: Rule) -> u64
    ensures { result ≡ kept_at_end rule (known_of knowledge.now) }
{
    match rule {
        Rule::Compare => knowledge.given_up.len() as u64,
        Rule::CompareSequence => past(knowledge),
        Rule::SetSequence => sequences(knowledge),
        Rule::Erase | Rule::EraseInTime => erased(knowledge, 0),
        Rule::EraseAll => erased(knowledge, 1),
        Rule::OwnEvents | Rule::OwnSequence | Rule::OwnEntries => own(knowledge),
        _ => 0,
    }
}

// How many look-ups were given up after the invalidation.
fn given_up_past(knowledge: &Knowledge) -> u64
    ensures { result ≡ count_by (λ past. past) knowledge.now.given_up.items }
{
    knowledge.given_up.iter().filter(|past| **past).count() as u64
}

// That, if none is committed while the invalidation is under way.
fn past(knowledge: &Knowledge) -> u64
    ensures { result ≡ (let k = known_of knowledge.now in
        if is_some (compare k) then 0 else count_by (λ past. past) k.given_up) }
{
    if compare(knowledge).is_some() {
        0
    } else {
        given_up_past(knowledge)
    }
}

// Whether the callback has set the sequence, which no other was given.
fn sets_sequence(knowledge: &Knowledge, call: &Call) -> bool
    ensures { result ≡ verdicts.sets_sequence (known_of knowledge.now) call.now }
{
    call.after().is_some()
        && call.is_alone()
        && !call.leaves_seq()
        && !(is_own(knowledge, call) && (call.had_none() || !call.left_none()))
}

// How many have.
fn sequences(knowledge: &Knowledge) -> u64
    ensures { result ≡ count_by (verdicts.sets_sequence (known_of knowledge.now)) knowledge.now.calls }
{
    knowledge
        .calls
        .all()
        .iter()
        .filter(|call| sets_sequence(knowledge, call))
        .count() as u64
}

// Whether it is of no own migration, and has erased all entries, of which there were more than so many.
fn is_erased(than: u64, knowledge: &Knowledge, call: &Call) -> bool
    ensures { result ≡ verdicts.is_erased than (known_of knowledge.now) call.now }
{
    call.after().is_some() && call.had_more(than) && call.left_none() && !is_own(knowledge, call)
}

// How many have.
fn erased(knowledge: &Knowledge, than: u64) -> u64
    ensures { result ≡ count_by (verdicts.is_erased than (known_of knowledge.now)) knowledge.now.calls }
{
    knowledge
        .calls
        .all()
        .iter()
        .filter(|call| is_erased(than, knowledge, call))
        .count() as u64
}

// Whether it is of an own migration, and has set the sequence, and erased all.
fn is_own_kept(knowledge: &Knowledge, call: &Call) -> bool
    ensures { result ≡ verdicts.is_own_kept (known_of knowledge.now) call.now }
{
    call.after().is_some()
        && is_own(knowledge, call)
        && !call.leaves_seq()
        && call.left_none()
        && call.is_alone()
}

// How many have.
fn own(knowledge: &Knowledge) -> u64
    ensures { result ≡ count_by (verdicts.is_own_kept (known_of knowledge.now)) knowledge.now.calls }
{
    knowledge
        .calls
        .all()
        .iter()
        .filter(|call| is_own_kept(knowledge, call))
        .count() as u64
}
