// Whether a callback breaks a rule, after all that is known.
ghost use Rattle.std.specs.Prelude.{◌≡◌};
ghost use Rattle.std.specs.List.{list_any};
ghost use Rattle.hm_protocol.specs.Callbacks as callbacks;
ghost use Rattle.hm_protocol.specs.Known as known;
ghost use Rattle.hm_verdicts.specs.Ending.{erase_if, erase_some, own_events_if, own_sequence_if};
ghost use Rattle.hm_verdicts.specs.Knowledge.{known_of};

use crate::calls::Call;
use crate::knowledge::Knowledge;

// ---- joint rules

/// Whether the mirror was told of a migration by its own device.
pub(crate) fn is_own(knowledge: &Knowledge, call: &Call) -> bool
    ensures { result ≡ known.is_own (known_of knowledge.now) call.now }
{
    call.is_own(&knowledge.device)
}

/// Whether entries of its span were there when it returned; of its own migration, though it set the sequence.
pub(crate) fn entries_left(knowledge: &Knowledge, call: &Call) -> bool
    ensures { result ≡ callbacks.entries_left (known_of knowledge.now) call.now }
{
    call.after().is_some() && !call.left_none() && (!is_own(knowledge, call) || !call.leaves_seq())
}

/// Whether its own migration leaves the sequence, and it does not erase all.
pub(crate) fn own_sequence_left(knowledge: &Knowledge, call: &Call) -> bool
    ensures { result ≡ callbacks.own_sequence_left (known_of knowledge.now) call.now }
{
    is_own(knowledge, call) && call.leaves_seq() && (call.had_none() || !call.left_none())
}

// ---- the sequence

/// Whether the interval has another sequence than the callback was given.
pub(crate) fn set_sequence(knowledge: &Knowledge, call: &Call) -> bool
    ensures { result ≡ callbacks.set_sequence (known_of knowledge.now) call.now }
{
    call.leaves_seq() && !own_sequence_left(knowledge, call)
}

// ---- entries

// Whether it left entries for good.
fn leaves(knowledge: &Knowledge, call: &Call) -> bool
    ensures { result ≡ callbacks.leaves (known_of knowledge.now) call.now }
{
    entries_left(knowledge, call)
        && !call.is_late()
        && (!is_own(knowledge, call) || call.is_alone() && call.is_stale())
}

/// Whether the first page of its span that lies in the window was left.
pub(crate) fn left_first(knowledge: &Knowledge, call: &Call) -> bool
    ensures { result ≡ callbacks.left_first (known_of knowledge.now) call.now }
{
    call.left_from(knowledge.first.at(call.mirror()))
}

// Whether another callback of the mirror has erased.
fn erases(knowledge: &Knowledge, mirror: u64) -> bool
    ensures { result ≡ callbacks.erases (known_of knowledge.now) mirror }
{
    knowledge
        .calls
        .all()
        .iter()
        .any(|call| call.mirror() == mirror && call.has_erased())
}

/// Whether it leaves all entries, if this is so of all callbacks.
#[tactic(auto, unfolding(crate::specs::Ending::erase_if))]
pub(crate) fn erase_if(is_so: bool, knowledge: &Knowledge, call: &Call) -> bool
    ensures { result ≡ erase_if is_so (known_of knowledge.now) call.now }
{
    leaves(knowledge, call)
        && !call.has_erased()
        && (is_own(knowledge, call) || call.ended().is_some() && left_first(knowledge, call))
        && is_so
}

/// Whether it leaves some.
#[tactic(auto, unfolding(crate::specs::Ending::erase_some))]
pub(crate) fn erase_some(knowledge: &Knowledge, call: &Call) -> bool
    ensures { result ≡ erase_some (known_of knowledge.now) call.now }
{
    leaves(knowledge, call)
        && (call.has_erased()
            || !is_own(knowledge, call)
                && call.ended().is_some()
                && !left_first(knowledge, call)
                && erases(knowledge, call.mirror()))
}

// ---- its own migrations

/// Whether a callback of them leaves the sequence, and the entries of moved pages, if this is so of all callbacks.
pub(crate) fn own_events_if(is_so: bool, knowledge: &Knowledge, call: &Call) -> bool
    ensures { result ≡ own_events_if is_so (known_of knowledge.now) call.now }
{
    own_sequence_left(knowledge, call) && is_so && call.is_stale()
}

/// Whether it leaves the sequence, and the entries go when they are copied, if both are so.
pub(crate) fn own_sequence_if(
    is_so: bool,
    is_other: bool,
    knowledge: &Knowledge,
    call: &Call,
) -> bool
    ensures { result ≡ own_sequence_if is_so is_other (known_of knowledge.now) call.now }
{
    own_sequence_left(knowledge, call) && is_so && call.is_copied(true) && is_other
}

/// Whether the sequence is set, and the entries go when they are copied.
pub(crate) fn own_entries(knowledge: &Knowledge, call: &Call) -> bool
    ensures { result ≡ callbacks.own_entries (known_of knowledge.now) call.now }
{
    is_own(knowledge, call) && !call.leaves_seq() && call.is_alone() && call.is_copied(false)
}

// ---- all callbacks

/// Whether some breaks `set-sequence`.
pub(crate) fn some_set_sequence(knowledge: &Knowledge) -> bool
    ensures { result ≡ list_any (callbacks.set_sequence (known_of knowledge.now)) knowledge.now.calls }
{
    knowledge
        .calls
        .all()
        .iter()
        .any(|call| set_sequence(knowledge, call))
}

/// Whether all that some left was erased later.
pub(crate) fn some_late(knowledge: &Knowledge) -> bool
    ensures { result ≡ list_any callbacks.is_late knowledge.now.calls }
{
    knowledge.calls.all().iter().any(|call| call.is_late())
}

/// Whether some breaks `own-events`, if this is so of all callbacks.
pub(crate) fn some_own_events_if(is_so: bool, knowledge: &Knowledge) -> bool
    ensures { result ≡ list_any (own_events_if is_so (known_of knowledge.now)) knowledge.now.calls }
{
    knowledge
        .calls
        .all()
        .iter()
        .any(|call| own_events_if(is_so, knowledge, call))
}
