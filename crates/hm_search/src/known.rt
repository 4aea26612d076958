// The states that a search knows, in the order in which it came to them.
ghost use Rattle.std.specs.Prelude.{◌≡◌, ◌∷◌, ◌++◌, [], true, false, IfOk, OnOk};
ghost use Rattle.hm_race_laws.specs.Closed.{IsListed};
ghost use Rattle.hm_search.specs.Known.{turns_at};
ghost use Rattle.hm_search.specs.Values.{all_known, from_of, key_forms, Fits};

use crate::buckets::Buckets;
use crate::system::SearchKey;
use hm_base::{Actor, NoMemory};
use std::alloc::Global;

/// A turn of an actor, at the known state with this index.
#[derive(Clone, Copy)]
pub struct Edge {
    pub state: usize,
    pub actor: Actor,
}

/// A state that a search knows: its key, the turn that led to it first (none to the state at the start), how many
/// turns lead to it from the start, and whether it counts as ended.
#[derive(Drop)]
pub struct Known<K> {
    pub key: K,
    pub from: Option<Edge>,
    pub depth: u64,
    pub ended: bool,
}

/// All states that a search knows.
#[derive(Drop)]
pub struct States<K> {
    pub known: Vec<Known<K>>,
    // The buckets of their keys.
    buckets: Buckets,
}

impl<K: SearchKey + Drop> States<K> {
    /// No state.
    pub fn new(alloc: Global) -> Result<States<K>, NoMemory>
        ensures empty { IfOk result (λ s. s.known.items ≡ []) }
        ensures fits { IfOk result (λ s. Fits K.form K.number K.Valid s.known.items s.buckets) }
    {
        Ok(States {
            known: Vec::new(alloc),
            buckets: Buckets::new(alloc)?,
        })
    }

    /// Whether a state with this key, whose bucket this is, is known.
    pub(crate) fn has(&self, bucket: u64, key: &K) -> bool
        requires fits { Fits K.form K.number K.Valid self.now.known.items self.now.buckets }
        requires bucket { bucket ≡ K.number key.now }
        ensures some { result ≡ true → IsListed (key_forms K.form self.now.known.items) (K.form key.now) }
        ensures none { result ≡ false → IsListed (key_forms K.form self.now.known.items) (K.form key.now) → ⊥ }
    {
        key.facts();
        let mut next = self.buckets.last(bucket);
        while let Some(at) = next {
            if self.buckets.number(at) == bucket && self.known[at].key.same(key) {
                return true;
            }
            next = self.buckets.before(at);
        }
        false
    }

    /// The state, which was not known, and whose key has this bucket, is known from now on, as the last.
    pub fn push(&mut self, alloc: Global, bucket: u64, state: Known<K>) -> Result<(), NoMemory>
        requires fits { Fits K.form K.number K.Valid self.old.known.items self.old.buckets }
        requires bucket { bucket ≡ K.number state.key }
        requires new { IsListed (key_forms K.form self.old.known.items) (K.form state.key) → ⊥ }
        ensures pushed { OnOk result (self.new.known.items ≡ self.old.known.items ++ state ∷ []) }
        ensures fits { OnOk result (Fits K.form K.number K.Valid self.new.known.items self.new.buckets) }
    {
        state.key.facts();
        self.buckets.push(alloc, bucket)?;
        self.known.push(state)?;
        Ok(())
    }
}

// The turn that led first to the state at this place.
fn turn_to<K>(known: &[Known<K>], at: usize) -> Option<Edge>
    ensures { result ≡ from_of known.now at }
{
    match known.get(at) {
        Some(state) => state.from,
        None => None,
    }
}

/// The turns that lead to the known state at this place from the start; none if there is no such state.
pub fn turns_to<K: SearchKey>(
    alloc: Global,
    known: &[Known<K>],
    at: usize,
) -> Result<Vec<Actor>, NoMemory>
    ensures { IfOk result (λ v. v.items ≡ turns_at (all_known K.form known.now) at) }
{
    let mut turns = Vec::new(alloc);
    let mut place = at;
    while let Some(turn) = turn_to(known, place) {
        turns.push(turn.actor)?;
        if turn.state >= place {
            break;
        }
        place = turn.state;
    }
    turns.reverse();
    Ok(turns)
}
