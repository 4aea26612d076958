// Small sequences, compared.
ghost use Rattle.std.specs.Prelude.{◌≡◌, ◌≤◌, ℕ, true, false, None, slice_index_or};
ghost use Rattle.hm_folds.specs.Kept.{interval_of, interval_at, stage_of};
ghost use Rattle.hm_race_states.specs.SeqBy.{seq_by};

use crate::small::{SmallSeqs, read};
use hm_folds::intervals::{KeptInterval, KeptStage};

fn same_stage(one: KeptStage, other: KeptStage) -> bool
    ensures yes { result ≡ true → stage_of one ≡ stage_of other }
    ensures no { stage_of one ≡ stage_of other → result ≡ true }
{
    match one {
        KeptStage::InTree => matches!(other, KeptStage::InTree),
        KeptStage::InsertDeferred => matches!(other, KeptStage::InsertDeferred),
        KeptStage::RemoveDeferred => matches!(other, KeptStage::RemoveDeferred),
        KeptStage::Removed => matches!(other, KeptStage::Removed),
        KeptStage::Out => matches!(other, KeptStage::Out),
    }
}

/// Whether both are the same interval, or both are none.
pub fn same_interval(one: &Option<KeptInterval>, other: &Option<KeptInterval>) -> bool
    ensures yes { result ≡ true → interval_of one.now ≡ interval_of other.now }
    ensures no { interval_of one.now ≡ interval_of other.now → result ≡ true }
{
    match one {
        None => other.is_none(),
        Some(x) => match other {
            None => false,
            Some(y) => {
                x.proc == y.proc
                    && x.window == y.window
                    && x.seq == y.seq
                    && same_stage(x.stage, y.stage)
            }
        },
    }
}

/// Whether each number has the same flag in both.
pub(crate) fn same_flags(one: &[bool; 32], other: &[bool; 32]) -> bool
    ensures yes { result ≡ true → (p : ℕ) → slice_index_or one.now p false ≡ slice_index_or other.now p false }
    ensures no { ((p : ℕ) → slice_index_or one.now p false ≡ slice_index_or other.now p false) → result ≡ true }
{
    for at in 0..32usize {
        if one[at] != other[at] {
            return false;
        }
    }
    true
}

/// Whether each number has the same count in both.
pub fn same_counts(one: &[u8; 32], other: &[u8; 32]) -> bool
    ensures yes { result ≡ true → (p : ℕ) → slice_index_or one.now p 0 ≡ slice_index_or other.now p 0 }
    ensures no { ((p : ℕ) → slice_index_or one.now p 0 ≡ slice_index_or other.now p 0) → result ≡ true }
{
    for at in 0..32usize {
        if one[at] != other[at] {
            return false;
        }
    }
    true
}

// The longer of two lengths.
fn longer(one: usize, other: usize) -> usize
    ensures one { one ≤ result }
    ensures other { other ≤ result }
{
    if one < other { other } else { one }
}

fn same_intervals(one: &[Option<KeptInterval>], other: &[Option<KeptInterval>]) -> bool
    ensures yes { result ≡ true → (m : ℕ) → interval_at one.now m ≡ interval_at other.now m }
    ensures no { ((m : ℕ) → interval_at one.now m ≡ interval_at other.now m) → result ≡ true }
{
    let most = longer(one.len(), other.len());
    for at in 0..most {
        if !same_interval(&read(one, at), &read(other, at)) {
            return false;
        }
    }
    true
}

impl SmallSeqs {
    ghost use Rattle.hm_race_states.specs.Small.{kept_seqs};

    /// Whether both are the same sequences.
    pub fn same(&self, other: &SmallSeqs) -> bool
        ensures yes { result ≡ true → kept_seqs self.now ≡ kept_seqs other.now }
        ensures no { kept_seqs self.now ≡ kept_seqs other.now → result ≡ true }
    {
        if !same_flags(&self.odd, &other.odd) {
            return false;
        }
        if !same_counts(&self.active, &other.active) {
            return false;
        }
        same_intervals(&self.intervals, &other.intervals)
    }
}
