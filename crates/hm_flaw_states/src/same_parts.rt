// Parts of states, compared.
ghost use Rattle.std.specs.Prelude.{◌≡◌, ℕ, true, slice_index_or};
ghost use Rattle.hm_folds.specs.Been.{been_of};
ghost use Rattle.hm_folds.specs.Kept.{interval_at};
ghost use Rattle.hm_flaw_states.specs.Exact.{exact_in};

use crate::exact_seqs::ExactSeqs;
use hm_folds::intervals::KeptInterval;
use hm_race_states::same_seqs::same_interval;

/// Whether each process was there at some time in both, or in neither.
pub(crate) fn same_been(one: &[bool; 32], other: &[bool; 32]) -> bool
    ensures yes { result ≡ true → (p : ℕ) → been_of one.now p ≡ been_of other.now p }
    ensures no { ((p : ℕ) → been_of one.now p ≡ been_of other.now p) → result ≡ true }
{
    for at in 0..32usize {
        if one[at] != other[at] {
            return false;
        }
    }
    true
}

fn same_numbers(one: &[u64; 32], other: &[u64; 32]) -> bool
    ensures yes { result ≡ true → (p : ℕ) → slice_index_or one.now p 2 ≡ slice_index_or other.now p 2 }
    ensures no { ((p : ℕ) → slice_index_or one.now p 2 ≡ slice_index_or other.now p 2) → result ≡ true }
{
    for at in 0..32usize {
        if one[at] != other[at] {
            return false;
        }
    }
    true
}

fn same_counts(one: &[u64; 32], other: &[u64; 32]) -> bool
    ensures yes { result ≡ true → (p : ℕ) → slice_index_or one.now p 0 ≡ slice_index_or other.now p 0 }
    ensures no { ((p : ℕ) → slice_index_or one.now p 0 ≡ slice_index_or other.now p 0) → result ≡ true }
{
    for at in 0..32usize {
        if one[at] != other[at] {
            return false;
        }
    }
    true
}

fn same_intervals(one: &[Option<KeptInterval>; 32], other: &[Option<KeptInterval>; 32]) -> bool
    ensures yes { result ≡ true → (m : ℕ) → interval_at one.now m ≡ interval_at other.now m }
    ensures no { ((m : ℕ) → interval_at one.now m ≡ interval_at other.now m) → result ≡ true }
{
    for at in 0..32usize {
        if !same_interval(&one[at], &other[at]) {
            return false;
        }
    }
    true
}

/// Whether both are the same sequences.
pub(crate) fn same_seqs(one: &ExactSeqs, other: &ExactSeqs) -> bool
    ensures yes { result ≡ true → exact_in one.now.kept ≡ exact_in other.now.kept }
    ensures no { exact_in one.now.kept ≡ exact_in other.now.kept → result ≡ true }
{
    if !same_numbers(&one.kept.seqs, &other.kept.seqs) {
        return false;
    }
    if !same_counts(&one.kept.active, &other.kept.active) {
        return false;
    }
    same_intervals(&one.kept.intervals, &other.kept.intervals)
}
