// A set of numbers below a size, which finds its next member in a few reads.
ghost use Rattle.std.specs.Prelude.{◌≡◌, ℕ, ◌<◌, true, false, length, replicate, slice_set, slice_index_or, IfOk};
ghost use Rattle.frame_pool.specs.Bits.{next_true};

use crate::bits;
use hm_base::NoMemory;
use std::alloc::Global;
use std::marker::Model;

/// A bit for each number, and for each word of these a bit that tells whether the word has one set.
#[derive(Drop)]
pub struct NumberSet {
    size: u32,
    words: Vec<u64>,
    summary: Vec<u64>,
}

impl Model for NumberSet {
    ghost use Rattle.std.specs.Prelude.{List, Bool};
    ghost use Rattle.frame_pool.specs.Bits.{members, IsSummed};

    ghost Value = { List Bool };

    ghost view = { λ s. members s.words.items s.size };

    ghost invariant = { λ s. IsSummed s.size s.words.items s.summary.items };
}

impl NumberSet {
    /// The set without a member.
    pub(crate) fn empty(alloc: Global, size: u32) -> Result<NumberSet, NoMemory>
        ensures { IfOk result (λ set. set ≡ replicate size false) }
    {
        let words = zeros(alloc, (size as usize).div_ceil(64))?;
        let summary = zeros(alloc, words.len().div_ceil(64))?;
        Ok(NumberSet {
            size,
            words,
            summary,
        })
    }

    /// The set of all numbers below the size.
    pub(crate) fn full(alloc: Global, size: u32) -> Result<NumberSet, NoMemory>
        ensures { IfOk result (λ set. set ≡ replicate size true) }
    {
        let mut set = NumberSet::empty(alloc, size)?;
        for number in 0..size {
            set.insert(number);
        }
        Ok(set)
    }

    /// Puts the number in.
    pub(crate) fn insert(&mut self, number: u32)
        requires { number < length self.old }
        ensures { self.new ≡ slice_set self.old number true }
    {
        let at = number as usize;
        bits::set_bit(&mut self.words, at);
        bits::set_bit(&mut self.summary, at / 64);
    }

    /// Takes out a member.
    pub(crate) fn remove(&mut self, number: u32)
        requires { slice_index_or self.old number false ≡ true }
        ensures { self.new ≡ slice_set self.old number false }
    {
        let at = number as usize;
        bits::clear_bit(&mut self.words, at);
        if self.words[at / 64] == 0 {
            bits::clear_bit(&mut self.summary, at / 64);
        }
    }

    /// The lowest member from `from` on.
    pub(crate) fn next_at_or_after(&self, from: u32) -> Option<u32>
        ensures { result ≡ next_true self.now from }
    {
        let first = from as usize / 64;
        if first >= self.words.len() {
            return None;
        }
        if let Some(bit) = bits::next_in_word(self.words[first], from % 64) {
            return Some((first * 64) as u32 + bit);
        }
        let word = bits::next_bit(&self.summary, first + 1)?;
        let members = self.words[word];
        Some((word * 64) as u32 + members.trailing_zeros())
    }
}

/// So many words without a bit set.
fn zeros(alloc: Global, count: usize) -> Result<Vec<u64>, NoMemory>
    ensures { IfOk result (λ words. words.items ≡ replicate count 0) }
{
    Ok(vec![in alloc; 0; count]?)
}
