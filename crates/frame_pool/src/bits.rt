// Bits in words of 64, numbered through the words from the lowest bit of the first.
ghost use Rattle.std.specs.Prelude.{◌≡◌, ◌≢◌, ℕ, ◌+◌, ◌*◌, ◌/◌, ◌<◌, ◌≤◌, ◌^◌, ◌==◌, Bool, true, false, length};
ghost use Rattle.std.specs.Prelude.{slice_index, MatchOption, if◌then◌else◌};
ghost use Rattle.std.specs.Int.{bit_at};
ghost use Rattle.frame_pool.specs.Bits.{bit, IsNext};

/// Sets the bit.
#[inline]
pub fn set_bit(words: &mut Vec<u64>, at: usize)
    requires { at / 64 < length words.old.items }
    ensures bits { (k : ℕ) → bit words.new.items k ≡ (if k == at then true else bit words.old.items k) }
    ensures others { (w : ℕ) → w ≢ at / 64 → slice_index words.new.items w ≡ slice_index words.old.items w }
    ensures len { length words.new.items ≡ length words.old.items }
{
    words[at / 64] |= 1 << (at % 64);
}

/// Clears the bit.
#[inline]
pub fn clear_bit(words: &mut Vec<u64>, at: usize)
    requires { at / 64 < length words.old.items }
    ensures bits { (k : ℕ) → bit words.new.items k ≡ (if k == at then false else bit words.old.items k) }
    ensures others { (w : ℕ) → w ≢ at / 64 → slice_index words.new.items w ≡ slice_index words.old.items w }
    ensures len { length words.new.items ≡ length words.old.items }
{
    words[at / 64] &= !(1 << (at % 64));
}

/// The lowest bit of the word that is set, from `from` on.
#[inline]
pub fn next_in_word(word: u64, from: u32) -> Option<u32>
    requires { from < 64 }
    ensures next { MatchOption result ((k : ℕ) → from ≤ k → k < 64 → bit_at word k ≡ 0)
        (λ q. (from ≤ q) × (q < 64) × (bit_at word q ≡ 1) × ((k : ℕ) → from ≤ k → k < q → bit_at word k ≡ 0)) }
{
    let rest = word & (u64::MAX << from);
    if rest == 0 {
        return None;
    }
    Some(rest.trailing_zeros())
}

/// The lowest bit of the words that is set, from `from` on.
#[inline]
pub fn next_bit(words: &[u64], from: usize) -> Option<usize>
    requires { length words.now ≤ 2 ^ 32 }
    ensures { IsNext (bit words.now) from result }
{
    let first = from / 64;
    if first >= words.len() {
        return None;
    }
    if let Some(bit) = next_in_word(words[first], (from % 64) as u32) {
        return Some(first * 64 + bit as usize);
    }
    for at in first + 1..words.len() {
        if words[at] != 0 {
            return Some(at * 64 + words[at].trailing_zeros() as usize);
        }
    }
    None
}
