// What a driver has of its own, copied and compared as a whole.
ghost use Rattle.std.specs.Prelude.{◌≡◌, ℕ, true, slice_index_or, IfOk};
ghost use Rattle.hm_flaw_states.specs.Owns.{driver_in, seq_in};
ghost use Rattle.hm_flaw_states.specs.Alike.{SameOwns};
ghost use Rattle.hm_flaw_states.specs.Buckets.{mixed_numbers, driver_number};

use crate::owns::Own;
use hm_base::NoMemory;
use hm_race_keys::sparse::mixed;
use std::alloc::Global;

/// The same once more, in memory of its own.
pub(crate) fn copy_own(alloc: Global, own: &Own) -> Result<Own, NoMemory>
    ensures { IfOk result (λ x. driver_in x ≡ driver_in own.now) }
{
    Ok(Own {
        table: own.table.copy(alloc)?,
        seqs: own.seqs,
        late: own.late.copy(alloc)?,
        bytes: own.bytes.copy(alloc)?,
    })
}

fn same_numbers(one: &[u64; 32], other: &[u64; 32]) -> bool
    ensures yes { result ≡ true → (m : ℕ) → seq_in one.now m ≡ seq_in other.now m }
    ensures no { ((m : ℕ) → seq_in one.now m ≡ seq_in other.now m) → result ≡ true }
{
    for at in 0..32usize {
        if one[at] != other[at] {
            return false;
        }
    }
    true
}

fn same_parts(one: &Own, other: &Own) -> bool
    ensures yes { result ≡ true → SameOwns one.now other.now }
    ensures no { SameOwns one.now other.now → result ≡ true }
{
    if !same_numbers(&one.seqs, &other.seqs) {
        return false;
    }
    if !one.table.same(&other.table) {
        return false;
    }
    if !one.late.same(&other.late) {
        return false;
    }
    one.bytes.same(&other.bytes)
}

/// Whether both stand for the same.
pub(crate) fn same_own(one: &Own, other: &Own) -> bool
    ensures alike { result ≡ true → driver_in one.now ≡ driver_in other.now }
    ensures apart { driver_in one.now ≡ driver_in other.now → result ≡ true }
{
    same_parts(one, other)
}

fn mixed_numbers(sum: u64, numbers: &[u64; 32]) -> u64
    ensures { result ≡ mixed_numbers sum 32 (seq_in numbers.now) }
{
    let mut total = sum;
    for at in 0..32usize {
        total = mixed(total, numbers[at]);
    }
    total
}

/// A number that is the same for what stands for the same, and should mostly be another for another.
pub(crate) fn bucket_own(own: &Own) -> u64
    ensures { result ≡ driver_number (driver_in own.now) }
{
    mixed_numbers(1, &own.seqs)
}
