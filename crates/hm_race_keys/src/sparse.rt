// Functions of two numbers that have a value nearly nowhere.
ghost use Rattle.std.specs.Prelude.{◌≡◌, ◌==◌, ◌&&◌, ℕ, ◌≤◌, ◌<◌, nat_le, nat_lt, true, [], Some, None, length};
ghost use Rattle.std.specs.Prelude.{slice_get, if◌then◌else◌, IfOk, OnOk, OnErr};
ghost use Rattle.hm_race_keys.specs.Sparse as sparse;
ghost use Rattle.hm_race_keys.specs.Sparse.{stands_at, stands_before, rising_from, found, is_found, IsNextIn, mixed};
ghost use Rattle.hm_race_keys.specs.Sparse.{mixed_items};

use hm_base::NoMemory;
use std::alloc::Global;
use std::marker::Model;

/// A number that comes of both, mostly another for others. It only makes searches short.
pub fn mixed(sum: u64, word: u64) -> u64
    ensures { result ≡ mixed sum word }
{
    let product = sum
        .wrapping_add(word)
        .wrapping_add(1)
        .wrapping_mul(0x9e37_79b9_7f4a_7c15);
    product.wrapping_add(product >> 32)
}

/// A value that a table keeps.
pub trait Kept: Copy + Drop {
    ghost mixed: { Self → ℕ → ℕ };

    /// Whether the two are the same.
    fn is_same(&self, other: &Self) -> bool
        ensures yes { result ≡ true → self.now ≡ other.now }
        ensures no { self.now ≡ other.now → result ≡ true };

    /// A sum with the value mixed in.
    fn mixed(&self, sum: u64) -> u64
        ensures { result ≡ mixed self.now sum };
}

/// A value with its row and its number there.
#[derive(Clone, Copy)]
pub struct Item<V> {
    pub number: u64,
    pub row: u32,
    pub value: V,
}

impl<V: Kept> Item<V> {
    fn stands_at(&self, row: u32, number: u64) -> bool
        ensures { result ≡ stands_at row number self.now }
    {
        row == self.row && number == self.number
    }

    fn stands_before(&self, row: u32, number: u64) -> bool
        ensures { result ≡ stands_before row number self.now }
    {
        self.row < row || (row == self.row && self.number < number)
    }

    fn stands_within(&self, row: u32, from: u64, end: u64) -> bool
        ensures { result ≡ ((self.now.row == row) && (nat_le from self.now.number && nat_lt self.now.number end)) }
    {
        self.row == row && from <= self.number && self.number < end
    }

    fn is_same(&self, other: &Item<V>) -> bool
        ensures yes { result ≡ true → self.now ≡ other.now }
        ensures no { self.now ≡ other.now → result ≡ true }
    {
        self.number == other.number && self.row == other.row && self.value.is_same(&other.value)
    }
}

// How many items stand before a number of a row.
fn place_of<V: Kept>(items: &[Item<V>], row: u32, number: u64) -> usize
    requires { rising_from 0 0 items.now ≡ true }
    ensures place { result ≡ sparse.place_of row number items.now }
    ensures within { result ≤ length items.now }
{
    items.partition_point(|item| item.stands_before(row, number))
}

// The first item that does not stand before a number of a row.
fn next_at<V: Kept>(items: &[Item<V>], row: u32, number: u64) -> Option<Item<V>>
    requires { rising_from 0 0 items.now ≡ true }
    ensures { result ≡ slice_get items.now (sparse.place_of row number items.now) }
{
    items.get(place_of(items, row, number)).copied()
}

// Whether the item at this place is that of a number of a row.
fn has_at<V: Kept>(items: &[Item<V>], place: usize, row: u32, number: u64) -> bool
    ensures has { result ≡ is_found row number (slice_get items.now place) }
    ensures within { result ≡ true → place < length items.now }
{
    match items.get(place) {
        Some(item) => item.stands_at(row, number),
        None => false,
    }
}

fn same_items<V: Kept>(one: &[Item<V>], other: &[Item<V>]) -> bool
    ensures yes { result ≡ true → one.now ≡ other.now }
    ensures no { one.now ≡ other.now → result ≡ true }
{
    if one.len() != other.len() {
        return false;
    }
    for at in 0..one.len() {
        if !one[at].is_same(&other[at]) {
            return false;
        }
    }
    true
}

// A sum with the items mixed in.
fn mixed_items<V: Kept>(items: &[Item<V>], sum: u64) -> u64
    ensures { result ≡ mixed_items V.mixed sum items.now }
{
    let mut total = mixed(sum, items.len() as u64);
    for item in items {
        total = item
            .value
            .mixed(mixed(mixed(total, u64::from(item.row)), item.number));
    }
    total
}

/// The values of rows by number, as a list of those that are there, in rising order of their rows and numbers.
#[derive(Drop)]
pub struct Sparse<V: Kept> {
    items: Vec<Item<V>>,
}

impl<V: Kept> Model for Sparse<V> {
    ghost use Rattle.std.specs.Prelude.{◌≡◌, true, List};
    ghost use Rattle.hm_race_keys.specs.Sparse.{rising_from};
    ghost use Rattle.hm_race_keys.specs.declared.sparse.Item.{Item as AnyItem};

    ghost Value = { List (AnyItem V) };

    ghost view = { λ s. s.items.items };

    ghost invariant = { λ s. rising_from 0 0 s.items.items ≡ true };
}

impl<V: Kept> Sparse<V> {
    /// No value. It takes no memory.
    pub fn new(alloc: Global) -> Sparse<V>
        ensures { result ≡ [] }
    {
        Sparse {
            items: Vec::new(alloc),
        }
    }

    /// Costs nothing: it hands the prover the order.
    pub fn facts(&self)
        ensures { rising_from 0 0 self.now ≡ true }
    {
        let _ = &self.items;
    }

    /// All values, in rising order of their rows and numbers.
    pub fn items(&self) -> &[Item<V>]
        ensures same { result.now ≡ self.now }
        ensures rising { rising_from 0 0 self.now ≡ true }
    {
        self.items.as_slice()
    }

    /// The value at a number of a row.
    pub fn get(&self, row: u32, number: u64) -> Option<V>
        ensures { result ≡ found self.now row number }
    {
        match next_at(self.items.as_slice(), row, number) {
            None => None,
            Some(item) => {
                if item.stands_at(row, number) {
                    Some(item.value)
                } else {
                    None
                }
            }
        }
    }

    /// The first number of a row from there on that has a value, and the value.
    pub(crate) fn next(&self, row: u32, from: u64) -> Option<(u64, V)>
        ensures { IsNextIn (found self.now row) from result }
    {
        match next_at(self.items.as_slice(), row, from) {
            None => None,
            Some(item) => {
                if item.row == row {
                    Some((item.number, item.value))
                } else {
                    None
                }
            }
        }
    }

    /// A number of a row has this value from now on; a failure changes nothing.
    pub fn set(&mut self, row: u32, number: u64, value: V) -> Result<(), NoMemory>
        ensures ok { OnOk result
            ((r k : ℕ)
            → found self.new r k ≡ (if (r == row) && (k == number) then Some value else found self.old r k)) }
        ensures err { OnErr result (self.new ≡ self.old) }
    {
        let place = place_of(self.items.as_slice(), row, number);
        let item = Item { number, row, value };
        if has_at(self.items.as_slice(), place, row, number) {
            self.items[place] = item;
            return Ok(());
        }
        match self.items.insert(place, item) {
            Ok(()) => Ok(()),
            Err(_) => Err(NoMemory),
        }
    }

    /// A number of a row has no value from now on.
    pub fn remove(&mut self, row: u32, number: u64)
        ensures { (r k : ℕ)
            → found self.new r k ≡ (if (r == row) && (k == number) then None else found self.old r k) }
    {
        self.items
            .retain(|item| !(item.row == row && item.number == number));
    }

    /// The numbers of a row from one up to another have no value from now on.
    pub fn remove_span(&mut self, row: u32, from: u64, end: u64)
        ensures { (r k : ℕ)
            → found self.new r k
            ≡ (if (r == row) && (nat_le from k && nat_lt k end) then None else found self.old r k) }
    {
        self.items
            .retain(|item| !item.stands_within(row, from, end));
    }

    /// No number of a row has a value from now on.
    pub fn remove_row(&mut self, row: u32)
        ensures { (r k : ℕ) → found self.new r k ≡ (if r == row then None else found self.old r k) }
    {
        self.items.retain(|item| item.row != row);
    }

    /// The same values, in memory of their own.
    pub fn copy(&self, alloc: Global) -> Result<Sparse<V>, NoMemory>
        ensures { IfOk result (λ x. x ≡ self.now) }
    {
        Ok(Sparse {
            items: Vec::from_slice(alloc, self.items.as_slice())?,
        })
    }

    /// Whether both have the same values.
    pub fn same(&self, other: &Sparse<V>) -> bool
        ensures yes { result ≡ true → self.now ≡ other.now }
        ensures no { ((r k : ℕ) → found self.now r k ≡ found other.now r k) → result ≡ true }
    {
        same_items(self.items.as_slice(), other.items.as_slice())
    }

    /// A sum with all items mixed in.
    pub fn bucket(&self, sum: u64) -> u64
        ensures { result ≡ mixed_items V.mixed sum self.now }
    {
        mixed_items(self.items.as_slice(), sum)
    }
}
