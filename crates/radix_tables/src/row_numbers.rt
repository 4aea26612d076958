// The numbers of the rows of tables. A table has none, one, or all of its eight rows, which then lie side by side; so
// one word says which they are.
ghost use Rattle.std.specs.Prelude.{◌≡◌, ◌≢◌, ℕ, ◌+◌, ◌*◌, ◌/◌, ◌%◌, ◌^◌, ◌<◌, ◌≤◌, [], length, slice_index, slice_set};
ghost use Rattle.std.specs.Prelude.{MatchResult, IfSome, IfNone};
ghost use Rattle.radix_tables.specs.Heads.{HasOne, IsAllOrNone, IsLow, IsSpread, all_of, head_of, number_in};
ghost use Rattle.radix_tables.specs.Walks.{IsLonger};

use hm_base::NoMemory;
use std::alloc::Global;
use std::marker::Model;

/// Rows that a table may have.
const ROWS: usize = 8;

/// The numbers of the rows of tables, eight for each table, 0 for a row that is not there. For each table there is one
/// word: 0 if it has no row; of a single row 16 times its number, twice its place among the eight, and 1; of eight rows
/// twice the number of the first.
#[derive(Drop)]
pub struct RowNumbers {
    heads: Vec<u64>,
}

impl Model for RowNumbers {
    ghost use Rattle.std.specs.Prelude.{List, ℕ};

    ghost Value = { List ℕ };

    ghost use Rattle.radix_tables.specs.HeadsShown.{numbers_of, AreSound};

    ghost view = { numbers_of };

    ghost invariant = { AreSound };
}

impl RowNumbers {
    pub(crate) fn new(alloc: Global) -> RowNumbers
        ensures { result ≡ [] }
    {
        RowNumbers {
            heads: Vec::new(alloc),
        }
    }

    /// How many tables there are.
    pub(crate) fn tables(&self) -> usize
        ensures count { result * 8 ≡ length self.now }
        ensures few { result < 2 ^ 63 }
    {
        self.heads.len()
    }

    /// The number of a row, 0 if it is not there.
    #[inline(always)]
    pub(crate) fn get(&self, at: usize) -> u64
        ensures number { result ≡ slice_index self.now at }
        ensures bound { result < 2 ^ 60 }
    {
        number_in(head_at(&self.heads, at / ROWS), at % ROWS)
    }

    /// The only row of a table, by its place among the eight and its number. If there is none, the table has no row, or
    /// all eight.
    pub(crate) fn only(&self, table: usize) -> Option<(usize, u64)>
        ensures one { IfSome result (λ r. HasOne self.now table r.0 r.1) }
        ensures none { IfNone result (IsAllOrNone self.now table) }
        ensures bound { IfSome result (λ r. r.1 < 2 ^ 60) }
    {
        let head = head_at(&self.heads, table);
        if head % 2 == 0 {
            return None;
        }
        Some(((head / 2 % 8) as usize, head / 16))
    }

    /// Adds tables with no row until there are as many as this.
    pub(crate) fn grow(&mut self, tables: usize) -> Result<(), NoMemory>
        requires { length self.old ≤ tables * 8 }
        ensures { MatchResult result
            (λ _. IsLonger self.old self.new × (length self.new ≡ tables * 8)) (λ _. self.new ≡ self.old) }
    {
        add_heads(&mut self.heads, tables)?;
        Ok(())
    }

    /// Gives a table without rows its first one.
    pub(crate) fn set(&mut self, at: usize, row: u64)
        requires inside { at < length self.old }
        requires low { row < 2 ^ 60 }
        requires none { (k : ℕ) → k / 8 ≡ at / 8 → slice_index self.old k ≡ 0 }
        ensures { self.new ≡ slice_set self.old at row }
    {
        self.heads[at / ROWS] = head_of(row, at % ROWS);
    }

    /// Gives a table eight rows side by side in place of those that it has. The first has this number.
    pub(crate) fn spread(&mut self, table: usize, first: u64)
        requires inside { table * 8 < length self.old }
        requires low { first + 7 < 2 ^ 60 }
        requires some { 1 ≤ first }
        ensures { IsSpread self.old self.new table first }
    {
        self.heads[table] = all_of(first);
    }
}

/// The word of a table, 0 if it is not there.
#[inline(always)]
fn head_at(heads: &[u64], table: usize) -> u64
    ensures { result ≡ slice_index heads.now table }
{
    match heads.get(table) {
        Some(head) => *head,
        None => 0,
    }
}

/// Adds words of tables with no row, until there are this many.
fn add_heads(heads: &mut Vec<u64>, count: usize) -> Result<(), NoMemory>
    requires { length heads.old.items ≤ count }
    ensures { MatchResult result (λ _. IsLonger heads.old.items heads.new.items × (length heads.new.items ≡ count))
        (λ _. heads.new.items ≡ heads.old.items) }
{
    heads.resize(count, 0)?;
    Ok(())
}

/// The word of a table with one row, which is this one of the eight.
fn head_of(row: u64, which: usize) -> u64
    requires row { row < 2 ^ 60 }
    requires which { which < 8 }
    ensures { result ≡ head_of row which }
{
    row * 16 + which as u64 * 2 + 1
}

/// The word of a table with eight rows.
fn all_of(first: u64) -> u64
    requires { first < 2 ^ 60 }
    ensures { result ≡ all_of first }
{
    first * 2
}

/// The number that a table with this word has for one of its eight rows.
#[inline(always)]
fn number_in(head: u64, which: usize) -> u64
    requires which { which < 8 }
    requires head { IsLow head }
    ensures number { result ≡ number_in head which }
    ensures bound { result < 2 ^ 60 }
{
    if head == 0 {
        return 0;
    }
    if head % 2 == 0 {
        return head / 2 + which as u64;
    }
    if head / 2 % 8 == which as u64 {
        head / 16
    } else {
        0
    }
}
