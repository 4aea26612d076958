// The words of the tables of the first level. A table is for 64 words. At first eight of them have memory, so that a
// page that is alone in its table takes that of eight words; then all have, side by side.
ghost use Rattle.std.specs.Prelude.{◌≡◌, ◌≢◌, ℕ, ◌*◌, ◌/◌, ◌+◌, ◌%◌, ◌^◌, ◌<◌, ◌≤◌, [], length, slice_index, slice_set};
ghost use Rattle.std.specs.Prelude.{MatchResult, OnErr, IfOk};
ghost use Rattle.radix_tables.specs.Walks.{IsLonger};
ghost use Rattle.radix_tables.specs.Rows.{AreRows, AreRowsAdded, IsRoomMade, IsRowAdded, IsRowCopied};

use crate::row_numbers::RowNumbers;
use hm_base::NoMemory;
use std::alloc::Global;
use std::marker::Model;

/// Words of a row.
const ROW: usize = 8;

/// Words of a table.
const TABLE: usize = 64;

/// Tables of 64 words. For each eight words there is the number of their row, 0 if they have none and are all 0. Row 0
/// stays empty.
#[derive(Drop)]
pub struct WordRows {
    rows: RowNumbers,
    words: Vec<u64>,
}

impl Model for WordRows {
    ghost use Rattle.radix_tables.specs.Rows.{Words};

    ghost Value = { Words };

    ghost use Rattle.radix_tables.specs.RowsShown.{words_of, AreSound};

    ghost view = { words_of };

    ghost invariant = { AreSound };
}

impl WordRows {
    pub(crate) fn new(alloc: Global) -> WordRows
        ensures { result ≡ record { items = []; room = [] } }
    {
        WordRows {
            rows: RowNumbers::new(alloc),
            words: Vec::new(alloc),
        }
    }

    pub(crate) fn allocator(&self) -> Global {
        *self.words.allocator()
    }

    /// How many tables there are.
    pub(crate) fn tables(&self) -> usize
        ensures count { result * 64 ≡ length self.now.items }
        ensures room { length self.now.room ≡ length self.now.items }
        ensures few { result < 2 ^ 63 }
    {
        self.rows.tables()
    }

    /// Each word that is not 0 has a row.
    pub(crate) fn facts(&self)
        ensures { (k : ℕ) → slice_index self.now.items k ≢ 0 → slice_index self.now.room k ≢ 0 }
    {
        let _ = &self.rows;
    }

    /// The number of the row that a word has, 0 if it has none.
    #[inline(always)]
    pub(crate) fn row(&self, at: usize) -> u64
        ensures { result ≡ slice_index self.now.room at }
    {
        self.rows.get(at / ROW)
    }

    #[inline(always)]
    pub(crate) fn get(&self, at: usize) -> u64
        ensures { result ≡ slice_index self.now.items at }
    {
        let row = self.rows.get(at / ROW);
        word_in(&self.words, row as usize * ROW + at % ROW)
    }

    /// Adds tables with no row until there are as many as this.
    pub(crate) fn grow(&mut self, tables: usize) -> Result<(), NoMemory>
        requires { length self.old.items ≤ tables * 64 }
        ensures { MatchResult result
            (λ _. IsLonger self.old.items self.new.items × IsLonger self.old.room self.new.room
            × (length self.new.items ≡ tables * 64) × (length self.new.room ≡ tables * 64))
            (λ _. self.new ≡ self.old) }
    {
        self.rows.grow(tables)?;
        Ok(())
    }

    /// Gives a word memory, and others of its table: those beside it in its row, or all if the table has a row already.
    pub(crate) fn reserve(&mut self, at: usize) -> Result<(), NoMemory>
        requires at { at < length self.old.items }
        requires none { slice_index self.old.room at ≡ 0 }
        ensures items { self.new.items ≡ self.old.items }
        ensures room { MatchResult result (λ _. IsRoomMade self.old.room self.new.room at)
            (λ _. self.new.room ≡ self.old.room) }
    {
        match self.rows.only(at / TABLE) {
            None => {
                let row = add_row(&mut self.words)?;
                self.rows.set(at / ROW, row as u64);
            }
            Some((which, row)) => {
                let first = add_rows(&mut self.words)?;
                copy_row(&mut self.words, row as usize, first + which);
                self.rows.spread(at / TABLE, first as u64);
            }
        }
        Ok(())
    }

    /// Sets a word that has a row.
    #[inline(always)]
    pub(crate) fn set(&mut self, at: usize, word: u64)
        requires { slice_index self.old.room at ≢ 0 }
        ensures items { self.new.items ≡ slice_set self.old.items at word }
        ensures room { self.new.room ≡ self.old.room }
    {
        let row = self.rows.get(at / ROW);
        self.words[row as usize * ROW + at % ROW] = word;
    }
}

/// The word there, 0 if there is none.
#[inline(always)]
fn word_in(words: &[u64], at: usize) -> u64
    ensures { result ≡ slice_index words.now at }
{
    match words.get(at) {
        Some(word) => *word,
        None => 0,
    }
}

/// Adds an empty row, and gives its number.
fn add_row(words: &mut Vec<u64>) -> Result<usize, NoMemory>
    requires { length words.old.items % 8 ≡ 0 }
    ensures low { IfOk result (λ row. row < 2 ^ 60) }
    ensures added { MatchResult result (λ row. IsRowAdded words.old.items words.new.items row)
        (λ _. words.new.items ≡ words.old.items) }
{
    let row = (words.len() / ROW).max(1);
    words.resize((row + 1) * ROW, 0)?;
    Ok(row)
}

/// Adds eight empty rows, and gives the number of the first.
fn add_rows(words: &mut Vec<u64>) -> Result<usize, NoMemory>
    requires { length words.old.items % 8 ≡ 0 }
    ensures low { IfOk result (λ first. first + 7 < 2 ^ 60) }
    ensures added { MatchResult result (λ first. AreRowsAdded words.old.items words.new.items first)
        (λ _. words.new.items ≡ words.old.items) }
{
    let first = (words.len() / ROW).max(1);
    words.resize(first * ROW + TABLE, 0)?;
    Ok(first)
}

/// Writes the words of a row over those of another one.
fn copy_row(words: &mut Vec<u64>, from: usize, to: usize)
    requires from { from * 8 + 8 ≤ length words.old.items }
    requires to { to * 8 + 8 ≤ length words.old.items }
    ensures { IsRowCopied words.old.items words.new.items from to }
{
    words.copy_within(from * ROW..from * ROW + ROW, to * ROW);
}
