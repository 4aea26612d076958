// The tables of one level, 64 entries each, in a row.
ghost use Rattle.std.specs.Prelude.{◌≡◌, ◌≢◌, ℕ, ◌+◌, ◌*◌, ◌/◌, ◌%◌, ◌^◌, ◌<◌, ◌≤◌, List, length, slice_index};
ghost use Rattle.std.specs.Prelude.{MatchResult, OnOk, OnErr, IfOk, ◌∷◌, max};
ghost use Rattle.radix_tables.specs.Walks.{IsWhole, IsLonger, IsFirst, IsAdded, IsChild};
ghost use Rattle.radix_tables.specs.Levels.{IsStepIn};

use crate::word_rows::WordRows;
use hm_base::NoMemory;

/// Entries of a table.
const ENTRIES: u64 = 64;

/// The table of the lowest numbers, which is there from the first.
pub const FIRST: u64 = 1;

/// What a walk down to a number came to: its table, or a gap that ends before this number.
#[derive(Drop)]
pub enum Step {
    Table(u64),
    Gap(u64),
}

/// Where in a level the entry of a table for a number stands.
pub(crate) fn place(table: u64, number: u64) -> usize
    requires { table < 2 ^ 57 }
    ensures { result ≡ table * 64 + number % 64 }
{
    (table * ENTRIES + number % ENTRIES) as usize
}

/// The entry of a table for a number.
pub(crate) fn entry(entries: &[u64], table: u64, number: u64) -> u64
    requires { table < 2 ^ 57 }
    ensures { result ≡ slice_index entries.now (table * 64 + number % 64) }
{
    match entries.get(place(table, number)) {
        Some(entry) => *entry,
        None => 0,
    }
}

/// Goes on from a table to the one that its entry names.
pub(crate) fn step_down(entries: &[u64], above: Step, number: u64) -> Step
    requires above { (t : ℕ) → above ≡ Step.Table t → t < 2 ^ 57 }
    requires number { number < 2 ^ 36 }
    ensures { (levels : List (List ℕ)) → IsWhole entries.now → IsStepIn levels (number / 64) above
        → IsStepIn (entries.now ∷ levels) number result }
{
    if number == 0 {
        return Step::Table(FIRST);
    }
    match above {
        Step::Gap(next) => Step::Gap(next.saturating_mul(ENTRIES)),
        Step::Table(table) => match entry(entries, table, number) {
            0 => Step::Gap(gap_end(entries, table, number)),
            named => Step::Table(named),
        },
    }
}

/// Where the empty entries of a table from this one on end.
fn gap_end(entries: &[u64], table: u64, number: u64) -> u64
    requires table { table < 2 ^ 57 }
    requires number { number < 2 ^ 36 }
    requires empty { slice_index entries.now (table * 64 + number % 64) ≡ 0 }
    ensures further { number < result }
    ensures inside { result ≤ (number / 64 + 1) * 64 }
    ensures gap { (n : ℕ) → number ≤ n → n < result → slice_index entries.now (table * 64 + n % 64) ≡ 0 }
{
    let end = (number / ENTRIES + 1) * ENTRIES;
    for at in number + 1..end {
        if entry(entries, table, at) != 0 {
            return at;
        }
    }
    end
}

/// Makes the table of the lowest numbers, if it is not there.
pub(crate) fn first_table(entries: &mut Vec<u64>) -> Result<(), NoMemory>
    requires { IsWhole entries.old.items }
    ensures entries { IsLonger entries.old.items entries.new.items }
    ensures whole { IsWhole entries.new.items }
    ensures err { OnErr result (entries.new.items ≡ entries.old.items) }
    ensures ok { OnOk result (128 ≤ length entries.new.items) }
    ensures few { length entries.new.items ≤ max (length entries.old.items) 128 }
    ensures more { length entries.old.items ≤ length entries.new.items }
{
    if entries.is_empty() {
        entries.resize(2 * ENTRIES as usize, 0)?;
    }
    Ok(())
}

/// Adds an empty table, and gives its number, which is 2 or more.
fn add_table(entries: &mut Vec<u64>) -> Result<u64, NoMemory>
    requires { length entries.old.items % 64 ≡ 0 }
    ensures entries { MatchResult result (λ table. IsLonger entries.old.items entries.new.items)
        (λ _. entries.new.items ≡ entries.old.items) }
    ensures number { IfOk result
        (λ table. (2 ≤ table) × (length entries.old.items ≤ table * 64)
        × (length entries.new.items ≡ table * 64 + 64)) }
    ensures grown { length entries.new.items ≤ length entries.old.items + 192 }
{
    let tables = (entries.len() / ENTRIES as usize).max(2);
    entries.resize((tables + 1) * ENTRIES as usize, 0)?;
    Ok(tables as u64)
}

/// The table that an entry names, which is made if it names none.
pub(crate) fn child(
    entries: &mut Vec<u64>,
    at: usize,
    below: &mut Vec<u64>,
) -> Result<u64, NoMemory>
    requires at { at < length entries.old.items }
    requires below { length below.old.items % 64 ≡ 0 }
    ensures child { MatchResult result
        (λ _. IsChild entries.old.items entries.new.items below.old.items below.new.items at)
        (λ _. (entries.new.items ≡ entries.old.items) × (below.new.items ≡ below.old.items)) }
    ensures grown { length below.new.items ≤ length below.old.items + 192 }
{
    if entries[at] == 0 {
        entries[at] = add_table(below)?;
    }
    Ok(entries[at])
}

/// As `first_table`, of words.
pub(crate) fn first_words(words: &mut WordRows) -> Result<(), NoMemory>
    requires whole { IsWhole words.old.items }
    requires room { IsWhole words.old.room }
    requires long { length words.old.room ≡ length words.old.items }
    ensures ok { OnOk result (IsFirst words.old.items words.new.items × IsFirst words.old.room words.new.room
        × (length words.new.room ≡ length words.new.items)) }
    ensures err { OnErr result (words.new ≡ words.old) }
    ensures grown { length words.new.items ≤ length words.old.items + 128 }
{
    if words.tables() == 0 {
        words.grow(2)?;
    }
    Ok(())
}

/// As `add_table`, of words.
fn add_words(words: &mut WordRows) -> Result<u64, NoMemory>
    ensures added { MatchResult result (λ table. IsAdded words.old.items words.new.items table
        × IsAdded words.old.room words.new.room table) (λ _. words.new ≡ words.old) }
    ensures grown { length words.new.items ≤ length words.old.items + 192 }
{
    let tables = words.tables().max(2);
    words.grow(tables + 1)?;
    Ok(tables as u64)
}

/// As `child`, if the level below has words.
pub(crate) fn child_words(
    entries: &mut Vec<u64>,
    at: usize,
    below: &mut WordRows,
) -> Result<u64, NoMemory>
    requires at { at < length entries.old.items }
    requires long { length below.old.room ≡ length below.old.items }
    ensures child { MatchResult result
        (λ _. IsChild entries.old.items entries.new.items below.old.items below.new.items at
        × IsChild entries.old.items entries.new.items below.old.room below.new.room at)
        (λ _. (entries.new.items ≡ entries.old.items) × (below.new ≡ below.old)) }
    ensures grown { length below.new.items ≤ length below.old.items + 192 }
    ensures long { length below.new.room ≡ length below.new.items }
{
    if entries[at] == 0 {
        entries[at] = add_words(below)?;
    }
    Ok(entries[at])
}
