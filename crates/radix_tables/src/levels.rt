// Six levels of tables of 64 entries. The kernel has five, of 512 entries each, a page of memory a table, since a
// processor reads them. Here a table is small, because a process of a history uses few pages, and because one word of
// bits can say which entries of a table are used.
ghost use Rattle.std.specs.Prelude.{◌≡◌, ◌≢◌, ℕ, ◌+◌, ◌*◌, ◌/◌, ◌%◌, ◌^◌, ◌<◌, ◌≤◌, ◌==◌, if◌then◌else◌, length, not};
ghost use Rattle.std.specs.Prelude.{slice_index, MatchOption, Some, MatchResult, OnOk, true, false};
ghost use Rattle.frame_pool.specs.Bits.{bit};
ghost use Rattle.radix_tables.specs.Maps.{before, is_marked};
ghost use Rattle.radix_tables.specs.Walks.{HasTable, table_in};
ghost use Rattle.radix_tables.specs.Levels.{IsLevels, IsStep, IsStepIn, IsLeast, IsSame, IsMade, is_used, room_of};
ghost use Rattle.radix_tables.specs.Levels.{word_of, marked_of, from_second, from_third, from_fourth, from_fifth};
ghost use Rattle.radix_tables.specs.Levels.{from_sixth};

use crate::level_tables::{
    FIRST, Step, child, child_words, entry, first_table, first_words, place, step_down,
};
use crate::word_rows::WordRows;
use frame_pool::bits;
use hm_base::NoMemory;
use std::alloc::Global;

/// Entries of a table.
const ENTRIES: u64 = 64;

/// One more than the highest page.
pub const PAGES: u64 = 1 << 36;

/// The lowest four bits of a marked word are at least this.
const LEAST_MARKED: u64 = 5;

/// The tables of each level, one after the other. An entry is the number of a table of the level before, and one of the
/// first level is a word; 0 is none. Table 0 of a level stays empty, and table 1 is that of the lowest pages, which no
/// entry names. For each entry of the first level there is a bit that says whether it is a word, and one that says
/// whether it is marked.
#[derive(Drop)]
pub struct Levels {
    words: WordRows,
    second: Vec<u64>,
    third: Vec<u64>,
    fourth: Vec<u64>,
    fifth: Vec<u64>,
    sixth: Vec<u64>,
    used: Vec<u64>,
    marks: Vec<u64>,
}

impl Levels {
    pub(crate) fn new(alloc: Global) -> Levels
        ensures levels { IsLevels result }
        ensures room { (v : ℕ) → room_of result v ≡ 0 }
        ensures words { (v : ℕ) → word_of result v ≡ 0 }
    {
        Levels {
            words: WordRows::new(alloc),
            second: Vec::new(alloc),
            third: Vec::new(alloc),
            fourth: Vec::new(alloc),
            fifth: Vec::new(alloc),
            sixth: Vec::new(alloc),
            used: Vec::new(alloc),
            marks: Vec::new(alloc),
        }
    }

    /// Gives all tables back.
    pub(crate) fn give_back(&mut self)
        ensures levels { IsLevels self.new }
        ensures room { (v : ℕ) → room_of self.new v ≡ 0 }
        ensures words { (v : ℕ) → word_of self.new v ≡ 0 }
    {
        *self = Levels::new(self.words.allocator());
    }

    /// The table of the first level for a block of 64 pages. Those of a small process are found in a load or two.
    #[inline]
    pub(crate) fn table(&self, block: u64) -> u64
        requires levels { IsLevels self.now }
        requires block { block < 2 ^ 30 }
        ensures { result ≡ table_in (from_second self.now) block }
    {
        if block == 0 {
            return FIRST;
        }
        if block < ENTRIES {
            return entry(&self.second, FIRST, block);
        }
        self.far_table(block)
    }

    /// The same for a block that the first table of the second level does not name.
    #[inline(never)]
    fn far_table(&self, block: u64) -> u64
        requires levels { IsLevels self.now }
        requires block { block < 2 ^ 30 }
        requires far { 64 ≤ block }
        ensures { result ≡ table_in (from_second self.now) block }
    {
        entry(&self.second, self.second_table(block / ENTRIES), block)
    }

    /// The table of the second level for a number of that level, as the ones below are of theirs.
    fn second_table(&self, number: u64) -> u64
        requires levels { IsLevels self.now }
        requires number { number < 2 ^ 24 }
        ensures { result ≡ table_in (from_third self.now) number }
    {
        if number == 0 {
            return FIRST;
        }
        entry(&self.third, self.third_table(number / ENTRIES), number)
    }

    fn third_table(&self, number: u64) -> u64
        requires levels { IsLevels self.now }
        requires number { number < 2 ^ 18 }
        ensures { result ≡ table_in (from_fourth self.now) number }
    {
        if number == 0 {
            return FIRST;
        }
        entry(&self.fourth, self.fourth_table(number / ENTRIES), number)
    }

    fn fourth_table(&self, number: u64) -> u64
        requires levels { IsLevels self.now }
        requires number { number < 2 ^ 12 }
        ensures { result ≡ table_in (from_fifth self.now) number }
    {
        if number == 0 {
            return FIRST;
        }
        entry(&self.fifth, self.fifth_table(number / ENTRIES), number)
    }

    fn fifth_table(&self, number: u64) -> u64
        requires levels { IsLevels self.now }
        requires number { number < 2 ^ 6 }
        ensures { result ≡ table_in (from_sixth self.now) number }
    {
        if number == 0 {
            return FIRST;
        }
        entry(&self.sixth, FIRST, number)
    }

    /// Where the word of a page of this table stands among all words.
    #[inline(always)]
    fn place_in(&self, table: u64, page: u64) -> usize
        requires levels { IsLevels self.now }
        requires page { page < 2 ^ 36 }
        requires table { table ≡ table_in (from_second self.now) (page / 64) }
        ensures { result ≡ table_in (from_second self.now) (page / 64) * 64 + page % 64 }
    {
        place(table, page)
    }

    /// Where the word of a page stands among all words.
    #[inline(always)]
    fn place_of(&self, page: u64) -> usize
        requires levels { IsLevels self.now }
        requires page { page < 2 ^ 36 }
        ensures { result ≡ table_in (from_second self.now) (page / 64) * 64 + page % 64 }
    {
        self.place_in(self.table(page / ENTRIES), page)
    }

    /// The word of a page of this table.
    #[inline(always)]
    pub(crate) fn word(&self, table: u64, page: u64) -> u64
        requires levels { IsLevels self.now }
        requires page { page < 2 ^ 36 }
        requires table { table ≡ table_in (from_second self.now) (page / 64) }
        ensures { result ≡ word_of self.now page }
    {
        self.words.get(self.place_in(table, page))
    }

    /// A page with a word has room for it.
    pub(crate) fn facts(&self)
        requires { IsLevels self.now }
        ensures { (v : ℕ) → word_of self.now v ≢ 0 → room_of self.now v ≢ 0 }
    {
        self.words.facts();
    }

    /// Whether there is room for the word of a page of this table.
    #[inline(always)]
    pub(crate) fn has_room(&self, table: u64, page: u64) -> bool
        requires levels { IsLevels self.now }
        requires page { page < 2 ^ 36 }
        requires table { table ≡ table_in (from_second self.now) (page / 64) }
        ensures { result ≡ not (room_of self.now page == 0) }
    {
        self.words.row(self.place_in(table, page)) != 0
    }

    /// Makes the tables down to the page, and room for its word.
    pub(crate) fn make_room(&mut self, page: u64) -> Result<(), NoMemory>
        requires levels { IsLevels self.old }
        requires page { page < 2 ^ 36 }
        ensures { MatchResult result (λ _. IsMade self.old self.new page) (λ _. IsSame self.old self.new) }
    {
        self.make_tables(page / ENTRIES)?;
        self.make_row(page)
    }

    /// Makes room for the word of a page whose tables are there.
    fn make_row(&mut self, page: u64) -> Result<(), NoMemory>
        requires levels { IsLevels self.old }
        requires page { page < 2 ^ 36 }
        requires table { HasTable self.old.words.items (from_second self.old) (page / 64) }
        ensures { MatchResult result (λ _. IsMade self.old self.new page) (λ _. IsSame self.old self.new) }
    {
        let at = self.place_of(page);
        if self.words.row(at) != 0 {
            return Ok(());
        }
        self.words.reserve(at)?;
        Ok(())
    }

    /// Makes the tables down to a block.
    fn make_tables(&mut self, block: u64) -> Result<(), NoMemory>
        requires levels { IsLevels self.old }
        requires block { block < 2 ^ 30 }
        ensures same { IsSame self.old self.new }
        ensures ok { OnOk result (HasTable self.new.words.items (from_second self.new) block) }
    {
        let tables = self.words.tables();
        if tables != 0 && self.table(block) != 0 {
            return Ok(());
        }
        grow_bits(&mut self.used, tables)?;
        grow_bits(&mut self.marks, tables)?;
        self.make_first(block)
    }

    /// Makes the table of the first level for a block, and those above it.
    fn make_first(&mut self, block: u64) -> Result<(), NoMemory>
        requires levels { IsLevels self.old }
        requires block { block < 2 ^ 30 }
        requires used { length self.old.words.items + 192 ≤ 64 * length self.old.used.items }
        requires marks { length self.old.words.items + 192 ≤ 64 * length self.old.marks.items }
        ensures same { IsSame self.old self.new }
        ensures ok { OnOk result (HasTable self.new.words.items (from_second self.new) block) }
    {
        if block == 0 {
            return first_words(&mut self.words);
        }
        self.make_second(block / ENTRIES)?;
        let table = self.second_table(block / ENTRIES);
        child_words(&mut self.second, place(table, block), &mut self.words)?;
        Ok(())
    }

    fn make_second(&mut self, number: u64) -> Result<(), NoMemory>
        requires levels { IsLevels self.old }
        requires number { number < 2 ^ 24 }
        ensures same { IsSame self.old self.new }
        ensures ok { OnOk result (HasTable self.new.second.items (from_third self.new) number) }
        ensures others { (self.new.words ≡ self.old.words)
            × (length self.new.used.items ≡ length self.old.used.items)
            × (length self.new.marks.items ≡ length self.old.marks.items) }
    {
        if number == 0 {
            return first_table(&mut self.second);
        }
        self.make_third(number / ENTRIES)?;
        let table = self.third_table(number / ENTRIES);
        child(&mut self.third, place(table, number), &mut self.second)?;
        Ok(())
    }

    fn make_third(&mut self, number: u64) -> Result<(), NoMemory>
        requires levels { IsLevels self.old }
        requires number { number < 2 ^ 18 }
        ensures same { IsSame self.old self.new }
        ensures ok { OnOk result (HasTable self.new.third.items (from_fourth self.new) number) }
        ensures others { (self.new.words ≡ self.old.words)
            × (length self.new.used.items ≡ length self.old.used.items)
            × (length self.new.marks.items ≡ length self.old.marks.items) }
    {
        if number == 0 {
            return first_table(&mut self.third);
        }
        self.make_fourth(number / ENTRIES)?;
        let table = self.fourth_table(number / ENTRIES);
        child(&mut self.fourth, place(table, number), &mut self.third)?;
        Ok(())
    }

    fn make_fourth(&mut self, number: u64) -> Result<(), NoMemory>
        requires levels { IsLevels self.old }
        requires number { number < 2 ^ 12 }
        ensures same { IsSame self.old self.new }
        ensures ok { OnOk result (HasTable self.new.fourth.items (from_fifth self.new) number) }
        ensures others { (self.new.words ≡ self.old.words)
            × (length self.new.used.items ≡ length self.old.used.items)
            × (length self.new.marks.items ≡ length self.old.marks.items) }
    {
        if number == 0 {
            return first_table(&mut self.fourth);
        }
        self.make_fifth(number / ENTRIES)?;
        let table = self.fifth_table(number / ENTRIES);
        child(&mut self.fifth, place(table, number), &mut self.fourth)?;
        Ok(())
    }

    fn make_fifth(&mut self, number: u64) -> Result<(), NoMemory>
        requires levels { IsLevels self.old }
        requires number { number < 2 ^ 6 }
        ensures same { IsSame self.old self.new }
        ensures ok { OnOk result (HasTable self.new.fifth.items (from_sixth self.new) number) }
        ensures others { (self.new.words ≡ self.old.words)
            × (length self.new.used.items ≡ length self.old.used.items)
            × (length self.new.marks.items ≡ length self.old.marks.items) }
    {
        if number == 0 {
            return first_table(&mut self.fifth);
        }
        self.make_sixth()?;
        child(&mut self.sixth, place(FIRST, number), &mut self.fifth)?;
        Ok(())
    }

    fn make_sixth(&mut self) -> Result<(), NoMemory>
        requires levels { IsLevels self.old }
        ensures same { IsSame self.old self.new }
        ensures ok { OnOk result (128 ≤ length self.new.sixth.items) }
        ensures others { (self.new.words ≡ self.old.words)
            × (length self.new.used.items ≡ length self.old.used.items)
            × (length self.new.marks.items ≡ length self.old.marks.items) }
    {
        first_table(&mut self.sixth)
    }

    /// Sets the word of a page of this table, for which there is room.
    pub(crate) fn set(&mut self, table: u64, page: u64, word: u64)
        requires levels { IsLevels self.old }
        requires page { page < 2 ^ 36 }
        requires table { table ≡ table_in (from_second self.old) (page / 64) }
        requires room { room_of self.old page ≢ 0 }
        ensures levels { IsLevels self.new }
        ensures words { (v : ℕ) → word_of self.new v ≡ (if v == page then word else word_of self.old v) }
        ensures room { (v : ℕ) → room_of self.new v ≡ room_of self.old v }
        ensures tables { from_second self.new ≡ from_second self.old }
    {
        let at = self.place_in(table, page);
        self.words.set(at, word);
        put_bit(&mut self.used, at, is_used(word));
        put_bit(&mut self.marks, at, is_marked(word));
    }

    /// The least page from `page` on and before `end` that has a word, and that word.
    pub(crate) fn next(&self, page: u64, end: u64) -> Option<(u64, u64)>
        requires levels { IsLevels self.now }
        requires page { page < 2 ^ 36 }
        ensures { IsLeast (word_of self.now) page end result }
    {
        let last = end.min(PAGES);
        let mut at = page;
        while at < last {
            match self.step(at) {
                Step::Gap(next) => at = next,
                Step::Table(table) => {
                    if let Some(found) = self.next_in_table(table, at) {
                        return before(found, end);
                    }
                    at = self.past_unused(at);
                }
            }
        }
        None
    }

    /// The least page from `page` on and before `end` whose word is marked, and that word.
    pub(crate) fn next_marked(&self, page: u64, end: u64) -> Option<(u64, u64)>
        requires levels { IsLevels self.now }
        requires page { page < 2 ^ 36 }
        ensures { IsLeast (marked_of self.now) page end result }
    {
        let last = end.min(PAGES);
        let mut at = page;
        while at < last {
            match self.step(at) {
                Step::Gap(next) => at = next,
                Step::Table(table) => {
                    if let Some(found) = self.next_mark(table, at) {
                        return before(found, end);
                    }
                    at = self.past_unmarked(at);
                }
            }
        }
        None
    }

    /// As `next`, if the table of the page is known. Most often the word is found in it.
    #[inline(always)]
    pub(crate) fn next_from(&self, table: u64, page: u64, end: u64) -> Option<(u64, u64)>
        requires levels { IsLevels self.now }
        requires page { page < 2 ^ 36 }
        requires table { table ≡ table_in (from_second self.now) (page / 64) }
        ensures { IsLeast (word_of self.now) page end result }
    {
        if table != 0
            && let Some(found) = self.next_in_table(table, page)
        {
            return before(found, end);
        }
        self.next(page, end)
    }

    /// As `next_marked`, if the table of the page is known.
    #[inline(always)]
    pub(crate) fn next_marked_from(&self, table: u64, page: u64, end: u64) -> Option<(u64, u64)>
        requires levels { IsLevels self.now }
        requires page { page < 2 ^ 36 }
        requires table { table ≡ table_in (from_second self.now) (page / 64) }
        ensures { IsLeast (marked_of self.now) page end result }
    {
        if table != 0
            && let Some(found) = self.next_mark(table, page)
        {
            return before(found, end);
        }
        self.next_marked(page, end)
    }

    /// A page from which on to look for a word, once the table of this page has none from there on.
    fn past_unused(&self, page: u64) -> u64
        requires levels { IsLevels self.now }
        requires page { page < 2 ^ 36 }
        ensures further { (page / 64 + 1) * 64 ≤ result }
        ensures none { (v : ℕ) → (page / 64 + 1) * 64 ≤ v → v < result → word_of self.now v ≡ 0 }
    {
        let block = page / ENTRIES;
        let table = self.second_table(block / ENTRIES);
        past_tables(&self.second, &self.used, table, block) * ENTRIES
    }

    /// A page from which on to look for a marked word, once the table of this page has none from there on.
    fn past_unmarked(&self, page: u64) -> u64
        requires levels { IsLevels self.now }
        requires page { page < 2 ^ 36 }
        ensures further { (page / 64 + 1) * 64 ≤ result }
        ensures none { (v : ℕ) → (page / 64 + 1) * 64 ≤ v → v < result → marked_of self.now v ≡ 0 }
    {
        let block = page / ENTRIES;
        let table = self.second_table(block / ENTRIES);
        past_tables(&self.second, &self.marks, table, block) * ENTRIES
    }

    /// The table of the page, or a gap. Most often the table is there.
    #[inline]
    fn step(&self, page: u64) -> Step
        requires levels { IsLevels self.now }
        requires page { page < 2 ^ 36 }
        ensures { IsStep self.now page result }
    {
        match self.table(page / ENTRIES) {
            0 => self.go_down(page),
            table => Step::Table(table),
        }
    }

    /// Goes down towards the page as far as there are tables.
    #[inline(never)]
    fn go_down(&self, page: u64) -> Step
        requires levels { IsLevels self.now }
        requires page { page < 2 ^ 36 }
        ensures { IsStep self.now page result }
    {
        match self.step_first(page / ENTRIES) {
            Step::Gap(block) => Step::Gap(block.saturating_mul(ENTRIES)),
            Step::Table(table) => Step::Table(table),
        }
    }

    /// Goes down towards the table of the first level for a block.
    fn step_first(&self, block: u64) -> Step
        requires levels { IsLevels self.now }
        requires block { block < 2 ^ 30 }
        ensures { IsStepIn (from_second self.now) block result }
    {
        step_down(&self.second, self.step_second(block / ENTRIES), block)
    }

    fn step_second(&self, number: u64) -> Step
        requires levels { IsLevels self.now }
        requires number { number < 2 ^ 24 }
        ensures { IsStepIn (from_third self.now) number result }
    {
        step_down(&self.third, self.step_third(number / ENTRIES), number)
    }

    fn step_third(&self, number: u64) -> Step
        requires levels { IsLevels self.now }
        requires number { number < 2 ^ 18 }
        ensures { IsStepIn (from_fourth self.now) number result }
    {
        step_down(&self.fourth, self.step_fourth(number / ENTRIES), number)
    }

    fn step_fourth(&self, number: u64) -> Step
        requires levels { IsLevels self.now }
        requires number { number < 2 ^ 12 }
        ensures { IsStepIn (from_fifth self.now) number result }
    {
        step_down(&self.fifth, self.step_fifth(number / ENTRIES), number)
    }

    fn step_fifth(&self, number: u64) -> Step
        requires levels { IsLevels self.now }
        requires number { number < 2 ^ 6 }
        ensures { IsStepIn (from_sixth self.now) number result }
    {
        step_down(&self.sixth, Step::Table(FIRST), number)
    }

    /// The least page of the table from `page` on that has a word, and that word.
    fn next_in_table(&self, table: u64, page: u64) -> Option<(u64, u64)>
        requires levels { IsLevels self.now }
        requires page { page < 2 ^ 36 }
        requires table { IsStep self.now page (Step.Table table) }
        ensures { MatchOption result ((v : ℕ) → page ≤ v → v < (page / 64 + 1) * 64 → word_of self.now v ≡ 0)
            (λ e. (page ≤ e.0) × (e.0 < 2 ^ 36) × (word_of self.now e.0 ≡ e.1) × (e.1 ≢ 0)
            × ((v : ℕ) → page ≤ v → v < e.0 → word_of self.now v ≡ 0)) }
    {
        let found = next_entry(&self.used, table, page)?;
        Some((found, self.words.get(place(table, found))))
    }

    /// The least page of the table from `page` on whose word is marked, and that word.
    fn next_mark(&self, table: u64, page: u64) -> Option<(u64, u64)>
        requires levels { IsLevels self.now }
        requires page { page < 2 ^ 36 }
        requires table { IsStep self.now page (Step.Table table) }
        ensures { MatchOption result ((v : ℕ) → page ≤ v → v < (page / 64 + 1) * 64 → marked_of self.now v ≡ 0)
            (λ e. (page ≤ e.0) × (e.0 < 2 ^ 36) × (marked_of self.now e.0 ≡ e.1) × (e.1 ≢ 0)
            × ((v : ℕ) → page ≤ v → v < e.0 → marked_of self.now v ≡ 0)) }
    {
        let found = next_entry(&self.marks, table, page)?;
        Some((found, self.words.get(place(table, found))))
    }
}

/// A page with its word, if it lies before the end.
fn before(found: (u64, u64), end: u64) -> Option<(u64, u64)>
    ensures { result ≡ before end (Some found) }
{
    if found.0 < end { Some(found) } else { None }
}

/// The number of the first entry of the table from that of `number` on whose bit is set.
fn next_entry(bits: &[u64], table: u64, number: u64) -> Option<u64>
    requires { number < 2 ^ 36 }
    ensures { MatchOption result
        ((k : ℕ) → number ≤ k → k < (number / 64 + 1) * 64 → bit bits.now (table * 64 + k % 64) ≡ false)
        (λ q. (number ≤ q) × (q < (number / 64 + 1) * 64) × (bit bits.now (table * 64 + q % 64) ≡ true)
        × ((k : ℕ) → number ≤ k → k < q → bit bits.now (table * 64 + k % 64) ≡ false)) }
{
    let next = bits::next_in_word(bits_of(bits, table), (number % ENTRIES) as u32)?;
    Some(number / ENTRIES * ENTRIES + next as u64)
}

/// The first number after this one in its table whose entry names a table with a bit that is set, or where the table
/// ends. It looks at a word for each of these tables, so that a search passes over those that have nothing.
fn past_tables(entries: &[u64], bits: &[u64], table: u64, number: u64) -> u64
    requires table { table < 2 ^ 57 }
    requires number { number < 2 ^ 30 }
    ensures further { number < result }
    ensures inside { result ≤ (number / 64 + 1) * 64 }
    ensures none { (n : ℕ) → number < n → n < result
        → slice_index bits.now (slice_index entries.now (table * 64 + n % 64)) ≡ 0 }
{
    let end = (number / ENTRIES + 1) * ENTRIES;
    for at in number + 1..end {
        if bits_of(bits, entry(entries, table, at)) != 0 {
            return at;
        }
    }
    end
}

/// The bits of a table.
fn bits_of(bits: &[u64], table: u64) -> u64
    ensures { result ≡ slice_index bits.now table }
{
    match bits.get(table as usize) {
        Some(word) => *word,
        None => 0,
    }
}

/// Makes room for the bits of these tables and of three more.
fn grow_bits(bits: &mut Vec<u64>, tables: usize) -> Result<(), NoMemory>
    requires { tables < 2 ^ 63 }
    ensures same { (k : ℕ) → bit bits.new.items k ≡ bit bits.old.items k }
    ensures more { length bits.old.items ≤ length bits.new.items }
    ensures ok { OnOk result (tables * 64 + 192 ≤ 64 * length bits.new.items) }
{
    if bits.len() < tables + 3 {
        bits.resize(tables + 3, 0)?;
    }
    Ok(())
}

/// Makes the bit there so.
fn put_bit(bits: &mut Vec<u64>, at: usize, is_set: bool)
    requires { at / 64 < length bits.old.items }
    ensures bits { (k : ℕ) → bit bits.new.items k ≡ (if k == at then is_set else bit bits.old.items k) }
    ensures len { length bits.new.items ≡ length bits.old.items }
{
    if is_set {
        bits::set_bit(bits, at);
    } else {
        bits::clear_bit(bits, at);
    }
}

fn is_used(word: u64) -> bool
    ensures { result ≡ is_used word }
{
    word != 0
}

fn is_marked(word: u64) -> bool
    ensures { result ≡ is_marked word }
{
    word % 16 >= LEAST_MARKED
}
