// What a page has is read, set, cleared, and found from a page on.
ghost use Rattle.std.specs.Prelude.{◌≡◌, ◌≢◌, ℕ, ◌^◌, ◌<◌, ◌≤◌, [], true, OnOk, OnErr};
ghost use Rattle.radix_tables.specs.Maps.{word_at, with_word, without_word, given_back, next_word, next_marked};
ghost use Rattle.radix_tables.specs.Maps.{is_reserved};

use crate::last_table::LastTable;
use crate::levels::{Levels, PAGES};
use hm_base::{NoMemory, Page};
use std::alloc::Global;
use std::marker::Model;

/// A map from pages to words that are not 0, in levels of tables as the kernel's page tables are
/// (include/linux/pgtable.h), but in six levels of 64 entries and not in five of 512. A walk through pages in their
/// order stays in a table for 64 of them, so the last table in which there was room when it was asked for is kept in
/// mind.
#[derive(Drop)]
pub struct Radix {
    levels: Levels,
    last: LastTable,
}

impl Model for Radix {
    ghost use Rattle.radix_tables.specs.Maps.{Map};

    ghost Value = { Map };

    ghost use Rattle.radix_tables.specs.Radixes.{map_in, IsRadix};

    ghost view = { map_in };

    ghost invariant = { IsRadix };
}

impl Radix {
    /// A map without words.
    pub fn new(alloc: Global) -> Radix
        ensures { result ≡ record { words = []; room = [] } }
    {
        Radix {
            levels: Levels::new(alloc),
            last: LastTable::none(),
        }
    }

    /// The word of the page, 0 if it has none.
    pub fn get(&self, page: Page) -> u64
        ensures { result ≡ word_at self.now page }
    {
        let number = page.number();
        let table = self.last.table_of(&self.levels, number);
        self.levels.word(table, number)
    }

    /// Makes room for a word of the page (`__pte_alloc` of mm/memory.c).
    pub fn reserve(&mut self, page: Page) -> Result<(), NoMemory>
        ensures words { self.new.words ≡ self.old.words }
        ensures ok { OnOk result (is_reserved self.new page ≡ true) }
        ensures kept { (v : ℕ) → is_reserved self.old v ≡ true → is_reserved self.new v ≡ true }
        ensures err { OnErr result (self.new ≡ self.old) }
    {
        let number = page.number();
        let table = self.last.table_of(&self.levels, number);
        if self.levels.has_room(table, number) {
            self.last = LastTable::new(&self.levels, number, table);
            return Ok(());
        }
        self.last = LastTable::none();
        self.levels.make_room(number)
    }

    /// Sets the word of a page for which there is room.
    pub fn set_reserved(&mut self, page: Page, word: u64)
        requires reserved { is_reserved self.old page ≡ true }
        requires some { word ≢ 0 }
        ensures { self.new ≡ with_word self.old page word }
    {
        let number = page.number();
        let table = self.last.table_of(&self.levels, number);
        self.levels.set(table, number, word);
    }

    /// Takes away the word of the page, if it has one.
    pub fn clear(&mut self, page: Page)
        ensures { self.new ≡ without_word self.old page }
    {
        let number = page.number();
        let table = self.last.table_of(&self.levels, number);
        if self.levels.word(table, number) != 0 {
            self.levels.facts();
            self.levels.set(table, number, 0);
        }
    }

    /// Gives the memory of the tables back if no page has a word, as `free_pgtables` of mm/memory.c does.
    pub fn give_back(&mut self)
        ensures { self.new ≡ given_back self.old }
    {
        match self.levels.next(0, PAGES) {
            None => {
                self.last = LastTable::none();
                self.levels.give_back();
            }
            Some(_) => (),
        }
    }

    /// The lowest page from this one on and before the end that has a word, and the word. No table past the end is
    /// looked at.
    pub fn next_at_or_after(&self, page: Page, end: u64) -> Option<(Page, u64)>
        ensures { result ≡ next_word self.now page end }
    {
        let from = page.number();
        let table = self.last.table_of(&self.levels, from);
        let (number, word) = self.levels.next_from(table, from, end)?;
        Some((Page::new(number), word))
    }

    /// The lowest page from this one on and before the end whose word is marked, that is whose lowest four bits are 5
    /// or more, and the word. It looks at a bit for each word, and at 64 of them at a time.
    pub fn next_marked(&self, page: Page, end: u64) -> Option<(Page, u64)>
        ensures { result ≡ next_marked self.now page end }
    {
        let from = page.number();
        let table = self.last.table_of(&self.levels, from);
        let (found, word) = self.levels.next_marked_from(table, from, end)?;
        Some((Page::new(found), word))
    }
}
