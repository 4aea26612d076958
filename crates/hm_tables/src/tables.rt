// The page tables of the processes, and the reverse maps of the pools.
ghost use Rattle.std.specs.Prelude.{◌≡◌, ℕ, not, true, is_some, length, replicate, slice_index_or, slice_set, OnOk};
ghost use Rattle.std.specs.Prelude.{IfOk};
ghost use Rattle.radix_tables.specs.Maps.{before, is_reserved, given_back};
ghost use Rattle.hm_history.specs.declared.Kind.{Kind as AnyKind};
ghost use Rattle.hm_base.specs.PlaceWords.{names};
ghost use Rattle.hm_tables.specs.Values.{no_words, size_in, place_in_table, place_of, table_with};
ghost use Rattle.hm_tables.specs.Sound.{IsOrdered};
ghost use Rattle.hm_tables.specs.Steps.{tables_start, tables_next, TablesFit, TablesRoom, TablesRange, SameTables};
ghost use Rattle.hm_tables.specs.Reads.{page_test, next_in_span, next_likely, next_page_before, lowest_of, use_count};
ghost use Rattle.hm_tables.specs.Reads.{orphaned};

use crate::places::{PageTest, is_named_by, place_of_word};
use crate::pools::{change_use, new_pools, pool_index, reserve_use};
use entry_words::encode;
use hm_base::frames::names;
use hm_base::{Frame, NoMemory, Page, Place, Proc, Script};
use hm_history::Kind;
use radix_tables::Radix;
use rev_maps::RevMaps;
use std::alloc::Global;
use std::marker::Model;

/// Processes that have a table.
const PROCESSES: u32 = 32;

/// The highest page.
const LAST_PAGE: u64 = (1 << 36) - 1;

/// The page table of each process (`mm->pgd`), and for each frame of the system and of the devices the
/// pages whose entries name it, as `rmap_walk` finds them (mm/rmap.c).
#[derive(Drop)]
pub struct PageTables {
    tables: Vec<Radix>,
    pools: Vec<RevMaps>,
}

impl Model for PageTables {
    ghost use Rattle.hm_tables.specs.Values.{Tables};
    ghost use Rattle.hm_tables.specs.Sound.{IsTables};

    ghost Value = { Tables };

    ghost view = { λ a. record { processes = a.tables.items; pools = a.pools.items } };

    ghost invariant = { λ a. IsTables (record { processes = a.tables.items; pools = a.pools.items }) };
}

impl PageTables {
    /// Tables in which no page has a place.
    pub fn new(alloc: Global, script: &Script) -> Result<PageTables, NoMemory>
        ensures { IfOk result (λ tables. tables ≡ tables_start script.now) }
    {
        let tables = new_tables(alloc)?;
        let pools = new_pools(alloc, script)?;
        Ok(PageTables { tables, pools })
    }

    /// Makes room for what an entry of this kind changes; a failure may leave some of it.
    pub fn reserve(&mut self, kind: &Kind) -> Result<(), NoMemory>
        requires { TablesFit (size_in self.old.pools) kind.now }
        ensures same { SameTables self.old self.new }
        ensures ok { OnOk result (TablesRoom kind.now self.new) }
    {
        match kind {
            Kind::Place { proc, page, place } => self.reserve_place(*proc, *page, place),
            _ => Ok(()),
        }
    }

    fn reserve_place(&mut self, proc: Proc, page: Page, place: &Place) -> Result<(), NoMemory>
        requires { TablesFit (size_in self.old.pools) (AnyKind.Place proc page place.now) }
        ensures same { SameTables self.old self.new }
        ensures ok { OnOk result (TablesRoom (AnyKind.Place proc page place.now) self.new) }
    {
        reserve_word(&mut self.tables, proc, page)?;
        reserve_use(&mut self.pools, names(place))
    }

    /// The tables after an entry of this kind.
    pub fn step(&mut self, kind: &Kind)
        requires fits { TablesFit (size_in self.old.pools) kind.now }
        requires room { TablesRoom kind.now self.old }
        ensures tables { self.new ≡ tables_next kind.now self.old }
        ensures range { TablesRange kind.now }
    {
        match kind {
            Kind::Place { proc, page, place } => {
                let old = self.place(*proc, *page);
                self.set_place(*proc, *page, &old, place);
            }
            Kind::Exited(proc) => self.give_back(*proc),
            _ => (),
        }
    }

    /// The tables after a page of the place `old` has another; `step` does this too, and looks at its place first.
    pub fn set_place(&mut self, proc: Proc, page: Page, old: &Place, place: &Place)
        requires old { old.now ≡ place_of self.old proc page }
        requires fits { TablesFit (size_in self.old.pools) (AnyKind.Place proc page place.now) }
        requires room { TablesRoom (AnyKind.Place proc page place.now) self.old }
        ensures tables { self.new ≡ tables_next (AnyKind.Place proc page place.now) self.old }
        ensures range { TablesRange (AnyKind.Place proc page place.now) }
    {
        change_use(&mut self.pools, proc, page, old, place);
        set_word(&mut self.tables, proc, page, place);
    }

    /// The process has exited: what its table had room for is given back, if no page has a place any more.
    fn give_back(&mut self, proc: Proc)
        ensures tables { self.new ≡ tables_next (AnyKind.Exited proc) self.old }
        ensures range { TablesRange (AnyKind.Exited proc) }
    {
        give_back(&mut self.tables, proc);
    }

    /// The place of a page.
    pub fn place(&self, proc: Proc, page: Page) -> Place
        ensures { result ≡ place_of self.now proc page }
    {
        place_in(&self.tables, proc, page)
    }

    /// The lowest page of the process from `from` on whose place passes, if it lies before `end`.
    pub fn next_page(&self, proc: Proc, from: Page, end: u64, test: PageTest) -> Option<Page>
        ensures { result ≡ next_page_before self.now (page_test test) proc from end }
    {
        let table = &self.tables[proc.number() as usize];
        next_in(table, from, end, test)
    }

    /// The lowest process and page that names the frame, and not by a migration entry.
    pub fn lowest_direct(&self, frame: &Frame) -> Option<(Proc, Page)>
        ensures { result ≡ lowest_of self.now not frame.now }
    {
        let maps = &self.pools[pool_index(&frame.pool)];
        maps.lowest_direct(frame.number)
    }

    /// The lowest process and page that names the frame by a migration entry.
    pub fn lowest_moving(&self, frame: &Frame) -> Option<(Proc, Page)>
        ensures { result ≡ lowest_of self.now (λ moving. moving) frame.now }
    {
        let maps = &self.pools[pool_index(&frame.pool)];
        maps.lowest_moving(frame.number)
    }

    /// The lowest process and page that names the frame, migration entries included.
    pub fn lowest_named(&self, frame: &Frame) -> Option<(Proc, Page)>
        ensures { result ≡ lowest_of self.now (λ moving. true) frame.now }
    {
        let maps = &self.pools[pool_index(&frame.pool)];
        maps.lowest_named(frame.number)
    }

    /// How many pages name the frame, migration entries included.
    pub fn uses(&self, frame: &Frame) -> u64
        ensures { result ≡ use_count self.now frame.now }
    {
        let maps = &self.pools[pool_index(&frame.pool)];
        maps.count(frame.number)
    }

    /// The frame that no page names any more, once a page of the place `old` has another, unless somebody has it
    /// locked.
    pub fn orphan(&self, old: &Place, place: &Place, is_locked: bool) -> Option<Frame>
        ensures { result ≡ orphaned self.now (names old.now) place.now is_locked }
    {
        let frame = names(old)?;
        if !is_locked && !is_named_by(&frame, place) && self.uses(&frame) == 1 {
            Some(frame)
        } else {
            None
        }
    }
}

/// A table without words for each process.
fn new_tables(alloc: Global) -> Result<Vec<Radix>, NoMemory>
    ensures { IfOk result (λ tables. tables.items ≡ replicate 32 no_words) }
{
    let mut tables = Vec::new(alloc);
    for _proc in 0..PROCESSES {
        if let Err(_) = tables.push(Radix::new(alloc)) {
            return Err(NoMemory);
        }
    }
    Ok(tables)
}

fn place_in(tables: &Vec<Radix>, proc: Proc, page: Page) -> Place
    requires { length tables.now.items ≡ 32 }
    ensures { result ≡ place_in_table (slice_index_or tables.now.items proc no_words) page }
{
    let table = &tables[proc.number() as usize];
    place_of_word(table.get(page))
}

/// Makes room for a word of the page.
fn reserve_word(tables: &mut Vec<Radix>, proc: Proc, page: Page) -> Result<(), NoMemory>
    requires { length tables.old.items ≡ 32 }
    ensures count { length tables.new.items ≡ length tables.old.items }
    ensures words { (p : ℕ)
        → (slice_index_or tables.new.items p no_words).words ≡ (slice_index_or tables.old.items p no_words).words }
    ensures ok { OnOk result (is_reserved (slice_index_or tables.new.items proc no_words) page ≡ true) }
{
    let table = &mut tables[proc.number() as usize];
    table.reserve(page)
}

/// Sets the word of a place at the page, for which there is room.
fn set_word(tables: &mut Vec<Radix>, proc: Proc, page: Page, place: &Place)
    requires count { length tables.old.items ≡ 32 }
    requires reserved { is_reserved (slice_index_or tables.old.items proc no_words) page ≡ true }
    ensures tables { let table = slice_index_or tables.old.items proc no_words in
        tables.new.items ≡ slice_set tables.old.items proc (table_with table page place.now) }
    ensures range { TablesRange (AnyKind.Place proc page place.now) }
{
    let table = &mut tables[proc.number() as usize];
    let word = encode(*place);
    if word == 0 {
        table.clear(page);
    } else {
        table.set_reserved(page, word);
    }
}

/// Gives back what the table of a process has room for, if it has no word.
fn give_back(tables: &mut Vec<Radix>, proc: Proc)
    requires { length tables.old.items ≡ 32 }
    ensures tables { let table = slice_index_or tables.old.items proc no_words in
        tables.new.items ≡ slice_set tables.old.items proc (given_back table) }
    ensures range { TablesRange (AnyKind.Exited proc) }
{
    let table = &mut tables[proc.number() as usize];
    table.give_back();
}

/// The first page of the table from `from` on whose place passes, if it lies before `end`.
fn next_in(table: &Radix, from: Page, end: u64, test: PageTest) -> Option<Page>
    requires { IsOrdered table.now }
    ensures { result ≡ next_in_span table.now (page_test test) from end }
{
    let mut at = from;
    while let Some((page, word)) = next_word(table, at, end, test) {
        if test.passes(place_of_word(word)) {
            return Some(page);
        }
        if page.number() == LAST_PAGE {
            return None;
        }
        at = Page::new(page.number() + 1);
    }
    None
}

/// The first word from a page on and before an end that may pass: the word of a place with the write right is marked.
fn next_word(table: &Radix, at: Page, end: u64, test: PageTest) -> Option<(Page, u64)>
    ensures { result ≡ before end (next_likely table.now test at) }
{
    match test {
        PageTest::Used => table.next_at_or_after(at, end),
        PageTest::Writable => table.next_marked(at, end),
    }
}
