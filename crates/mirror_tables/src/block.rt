// The entries of a block of pages, in rising order of the pages.
ghost use Rattle.std.specs.Prelude.{◌≡◌, ℕ, ◌+◌, ◌-◌, ◌<◌, ◌≤◌, [], true, length, take, drop, ◌++◌, slice_index};
ghost use Rattle.std.specs.Prelude.{nat_lt, ◌==◌, ◌&&◌, vec_len, vec_capacity, OnOk, OnErr};
ghost use Rattle.mirror_tables.specs.Blocks.{IsBlock, empty_block, entry_at, with_entry, without_span, changed, keys};
ghost use Rattle.mirror_tables.specs.Places.{IsPlace};

use crate::entry::MirrorEntry;
use hm_base::{NoMemory, Page, Span};
use std::alloc::Global;
use std::marker::Model;

/// The entries of a block of pages that lie side by side.
#[derive(Drop)]
pub struct Block {
    entries: Vec<(Page, MirrorEntry)>,
}

impl Model for Block {
    ghost use Rattle.std.specs.Prelude.{◌-◌, vec_len, vec_capacity};
    ghost use Rattle.mirror_tables.specs.Blocks.{Block, IsBlock};

    ghost Value = { Block };

    ghost view = { λ a. record { entries = a.entries.items; room = vec_capacity a.entries - vec_len a.entries } };

    ghost invariant = { λ a. IsBlock a.entries.items };
}

impl Block {
    /// A block without an entry, and without memory.
    pub(crate) fn new(alloc: Global) -> Block
        ensures { result ≡ empty_block }
    {
        Block {
            entries: Vec::new(alloc),
        }
    }

    /// Costs nothing: it hands the prover the invariant.
    pub(crate) fn facts(&self)
        ensures { IsBlock self.now.entries }
    {
        let _ = &self.entries;
    }

    /// Makes room for one entry more.
    pub(crate) fn reserve(&mut self) -> Result<(), NoMemory>
        ensures block { self.new ≡ changed self.old self.old.entries self.new.room }
        ensures more { self.old.room ≤ self.new.room }
        ensures ok { OnOk result (1 ≤ self.new.room) }
        ensures err { OnErr result (self.new ≡ self.old) }
    {
        self.entries.reserve(1)?;
        Ok(())
    }

    /// Sets the entry of a page, for which there is room.
    pub(crate) fn set_reserved(&mut self, page: Page, entry: MirrorEntry)
        requires room { 1 ≤ self.old.room }
        ensures block { self.new ≡ changed self.old (with_entry self.old page entry) self.new.room }
        ensures room { self.old.room ≤ self.new.room + 1 }
    {
        let at = place(&self.entries, page.number());
        if has_page(&self.entries, at, page.number()) {
            self.entries[at] = (page, entry);
        } else {
            let _ = self.entries.insert(at, (page, entry));
        }
    }

    /// The entry of the page, if it has one.
    pub(crate) fn get(&self, page: Page) -> Option<MirrorEntry>
        ensures { result ≡ entry_at self.now page }
    {
        let at = place(&self.entries, page.number());
        if has_page(&self.entries, at, page.number()) {
            Some(self.entries[at].1)
        } else {
            None
        }
    }

    /// Takes away the entries of the span's pages (`dmirror_do_update` of lib/test_hmm.c). A block without an entry is
    /// passed over at once.
    #[inline(always)]
    pub(crate) fn erase(&mut self, span: Span)
        ensures block { self.new ≡ changed self.old (without_span self.old span) self.new.room }
        ensures room { self.old.room ≤ self.new.room }
    {
        if self.entries.is_empty() {
            return;
        }
        self.erase_some(span);
    }

    #[inline(never)]
    fn erase_some(&mut self, span: Span)
        ensures block { self.new ≡ changed self.old (without_span self.old span) self.new.room }
        ensures room { self.old.room ≤ self.new.room }
    {
        let first = span.first().number();
        let from = place(&self.entries, first);
        let upto = place_from(&self.entries, from, first + span.count());
        if from < upto {
            cut(&mut self.entries, from, upto);
        }
    }
}

/// The place of a page among the entries, found by halving.
fn place(entries: &[(Page, MirrorEntry)], page: u64) -> usize
    requires { (i j : ℕ) → i < j → j < length entries.now
        → slice_index (keys entries.now) i < slice_index (keys entries.now) j }
    ensures { IsPlace entries.now page result }
{
    let mut low = 0;
    let mut high = entries.len();
    while low < high {
        let middle = low + (high - low) / 2;
        if entries[middle].0.number() < page {
            low = middle + 1;
        } else {
            high = middle;
        }
    }
    low
}

/// The place of a page that lies at this place or after it, found by single steps: what they pass is taken out next.
fn place_from(entries: &[(Page, MirrorEntry)], from: usize, page: u64) -> usize
    requires rising { (i j : ℕ) → i < j → j < length entries.now
        → slice_index (keys entries.now) i < slice_index (keys entries.now) j }
    requires within { from ≤ length entries.now }
    requires below { (k : ℕ) → k < from → slice_index (keys entries.now) k < page }
    ensures { IsPlace entries.now page result }
{
    let mut at = from;
    while at < entries.len() {
        if entries[at].0.number() >= page {
            return at;
        }
        at += 1;
    }
    at
}

/// Whether the entry at the place is the page's.
fn has_page(entries: &[(Page, MirrorEntry)], at: usize, page: u64) -> bool
    ensures { result ≡ (nat_lt at (length entries.now) && (slice_index (keys entries.now) at == page)) }
{
    at < entries.len() && entries[at].0.number() == page
}

/// Takes out the entries from one place up to another.
fn cut(entries: &mut Vec<(Page, MirrorEntry)>, from: usize, upto: usize)
    requires order { from ≤ upto }
    requires inside { upto ≤ length entries.old.items }
    ensures items { entries.new.items ≡ take from entries.old.items ++ drop upto entries.old.items }
    ensures capacity { vec_capacity entries.new ≡ vec_capacity entries.old }
{
    let rest = entries.len() - upto;
    entries.copy_within(upto.., from);
    entries.truncate(from + rest);
}
