// The entries of the pages that a mirror may use, in blocks of 256 pages that come as they are needed.
ghost use Rattle.std.specs.Prelude.{◌≡◌, ℕ, ◌+◌, ◌-◌, ◌^◌, ◌<◌, ◌≤◌, [], true, length, replicate, ◌++◌, slice_set};
ghost use Rattle.std.specs.Prelude.{if◌then◌else◌, ◌&&◌, nat_le, nat_lt, OnOk, OnErr, MatchResult};
ghost use Rattle.hm_base.specs.Pages.{covers};
ghost use Rattle.mirror_tables.specs.Blocks.{empty_block};
ghost use Rattle.mirror_tables.specs.Entries.{IsTable, entry_at, with_entry, without_span, changed, block_of, room_at};
ghost use Rattle.mirror_tables.specs.Directory.{IsErased, IsRoomier};

use crate::block::Block;
use crate::entry::MirrorEntry;
use hm_base::{NoMemory, Page, Span};
use std::alloc::Global;
use std::marker::Model;

/// Pages of a block.
const BLOCK_PAGES: u64 = 256;

/// The entries of the pages of a window (`pt` of `struct dmirror` in lib/test_hmm.c).
#[derive(Drop)]
pub struct MirrorTable {
    window: Span,
    blocks: Vec<Block>,
    alloc: Global,
}

impl Model for MirrorTable {
    ghost use Rattle.mirror_tables.specs.Entries.{Table};
    ghost use Rattle.mirror_tables.specs.Directory.{table_of, IsDirectory};

    ghost Value = { Table };

    ghost view = { λ a. table_of a.window a.blocks.items };

    ghost invariant = { λ a. IsDirectory a.window a.blocks.items };
}

impl MirrorTable {
    /// A table of the window without an entry.
    pub fn new(alloc: Global, window: Span) -> MirrorTable
        ensures { result ≡ record { window = window; entries = []; rooms = [] } }
    {
        MirrorTable {
            window,
            blocks: Vec::new(alloc),
            alloc,
        }
    }

    /// Costs nothing: it hands the prover the invariant.
    pub fn facts(&self)
        ensures { IsTable self.now.window self.now.entries }
    {
        let _ = &self.blocks;
    }

    /// Makes room for the entry of a page of the window.
    pub fn reserve(&mut self, page: Page) -> Result<(), NoMemory>
        ensures table { self.new ≡ changed self.old self.old.entries self.new.rooms }
        ensures more { (v : ℕ) → room_at self.old v ≤ room_at self.new v }
        ensures ok { OnOk result (covers self.old.window page ≡ true → 1 ≤ room_at self.new page) }
        ensures err { OnErr result (self.new ≡ self.old) }
    {
        if !has_page(self.window, page) {
            return Ok(());
        }
        let at = block_of(self.window, page.number());
        reserve_in(&mut self.blocks, self.alloc, at)
    }

    /// Sets the entry of a page of the window for which there is room.
    pub fn set_reserved(&mut self, page: Page, entry: MirrorEntry)
        requires room { 1 ≤ room_at self.old page }
        requires window { covers self.old.window page ≡ true }
        ensures table { self.new ≡ changed self.old (with_entry self.old page entry) self.new.rooms }
        ensures room { (v : ℕ) → room_at self.old v ≤ room_at self.new v + 1 }
    {
        let at = block_of(self.window, page.number());
        let block = &mut self.blocks[at];
        block.set_reserved(page, entry);
        block.facts();
    }

    /// The entry of the page, if it has one.
    pub fn get(&self, page: Page) -> Option<MirrorEntry>
        ensures { result ≡ entry_at self.now page }
    {
        let at = block_of(self.window, page.number());
        if at < self.blocks.len() {
            let block = &self.blocks[at];
            block.get(page)
        } else {
            None
        }
    }

    /// Takes away the entries of the span's pages (`dmirror_do_update` of lib/test_hmm.c).
    pub fn erase(&mut self, span: Span)
        ensures table { self.new ≡ changed self.old (without_span self.old span) self.new.rooms }
        ensures room { (v : ℕ) → room_at self.old v ≤ room_at self.new v }
    {
        let first = span.first().number();
        let from = block_of(self.window, first);
        let upto = block_of(self.window, first + span.count() - 1) + 1;
        erase_blocks(&mut self.blocks, from, upto, span);
    }
}

/// Whether the page lies in the window.
fn has_page(window: Span, page: Page) -> bool
    ensures { result ≡ covers window page }
{
    let first = window.first().number();
    first <= page.number() && page.number() < first + window.count()
}

/// The number of the page's block.
fn block_of(window: Span, page: u64) -> usize
    ensures result { result ≡ block_of window page }
    ensures below { result < 2 ^ 56 }
{
    let offset = page.saturating_sub(window.first().number());
    (offset / BLOCK_PAGES) as usize
}

/// Makes room for an entry of the block, which comes if it is not there. A failure leaves the blocks as they were.
fn reserve_in(blocks: &mut Vec<Block>, alloc: Global, at: usize) -> Result<(), NoMemory>
    requires { at < 2 ^ 56 }
    ensures { MatchResult result (λ _. IsRoomier at blocks.old.items blocks.new.items)
        (λ _. blocks.new.items ≡ blocks.old.items) }
{
    let count = blocks.len();
    grow(blocks, alloc, at + 1)?;
    let block = &mut blocks[at];
    match block.reserve() {
        Ok(()) => Ok(()),
        Err(NoMemory) => {
            blocks.truncate(count);
            Err(NoMemory)
        }
    }
}

/// At least `count` blocks, the new ones without entries.
fn grow(blocks: &mut Vec<Block>, alloc: Global, count: usize) -> Result<(), NoMemory>
    ensures { MatchResult result
        (λ _. blocks.new.items ≡ blocks.old.items ++ replicate (count - length blocks.old.items) empty_block)
        (λ _. blocks.new.items ≡ blocks.old.items) }
{
    let more = count.saturating_sub(blocks.len());
    blocks.reserve(more)?;
    for _block in 0..more {
        match blocks.push(Block::new(alloc)) {
            Ok(_) => (),
            Err(_) => unreachable!(),
        }
    }
    Ok(())
}

/// Takes away the entries of the span's pages from the blocks from one up to another.
fn erase_blocks(blocks: &mut Vec<Block>, from: usize, upto: usize, span: Span)
    requires { from ≤ upto }
    ensures { IsErased span from upto blocks.old.items blocks.new.items }
{
    for at in from..upto.min(blocks.len()) {
        let block = &mut blocks[at];
        block.erase(span);
        block.facts();
    }
}
