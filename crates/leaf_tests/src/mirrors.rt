// A table against a plain list of pages and entries.
ghost use Rattle.std.specs.Prelude.{◌≡◌, ◌^◌, ◌<◌, ◌≤◌, true};
ghost use Rattle.hm_base.specs.Pages.{covers, IsSpan};

use crate::drawn::after;
use hm_base::{Frame, Page, PoolId, Span};
use mirror_tables::{MirrorEntry, MirrorTable, Target};

/// The pages from the first on, as many as `count`.
fn span(first: u64, count: u64) -> Span
    requires { IsSpan (record { first = first; count = count }) }
    ensures { result ≡ record { first = first; count = count } }
{
    Span::new(Page::new(first), count)
}

/// Whether there was memory for the page's entry, which is set then.
fn set(table: &mut MirrorTable, page: u64, entry: MirrorEntry) -> bool
    requires page { page < 2 ^ 36 }
    requires window { covers table.old.window page ≡ true }
    ensures { table.new.window ≡ table.old.window }
{
    if table.reserve(Page::new(page)).is_err() {
        return false;
    }
    table.set_reserved(Page::new(page), entry);
    true
}

/// An entry of any target, with or without the right to write.
fn drawn_entry(x: u64) -> MirrorEntry {
    let number = (x & 0xff) as u32;
    let target = match x >> 8 & 3 {
        0 => Target::Zero,
        1 => Target::Sole(number),
        _ => Target::At(Frame {
            pool: PoolId::System,
            number,
        }),
    };
    MirrorEntry {
        target,
        writable: x >> 10 & 1 == 1,
        from: x,
    }
}

/// The entry that the list has of the page.
fn entry_in(plain: &[(u64, MirrorEntry)], page: u64) -> Option<MirrorEntry> {
    plain.iter().find(|of| of.0 == page).map(|of| of.1)
}

/// Whether the two have the same entries. The pages that are drawn lie 32 apart, so that they are of several blocks.
fn agree(table: &MirrorTable, plain: &[(u64, MirrorEntry)]) -> bool {
    for number in 0..36u64 {
        let page = 32 * number + 16;
        if table.get(Page::new(page)) != entry_in(plain, page) {
            return false;
        }
    }
    true
}

/// The pages of a span are erased.
fn erase(table: &mut MirrorTable, plain: &mut Vec<(u64, MirrorEntry)>, first: u64, count: u64)
    requires first { first < 1024 }
    requires some { 0 < count }
    requires count { count ≤ 512 }
    ensures { table.new.window ≡ table.old.window }
{
    let end = first + count;
    table.erase(span(first, count));
    plain.retain(|of| of.0 < first || end <= of.0);
}

/// A page of the window is set, or the pages of a span are erased; whether there was memory for that.
fn turn(table: &mut MirrorTable, plain: &mut Vec<(u64, MirrorEntry)>, x: u64) -> bool
    requires { table.old.window ≡ record { first = 16; count = 1024 } }
    ensures { table.new.window ≡ table.old.window }
{
    if x >> 33 & 7 == 0 {
        erase(table, plain, x >> 36 & 1023, 1 + (x >> 46 & 511));
        return true;
    }
    let page = 16 + 32 * (x >> 36 & 31);
    plain.retain(|of| of.0 != page);
    set(table, page, drawn_entry(x >> 41)) && plain.push((page, drawn_entry(x >> 41))).is_ok()
}

/// Whether the two agree after each of 3,000 turns.
fn turns_agree(table: &mut MirrorTable, plain: &mut Vec<(u64, MirrorEntry)>) -> bool
    requires { table.old.window ≡ record { first = 16; count = 1024 } }
{
    let mut x: u64 = 1;
    for _ in 0..3_000u64 {
        x = after(x);
        if !turn(table, plain, x) || !agree(table, plain) {
            return false;
        }
    }
    true
}

#[test]
fn the_table_agrees_with_a_list(rt: HostRuntime) {
    let mut table = MirrorTable::new(rt.alloc(), span(16, 1024));
    let mut plain = Vec::new(rt.alloc());
    assert!(rt; turns_agree(&mut table, &mut plain));
}
