// The map of words in levels of tables, against a plain list.
ghost use Rattle.std.specs.Prelude.{◌^◌, ◌<◌};

use crate::drawn::after;
use hm_base::Page;
use radix_tables::Radix;

/// Gives the page this word, if there is such a page and the word is one; whether there was memory for that. What a
/// test compares later tells whether it was given.
fn set(map: &mut Radix, page: u64, word: u64) -> bool {
    if page < 1 << 36 && word != 0 {
        if map.reserve(Page::new(page)).is_err() {
            return false;
        }
        map.set_reserved(Page::new(page), word);
    }
    true
}

/// Takes the word of the page away, if there is such a page.
fn clear(map: &mut Radix, page: u64) {
    if page < 1 << 36 {
        map.clear(Page::new(page));
    }
}

/// The first page from one on that has a word.
fn next(map: &Radix, page: u64) -> Option<u64>
    requires { page < 2 ^ 36 }
{
    let (next, _word) = map.next_at_or_after(Page::new(page), 1 << 36)?;
    Some(next.number())
}

/// The page of a short list that differs from the others in each level.
fn page_of(choice: u64) -> u64
    ensures { result < 2 ^ 36 }
{
    let (a, b, c) = (choice & 3, choice >> 2 & 3, choice >> 4 & 3);
    (a * 45 | b << 14 | c << 26) % (1 << 36)
}

/// The first page from one on that has a word in the list.
fn next_in(plain: &[u64], from: u64) -> Option<u64> {
    let mut best = None;
    for choice in 0..plain.len() as u64 {
        if plain[choice as usize] != 0 {
            let page = page_of(choice);
            if page >= from && best.is_none_or(|least| page < least) {
                best = Some(page);
            }
        }
    }
    best
}

/// A page of the list loses its word, or gets one; whether there was memory for that.
fn turn(map: &mut Radix, plain: &mut [u64; 64], x: u64) -> bool {
    let choice = (x >> 40) % 64;
    let page = page_of(choice);
    if x >> 63 == 0 {
        clear(map, page);
        plain[choice as usize] = 0;
        true
    } else {
        plain[choice as usize] = choice + 1;
        set(map, page, choice + 1)
    }
}

/// Whether the map and the list say the same of a page, and of the next that has a word.
fn agree(map: &Radix, plain: &[u64; 64], choice: u64) -> bool
    requires { choice < 64 }
{
    let page = page_of(choice);
    map.get(Page::new(page)) == plain[choice as usize] && next(map, page) == next_in(plain, page)
}

/// Whether the two agree after each of 400 turns.
fn turns_agree(map: &mut Radix) -> bool {
    let mut plain = [0; 64];
    let mut x: u64 = 1;
    for _step in 0..400u64 {
        x = after(x);
        if !turn(map, &mut plain, x) || !agree(map, &plain, (x >> 33) % 64) {
            return false;
        }
    }
    true
}

#[test]
fn answers_as_a_plain_list(rt: HostRuntime) {
    let mut map = Radix::new(rt.alloc());
    assert!(rt; turns_agree(&mut map));
}

/// Pages at the ends of tables of 512 entries, of tables of their tables, and the last page of all.
const ENDS: [u64; 5] = [0, 511, 512, 262_144, 68_719_476_735];

/// Whether the map has a word for each of the ends from `first` on, and none for those before.
fn holds(map: &Radix, first: usize) -> bool {
    for (at, page) in ENDS.iter().enumerate() {
        if *page >= 1 << 36 {
            return false;
        }
        let word = if at < first { 0 } else { at as u64 + 1 };
        if map.get(Page::new(*page)) != word {
            return false;
        }
        let found = next(map, *page);
        let wanted = ENDS.get(at.max(first)).copied();
        if found != wanted {
            return false;
        }
    }
    true
}

/// Whether the ends get words one after another, the last first.
fn fills(map: &mut Radix) -> bool {
    for (at, page) in ENDS.iter().enumerate().rev() {
        if !set(map, *page, at as u64 + 1) || !holds(map, at) {
            return false;
        }
    }
    true
}

/// Whether the ends lose them one after another, the first first.
fn empties(map: &mut Radix) -> bool {
    for (at, page) in ENDS.iter().enumerate() {
        clear(map, *page);
        if !holds(map, at + 1) {
            return false;
        }
    }
    true
}

#[test]
fn pages_at_the_ends_of_tables(rt: HostRuntime) {
    let mut map = Radix::new(rt.alloc());
    assert!(rt; holds(&map, ENDS.len()) && fills(&mut map) && empties(&mut map));
}
