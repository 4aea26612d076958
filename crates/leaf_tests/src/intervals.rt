// The tree against a plain list of windows, one a number.
ghost use Rattle.std.specs.Prelude.{◌<◌, ◌^◌};

use crate::drawn::after;
use hm_base::{MirrorId, Page, Span};
use interval_tree::IntervalTree;

/// The least number, from one on, whose pages overlap.
fn least(windows: &[Option<(u64, u64)>; 32], first: u64, count: u64, from: usize) -> Option<u32>
    requires first { first < 2 ^ 36 }
    requires count { count < 2 ^ 36 }
{
    for (number, window) in windows.iter().enumerate() {
        if let Some((start, end)) = window
            && from <= number
            && *start < first + count
            && first < *end
        {
            return Some(number as u32);
        }
    }
    None
}

/// Whether the tree finds the next number as the list does: the one after this, or the first of all.
fn agree(tree: &IntervalTree, windows: &[Option<(u64, u64)>; 32], x: u64) -> bool {
    let number = x >> 33 & 31;
    let first = x >> 38 & 63;
    let count = 1 + (x >> 44 & 7);
    let (after, from) = if x >> 50 & 3 != 0 {
        (None, 0)
    } else {
        (Some(MirrorId::new(number as u32)), number as usize + 1)
    };
    let next = tree.next_overlapping(Span::new(Page::new(first), count), after);
    next.map(|id| id.number()) == least(windows, first, count, from)
}

/// The number's window goes, or comes if there is none; whether there was memory for that.
fn turn(tree: &mut IntervalTree, windows: &mut [Option<(u64, u64)>; 32], x: u64) -> bool {
    let number = x >> 33 & 31;
    let first = x >> 38 & 63;
    let count = 1 + (x >> 44 & 7);
    let id = MirrorId::new(number as u32);
    if tree.get(id).is_some() {
        windows[number as usize] = None;
        tree.remove(id);
        return true;
    }
    if tree.reserve(1).is_err() || tree.spare() == 0 {
        return false;
    }
    windows[number as usize] = Some((first, first + count));
    tree.insert_reserved(id, Span::new(Page::new(first), count));
    true
}

/// Whether the two agree before each of 3,000 turns.
fn turns_agree(tree: &mut IntervalTree) -> bool {
    let mut windows = [None; 32];
    let mut x: u64 = 1;
    for _ in 0..3_000u64 {
        x = after(x);
        if !agree(tree, &windows, x) || !turn(tree, &mut windows, x) {
            return false;
        }
    }
    true
}

#[test]
fn the_tree_agrees_with_a_list(rt: HostRuntime) {
    let mut tree = IntervalTree::new(rt.alloc());
    assert!(rt; turns_agree(&mut tree));
}
