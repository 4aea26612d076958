// Two uses of a frame.
ghost use Rattle.std.specs.Prelude.{◌≡◌, false, replicate};
ghost use Rattle.rev_maps.specs.Uses.{unused};

use hm_base::{Page, Proc};
use rev_maps::{RevMaps, Use};

/// The use that comes first, though it is added last.
fn low() -> Use
    ensures { result ≡ record { proc = 2; page = 9; moving = false } }
{
    Use {
        proc: Proc::new(2),
        page: Page::new(9),
        moving: false,
    }
}

/// The use that comes second, though it is added first.
fn high() -> Use
    ensures { result ≡ record { proc = 3; page = 7; moving = false } }
{
    Use {
        proc: Proc::new(3),
        page: Page::new(7),
        moving: false,
    }
}

/// Whether these are the first uses of the frame that map it and that migrate it, and it has this many. What it says is
/// no fact to the caller's proof, which so stays small.
fn finds(maps: &RevMaps, direct: Option<Use>, moving: Option<Use>, count: u64) -> bool {
    maps.lowest_direct(1) == direct.map(|used| (used.proc, used.page))
        && maps.lowest_moving(1) == moving.map(|used| (used.proc, used.page))
        && maps.count(1) == count
}

/// Whether this use is the first of the frame, migration entries included.
fn is_named(maps: &RevMaps, first: Use) -> bool {
    maps.lowest_named(1) == Some((first.proc, first.page))
}

/// Whether another frame has no use, and neither has one that there is not.
fn others_have_none(maps: &RevMaps) -> bool {
    maps.count(0) == 0 && maps.lowest_direct(7).is_none()
}

/// Whether the uses of a frame are found in order while they are added, marked and removed; nothing if there was no
/// memory.
fn are_found(maps: &mut RevMaps) -> Option<bool>
    requires { maps.old ≡ replicate 2 unused }
{
    let none = finds(maps, None, None, 0);
    maps.reserve(1).ok()?;
    maps.add_reserved(1, high());
    maps.reserve(1).ok()?;
    maps.add_reserved(1, low());
    maps.rising(1);
    let both = finds(maps, Some(low()), None, 2);
    maps.set_moving(1, low().proc, low().page);
    let moving = finds(maps, Some(high()), Some(low()), 2) && is_named(maps, low());
    maps.remove(1, low().proc, low().page);
    let one = finds(maps, Some(high()), None, 1);
    Some(none && both && moving && one)
}

#[test]
fn uses_are_found_in_order(rt: HostRuntime) {
    let mut maps = RevMaps::new(rt.alloc(), 2).expect(&rt, "memory");
    assert!(rt; are_found(&mut maps) == Some(true) && others_have_none(&maps));
}
