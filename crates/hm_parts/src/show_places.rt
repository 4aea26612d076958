// What shows why places, frames, mirror tables or guards do not allow an entry.
ghost use Rattle.std.specs.Prelude.{◌≡◌, Option, Some};
ghost use Rattle.hm_folds.specs.Standing.{entry_read};
ghost use Rattle.hm_history.specs.Memory.Places.{TableEntry};
ghost use Rattle.hm_folds.specs.Places.{ForShown};
ghost use Rattle.hm_parts.specs.Shown.{dropped, entry_at, entry_of, entry_shown, named_at, named_first, place_at};
ghost use Rattle.hm_parts.specs.Shown.{place_shown, shows_guarded, shows_places, table_at, table_of, through};
ghost use Rattle.hm_parts.specs.Shown.{withdrawn};

use crate::shown::{Shown, or_else, taken};
use hm_base::frames::{dev_frame, names};
use hm_base::{Dev, Frame, MirrorId, Page, PoolId, Proc};
use hm_folds::PlaceState;
use hm_history::{Kind, TableRight, Who};
use hm_reads::Reads;

/// What a mirror's table has for a page: its frame, its right, and the position of its look-up's begin.
pub type Found = Option<(Option<Frame>, TableRight, u64)>;

// ---- places

/// The place of a page.
pub(crate) fn place_shown<W: Reads>(world: &W, proc: Proc, page: Page) -> Shown
    ensures { result ≡ place_shown (W.state world.now).after.places proc page }
{
    let place = world.place(proc, page);
    Shown::Words(Kind::Place { proc, page, place })
}

/// The place of the page of an address.
fn place_at<W: Reads>(world: &W, proc: Proc, addr: u64) -> Option<Shown>
    ensures { result ≡ place_at (W.state world.now).after.places proc addr }
{
    if addr < 1 << 48 {
        Some(place_shown(world, proc, Page::new(addr / 4096)))
    } else {
        None
    }
}

/// The place of the page, if there is one, and else this.
fn named_at<W: Reads>(world: &W, at: Option<(Proc, Page)>, other: Option<Shown>) -> Option<Shown>
    ensures { result ≡ named_at (W.state world.now).after.places at other }
{
    match at {
        None => other,
        Some((proc, page)) => Some(place_shown(world, proc, page)),
    }
}

/// The place that names the frame first, if one does, and else this.
fn named_first<W: Reads>(world: &W, frame: Option<Frame>, other: Option<Shown>) -> Option<Shown>
    ensures { result ≡ named_first (W.state world.now).after.places frame other }
{
    match frame {
        None => other,
        Some(frame) => named_at(world, world.lowest_named(&frame), other),
    }
}

/// That no more frames are taken from the pool, if that is so.
fn withdrawn<W: Reads>(world: &W, pool: PoolId) -> Option<Shown>
    ensures { result ≡ withdrawn (W.state world.now).after.places pool }
{
    match pool {
        PoolId::System => None,
        PoolId::Device(dev) => {
            if world.is_withdrawn(dev) {
                Some(Shown::Words(Kind::Withdrawn(dev)))
            } else {
                None
            }
        }
    }
}

/// That the device's frame of this number would be dropped.
fn dropped(dev: Dev, number: Option<u32>) -> Option<Shown>
    ensures { result ≡ dropped dev number }
{
    match number {
        None => None,
        Some(number) => Some(Shown::Words(Kind::Drop(dev_frame(dev, number)))),
    }
}

/// Why places, frames and mirror tables do not allow the entry, if this is what the mirror's table has.
pub(crate) fn shows_places<W: Reads>(world: &W, kind: &Kind, found: &Found) -> Option<Shown>
    ensures { found.now ≡ entry_read (table_of (W.state world.now).after.places kind.now) → result
        ≡ shows_places (W.program world.now) (W.state world.now).after.places kind.now }
{
    match kind {
        Kind::Loaded {
            who: Who::Cpu(proc),
            addr,
            ..
        } => place_at(world, *proc, *addr),
        Kind::Stored {
            who: Who::Cpu(proc),
            addr,
            ..
        } => place_at(world, *proc, *addr),
        Kind::Place { proc, page, place } => named_first(
            world,
            names(place),
            Some(place_shown(world, *proc, *page)),
        ),
        Kind::Take(frame) => or_else(
            taken(world.lowest_free(frame.pool)),
            withdrawn(world, frame.pool),
        ),
        Kind::Drop(frame) => named_first(world, Some(*frame), None),
        Kind::Removed(dev) => dropped(*dev, world.held_from(*dev, 0)),
        _ => entry_of(kind, found),
    }
}

/// The place from which the entry would take something.
pub(crate) fn shows_guarded<W: Reads>(world: &W, kind: &Kind) -> Option<Shown>
    ensures { result ≡ shows_guarded (W.state world.now).after.places kind.now }
{
    match kind {
        Kind::Place { proc, page, .. } => Some(place_shown(world, *proc, *page)),
        _ => None,
    }
}

// ---- mirror tables

/// What the mirror's table has for a page.
fn entry_shown(mirror: MirrorId, page: Page, found: &Found) -> Shown
    ensures { (x : Option TableEntry) → found.now ≡ entry_read x → result ≡ entry_shown mirror page x }
{
    match found {
        None => Shown::Unset(mirror, page),
        Some((target, right, since)) => Shown::Words(Kind::Set {
            mirror,
            page,
            target: *target,
            right: *right,
            since: *since,
        }),
    }
}

/// The mirror and the address of an access through a mirror's table.
fn through(kind: &Kind) -> Option<(MirrorId, u64)>
    ensures { result ≡ through kind.now }
{
    match kind {
        Kind::Loaded {
            who: Who::Mirror(mirror),
            addr,
            ..
        } => Some((*mirror, *addr)),
        Kind::Stored {
            who: Who::Mirror(mirror),
            addr,
            ..
        } => Some((*mirror, *addr)),
        Kind::Fetched { mirror, addr, .. } => Some((*mirror, *addr)),
        Kind::Added { mirror, addr, .. } => Some((*mirror, *addr)),
        _ => None,
    }
}

/// That the mirror's table has this for the page of the address.
fn entry_at(at: Option<(MirrorId, u64)>, found: &Found) -> Option<Shown>
    ensures { (x : Option TableEntry) → found.now ≡ entry_read x → result ≡ entry_at at x }
{
    match at {
        None => None,
        Some((mirror, addr)) => {
            if addr < 1 << 48 {
                Some(entry_shown(mirror, Page::new(addr / 4096), found))
            } else {
                None
            }
        }
    }
}

/// That the mirror's table has this for the page of an access through it.
pub(crate) fn entry_of(kind: &Kind, found: &Found) -> Option<Shown>
    ensures { (x : Option TableEntry) → found.now ≡ entry_read x → result ≡ entry_of kind.now x }
{
    entry_at(through(kind), found)
}

/// What the mirror's table has for the page of the address, in these places.
fn table_at(places: &PlaceState, mirror: MirrorId, addr: u64) -> Found
    ensures { ForShown places.now (λ c s. result ≡ entry_read (table_at s (Some (mirror, addr)))) }
{
    if addr >= 1 << 48 {
        return None;
    }
    places.table(mirror, Page::new(addr / 4096))
}

/// What the mirror's table has for the page of an access through it, in these places.
pub(crate) fn table_of(places: &PlaceState, kind: &Kind) -> Found
    ensures { ForShown places.now (λ c s. result ≡ entry_read (table_of s kind.now)) }
{
    match through(kind) {
        None => None,
        Some(at) => table_at(places, at.0, at.1),
    }
}
