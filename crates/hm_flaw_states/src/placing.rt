// What steps ask of the places of the pages that were placed.
ghost use Rattle.std.specs.Prelude.{◌≡◌, ℕ, ◌==◌, ◌&&◌, nat_le, is_some};
ghost use Rattle.hm_base.specs.PlaceWords.{is_frame, names, writable};
ghost use Rattle.hm_history.specs.Memory.Places.{lowest, lowest_direct, lowest_moving, lowest_named, uses, is_used};
ghost use Rattle.hm_history.specs.Memory.Places.{next_page, places_next, with_place};
ghost use Rattle.hm_history.specs.Memory.Locks.{locks_start, orphan};
ghost use Rattle.hm_history.specs.declared.Kind as kinds;
ghost use Rattle.hm_reads.specs.Cursors.{page_before};
ghost use Rattle.hm_race_keys.specs.FrameTables.{lockers_in};
ghost use Rattle.hm_race_keys.specs.PagePlaces.{places_in};
ghost use Rattle.hm_race_keys.specs.Questions.{is_wanted};
ghost use Rattle.hm_flaw_states.specs.Placed.{pages_in};
ghost use Rattle.hm_flaw_states.specs.Placing.{names_so, placed_by};

use crate::placed::{Asks, PlacedPages};
use hm_base::frames::{is_frame, names, names_directly};
use hm_base::{Frame, Page, Place, Proc};
use hm_history::Kind;
use hm_race_keys::frame_locks::FrameLocks;
use hm_race_keys::page_places::Places;
use hm_race_keys::questions::is_wanted;

/// How a place may name a frame.
#[derive(Clone, Copy)]
pub enum Naming {
    /// But as a migration entry.
    Directly,
    /// As a migration entry.
    Moving,
    /// In either way.
    Either,
}

fn names_so(naming: Naming, place: &Place, frame: &Frame) -> bool
    ensures { result ≡ names_so naming place.now frame.now }
{
    match naming {
        Naming::Directly => is_frame(names_directly(place), frame),
        Naming::Moving => match place {
            Place::Moving { frame: other, .. } => is_frame(Some(*other), frame),
            _ => false,
        },
        Naming::Either => is_frame(names(place), frame),
    }
}

// Whether the place of a page names a frame.
#[derive(Drop)]
struct NamesFrame<'a> {
    places: &'a Places,
    naming: Naming,
    frame: &'a Frame,
}

impl<'a> Asks for NamesFrame<'a> {
    ghost test = { λ x p v. names_so x.naming (places_in x.places.now p v) x.frame.now };

    fn test(&self, proc: Proc, page: Page) -> bool {
        names_so(self.naming, &self.places.get(proc, page), self.frame)
    }
}

// Whether a page is one of the process, from there on, whose place is wanted.
#[derive(Drop)]
struct WantsPage<'a> {
    places: &'a Places,
    proc: Proc,
    from: u64,
    writes: bool,
}

impl<'a> Asks for WantsPage<'a> {
    ghost test = { λ x p v. (p == x.proc) && (nat_le x.from v && is_wanted x.writes (places_in x.places.now p v)) };

    fn test(&self, proc: Proc, page: Page) -> bool {
        proc == self.proc
            && self.from <= page.number()
            && is_wanted(self.writes, &self.places.get(proc, page))
    }
}

// Whether the place of a page names a frame once another page has this place.
#[derive(Drop)]
struct NamesAfter<'a> {
    places: &'a Places,
    proc: Proc,
    page: Page,
    place: &'a Place,
    frame: &'a Frame,
}

impl<'a> Asks for NamesAfter<'a> {
    ghost test = { λ x p v.
        is_frame (names (with_place (places_in x.places.now) x.proc x.page x.place.now p v)) x.frame.now };

    fn test(&self, proc: Proc, page: Page) -> bool {
        if proc == self.proc && page == self.page {
            is_frame(names(self.place), self.frame)
        } else {
            is_frame(names(&self.places.get(proc, page)), self.frame)
        }
    }
}

// The lowest page whose place names the frame in this way.
fn lowest_naming(
    places: &Places,
    placed: &PlacedPages,
    naming: Naming,
    frame: &Frame,
) -> Option<(Proc, Page)>
    ensures { result
        ≡ lowest (λ p v. names_so naming (places_in places.now p v) frame.now) (pages_in placed.now.pages.items) }
{
    placed.lowest(&NamesFrame {
        places,
        naming,
        frame,
    })
}

/// The lowest page whose place names the frame and is no migration entry.
pub fn lowest_direct(places: &Places, placed: &PlacedPages, frame: &Frame) -> Option<(Proc, Page)>
    ensures { result ≡ lowest_direct (placed_by places.now placed.now.pages.items) frame.now }
{
    lowest_naming(places, placed, Naming::Directly, frame)
}

/// The lowest page whose place is a migration entry of the frame.
pub fn lowest_moving(places: &Places, placed: &PlacedPages, frame: &Frame) -> Option<(Proc, Page)>
    ensures { result ≡ lowest_moving (placed_by places.now placed.now.pages.items) frame.now }
{
    lowest_naming(places, placed, Naming::Moving, frame)
}

/// The lowest page whose place names the frame.
pub fn lowest_named(places: &Places, placed: &PlacedPages, frame: &Frame) -> Option<(Proc, Page)>
    ensures { result ≡ lowest_named (placed_by places.now placed.now.pages.items) frame.now }
{
    lowest_naming(places, placed, Naming::Either, frame)
}

/// How many places name the frame.
pub fn uses(places: &Places, placed: &PlacedPages, frame: &Frame) -> u64
    ensures { result ≡ uses (placed_by places.now placed.now.pages.items) frame.now }
{
    placed.count(&NamesFrame {
        places,
        naming: Naming::Either,
        frame,
    })
}

// The lowest page of the process from there on and before the end whose place is wanted.
fn next_wanted(
    places: &Places,
    placed: &PlacedPages,
    proc: Proc,
    from: u64,
    end: u64,
    writes: bool,
) -> Option<Page>
    ensures { result
        ≡ page_before end (next_page (placed_by places.now placed.now.pages.items) (is_wanted writes) proc from) }
{
    let asks = WantsPage {
        places,
        proc,
        from,
        writes,
    };
    match placed.lowest(&asks) {
        Some((_, page)) => {
            if page.number() < end {
                Some(page)
            } else {
                None
            }
        }
        None => None,
    }
}

/// The lowest page of the process from there on and before the end whose place is not Empty.
pub fn next_used(
    places: &Places,
    placed: &PlacedPages,
    proc: Proc,
    from: u64,
    end: u64,
) -> Option<Page>
    ensures { result ≡ page_before end (next_page (placed_by places.now placed.now.pages.items) is_used proc from) }
{
    next_wanted(places, placed, proc, from, end, false)
}

/// The lowest page of the process from there on and before the end whose place is writable.
pub fn next_writable(
    places: &Places,
    placed: &PlacedPages,
    proc: Proc,
    from: u64,
    end: u64,
) -> Option<Page>
    ensures { result ≡ page_before end (next_page (placed_by places.now placed.now.pages.items) writable proc from) }
{
    next_wanted(places, placed, proc, from, end, true)
}

// Whether some place names the frame once the page has this place.
fn is_named_after(
    places: &Places,
    placed: &PlacedPages,
    proc: Proc,
    page: Page,
    place: &Place,
    frame: &Frame,
) -> bool
    ensures { result
        ≡ is_some (lowest_named
        (places_next (placed_by places.now placed.now.pages.items) (kinds.Kind.Place proc page place.now))
        frame.now) }
{
    let asks = NamesAfter {
        places,
        proc,
        page,
        place,
        frame,
    };
    let named = placed.lowest(&asks).is_some();
    if placed.has(proc, page) {
        named
    } else {
        asks.test(proc, page) || named
    }
}

/// The frame that the entry leaves without a name, if nobody has it locked: its actor drops it next.
pub fn orphan(
    locks: &FrameLocks,
    places: &Places,
    placed: &PlacedPages,
    kind: &Kind,
) -> Option<Frame>
    ensures { result
        ≡ orphan (record locks_start { frame = lockers_in locks.now })
        (placed_by places.now placed.now.pages.items) kind.now }
{
    match kind {
        Kind::Place { proc, page, place } => match names(&places.get(*proc, *page)) {
            None => None,
            Some(frame) => {
                if locks.locker(&frame).is_none()
                    && !is_named_after(places, placed, *proc, *page, place, &frame)
                {
                    Some(frame)
                } else {
                    None
                }
            }
        },
        _ => None,
    }
}
