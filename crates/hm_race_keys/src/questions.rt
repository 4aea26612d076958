// What steps ask of the places of pages.
ghost use Rattle.std.specs.Prelude.{◌≡◌, ◌==◌, ◌&&◌, nat_le, count_by, is_some};
ghost use Rattle.std.specs.List.{list_any};
ghost use Rattle.hm_base.specs.PlaceWords.{is_frame, names, writable};
ghost use Rattle.hm_history.specs.Memory.Places.{lowest, lowest_direct, lowest_moving, lowest_named, uses, is_used};
ghost use Rattle.hm_history.specs.Memory.Places.{next_page, places_next};
ghost use Rattle.hm_reads.specs.Cursors.{page_before};
ghost use Rattle.hm_history.specs.declared.Kind as kinds;
ghost use Rattle.hm_race_keys.specs.PagePlaces.{places_in, listed, places_of, first_item};
ghost use Rattle.hm_race_keys.specs.Questions.{names_so, is_wanted, named_beside};

use crate::page_places::Places;
use crate::sparse::Item;
use hm_base::frames::{is_frame, names, names_directly};
use hm_base::{Frame, Page, Place, Proc};

/// How a place may name a frame.
#[derive(Clone, Copy)]
enum Naming {
    /// But as a migration entry.
    Directly,
    /// As a migration entry.
    Moving,
    /// In either way.
    Either,
}

// Whether the place names the frame in this way.
fn names_so(naming: Naming, place: &Place, frame: &Frame) -> bool
    ensures { result ≡ names_so naming place.now frame.now }
{
    match naming {
        Naming::Directly => is_frame(names_directly(place), frame),
        Naming::Moving => match place {
            Place::Moving { frame: other, .. } => is_frame(Some(*other), frame),
            _ => false,
        },
        Naming::Either => is_frame(names(place), frame),
    }
}

// The page of the first place that names the frame in this way.
fn first_naming(items: &[Item<Place>], naming: Naming, frame: &Frame) -> Option<(u32, u64)>
    ensures { result ≡ first_item (λ x. names_so naming x.value frame.now) items.now }
{
    for item in items {
        if names_so(naming, &item.value, frame) {
            return Some((item.row, item.number));
        }
    }
    None
}

/// Whether the place is writable, or merely not Empty.
pub fn is_wanted(writes: bool, place: &Place) -> bool
    ensures { result ≡ is_wanted writes place.now }
{
    if writes {
        place.writable()
    } else {
        !matches!(place, Place::Empty)
    }
}

// The first page of the process from there on whose place is wanted.
fn first_wanted(items: &[Item<Place>], proc: u32, from: u64, writes: bool) -> Option<(u32, u64)>
    ensures { result
        ≡ first_item (λ x. (x.row == proc) && (nat_le from x.number && is_wanted writes x.value)) items.now }
{
    for item in items {
        if item.row == proc && from <= item.number && is_wanted(writes, &item.value) {
            return Some((item.row, item.number));
        }
    }
    None
}

// How many places name the frame.
fn count_named(items: &[Item<Place>], frame: &Frame) -> u64
    ensures { result ≡ count_by (λ x. is_frame (names x.value) frame.now) items.now }
{
    let mut count = 0;
    for item in items {
        if is_frame(names(&item.value), frame) {
            count += 1;
        }
    }
    count
}

// Whether the place of a page but this one names the frame.
fn is_named_beside(items: &[Item<Place>], proc: u32, page: u64, frame: &Frame) -> bool
    ensures { result ≡ list_any (named_beside proc page frame.now) items.now }
{
    for item in items {
        if !(item.row == proc && item.number == page) && is_frame(names(&item.value), frame) {
            return true;
        }
    }
    false
}

impl Places {
    // The lowest page whose place names the frame in this way.
    fn lowest_naming(&self, naming: Naming, frame: &Frame) -> Option<(Proc, Page)>
        ensures { result ≡ lowest (λ p v. names_so naming (places_in self.now p v) frame.now) (listed self.now) }
    {
        match first_naming(self.items(), naming, frame) {
            Some((row, number)) => Some((Proc::new(row), Page::new(number))),
            None => None,
        }
    }

    /// The lowest page whose place names the frame and is no migration entry.
    pub fn lowest_direct(&self, frame: &Frame) -> Option<(Proc, Page)>
        ensures { result ≡ lowest_direct (places_of self.now) frame.now }
    {
        self.lowest_naming(Naming::Directly, frame)
    }

    /// The lowest page whose place is a migration entry of the frame.
    pub fn lowest_moving(&self, frame: &Frame) -> Option<(Proc, Page)>
        ensures { result ≡ lowest_moving (places_of self.now) frame.now }
    {
        self.lowest_naming(Naming::Moving, frame)
    }

    /// The lowest page whose place names the frame.
    pub fn lowest_named(&self, frame: &Frame) -> Option<(Proc, Page)>
        ensures { result ≡ lowest_named (places_of self.now) frame.now }
    {
        self.lowest_naming(Naming::Either, frame)
    }

    /// How many places name the frame.
    pub fn uses(&self, frame: &Frame) -> u64
        ensures { result ≡ uses (places_of self.now) frame.now }
    {
        count_named(self.items(), frame)
    }

    // The lowest page of the process from there on and before the end whose place is wanted.
    fn next_wanted(&self, proc: Proc, from: u64, end: u64, writes: bool) -> Option<Page>
        ensures { result ≡ page_before end (next_page (places_of self.now) (is_wanted writes) proc from) }
    {
        match first_wanted(self.items(), proc.number(), from, writes) {
            Some((_, number)) => {
                if number < end {
                    Some(Page::new(number))
                } else {
                    None
                }
            }
            None => None,
        }
    }

    /// The lowest page of the process from there on and before the end whose place is not Empty.
    pub fn next_used(&self, proc: Proc, from: u64, end: u64) -> Option<Page>
        ensures { result ≡ page_before end (next_page (places_of self.now) is_used proc from) }
    {
        self.next_wanted(proc, from, end, false)
    }

    /// The lowest page of the process from there on and before the end whose place is writable.
    pub fn next_writable(&self, proc: Proc, from: u64, end: u64) -> Option<Page>
        ensures { result ≡ page_before end (next_page (places_of self.now) writable proc from) }
    {
        self.next_wanted(proc, from, end, true)
    }

    /// Whether some place names the frame once the page has this place.
    pub(crate) fn is_named_after(
        &self,
        proc: Proc,
        page: Page,
        place: &Place,
        frame: &Frame,
    ) -> bool
        ensures { result
            ≡ is_some (lowest_named (places_next (places_of self.now) (kinds.Kind.Place proc page place.now))
            frame.now) }
    {
        let items = self.items();
        is_frame(names(place), frame) || is_named_beside(items, proc.number(), page.number(), frame)
    }
}
