// Places, and the words that stand for them.
ghost use Rattle.std.specs.Prelude.{◌≡◌};
ghost use Rattle.hm_base.specs.PlaceWords.{is_frame, names, writable};
ghost use Rattle.hm_history.specs.Memory.Places.{is_used};
ghost use Rattle.hm_tables.specs.Values.{is_moving, place_of_word};
ghost use Rattle.hm_tables.specs.Reads.{page_test};

use entry_words::place_at;
use hm_base::frames::{is_frame, names};
use hm_base::{Frame, Place};

/// Which pages are looked for: those that have a place, or those that have the write right.
#[derive(Clone, Copy)]
pub enum PageTest {
    Used,
    Writable,
}

impl PageTest {
    pub(crate) fn passes(self, place: Place) -> bool
        ensures { result ≡ page_test self place }
    {
        match self {
            PageTest::Used => is_used(place),
            PageTest::Writable => place.writable(),
        }
    }
}

fn is_used(place: Place) -> bool
    ensures { result ≡ is_used place }
{
    match place {
        Place::Empty => false,
        _ => true,
    }
}

/// The place that a word stands for.
#[tactic(auto, unfolding(crate::specs::Values::place_of_word))]
pub(crate) fn place_of_word(word: u64) -> Place
    ensures { result ≡ place_of_word word }
{
    match place_at(word) {
        Some(place) => place,
        None => Place::Empty,
    }
}

/// Whether a place names the frame.
pub(crate) fn is_named_by(frame: &Frame, place: &Place) -> bool
    ensures { result ≡ is_frame (names place.now) frame.now }
{
    is_frame(names(place), frame)
}

/// Whether it is a migration entry.
pub(crate) fn is_moving(place: &Place) -> bool
    ensures { result ≡ is_moving place.now }
{
    match place {
        Place::Moving { .. } => true,
        _ => false,
    }
}
