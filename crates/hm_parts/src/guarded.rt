// Whether a place takes something away, and whether an entry may take it.
ghost use Rattle.std.specs.Prelude.{◌≡◌, ◌||◌, not};
ghost use Rattle.hm_history.specs.Memory.Lookups.{is_guarded, loses, narrows_guarded};
ghost use Rattle.hm_base.specs.declared.Frame.{Frame as AnyFrame};
ghost use Rattle.hm_base.specs.declared.Place.{Place as AnyPlace};
ghost use Rattle.hm_folds.specs.Kept.{sequences_of};
ghost use Rattle.hm_folds.specs.Places.{ForShown};

use hm_base::{Actor, Page, Place, Proc};
use hm_folds::{PlaceState, SeqState};
use hm_history::{Entry, Kind};

/// Whether a page that had the old place loses a mapping, its frame or its write right with the new one.
pub fn loses(old: &Place, new: &Place) -> bool
    ensures { result ≡ loses old.now new.now }
{
    match old {
        Place::Empty => false,
        Place::Zero => !matches!(new, Place::Zero),
        Place::Sys { number, writable } => sys_loses(*number, *writable, new),
        Place::Own {
            dev,
            number,
            writable,
        } => match new {
            Place::Own {
                dev: other,
                number: to,
                writable: stays,
            } => !(dev == other && number == to) || *writable && !*stays,
            _ => true,
        },
        Place::Moving { frame: _, writable } => moving_loses(*writable, new),
        Place::Exclusive { .. } => true,
    }
}

fn sys_loses(number: u32, writable: bool, new: &Place) -> bool
    ensures { result ≡ loses (AnyPlace.Sys number writable) new.now }
{
    match new {
        Place::Sys {
            number: to,
            writable: stays,
        } => number != *to || writable && !*stays,
        _ => true,
    }
}

fn moving_loses(writable: bool, new: &Place) -> bool
    ensures { (f : AnyFrame) → result ≡ loses (AnyPlace.Moving f writable) new.now }
{
    match new {
        Place::Empty => true,
        _ => writable && !new.writable(),
    }
}

/// Whether a page keeps all that it had, or loses something under a guard of the actor in which all were told.
fn is_page_guarded(
    sequences: &SeqState,
    actor: Actor,
    proc: Proc,
    page: Page,
    before: &Place,
    place: &Place,
) -> bool
    ensures { result
        ≡ (not (loses before.now place.now) || is_guarded (sequences_of sequences.now) actor proc page) }
{
    !loses(before, place) || sequences.is_guarded(actor, proc, page)
}

/// Whether the entry takes nothing from the page of its `place`, or does so under a guard of its actor in which all
/// were told.
pub(crate) fn is_guarded_by(state: &PlaceState, sequences: &SeqState, entry: &Entry) -> bool
    ensures { ForShown state.now
        (λ c s. result ≡ narrows_guarded (sequences_of sequences.now) s.place entry.now.actor entry.now.kind) }
{
    match &entry.kind {
        Kind::Place { proc, page, place } => {
            let before = state.place(*proc, *page);
            is_page_guarded(sequences, entry.actor, *proc, *page, &before, place)
        }
        _ => true,
    }
}
