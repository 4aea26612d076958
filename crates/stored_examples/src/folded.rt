// A history, folded three ways: the plain state, the places and the sequences.
use hm_base::{NoMemory, PoolId, Proc, Script};
use hm_folds::{PlaceState, PlainState, SeqState};
use hm_history::{Entry, History};
use std::alloc::Global;

/// What the folds come to.
#[derive(Clone, Copy)]
pub struct Folded {
    /// How many entries all three take.
    pub taken: u64,
    /// The frame of the system that the next `take` gives; the number of all frames if none is free.
    pub next: u32,
    /// How many pages have a place.
    pub pages: u64,
}

/// The three folds of one history.
#[derive(Drop)]
struct Folds {
    plain: PlainState,
    places: PlaceState,
    sequences: SeqState,
}

fn start(alloc: Global, script: &Script) -> Result<Folds, NoMemory> {
    Ok(Folds {
        plain: PlainState::start(alloc, script)?,
        places: PlaceState::start(alloc, script)?,
        sequences: SeqState::start(alloc, script)?,
    })
}

/// Whether all three folds take the entry.
fn takes(folds: &mut Folds, entry: &Entry) -> bool {
    let plain = folds.plain.apply(entry);
    let places = folds.places.apply(entry);
    let sequences = folds.sequences.apply(entry);
    plain.is_ok() && places.is_ok() && sequences.is_ok()
}

/// How many entries of a history the folds take before one refuses.
fn taken(folds: &mut Folds, history: &History) -> u64 {
    for at in 0..history.len() {
        if let Some(entry) = history.get(at) {
            if !takes(folds, entry) {
                return at;
            }
        }
    }
    history.len()
}

/// Folds a history as far as all three folds take it.
pub fn fold(alloc: Global, script: &Script, history: &History) -> Result<Folded, NoMemory> {
    let mut folds = start(alloc, script)?;
    let taken = taken(&mut folds, history);
    Ok(Folded {
        taken,
        next: next(&folds.places, script),
        pages: pages(&folds.places),
    })
}

fn next(places: &PlaceState, script: &Script) -> u32 {
    match places.lowest_free(PoolId::System) {
        Some(frame) => frame.number,
        None => script.frames,
    }
}

fn pages(places: &PlaceState) -> u64 {
    let mut count: u64 = 0;
    for number in 0..32 {
        count = count.saturating_add(pages_of(places, Proc::new(number)));
    }
    count
}

/// How many pages of a process have a place; 1,000 at the most.
fn pages_of(places: &PlaceState, proc: Proc) -> u64 {
    let mut from = 0;
    for count in 0..1000 {
        match places.next_used(proc, from) {
            None => return count,
            Some(page) => from = page.number() + 1,
        }
    }
    1000
}
