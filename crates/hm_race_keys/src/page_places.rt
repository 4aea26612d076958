// The place of each page that has one.
ghost use Rattle.std.specs.Prelude.{◌≡◌, ℕ, true, [], IfOk, OnOk, OnErr};
ghost use Rattle.hm_base.specs.declared.Place.{Place as AnyPlace};
ghost use Rattle.hm_history.specs.Memory.Places.{with_place};
ghost use Rattle.hm_race_keys.specs.Sparse.{rising_from, mixed_items};
ghost use Rattle.hm_race_keys.specs.PagePlaces.{places_in, IsPlaced, mixed_place};
ghost use Rattle.hm_race_keys.specs.Trail.{place_next};

use crate::sparse::{Item, Kept, Sparse, mixed};
use entry_words::encode;
use hm_base::{NoMemory, Page, Place, Proc};
use hm_history::Kind;
use std::alloc::Global;
use std::marker::Model;

impl Kept for Place {
    ghost mixed = { mixed_place };

    fn is_same(&self, other: &Place) -> bool {
        self == other
    }

    fn mixed(&self, sum: u64) -> u64 {
        mixed(sum, encode(*self))
    }
}

/// The place of each page, as those of the pages that have one.
#[derive(Drop)]
pub struct Places {
    items: Sparse<Place>,
}

impl Model for Places {
    ghost use Rattle.std.specs.Prelude.{List};
    ghost use Rattle.hm_base.specs.declared.Place.{Place as AnyPlace};
    ghost use Rattle.hm_race_keys.specs.PagePlaces.{IsPlaced};
    ghost use Rattle.hm_race_keys.specs.declared.sparse.Item.{Item as AnyItem};

    ghost Value = { List (AnyItem AnyPlace) };

    ghost view = { λ s. s.items };

    ghost invariant = { λ s. IsPlaced s.items };
}

impl Places {
    /// No page has a place. It takes no memory.
    pub fn new(alloc: Global) -> Places
        ensures { result ≡ [] }
    {
        Places {
            items: Sparse::new(alloc),
        }
    }

    /// Costs nothing: it hands the prover what is kept, and in which order.
    pub fn facts(&self)
        ensures placed { IsPlaced self.now }
        ensures rising { rising_from 0 0 self.now ≡ true }
    {
        self.items.facts();
    }

    /// The pages that have a place, in rising order.
    pub fn items(&self) -> &[Item<Place>]
        ensures same { result.now ≡ self.now }
        ensures placed { IsPlaced self.now }
        ensures rising { rising_from 0 0 self.now ≡ true }
    {
        self.items.items()
    }

    /// The place of a page.
    pub fn get(&self, proc: Proc, page: Page) -> Place
        ensures { result ≡ places_in self.now proc page }
    {
        match self.items.get(proc.number(), page.number()) {
            Some(place) => place,
            None => Place::Empty,
        }
    }

    /// The places after an entry; a failure changes nothing.
    pub fn step(&mut self, kind: &Kind) -> Result<(), NoMemory>
        ensures ok { OnOk result (places_in self.new ≡ place_next (places_in self.old) kind.now) }
        ensures err { OnErr result (self.new ≡ self.old) }
    {
        match kind {
            Kind::Place { proc, page, place } => self.set(*proc, *page, place),
            _ => Ok(()),
        }
    }

    fn set(&mut self, proc: Proc, page: Page, place: &Place) -> Result<(), NoMemory>
        ensures ok { OnOk result (places_in self.new ≡ with_place (places_in self.old) proc page place.now) }
        ensures err { OnErr result (self.new ≡ self.old) }
    {
        match place {
            Place::Empty => {
                self.items.remove(proc.number(), page.number());
                Ok(())
            }
            _ => self.items.set(proc.number(), page.number(), *place),
        }
    }

    /// The same places, in memory of their own.
    pub fn copy(&self, alloc: Global) -> Result<Places, NoMemory>
        ensures { IfOk result (λ x. x ≡ self.now) }
    {
        Ok(Places {
            items: self.items.copy(alloc)?,
        })
    }

    /// Whether each page has the same place in both.
    pub fn same(&self, other: &Places) -> bool
        ensures yes { result ≡ true → self.now ≡ other.now }
        ensures no { ((p v : ℕ) → places_in self.now p v ≡ places_in other.now p v) → result ≡ true }
    {
        self.items.same(&other.items)
    }

    /// A sum with all places mixed in.
    pub fn bucket(&self, sum: u64) -> u64
        ensures { result ≡ mixed_items mixed_place sum self.now }
    {
        self.items.bucket(sum)
    }
}
