// What becomes of the migrations of a thread.
ghost use Rattle.std.specs.Prelude.{◌≡◌};
ghost use Rattle.hm_protocol.specs.Known as known;

use crate::moves::Move;
use crate::newest_first::Changes;
use hm_base::NoMemory;
use hm_protocol::TraceFrame;

/// A page that was collected, and whether for writes.
#[derive(Drop)]
pub(crate) struct Collected(pub u64, pub bool);

impl Changes<Move> for Collected {
    ghost use Rattle.std.specs.Prelude.{◌∷◌};

    ghost made = { λ s y. record y { source = (s.0, s.1) ∷ y.source } };

    fn change(&self, one: &mut Move) -> Result<(), NoMemory> {
        one.collect(self.0, self.1)
    }
}

/// A page that moved.
#[derive(Drop)]
pub(crate) struct Moved(pub u64);

impl Changes<Move> for Moved {
    ghost use Rattle.std.specs.Prelude.{◌∷◌};

    ghost made = { λ s y. record y { moved = s.0 ∷ y.moved } };

    fn change(&self, one: &mut Move) -> Result<(), NoMemory> {
        one.move_page(self.0)
    }
}

/// A page that was given a frame, and does not have it.
#[derive(Drop)]
pub(crate) struct Stayed(pub u64, pub TraceFrame);

impl Changes<Move> for Stayed {
    ghost use Rattle.std.specs.Prelude.{◌∷◌};

    ghost made = { λ s y. record y { stayed = (s.0, s.1) ∷ y.stayed } };

    fn change(&self, one: &mut Move) -> Result<(), NoMemory> {
        one.stay(self.0, self.1)
    }
}

/// What moved is known.
#[derive(Drop)]
pub(crate) struct Known;

impl Changes<Move> for Known {
    ghost use Rattle.std.specs.Prelude.{true};

    ghost made = { λ s y. record y { paged = true } };

    fn change(&self, one: &mut Move) -> Result<(), NoMemory> {
        one.know();
        Ok(())
    }
}

/// A page that was set after that.
#[derive(Drop)]
pub(crate) struct PageSet(pub u64);

impl Changes<Move> for PageSet {
    ghost use Rattle.std.specs.Prelude.{◌∷◌};

    ghost made = { λ s y. record y { set = s.0 ∷ y.set } };

    fn change(&self, one: &mut Move) -> Result<(), NoMemory> {
        one.set_page(self.0)
    }
}

/// A frame that was freed.
#[derive(Drop)]
pub(crate) struct Freed(pub TraceFrame);

impl Changes<Move> for Freed {
    ghost use Rattle.hm_protocol.specs.Noted.{freed};

    ghost made = { λ s. freed s.0 };

    fn change(&self, one: &mut Move) -> Result<(), NoMemory> {
        one.free(self.0)
    }
}
