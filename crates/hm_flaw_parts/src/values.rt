// What is noted of a look-up that began, and of a table entry that was set.
ghost use Rattle.std.specs.Prelude.{◌≡◌};
ghost use Rattle.hm_flaw_parts.specs.Marks.{mixed_position, mixed_set};

use hm_race_keys::sparse::{Kept, mixed};

/// The position of an entry.
#[derive(Clone, Copy, PartialEq, Eq)]
pub struct Position {
    pub at: u64,
}

/// What is noted of the last `set` of a page.
#[derive(Clone, Copy, PartialEq, Eq)]
pub struct SetMark {
    /// Whether its look-up began where it says.
    pub goes_back: bool,
    /// The position from which it is to be untold.
    pub since: u64,
}

impl Kept for Position {
    ghost mixed = { mixed_position };

    fn is_same(&self, other: &Position) -> bool {
        self == other
    }

    fn mixed(&self, sum: u64) -> u64 {
        mixed(sum, self.at)
    }
}

impl Kept for SetMark {
    ghost mixed = { mixed_set };

    fn is_same(&self, other: &SetMark) -> bool {
        self == other
    }

    fn mixed(&self, sum: u64) -> u64 {
        mixed(sum, self.since)
    }
}
