// What a caller of the turn has seen.
use crate::known::Knowledge;
use atomic_table::Badge;
use std::marker::Model;

/// The right to try for the turn, and what was seen with it. It has no bytes.
#[derive(Drop)]
pub struct Pass {
    pub(crate) badge: Badge<Knowledge>,
}

impl Model for Pass {
    ghost use Rattle.hm_turns.specs.Sights.{Sight};
    ghost use Rattle.hm_turns.specs.Ruled.{sight_of, AreResting};

    ghost Value = { Sight };

    ghost view = { λ p. sight_of p.badge.table_id p.badge.views };

    ghost invariant = { λ p. AreResting p.badge.views };
}
