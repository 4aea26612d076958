// The pages with a place that a state lists.
ghost use Rattle.hm_race_laws.specs.Forms.{ListsPlaces};

use crate::state::RaceState;

impl RaceState {
    ghost use Rattle.hm_race_states.specs.States.{state_in};

    /// Costs nothing: it hands the prover that each page with a place is listed, once.
    pub fn facts(&self)
        ensures { ListsPlaces (state_in self.now).after.places.place (state_in self.now).after.places.placed }
    {
        self.places.facts();
    }
}
