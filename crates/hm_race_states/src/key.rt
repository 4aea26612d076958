// What a search keeps of a state of a race, and the answers so far.
use crate::state::RaceState;
use hm_race_keys::shared_answers::SharedAnswers;
use std::rc::Rc;

/// A state of a race, and what each actor was answered since the set-up.
#[derive(Drop)]
pub struct StateKey {
    pub state: RaceState,
    pub answers: Rc<SharedAnswers>,
}
