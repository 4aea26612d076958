// Keys of states, as a search compares them.
ghost use Rattle.std.specs.Prelude.{◌≡◌, true};
ghost use Rattle.hm_race_laws.specs.Outcomes.{Point};
ghost use Rattle.hm_race_states.specs.Alike.{SamePlaces, SameProcesses, SameActors, SameAnswers, IsKey};
ghost use Rattle.hm_race_states.specs.Buckets.{key_number};
ghost use Rattle.hm_race_states.specs.Keyed.{form_in};
ghost use Rattle.hm_race_states.specs.Numbered.{same_number};

use crate::buckets::mixed_tasks;
use crate::key::StateKey;
use crate::same_tasks::same_tasks;
use crate::state::RaceState;
use hm_search::SearchKey;

fn same_places(one: &RaceState, other: &RaceState) -> bool
    ensures yes { result ≡ true → SamePlaces one.now other.now }
    ensures no { SamePlaces one.now other.now → result ≡ true }
{
    if !one.places.same(&other.places) {
        return false;
    }
    if !one.held.same(&other.held) {
        return false;
    }
    if !one.tables.same(&other.tables) {
        return false;
    }
    one.locks.same(&other.locks)
}

fn same_processes(one: &RaceState, other: &RaceState) -> bool
    ensures yes { result ≡ true → SameProcesses one.now other.now }
    ensures no { SameProcesses one.now other.now → result ≡ true }
{
    if !one.spaces.same(&other.spaces) {
        return false;
    }
    if !one.bytes.same(&other.bytes) {
        return false;
    }
    if !one.mirrors.same(&other.mirrors) {
        return false;
    }
    one.seqs.same(&other.seqs)
}

fn same_actors(one: &RaceState, other: &RaceState) -> bool
    ensures yes { result ≡ true → SameActors one.now other.now }
    ensures no { SameActors one.now other.now → result ≡ true }
{
    if !same_tasks(&one.tasks, &other.tasks) {
        return false;
    }
    if !one.marks.same(&other.marks) {
        return false;
    }
    one.maps.same(&other.maps)
}

fn same_answers(one: &StateKey, other: &StateKey) -> bool
    ensures yes { result ≡ true → SameAnswers one.now other.now }
    ensures no { SameAnswers one.now other.now → result ≡ true }
{
    one.answers.same(&other.answers)
}

impl SearchKey for StateKey {
    ghost Forms = { Point };

    ghost form = { form_in };

    ghost Valid = { IsKey };

    ghost number = { key_number };

    fn facts(&self) {
        self.state.places.facts();
        self.state.tables.facts();
        let _ = &self.answers.lists;
    }

    fn same(&self, other: &StateKey) -> bool {
        if !same_actors(&self.state, &other.state) {
            return false;
        }
        if !same_answers(self, other) {
            return false;
        }
        if !same_places(&self.state, &other.state) {
            return false;
        }
        same_processes(&self.state, &other.state)
    }

    fn bucket(&self) -> u64 {
        let sum = mixed_tasks(self.answers.bucket(1), &self.state.tasks);
        self.state.tables.bucket(self.state.places.bucket(sum))
    }

    ghost buckets = { same_number };
}
