// States, compared.
ghost use Rattle.std.specs.Prelude.{◌≡◌, true};
ghost use Rattle.hm_flaw_states.specs.Alike.{SameActors, SamePlaces, SameProcesses};
ghost use Rattle.hm_flaw_states.specs.States.{state_in};

use crate::same_parts::{same_been, same_seqs};
use crate::state::FlawState;
use hm_race_states::same_tasks::same_tasks;

fn same_processes(one: &FlawState, other: &FlawState) -> bool
    ensures yes { result ≡ true → SameProcesses one.now other.now }
    ensures no { SameProcesses one.now other.now → result ≡ true }
{
    if !same_been(&one.been, &other.been) {
        return false;
    }
    if !one.spaces.same(&other.spaces) {
        return false;
    }
    if !one.bytes.same(&other.bytes) {
        return false;
    }
    one.mirrors.same(&other.mirrors)
}

fn same_places(one: &FlawState, other: &FlawState) -> bool
    ensures yes { result ≡ true → SamePlaces one.now other.now }
    ensures no { SamePlaces one.now other.now → result ≡ true }
{
    if !one.places.same(&other.places) {
        return false;
    }
    if !one.placed.same(&other.placed) {
        return false;
    }
    if !one.held.same(&other.held) {
        return false;
    }
    if !one.commits.same(&other.commits) {
        return false;
    }
    if !one.marks.same(&other.marks) {
        return false;
    }
    one.tables.same(&other.tables)
}

fn same_actors(one: &FlawState, other: &FlawState) -> bool
    ensures yes { result ≡ true → SameActors one.now other.now }
    ensures no { SameActors one.now other.now → result ≡ true }
{
    if one.entries != other.entries {
        return false;
    }
    if !same_tasks(&one.tasks, &other.tasks) {
        return false;
    }
    if !same_seqs(&one.seqs, &other.seqs) {
        return false;
    }
    if !one.guards.same(&other.guards) {
        return false;
    }
    if !one.maps.same(&other.maps) {
        return false;
    }
    if !one.locks.same(&other.locks) {
        return false;
    }
    one.contents.same(&other.contents)
}

impl FlawState {
    /// Whether the two stand for one state.
    pub fn same(&self, other: &FlawState) -> bool
        ensures alike { result ≡ true → state_in self.now ≡ state_in other.now }
        ensures apart { state_in self.now ≡ state_in other.now → result ≡ true }
    {
        if !same_actors(self, other) {
            return false;
        }
        if !same_places(self, other) {
            return false;
        }
        same_processes(self, other)
    }
}
