// How far actors are, compared.
ghost use Rattle.std.specs.Prelude.{◌≡◌, ℕ, true, [], map, slice_get, option_copied};
ghost use Rattle.std.specs.Rc.{rc_value};
ghost use Rattle.hm_race_states.specs.Tasks.{going_in};
ghost use Rattle.hm_race_states.specs.States.{nobody, goings_in};

use crate::same_phases::same_stack;
use crate::tasks::RaceTask;
use hm_history::phases::Migrating;
use hm_phases::Items;
use std::cmp;
use std::rc::Rc;

fn same_records(one: &[Migrating], other: &[Migrating]) -> bool
    ensures yes { result ≡ true → one.now ≡ other.now }
    ensures no { one.now ≡ other.now → result ≡ true }
{
    if one.len() != other.len() {
        return false;
    }
    for at in 0..one.len() {
        if one[at] != other[at] {
            return false;
        }
    }
    true
}

/// The actor of this number, if it is in the list.
pub fn task_at(tasks: &[Rc<RaceTask>], actor: usize) -> Option<&RaceTask>
    ensures { option_copied result ≡ slice_get (map rc_value tasks.now) actor }
{
    match tasks.get(actor) {
        Some(task) => Some(&**task),
        None => None,
    }
}

fn has_none(records: &[Migrating]) -> bool
    ensures yes { result ≡ true → records.now ≡ [] }
    ensures no { records.now ≡ [] → result ≡ true }
{
    records.is_empty()
}

fn is_nobody(task: &RaceTask) -> bool
    ensures yes { result ≡ true → going_in task.now ≡ nobody }
    ensures no { going_in task.now ≡ nobody → result ≡ true }
{
    if task.index != 0 {
        return false;
    }
    match task.stack.items() {
        Items::Zero => has_none(task.records.as_slice()),
        _ => false,
    }
}

fn same_at(one: &[Rc<RaceTask>], other: &[Rc<RaceTask>], actor: usize) -> bool
    ensures yes { result ≡ true
        → goings_in (map rc_value one.now) actor ≡ goings_in (map rc_value other.now) actor }
    ensures no { goings_in (map rc_value one.now) actor ≡ goings_in (map rc_value other.now) actor
        → result ≡ true }
{
    match task_at(one, actor) {
        None => match task_at(other, actor) {
            None => true,
            Some(task) => is_nobody(task),
        },
        Some(task) => match task_at(other, actor) {
            None => is_nobody(task),
            Some(two) => task.same(two),
        },
    }
}

/// Whether all actors of both are as far; one that is in no list is at its beginning, with no operation under way.
pub fn same_tasks(one: &[Rc<RaceTask>], other: &[Rc<RaceTask>]) -> bool
    ensures yes { result ≡ true
        → (a : ℕ) → goings_in (map rc_value one.now) a ≡ goings_in (map rc_value other.now) a }
    ensures no { ((a : ℕ) → goings_in (map rc_value one.now) a ≡ goings_in (map rc_value other.now) a)
        → result ≡ true }
{
    let most = cmp::max(one.len(), other.len());
    for actor in 0..most {
        if !same_at(one, other, actor) {
            return false;
        }
    }
    true
}

impl RaceTask {
    /// Whether both are as far.
    pub fn same(&self, other: &RaceTask) -> bool
        ensures yes { result ≡ true → going_in self.now ≡ going_in other.now }
        ensures no { going_in self.now ≡ going_in other.now → result ≡ true }
    {
        if self.index != other.index {
            return false;
        }
        if !same_stack(&self.stack, &other.stack) {
            return false;
        }
        same_records(self.records.as_slice(), other.records.as_slice())
    }
}
