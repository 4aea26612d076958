// A number of each state.
ghost use Rattle.std.specs.Prelude.{◌≡◌, map};
ghost use Rattle.std.specs.Rc.{rc_value};
ghost use Rattle.hm_race_keys.specs.PagePlaces.{places_in};
ghost use Rattle.hm_race_states.specs.States.{goings_in};
ghost use Rattle.hm_race_states.specs.Tasks.{going_in};
ghost use Rattle.hm_flaw_states.specs.Buckets.{phase_word, mixed_stack, mixed_top, mixed_tops, mixed_places};
ghost use Rattle.hm_flaw_states.specs.Buckets.{state_number};
ghost use Rattle.hm_flaw_states.specs.Placed.{pages_in};
ghost use Rattle.hm_flaw_states.specs.States.{state_in};

use crate::placed::PlacedPage;
use crate::state::FlawState;
use entry_words::encode;
use hm_history::phases::Phase;
use hm_race_keys::page_places::Places;
use hm_race_keys::sparse::mixed;
use hm_race_states::same_tasks::task_at;
use hm_race_states::shared_phases::SharedPhases;
use hm_race_states::tasks::RaceTask;
use std::rc::Rc;

fn phase_word(phase: &Phase) -> u64
    ensures { result ≡ phase_word phase.now }
{
    match phase {
        Phase::Guard { span, .. } => mixed(1, span.first().number()),
        Phase::Pages { next } => mixed(2, *next),
        Phase::Piece { piece } => mixed(3, u64::from(*piece)),
        Phase::Begun { seq, .. } => mixed(4, *seq),
        Phase::Decide { .. } => 5,
        Phase::Noted { seq, .. } => mixed(6, *seq),
        Phase::Taken { by, .. } => mixed(7, u64::from(by.number)),
        Phase::Armed { by, .. } => mixed(8, u64::from(by.number)),
        Phase::Copy { part, .. } => mixed(9, u64::from(*part)),
        Phase::Moves { next, .. } => mixed(10, *next),
        Phase::Frames { next, .. } => mixed(11, *next),
        Phase::Finish { from, .. } => mixed(12, u64::from(from.number)),
        Phase::Drop { frame } => mixed(13, u64::from(frame.number)),
        Phase::Answer => 14,
        Phase::Locked => 15,
        Phase::Emptying { .. } => 16,
        Phase::Settle { .. } => 17,
        _ => 0,
    }
}

fn mixed_stack(sum: u64, stack: &SharedPhases) -> u64
    ensures { result ≡ mixed_stack sum stack.now }
{
    match stack.top() {
        None => sum,
        Some(top) => mixed(sum, phase_word(top)),
    }
}

fn mixed_task(sum: u64, task: &RaceTask) -> u64
    ensures { result ≡ mixed_top sum (going_in task.now) }
{
    mixed_stack(mixed(sum, task.index), &task.stack)
}

fn mixed_at(sum: u64, tasks: &[Rc<RaceTask>], actor: usize) -> u64
    ensures { result ≡ mixed_top sum (goings_in (map rc_value tasks.now) actor) }
{
    match task_at(tasks, actor) {
        None => mixed(sum, 0),
        Some(task) => mixed_task(sum, task),
    }
}

// A sum with how far each actor is mixed in.
fn mixed_tasks(sum: u64, tasks: &[Rc<RaceTask>]) -> u64
    ensures { result ≡ mixed_tops sum 16 (goings_in (map rc_value tasks.now)) }
{
    let mut total = sum;
    for actor in 0..16usize {
        total = mixed_at(total, tasks, actor);
    }
    total
}

// A sum with the places of these pages mixed in.
fn mixed_places(sum: u64, places: &Places, pages: &[PlacedPage]) -> u64
    ensures { result ≡ mixed_places sum (places_in places.now) (pages_in pages.now) }
{
    let mut total = sum;
    for one in pages {
        let place = places.get(one.proc, one.page);
        total = mixed(mixed(total, one.page.number()), encode(place));
    }
    total
}

impl FlawState {
    /// A number that is the same for one state, and should mostly be another for another.
    pub fn bucket(&self) -> u64
        ensures { result ≡ state_number (state_in self.now) }
    {
        let sum = mixed_tasks(mixed(1, self.entries), &self.tasks);
        mixed_places(sum, &self.places, &self.placed.pages)
    }
}
