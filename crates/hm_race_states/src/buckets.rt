// A number of each key: the same for keys of one form.
ghost use Rattle.std.specs.Prelude.{◌≡◌, ℕ, map};
ghost use Rattle.std.specs.Rc.{rc_value};
ghost use Rattle.hm_phases.specs.Items.{phases_of};
ghost use Rattle.hm_race_states.specs.Buckets.{cursor_of, told_word, frame_word, phase_code, phase_word, mixed_phase};
ghost use Rattle.hm_race_states.specs.Buckets.{mixed_phases, mixed_records, mixed_going, mixed_goings};
ghost use Rattle.hm_race_states.specs.States.{goings_in};
ghost use Rattle.hm_race_states.specs.Tasks.{going_in};

use crate::same_tasks::task_at;
use crate::tasks::RaceTask;
use hm_base::{Frame, MirrorId};
use hm_history::phases::{Body, Migrating, Phase};
use hm_phases::Items;
use hm_race_keys::sparse::mixed;
use std::rc::Rc;

fn cursor_of(body: &Body) -> u64
    ensures { result ≡ cursor_of body.now }
{
    match body {
        Body::Zap { next } => *next,
        Body::Narrow { next } => *next,
        Body::Fork { next, half: _ } => *next,
        Body::Select { next } => *next,
        _ => 0,
    }
}

fn told_word(told: &Option<MirrorId>) -> u64
    ensures { result ≡ told_word told.now }
{
    match told {
        None => 0,
        Some(mirror) => u64::from(mirror.number()) + 1,
    }
}

fn frame_word(frame: &Option<Frame>) -> u64
    ensures { result ≡ frame_word frame.now }
{
    match frame {
        None => 0,
        Some(frame) => u64::from(frame.number) + 1,
    }
}

fn phase_code(phase: &Phase) -> u64
    ensures { result ≡ phase_code phase.now }
{
    match phase {
        Phase::Begin => 1,
        Phase::Locked => 2,
        Phase::Ready => 3,
        Phase::Answer => 4,
        Phase::Detaching { .. } => 5,
        Phase::Pages { .. } => 6,
        Phase::Piece { .. } => 7,
        Phase::Fetched { .. } => 8,
        Phase::Begun { .. } => 9,
        Phase::Decide { .. } => 10,
        Phase::Noted { .. } => 11,
        Phase::Taken { .. } => 12,
        Phase::Armed { .. } => 13,
        Phase::Guard { .. } => 14,
        Phase::Drop { .. } => 15,
        Phase::Emptying { .. } => 16,
        Phase::Copy { .. } => 17,
        Phase::Copied { .. } => 18,
        Phase::Finish { .. } => 19,
        Phase::Settle { .. } => 20,
        Phase::GiveUp { .. } => 21,
        Phase::Frames { .. } => 22,
        Phase::Moves { .. } => 23,
        Phase::Lost { .. } => 24,
    }
}

fn phase_word(phase: &Phase) -> u64
    ensures { result ≡ phase_word phase.now }
{
    match phase {
        Phase::Pages { next } => *next,
        Phase::Piece { piece } => u64::from(*piece),
        Phase::Fetched { old } => u64::from(*old),
        Phase::Begun { seq, .. } => *seq,
        Phase::Noted { seq, .. } => *seq,
        Phase::Taken { by, .. } => u64::from(by.number),
        Phase::Armed { by, .. } => u64::from(by.number),
        Phase::Guard { told, body, .. } => mixed(told_word(told), cursor_of(body)),
        Phase::Drop { frame } => u64::from(frame.number),
        Phase::Copy { part, .. } => u64::from(*part),
        Phase::Finish { from, .. } => u64::from(from.number),
        Phase::Frames { next, .. } => *next,
        Phase::Moves { next, .. } => *next,
        _ => 0,
    }
}

fn mixed_phase(sum: u64, phase: &Phase) -> u64
    ensures { result ≡ mixed_phase sum phase.now }
{
    mixed(mixed(sum, phase_code(phase)), phase_word(phase))
}

fn mixed_phases(sum: u64, items: &Items) -> u64
    ensures { result ≡ mixed_phases sum (phases_of items.now) }
{
    match items {
        Items::Zero => sum,
        Items::One(x) => mixed_phase(sum, x),
        Items::Two(x, y) => mixed_phase(mixed_phase(sum, x), y),
        Items::Three(x, y, z) => mixed_phase(mixed_phase(mixed_phase(sum, x), y), z),
    }
}

fn mixed_records(sum: u64, records: &[Migrating]) -> u64
    ensures { result ≡ mixed_records sum records.now }
{
    let mut total = sum;
    for record in records {
        total = mixed(
            mixed(total, frame_word(&record.dest)),
            u64::from(record.moved),
        );
    }
    total
}

fn mixed_task(sum: u64, task: &RaceTask) -> u64
    ensures { result ≡ mixed_going sum (going_in task.now) }
{
    let sum = mixed_phases(mixed(sum, task.index), &task.stack.items());
    mixed_records(sum, task.records.as_slice())
}

fn mixed_at(sum: u64, tasks: &[Rc<RaceTask>], actor: usize) -> u64
    ensures { result ≡ mixed_going sum (goings_in (map rc_value tasks.now) actor) }
{
    match task_at(tasks, actor) {
        None => mixed(sum, 0),
        Some(task) => mixed_task(sum, task),
    }
}

/// A sum with how far each actor is mixed in.
pub(crate) fn mixed_tasks(sum: u64, tasks: &[Rc<RaceTask>]) -> u64
    ensures { result ≡ mixed_goings sum 16 (goings_in (map rc_value tasks.now)) }
{
    let mut total = sum;
    for actor in 0..16usize {
        total = mixed_at(total, tasks, actor);
    }
    total
}
