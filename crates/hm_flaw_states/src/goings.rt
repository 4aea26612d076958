// How far an actor is after its entry.
ghost use Rattle.std.specs.Prelude.{◌≡◌, ◌+◌, ◌≤◌, map, slice_get, option_copied, IfOk, IsTrue};
ghost use Rattle.hm_history.specs.Kernel.Going.{going_next, op_at};
ghost use Rattle.hm_history.specs.Memory.After.{After};
ghost use Rattle.hm_actors.specs.Actors.{IsSeen};
ghost use Rattle.hm_flaws.specs.Flawed.{as_moved, going_by, recorded_by, stack_by};
ghost use Rattle.hm_race_states.specs.Tasks.{going_in};
ghost use Rattle.hm_reads.specs.Ranges.{top_in_range};
ghost use Rattle.hm_flaw_states.specs.Rooms.{IsQuietAt, PlacesPage, StackStands};

use crate::stacks::stack_by;
use hm_base::{Actor, NoMemory, Op, Page, Script};
use hm_flaws::Flaw;
use hm_history::phases::{Migrating, Seen};
use hm_history::{KeptAt, KeptWhy, Kind};
use hm_race_states::shared_phases::SharedPhases;
use hm_race_states::shared_records::SharedRecords;
use hm_race_states::tasks::RaceTask;
use std::alloc::Global;

// ---- what counts as moved

fn as_moved(page: Page, migrating: Migrating) -> Migrating
    ensures { result ≡ as_moved page migrating }
{
    if migrating.page == page {
        Migrating {
            moved: true,
            ..migrating
        }
    } else {
        migrating
    }
}

// The records with each of the page as moved.
fn with_moved(alloc: Global, records: &SharedRecords, page: Page) -> Result<SharedRecords, NoMemory>
    ensures { IfOk result (λ x. x ≡ map (as_moved page) records.now) }
{
    let before = records.as_slice();
    let mut moved = Vec::with_capacity(alloc, before.len())?;
    for at in 0..before.len() {
        moved.push(as_moved(page, before[at]))?;
    }
    SharedRecords::listed(alloc, &moved)
}

// The records of a migration after an entry, if there is more in them than the entry says.
fn recorded_by(
    alloc: Global,
    flaw: Flaw,
    kind: &Kind,
    records: &SharedRecords,
) -> Result<SharedRecords, NoMemory>
    ensures { IfOk result (λ x. x ≡ recorded_by flaw kind.now records.now) }
{
    match flaw {
        Flaw::LostAsMoved => match kind {
            Kind::Kept {
                at: KeptAt::Page(page),
                why: KeptWhy::Lost,
            } => Ok(with_moved(alloc, records, *page)?),
            _ => Ok(records.share()?),
        },
        _ => Ok(records.share()?),
    }
}

// ---- all of it

// An actor of these parts.
fn made(index: u64, stack: SharedPhases, records: SharedRecords) -> RaceTask
    requires { IsTrue (top_in_range (slice_get stack 0)) }
    ensures { going_in result ≡ record { index = index; stack = stack; pages = records } }
{
    RaceTask {
        index,
        stack,
        records,
        quiet: false,
    }
}

// The actor with what the flaw makes of its stack and its records, given the operation, the entry's position, and the
// stack before the entry.
fn with_flaw(
    alloc: Global,
    flaw: Flaw,
    op: Option<&Op>,
    at: u64,
    before: &SharedPhases,
    kind: &Kind,
    task: RaceTask,
) -> Result<RaceTask, NoMemory>
    requires { StackStands (at + 1) (going_in task).stack }
    ensures { IfOk result (λ t. going_in t ≡ record {
      index = (going_in task).index;
      stack =
          stack_by flaw (option_copied op.entry) at before.now kind.now (going_in task).pages (going_in task).stack;
      pages = recorded_by flaw kind.now (going_in task).pages;
    }) }
{
    let records = recorded_by(alloc, flaw, kind, &task.records)?;
    let moving = task.records.as_slice();
    let items = stack_by(flaw, op, at, before, kind, moving, task.stack.items());
    let stack = SharedPhases::of(alloc, &items, &task.stack)?;
    Ok(made(task.index, stack, records))
}

// The actor by the driver's flaw, given the operation, the entry's position, and the stack before the entry.
fn going_by(
    alloc: Global,
    flaw: Flaw,
    op: Option<&Op>,
    at: u64,
    before: &SharedPhases,
    kind: &Kind,
    task: RaceTask,
) -> Result<RaceTask, NoMemory>
    requires { StackStands (at + 1) (going_in task).stack }
    ensures { IfOk result
        (λ t. going_in t ≡ going_by flaw (option_copied op.entry) at before.now kind.now (going_in task)) }
{
    match flaw {
        Flaw::NoFlaw => Ok(task),
        _ => Ok(with_flaw(alloc, flaw, op, at, before, kind, task)?),
    }
}

/// Costs nothing: it hands the prover that a page that is placed is one of those that there are.
pub(crate) fn facts_of(kind: &Kind)
    ensures { PlacesPage kind.now }
{
    if let Kind::Place { page, .. } = kind {
        page.facts();
    }
}

/// The actor after its entry, given what it saw just before it.
pub(crate) fn task_after(
    alloc: Global,
    script: &Script,
    flaw: Flaw,
    actor: Actor,
    task: &RaceTask,
    kind: &Kind,
    seen: &Seen,
) -> Result<RaceTask, NoMemory>
    requires stands { StackStands seen.now.at (going_in task.now).stack }
    requires quiet { IsQuietAt (going_in task.now).stack seen.now }
    requires room { seen.now.at ≤ 2000000 }
    ensures { IfOk result (λ t. (s : After) → IsSeen script.now s actor (going_in task.now) kind.now seen.now
        → going_in t
        ≡ going_by flaw (op_at script.now actor (going_in task.now).index) seen.now.at (going_in task.now).stack
        kind.now (going_next script.now s actor (going_in task.now) kind.now)) }
{
    facts_of(kind);
    let moved = task.after(alloc, script, actor, kind, seen)?;
    let op = task.op(script, actor);
    Ok(going_by(alloc, flaw, op, seen.at, &task.stack, kind, moved)?)
}
