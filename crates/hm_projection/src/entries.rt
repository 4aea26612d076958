// The events of a legal history, entry by entry: what is known before the entry, and what once it is done.
ghost use Rattle.std.specs.Prelude.{◌≡◌, ◌<◌, ◌≤◌, ◌∷◌, ◌++◌, [], None, Some, length, map, IfOk, OnOk};
ghost use Rattle.hm_base.specs.declared.limits.TheConstants.{MOST_ENTRIES};
ghost use Rattle.hm_history.specs.Kernel.Due.{due};
ghost use Rattle.hm_history.specs.Kernel.Going.{op_at};
ghost use Rattle.hm_history.specs.Laws.{DueFrom};
ghost use Rattle.hm_history.specs.declared.Progress.{Progress};
ghost use Rattle.hm_check.specs.FirstBad.{IsLegalReport};
ghost use Rattle.hm_projection.specs.Tables.{IsDriver};
ghost use Rattle.hm_projection.specs.Told.{told_if, traced, TellsBefore};
ghost use Rattle.hm_protocol.specs.Projection as spec;
ghost use Rattle.hm_protocol.specs.declared.events.Traced.{Traced as AnyTraced};
ghost use Rattle.hm_world.specs.WorldValue.{grown, now, opening};

use crate::homes::{add_told_of_frames, top_of};
use crate::look_ups::add_told_of_walk;
use crate::migrations::add_comes_to;
use crate::reasons::{Asked, asked_of, body_at, reason_by};
use crate::tables::Driver;
use crate::tellings::add_told_first;
use crate::words::{in_span, tell};
use hm_base::{Actor, NoMemory, Script};
use hm_check::Report;
use hm_history::phases::Phase;
use hm_history::{Entry, Kind, Progress};
use hm_protocol::{Event, Traced};
use hm_reads::Reads;
use hm_world::World;
use skip_rules::Multiples;
use std::alloc::Global;

/// Adds what is known before an entry is done. It answers what is asked of it then, if it is one of an operation.
#[tactic(auto, using(std::proofs::Common::append_assoc))]
fn add_before(
    told: &mut Vec<Event>,
    driver: &Driver,
    world: &World,
    entry: &Entry,
) -> Result<Option<Asked>, NoMemory>
    requires { IsDriver (now world.now).after driver.now }
    ensures { IfOk result (TellsBefore (now world.now).after ((now world.now).going entry.now.actor) entry.now.kind
        told.old.items told.new.items
        (op_at world.now.script entry.now.actor ((now world.now).going entry.now.actor).index)) }
{
    world.facts();
    let kind = &entry.kind;
    let actor = entry.actor;
    let Some(op) = world.op(actor) else {
        return Ok(None);
    };
    let stack = world.phases(actor);
    let top = top_of(&stack);
    add_comes_to(told, world, actor, op, &top, kind)?;
    add_told_first(told, &top, kind)?;
    driver.add_erased(told, kind)?;
    add_told_of_walk(told, world, op, &top, kind)?;
    add_told_of_frames(told, world, actor, op, &stack, kind)?;
    Ok(Some(asked_of(world, op)))
}

/// Adds what is known once the entry is done.
fn add_after(
    told: &mut Vec<Event>,
    world: &World,
    asked: Option<Asked>,
    entry: &Entry,
) -> Result<(), NoMemory>
    ensures { OnOk result (told.new.items
        ≡ told.old.items
        ++ told_if (now world.now).after asked (spec.top_of ((now world.now).going entry.now.actor).stack)
        entry.now.kind) }
{
    let Some(asked) = asked else {
        return Ok(());
    };
    let event = match &entry.kind {
        Kind::Detached(mirror) => Event::Removed {
            mirror: u64::from(mirror.number()),
        },
        Kind::Start { proc, span, seq: _ } => {
            let body = body_at(&top_of(&world.phases(entry.actor)));
            let (reason, owner) = reason_by(asked, &body);
            Event::Start {
                proc: u64::from(proc.number()),
                span: in_span(*span),
                reason,
                owner,
            }
        }
        Kind::Told {
            mirror,
            span: _,
            seq: _,
        } => Event::Told {
            mirror: u64::from(mirror.number()),
            seq: world.interval_seq(*mirror),
            done: true,
        },
        _ => return Ok(()),
    };
    tell(told, event)
}

/// Goes on by the entry, which is due.
fn go_on(alloc: Global, world: &mut World, entry: &Entry) -> Result<(), NoMemory>
    requires limit { length world.old.history < MOST_ENTRIES }
    requires running { world.old.halted ≡ None }
    requires due { due world.old.script world.old.history entry.now.actor ≡ Progress.Did entry.now }
    ensures { OnOk result (world.new ≡ grown world.old entry.now.actor entry.now.kind) }
{
    world.facts();
    match hm_steps::due(&*world, &Multiples, alloc, entry.actor)? {
        Progress::Did(again) => world.add(again),
        _ => unreachable!(),
    }
}

/// Adds the events of a thread.
fn add_traced(events: &mut Vec<Traced>, actor: Actor, told: &[Event]) -> Result<(), NoMemory>
    ensures { OnOk result (events.new.items
        ≡ events.old.items ++ map (traced actor) told.now) }
{
    let thread = u64::from(actor.number());
    for at in 0..told.len() {
        let event = told[at];
        events.push(Traced { thread, event })?;
    }
    Ok(())
}

/// Adds the events of an entry, which is due, and goes on by it. What was told is written over.
fn add_entry(
    alloc: Global,
    events: &mut Vec<Traced>,
    told: &mut Vec<Event>,
    driver: &mut Driver,
    world: &mut World,
    entry: &Entry,
) -> Result<(), NoMemory>
    requires limit { length world.old.history < MOST_ENTRIES }
    requires running { world.old.halted ≡ None }
    requires due { due world.old.script world.old.history entry.now.actor ≡ Progress.Did entry.now }
    requires driver { IsDriver (now world.old).after driver.old }
    ensures grown { OnOk result (world.new ≡ grown world.old entry.now.actor entry.now.kind) }
    ensures driver { OnOk result (IsDriver (now world.new).after driver.new) }
    ensures events { OnOk result (events.new.items
        ≡ events.old.items ++ spec.events_of world.old.script (now world.old) (now world.new) entry.now) }
{
    told.clear();
    let asked = add_before(told, &*driver, &*world, entry)?;
    driver.step(&entry.kind)?;
    go_on(alloc, world, entry)?;
    add_after(told, &*world, asked, entry)?;
    add_traced(events, entry.actor, told.as_slice())?;
    Ok(())
}

/// Goes on from the start by the entries, and adds their events.
fn add_entries(
    alloc: Global,
    events: &mut Vec<Traced>,
    world: &mut World,
    entries: &[Entry],
) -> Result<(), NoMemory>
    requires start { world.old ≡ opening world.old.script }
    requires dues { DueFrom world.old.script [] entries.now }
    requires few { length entries.now ≤ MOST_ENTRIES }
    ensures { OnOk result (events.new.items ≡ events.old.items ++ spec.project world.old.script entries.now) }
{
    let mut told = Vec::new(alloc);
    let mut driver = Driver::new(alloc)?;
    for at in 0..entries.len() {
        add_entry(alloc, events, &mut told, &mut driver, world, &entries[at])?;
    }
    Ok(())
}

/// The events of a legal history.
pub fn project(alloc: Global, report: Report) -> Result<Vec<Traced>, NoMemory>
    requires { IsLegalReport report.script report.history.entries }
    ensures { IfOk result (λ es. es.items ≡ spec.project report.script report.history.entries) }
{
    let Report { script, history } = report;
    let mut events = Vec::new(alloc);
    let mut world = World::new(alloc, script)?;
    let added = add_entries(alloc, &mut events, &mut world, history.as_slice());
    // Taken apart, since a drop here would be proved once more, part by part.
    let _ = world.into_parts();
    added?;
    Ok(events)
}
