// The events of migrations that an operation asks for: all pages are collected, and then all that moved were committed.
ghost use Rattle.std.specs.Prelude.{◌≡◌, ◌∷◌, ◌++◌, map, OnOk};
ghost use Rattle.hm_history.specs.Kernel.Going.{coming};
ghost use Rattle.hm_history.specs.Kernel.Operation.{is_migration};
ghost use Rattle.hm_history.specs.declared.phases.Phase as phase;
ghost use Rattle.hm_protocol.specs.Projection as spec;
ghost use Rattle.hm_world.specs.WorldValue.{now};

use crate::words::{frame_in_trace, in_span, one_page, tell};
use hm_base::{Actor, NoMemory, Op, Page, Proc, Rights};
use hm_history::Kind;
use hm_history::phases::{Migrating, MoveStep, Phase};
use hm_protocol::{Event, TraceSpan};
use hm_reads::Reads;
use hm_reads::operations::{is_to_device, op_mirror};
use hm_world::World;

/// Whether the operation is a migration.
pub(crate) fn is_migration(op: &Op) -> bool
    ensures { result ≡ is_migration op.now }
{
    match op {
        Op::ToDevice { .. } | Op::ToSystem { .. } => true,
        _ => false,
    }
}

/// A page that was collected, with its right.
fn collected(world: &World, proc: Proc, migrating: &Migrating) -> Event
    ensures { result ≡ spec.collected (now world.now).after proc migrating.now }
{
    let page = migrating.page;
    let writes = match &migrating.source {
        None => world.rights(proc, page) == Some(Rights::ReadWrite),
        Some(_) => world.place(proc, page).writable(),
    };
    Event::From {
        page: page.number(),
        frame: frame_in_trace(&migrating.source),
        writes,
    }
}

/// All pages that were collected.
fn add_collected(
    told: &mut Vec<Event>,
    world: &World,
    proc: Proc,
    records: &[Migrating],
) -> Result<(), NoMemory>
    ensures { OnOk result (told.new.items
        ≡ told.old.items ++ map (spec.collected (now world.now).after proc) records.now) }
{
    for at in 0..records.len() {
        tell(told, collected(world, proc, &records[at]))?;
    }
    Ok(())
}

/// The pages of the operation.
fn pages_of(op: &Op) -> TraceSpan
    ensures { result ≡ spec.pages_of op.now }
{
    match op {
        Op::ToDevice { mirror: _, span } => in_span(*span),
        Op::ToSystem { mirror: _, span } => in_span(*span),
        _ => one_page(Page::new(0)),
    }
}

/// All pages are collected, once no other mapping has to be frozen.
#[tactic(auto, using(std::proofs::Common::append_assoc))]
fn add_set_up(
    told: &mut Vec<Event>,
    world: &World,
    op: &Op,
    records: &[Migrating],
    top: &Phase,
    kind: &Kind,
) -> Result<(), NoMemory>
    ensures { OnOk result (told.new.items
        ≡ told.old.items ++ spec.set_up (now world.now).after op.now records.now top.now kind.now) }
{
    if let Phase::Moves {
        step: MoveStep::FreezeOthers,
        next: _,
    } = top
    {
        if matches!(kind, Kind::Start { .. }) {
            return Ok(());
        }
        let mirror = op_mirror(op);
        let proc = world.mirror_proc(mirror);
        tell(
            told,
            Event::Setup {
                proc: u64::from(proc.number()),
                span: pages_of(op),
                to_device: is_to_device(op),
                owner: Some(u64::from(world.mirror_dev(mirror).number())),
            },
        )?;
        add_collected(told, world, proc, records)?;
        return tell(
            told,
            Event::Ready {
                proc: u64::from(proc.number()),
            },
        );
    }
    Ok(())
}

/// Where the migration is: the step and the page that come next, if it is at one.
pub(crate) fn coming(
    world: &World,
    actor: Actor,
    op: &Op,
    top: &Phase,
) -> Option<(MoveStep, Migrating)>
    ensures { result
        ≡ coming (now world.now).after op.now ((now world.now).going actor).pages top.now }
{
    match top {
        Phase::Moves { step, next } => world.coming(actor, op, *step, *next),
        _ => None,
    }
}

fn is_past_commits(at: &Option<(MoveStep, Migrating)>) -> bool
    ensures { result ≡ spec.is_past_commits at.now }
{
    match at {
        None => true,
        Some((step, _)) => matches!(step, MoveStep::SetOwnTable | MoveStep::Finish),
    }
}

fn is_up_to_commits(top: &Phase) -> bool
    ensures { result ≡ spec.is_up_to_commits top.now }
{
    match top {
        Phase::Moves { step, next: _ } => {
            !matches!(step, MoveStep::SetOwnTable | MoveStep::Finish)
        }
        _ => false,
    }
}

/// All pages that moved were committed.
fn add_paged(
    told: &mut Vec<Event>,
    world: &World,
    actor: Actor,
    op: &Op,
    top: &Phase,
) -> Result<(), NoMemory>
    ensures { OnOk result (told.new.items
        ≡ told.old.items
        ++ spec.paged (now world.now).after op.now ((now world.now).going actor).pages top.now) }
{
    if is_up_to_commits(top) && is_past_commits(&coming(world, actor, op, top)) {
        let proc = world.mirror_proc(op_mirror(op));
        return tell(
            told,
            Event::Paged {
                proc: u64::from(proc.number()),
            },
        );
    }
    Ok(())
}

/// What a migration has come to before an entry.
#[tactic(auto, using(std::proofs::Common::append_assoc))]
pub(crate) fn add_comes_to(
    told: &mut Vec<Event>,
    world: &World,
    actor: Actor,
    op: &Op,
    top: &Phase,
    kind: &Kind,
) -> Result<(), NoMemory>
    ensures { OnOk result (told.new.items
        ≡ told.old.items
        ++ spec.comes_to (now world.now).after op.now ((now world.now).going actor).pages top.now kind.now) }
{
    if !is_migration(op) {
        return Ok(());
    }
    add_set_up(told, world, op, world.records(actor), top, kind)?;
    add_paged(told, world, actor, op, top)
}
