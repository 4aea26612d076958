// The events of a fault that brings a page of device memory home, and of frames.
ghost use Rattle.std.specs.Prelude.{◌≡◌, [], ◌∷◌, ◌++◌, IsTrue, OnOk};
ghost use Rattle.hm_base.specs.Program.{op_in_range};
ghost use Rattle.hm_history.specs.Kernel.Going.{coming};
ghost use Rattle.hm_phases.specs.Items.{phases_of};
ghost use Rattle.hm_projection.specs.Told.{told_of_devices, told_of_frames, page_or, paged_home, stayed, not_brought, kept_by};
ghost use Rattle.hm_projection.specs.Told.{passed_over};
ghost use Rattle.hm_protocol.specs.Projection as spec;
ghost use Rattle.hm_world.specs.WorldValue.{now};

use crate::migrations::{coming, is_migration};
use crate::reasons::is_evicting;
use crate::words::{frame_in_trace, in_trace, one_page, owner_of, shown, tell};
use hm_base::{Actor, Frame, NoMemory, Op, Page, Place};
use hm_history::phases::{Body, Migrating, Phase};
use hm_history::{KeptAt, KeptWhy, Kind};
use hm_phases::Items;
use hm_protocol::Event;
use hm_reads::Reads;
use hm_reads::operations::{op_mirror, touch_page, touch_proc};
use hm_world::World;

/// Whether the operation brings pages home if it has to.
fn is_home(op: &Op) -> bool
    ensures { result ≡ spec.is_home op.now }
{
    !is_migration(op) && !is_evicting(op)
}

/// The page of a phase that decides; else the other one.
fn page_or(op: &Op, phase: &Phase, other: Page) -> Page
    requires { IsTrue (op_in_range op.now) }
    ensures { result ≡ page_or op.now phase.now other }
{
    match phase {
        Phase::Decide { touch } => touch_page(op, *touch),
        _ => other,
    }
}

/// The page that the fault is about.
fn page_in(op: &Op, stack: &Items) -> Page
    requires { IsTrue (op_in_range op.now) }
    ensures { result ≡ spec.page_in op.now (phases_of stack.now) }
{
    let none = Page::new(0);
    match stack {
        Items::Zero => none,
        Items::One(a) => page_or(op, a, none),
        Items::Two(a, b) => page_or(op, a, page_or(op, b, none)),
        Items::Three(a, b, c) => page_or(op, a, page_or(op, b, page_or(op, c, none))),
    }
}

/// The top of a stack.
pub(crate) fn top_of(stack: &Items) -> Phase
    ensures { result ≡ spec.top_of (phases_of stack.now) }
{
    match stack {
        Items::Zero => Phase::Begin,
        Items::One(top) => *top,
        Items::Two(top, _) => *top,
        Items::Three(top, _, _) => *top,
    }
}

/// The page is collected, once no other mapping has to be frozen.
#[tactic(auto, using(std::proofs::Common::append_assoc))]
fn add_home_set_up(
    told: &mut Vec<Event>,
    world: &World,
    op: &Op,
    stack: &Items,
    frame: &Frame,
) -> Result<(), NoMemory>
    requires { IsTrue (op_in_range op.now) }
    ensures { OnOk result (told.new.items
        ≡ told.old.items
        ++ spec.home_set_up (now world.now).after op.now (phases_of stack.now) frame.now (Kind.Take frame.now)) }
{
    if !is_home(op) {
        return Ok(());
    }
    let proc = touch_proc(world, op);
    let page = page_in(op, stack);
    tell(
        told,
        Event::Setup {
            proc: u64::from(proc.number()),
            span: one_page(page),
            to_device: false,
            owner: owner_of(frame),
        },
    )?;
    tell(
        told,
        Event::From {
            page: page.number(),
            frame: in_trace(frame),
            writes: world.place(proc, page).writable(),
        },
    )?;
    tell(
        told,
        Event::Ready {
            proc: u64::from(proc.number()),
        },
    )
}

/// All that was brought home was said.
fn add_paged_home(told: &mut Vec<Event>, world: &World, op: &Op) -> Result<(), NoMemory>
    ensures { OnOk result (told.new.items ≡ told.old.items ++ paged_home (now world.now).after op.now) }
{
    if !is_home(op) {
        return Ok(());
    }
    let proc = u64::from(touch_proc(world, op).number());
    tell(told, Event::Paged { proc })
}

/// A page has moved: of a migration, or brought home.
#[tactic(auto, using(std::proofs::Common::append_assoc))]
fn add_moved(
    told: &mut Vec<Event>,
    world: &World,
    op: &Op,
    stack: &Items,
    moving: &Option<Migrating>,
    frame: &Frame,
) -> Result<(), NoMemory>
    requires { IsTrue (op_in_range op.now) }
    ensures { OnOk result (told.new.items
        ≡ told.old.items
        ++ spec.moved (now world.now).after op.now (phases_of stack.now) moving.now frame.now) }
{
    let page = match moving {
        Some(migrating) => migrating.page,
        None if is_home(op) => page_in(op, stack),
        None => return Ok(()),
    };
    tell(
        told,
        Event::Moved {
            page: page.number(),
            frame: in_trace(frame),
        },
    )?;
    match moving {
        Some(_) => Ok(()),
        None => add_paged_home(told, world, op),
    }
}

/// Bringing a page home is over.
fn add_home_over(told: &mut Vec<Event>, world: &World, op: &Op, top: &Phase) -> Result<(), NoMemory>
    ensures { OnOk result (told.new.items
        ≡ told.old.items ++ spec.home_over (now world.now).after op.now top.now) }
{
    let ends = match top {
        Phase::Settle { frame: _ } => true,
        Phase::Finish { from: _, to: None } => true,
        _ => false,
    };
    if ends && is_home(op) {
        let proc = u64::from(touch_proc(world, op).number());
        return tell(told, Event::Finalize { proc });
    }
    Ok(())
}

/// Adds the event, if the frame is a device's.
fn add_if_device(told: &mut Vec<Event>, frame: &Frame, event: Event) -> Result<(), NoMemory>
    ensures { OnOk result (told.new.items ≡ told.old.items ++ spec.if_device frame.now event) }
{
    match owner_of(frame) {
        None => Ok(()),
        Some(_) => tell(told, event),
    }
}

/// A frame is taken; for a page that is brought home all is set up then.
fn add_taken(
    told: &mut Vec<Event>,
    world: &World,
    op: &Op,
    stack: &Items,
    frame: &Frame,
) -> Result<(), NoMemory>
    requires { IsTrue (op_in_range op.now) }
    ensures { OnOk result (told.new.items
        ≡ told.old.items ++ spec.taken (now world.now).after op.now (phases_of stack.now) frame.now) }
{
    if let Phase::Emptying { frame: home, at: _ } = &top_of(stack) {
        return add_home_set_up(told, world, op, stack, home);
    }
    let event = Event::Take {
        frame: in_trace(frame),
    };
    add_if_device(told, frame, event)
}

/// A frame is free again; if it was to bring a page home, that is over.
#[tactic(auto, using(std::proofs::Common::append_assoc))]
fn add_dropped(
    told: &mut Vec<Event>,
    world: &World,
    op: &Op,
    top: &Phase,
    frame: &Frame,
) -> Result<(), NoMemory>
    ensures { OnOk result (told.new.items
        ≡ told.old.items
        ++ (spec.if_device frame.now (Event.Free (spec.in_trace frame.now))
        ++ spec.home_over (now world.now).after op.now top.now)) }
{
    let event = Event::Free {
        frame: in_trace(frame),
    };
    add_if_device(told, frame, event)?;
    add_home_over(told, world, op, top)
}

/// A fresh page gets its frame.
fn add_placed(told: &mut Vec<Event>, top: &Phase, page: Page, place: &Place) -> Result<(), NoMemory>
    ensures { OnOk result (told.new.items ≡ told.old.items ++ spec.placed top.now page place.now) }
{
    match top {
        Phase::Guard {
            body: Body::Fresh { .. },
            ..
        } => tell(
            told,
            Event::Moved {
                page: page.number(),
                frame: shown(place),
            },
        ),
        _ => Ok(()),
    }
}

/// A page was given a frame, and does not have it.
fn add_lost(told: &mut Vec<Event>, top: &Phase, moving: &Option<Migrating>) -> Result<(), NoMemory>
    ensures { OnOk result (told.new.items ≡ told.old.items ++ stayed top.now moving.now) }
{
    let (page, frame) = match (top, moving) {
        (Phase::Lost { page, by }, _) => (*page, in_trace(by)),
        (_, Some(migrating)) => (migrating.page, frame_in_trace(&migrating.dest)),
        (_, None) => return Ok(()),
    };
    tell(
        told,
        Event::Stayed {
            page: page.number(),
            frame,
        },
    )
}

/// No frame is free for a page that is to be brought home.
#[tactic(auto, using(std::proofs::Common::append_assoc))]
fn add_no_frame(
    told: &mut Vec<Event>,
    world: &World,
    op: &Op,
    stack: &Items,
) -> Result<(), NoMemory>
    requires { IsTrue (op_in_range op.now) }
    ensures { OnOk result (told.new.items
        ≡ told.old.items ++ not_brought (now world.now).after op.now (phases_of stack.now)) }
{
    if let Phase::Emptying { frame, at: _ } = &top_of(stack) {
        add_home_set_up(told, world, op, stack, frame)?;
        return add_paged_home(told, world, op);
    }
    Ok(())
}

/// A removal or an eviction passes over a frame.
fn add_passed(told: &mut Vec<Event>, op: &Op, at: &KeptAt) -> Result<(), NoMemory>
    ensures { OnOk result (told.new.items ≡ told.old.items ++ passed_over op.now at.now) }
{
    match at {
        KeptAt::Frame(frame) if is_evicting(op) => tell(
            told,
            Event::Pass {
                frame: in_trace(frame),
            },
        ),
        _ => Ok(()),
    }
}

/// What is kept: a frame that is passed over, a lost page, or a page for which no frame is free.
fn add_kept(
    told: &mut Vec<Event>,
    world: &World,
    op: &Op,
    stack: &Items,
    moving: &Option<Migrating>,
    at: &KeptAt,
    why: &KeptWhy,
) -> Result<(), NoMemory>
    requires { IsTrue (op_in_range op.now) }
    ensures { OnOk result (told.new.items
        ≡ told.old.items
        ++ kept_by (now world.now).after op.now moving.now (phases_of stack.now) at.now why.now) }
{
    match why {
        KeptWhy::LockedBy(_) => add_passed(told, op, at),
        KeptWhy::Lost => add_lost(told, &top_of(stack), moving),
        KeptWhy::NoFrame => add_no_frame(told, world, op, stack),
        KeptWhy::NotHere | KeptWhy::Skipped => Ok(()),
    }
}

/// The record of the page that a migration has come to.
fn record_at(world: &World, actor: Actor, op: &Op, top: &Phase) -> Option<Migrating>
    ensures { result
        ≡ spec.record_at (coming (now world.now).after op.now ((now world.now).going actor).pages top.now) }
{
    match coming(world, actor, op, top) {
        None => None,
        Some((_, migrating)) => Some(migrating),
    }
}

/// What an entry tells of frames, and of pages that move.
pub(crate) fn add_told_of_frames(
    told: &mut Vec<Event>,
    world: &World,
    actor: Actor,
    op: &Op,
    stack: &Items,
    kind: &Kind,
) -> Result<(), NoMemory>
    requires { IsTrue (op_in_range op.now) }
    ensures { OnOk result (told.new.items
        ≡ told.old.items
        ++ told_of_frames (now world.now).after op.now ((now world.now).going actor).pages (phases_of stack.now)
        kind.now) }
{
    let top = top_of(stack);
    let moving = record_at(world, actor, op, &top);
    match kind {
        Kind::Take(frame) => add_taken(told, world, op, stack, frame),
        Kind::Drop(frame) => add_dropped(told, world, op, &top, frame),
        Kind::Done(_) => add_home_over(told, world, op, &top),
        Kind::Committed { from: _, to } => add_moved(told, world, op, stack, &moving, to),
        Kind::Place {
            proc: _,
            page,
            place,
        } => add_placed(told, &top, *page, place),
        Kind::Kept { at, why } => add_kept(told, world, op, stack, &moving, at, why),
        _ => add_of_devices(told, world, op, kind),
    }
}

/// What an entry tells of a device that is taken away, and of a migration's end.
fn add_of_devices(
    told: &mut Vec<Event>,
    world: &World,
    op: &Op,
    kind: &Kind,
) -> Result<(), NoMemory>
    ensures { OnOk result (told.new.items ≡ told.old.items ++ told_of_devices (now world.now).after op.now kind.now) }
{
    match kind {
        Kind::Withdrawn(dev) => {
            let device = u64::from(dev.number());
            tell(told, Event::Withdraw { device })
        }
        Kind::Removed(dev) => {
            let device = u64::from(dev.number());
            tell(told, Event::Gone { device })
        }
        Kind::Migrated(_) => {
            let proc = u64::from(world.mirror_proc(op_mirror(op)).number());
            tell(told, Event::Finalize { proc })
        }
        _ => Ok(()),
    }
}
