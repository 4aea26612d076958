// The events of look-ups: a walk begins with the mmap lock, and ends with it.
ghost use Rattle.std.specs.Prelude.{◌≡◌, [], ◌∷◌, ◌++◌, true, IsTrue, OnOk};
ghost use Rattle.hm_base.specs.Program.{op_in_range};
ghost use Rattle.hm_history.specs.Kernel.Operation as of;
ghost use Rattle.hm_projection.specs.Told.{told_of_walk};
ghost use Rattle.hm_protocol.specs.Projection as spec;
ghost use Rattle.hm_world.specs.WorldValue.{now};

use crate::words::{one_page, shown, tell};
use hm_base::{MirrorId, NoMemory, Op, Page, Place};
use hm_history::Kind;
use hm_history::phases::{Phase, Touch};
use hm_protocol::Event;
use hm_reads::Reads;
use hm_reads::operations::{op_mirror, piece_page, touch_page, touch_proc};
use hm_world::World;

fn piece_and_seq(top: &Phase) -> (u32, u64)
    ensures { result ≡ spec.piece_and_seq top.now }
{
    match top {
        Phase::Begun {
            piece,
            since: _,
            seq,
        } => (*piece, *seq),
        Phase::Piece { piece } => (*piece, 0),
        _ => (0, 0),
    }
}

fn walk(
    told: &mut Vec<Event>,
    world: &World,
    op: &Op,
    mirror: MirrorId,
    top: &Phase,
) -> Result<(), NoMemory>
    requires { IsTrue (op_in_range op.now) }
    ensures { OnOk result (told.new.items
        ≡ told.old.items ++ spec.walk (now world.now).after true op.now mirror (spec.piece_and_seq top.now)) }
{
    let (piece, seq) = piece_and_seq(top);
    tell(
        told,
        Event::Walk {
            mirror: u64::from(mirror.number()),
            span: one_page(piece_page(op, piece)),
            seq,
            locked: true,
            owner: Some(u64::from(world.mirror_dev(mirror).number())),
        },
    )
}

/// A walk begins, if the operation is an access through a mirror.
fn add_walk(told: &mut Vec<Event>, world: &World, op: &Op, top: &Phase) -> Result<(), NoMemory>
    requires { IsTrue (op_in_range op.now) }
    ensures { OnOk result (told.new.items
        ≡ told.old.items ++ spec.walk_of (now world.now).after true op.now top.now) }
{
    match op {
        Op::DeviceLoad { mirror, .. } => walk(told, world, op, *mirror, top),
        Op::DeviceStore { mirror, .. } => walk(told, world, op, *mirror, top),
        _ => Ok(()),
    }
}

/// What a walk finds at a place.
fn add_found(
    told: &mut Vec<Event>,
    mirror: MirrorId,
    page: Page,
    place: &Place,
) -> Result<(), NoMemory>
    ensures { OnOk result (told.new.items ≡ told.old.items ++ spec.found_at mirror page place.now) }
{
    let writes = match place {
        Place::Zero => false,
        Place::Sys {
            number: _,
            writable,
        } => *writable,
        Place::Own {
            dev: _,
            number: _,
            writable,
        } => *writable,
        _ => return Ok(()),
    };
    tell(
        told,
        Event::Found {
            mirror: u64::from(mirror.number()),
            page: page.number(),
            frame: shown(place),
            writes,
        },
    )
}

/// A walk ends, and has found a page or not.
fn add_walked(told: &mut Vec<Event>, op: &Op, done: bool) -> Result<(), NoMemory>
    ensures { OnOk result (told.new.items ≡ told.old.items ++ Event.Walked (of.op_mirror op.now) done ∷ []) }
{
    let mirror = u64::from(op_mirror(op).number());
    tell(told, Event::Walked { mirror, done })
}

/// A walk ends, having found a page.
#[tactic(auto, using(std::proofs::Common::append_assoc))]
fn add_page(told: &mut Vec<Event>, world: &World, op: &Op, top: &Phase) -> Result<(), NoMemory>
    requires { IsTrue (op_in_range op.now) }
    ensures { OnOk result (told.new.items
        ≡ told.old.items ++ spec.walked (now world.now).after op.now top.now) }
{
    match top {
        Phase::Decide {
            touch: Touch::Walk { piece, since, seq },
        } => {
            let touch = Touch::Walk {
                piece: *piece,
                since: *since,
                seq: *seq,
            };
            let page = touch_page(op, touch);
            let place = world.place(touch_proc(world, op), page);
            add_found(told, op_mirror(op), page, &place)?;
            add_walked(told, op, true)
        }
        _ => Ok(()),
    }
}

/// A walk ends without a page.
fn add_no_page(told: &mut Vec<Event>, op: &Op, top: &Phase) -> Result<(), NoMemory>
    ensures { OnOk result (told.new.items ≡ told.old.items ++ spec.not_walked op.now top.now) }
{
    match top {
        Phase::Decide {
            touch: Touch::Walk { .. },
        } => add_walked(told, op, false),
        Phase::GiveUp {
            touch: Some(Touch::Walk { .. }),
        } => add_walked(told, op, false),
        _ => Ok(()),
    }
}

/// What an entry tells of a walk.
pub(crate) fn add_told_of_walk(
    told: &mut Vec<Event>,
    world: &World,
    op: &Op,
    top: &Phase,
    kind: &Kind,
) -> Result<(), NoMemory>
    requires { IsTrue (op_in_range op.now) }
    ensures { OnOk result (told.new.items
        ≡ told.old.items ++ told_of_walk (now world.now).after op.now top.now kind.now) }
{
    match kind {
        Kind::Rlock(_) => add_walk(told, world, op, top),
        Kind::Runlock(_) => add_page(told, world, op, top),
        Kind::Retry(_) => add_no_page(told, op, top),
        Kind::Failed { .. } => add_no_page(told, op, top),
        _ => Ok(()),
    }
}
