// Whether a mirror is told of an invalidation for a migration of its own device.
ghost use Rattle.std.specs.Prelude.{◌≡◌, ℕ, ◌==◌, ◌&&◌};
ghost use Rattle.hm_base.specs.Pages.{Pages};
ghost use Rattle.hm_history.specs.Memory.Plain.{mirror_dev};
ghost use Rattle.hm_history.specs.Kernel.Operation as spec;
ghost use Rattle.hm_history.specs.Kernel.Going.{op_at};
ghost use Rattle.hm_history.specs.declared.Kind as kinds;
ghost use Rattle.hm_flaws.specs.Drivers.{is_frame_of, is_own_body, tells_own};
ghost use Rattle.hm_flaw_states.specs.Steps.Found.{top_is_own};

use hm_base::{Actor, Dev, Frame, MirrorId, Op, PoolId};
use hm_history::Kind;
use hm_history::phases::{Body, Phase};
use hm_reads::Reads;
use hm_reads::operations::op_mirror;

fn is_frame_of(frame: &Frame, dev: Dev) -> bool
    ensures { result ≡ is_frame_of frame.now dev }
{
    match frame.pool {
        PoolId::System => false,
        PoolId::Device(of) => dev == of,
    }
}

fn is_migration(op: &Op) -> bool
    ensures { result ≡ spec.is_migration op.now }
{
    match op {
        Op::ToDevice { .. } => true,
        Op::ToSystem { .. } => true,
        _ => false,
    }
}

fn is_evicting(op: &Op) -> bool
    ensures { result ≡ spec.is_evicting op.now }
{
    match op {
        Op::Evict { .. } => true,
        Op::Remove { .. } => true,
        _ => false,
    }
}

fn is_own_migration<W: Reads>(world: &W, op: &Op, dev: Dev) -> bool
    ensures { result
        ≡ (spec.is_migration op.now
        && (mirror_dev (W.state world.now).after.plain (spec.op_mirror op.now) == dev)) }
{
    is_migration(op) && world.mirror_dev(op_mirror(op)) == dev
}

fn is_own_body<W: Reads>(world: &W, op: &Op, body: &Body, dev: Dev) -> bool
    ensures { result ≡ is_own_body (W.state world.now).after op.now body.now dev }
{
    match body {
        Body::Select { .. } => is_own_migration(world, op, dev),
        Body::Fresh { .. } => is_own_migration(world, op, dev),
        Body::Catch { frame } => !is_evicting(op) && is_frame_of(frame, dev),
        _ => false,
    }
}

// Whether an operation at this phase tells the mirror of one.
fn top_is_own<W: Reads>(world: &W, op: &Op, top: &Phase, mirror: MirrorId) -> bool
    ensures { result ≡ top_is_own (W.state world.now).after op.now top.now mirror }
{
    match top {
        Phase::Guard { body, .. } => is_own_body(world, op, body, world.mirror_dev(mirror)),
        _ => false,
    }
}

// Whether the actor tells the mirror of one.
fn actor_is_own<W: Reads>(world: &W, actor: Actor, mirror: MirrorId) -> bool
    ensures { (r : Pages) (q : ℕ) → result
        ≡ tells_own (W.state world.now).after
        (op_at (W.program world.now) actor ((W.state world.now).going actor).index)
        ((W.state world.now).going actor).stack (kinds.Kind.Told mirror r q) }
{
    let Some(op) = world.op(actor) else {
        return false;
    };
    match world.phase(actor) {
        Some(top) => top_is_own(world, op, top, mirror),
        None => false,
    }
}

/// Whether the actor's entry tells a mirror of an invalidation for a migration of the mirror's own device.
pub fn tells_own<W: Reads>(world: &W, actor: Actor, kind: &Kind) -> bool
    ensures { result
        ≡ tells_own (W.state world.now).after
        (op_at (W.program world.now) actor ((W.state world.now).going actor).index)
        ((W.state world.now).going actor).stack kind.now }
{
    match kind {
        Kind::Told { mirror, .. } => actor_is_own(world, actor, *mirror),
        _ => false,
    }
}
