// The mmap locks that are held, if a driver has a flaw: the walks of one that walks without the lock have none.
ghost use Rattle.std.specs.Prelude.{◌≡◌, ◌==◌, ◌&&◌};
ghost use Rattle.hm_history.specs.Memory.Words.{least};
ghost use Rattle.hm_history.specs.Memory.Locks.{lock_passes};
ghost use Rattle.hm_history.specs.Kernel.Going.{op_at};
ghost use Rattle.hm_history.specs.declared.locks.MapLock.{MapLock as AnyLock};
ghost use Rattle.hm_flaws.specs.Overrides.{is_device_access};
ghost use Rattle.hm_flaws.specs.Flawed.{locks_held, some_device_access};
ghost use Rattle.hm_flaw_states.specs.Found.{is_writer, is_other};

use crate::details::Details;
use hm_base::{Actor, Op, Proc};
use hm_flaws::Flaw;
use hm_history::locks::MapLock;

/// Whether the operation is a load or a store through a mirror.
pub(crate) fn is_device_access(op: &Op) -> bool
    ensures { result ≡ is_device_access op.now }
{
    match op {
        Op::DeviceLoad { .. } => true,
        Op::DeviceStore { .. } => true,
        _ => false,
    }
}

// Whether the actor's operation is a load or a store through a mirror.
fn accesses<W: Details>(world: &W, actor: Actor) -> bool
    ensures { result
        ≡ some_device_access (op_at (W.program world.now) actor ((W.state world.now).going actor).index) }
{
    match world.op(actor) {
        Some(op) => is_device_access(op),
        None => false,
    }
}

// The mmap lock that the actor holds.
fn held_by<W: Details>(world: &W, flaw: Flaw, actor: Actor) -> Option<MapLock>
    ensures { result ≡ locks_held flaw (W.program world.now) (W.state world.now) actor }
{
    match flaw {
        Flaw::WalksUnlocked => {
            if accesses(world, actor) {
                None
            } else {
                world.map_lock(actor)
            }
        }
        _ => world.map_lock(actor),
    }
}

fn is_on(lock: Option<MapLock>, proc: Proc) -> bool
    ensures { result ≡ lock_passes (λ (x : AnyLock). x.proc == proc) lock }
{
    match lock {
        None => false,
        Some(lock) => lock.proc == proc,
    }
}

fn writes(lock: Option<MapLock>, proc: Proc) -> bool
    ensures { result ≡ lock_passes (λ (x : AnyLock). (x.proc == proc) && x.writes) lock }
{
    match lock {
        None => false,
        Some(lock) => lock.proc == proc && lock.writes,
    }
}

/// Who has the process's mmap lock for writing.
pub(crate) fn writer<W: Details>(world: &W, flaw: Flaw, proc: Proc) -> Option<Actor>
    ensures { result ≡ least (is_writer (locks_held flaw (W.program world.now) (W.state world.now)) proc) 0 16 }
{
    for at in 0..16u32 {
        let actor = Actor::new(at);
        if writes(held_by(world, flaw, actor), proc) {
            return Some(actor);
        }
    }
    None
}

/// The lowest other actor that has the process's mmap lock.
pub(crate) fn lowest_other<W: Details>(
    world: &W,
    flaw: Flaw,
    proc: Proc,
    other: Actor,
) -> Option<Actor>
    ensures { result
        ≡ least (is_other (locks_held flaw (W.program world.now) (W.state world.now)) proc other) 0 16 }
{
    for at in 0..16u32 {
        let actor = Actor::new(at);
        if actor != other && is_on(held_by(world, flaw, actor), proc) {
            return Some(actor);
        }
    }
    None
}
