// The mmap locks, by actor.
ghost use Rattle.std.specs.Prelude.{◌≡◌, ◌==◌, ◌&&◌};
ghost use Rattle.hm_history.specs.Memory.Locks.{releases, lock_passes};
ghost use Rattle.hm_history.specs.Memory.Words.{least};
ghost use Rattle.hm_history.specs.declared.locks.MapLock.{MapLock as Lock};
ghost use Rattle.hm_spaces.specs.Spaces.{map_locks_next};
ghost use Rattle.hm_spaces.specs.Holders.{is_writer, is_other};

use hm_base::{Actor, Proc};
use hm_history::Kind;
use hm_history::locks::MapLock;

/// Whether the entry releases the mmap lock that its actor holds.
pub fn releases(kind: &Kind) -> bool
    ensures { result ≡ releases kind.now }
{
    match kind {
        Kind::Loaded { .. }
        | Kind::Stored { .. }
        | Kind::Failed { .. }
        | Kind::Refused(..)
        | Kind::Mapped { .. }
        | Kind::Unmapped { .. }
        | Kind::Protected { .. }
        | Kind::Forked { .. }
        | Kind::Exited(..)
        | Kind::Migrated(..)
        | Kind::Retry(..)
        | Kind::Excluded { .. }
        | Kind::Runlock(..) => true,
        _ => false,
    }
}

pub fn step(locks: &mut [Option<MapLock>; 16], actor: Actor, kind: &Kind)
    ensures { locks.new ≡ map_locks_next actor kind.now locks.old }
{
    let at = actor.number() as usize;
    match kind {
        Kind::Rlock(proc) => {
            locks[at] = Some(MapLock {
                proc: *proc,
                writes: false,
            });
        }
        Kind::Wlock(proc) => {
            locks[at] = Some(MapLock {
                proc: *proc,
                writes: true,
            });
        }
        _ => {
            if releases(kind) {
                locks[at] = None;
            }
        }
    }
}

fn writes(lock: &Option<MapLock>, proc: Proc) -> bool
    ensures { result ≡ lock_passes (λ (x : Lock). (x.proc == proc) && x.writes) lock.now }
{
    match lock {
        None => false,
        Some(lock) => lock.proc == proc && lock.writes,
    }
}

fn is_on(lock: &Option<MapLock>, proc: Proc) -> bool
    ensures { result ≡ lock_passes (λ (x : Lock). x.proc == proc) lock.now }
{
    match lock {
        None => false,
        Some(lock) => lock.proc == proc,
    }
}

pub fn writer(locks: &[Option<MapLock>; 16], proc: Proc) -> Option<Actor>
    ensures { result ≡ least (is_writer locks.now proc) 0 16 }
{
    for at in 0..16u32 {
        if writes(&locks[at as usize], proc) {
            return Some(Actor::new(at));
        }
    }
    None
}

pub fn lowest_other(locks: &[Option<MapLock>; 16], proc: Proc, actor: Actor) -> Option<Actor>
    ensures { result ≡ least (is_other locks.now proc actor) 0 16 }
{
    for at in 0..16u32 {
        if at != actor.number() && is_on(&locks[at as usize], proc) {
            return Some(Actor::new(at));
        }
    }
    None
}
