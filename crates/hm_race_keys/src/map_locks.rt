// Who has mmap locks.
ghost use Rattle.std.specs.Prelude.{◌≡◌, ℕ, true, Some, None};
ghost use Rattle.hm_history.specs.Memory.Words.{with_at};
ghost use Rattle.hm_history.specs.Memory.Locks.{locks_start, map_next};
ghost use Rattle.hm_race_keys.specs.Arrays.{lock_in, mixed_lock, mixed_locks};

use crate::sparse::mixed;
use hm_base::{Actor, Proc};
use hm_history::Kind;
use hm_history::locks::MapLock;
use hm_spaces::map_locks::releases;

/// The mmap lock of each actor.
#[derive(Drop)]
pub struct MapLocks {
    pub locks: [Option<MapLock>; 16],
}

fn mixed_lock(sum: u64, lock: &Option<MapLock>) -> u64
    ensures { result ≡ mixed_lock sum lock.now }
{
    match lock {
        None => mixed(sum, 0),
        Some(lock) => mixed(
            mixed(sum, u64::from(lock.proc.number()) + 1),
            u64::from(lock.writes),
        ),
    }
}

fn mixed_locks(sum: u64, locks: &[Option<MapLock>]) -> u64
    ensures { result ≡ mixed_locks sum locks.now }
{
    let mut total = sum;
    for lock in locks {
        total = mixed_lock(total, lock);
    }
    total
}

fn same_locks(one: &[Option<MapLock>; 16], other: &[Option<MapLock>; 16]) -> bool
    ensures yes { result ≡ true → (a : ℕ) → lock_in one.now a ≡ lock_in other.now a }
    ensures no { ((a : ℕ) → lock_in one.now a ≡ lock_in other.now a) → result ≡ true }
{
    for at in 0..16usize {
        if one[at] != other[at] {
            return false;
        }
    }
    true
}

fn copy_locks(locks: &[Option<MapLock>; 16]) -> [Option<MapLock>; 16]
    ensures { (a : ℕ) → lock_in result a ≡ lock_in locks.now a }
{
    let mut copy = [None; 16];
    for at in 0..16usize {
        copy[at] = locks[at];
    }
    copy
}

impl MapLocks {
    /// Nobody has one.
    pub fn new() -> MapLocks
        ensures { (a : ℕ) → lock_in result.locks a ≡ None }
    {
        MapLocks { locks: [None; 16] }
    }

    /// The locks after an entry of the actor.
    pub fn step(&mut self, actor: Actor, kind: &Kind)
        ensures { lock_in self.new.locks
            ≡ map_next (record locks_start { map = lock_in self.old.locks }) actor kind.now }
    {
        match kind {
            Kind::Rlock(proc) => self.lock(actor, *proc, false),
            Kind::Wlock(proc) => self.lock(actor, *proc, true),
            _ => {
                if releases(kind) {
                    self.unlock(actor);
                }
            }
        }
    }

    fn lock(&mut self, actor: Actor, proc: Proc, writes: bool)
        ensures { lock_in self.new.locks
            ≡ with_at (lock_in self.old.locks) actor (Some (record { proc = proc; writes = writes })) }
    {
        self.locks[actor.number() as usize] = Some(MapLock { proc, writes });
    }

    fn unlock(&mut self, actor: Actor)
        ensures { lock_in self.new.locks ≡ with_at (lock_in self.old.locks) actor None }
    {
        self.locks[actor.number() as usize] = None;
    }

    /// The same locks.
    pub fn copy(&self) -> MapLocks
        ensures { (a : ℕ) → lock_in result.locks a ≡ lock_in self.now.locks a }
    {
        MapLocks {
            locks: copy_locks(&self.locks),
        }
    }

    /// Whether each actor has the same lock in both.
    pub fn same(&self, other: &MapLocks) -> bool
        ensures yes { result ≡ true → (a : ℕ) → lock_in self.now.locks a ≡ lock_in other.now.locks a }
        ensures no { ((a : ℕ) → lock_in self.now.locks a ≡ lock_in other.now.locks a) → result ≡ true }
    {
        same_locks(&self.locks, &other.locks)
    }

    /// A sum with the locks mixed in.
    pub fn bucket(&self, sum: u64) -> u64
        ensures { result ≡ mixed_locks sum self.now.locks }
    {
        mixed_locks(sum, &self.locks)
    }
}
