// The frames of one pool, and for each the frame to which its contents were committed.
ghost use Rattle.std.specs.Prelude.{◌≡◌, ◌≢◌, ℕ, ◌+◌, ◌*◌, ◌<◌, ◌≤◌, true, Some, None, is_some, length, replicate};
ghost use Rattle.std.specs.Prelude.{slice_index_or, IfOk};
ghost use Rattle.frame_pool.specs.Bits.{next_true};
ghost use Rattle.frame_pool.specs.Frames.{IsPiece, is_held, locker, locked, unlocked, lowest_free, part_of, piece_of};
ghost use Rattle.frame_pool.specs.Frames.{piece_start};
ghost use Rattle.hm_frames.specs.Pools.{fresh_pool, pool_taken, pool_dropped, pool_locked, pool_unlocked, pool_written};
ghost use Rattle.hm_frames.specs.Pools.{pool_committed, pool_settled, pool_frozen, withdrawn_in};

use frame_pool::{Piece, Pool};
use hm_base::{Actor, Frame, NoMemory};
use std::alloc::Global;
use std::marker::Model;

/// The frames of a pool, and for each the frame that it was committed to since it was last taken.
#[derive(Drop)]
pub struct OnePool {
    pool: Pool,
    committed_to: Vec<Option<Frame>>,
}

impl Model for OnePool {
    ghost use Rattle.std.specs.Prelude.{◌≡◌, length};
    ghost use Rattle.hm_frames.specs.Pools.{PoolState};

    ghost Value = { PoolState };

    ghost view = { λ p. record { frames = p.pool; committed_to = p.committed_to.items } };

    ghost invariant = { λ p. length p.committed_to.items ≡ length p.pool.held };
}

impl OnePool {
    /// A pool of `frames` frames, none of which is held.
    pub(crate) fn new(alloc: Global, frames: u32) -> Result<OnePool, NoMemory>
        ensures { IfOk result (λ pool. pool ≡ fresh_pool frames) }
    {
        let pool = Pool::new(alloc, frames)?;
        let committed_to = nones(alloc, frames as usize)?;
        Ok(OnePool { pool, committed_to })
    }

    /// Takes the frame, which is the lowest that is free, and locks it for its taker.
    pub(crate) fn take(&mut self, number: u32, actor: Actor)
        requires { lowest_free self.old.frames ≡ Some number }
        ensures { self.new ≡ pool_taken self.old number actor }
    {
        let _ = self.pool.take_lowest();
        lock(&mut self.pool, number, actor);
        self.committed_to[number as usize] = None;
    }

    /// Gives the frame back; it is then not locked.
    pub(crate) fn drop_frame(&mut self, number: u32)
        requires { is_held self.old.frames number ≡ true }
        ensures { self.new ≡ pool_dropped self.old number }
    {
        self.pool.drop_frame(number);
    }

    /// Locks the frame for the actor, whoever had it locked.
    pub(crate) fn lock(&mut self, number: u32, actor: Actor)
        requires { is_held self.old.frames number ≡ true }
        ensures { self.new ≡ pool_locked self.old number actor }
    {
        lock(&mut self.pool, number, actor);
    }

    pub(crate) fn unlock(&mut self, number: u32)
        requires { is_some (locker self.old.frames number) ≡ true }
        ensures { self.new ≡ pool_unlocked self.old number }
    {
        self.pool.unlock(number);
    }

    /// Unlocks the frame if the actor has it locked.
    pub(crate) fn settle(&mut self, number: u32, actor: Actor)
        ensures { self.new ≡ pool_settled self.old number actor }
    {
        if let Some(by) = self.pool.holder(number)
            && actor == by
        {
            self.pool.unlock(number);
        }
    }

    /// Locks the frame for the actor if nobody has it locked.
    pub(crate) fn freeze(&mut self, number: u32, actor: Actor)
        requires { is_held self.old.frames number ≡ true }
        ensures { self.new ≡ pool_frozen self.old number actor }
    {
        let _ = self.pool.try_lock(number, actor);
    }

    pub(crate) fn write(&mut self, number: u32, offset: u32, from: &[u8])
        requires held { is_held self.old.frames number ≡ true }
        requires lies { offset + length from.now ≤ 4096 }
        ensures { self.new ≡ pool_written self.old number offset from.now }
    {
        self.pool.write(number, offset, from);
    }

    pub(crate) fn copy_within(&mut self, from: u32, to: u32, piece: Piece)
        requires source { is_held self.old.frames from ≡ true }
        requires target { is_held self.old.frames to ≡ true }
        requires differ { from ≢ to }
        requires piece { IsPiece piece }
        ensures { self.new ≡ pool_written self.old to (piece_start piece) (piece_of self.old.frames from piece) }
    {
        self.pool.copy_within(from, to, piece);
    }

    /// Copies the piece of a frame of the other pool over that of a frame of this one.
    pub(crate) fn copy_from(&mut self, other: &OnePool, from: u32, to: u32, piece: Piece)
        requires source { is_held other.now.frames from ≡ true }
        requires target { is_held self.old.frames to ≡ true }
        requires piece { IsPiece piece }
        ensures { self.new ≡ pool_written self.old to (piece_start piece) (piece_of other.now.frames from piece) }
    {
        frame_pool::copy_across(&other.pool, from, &mut self.pool, to, piece);
    }

    /// From now on the contents of the frame are those of the other.
    pub(crate) fn commit(&mut self, number: u32, to: Frame)
        requires { is_held self.old.frames number ≡ true }
        ensures { self.new ≡ pool_committed self.old number to }
    {
        self.committed_to[number as usize] = Some(to);
    }

    pub(crate) fn withdraw(&mut self)
        ensures { self.new ≡ withdrawn_in self.old }
    {
        self.pool.withdraw();
    }

    pub(crate) fn is_withdrawn(&self) -> bool
        ensures { result ≡ self.now.frames.withdrawn }
    {
        self.pool.is_withdrawn()
    }

    pub(crate) fn is_held(&self, number: u32) -> bool
        ensures { result ≡ is_held self.now.frames number }
    {
        self.pool.held_at_or_after(number) == Some(number)
    }

    pub(crate) fn holder(&self, number: u32) -> Option<Actor>
        ensures { result ≡ locker self.now.frames number }
    {
        self.pool.holder(number)
    }

    pub(crate) fn committed_to(&self, number: u32) -> Option<Frame>
        ensures { result ≡ slice_index_or self.now.committed_to number None }
    {
        match self.committed_to.get(number as usize) {
            Some(to) => *to,
            None => None,
        }
    }

    pub(crate) fn lowest_free(&self) -> Option<u32>
        ensures { result ≡ lowest_free self.now.frames }
    {
        self.pool.lowest_free()
    }

    pub(crate) fn held_at_or_after(&self, from: u64) -> Option<u32>
        ensures { result ≡ next_true self.now.frames.held from }
    {
        if from > u64::from(u32::MAX) {
            self.pool.facts();
            return None;
        }
        self.pool.held_at_or_after(from as u32)
    }

    pub(crate) fn read(&self, number: u32, offset: u32, into: &mut [u8])
        requires held { is_held self.now.frames number ≡ true }
        requires lies { offset + length into.old ≤ 4096 }
        ensures { into.new ≡ part_of self.now.frames.bytes (number * 4096 + offset) (length into.old) }
    {
        self.pool.read(number, offset, into);
    }
}

/// Locks the frame for the actor, whoever had it locked.
fn lock(pool: &mut Pool, number: u32, actor: Actor)
    requires { is_held pool.old number ≡ true }
    ensures { pool.new ≡ locked pool.old number actor }
{
    unlock(pool, number);
    let _ = pool.try_lock(number, actor);
}

/// Unlocks the frame if somebody has it locked.
fn unlock(pool: &mut Pool, number: u32)
    ensures { pool.new ≡ unlocked pool.old number }
{
    if pool.holder(number).is_some() {
        pool.unlock(number);
    }
}

/// A list of `count` times `None`.
fn nones<T: Copy + Drop>(alloc: Global, count: usize) -> Result<Vec<Option<T>>, NoMemory>
    ensures { IfOk result (λ nones. nones.items ≡ replicate count None) }
{
    Ok(vec![in alloc; None; count]?)
}
