// A pool of frames: they are taken and dropped, read, written and copied, locked and unlocked.
ghost use Rattle.std.specs.Prelude.{◌≡◌, ◌≢◌, ℕ, ◌+◌, ◌*◌, ◌<◌, ◌≤◌, true, false, Some, None, is_some, length};
ghost use Rattle.std.specs.Prelude.{replicate, IfOk, IfSome, MatchResult};
ghost use Rattle.frame_pool.specs.Bits.{next_true};
ghost use Rattle.frame_pool.specs.Frames.{IsFrames, IsPiece, fresh, is_held, locker, lowest_free, lowest_taken, taken};
ghost use Rattle.frame_pool.specs.Frames.{dropped, written, copied, part_of, locked, unlocked, piece_start, piece_len};

use crate::bytes::FRAME_BYTES;
use crate::number_set::NumberSet;
use crate::parts::PART_BYTES;
use crate::pool_bytes::PoolBytes;
use hm_base::{Actor, NoMemory};
use std::alloc::Global;
use std::marker::Model;

/// How much of a frame is copied: all of it, or the part of this number below 8, 512 bytes long.
#[derive(Clone, Copy)]
pub enum Piece {
    All,
    Part(u8),
}

/// The frame is locked, and by this actor (`folio_trylock` of include/linux/pagemap.h).
#[derive(Clone, Copy, PartialEq, Eq, Debug, thiserror::Error)]
#[error("actor {} has the frame locked", .0.number())]
pub struct Held(pub Actor);

/// Frames of 4,096 bytes by their numbers, in one row: the system's, or a device's own
/// (`MEMORY_DEVICE_PRIVATE`, as `struct dmirror_chunk` of lib/test_hmm.c has them).
#[derive(Drop)]
pub struct Pool {
    free: NumberSet,
    held: NumberSet,
    bytes: PoolBytes,
    locks: Vec<Option<Actor>>,
    withdrawn: bool,
}

impl Model for Pool {
    ghost use Rattle.frame_pool.specs.Frames.{Frames};

    ghost Value = { Frames };

    ghost use Rattle.frame_pool.specs.Pools.{frames_of, IsPool};

    ghost view = { frames_of };

    ghost invariant = { IsPool };
}

impl Pool {
    /// A pool of this many frames, none of which is held. It reserves all the memory that it will need; the machine
    /// gives that of a frame's bytes when the frame is first taken.
    pub fn new(alloc: Global, frames: u32) -> Result<Pool, NoMemory>
        ensures { IfOk result (λ pool. pool ≡ fresh frames) }
    {
        let free = NumberSet::full(alloc, frames)?;
        let held = NumberSet::empty(alloc, frames)?;
        let bytes = PoolBytes::new(alloc, frames as usize * FRAME_BYTES)?;
        let locks = unlocked_frames(alloc, frames as usize)?;
        Ok(Pool {
            free,
            held,
            bytes,
            locks,
            withdrawn: false,
        })
    }

    /// Costs nothing: it hands the prover the invariant.
    pub fn facts(&self)
        ensures { IsFrames self.now }
    {
        let _ = &self.withdrawn;
    }

    /// The frame that `take_lowest` would take.
    pub fn lowest_free(&self) -> Option<u32>
        ensures { result ≡ lowest_free self.now }
    {
        if self.withdrawn {
            return None;
        }
        self.free.next_at_or_after(0)
    }

    /// Takes the lowest frame that is not held, and zeros it (`clear_highpage` of
    /// include/linux/highmem.h).
    pub fn take_lowest(&mut self) -> Option<u32>
        ensures frame { result ≡ lowest_free self.old }
        ensures pool { self.new ≡ lowest_taken self.old (lowest_free self.old) }
    {
        let number = self.lowest_free()?;
        self.take(number);
        Some(number)
    }

    fn take(&mut self, number: u32)
        requires inside { number < length self.old.held }
        requires free { is_held self.old number ≡ false }
        ensures { self.new ≡ taken self.old number }
    {
        self.free.remove(number);
        self.held.insert(number);
        self.bytes.zero_frame(number as usize * FRAME_BYTES);
    }

    /// Gives the frame back; it is then not locked.
    pub fn drop_frame(&mut self, number: u32)
        requires { is_held self.old number ≡ true }
        ensures { self.new ≡ dropped self.old number }
    {
        self.held.remove(number);
        self.free.insert(number);
        self.locks[number as usize] = None;
    }

    /// Fills `into` with the frame's bytes from `offset` on.
    pub fn read(&self, number: u32, offset: u32, into: &mut [u8])
        requires held { is_held self.now number ≡ true }
        requires lies { offset + length into.old ≤ 4096 }
        ensures { into.new ≡ part_of self.now.bytes (number * 4096 + offset) (length into.old) }
    {
        let at = number as usize * FRAME_BYTES + offset as usize;
        self.bytes.read(at, into);
    }

    /// Writes the bytes over the frame's from `offset` on.
    pub fn write(&mut self, number: u32, offset: u32, from: &[u8])
        requires held { is_held self.old number ≡ true }
        requires lies { offset + length from.now ≤ 4096 }
        ensures { self.new ≡ written self.old number offset from.now }
    {
        let at = number as usize * FRAME_BYTES + offset as usize;
        self.bytes.overwrite(at, from);
    }

    /// Copies the piece of one frame over that of another.
    pub fn copy_within(&mut self, src: u32, dst: u32, piece: Piece)
        requires src { is_held self.old src ≡ true }
        requires dst { is_held self.old dst ≡ true }
        requires differ { src ≢ dst }
        requires piece { IsPiece piece }
        ensures { self.new ≡ copied self.old src self.old dst piece }
    {
        let from = src as usize * FRAME_BYTES;
        let to = dst as usize * FRAME_BYTES;
        match piece {
            Piece::All => self.bytes.copy_frame(from, to),
            Piece::Part(part) => {
                let start = part as usize * PART_BYTES;
                self.bytes.copy_part(from + start, to + start);
            }
        }
    }

    /// Locks the frame for the actor; `Held` names the actor that has it locked already.
    pub fn try_lock(&mut self, number: u32, actor: Actor) -> Result<(), Held>
        requires { is_held self.old number ≡ true }
        ensures { MatchResult result
            (λ _. (locker self.old number ≡ None) × (self.new ≡ locked self.old number actor))
            (λ e. (locker self.old number ≡ Some e.0) × (self.new ≡ self.old)) }
    {
        if let Some(by) = self.holder(number) {
            return Err(Held(by));
        }
        self.locks[number as usize] = Some(actor);
        Ok(())
    }

    /// Gives up the lock of a frame.
    pub fn unlock(&mut self, number: u32)
        requires { is_some (locker self.old number) ≡ true }
        ensures { self.new ≡ unlocked self.old number }
    {
        self.locks[number as usize] = None;
    }

    /// The actor that has the frame locked.
    pub fn holder(&self, number: u32) -> Option<Actor>
        ensures { result ≡ locker self.now number }
    {
        match self.locks.get(number as usize) {
            Some(lock) => *lock,
            None => None,
        }
    }

    /// The lowest held frame from this number on.
    pub fn held_at_or_after(&self, number: u32) -> Option<u32>
        ensures { result ≡ next_true self.now.held number }
    {
        self.held.next_at_or_after(number)
    }

    /// From now on no frame can be taken.
    pub fn withdraw(&mut self)
        ensures { self.new ≡ record self.old { withdrawn = true } }
    {
        self.withdrawn = true;
    }

    /// Whether no frame can be taken any more.
    pub fn is_withdrawn(&self) -> bool
        ensures { result ≡ self.now.withdrawn }
    {
        self.withdrawn
    }
}

/// Copies the piece of a frame of one pool over that of a frame of another.
pub fn copy_across(from: &Pool, src: u32, to: &mut Pool, dst: u32, piece: Piece)
    requires src { is_held from.now src ≡ true }
    requires dst { is_held to.old dst ≡ true }
    requires piece { IsPiece piece }
    ensures { to.new ≡ copied from.now src to.old dst piece }
{
    let at = src as usize * FRAME_BYTES;
    let over = dst as usize * FRAME_BYTES;
    match piece {
        Piece::All => to.bytes.copy_frame_from(&from.bytes, at, over),
        Piece::Part(part) => {
            let start = part as usize * PART_BYTES;
            to.bytes
                .copy_part_from(&from.bytes, at + start, over + start);
        }
    }
}

/// The locks of this many frames, which nobody has.
fn unlocked_frames(alloc: Global, count: usize) -> Result<Vec<Option<Actor>>, NoMemory>
    ensures { IfOk result (λ locks. locks.items ≡ replicate count None) }
{
    Ok(vec![in alloc; None; count]?)
}
