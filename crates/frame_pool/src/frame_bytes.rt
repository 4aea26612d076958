// Bytes of all frames of a pool, which take memory when they are first needed.
ghost use Rattle.std.specs.Prelude.{◌≡◌, ◌+◌, ◌≤◌, length, replicate, IfOk};
ghost use Rattle.frame_pool.specs.Frames.{overwritten, part_of};

use crate::bytes;
use crate::growing::grow;
use hm_base::NoMemory;
use std::alloc::Global;
use std::marker::Model;

/// So many bytes in a row, at first zeros. Their addresses are reserved at the start, and so no call runs out of
/// memory; the machine gives memory to a byte only once one at or past it was written.
#[derive(Drop)]
pub struct FrameBytes {
    size: usize,
    front: Vec<u8>,
}

impl Model for FrameBytes {
    ghost use Rattle.std.specs.Prelude.{ℕ, List, ◌≤◌, vec_len, vec_capacity};
    ghost use Rattle.frame_pool.specs.Frames.{padded};

    ghost Value = { List ℕ };

    ghost view = { λ b. padded b.front.items b.size };

    ghost invariant = { λ b. record { within : vec_len b.front ≤ b.size; kept : b.size ≤ vec_capacity b.front } };
}

impl FrameBytes {
    /// So many zeros.
    pub(crate) fn new(alloc: Global, size: usize) -> Result<FrameBytes, NoMemory>
        ensures { IfOk result (λ bytes. bytes ≡ replicate size 0) }
    {
        Ok(FrameBytes {
            size,
            front: Vec::with_capacity(alloc, size)?,
        })
    }

    /// Fills `into` with the bytes from `at` on.
    pub(crate) fn read(&self, at: usize, into: &mut [u8])
        requires { at + length into.old ≤ length self.now }
        ensures { into.new ≡ part_of self.now at (length into.old) }
    {
        bytes::read(&self.front, at, into);
    }

    /// Writes the bytes over those from `at` on.
    pub(crate) fn overwrite(&mut self, at: usize, from: &[u8])
        requires { at + length from.now ≤ length self.old }
        ensures { self.new ≡ overwritten self.old at from.now }
    {
        grow(&mut self.front, at + from.len(), 0);
        bytes::overwrite(&mut self.front, at, from);
    }

    /// Writes this many zeros over the bytes from `at` on.
    pub(crate) fn zero(&mut self, at: usize, count: usize)
        requires { at + count ≤ length self.old }
        ensures { self.new ≡ overwritten self.old at (replicate count 0) }
    {
        grow(&mut self.front, at + count, 0);
        bytes::overwrite_by_zeros(&mut self.front, at, count);
    }

    /// Copies this many bytes from `at` on over those from `to` on.
    pub(crate) fn copy(&mut self, at: usize, to: usize, count: usize)
        requires source { at + count ≤ length self.old }
        requires target { to + count ≤ length self.old }
        ensures { self.new ≡ overwritten self.old to (part_of self.old at count) }
    {
        grow(&mut self.front, at + count, 0);
        grow(&mut self.front, to + count, 0);
        bytes::copy(&mut self.front, at, to, count);
    }

    /// Copies this many bytes of another row from `at` on over those from `to` on.
    pub(crate) fn copy_from(&mut self, from: &FrameBytes, at: usize, to: usize, count: usize)
        requires source { at + count ≤ length from.now }
        requires target { to + count ≤ length self.old }
        ensures { self.new ≡ overwritten self.old to (part_of from.now at count) }
    {
        grow(&mut self.front, to + count, 0);
        bytes::read_over(&mut self.front, to, count, &from.front, at);
    }
}
