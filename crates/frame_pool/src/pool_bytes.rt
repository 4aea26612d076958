// Bytes of the frames of a pool, and which parts of them may hold another byte than 0. A frame has zeros when it is
// taken, and most of it never gets anything else. So what holds zeros alone is neither cleared nor copied.
ghost use Rattle.std.specs.Prelude.{◌≡◌, ◌≢◌, ℕ, ◌+◌, ◌*◌, ◌%◌, ◌/◌, ◌≤◌, List, length, replicate, IfOk};
ghost use Rattle.frame_pool.specs.Frames.{overwritten, part_of, zero_frame};
ghost use Rattle.frame_pool.specs.Parts.{zero_part};

use crate::bytes::FRAME_BYTES;
use crate::frame_bytes::FrameBytes;
use crate::parts::{PART_BYTES, Parts};
use hm_base::NoMemory;
use std::alloc::Global;
use std::marker::Model;

/// Parts of a frame.
const PARTS: usize = FRAME_BYTES / PART_BYTES;

/// Bytes in a row, and the parts of 512 of them that may hold another byte than 0.
#[derive(Drop)]
pub struct PoolBytes {
    bytes: FrameBytes,
    parts: Parts,
}

impl Model for PoolBytes {
    ghost use Rattle.std.specs.Prelude.{ℕ, List};
    ghost use Rattle.frame_pool.specs.Parts.{AreParts};

    ghost Value = { List ℕ };

    ghost view = { λ b. b.bytes };

    ghost invariant = { λ b. AreParts b.bytes b.parts };
}

impl PoolBytes {
    /// So many zeros.
    pub(crate) fn new(alloc: Global, size: usize) -> Result<PoolBytes, NoMemory>
        ensures { IfOk result (λ bytes. bytes ≡ replicate size 0) }
    {
        Ok(PoolBytes {
            bytes: FrameBytes::new(alloc, size)?,
            parts: Parts::new(alloc, size)?,
        })
    }

    /// Fills `into` with the bytes from `at` on.
    pub(crate) fn read(&self, at: usize, into: &mut [u8])
        requires { at + length into.old ≤ length self.now }
        ensures { into.new ≡ part_of self.now at (length into.old) }
    {
        self.bytes.read(at, into);
    }

    /// Writes the bytes over those from `at` on.
    pub(crate) fn overwrite(&mut self, at: usize, from: &[u8])
        requires { at + length from.now ≤ length self.old }
        ensures { self.new ≡ overwritten self.old at from.now }
    {
        self.bytes.overwrite(at, from);
        self.parts.mark(at, from.len());
    }

    /// Writes zeros over the part that begins there, unless it has nothing else.
    fn zero_part(&mut self, at: usize)
        requires inside { at + 512 ≤ length self.old }
        requires part { at % 512 ≡ 0 }
        ensures { self.new ≡ overwritten self.old at zero_part }
    {
        if self.parts.has(at / PART_BYTES) {
            self.bytes.zero(at, PART_BYTES);
            self.parts.clear(at / PART_BYTES);
        }
    }

    /// Writes zeros over the frame that begins there.
    pub(crate) fn zero_frame(&mut self, at: usize)
        requires inside { at + 4096 ≤ length self.old }
        requires frame { at % 4096 ≡ 0 }
        ensures { self.new ≡ overwritten self.old at zero_frame }
    {
        for part in 0..PARTS {
            self.zero_part(at + part * PART_BYTES);
        }
    }

    /// Copies the part that begins at `at` over that at `to`.
    pub(crate) fn copy_part(&mut self, at: usize, to: usize)
        requires source { at + 512 ≤ length self.old }
        requires target { to + 512 ≤ length self.old }
        requires from { at % 512 ≡ 0 }
        requires over { to % 512 ≡ 0 }
        ensures { self.new ≡ overwritten self.old to (part_of self.old at 512) }
    {
        if self.parts.has(at / PART_BYTES) {
            self.bytes.copy(at, to, PART_BYTES);
            self.parts.mark(to, PART_BYTES);
        } else {
            self.zero_part(to);
        }
    }

    /// Copies the frame that begins at `at` over another one at `to`.
    pub(crate) fn copy_frame(&mut self, at: usize, to: usize)
        requires source { at + 4096 ≤ length self.old }
        requires target { to + 4096 ≤ length self.old }
        requires from { at % 4096 ≡ 0 }
        requires over { to % 4096 ≡ 0 }
        requires differ { at ≢ to }
        ensures { self.new ≡ overwritten self.old to (part_of self.old at 4096) }
    {
        for part in 0..PARTS {
            self.copy_part(at + part * PART_BYTES, to + part * PART_BYTES);
        }
    }

    /// Copies the part of another row that begins at `at` over that at `to`.
    pub(crate) fn copy_part_from(&mut self, from: &PoolBytes, at: usize, to: usize)
        requires source { at + 512 ≤ length from.now }
        requires target { to + 512 ≤ length self.old }
        requires from { at % 512 ≡ 0 }
        requires over { to % 512 ≡ 0 }
        ensures { self.new ≡ overwritten self.old to (part_of from.now at 512) }
    {
        if from.parts.has(at / PART_BYTES) {
            self.bytes.copy_from(&from.bytes, at, to, PART_BYTES);
            self.parts.mark(to, PART_BYTES);
        } else {
            self.zero_part(to);
        }
    }

    /// Copies the frame of another row that begins at `at` over that at `to`.
    pub(crate) fn copy_frame_from(&mut self, from: &PoolBytes, at: usize, to: usize)
        requires source { at + 4096 ≤ length from.now }
        requires target { to + 4096 ≤ length self.old }
        requires from { at % 4096 ≡ 0 }
        requires over { to % 4096 ≡ 0 }
        ensures { self.new ≡ overwritten self.old to (part_of from.now at 4096) }
    {
        for part in 0..PARTS {
            self.copy_part_from(from, at + part * PART_BYTES, to + part * PART_BYTES);
        }
    }
}
