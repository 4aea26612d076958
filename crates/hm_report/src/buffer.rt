// Bytes on their way to a sink.
ghost use Rattle.std.specs.Prelude.{◌≡◌, ◌+◌, ◌≤◌, ◌<◌, ◌∷◌, ◌++◌, [], length, take, drop, IfOk};
ghost use Rattle.std.specs.Fmt.{decimal};

use crate::digits::{put_at, put_bytes, put_digits};
use hm_base::NoMemory;
use std::alloc::Global;
use std::marker::Model;

/// How many bytes go out at once.
pub const PIECE: usize = 4096;

/// How many bytes a buffer holds: a piece, and what is formatted after it.
pub const ROOM: usize = 8192;

/// Bytes that wait until there is a piece of them, at the front of a block.
#[derive(Drop)]
pub struct Buffer {
    bytes: Vec<u8>,
    len: usize,
}

impl Model for Buffer {
    ghost use Rattle.std.specs.Prelude.{ℕ, List, ◌≡◌, ◌≤◌, length, take};

    ghost Value = { List ℕ };

    ghost view = { λ s. take s.len s.bytes.items };

    ghost invariant = { λ s. (length s.bytes.items ≡ 8192) × (s.len ≤ 8192) };
}

impl Buffer {
    pub fn new(alloc: Global) -> Result<Buffer, NoMemory>
        ensures { IfOk result (λ buffer. buffer ≡ []) }
    {
        Ok(Buffer {
            bytes: vec![in alloc; 0; ROOM]?,
            len: 0,
        })
    }

    /// Removes all bytes.
    pub fn clear(&mut self)
        ensures { self.new ≡ [] }
    {
        self.len = 0;
    }

    pub fn len(&self) -> usize
        ensures { result ≡ length self.now }
    {
        self.len
    }

    pub fn as_slice(&self) -> &[u8]
        ensures { result.now ≡ self.now }
    {
        &self.bytes[..self.len]
    }

    #[inline(always)]
    pub fn push(&mut self, byte: u8)
        requires { length self.old < ROOM }
        ensures { self.new ≡ self.old ++ byte ∷ [] }
    {
        self.bytes[self.len] = byte;
        self.len += 1;
    }

    #[inline(always)]
    pub fn put(&mut self, bytes: &[u8])
        requires { length self.old + length bytes.now ≤ ROOM }
        ensures { self.new ≡ self.old ++ bytes.now }
    {
        self.len = put_bytes(&mut self.bytes, self.len, bytes);
    }

    /// Adds the number's decimal digits.
    #[inline(always)]
    pub(crate) fn put_number(&mut self, number: u64)
        requires { length self.old + length (decimal number) ≤ ROOM }
        ensures { self.new ≡ self.old ++ decimal number }
    {
        self.len = put_digits(&mut self.bytes, self.len, number);
    }

    /// Adds a space and the number's decimal digits.
    #[inline(always)]
    #[tactic(auto, using(std::proofs::Common::append_assoc))]
    pub(crate) fn put_spaced(&mut self, number: u64)
        requires { length self.old + 1 + length (decimal number) ≤ ROOM }
        ensures { self.new ≡ self.old ++ 32 ∷ decimal number }
    {
        let end = put_at(&mut self.bytes, self.len, b' ');
        self.len = put_digits(&mut self.bytes, end, number);
    }

    /// Adds a space, a letter and the number's decimal digits.
    #[inline(always)]
    #[tactic(auto, using(std::proofs::Common::append_assoc))]
    pub(crate) fn put_lettered(&mut self, letter: u8, number: u64)
        requires { length self.old + 2 + length (decimal number) ≤ ROOM }
        ensures { self.new ≡ self.old ++ 32 ∷ letter ∷ decimal number }
    {
        let space = put_at(&mut self.bytes, self.len, b' ');
        let end = put_at(&mut self.bytes, space, letter);
        self.len = put_digits(&mut self.bytes, end, number);
    }

    /// The piece at the front.
    pub(crate) fn piece(&self) -> &[u8]
        requires { PIECE ≤ length self.now }
        ensures { result.now ≡ take 4096 self.now }
    {
        let (piece, _) = self.as_slice().split_at(PIECE);
        piece
    }

    /// Removes the piece at the front.
    pub(crate) fn remove_piece(&mut self)
        requires { PIECE ≤ length self.old }
        ensures { self.new ≡ drop PIECE self.old }
    {
        self.bytes.copy_within(PIECE..self.len, 0);
        self.len -= PIECE;
    }
}
