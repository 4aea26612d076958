// The bytes that a process has written.
ghost use Rattle.std.specs.Prelude.{◌≡◌, ◌==◌, ◌&&◌, ℕ, ◌+◌, ◌≤◌, ◌<◌, ◌^◌, nat_le, nat_lt, true, if◌then◌else◌};
ghost use Rattle.std.specs.Prelude.{is_some, length, IfOk, OnOk, OnErr};
ghost use Rattle.hm_history.specs.Memory.Plain.{with_bytes};
ghost use Rattle.hm_folds.specs.Stored.{byte_in, has_byte, IsFirst};

use hm_base::NoMemory;
use std::alloc::Global;
use std::collections::BTreeMap;

/// Bytes by address; each that is not there is zero.
#[derive(Drop)]
pub struct Stored {
    bytes: BTreeMap<u64, u8>,
}

impl Stored {
    /// All bytes are zero. It takes no memory.
    pub(crate) fn new(alloc: Global) -> Stored
        ensures { (a : ℕ) → byte_in result a ≡ 0 }
    {
        Stored {
            bytes: BTreeMap::new(alloc),
        }
    }

    /// The byte at an address.
    pub(crate) fn byte(&self, addr: u64) -> u8
        ensures { result ≡ byte_in self.now addr }
    {
        match self.bytes.get(&addr) {
            Some(byte) => *byte,
            None => 0,
        }
    }

    /// Makes room for one byte, and changes none.
    fn make_place(&mut self, addr: u64) -> Result<(), NoMemory>
        ensures same { (a : ℕ) → byte_in self.new a ≡ byte_in self.old a }
        ensures there { OnOk result (has_byte self.new addr ≡ true) }
        ensures kept { (a : ℕ) → has_byte self.old a ≡ true → has_byte self.new a ≡ true }
    {
        if self.bytes.contains_key(&addr) {
            return Ok(());
        }
        match self.bytes.insert(addr, 0) {
            Ok(_) => Ok(()),
            Err(_) => Err(NoMemory),
        }
    }

    /// Makes room for `count` bytes, and changes none.
    fn make_room(&mut self, addr: u64, count: u64) -> Result<(), NoMemory>
        requires { addr + count < 2 ^ 64 }
        ensures same { (a : ℕ) → byte_in self.new a ≡ byte_in self.old a }
        ensures there { OnOk result ((k : ℕ) → k < count → has_byte self.new (addr + k) ≡ true) }
    {
        for number in 0..count {
            self.make_place(addr + number)?;
        }
        Ok(())
    }

    /// Writes a byte for which there is room.
    fn put(&mut self, addr: u64, byte: u8)
        requires { has_byte self.old addr ≡ true }
        ensures bytes { (a : ℕ) → byte_in self.new a ≡ (if a == addr then byte else byte_in self.old a) }
        ensures kept { (a : ℕ) → has_byte self.new a ≡ has_byte self.old a }
    {
        match self.bytes.insert(addr, byte) {
            Ok(_) => (),
            Err(_) => unreachable!(),
        }
    }

    /// Writes bytes from an address on; a failure changes none.
    pub(crate) fn write(&mut self, addr: u64, bytes: &[u8]) -> Result<(), NoMemory>
        requires { addr < 2 ^ 48 }
        ensures ok { OnOk result ((a : ℕ) → byte_in self.new a ≡ with_bytes (byte_in self.old) addr bytes.now a) }
        ensures err { OnErr result ((a : ℕ) → byte_in self.new a ≡ byte_in self.old a) }
    {
        self.make_room(addr, bytes.len() as u64)?;
        for number in 0..bytes.len() {
            self.put(addr + number as u64, bytes[number]);
        }
        Ok(())
    }

    /// The first address from there on that has a place.
    fn first(&self, from: u64) -> Option<u64>
        ensures { IsFirst self.now from result }
    {
        match self.bytes.range(from..).next() {
            Some((addr, _)) => Some(*addr),
            None => None,
        }
    }

    fn clear_at(&mut self, addr: u64)
        ensures { (a : ℕ) → byte_in self.new a ≡ (if a == addr then 0 else byte_in self.old a) }
    {
        let _ = self.bytes.remove(&addr);
    }

    /// The bytes from an address up to another are zeros.
    pub(crate) fn clear(&mut self, from: u64, end: u64)
        requires { from ≤ end }
        ensures { (a : ℕ)
            → byte_in self.new a ≡ (if nat_le from a && nat_lt a end then 0 else byte_in self.old a) }
    {
        let mut at = from;
        while let Some(next) = self.first(at) {
            if next >= end {
                return;
            }
            self.clear_at(next);
            at = next + 1;
        }
    }

    /// Whether both have the same bytes. It may say no though they have.
    pub(crate) fn same(&self, other: &Stored) -> bool
        ensures { result ≡ true → (a : ℕ) → byte_in self.now a ≡ byte_in other.now a }
    {
        self.bytes == other.bytes
    }

    /// The same bytes once more.
    pub(crate) fn copy(&self) -> Result<Stored, NoMemory>
        ensures { IfOk result (λ x. (a : ℕ) → byte_in x a ≡ byte_in self.now a) }
    {
        let bytes = self.bytes.clone()?;
        Ok(Stored { bytes })
    }
}
