// The bytes of the processes.
ghost use Rattle.std.specs.Prelude.{◌≡◌, ◌==◌, ◌&&◌, ◌*◌, ◌+◌, ◌-◌, ℕ, true, [], nat_le, nat_lt, length, slice_index};
ghost use Rattle.std.specs.Prelude.{is_some, if◌then◌else◌, IfOk, OnOk};
ghost use Rattle.hm_history.specs.Memory.Words.{with_at};
ghost use Rattle.hm_history.specs.Memory.Plain.{with_bytes, with_zeros};
ghost use Rattle.hm_laws.specs.Allowed.{InPage};
ghost use Rattle.hm_race_keys.specs.Sparse.{found, mixed_items};
ghost use Rattle.hm_race_states.specs.Bytes.{bytes_in, mixed_byte};

use hm_base::{NoMemory, Proc, Span};
use hm_race_keys::sparse::{Item, Kept, Sparse, mixed};
use std::alloc::Global;
use std::marker::Model;

/// A byte that a process has written, and that is not 0.
#[derive(Clone, Copy)]
pub struct Written {
    pub byte: u8,
}

impl Kept for Written {
    ghost mixed = { mixed_byte };

    fn is_same(&self, other: &Written) -> bool {
        self.byte == other.byte
    }

    fn mixed(&self, sum: u64) -> u64 {
        mixed(sum, u64::from(self.byte))
    }
}

/// The bytes of all processes, as those that are not 0.
#[derive(Drop)]
pub struct RaceBytes {
    items: Sparse<Written>,
}

impl Model for RaceBytes {
    ghost use Rattle.std.specs.Prelude.{List};
    ghost use Rattle.hm_race_keys.specs.declared.sparse.Item.{Item as AnyItem};
    ghost use Rattle.hm_race_states.specs.Bytes.{IsKept};
    ghost use Rattle.hm_race_states.specs.declared.memory.Written.{Written as AnyWritten};

    ghost Value = { List (AnyItem AnyWritten) };

    ghost view = { λ s. s.items };

    ghost invariant = { λ s. IsKept s.items };
}

impl RaceBytes {
    /// All bytes are 0. It takes no memory.
    pub fn new(alloc: Global) -> RaceBytes
        ensures { result ≡ [] }
    {
        RaceBytes {
            items: Sparse::new(alloc),
        }
    }

    /// The byte of a process at an address.
    pub fn byte(&self, proc: Proc, addr: u64) -> u8
        ensures { result ≡ bytes_in self.now proc addr }
    {
        match self.items.get(proc.number(), addr) {
            Some(written) => written.byte,
            None => 0,
        }
    }

    fn put(&mut self, proc: Proc, addr: u64, byte: u8) -> Result<(), NoMemory>
        ensures { OnOk result ((p a : ℕ)
            → bytes_in self.new p a ≡ (if (p == proc) && (a == addr) then byte else bytes_in self.old p a)) }
    {
        if byte == 0 {
            self.items.remove(proc.number(), addr);
            return Ok(());
        }
        self.items.set(proc.number(), addr, Written { byte })
    }

    /// Writes bytes of a process from an address on, in one page. It fails if memory runs out; then some may be
    /// written.
    pub fn write(&mut self, proc: Proc, addr: u64, bytes: &[u8]) -> Result<(), NoMemory>
        requires { InPage addr (length bytes.now) }
        ensures { OnOk result
            (bytes_in self.new
            ≡ with_at (bytes_in self.old) proc (with_bytes (bytes_in self.old proc) addr bytes.now)) }
    {
        for number in 0..bytes.len() {
            self.put(proc, addr + number as u64, bytes[number])?;
        }
        Ok(())
    }

    // All bytes of the process are 0.
    fn clear_all(&mut self, proc: Proc)
        ensures { (p a : ℕ) → bytes_in self.new p a ≡ (if p == proc then 0 else bytes_in self.old p a) }
    {
        self.items.remove_row(proc.number());
    }

    // Writes the bytes of one process, as they stand in these items, to another.
    fn put_row(&mut self, items: &[Item<Written>], from: Proc, to: Proc) -> Result<(), NoMemory>
        ensures { OnOk result ((p a : ℕ)
            → bytes_in self.new p a
            ≡ (if (p == to) && is_some (found items.now from a) then bytes_in items.now from a
            else bytes_in self.old p a)) }
    {
        for done in 0..items.len() {
            let item = &items[items.len() - 1 - done];
            if item.row == from.number() {
                self.put(to, item.number, item.value.byte)?;
            }
        }
        Ok(())
    }

    /// The child's bytes are the parent's. It fails if memory runs out; then some may be.
    pub fn fork(&mut self, alloc: Global, parent: Proc, child: Proc) -> Result<(), NoMemory>
        ensures { OnOk result
            (bytes_in self.new ≡ with_at (bytes_in self.old) child (bytes_in self.old parent)) }
    {
        let before = self.items.copy(alloc)?;
        self.clear_all(child);
        Ok(self.put_row(before.items(), parent, child)?)
    }

    /// The bytes of a span's pages are 0.
    pub fn clear(&mut self, proc: Proc, span: Span)
        ensures { bytes_in self.new
            ≡ with_at (bytes_in self.old) proc (with_zeros (bytes_in self.old proc) span) }
    {
        let from = span.first().number() * 4096;
        let end = from + span.count() * 4096;
        self.items.remove_span(proc.number(), from, end);
    }

    /// The same bytes, in memory of their own.
    pub fn copy(&self, alloc: Global) -> Result<RaceBytes, NoMemory>
        ensures { IfOk result (λ x. x ≡ self.now) }
    {
        Ok(RaceBytes {
            items: self.items.copy(alloc)?,
        })
    }

    /// Whether each process has the same bytes in both.
    pub fn same(&self, other: &RaceBytes) -> bool
        ensures yes { result ≡ true → self.now ≡ other.now }
        ensures no { ((p a : ℕ) → bytes_in self.now p a ≡ bytes_in other.now p a) → result ≡ true }
    {
        self.items.same(&other.items)
    }

    /// A sum with all bytes mixed in.
    pub fn bucket(&self, sum: u64) -> u64
        ensures { result ≡ mixed_items mixed_byte sum self.now }
    {
        self.items.bucket(sum)
    }
}
