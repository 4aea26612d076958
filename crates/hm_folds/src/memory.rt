// The bytes that each process has written.
ghost use Rattle.std.specs.Prelude.{◌≡◌, ℕ, ◌<◌, ◌^◌, ◌+◌, ◌≤◌, true, length, IfOk, OnOk, OnErr};
ghost use Rattle.hm_base.specs.Pages.{IsSpan};
ghost use Rattle.hm_history.specs.Memory.Words.{with_at};
ghost use Rattle.hm_history.specs.Memory.Plain.{with_bytes, with_zeros};
ghost use Rattle.hm_folds.specs.Memory.{bytes_of};

use crate::stored::Stored;
use hm_base::{NoMemory, Proc, Span};
use std::alloc::Global;

/// The bytes of the 32 processes.
#[derive(Drop)]
pub struct Memory {
    processes: Vec<Stored>,
    ghost sized: { length processes.items ≡ 32 },
}

impl Memory {
    /// All bytes of all processes are zeros.
    pub fn new(alloc: Global) -> Result<Memory, NoMemory>
        ensures { IfOk result (λ x. (p a : ℕ) → bytes_of x.processes.items p a ≡ 0) }
    {
        let mut processes = Vec::with_capacity(alloc, 32)?;
        for _ in 0..32u32 {
            processes.push(Stored::new(alloc))?;
        }
        Ok(Memory { processes })
    }

    /// The byte of the process at an address.
    pub fn byte(&self, proc: Proc, addr: u64) -> u8
        ensures { result ≡ bytes_of self.now.processes.items proc addr }
    {
        self.processes[proc.number() as usize].byte(addr)
    }

    /// Writes bytes of the process; a failure changes none.
    pub fn write(&mut self, proc: Proc, addr: u64, bytes: &[u8]) -> Result<(), NoMemory>
        requires { addr < 2 ^ 48 }
        ensures ok { OnOk result
            (bytes_of self.new.processes.items
            ≡ with_at (bytes_of self.old.processes.items) proc
            (with_bytes (bytes_of self.old.processes.items proc) addr bytes.now)) }
        ensures err { OnErr result (bytes_of self.new.processes.items ≡ bytes_of self.old.processes.items) }
    {
        let of_process = &mut self.processes[proc.number() as usize];
        of_process.write(addr, bytes)
    }

    /// The bytes of a span are zeros.
    pub fn clear(&mut self, proc: Proc, span: Span)
        ensures { bytes_of self.new.processes.items
            ≡ with_at (bytes_of self.old.processes.items) proc
            (with_zeros (bytes_of self.old.processes.items proc) span) }
    {
        let from = span.first().number() * 4096;
        let of_process = &mut self.processes[proc.number() as usize];
        of_process.clear(from, from + span.count() * 4096);
    }

    /// Whether both have the same bytes. It may say no though they have.
    pub fn same(&self, other: &Memory) -> bool
        ensures { result ≡ true
            → (p a : ℕ) → bytes_of self.now.processes.items p a ≡ bytes_of other.now.processes.items p a }
    {
        for proc in 0..32usize {
            if !self.processes[proc].same(&other.processes[proc]) {
                return false;
            }
        }
        true
    }

    /// The child has the bytes of its parent; a failure changes none.
    pub fn fork(&mut self, parent: Proc, child: Proc) -> Result<(), NoMemory>
        ensures ok { OnOk result
            (bytes_of self.new.processes.items
            ≡ with_at (bytes_of self.old.processes.items) child (bytes_of self.old.processes.items parent)) }
        ensures err { OnErr result (bytes_of self.new.processes.items ≡ bytes_of self.old.processes.items) }
    {
        let of_child = self.processes[parent.number() as usize].copy()?;
        self.processes[child.number() as usize] = of_child;
        Ok(())
    }
}
