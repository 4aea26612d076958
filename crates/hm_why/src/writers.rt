// The sources of all bytes of all processes, entry by entry.
ghost use Rattle.std.specs.Prelude.{◌≡◌, ℕ, ◌<◌, ◌≤◌, true, false, Some, length, slice_get, IfOk, OnOk};
ghost use Rattle.hm_why.specs.Sources.{process_of};
ghost use Rattle.hm_why.specs.Changes.{entry_for};
ghost use Rattle.hm_why.specs.Writers.{owner_in, source_in, process_in, IsSized, IsFresh, IsWritten, IsCopied, IsNoted};
ghost use Rattle.hm_why.specs.Writers.{IsAlone, IsFree, IsPut, IsOwn};

use crate::changes::Changes;
use hm_base::{MOST_MIRRORS, MOST_PROCESSES, NoMemory, PAGE_BYTES, Proc};
use hm_history::{Kind, Who};
use std::alloc::Global;

const MIRRORS: usize = MOST_MIRRORS as usize;

const PROCESSES: usize = MOST_PROCESSES as usize;

/// The source of each byte of each process after some entries, and the process of each mirror. Processes share their
/// changes from a fork on, until one of them writes: `slots` says for each process where its changes stand.
#[derive(Drop)]
pub struct Writers {
    owners: [Option<Proc>; MIRRORS],
    slots: [usize; PROCESSES],
    changes: Vec<Changes>,
}

impl Writers {
    /// Before the first entry.
    pub(crate) fn new(alloc: Global) -> Result<Writers, NoMemory>
        ensures sized { IfOk result IsSized }
        ensures fresh { IfOk result IsFresh }
    {
        let mut changes = Vec::with_capacity(alloc, PROCESSES)?;
        changes.push(Changes::new(alloc))?;
        Ok(Writers {
            owners: [None; MIRRORS],
            slots: [0; PROCESSES],
            changes,
        })
    }

    /// The process whose memory an access is of; process 0 for a mirror that was never attached.
    pub(crate) fn process(&self, who: Who) -> Proc
        requires { IsSized self.now }
        ensures { result ≡ process_in self.now who }
    {
        match self.owner(who) {
            Some(proc) => proc,
            None => Proc::new(0),
        }
    }

    fn owner(&self, who: Who) -> Option<Proc>
        requires { IsSized self.now }
        ensures { result ≡ process_of (owner_in self.now) who }
    {
        match who {
            Who::Cpu(proc) => Some(proc),
            Who::Mirror(mirror) => self.owners[mirror.number() as usize],
        }
    }

    /// The position of the entry that a byte of the process came from.
    pub(crate) fn source(&self, proc: Proc, addr: u64) -> Option<u64>
        requires { IsSized self.now }
        ensures { result ≡ source_in self.now proc addr }
    {
        self.changes[self.slots[proc.number() as usize]].get(addr)
    }

    /// The changes of a process.
    pub(crate) fn changes_of(&self, proc: Proc) -> &Changes
        requires { IsSized self.now }
        ensures { (b : ℕ) → source_in self.now proc b ≡ entry_for result.now b }
    {
        &self.changes[self.slots[proc.number() as usize]]
    }

    /// The entry wrote this many bytes of the process, if there is one.
    fn write(&mut self, proc: Option<Proc>, addr: u64, len: u64, at: u64) -> Result<(), NoMemory>
        requires { IsSized self.old }
        ensures { OnOk result (IsWritten self.old self.new proc addr len at) }
    {
        let end = addr.saturating_add(len);
        match proc {
            Some(proc) if addr < end => {
                let own = self.own(proc)?;
                self.changes[own].set(addr, end, at)
            }
            _ => Ok(()),
        }
    }

    /// Where the changes of the process stand, which are no other's: those that it shares are copied now.
    fn own(&mut self, proc: Proc) -> Result<usize, NoMemory>
        requires { IsSized self.old }
        ensures own { OnOk result (IsOwn self.old self.new proc) }
        ensures place { IfOk result (λ own. slice_get self.new.slots proc ≡ Some own) }
    {
        let index = proc.number() as usize;
        let shared = self.slots[index];
        if is_alone(&self.slots, index) {
            return Ok(shared);
        }
        let copy = self.changes[shared].copy()?;
        let own = free_place(&self.slots, self.changes.len());
        put_at(&mut self.changes, own, copy)?;
        self.slots[index] = own;
        Ok(own)
    }

    /// The child shares what its parent has.
    fn share(&mut self, parent: Proc, child: Proc)
        requires { IsSized self.old }
        ensures { IsCopied self.old self.new parent child }
    {
        self.slots[child.number() as usize] = self.slots[parent.number() as usize];
    }

    /// The entry at this position comes next. Where memory runs out, some of what was kept may be lost.
    pub(crate) fn note(&mut self, at: u64, kind: &Kind) -> Result<(), NoMemory>
        requires { IsSized self.old }
        ensures { OnOk result (IsNoted self.old self.new at kind.now) }
    {
        match kind {
            Kind::Stored { who, addr, bytes } => {
                let proc = self.owner(*who);
                self.write(proc, *addr, bytes.len(), at)
            }
            Kind::Added { mirror, addr, .. } => {
                let proc = self.owner(Who::Mirror(*mirror));
                self.write(proc, *addr, 1, at)
            }
            Kind::Mapped { proc, span, .. } => {
                let first = span.first().number() * PAGE_BYTES;
                self.write(Some(*proc), first, span.count() * PAGE_BYTES, at)
            }
            Kind::Forked { parent, child } => {
                self.share(*parent, *child);
                Ok(())
            }
            Kind::Attached { mirror, proc, .. } => {
                self.owners[mirror.number() as usize] = Some(*proc);
                Ok(())
            }
            _ => Ok(()),
        }
    }
}

/// Whether no other process has its changes where this one has them.
fn is_alone(slots: &[usize], index: usize) -> bool
    requires { index < length slots.now }
    ensures { result ≡ true → IsAlone slots.now index }
{
    let place = slots[index];
    for other in 0..slots.len() {
        if other != index && slots[other] == place {
            return false;
        }
    }
    true
}

/// Whether some process has its changes at this place.
fn has_user(slots: &[usize], place: usize) -> bool
    ensures { result ≡ false → IsFree slots.now place }
{
    for slot in slots {
        if *slot == place {
            return true;
        }
    }
    false
}

/// The first place where no process has its changes, `count` if there is none below it.
fn free_place(slots: &[usize], count: usize) -> usize
    requires { (k s : ℕ) → slice_get slots.now k ≡ Some s → s < count }
    ensures below { result ≤ count }
    ensures free { IsFree slots.now result }
{
    for place in 0..count {
        if !has_user(slots, place) {
            return place;
        }
    }
    count
}

/// Puts changes at a place, or at the end.
fn put_at(changes: &mut Vec<Changes>, place: usize, new: Changes) -> Result<(), NoMemory>
    requires { place ≤ length changes.old.items }
    ensures { OnOk result (IsPut changes.old.items changes.new.items place new) }
{
    if place == changes.len() {
        changes.push(new)?;
    } else {
        changes[place] = new;
    }
    Ok(())
}
