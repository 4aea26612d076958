// Which entry stands for each address of a process.
ghost use Rattle.std.specs.Prelude.{◌≡◌, ◌==◌, ℕ, ◌+◌, ◌<◌, ◌≤◌, if◌then◌else◌, Option, None, Some, IfOk, OnOk};
ghost use Rattle.hm_why.specs.Changes.{entry_for, change_at, last_change, pending, IsSet, IsLast, IsFirst, IsCleared};
ghost use Rattle.hm_why.specs.Changes.{IsAhead};

use hm_base::NoMemory;
use std::alloc::Global;
use std::collections::BTreeMap;
use std::collections::btree_map::Range;

/// The positions of entries, by address. An address with a position says that the entry there stands from this address
/// on, up to the next address with one.
#[derive(Drop)]
pub struct Changes {
    points: BTreeMap<u64, Option<u64>>,
}

impl Changes {
    /// No entry stands anywhere. It takes no memory.
    pub fn new(alloc: Global) -> Changes
        ensures { (b : ℕ) → entry_for result b ≡ None }
    {
        Changes {
            points: BTreeMap::new(alloc),
        }
    }

    /// The last change at or before the address.
    fn last(&self, addr: u64) -> Option<(u64, Option<u64>)>
        ensures { IsLast self.now addr result }
    {
        match self.points.range(..=addr).next_back() {
            Some((from, at)) => Some((*from, *at)),
            None => None,
        }
    }

    /// The entry that stands for the address.
    pub fn get(&self, addr: u64) -> Option<u64>
        ensures { result ≡ entry_for self.now addr }
    {
        match self.last(addr) {
            Some((_, at)) => at,
            None => None,
        }
    }

    /// The changes from an address on and before an end, in their order.
    pub(crate) fn ahead(&self, from: u64, end: u64) -> Range<'_, u64, Option<u64>>
        requires { from ≤ end }
        ensures { IsAhead (change_at self.now) result from end }
    {
        self.points.range(from..end)
    }

    /// The first change from the address on.
    fn first(&self, from: u64) -> Option<(u64, Option<u64>)>
        ensures { IsFirst self.now from result }
    {
        match self.points.range(from..).next() {
            Some((found, at)) => Some((*found, *at)),
            None => None,
        }
    }

    /// Removes the changes from one address up to another.
    fn clear(&mut self, from: u64, to: u64)
        ensures { IsCleared self.old self.new from to }
    {
        let mut next = self.first(from);
        while let Some((found, _)) = next {
            if found >= to {
                return;
            }
            self.points.remove(&found);
            next = self.first(from);
        }
    }

    fn put(&mut self, addr: u64, at: Option<u64>) -> Result<(), NoMemory>
        ensures { OnOk result ((k : ℕ) → change_at self.new k ≡ (if k == addr then Some at else change_at self.old k)) }
    {
        match self.points.insert(addr, at) {
            Ok(_) => Ok(()),
            Err(_) => Err(NoMemory),
        }
    }

    /// This entry stands for the addresses from one up to another from now on.
    pub fn set(&mut self, from: u64, to: u64, at: u64) -> Result<(), NoMemory>
        requires { from < to }
        ensures { OnOk result (IsSet self.old self.new from to at) }
    {
        let behind = self.get(to);
        self.clear(from, to);
        self.put(to, behind)?;
        self.put(from, Some(at))
    }

    /// The same entries for another process.
    pub fn copy(&self) -> Result<Changes, NoMemory>
        ensures { IfOk result (λ copy. (b : ℕ) → entry_for copy b ≡ entry_for self.now b) }
    {
        Ok(Changes {
            points: self.points.clone()?,
        })
    }
}

/// Takes the next of the changes.
pub(crate) fn next_change(points: &mut Range<'_, u64, Option<u64>>) -> Option<(u64, Option<u64>)>
    ensures { points.old ≡ pending result points.new }
{
    match points.next() {
        Some((found, at)) => Some((*found, *at)),
        None => None,
    }
}

/// The entry that stands for an address, if that for the one before it is known, and the changes from it on.
pub(crate) fn entry_on(
    points: &mut Range<'_, u64, Option<u64>>,
    next: &mut Option<(u64, Option<u64>)>,
    addr: u64,
    before: Option<u64>,
) -> Option<u64>
    ensures entry { (f : ℕ → Option (Option ℕ)) (end : ℕ)
        → IsAhead f (pending next.old points.old) addr end → addr < end
        → (f addr ≡ None → last_change f addr ≡ before) → last_change f addr ≡ result }
    ensures ahead { (f : ℕ → Option (Option ℕ)) (end : ℕ) → IsAhead f (pending next.old points.old) addr end
        → IsAhead f (pending next.new points.new) (addr + 1) end }
{
    match *next {
        Some((at, entry)) if at == addr => {
            *next = next_change(points);
            entry
        }
        _ => before,
    }
}
