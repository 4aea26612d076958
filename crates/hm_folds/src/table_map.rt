// What a device keeps of a mirror's pages.
ghost use Rattle.std.specs.Prelude.{◌≡◌, ◌==◌, ◌&&◌, ℕ, ◌≤◌, ◌<◌, ◌^◌, nat_le, nat_lt, if◌then◌else◌, option_map, Some};
ghost use Rattle.std.specs.Prelude.{None, IfOk, OnOk, OnErr};
ghost use Rattle.hm_base.specs.declared.Frame.{Frame as AnyFrame};
ghost use Rattle.hm_folds.specs.TableMap.{dev_of, target_of, entry_in, entry_of, IsFirstEntry};

use hm_base::{Dev, Frame, NoMemory, PoolId};
use hm_history::TableRight;
use std::alloc::Global;
use std::collections::BTreeMap;

/// An entry of a mirror's table: the device of its frame, none for a frame of the system; the number of its frame, none
/// for the zero page; its right, and the position of its look-up's begin.
#[derive(Clone, Copy)]
pub struct KeptEntry {
    pub dev: Option<Dev>,
    pub number: Option<u32>,
    pub right: TableRight,
    pub since: u64,
}

/// The device of a frame; none for a frame of the system, and for the zero page.
pub(crate) fn dev_of(frame: &Option<Frame>) -> Option<Dev>
    ensures { result ≡ dev_of frame.now }
{
    match frame {
        None => None,
        Some(frame) => match frame.pool {
            PoolId::System => None,
            PoolId::Device(dev) => Some(dev),
        },
    }
}

/// The number of a frame; none for the zero page.
pub(crate) fn number_of(frame: &Option<Frame>) -> Option<u32>
    ensures { result ≡ option_map (λ (f : AnyFrame). f.number) frame.now }
{
    match frame {
        None => None,
        Some(frame) => Some(frame.number),
    }
}

impl KeptEntry {
    /// Its frame; none for the zero page.
    pub(crate) fn target(&self) -> Option<Frame>
        ensures { result ≡ target_of self.now.dev self.now.number }
    {
        match self.number {
            None => None,
            Some(number) => match self.dev {
                None => Some(Frame {
                    pool: PoolId::System,
                    number,
                }),
                Some(dev) => Some(Frame {
                    pool: PoolId::Device(dev),
                    number,
                }),
            },
        }
    }
}

/// The table of a mirror, by page.
#[derive(Drop)]
pub struct TableMap {
    entries: BTreeMap<u64, KeptEntry>,
}

impl TableMap {
    /// No entry. It takes no memory.
    pub(crate) fn new(alloc: Global) -> TableMap
        ensures { (v : ℕ) → entry_in result v ≡ None }
    {
        TableMap {
            entries: BTreeMap::new(alloc),
        }
    }

    /// The entry of a page.
    pub(crate) fn get(&self, page: u64) -> Option<KeptEntry>
        ensures { option_map entry_of result ≡ entry_in self.now page }
    {
        self.entries.get(&page).copied()
    }

    /// The page has this entry from now on; a failure changes nothing.
    pub(crate) fn set(
        &mut self,
        page: u64,
        dev: Option<Dev>,
        number: Option<u32>,
        right: TableRight,
        since: u64,
    ) -> Result<(), NoMemory>
        ensures ok { OnOk result
            ((v : ℕ) → entry_in self.new v
            ≡
            (if v == page then Some (record { target = target_of dev number; right = right; from = since })
            else entry_in self.old v)) }
        ensures err { OnErr result ((v : ℕ) → entry_in self.new v ≡ entry_in self.old v) }
    {
        let entry = KeptEntry {
            dev,
            number,
            right,
            since,
        };
        match self.entries.insert(page, entry) {
            Ok(_) => Ok(()),
            Err(_) => Err(NoMemory),
        }
    }

    /// The first page from there on that has an entry.
    pub(crate) fn first(&self, from: u64) -> Option<u64>
        ensures { IsFirstEntry (entry_in self.now) from result }
    {
        match self.entries.range(from..).next() {
            Some((page, _)) => Some(*page),
            None => None,
        }
    }

    fn erase_at(&mut self, page: u64)
        ensures { (v : ℕ) → entry_in self.new v ≡ (if v == page then None else entry_in self.old v) }
    {
        let _ = self.entries.remove(&page);
    }

    /// No page from there up to another has an entry.
    pub(crate) fn erase(&mut self, from: u64, end: u64)
        requires { from ≤ end }
        ensures { (v : ℕ)
            → entry_in self.new v ≡ (if nat_le from v && nat_lt v end then None else entry_in self.old v) }
    {
        let mut at = from;
        while let Some(next) = self.first(at) {
            if next >= end {
                return;
            }
            self.erase_at(next);
            at = next + 1;
        }
    }

    /// No page has an entry.
    pub(crate) fn erase_all(&mut self)
        ensures { (v : ℕ) → entry_in self.new v ≡ None }
    {
        self.entries.clear();
    }
}
