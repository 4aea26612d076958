// A list of entries that grows, with room kept ahead.
ghost use Rattle.std.specs.Prelude.{◌≡◌, ℕ, ◌+◌, ◌-◌, ◌<◌, ◌≤◌, [], ◌∷◌, ◌++◌, length, OnOk, OnErr, IfOk};
ghost use Rattle.std.specs.Prelude.{option_copied, slice_get};
ghost use Rattle.hm_base.specs.declared.limits.TheConstants.{MOST_ENTRIES};

use crate::Entry;
use hm_base::NoMemory;
use std::alloc::Global;
use std::marker::Model;

/// The entries so far, at most 2,000,000, and the room that was reserved for more.
#[derive(Drop)]
pub struct History {
    entries: Vec<Entry>,
    room: u64,
}

impl Model for History {
    ghost use Rattle.std.specs.Prelude.{ℕ, ◌+◌, ◌-◌, ◌≤◌, vec_len, vec_capacity};
    ghost use Rattle.hm_history.specs.HistoryValue.{HistoryValue};

    ghost Value = { HistoryValue };

    ghost view = { λ h. record { entries = h.entries.items; spare = h.room } };

    ghost invariant = { λ h. h.room + vec_len h.entries ≤ vec_capacity h.entries };
}

impl History {
    /// No entries, without memory.
    pub fn new(alloc: Global) -> History
        ensures entries { result.entries ≡ [] }
        ensures spare { result.spare ≡ 0 }
    {
        History {
            entries: Vec::new(alloc),
            room: 0,
        }
    }

    /// How many entries there are.
    pub fn len(&self) -> u64
        ensures { result ≡ length self.now.entries }
    {
        self.entries.len() as u64
    }

    /// The entry at a position, counted from 0.
    pub fn get(&self, at: u64) -> Option<&Entry>
        ensures { option_copied result ≡ slice_get self.now.entries at }
    {
        self.entries.get(at as usize)
    }

    /// All entries, in order.
    pub fn as_slice(&self) -> &[Entry]
        ensures { result.now ≡ self.now.entries }
    {
        self.entries.as_slice()
    }

    /// Makes room for n entries; a failure leaves the room as it was.
    pub fn reserve(&mut self, n: u64) -> Result<(), NoMemory>
        ensures room { OnOk result (n ≤ self.new.spare) }
        ensures same { self.new.entries ≡ self.old.entries }
        ensures err { OnErr result (self.new ≡ self.old) }
    {
        if self.room < n {
            self.entries.try_reserve(n as usize)?;
            self.room = n;
        }
        Ok(())
    }

    /// Adds an entry for which there is room.
    pub fn push_reserved(&mut self, entry: Entry)
        requires room { 1 ≤ self.old.spare }
        requires limit { length self.old.entries < MOST_ENTRIES }
        ensures entries { self.new.entries ≡ self.old.entries ++ entry ∷ [] }
        ensures spare { self.new.spare ≡ self.old.spare - 1 }
    {
        self.room -= 1;
        match self.entries.push(entry) {
            Ok(_) => (),
            Err(_) => unreachable!(),
        }
    }
}
