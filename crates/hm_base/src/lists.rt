// Lists that contracts see as lists. `new` takes no memory, `push` adds one item at the end, `len` and `get` read.
ghost use Rattle.std.specs.Prelude.{◌≡◌, ◌<◌, [], ◌∷◌, ◌++◌, length, OnOk, OnErr, IfOk, option_copied, slice_get};

use crate::NoMemory;
use crate::ops::{Op, ScheduleLine};
use std::alloc::Global;
use std::marker::Model;

/// A text, as its bytes.
pub type Text = ListOf<u8>;

/// The operations of one actor, in their order.
pub type OpList = ListOf<Op>;

/// The operations of each actor.
pub type ActorLists = ListOf<OpList>;

/// The lines of a schedule.
pub type Schedule = ListOf<ScheduleLine>;

/// How many frames each device has.
pub type DeviceList = ListOf<u32>;

/// A word for each operation of an actor.
pub type MaskList = ListOf<u64>;

/// A word for each operation of each actor.
pub type Masks = ListOf<MaskList>;

/// A list of items that grows at its end.
#[derive(Drop)]
pub struct ListOf<T: Drop> {
    items: Vec<T>,
}

impl<T: Drop> Model for ListOf<T> {
    ghost use Rattle.std.specs.Prelude.{List};

    ghost Value = { List T };

    ghost view = { λ s. s.items.items };
}

impl<T: Drop> ListOf<T> {
    /// An empty list, without memory.
    pub fn new(alloc: Global) -> ListOf<T>
        ensures { result ≡ [] }
    {
        ListOf {
            items: Vec::new(alloc),
        }
    }

    /// Adds an item at the end.
    pub fn push(&mut self, item: T) -> Result<(), NoMemory>
        ensures ok { OnOk result (self.new ≡ self.old ++ item ∷ []) }
        ensures err { OnErr result (self.new ≡ self.old) }
    {
        self.items.push(item)?;
        Ok(())
    }

    /// How many items there are.
    pub fn len(&self) -> u64
        ensures { result ≡ length self.now }
    {
        self.items.len() as u64
    }

    /// The item at a place, counted from 0.
    pub fn get(&self, at: u64) -> Option<&T>
        ensures { option_copied result ≡ slice_get self.now at }
    {
        self.items.get(at as usize)
    }

    /// All items, in order.
    pub fn as_slice(&self) -> &[T]
        ensures { result.now ≡ self.now }
    {
        self.items.as_slice()
    }
}

impl ListOf<u8> {
    /// A copy of the bytes.
    pub fn from_slice(alloc: Global, from: &[u8]) -> Result<ListOf<u8>, NoMemory>
        ensures { IfOk result (λ bytes. bytes ≡ from.now) }
    {
        Ok(ListOf {
            items: Vec::from_slice(alloc, from)?,
        })
    }

    /// Adds these bytes at the end.
    pub fn extend(&mut self, from: &[u8]) -> Result<(), NoMemory>
        ensures ok { OnOk result (self.new ≡ self.old ++ from.now) }
        ensures err { OnErr result (self.new ≡ self.old) }
    {
        self.items.extend_from_slice(from)?;
        Ok(())
    }
}

impl ListOf<ListOf<Op>> {
    ghost use Rattle.hm_base.specs.Program.{add_to_last, add_to_list};

    /// Adds an operation at the end of the last list.
    pub fn push_to_last(&mut self, op: Op) -> Result<(), NoMemory>
        requires { 0 < length self.old }
        ensures ok { OnOk result (self.new ≡ add_to_last self.old op) }
        ensures err { OnErr result (self.new ≡ self.old) }
    {
        let last = self.items.len() - 1;
        let list = &mut self.items[last];
        list.push(op)
    }

    /// Adds an operation at the end of the list at this place, counted from 0.
    pub fn push_to(&mut self, at: u64, op: Op) -> Result<(), NoMemory>
        requires { at < length self.old }
        ensures ok { OnOk result (self.new ≡ add_to_list self.old at op) }
        ensures err { OnErr result (self.new ≡ self.old) }
    {
        let list = &mut self.items[at as usize];
        list.push(op)
    }
}
