// The bytes of an access. A few stand where the value itself stands, more in memory of their own.
ghost use Rattle.std.specs.Prelude.{◌≡◌, ◌<◌, ◌≤◌, [], ◌∷◌, ◌++◌, length, OnOk, OnErr, IfOk};
ghost use Rattle.std.specs.Prelude.{MatchOption, MatchResult, nat_lt, option_copied, slice_get};
ghost use Rattle.hm_base.specs.Stored.{bytes_in};

use crate::NoMemory;
use std::alloc::Global;
use std::marker::Model;

/// How many bytes stand where the value stands.
const SHORT: usize = 14;

/// A few bytes, which are the first `len` items.
#[derive(Drop)]
struct Few {
    len: u8,
    items: [u8; SHORT],
}

impl Model for Few {
    ghost use Rattle.std.specs.Prelude.{List, ℕ, ◌≡◌, ◌≤◌, length, take};

    ghost Value = { List ℕ };

    ghost view = { λ f. take f.len f.items };

    ghost invariant = { λ f. (length f.items ≡ 14) × (f.len ≤ 14) };
}

impl Few {
    fn none() -> Few
        ensures { result ≡ [] }
    {
        Few {
            len: 0,
            items: [0; SHORT],
        }
    }

    fn of(from: &[u8]) -> Few
        requires { length from.now ≤ 14 }
        ensures { result ≡ from.now }
    {
        let mut few = Few::none();
        for byte in from {
            few.push(*byte);
        }
        few
    }

    #[inline(always)]
    fn as_slice(&self) -> &[u8]
        ensures { result.now ≡ self.now }
    {
        &self.items[..usize::from(self.len)]
    }

    fn has_room(&self) -> bool
        ensures { result ≡ nat_lt (length self.now) 14 }
    {
        usize::from(self.len) < SHORT
    }

    #[inline(always)]
    fn push(&mut self, byte: u8)
        requires { length self.old < 14 }
        ensures { self.new ≡ self.old ++ byte ∷ [] }
    {
        self.items[usize::from(self.len)] = byte;
        self.len += 1;
    }
}

/// Where bytes are.
#[derive(Drop)]
enum Store {
    Short(Few),
    Long(Box<Vec<u8>>),
}

/// Adds a byte at the end of a few. If there is no room for it, the answer is what takes their place.
fn pushed_short(alloc: Global, few: &mut Few, byte: u8) -> Result<Option<Store>, NoMemory>
    ensures { MatchResult result
        (λ o. MatchOption o (few.new ≡ few.old ++ byte ∷ []) (λ s. bytes_in s ≡ few.old ++ byte ∷ []))
        (λ _. few.new ≡ few.old) }
{
    if few.has_room() {
        few.push(byte);
        return Ok(None);
    }
    let mut items = Vec::from_slice(alloc, few.as_slice())?;
    items.push(byte)?;
    Ok(Some(long(alloc, items)?))
}

fn pushed_long(items: &mut Vec<u8>, byte: u8) -> Result<(), NoMemory>
    ensures ok { OnOk result (items.new.items ≡ items.old.items ++ byte ∷ []) }
    ensures err { OnErr result (items.new.items ≡ items.old.items) }
{
    items.push(byte)?;
    Ok(())
}

/// Adds a byte at the end. If there is no room for it, the answer is what takes the store's place.
fn pushed(alloc: Global, store: &mut Store, byte: u8) -> Result<Option<Store>, NoMemory>
    ensures { MatchResult result
        (λ o. MatchOption o (bytes_in store.new ≡ bytes_in store.old ++ byte ∷ [])
        (λ s. bytes_in s ≡ bytes_in store.old ++ byte ∷ []))
        (λ _. bytes_in store.new ≡ bytes_in store.old) }
{
    match store {
        Store::Short(few) => pushed_short(alloc, few, byte),
        Store::Long(items) => {
            pushed_long(items, byte)?;
            Ok(None)
        }
    }
}

fn long(alloc: Global, items: Vec<u8>) -> Result<Store, NoMemory>
    ensures { IfOk result (λ s. bytes_in s ≡ items.items) }
{
    Ok(Store::Long(Box::new(alloc, items)?))
}

/// Bytes. Up to 14 take no memory of their own, so that entries of short accesses lie side by side.
#[derive(Drop)]
pub struct Bytes {
    store: Store,
    alloc: Global,
}

impl Model for Bytes {
    ghost use Rattle.std.specs.Prelude.{List, ℕ};
    ghost use Rattle.hm_base.specs.Stored.{bytes_in};

    ghost Value = { List ℕ };

    ghost view = { λ s. bytes_in s.store };
}

impl Bytes {
    /// No bytes, without memory.
    pub fn new(alloc: Global) -> Bytes
        ensures { result ≡ [] }
    {
        Bytes {
            store: Store::Short(Few::none()),
            alloc,
        }
    }

    /// A copy of the bytes.
    pub fn from_slice(alloc: Global, from: &[u8]) -> Result<Bytes, NoMemory>
        ensures { IfOk result (λ bytes. bytes ≡ from.now) }
    {
        let store = if from.len() <= SHORT {
            Store::Short(Few::of(from))
        } else {
            long(alloc, Vec::from_slice(alloc, from)?)?
        };
        Ok(Bytes { store, alloc })
    }

    /// Adds a byte at the end.
    pub fn push(&mut self, byte: u8) -> Result<(), NoMemory>
        ensures ok { OnOk result (self.new ≡ self.old ++ byte ∷ []) }
        ensures err { OnErr result (self.new ≡ self.old) }
    {
        if let Some(store) = pushed(self.alloc, &mut self.store, byte)? {
            self.store = store;
        }
        Ok(())
    }

    /// How many bytes there are.
    pub fn len(&self) -> u64
        ensures { result ≡ length self.now }
    {
        self.as_slice().len() as u64
    }

    /// The byte at a place, counted from 0.
    pub fn get(&self, at: u64) -> Option<&u8>
        ensures { option_copied result ≡ slice_get self.now at }
    {
        self.as_slice().get(at as usize)
    }

    /// All bytes, in order.
    #[inline(always)]
    pub fn as_slice(&self) -> &[u8]
        ensures { result.now ≡ self.now }
    {
        match &self.store {
            Store::Short(few) => few.as_slice(),
            Store::Long(items) => items.as_slice(),
        }
    }
}
