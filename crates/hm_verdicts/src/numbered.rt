// Values by numbers.
ghost use Rattle.std.specs.Prelude.{◌≡◌, Some, None, OnOk, option_map};
ghost use Rattle.hm_history.specs.Memory.Words.{with_at};
ghost use Rattle.hm_verdicts.specs.Numbers.{values_in};

use hm_base::NoMemory;
use std::alloc::Global;
use std::collections::BTreeMap;

/// Some numbers have a value.
#[derive(Drop)]
pub struct Numbered<V: Drop> {
    values: BTreeMap<u64, V>,
}

impl<V: Drop> Numbered<V> {
    /// None has. It takes no memory.
    pub(crate) fn new(alloc: Global) -> Numbered<V>
        ensures { values_in result ≡ λ k. None }
    {
        Numbered {
            values: BTreeMap::new(alloc),
        }
    }

    /// The value of a number.
    pub(crate) fn get(&self, key: u64) -> Option<&V>
        ensures { option_map (λ v. v.now) result ≡ values_in self.now key }
    {
        self.values.get(&key)
    }

    /// The number has this value from now on.
    pub(crate) fn set(&mut self, key: u64, value: V) -> Result<(), NoMemory>
        ensures { OnOk result (values_in self.new ≡ with_at (values_in self.old) key (Some value)) }
    {
        match self.values.insert(key, value) {
            Ok(_) => Ok(()),
            Err(_) => Err(NoMemory),
        }
    }

    /// It has none from now on; what it had.
    pub(crate) fn take(&mut self, key: u64) -> Option<V>
        ensures had { result ≡ values_in self.old key }
        ensures none { values_in self.new ≡ with_at (values_in self.old) key None }
    {
        self.values.remove(&key)
    }

    /// It has this value from now on, or none.
    pub(crate) fn set_or_take(&mut self, key: u64, value: Option<V>) -> Result<(), NoMemory>
        ensures { OnOk result (values_in self.new ≡ with_at (values_in self.old) key value) }
    {
        match value {
            None => {
                let _ = self.take(key);
                Ok(())
            }
            Some(value) => self.set(key, value),
        }
    }
}
