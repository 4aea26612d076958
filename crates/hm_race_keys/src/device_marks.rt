// Which devices are withdrawn or removed.
ghost use Rattle.std.specs.Prelude.{◌≡◌, ℕ, true, false};
ghost use Rattle.hm_history.specs.Memory.Places.{places_start, is_withdrawn};
ghost use Rattle.hm_race_keys.specs.Arrays.{flag_in, mixed_flags};
ghost use Rattle.hm_race_keys.specs.Trail.{withdrawn_next, removed_next};

use crate::sparse::mixed;
use hm_base::PoolId;
use hm_history::Kind;

/// The devices that are withdrawn, and those that are removed.
#[derive(Clone, Copy)]
pub struct DeviceMarks {
    pub withdrawn: [bool; 4],
    pub removed: [bool; 4],
}

fn mixed_flags(sum: u64, flags: &[bool]) -> u64
    ensures { result ≡ mixed_flags sum flags.now }
{
    let mut total = sum;
    for flag in flags {
        total = mixed(total, u64::from(*flag));
    }
    total
}

fn same_flags(one: &[bool; 4], other: &[bool; 4]) -> bool
    ensures yes { result ≡ true → (d : ℕ) → flag_in one.now d ≡ flag_in other.now d }
    ensures no { ((d : ℕ) → flag_in one.now d ≡ flag_in other.now d) → result ≡ true }
{
    for at in 0..4usize {
        if one[at] != other[at] {
            return false;
        }
    }
    true
}

impl DeviceMarks {
    /// None.
    pub fn new() -> DeviceMarks
        ensures withdrawn { (d : ℕ) → flag_in result.withdrawn d ≡ false }
        ensures removed { (d : ℕ) → flag_in result.removed d ≡ false }
    {
        DeviceMarks {
            withdrawn: [false; 4],
            removed: [false; 4],
        }
    }

    /// The devices after an entry.
    pub fn step(&mut self, kind: &Kind)
        ensures withdrawn { flag_in self.new.withdrawn ≡ withdrawn_next (flag_in self.old.withdrawn) kind.now }
        ensures removed { flag_in self.new.removed ≡ removed_next (flag_in self.old.removed) kind.now }
    {
        match kind {
            Kind::Withdrawn(dev) => self.withdrawn[dev.number() as usize] = true,
            Kind::Removed(dev) => self.removed[dev.number() as usize] = true,
            _ => {}
        }
    }

    /// Whether no more frames are taken from the pool.
    pub fn is_withdrawn(&self, pool: &PoolId) -> bool
        ensures { result ≡ is_withdrawn (record places_start { withdrawn = flag_in self.now.withdrawn }) pool.now }
    {
        match pool {
            PoolId::System => false,
            PoolId::Device(dev) => self.withdrawn[dev.number() as usize],
        }
    }

    /// Whether both have the same devices.
    pub fn same(&self, other: &DeviceMarks) -> bool
        ensures withdrawn { result ≡ true
            → (d : ℕ) → flag_in self.now.withdrawn d ≡ flag_in other.now.withdrawn d }
        ensures removed { result ≡ true → (d : ℕ) → flag_in self.now.removed d ≡ flag_in other.now.removed d }
        ensures no { ((d : ℕ) → flag_in self.now.withdrawn d ≡ flag_in other.now.withdrawn d)
            → ((d : ℕ) → flag_in self.now.removed d ≡ flag_in other.now.removed d)
            → result ≡ true }
    {
        same_flags(&self.withdrawn, &other.withdrawn) && same_flags(&self.removed, &other.removed)
    }

    /// A sum with the devices mixed in.
    pub fn bucket(&self, sum: u64) -> u64
        ensures { result ≡ mixed_flags (mixed_flags sum self.now.withdrawn) self.now.removed }
    {
        mixed_flags(mixed_flags(sum, &self.withdrawn), &self.removed)
    }
}
