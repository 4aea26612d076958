// The mmap lock that an actor holds.
use hm_base::Proc;

/// Of which process an actor holds the mmap lock, and whether for writing.
#[derive(Clone, Copy, PartialEq, Eq)]
pub struct MapLock {
    pub proc: Proc,
    pub writes: bool,
}
