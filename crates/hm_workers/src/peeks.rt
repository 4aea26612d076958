// What a watcher records.
ghost use Rattle.std.specs.Prelude.{◌≡◌, ◌-◌, length, option_copied, slice_get};
ghost use Rattle.hm_workers.specs.Peeking as spec;

use hm_base::{Bytes, ListOf, Proc};

/// Bytes of a process that were checked to be current after this many entries.
#[derive(Drop)]
pub struct Peek {
    pub proc: Proc,
    /// The address of the first byte.
    pub addr: u64,
    pub bytes: Bytes,
    /// How many entries the history had.
    pub count: u64,
}

/// Peeks, whose counts rise.
pub type PeekList = ListOf<Peek>;

// The last peek.
fn last(peeks: &[Peek]) -> Option<&Peek>
    ensures { option_copied result ≡ slice_get peeks.now (length peeks.now - 1) }
{
    peeks.get(peeks.len().saturating_sub(1))
}

/// Whether no peek has this count or a greater one.
pub(crate) fn is_newer(peeks: &PeekList, count: u64) -> bool
    ensures { result ≡ spec.is_newer peeks.now count }
{
    match last(peeks.as_slice()) {
        Some(peek) => peek.count < count,
        None => true,
    }
}
