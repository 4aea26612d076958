// An entry of a mirror's table.
use hm_base::Frame;

/// What an entry names (`dmirror_do_fault` of lib/test_hmm.c).
#[derive(Clone, Copy, PartialEq, Eq)]
pub enum Target {
    /// The shared zero page.
    Zero,
    /// A frame.
    At(Frame),
    /// The system frame of this number, which one actor has alone (`make_device_exclusive_range` of
    /// mm/rmap.c).
    Sole(u32),
}

/// An entry; `from` is the position in the history from which on nothing may have told the mirror.
#[derive(Clone, Copy, PartialEq, Eq)]
pub struct MirrorEntry {
    pub target: Target,
    pub writable: bool,
    pub from: u64,
}
