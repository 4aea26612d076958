// What a mirror is, and its table.
use hm_base::{Dev, Proc, Span};
use mirror_tables::MirrorTable;

/// Whether a mirror is attached, or its interval waits to leave, or it is gone for good.
#[derive(Clone, Copy)]
pub enum MirrorStage {
    Attached,
    Detaching,
    Gone,
}

/// A mirror of a window of a process's memory in a device (`struct dmirror` of lib/test_hmm.c).
#[derive(Clone, Copy)]
pub struct MirrorInfo {
    pub device: Dev,
    pub process: Proc,
    pub window: Span,
    pub stage: MirrorStage,
}

/// A mirror with its table, which is empty but while it is attached.
#[derive(Drop)]
pub struct Mirror {
    pub info: MirrorInfo,
    pub table: MirrorTable,
}
