// What a write of a text comes to.

/// All of it went out, or a front of it before the sink failed, or before memory was wanted.
#[derive(Clone, Copy)]
pub enum Written {
    Done,
    Fault,
    NoMemory,
}
