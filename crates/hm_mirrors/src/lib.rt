// The mirrors, each with its device, process and window, and the tables of their devices (`struct dmirror` of
// lib/test_hmm.c). It keeps step with a history, entry by entry.
#![tactic(auto)]

mod info;
mod mirrors;

pub use info::{MirrorInfo, MirrorStage};
pub use mirrors::Mirrors;
