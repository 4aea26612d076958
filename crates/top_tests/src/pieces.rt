// A text of several pieces whose sink fails at one of them.
use crate::calls::{ALONE, WRITE_FAULT, ends_on};
use hm_io::MemorySink;
use hm_workers::Gate;
use std::alloc::Global;
use std::process::Abort;
use std::sync::Wait;
use std::thread::Threads;

/// What goes out at once, in bytes.
const PIECE: u64 = 4096;

/// Whether the call ends with a fault if the write after so many pieces fails, and just these went out.
pub fn fails_after<R: Abort + Threads + Wait + Sync, G: Gate + Sync>(
    rt: &R,
    alloc: Global,
    gate: Option<&G>,
    text: &[u8],
    pieces: u32,
) -> bool {
    let pieces = u64::from(pieces);
    let mut sink = MemorySink::new(alloc, 1_048_576, &[pieces + 1]).expect(rt, "memory");
    ends_on(rt, alloc, gate, "generate 7", text, &mut sink, WRITE_FAULT)
        && sink.held().len() as u64 == PIECE * pieces
}

/// Whether it does after each number of pieces up to 7.
fn fails_after_each<R: Abort + Threads + Wait + Sync>(rt: &R, alloc: Global) -> bool {
    for pieces in 0..8u32 {
        if !fails_after(rt, alloc, ALONE, b"", pieces) {
            return false;
        }
    }
    true
}

#[test]
fn each_piece_fails(rt: HostRuntime) {
    assert!(rt; fails_after_each(&rt, rt.alloc()));
}
