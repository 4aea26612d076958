// `advise`: how often each page was accessed from either side, and which moves that suggests.
use crate::calls::{ALONE, DONE, writes};
use std::alloc::Global;
use std::process::Abort;
use std::sync::Wait;
use std::thread::Threads;

/// A page that the device alone loads, and one that the CPU loads five times for once.
const FIVE_LOADS: &str =
    "hmm 1\nframes 4\ndevice 0 4\nactor 0\nmap 0 16 2 rw\nattach 0 0 0 16 2\ndload 0 0x10000 1\ndload 0 0x10000 1\n\
    dload 0 0x10000 1\ndload 0 0x10000 1\nload 0 0x11000 1\nload 0 0x11000 1\nload 0 0x11000 1\nload 0 0x11000 1\n\
    load 0 0x11000 1\ndload 0 0x11000 1\nturns 0 99\n";

/// Five loads by the CPU.
const FIVE: &str =
    "load 0 0x11000 1\nload 0 0x11000 1\nload 0 0x11000 1\nload 0 0x11000 1\nload 0 0x11000 1\n";

/// Four of them.
const FOUR: &str = "load 0 0x11000 1\nload 0 0x11000 1\nload 0 0x11000 1\nload 0 0x11000 1\n";

/// Whether this is advised on a script.
fn is_advised<R: Abort + Threads + Wait + Sync>(
    rt: &R,
    alloc: Global,
    script: &str,
    advice: &str,
) -> bool {
    let (text, written) = (script.as_bytes(), advice.as_bytes());
    writes(rt, alloc, ALONE, "advise", text, DONE, written)
}

#[test]
fn pages_on_the_wrong_side(rt: HostRuntime) {
    let advice = "count m0 16 0 4\ncount m0 17 5 1\ntodev 0 16 1\ntosys 0 17 1\nend 2 2\n";
    assert!(rt; is_advised(&rt, rt.alloc(), FIVE_LOADS, advice));
}

#[test]
fn a_page_on_the_edge(rt: HostRuntime) {
    let four = FIVE_LOADS
        .replace(rt.alloc(), FIVE, FOUR)
        .expect(&rt, "memory");
    let advice = "count m0 16 0 4\ncount m0 17 4 1\ntodev 0 16 1\nend 2 1\n";
    assert!(rt; is_advised(&rt, rt.alloc(), four.as_str(), advice));
}

#[test]
fn nothing_to_advise(rt: HostRuntime) {
    assert!(rt; is_advised(&rt, rt.alloc(), "hmm 1\nframes 0\n", "end 0 0\n"));
}
