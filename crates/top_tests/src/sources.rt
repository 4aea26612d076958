// `why`: where each byte of each load came from.
use crate::calls::{ALONE, DONE, Ending, NOT_LEGAL, writes};
use std::alloc::Global;
use std::process::Abort;
use std::sync::Wait;
use std::thread::Threads;

/// One byte was stored, and the one beside it was never written.
const ONE_PAGE: &str =
    "hmm 1\nframes 4\nactor 0\nmap 0 16 1 rw\nstore 0 0x10000 41\nload 0 0x10000 2\nturns 0 20\nhistory\n\
    0 a0 wlock p0\n1 a0 mapped p0 16 1 rw\n2 a0 rlock p0\n3 a0 take s0\n4 a0 place p0 16 sys s0 w\n\
    5 a0 runlock p0\n6 a0 stored p0 0x10000 41\n7 a0 loaded p0 0x10000 4100\nend 8\n";

/// A child loads what its parent stored before the fork, and while the fork was under way.
const THROUGH_A_FORK: &str =
    "hmm 1\nframes 8\nactor 0\nmap 0 16 2 rw\nstore 0 0x10000 41\nstore 0 0x11000 42\nfork 0 1\nload 1 0x10000 1\n\
    load 1 0x11000 1\nactor 1\nstore 0 0x11000 43\nturns 0 17\nturns 1 1\nturns 0 99\nhistory\n0 a0 wlock p0\n\
    1 a0 mapped p0 16 2 rw\n2 a0 rlock p0\n3 a0 take s0\n4 a0 place p0 16 sys s0 w\n5 a0 runlock p0\n\
    6 a0 stored p0 0x10000 41\n7 a0 rlock p0\n8 a0 take s1\n9 a0 place p0 17 sys s1 w\n10 a0 runlock p0\n\
    11 a0 stored p0 0x11000 42\n12 a0 wlock p0\n13 a0 named p0 p1\n14 a0 start p0 0 68719476736 2\n\
    15 a0 place p0 16 sys s0 r\n16 a0 place p1 16 sys s0 r\n17 a1 stored p0 0x11000 43\n\
    18 a0 place p0 17 sys s1 r\n19 a0 place p1 17 sys s1 r\n20 a0 end p0 0 68719476736 2\n21 a0 forked p0 p1\n\
    22 a0 loaded p1 0x10000 41\n23 a0 loaded p1 0x11000 43\nend 24\n";

/// A byte that a device's addition wrote.
const ADDED: &str =
    "hmm 2\nframes 4\ndevice 0 4\nactor 0\nmap 0 16 1 rw\nattach 0 0 0 16 1\ndadd 0 0x10000 5\nload 0 0x10000 1\n\
    dadd 0 0x10000 255\nturns 0 99\nhistory\n0 a0 wlock p0\n1 a0 mapped p0 16 1 rw\n2 a0 attached m0 d0 p0 16 1 1\n\
    3 a0 rlock p0\n4 a0 take s0\n5 a0 place p0 16 sys s0 w\n6 a0 start p0 16 1 3\n7 a0 told m0 16 1 3\n\
    8 a0 place p0 16 excl s0 a0\n9 a0 end p0 16 1 4\n10 a0 set m0 16 s0 x 10\n11 a0 runlock p0\n\
    12 a0 fetched m0 0x10000 00\n13 a0 added m0 0x10000 00 05\n14 a0 rlock p0\n15 a0 start p0 16 1 5\n\
    16 a0 told m0 16 1 5\n17 a0 place p0 16 sys s0 w\n18 a0 end p0 16 1 6\n19 a0 runlock p0\n\
    20 a0 loaded p0 0x10000 05\n21 a0 rlock p0\n22 a0 start p0 16 1 7\n23 a0 told m0 16 1 7\n\
    24 a0 place p0 16 excl s0 a0\n25 a0 end p0 16 1 8\n26 a0 set m0 16 s0 x 26\n27 a0 runlock p0\n\
    28 a0 fetched m0 0x10000 05\n29 a0 added m0 0x10000 05 04\nend 30\n";

/// Whether the call ends so on a report, and this is written of its loads.
fn tells<R: Abort + Threads + Wait + Sync>(
    rt: &R,
    alloc: Global,
    report: &str,
    wanted: Ending<'_>,
    written: &str,
) -> bool {
    let (text, written) = (report.as_bytes(), written.as_bytes());
    writes(rt, alloc, ALONE, "why", text, wanted, written)
}

#[test]
fn sources_of_loads(rt: HostRuntime) {
    let alloc = rt.alloc();
    let empty = "hmm 1\nframes 0\nhistory\nend 0\n";
    assert!(rt;
        tells(&rt, alloc, ONE_PAGE, DONE, "why 7 6 1\nend 1\n")
            && tells(
                &rt,
                alloc,
                THROUGH_A_FORK,
                DONE,
                "why 22 6\nwhy 23 17\nend 2\n"
            )
            && tells(&rt, alloc, ADDED, DONE, "why 20 13\nend 1\n")
            && tells(&rt, alloc, empty, DONE, "end 0\n")
    );
}

#[test]
fn no_sources_in_what_is_not_legal(rt: HostRuntime) {
    let alloc = rt.alloc();
    let spoiled = ONE_PAGE
        .replace(alloc, "4100\n", "4101\n")
        .expect(&rt, "memory");
    assert!(rt;
        tells(&rt, alloc, spoiled.as_str(), NOT_LEGAL, "bad 16\n")
            && tells(&rt, alloc, "", NOT_LEGAL, "bad 1\n")
    );
}
