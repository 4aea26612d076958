// Where the bytes of one load came from.
ghost use Rattle.hm_why.specs.Laws.{IsLegal};

use hm_check::{Report, Verdict, check};
use hm_history::{Entry, History, Kind};
use hm_why::sources;
use std::alloc::Global;

/// Two pages are stored to, a fork has both, and the child loads. The second page was stored to again during the fork,
/// before the child had it.
const FORK: &[u8] =
    b"hmm 1\nframes 8\nactor 0\nmap 0 16 2 rw\nstore 0 0x10000 41\nstore 0 0x11000 42\n\
    fork 0 1\nload 1 0x10000 1\nload 1 0x11000 1\nactor 1\nstore 0 0x11000 43\nturns 0 17\nturns 1 1\n\
    turns 0 99\nhistory\n0 a0 wlock p0\n1 a0 mapped p0 16 2 rw\n2 a0 rlock p0\n3 a0 take s0\n\
    4 a0 place p0 16 sys s0 w\n5 a0 runlock p0\n6 a0 stored p0 0x10000 41\n7 a0 rlock p0\n8 a0 take s1\n\
    9 a0 place p0 17 sys s1 w\n10 a0 runlock p0\n11 a0 stored p0 0x11000 42\n12 a0 wlock p0\n\
    13 a0 named p0 p1\n14 a0 start p0 0 68719476736 2\n15 a0 place p0 16 sys s0 r\n\
    16 a0 place p1 16 sys s0 r\n17 a1 stored p0 0x11000 43\n18 a0 place p0 17 sys s1 r\n\
    19 a0 place p1 17 sys s1 r\n20 a0 end p0 0 68719476736 2\n21 a0 forked p0 p1\n\
    22 a0 loaded p1 0x10000 41\n23 a0 loaded p1 0x11000 43\nend 24\n";

/// Whether the entry at this position is a load of one byte, which came from the other.
fn came_from(alloc: Global, history: &History, at: u64, source: u64) -> bool
    requires { IsLegal history.now.entries }
{
    match history.get(at) {
        Some(
            Entry {
                kind: Kind::Loaded { .. },
                ..
            },
        ) => match sources(alloc, history, at) {
            Ok(found) => found.as_slice() == [source].as_slice(),
            Err(_) => false,
        },
        _ => false,
    }
}

/// Whether the child's two loads came from the first store and from the one during the fork.
fn has_both(alloc: Global, report: &Report) -> bool
    requires { IsLegal report.now.history.entries }
{
    came_from(alloc, &report.history, 22, 6) && came_from(alloc, &report.history, 23, 17)
}

/// Whether the report is legal, and its loads came from there.
fn is_told(alloc: Global) -> bool {
    match check(alloc, FORK) {
        Ok(Verdict::Yes(report)) => has_both(alloc, &report),
        _ => false,
    }
}

#[test]
fn loads_after_a_fork(rt: HostRuntime) {
    assert!(rt; is_told(rt.alloc()));
}
