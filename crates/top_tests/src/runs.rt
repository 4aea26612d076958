// The program hmmrun.
use crate::cases::{Case, EMPTY, EMPTY_REPORT, Program, all_come_to, expected, refuses_too_long};

const USAGE: &str =
    "hmmrun: usage: hmmrun replay | threads | race | generate N | trial N | upgrade | check | \
    peek P ADDR LEN | advise | why\n";

const BAD_HEADER: &str = "hmmrun: script line 1: bad header\n";

#[test]
fn hmmrun_ends_with_each_code(rt: HostRuntime) {
    let cases = [
        expected("hmmrun replay", EMPTY, 0, EMPTY_REPORT, ""),
        expected("hmmrun threads", EMPTY, 0, EMPTY_REPORT, ""),
        expected("hmmrun race", EMPTY, 0, EMPTY_REPORT, ""),
        expected("hmmrun check", EMPTY_REPORT, 0, "legal 0\n", ""),
        expected("hmmrun check", EMPTY, 1, "bad 3\n", "hmmrun: not legal\n"),
        expected("hmmrun", EMPTY, 2, "", USAGE),
        expected("hmmrun replay now", EMPTY, 2, "", USAGE),
        expected("hmmrun replay", "", 3, "", BAD_HEADER),
    ];
    assert!(rt; all_come_to(&rt, rt.alloc(), Program::Hmmrun, &cases));
}

#[test]
fn hmmrun_tells_of_streams_that_fail(rt: HostRuntime) {
    let read = expected("hmmrun replay", EMPTY, 4, "", "hmmrun: read fault\n");
    let write = expected("hmmrun replay", EMPTY, 5, "", "hmmrun: write fault\n");
    let cases = [
        Case {
            bad_read: 1,
            ..read
        },
        Case {
            bad_write: 1,
            ..write
        },
    ];
    assert!(rt; all_come_to(&rt, rt.alloc(), Program::Hmmrun, &cases));
}

#[test]
fn hmmrun_refuses_too_long_a_script(rt: HostRuntime) {
    let says = "hmmrun: script too long\n";
    assert!(rt; refuses_too_long(&rt, rt.alloc(), Program::Hmmrun, "hmmrun replay", says));
}
