// The program hmmraces.
use crate::cases::{Case, EMPTY, Program, all_come_to, expected, refuses_too_long};

const USAGE: &str =
    "hmmraces: usage: hmmraces [[--most] MOST] [--table | --script N | [--strict] --expect CONDITION ..]\n";

const NOTHING: &str =
    "hmmraces: nothing is left to race after drain: end the schedule where the race is to begin\n";

const BAD_WORD: &str = "hmmraces: condition 1: bad word 2\n";

const BAD_HEADER: &str = "hmmraces: script line 1: bad header\n";

/// A script whose schedule leaves nothing to race.
const DRAINED: &str = "hmm 1\nframes 0\ndrain\n";

#[test]
fn hmmraces_ends_with_each_code(rt: HostRuntime) {
    let read = expected("hmmraces", EMPTY, 4, "", "hmmraces: read fault\n");
    let write = expected("hmmraces", EMPTY, 5, "", "hmmraces: write fault\n");
    let no_outcome = "hmmraces: no such outcome\n";
    let cases = [
        expected("hmmraces", EMPTY, 0, "outcome 1\nstates 1 whole\n", ""),
        expected("hmmraces many", EMPTY, 2, "", USAGE),
        expected("hmmraces 1 2", EMPTY, 2, "", USAGE),
        expected("hmmraces --expect some", EMPTY, 2, "", BAD_WORD),
        expected("hmmraces --strict --table", EMPTY, 2, "", USAGE),
        expected("hmmraces --strict --expect some", EMPTY, 2, "", BAD_WORD),
        expected("hmmraces --script 2", EMPTY, 9, "", no_outcome),
        expected("hmmraces", DRAINED, 9, "", NOTHING),
        expected("hmmraces", "", 3, "", BAD_HEADER),
        Case {
            bad_read: 1,
            ..read
        },
        Case {
            bad_write: 1,
            ..write
        },
    ];
    assert!(rt; all_come_to(&rt, rt.alloc(), Program::Hmmraces, &cases));
}

#[test]
fn hmmraces_refuses_too_long_a_script(rt: HostRuntime) {
    let says = "hmmraces: script too long\n";
    assert!(rt; refuses_too_long(&rt, rt.alloc(), Program::Hmmraces, "hmmraces", says));
}
