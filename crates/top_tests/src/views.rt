// The program hmmview.
use crate::cases::{Case, EMPTY, EMPTY_REPORT, Program, all_come_to, expected};

const USAGE: &str = "hmmview: usage: hmmview [FROM TO]\n";

const NO_ROWS: &str = "hmmview: no such rows: FROM is after TO, or after the end of the report\n";

#[test]
fn hmmview_ends_with_each_code(rt: HostRuntime) {
    let read = expected("hmmview", EMPTY_REPORT, 4, "", "hmmview: read fault\n");
    let write = expected("hmmview", EMPTY_REPORT, 5, "", "hmmview: write fault\n");
    let cases = [
        expected("hmmview", EMPTY, 1, "", "hmmview: not legal\n"),
        expected("hmmview 1", EMPTY_REPORT, 2, "", USAGE),
        expected("hmmview 1 0", EMPTY_REPORT, 9, "", NO_ROWS),
        expected("hmmview 1 2", EMPTY_REPORT, 9, "", NO_ROWS),
        Case {
            bad_read: 1,
            ..read
        },
        Case {
            bad_write: 1,
            ..write
        },
    ];
    assert!(rt; all_come_to(&rt, rt.alloc(), Program::Hmmview, &cases));
}
