// A history that is full before the operations end.
use crate::calls::{ALONE, FULL, ends_on};
use hm_io::SureSink;

/// Whether there was memory to add the line so many times.
fn adds(script: &mut String, line: &str, times: u64) -> bool {
    for _ in 0..times {
        if script.push_str(line).is_err() {
            return false;
        }
    }
    true
}

/// Whether the script was written of migrations of 64 pages to a device and back, in more turns than a history has
/// entries.
fn goes_back_and_forth(script: &mut String) -> bool {
    let start = "hmm 1\nframes 64\ndevice 0 64\nactor 0\nmap 0 0 64 rw\nattach 0 0 0 0 64\n";
    adds(script, start, 1)
        && adds(script, "todev 0 0 64\ntosys 0 0 64\n", 1500)
        && adds(script, "turns 0 1000000\n", 3)
}

/// How many lines of the report begin so.
fn count(report: &str, front: &str) -> u64 {
    let mut count = 0u64;
    for line in report.lines() {
        if line.starts_with(front) {
            count = count.saturating_add(1);
        }
    }
    count
}

/// Whether the report has all entries that there may be, and one operation that has not ended, of the first actor.
fn is_full(report: &[u8]) -> bool {
    match str::from_utf8(report) {
        Ok(text) => {
            count(text, "unfinished ") == 1
                && count(text, "unfinished a0 ") == 1
                && text.ends_with("\nend 2000000\n")
        }
        Err(_) => false,
    }
}

#[test]
fn a_full_history(rt: HostRuntime) {
    let alloc = rt.alloc();
    let mut script = String::new(alloc);
    let mut sink = SureSink::new(alloc);
    assert!(rt;
        goes_back_and_forth(&mut script)
            && ends_on(
                &rt,
                alloc,
                ALONE,
                "replay",
                script.as_bytes(),
                &mut sink,
                FULL
            )
            && is_full(sink.held())
    );
}
