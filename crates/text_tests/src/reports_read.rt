// Whole reports, read.
use hm_base::{Actor, Script};
use hm_history::Kind;
use hm_report_front::BadLine;
use hm_report_reading::{Unfinished, WholeReport, read_report};
use hm_script::print;
use std::alloc::Global;

/// Of six lines.
const SCRIPT: &str = "hmm 1\nframes 4\nactor 0\nmap 0 16 1 rw\nload 0 0x10000 2\nturns 0 5\n";

const ENTRIES: &str = "0 a0 wlock p0\n1 a0 mapped p0 16 1 rw\n2 a0 rlock p0\n";

/// The same entries in another order: the second is not due.
const SWAPPED: &str = "0 a0 wlock p0\n1 a0 rlock p0\n2 a0 mapped p0 16 1 rw\n";

/// Whether the report of these parts was written.
fn writes(text: &mut Vec<u8>, script: &str, entries: &str, tail: &str) -> bool {
    text.extend_from_slice(script.as_bytes()).is_ok()
        && text.extend_from_slice(b"history\n").is_ok()
        && text.extend_from_slice(entries.as_bytes()).is_ok()
        && text.extend_from_slice(tail.as_bytes()).is_ok()
}

/// Whether the report has the script of the text, its three entries, and the operation that has not ended.
fn is_the_report(alloc: Global, report: &WholeReport) -> bool {
    let actor = Actor::new(0);
    has_script(alloc, &report.script)
        && report.history.len() == 3
        && report.unfinished.len() == 1
        && report.unfinished[0] == Unfinished { actor, index: 1 }
}

/// Whether the script's text is that of the report.
fn has_script(alloc: Global, script: &Script) -> bool {
    match print(alloc, script) {
        Ok(text) => text.as_slice() == SCRIPT.as_bytes(),
        Err(_) => false,
    }
}

/// Whether the bytes are read as that report.
fn is_read_back(alloc: Global, bytes: &[u8]) -> bool {
    match read_report(alloc, bytes) {
        Ok(Ok(report)) => is_the_report(alloc, &report),
        _ => false,
    }
}

#[test]
fn a_report_is_read_back(rt: HostRuntime) {
    let alloc = rt.alloc();
    let mut text = Vec::new(alloc);
    assert!(rt;
        writes(&mut text, SCRIPT, ENTRIES, "unfinished a0 1\nend 3\n")
            && is_read_back(alloc, text.as_slice())
    );
}

/// Whether the second entry takes the lock for reading, and every operation has ended.
fn is_swapped(report: &WholeReport) -> bool {
    let is_rlock = match report.history.get(1) {
        Some(entry) => matches!(&entry.kind, Kind::Rlock(_)),
        None => false,
    };
    is_rlock && report.unfinished.is_empty()
}

/// Whether the bytes are read as the report of the swapped entries.
fn is_read_swapped(alloc: Global, bytes: &[u8]) -> bool {
    match read_report(alloc, bytes) {
        Ok(Ok(report)) => is_swapped(&report),
        _ => false,
    }
}

#[test]
fn a_history_that_is_not_legal_is_read(rt: HostRuntime) {
    let alloc = rt.alloc();
    let mut text = Vec::new(alloc);
    assert!(rt;
        writes(&mut text, SCRIPT, SWAPPED, "end 3\n") && is_read_swapped(alloc, text.as_slice())
    );
}

/// The first bad line, 0 if there is none; nothing if there was no memory.
fn bad_line(alloc: Global, bytes: &[u8]) -> Option<u64> {
    match read_report(alloc, bytes) {
        Ok(Ok(_)) => Some(0),
        Ok(Err(BadLine(line))) => Some(line),
        Err(_) => None,
    }
}

/// Whether this is the first bad line of the report of these parts, 0 if there is none.
fn is_bad_at(alloc: Global, script: &str, entries: &str, tail: &str, line: u64) -> bool {
    let mut text = Vec::new(alloc);
    writes(&mut text, script, entries, tail) && bad_line(alloc, text.as_slice()) == Some(line)
}

/// Whether no line is bad if there are no entries, or operations of other actors and numbers have not ended.
fn odd_are_read(alloc: Global) -> bool {
    let unfinished = "unfinished a3 7\nunfinished a0 0\nend 3\n";
    is_bad_at(alloc, SCRIPT, ENTRIES, "end 3\n", 0)
        && is_bad_at(alloc, SCRIPT, "", "end 0\n", 0)
        && is_bad_at(alloc, SCRIPT, ENTRIES, unfinished, 0)
}

/// Whether scripts and entries are refused at their bad lines.
fn fronts_are_refused(alloc: Global) -> bool {
    let entries = "0 a0 wlock p0\n2 a0 rlock p0\n";
    is_bad_at(alloc, "hmm 1\nframes four\n", ENTRIES, "end 3\n", 2)
        && is_bad_at(alloc, "hmm 1\n", ENTRIES, "end 3\n", 2)
        && is_bad_at(alloc, SCRIPT, entries, "end 2\n", 9)
}

/// Whether a line after the entries is refused that names no actor, is that of an entry, or is missing.
fn unfinished_are_refused(alloc: Global) -> bool {
    let entry = "unfinished a0 1\n3 a0 rlock p0\nend 4\n";
    is_bad_at(alloc, SCRIPT, ENTRIES, "unfinished a16 0\nend 3\n", 11)
        && is_bad_at(alloc, SCRIPT, ENTRIES, entry, 12)
        && is_bad_at(alloc, SCRIPT, ENTRIES, "unfinished a0 1\n", 12)
}

/// Whether the last line is refused if it has another number of entries, or is not the last, or is not whole.
fn ends_are_refused(alloc: Global) -> bool {
    is_bad_at(alloc, SCRIPT, ENTRIES, "end 2\n", 11)
        && is_bad_at(alloc, SCRIPT, ENTRIES, "end 3\n\n", 12)
        && is_bad_at(alloc, SCRIPT, ENTRIES, "end 3", 11)
}

/// Whether a text that breaks off before the entries is refused at the line that is missing.
fn scripts_are_refused(alloc: Global) -> bool {
    bad_line(alloc, SCRIPT.as_bytes()) == Some(7) && bad_line(alloc, b"") == Some(1)
}

#[test]
fn a_bad_line_is_refused_there(rt: HostRuntime) {
    let alloc = rt.alloc();
    assert!(rt; odd_are_read(alloc) && fronts_are_refused(alloc));
    assert!(rt;
        unfinished_are_refused(alloc) && ends_are_refused(alloc) && scripts_are_refused(alloc)
    );
}
