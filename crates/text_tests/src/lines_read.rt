// Lines of a report, read.
use hm_base::Actor;
use hm_history::{KeptWhy, Kind};
use hm_report_reading::{LineReader, Unfinished, read_entries};
use std::alloc::Global;

/// Whether the line is that of an entry at this position.
fn is_entry(alloc: Global, reader: &mut LineReader, line: &str, at: u64) -> bool {
    match reader.entry(alloc, line.as_bytes(), at) {
        Ok(entry) => entry.is_some(),
        Err(_) => false,
    }
}

/// Whether the line was read, and is that of no entry at this position.
fn is_no_entry(alloc: Global, reader: &mut LineReader, line: &str, at: u64) -> bool {
    match reader.entry(alloc, line.as_bytes(), at) {
        Ok(entry) => entry.is_none(),
        Err(_) => false,
    }
}

/// Whether each line is that of an entry at its position, and of none at the next.
fn are_entries(alloc: Global, reader: &mut LineReader, lines: &[(u32, &str)]) -> bool {
    for numbered in lines.iter() {
        let (at, line) = (u64::from(numbered.0), numbered.1);
        if !is_entry(alloc, reader, line, at) || !is_no_entry(alloc, reader, line, at + 1) {
            return false;
        }
    }
    true
}

#[test]
fn lines_of_entries(rt: HostRuntime) {
    let lines = [
        (1, "1 a0 mapped p0 16 2 rw\n"),
        (4, "4 a0 place p0 16 sys s0 w\n"),
        (7, "7 a0 loaded p0 0x10000 4100\n"),
        (8, "8 a1 attached m0 d0 p0 16 1 1\n"),
        (9, "9 a15 kept d0.12 locked a3\n"),
        (12, "12 a0 set m0 16 zero r 10\n"),
        (13, "13 a0 copied s1 d3.4 all\n"),
        (2, "2 a0 failed m31 0xffffffffffff 1 4\n"),
    ];
    let mut reader = LineReader::new(rt.alloc()).expect(&rt, "memory");
    assert!(rt; are_entries(rt.alloc(), &mut reader, &lines));
}

/// Whether none of these lines is that of entry 0.
fn are_no_entries(alloc: Global, reader: &mut LineReader, lines: &[&str]) -> bool {
    for line in lines.iter() {
        if !is_no_entry(alloc, reader, *line, 0) {
            return false;
        }
    }
    true
}

#[test]
fn what_is_no_line(rt: HostRuntime) {
    let lines = [
        "",
        "\n",
        "0 a0 wlock p0",
        "0 a0 wlock q0\n",
        "0 a0 wlock p32\n",
        "0 a0 wlock p00\n",
        "0 a0  wlock p0\n",
        "0 a0 wlock p0 \n",
        "0 a0 wlock p0 1\n",
        "0 a16 wlock p0\n",
        "0 a0 wlocked p0\n",
        "0 a0 loaded p0 0x10000 4G\n",
        "0 a0 loaded p0 0x10000 410\n",
        "0 a0 mapped p0 16 0 rw\n",
    ];
    let mut reader = LineReader::new(rt.alloc()).expect(&rt, "memory");
    assert!(rt; are_no_entries(rt.alloc(), &mut reader, &lines));
}

/// Whether the line of a page that was skipped is read as one.
fn is_read_as_skipped(alloc: Global, reader: &mut LineReader) -> bool {
    match reader.entry(alloc, b"3 a0 kept 16 skipped\n", 3) {
        Ok(Some(entry)) => matches!(
            &entry.kind,
            Kind::Kept {
                why: KeptWhy::Skipped,
                ..
            }
        ),
        _ => false,
    }
}

#[test]
fn why_a_page_was_kept(rt: HostRuntime) {
    let mut reader = LineReader::new(rt.alloc()).expect(&rt, "memory");
    assert!(rt; is_read_as_skipped(rt.alloc(), &mut reader));
}

/// Whether the operation of an actor that there may be is read as one that has not ended.
fn reads_unfinished(reader: &mut LineReader) -> bool {
    let actor = Actor::new(3);
    reader.unfinished(b"unfinished a3 0\n") == Some(Unfinished { actor, index: 0 })
        && reader.unfinished(b"unfinished a16 0\n").is_none()
        && reader.unfinished(b"finished a3 0\n").is_none()
}

/// Whether the last line is read, if it is written as it should be.
fn reads_end(reader: &mut LineReader) -> bool {
    reader.end(b"end 18\n") == Some(18)
        && reader.end(b"end 018\n").is_none()
        && reader.end(b"end 18").is_none()
}

#[test]
fn lines_after_a_history(rt: HostRuntime) {
    let mut reader = LineReader::new(rt.alloc()).expect(&rt, "memory");
    assert!(rt; reads_unfinished(&mut reader) && reads_end(&mut reader));
}

/// Whether two lines are read as entries, and the third, which has a wrong position, is left.
fn reads_two(alloc: Global, reader: &mut LineReader) -> bool {
    let text = "0 a0 wlock p0\n1 a0 mapped p0 16 1 rw\n3 a0 rlock p0\n";
    match read_entries(alloc, reader, text.as_bytes()) {
        Ok((history, rest)) => history.len() == 2 && rest == b"3 a0 rlock p0\n".as_slice(),
        Err(_) => false,
    }
}

#[test]
fn entries_up_to_another_line(rt: HostRuntime) {
    let mut reader = LineReader::new(rt.alloc()).expect(&rt, "memory");
    assert!(rt; reads_two(rt.alloc(), &mut reader));
}
