// How the call with threads ends, what it says, and how many bytes it has written.
use crate::calls::{
    DONE, Ending, NOT_LEGAL, READ_FAULT, UNKNOWN, WRITE_FAULT, ends, ends_on, threads_end,
    threads_write,
};
use crate::cases::long_text;
use crate::gates::{Meets, Open};
use crate::pieces::fails_after;
use hm_io::{MemorySink, MemorySource, SureSink};
use std::alloc::Global;
use std::process::Abort;
use std::sync::Wait;
use std::thread::Threads;

/// Of 84 bytes; its report has fewer than 4,096.
const SCRIPT: &[u8] =
    b"hmm 1\nframes 4\nactor 0\nmap 0 16 1 rw\nstore 0 0x10000 41\nload 0 0x10000 2\nturns 0 20\n";

/// Its report has 29 bytes.
const EMPTY: &[u8] = b"hmm 1\nframes 0\n";

/// Two actors that meet at the commit of a migration.
const MEETING: &[u8] =
    b"hmm 1\nframes 8\ndevice 0 4\nactor 0\nmap 0 16 2 rw\nstore 0 0x10000 41\nstore 0 0x11000 42\n\
    fork 0 1\nattach 0 0 0 16 1\ntodev 0 16 1\nactor 1\nload 1 0x11000 1\n";

/// The report of `SCRIPT`.
const REPORT: &str =
    "hmm 1\nframes 4\nactor 0\nmap 0 16 1 rw\nstore 0 0x10000 41\nload 0 0x10000 2\n\
    turns 0 20\nhistory\n0 a0 wlock p0\n1 a0 mapped p0 16 1 rw\n2 a0 rlock p0\n3 a0 take s0\n\
    4 a0 place p0 16 sys s0 w\n5 a0 runlock p0\n6 a0 stored p0 0x10000 41\n7 a0 loaded p0 0x10000 4100\nend 8\n";

/// Whether the call knows none of these words, and writes nothing.
fn are_unknown<R: Abort + Threads + Wait + Sync>(rt: &R, alloc: Global, listed: &[&str]) -> bool {
    for words in listed.iter() {
        if !threads_write(rt, alloc, *words, SCRIPT, UNKNOWN, b"") {
            return false;
        }
    }
    true
}

#[test]
fn words_that_it_has_not(rt: HostRuntime) {
    let listed = [
        "replay now",
        "again",
        "",
        "threads 2",
        "race 2",
        "generate",
        "generate 07",
        "trial 18446744073709551616",
        "upgrade 2",
        "peek 0 0x0",
        "peek 0 0x0 0",
        "peek 32 0x0 1",
        "peek 0 0xffffffffffff 2",
        "check 1",
    ];
    assert!(rt; are_unknown(&rt, rt.alloc(), &listed));
}

/// How many bytes the call has written if a read fails and it ends so; nothing if it ends otherwise.
fn written_after<R: Abort + Threads + Wait + Sync>(
    rt: &R,
    alloc: Global,
    words: &str,
    bad_read: u64,
    wanted: Ending<'_>,
) -> Option<usize> {
    let mut source = MemorySource::new(alloc, SCRIPT, 16, &[bad_read]).expect(rt, "memory");
    let mut sink = SureSink::new(alloc);
    if ends(
        rt,
        alloc,
        Some(&Open),
        words,
        &mut source,
        &mut sink,
        wanted,
    ) {
        Some(sink.held().len())
    } else {
        None
    }
}

/// Whether the call with these words ends with a fault and writes nothing if one of its first seven reads fails.
fn needs_each_read<R: Abort + Threads + Wait + Sync>(rt: &R, alloc: Global, words: &str) -> bool {
    for bad_read in 1..8u64 {
        if written_after(rt, alloc, words, bad_read, READ_FAULT) != Some(0) {
            return false;
        }
    }
    true
}

/// Whether it does, and ends so if only a read after those would fail.
fn makes_seven_reads<R: Abort + Threads + Wait + Sync>(
    rt: &R,
    alloc: Global,
    words: &str,
    wanted: Ending<'_>,
) -> bool {
    needs_each_read(rt, alloc, words) && written_after(rt, alloc, words, 8, wanted).is_some()
}

#[test]
fn a_read_that_fails(rt: HostRuntime) {
    let alloc = rt.alloc();
    assert!(rt;
        makes_seven_reads(&rt, alloc, "replay", DONE)
            && makes_seven_reads(&rt, alloc, "threads", DONE)
            && makes_seven_reads(&rt, alloc, "race", DONE)
            && makes_seven_reads(&rt, alloc, "upgrade", DONE)
            && makes_seven_reads(&rt, alloc, "check", NOT_LEGAL)
    );
}

#[test]
fn a_write_that_fails(rt: HostRuntime) {
    let alloc = rt.alloc();
    let mut first = MemorySink::new(alloc, 65536, &[1]).expect(&rt, "memory");
    let mut second = MemorySink::new(alloc, 65536, &[2]).expect(&rt, "memory");
    assert!(rt;
        threads_end(&rt, alloc, "replay", SCRIPT, &mut first, WRITE_FAULT)
            && first.held().is_empty()
            && threads_end(&rt, alloc, "replay", SCRIPT, &mut second, DONE)
    );
}

/// Whether the replay of a script with nothing to do ends so in a sink of this room, which then holds so many bytes.
fn fills<R: Abort + Threads + Wait + Sync>(
    rt: &R,
    alloc: Global,
    room: usize,
    wanted: Ending<'_>,
    held: usize,
) -> bool {
    let mut sink = MemorySink::new(alloc, room, &[]).expect(rt, "memory");
    threads_end(rt, alloc, "replay", EMPTY, &mut sink, wanted) && sink.held().len() == held
}

#[test]
fn a_sink_without_room(rt: HostRuntime) {
    let alloc = rt.alloc();
    assert!(rt; fills(&rt, alloc, 28, WRITE_FAULT, 0) && fills(&rt, alloc, 29, DONE, 29));
}

#[test]
fn a_text_in_pieces(rt: HostRuntime) {
    let alloc = rt.alloc();
    assert!(rt;
        fails_after(&rt, alloc, Some(&Open), SCRIPT, 0)
            && fails_after(&rt, alloc, Some(&Open), SCRIPT, 2)
            && fails_after(&rt, alloc, Some(&Open), SCRIPT, 7)
    );
}

#[test]
fn a_trial(rt: HostRuntime) {
    let alloc = rt.alloc();
    let mut sink = SureSink::new(alloc);
    assert!(rt;
        threads_end(&rt, alloc, "trial 7", SCRIPT, &mut sink, DONE)
            && sink.held().starts_with(b"trial 7\nentries ")
    );
}

#[test]
fn a_script_in_version_two(rt: HostRuntime) {
    let alloc = rt.alloc();
    let mut sink = SureSink::new(alloc);
    assert!(rt;
        threads_end(&rt, alloc, "upgrade", SCRIPT, &mut sink, DONE)
            && sink.held().len() == SCRIPT.len()
            && sink.held().starts_with(b"hmm 2\nframes 4\nactor 0\n")
    );
}

/// Whether the report has this line.
fn has_line(report: &[u8], line: &str) -> bool {
    match str::from_utf8(report) {
        Ok(text) => text.lines().any(|other| other == line),
        Err(_) => false,
    }
}

/// Whether the report has the second actor's load at this position.
fn is_loaded_at<R: Abort>(rt: &R, alloc: Global, report: &[u8], at: u64) -> bool {
    let line = format!(in alloc; "{at} a1 loaded p1 0x11000 42").expect(rt, "memory");
    has_line(report, line.as_str())
}

/// Whether the two actors go from threads through the gate, and the second adds its entry at this position.
fn goes_through<R: Abort + Threads + Wait + Sync>(
    rt: &R,
    alloc: Global,
    gate: &Meets,
    at: u64,
) -> bool {
    let mut sink = SureSink::new(alloc);
    ends_on(rt, alloc, Some(gate), "threads", MEETING, &mut sink, DONE)
        && is_loaded_at(rt, alloc, sink.held(), at)
}

/// Whether the first actor is held at this position until the second has added its entry there.
fn meet_at<R: Abort + Threads + Wait + Sync>(rt: &R, alloc: Global, at: u64) -> bool {
    let gate = Meets::at(at);
    goes_through(rt, alloc, &gate, at) && !gate.was_missed()
}

/// Whether they meet at each position of the migration.
fn meet_at_each<R: Abort + Threads + Wait + Sync>(rt: &R, alloc: Global) -> bool {
    for at in 22..46u64 {
        if !meet_at(rt, alloc, at) {
            return false;
        }
    }
    true
}

#[test]
fn two_threads_meet(rt: HostRuntime) {
    assert!(rt; meet_at_each(&rt, rt.alloc()));
}

#[test]
fn a_look_at_the_end(rt: HostRuntime) {
    let alloc = rt.alloc();
    let mut looked = SureSink::new(alloc);
    let mut unmapped = SureSink::new(alloc);
    assert!(rt;
        threads_end(&rt, alloc, "peek 0 0x10000 1", MEETING, &mut looked, DONE)
            && looked.held().ends_with(b"\npeek p0 0x10000 47 41\n")
            && threads_end(&rt, alloc, "peek 0 0x0 1", EMPTY, &mut unmapped, DONE)
            && unmapped.held().len() == 29
    );
}

/// Whether the replay of so many bytes that are no script ends so, and writes nothing.
fn refuses<R: Abort + Threads + Wait + Sync>(
    rt: &R,
    alloc: Global,
    count: usize,
    wanted: Ending<'_>,
) -> bool {
    let bytes = long_text(rt, alloc, count);
    threads_write(rt, alloc, "replay", bytes.as_slice(), wanted, b"")
}

#[test]
fn a_byte_too_many(rt: HostRuntime) {
    let alloc = rt.alloc();
    let too_long = Ending {
        code: 8,
        says: "script too long",
    };
    let no_script = Ending {
        code: 3,
        says: "script line 1: bad line end or byte",
    };
    assert!(rt;
        refuses(&rt, alloc, 4_194_305, too_long) && refuses(&rt, alloc, 4_194_304, no_script)
    );
}

/// Whether the check of the report, in which one text stands in place of another, ends so and writes this line.
fn judges<R: Abort + Threads + Wait + Sync>(
    rt: &R,
    alloc: Global,
    texts: (&str, &str),
    wanted: Ending<'_>,
    line: &str,
) -> bool {
    let report = REPORT.replace(alloc, texts.0, texts.1).expect(rt, "memory");
    threads_write(
        rt,
        alloc,
        "check",
        report.as_bytes(),
        wanted,
        line.as_bytes(),
    )
}

/// The entries of `REPORT` after its first six, and its end.
const TAIL: &str = "6 a0 stored p0 0x10000 41\n7 a0 loaded p0 0x10000 4100\nend 8\n";

/// What stands there if the run ends before them.
const EARLY: &str = "unfinished a0 1\nend 6\n";

#[test]
fn a_legal_report(rt: HostRuntime) {
    let alloc = rt.alloc();
    assert!(rt;
        threads_write(&rt, alloc, "check", REPORT.as_bytes(), DONE, b"legal 8\n")
            && judges(&rt, alloc, (TAIL, EARLY), DONE, "legal 6\n")
    );
}

#[test]
fn a_report_that_is_not_legal(rt: HostRuntime) {
    let alloc = rt.alloc();
    assert!(rt;
        judges(&rt, alloc, ("4100\n", "4101\n"), NOT_LEGAL, "bad 16\n")
            && judges(&rt, alloc, ("take s0", "take s1"), NOT_LEGAL, "bad 12\n")
            && judges(&rt, alloc, ("end 8\n", ""), NOT_LEGAL, "bad 17\n")
            && judges(&rt, alloc, (REPORT, ""), NOT_LEGAL, "bad 1\n")
    );
}

/// Whether a sink of this room, which is too small for the line on the report, ends with a front of it.
fn holds_a_front<R: Abort + Threads + Wait + Sync>(
    rt: &R,
    alloc: Global,
    report: &str,
    room: usize,
    line: &str,
) -> bool {
    let mut sink = MemorySink::new(alloc, room, &[]).expect(rt, "memory");
    threads_end(
        rt,
        alloc,
        "check",
        report.as_bytes(),
        &mut sink,
        WRITE_FAULT,
    ) && line.as_bytes().starts_with(sink.held())
}

/// Whether it does with each such room.
fn is_cut_off<R: Abort + Threads + Wait + Sync>(
    rt: &R,
    alloc: Global,
    report: &str,
    line: &str,
) -> bool {
    for room in 0..line.len() {
        if !holds_a_front(rt, alloc, report, room, line) {
            return false;
        }
    }
    true
}

#[test]
fn a_verdict_that_is_cut_off(rt: HostRuntime) {
    let alloc = rt.alloc();
    assert!(rt;
        is_cut_off(&rt, alloc, REPORT, "legal 8\n") && is_cut_off(&rt, alloc, "", "bad 1\n")
    );
}
