// In what order the entries of threads come under the gates of the program.
use crate::cases::hmmrun_writes;
use hm_io::SureSink;
use std::alloc::Global;
use std::process::Abort;
use std::sync::Wait;
use std::thread::Threads;

/// Two actors, each with a page of its own. The schedule maps both pages, and then lets the actors go in turn, turn by
/// turn, up to the end of the first store of each. Two more stores are left to race.
const IN_TURN: &str =
    "hmm 1\nframes 8\nactor 0\nmap 0 16 2 rw\nstore 0 0x10000 41\nstore 0 0x10000 42\n\
    actor 1\nstore 0 0x11000 51\nstore 0 0x11000 52\n\
    turns 0 2\nturns 1 1\nturns 0 1\nturns 1 1\nturns 0 1\nturns 1 1\nturns 0 1\nturns 1 1\nturns 0 1\n\
    turns 1 1\nturns 0 1\n";

/// How many stores each of two actors has in a script that threads run.
const STORES: u64 = 500;

/// How often the second of them adds an entry after one of the first, at least.
const LEAST_CHANGES: u64 = 60;

/// Whether this line of a report tells what came after its last entry.
fn is_after_entries(line: &str) -> bool {
    line.starts_with("unfinished ") || line.starts_with("end ")
}

/// Whether the report has all lines of the other up to its last entry, and then another.
fn goes_on_from(report: &str, begun: &str) -> bool {
    let first = begun.lines().filter(|line| !is_after_entries(line));
    let entries = begun.lines().filter(|line| !is_after_entries(line)).count();
    report.lines().zip(first).all(|(line, other)| line == other)
        && report
            .lines()
            .nth(entries)
            .is_some_and(|line| !is_after_entries(line))
}

/// Whether what the first sink holds goes on from what the second holds, which has so many entries.
fn is_continued(report: &SureSink, begun: &SureSink, end: &str) -> bool {
    match (str::from_utf8(report.held()), str::from_utf8(begun.held())) {
        (Ok(report), Ok(begun)) => begun.ends_with(end) && goes_on_from(report, begun),
        _ => false,
    }
}

#[test]
fn a_race_follows_its_schedule(rt: HostRuntime) {
    let alloc = rt.alloc();
    let (mut begun, mut raced) = (SureSink::new(alloc), SureSink::new(alloc));
    assert!(rt;
        hmmrun_writes(&rt, alloc, "hmmrun replay", IN_TURN, &mut begun)
            && hmmrun_writes(&rt, alloc, "hmmrun race", IN_TURN, &mut raced)
            && is_continued(&raced, &begun, "\nend 12\n")
    );
}

/// The actor of an entry's line; of another line something else.
fn actor_of(line: &str) -> &str {
    line.split(' ').nth(1).unwrap_or("")
}

/// How many lines of the report are the second actor's after one of the first.
fn changes(report: &str) -> u64 {
    let mut changes = 0u64;
    let mut after_first = false;
    for line in report.lines() {
        let actor = actor_of(line);
        if actor == "a1" && after_first {
            changes = changes.saturating_add(1);
        }
        after_first = actor == "a0";
    }
    changes
}

/// A script of two actors that store to the same page.
fn two_actors<R: Abort>(rt: &R, alloc: Global) -> String {
    let stores = "store 0 0x10000 41\n"
        .repeat(alloc, STORES as usize)
        .expect(rt, "memory");
    let mut text = String::from_str(alloc, "hmm 1\nframes 4\nactor 0\nmap 0 16 1 rw\n").expect(
        rt, "memory",
    );
    text.push_str(stores.as_str()).expect(rt, "memory");
    text.push_str("actor 1\n").expect(rt, "memory");
    text.push_str(stores.as_str()).expect(rt, "memory");
    text
}

/// Whether the report is text, and the actors change in it so often.
fn is_mixed(report: &SureSink) -> bool {
    match str::from_utf8(report.held()) {
        Ok(report) => changes(report) >= LEAST_CHANGES,
        Err(_) => false,
    }
}

/// Whether the actors of threads change so often in what the program writes.
fn threads_mix<R: Abort + Threads + Wait + Sync>(rt: &R, alloc: Global) -> bool {
    let script = two_actors(rt, alloc);
    let mut sink = SureSink::new(alloc);
    hmmrun_writes(rt, alloc, "hmmrun threads", script.as_str(), &mut sink) && is_mixed(&sink)
}

#[test]
fn threads_of_the_program_mix(rt: HostRuntime) {
    assert!(rt; threads_mix(&rt, rt.alloc()));
}
