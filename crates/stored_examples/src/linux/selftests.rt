// Scripts of the kernel's own selftests, and of differences, with what Linux asserts of their reports.
use crate::files::{bytes, stems, text};
use crate::linux::lines::{entry, is_like};
use crate::linux::model::report;
use crate::linux::names::Names;
use std::io;

/// How an assertion stands to the report.
#[derive(Drop)]
enum Verdict {
    /// It holds.
    Holds,
    /// It does not hold, by a difference that has a name.
    Differs,
    /// It should have held, or should not; or it has another name; or it is no assertion.
    Wrong,
}

/// How many entries of the report are like the pattern.
fn count_like(report: &str, pattern: &str) -> u64 {
    let mut count = 0u64;
    for line in report.lines() {
        if let Some(entry) = entry(line)
            && is_like(entry, pattern)
        {
            count = count.saturating_add(1);
        }
    }
    count
}

/// Whether the assertion holds: `has PATTERN` or `count N PATTERN`.
fn holds(report: &str, assertion: &str) -> Option<bool> {
    match assertion.split_once(' ')? {
        ("has", pattern) => Some(count_like(report, pattern) > 0),
        ("count", rest) => {
            let (number, pattern) = rest.split_once(' ')?;
            Some(count_like(report, pattern) == number.parse::<u64>().ok()?)
        }
        _ => None,
    }
}

/// The verdict on a line: an assertion, or one after the name of a difference, by which it must not hold.
fn judge(report: &str, names: &Names, line: &str) -> Verdict {
    let assertion = match line.split_once("  # ") {
        Some((assertion, _)) => assertion,
        None => line,
    };
    if let Some(held) = holds(report, assertion) {
        return if held { Verdict::Holds } else { Verdict::Wrong };
    }
    match assertion.split_once(' ') {
        Some((name, rest)) if names.has(name) && holds(report, rest) == Some(false) =>
            Verdict::Differs,
        _ => Verdict::Wrong,
    }
}

/// How many assertions hold, and how many do not by name.
#[derive(Drop)]
struct Counts {
    scripts: u64,
    hold: u64,
    differ: u64,
}

/// Judges the assertions of one script, and prints those that are wrong.
fn compare(rt: &HostRuntime, names: &Names, stem: &str, counts: &mut Counts) -> io::Result<()> {
    let report = report(rt.alloc(), bytes(rt, stem, ".hmm")?.as_slice())?;
    counts.scripts = counts.scripts.saturating_add(1);
    for line in text(rt, stem, ".asserts")?.as_str().lines() {
        match judge(report.as_str(), names, line) {
            Verdict::Holds => counts.hold = counts.hold.saturating_add(1),
            Verdict::Differs => counts.differ = counts.differ.saturating_add(1),
            Verdict::Wrong => println!(rt; "{stem}: {line}")?,
        }
    }
    Ok(())
}

/// Judges the assertions of all scripts of the folder.
pub fn compare_all(rt: &HostRuntime, names: &Names, folder: &str) -> io::Result<()> {
    let mut counts = Counts {
        scripts: 0,
        hold: 0,
        differ: 0,
    };
    for stem in stems(rt, folder, ".hmm")?.iter() {
        compare(rt, names, stem.as_str(), &mut counts)?;
    }
    println!(rt;
        "{} scripts of {folder}: {} assertions hold, {} differ by name",
        counts.scripts, counts.hold, counts.differ
    )
}
