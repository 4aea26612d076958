// Races, the outcomes that hmmraces lists, and those that were seen in the kernel.
use crate::files::{bytes, stems, text};
use crate::linux::lines::is_like;
use crate::linux::model::outcomes;
use crate::linux::names::Names;
use std::alloc::Global;
use std::io;

/// The outcomes in what hmmraces writes, each with its answers in one line, `|` between two.
fn listed(alloc: Global, text: &str) -> io::Result<Vec<String>> {
    let mut outcomes = Vec::new(alloc);
    let mut answers = String::new(alloc);
    for line in text.lines() {
        if line.starts_with('a') {
            if !answers.is_empty() {
                answers.push_str("|")?;
            }
            answers.push_str(line)?;
        } else if !answers.is_empty() {
            outcomes.push(answers)?;
            answers = String::new(alloc);
        }
    }
    Ok(outcomes)
}

/// Whether an outcome is the seen one, in which `*` stands for any word.
fn is_seen(outcome: &str, seen: &str) -> bool {
    let mut answers = outcome.split('|');
    for wanted in seen.split('|') {
        match answers.next() {
            Some(answer) => {
                if !is_like(answer, wanted) {
                    return false;
                }
            }
            None => return false,
        }
    }
    answers.next().is_none()
}

/// A line of a seen file: `listed`, or the name of a difference; and the outcome.
#[derive(Drop)]
struct Seen<'a> {
    name: &'a str,
    outcome: &'a str,
}

/// What the line says of an outcome. Lines that begin with `earlier`, and those with one number, count runs alone.
fn parts(line: &str) -> Option<Seen<'_>> {
    let (name, rest) = line.split_once(' ')?;
    let (runs, outcome) = rest.split_once(' ')?;
    runs.parse::<u64>().ok()?;
    if name == "earlier" {
        None
    } else {
        Some(Seen { name, outcome })
    }
}

/// How many outcomes are listed, and how many were seen that are not.
#[derive(Drop)]
struct Counts {
    races: u64,
    listed: u64,
    named: u64,
}

/// Whether a seen line has its place: it is listed and said to be, or not listed and has a name.
fn has_place(names: &Names, outcomes: &[String], line: &Seen<'_>) -> bool {
    let is_listed = outcomes
        .iter()
        .any(|outcome| is_seen(outcome.as_str(), line.outcome));
    if line.name == "listed" {
        is_listed
    } else {
        !is_listed && names.has(line.name)
    }
}

fn count(line: &Seen<'_>, counts: &mut Counts) {
    if line.name == "listed" {
        counts.listed = counts.listed.saturating_add(1);
    } else {
        counts.named = counts.named.saturating_add(1);
    }
}

/// Whether some line of the kept text is the outcome.
fn is_kept(kept: &str, outcome: &str) -> bool {
    kept.lines().any(|line| match parts(line) {
        Some(line) => line.name == "listed" && is_seen(outcome, line.outcome),
        None => false,
    })
}

/// Prints each seen line that has no place, and counts the others.
fn compare_seen(
    rt: &HostRuntime,
    names: &Names,
    stem: &str,
    listed: &[String],
    kept: &str,
    counts: &mut Counts,
) -> io::Result<()> {
    for line in kept.lines() {
        if let Some(line) = parts(line) {
            if has_place(names, listed, &line) {
                count(&line, counts);
            } else {
                println!(rt; "{stem}: {} {}", line.name, line.outcome)?;
            }
        }
    }
    Ok(())
}

/// Prints each outcome that no line of the kept text is.
fn tell_others(rt: &HostRuntime, stem: &str, listed: &[String], kept: &str) -> io::Result<()> {
    for outcome in listed {
        if !is_kept(kept, outcome.as_str()) {
            println!(rt; "{stem}: not kept: {outcome}")?;
        }
    }
    Ok(())
}

/// The outcomes of one race; says if not all are known.
fn listed_of(rt: &HostRuntime, stem: &str) -> io::Result<Vec<String>> {
    let told = outcomes(rt.alloc(), bytes(rt, stem, ".hmm")?.as_slice())?;
    if !told.as_str().ends_with(" whole\n") {
        println!(rt; "{stem}: hmmraces gave up")?;
    }
    listed(rt.alloc(), told.as_str())
}

/// Compares the outcomes of one race, and prints those that have no place.
fn compare(rt: &HostRuntime, names: &Names, stem: &str, counts: &mut Counts) -> io::Result<()> {
    let listed = listed_of(rt, stem)?;
    let kept = text(rt, stem, ".seen")?;
    counts.races = counts.races.saturating_add(1);
    compare_seen(rt, names, stem, listed.as_slice(), kept.as_str(), counts)?;
    tell_others(rt, stem, listed.as_slice(), kept.as_str())
}

/// Compares the outcomes of all races.
pub fn compare_all(rt: &HostRuntime, names: &Names) -> io::Result<()> {
    let mut counts = Counts {
        races: 0,
        listed: 0,
        named: 0,
    };
    for stem in stems(rt, "linux/races", ".hmm")?.iter() {
        compare(rt, names, stem.as_str(), &mut counts)?;
    }
    println!(rt;
        "{} races: {} outcomes are listed, {} were seen by name alone",
        counts.races, counts.listed, counts.named
    )
}
