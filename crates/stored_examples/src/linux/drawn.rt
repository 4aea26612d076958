// Drawn scripts of one actor, and what the kernel answered to each operation.
use crate::files::{bytes, stems, text};
use crate::linux::lines::{entry, is_answer, is_like};
use crate::linux::model::report;
use crate::linux::names::Names;
use std::io;

/// What is kept of an answer.
#[derive(Drop)]
struct Kept<'a> {
    /// What hmmrun answers.
    model: &'a str,
    /// The names of the differences by which the kernel answers otherwise; none if it does not.
    names: Option<&'a str>,
}

/// A kept line: an answer of both, or the kernel's answer, hmmrun's, and the names of the differences.
fn parts(line: &str) -> Kept<'_> {
    match line.split_once(" | ") {
        Some((_, rest)) => match rest.split_once(" | ") {
            Some((model, names)) => Kept {
                model,
                names: Some(names),
            },
            None => Kept {
                model: "",
                names: Some(""),
            },
        },
        None => Kept {
            model: line,
            names: None,
        },
    }
}

fn are_names(names: &Names, text: &str) -> bool {
    text.split(' ').all(|name| names.has(name))
}

/// What an answer is beside its kept line.
#[derive(Drop)]
enum Finding<'a> {
    /// The kernel's.
    Same,
    /// Not the kernel's, by differences that have names.
    Named,
    /// Not the kept one.
    NotKept(&'a str),
    /// Not the kernel's, and one of these differences has no name.
    Unnamed(&'a str),
}

fn found<'a>(names: &Names, answer: &str, kept: &Kept<'a>) -> Finding<'a> {
    if !is_like(answer, kept.model) {
        return Finding::NotKept(kept.model);
    }
    match kept.names {
        None => Finding::Same,
        Some(text) if are_names(names, text) => Finding::Named,
        Some(text) => Finding::Unnamed(text),
    }
}

/// How many answers are the same, and how many differ by name.
#[derive(Drop)]
struct Counts {
    scripts: u64,
    same: u64,
    differ: u64,
}

impl Counts {
    /// Counts what has its place; whether it has.
    fn take(&mut self, found: &Finding<'_>) -> bool {
        match found {
            Finding::Same => {
                self.same = self.same.saturating_add(1);
                true
            }
            Finding::Named => {
                self.differ = self.differ.saturating_add(1);
                true
            }
            _ => false,
        }
    }
}

/// Prints what has no place.
fn tell(rt: &HostRuntime, stem: &str, answer: &str, found: &Finding<'_>) -> io::Result<()> {
    match found {
        Finding::NotKept(kept) => println!(rt; "{stem}: {answer} is not {kept}"),
        Finding::Unnamed(text) => println!(rt; "{stem}: {answer} differs by {text}"),
        _ => Ok(()),
    }
}

/// The answer in a line of a report, if it has one.
fn answer_in(line: &str) -> Option<&str> {
    let answer = entry(line)?;
    if is_answer(answer) {
        Some(answer)
    } else {
        None
    }
}

/// Compares the answers of a report with the kept lines, and prints the first that has no place or no name.
fn compare_answers(
    rt: &HostRuntime,
    names: &Names,
    stem: &str,
    report: &str,
    told: &str,
    counts: &mut Counts,
) -> io::Result<()> {
    let mut lines = told.lines();
    for line in report.lines() {
        if let Some(answer) = answer_in(line) {
            let found = found(names, answer, &parts(lines.next().unwrap_or("")));
            if !counts.take(&found) {
                return tell(rt, stem, answer, &found);
            }
        }
    }
    match lines.next() {
        Some(line) => println!(rt; "{stem}: no answer is {line}"),
        None => Ok(()),
    }
}

/// Compares one script's answers with the kept ones.
fn compare(rt: &HostRuntime, names: &Names, stem: &str, counts: &mut Counts) -> io::Result<()> {
    let report = report(rt.alloc(), bytes(rt, stem, ".hmm")?.as_slice())?;
    let told = text(rt, stem, ".kernel")?;
    counts.scripts = counts.scripts.saturating_add(1);
    compare_answers(rt, names, stem, report.as_str(), told.as_str(), counts)
}

/// Compares the answers of all drawn scripts.
pub fn compare_all(rt: &HostRuntime, names: &Names) -> io::Result<()> {
    let mut counts = Counts {
        scripts: 0,
        same: 0,
        differ: 0,
    };
    for stem in stems(rt, "linux/drawn", ".hmm")?.iter() {
        compare(rt, names, stem.as_str(), &mut counts)?;
    }
    println!(rt;
        "{} drawn scripts: {} answers are the kernel's, {} differ by name",
        counts.scripts, counts.same, counts.differ
    )
}
