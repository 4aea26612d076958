// The words of scripts and reports: those that the examples use, and those that the pages of docs tell.
use std::alloc::{AllocError, Global};
use std::{fs, io};

/// The words that the reports use, which begin with their scripts.
#[derive(Drop)]
pub struct Used {
    of_scripts: Vec<String>,
    of_reports: Vec<String>,
}

fn has(words: &[String], word: &str) -> bool {
    words.iter().any(|other| other.as_str() == word)
}

fn note(alloc: Global, words: &mut Vec<String>, word: &str) -> Result<(), AllocError> {
    if !has(words.as_slice(), word) {
        words.push(String::from_str(alloc, word)?)?;
    }
    Ok(())
}

/// The word of a line of the history: after its position and its actor, if it has them.
fn entry_word(line: &str) -> &str {
    let mut words = line.split(' ');
    let first = words.next().unwrap_or("");
    if first.parse::<u64>().is_ok() {
        words.nth(1).unwrap_or("")
    } else {
        first
    }
}

impl Used {
    pub fn new(alloc: Global) -> Used {
        Used {
            of_scripts: Vec::new(alloc),
            of_reports: Vec::new(alloc),
        }
    }

    pub fn note_report(&mut self, alloc: Global, report: &str) -> Result<(), AllocError> {
        let mut is_history = false;
        for line in report.lines() {
            is_history = is_history || line == "history";
            let words = if is_history {
                &mut self.of_reports
            } else {
                &mut self.of_scripts
            };
            note(alloc, words, entry_word(line))?;
        }
        Ok(())
    }
}

/// What stands in a table's first column on this line.
fn first_cell(line: &str) -> Option<&str> {
    let (cell, _) = line.strip_prefix('|')?.split_once('|')?;
    Some(cell.trim())
}

fn quoted(cell: &str) -> Option<&str> {
    cell.strip_prefix('`')?.strip_suffix('`')
}

/// The words in the first column of the page's tables that are headed `Word`.
fn told(rt: &HostRuntime, page: &str) -> io::Result<Vec<String>> {
    let text = fs::read_to_string(rt, page)?;
    let mut words = Vec::new(rt.alloc());
    let mut is_of_words = false;
    for line in text.lines() {
        let cell = first_cell(line);
        is_of_words = cell.is_some() && (is_of_words || cell == Some("Word"));
        if is_of_words && let Some(word) = cell.and_then(quoted) {
            note(rt.alloc(), &mut words, word)?;
        }
    }
    Ok(words)
}

/// Prints each word that is used and not told, and counts the others.
fn count_told(rt: &HostRuntime, page: &str, told: &[String], used: &[String]) -> io::Result<u64> {
    let mut count = 0u64;
    for word in used {
        if has(told, word.as_str()) {
            count = count.saturating_add(1);
        } else {
            println!(rt; "{page} does not tell {word}")?;
        }
    }
    Ok(count)
}

/// Prints each word that is told and not used.
fn tell_unused(rt: &HostRuntime, page: &str, told: &[String], used: &[String]) -> io::Result<()> {
    for word in told {
        if !has(used, word.as_str()) {
            println!(rt; "no example uses {word} of {page}")?;
        }
    }
    Ok(())
}

/// Prints each word that is used and not told, or told and not used, and how many are both.
fn compare_page(rt: &HostRuntime, page: &str, used: &[String]) -> io::Result<()> {
    let told = told(rt, page)?;
    let count = count_told(rt, page, told.as_slice(), used)?;
    tell_unused(rt, page, told.as_slice(), used)?;
    println!(rt; "{page} tells {count} words")
}

/// Compares the words that are used with those of the pages on scripts and reports.
pub fn compare(rt: &HostRuntime, used: &Used) -> io::Result<()> {
    compare_page(rt, "docs/SCRIPT.md", used.of_scripts.as_slice())?;
    compare_page(rt, "docs/REPORT.md", used.of_reports.as_slice())
}
