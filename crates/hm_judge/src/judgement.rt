// What a report comes to.
use hm_base::Text;
use hm_check::Report;
use hm_history::{Entry, Progress};
use hm_parts::{Parts, ShownParts};
use hm_script::Refused;

/// The judgement on bytes.
#[derive(Drop)]
pub enum Judgement {
    /// They are a legal report.
    Legal(LegalReport),
    /// They are no legal report.
    Bad(BadReport),
}

/// What is said of a legal report.
#[derive(Drop)]
pub struct LegalReport {
    /// Its script, and its history, which is legal for it.
    pub report: Report,
    /// What is due to each actor of the script after the history.
    pub standing: Vec<Progress>,
}

/// What is said of bytes that are no legal report.
#[derive(Drop)]
pub struct BadReport {
    /// The first bad line, from 1; one more than there are lines if a line is missing.
    pub line: u64,
    /// How many entries before it were due, each after those before it.
    pub at: u64,
    pub fault: Fault,
    /// If the line is that of no entry that has its place, the nearest of the lines that could stand there; else empty.
    pub nearest: Text,
    /// What was due to each actor of the script after those entries; empty if the script is bad.
    pub standing: Vec<Progress>,
    /// The line that goes on to end the report there, or the line `history` if the lines before it are a script; empty
    /// if there is none.
    pub ending: Text,
}

/// What is wrong with a first bad line.
#[derive(Drop)]
pub enum Fault {
    /// It is no line of a script, for this reason, and not `history` after one.
    Script(Refused),
    /// It is the line of this entry, which is not due: which other parts of legality the entry meets, and what bears on
    /// each.
    Entry(Entry, Parts, ShownParts),
    /// As many entries stand before it as a history has, and it does not end the report.
    Full,
    /// It is the line of no entry that has its place, and does not end the report.
    NoEntry,
    /// Some lines that end the report stand before it, and it is not the next of them.
    Behind,
    /// It is missing.
    Missing,
}
