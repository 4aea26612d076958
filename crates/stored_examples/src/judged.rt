// Judges every report of the folder `judged`, and writes after its name what is said of it: how each actor stands, or,
// if its name begins with `all_`, which rules its later entries break.
use crate::files::{name, stems};
use crate::streams::{empty_sink, source_beside, text_of, words_in};
use hm_judge::judge;
use std::io;

/// The word that asks for what is said of a report of this name.
fn word_of(name: &str) -> &'static str {
    if name.starts_with("all_") {
        "--all"
    } else {
        "--standing"
    }
}

/// What is said of a report, if it is asked for with these words.
fn said(rt: &HostRuntime, stem: &str, words: &[String]) -> io::Result<String> {
    let mut source = source_beside(rt, stem, ".report")?;
    let mut sink = empty_sink(rt.alloc())?;
    judge(rt.alloc(), words, &mut source, &mut sink);
    text_of(rt.alloc(), sink.held())
}

/// Writes what is said of one report.
fn tell(rt: &HostRuntime, stem: &str) -> io::Result<()> {
    let name = name(stem);
    let words = words_in(rt.alloc(), word_of(name))?;
    let said = said(rt, stem, words.as_slice())?;
    println!(rt; "{name}\n{said}")
}

pub fn tell_all(rt: &HostRuntime) -> io::Result<()> {
    for stem in stems(rt, "judged", ".report")?.iter() {
        tell(rt, stem.as_str())?;
    }
    Ok(())
}
