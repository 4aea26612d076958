// Replays every script in the folders of `replays`, and compares what comes of each with the files beside it: a status,
// a message and a report. Then it compares the words that the reports use with those that the pages of docs tell.
use crate::files::{bytes, folders, stems};
use crate::outcome::{Outcome, replayed, wanted};
use crate::words::{Used, compare};
use std::io;

/// Whether the script comes to this.
fn comes_to(rt: &HostRuntime, stem: &str, wanted: &Outcome) -> io::Result<bool> {
    let script = bytes(rt, stem, ".hmm")?;
    Ok(replayed(rt.alloc(), script.as_slice())?.is(wanted))
}

/// Whether the script comes to what the files beside it say; notes the words of its report.
fn agrees(rt: &HostRuntime, stem: &str, used: &mut Used) -> io::Result<bool> {
    let wanted = wanted(rt, stem)?;
    used.note_report(rt.alloc(), wanted.report())?;
    comes_to(rt, stem, &wanted)
}

/// Names each script of the folder that comes to something else, and counts the others.
fn count_agreeing(rt: &HostRuntime, folder: &str, used: &mut Used) -> io::Result<u64> {
    let mut agreeing = 0u64;
    for stem in stems(rt, folder, ".hmm")?.iter() {
        if agrees(rt, stem.as_str(), used)? {
            agreeing = agreeing.saturating_add(1);
        } else {
            println!(rt; "{stem}.hmm differs")?;
        }
    }
    Ok(agreeing)
}

/// Says how many agree.
pub fn compare_all(rt: &HostRuntime) -> io::Result<()> {
    let mut used = Used::new(rt.alloc());
    let mut agreeing = 0u64;
    for folder in folders(rt, "replays")?.iter() {
        agreeing = agreeing.saturating_add(count_agreeing(rt, folder.as_str(), &mut used)?);
    }
    println!(rt; "{agreeing} scripts agree")?;
    compare(rt, &used)
}
