// Checks every report of the folder `checks`, and says of each what the verdict is. The history of a legal one is
// folded too.
use crate::files::{bytes, name, stems};
use crate::folded::fold;
use hm_check::{Report, Verdict, check};
use std::io;

/// Says the verdict on one report: how many entries it has, or the first bad line.
fn tell(rt: &HostRuntime, stem: &str) -> io::Result<()> {
    let name = name(stem);
    let bytes = bytes(rt, stem, ".report")?;
    match check(rt.alloc(), bytes.as_slice()) {
        Ok(Verdict::Yes(report)) => tell_legal(rt, name, &report),
        Ok(Verdict::No(line)) => println!(rt; "{name}: bad {line}"),
        Err(_) => println!(rt; "{name}: out of memory"),
    }
}

/// Says how many entries a legal report has, how many of them the folds take, and what they come to.
fn tell_legal(rt: &HostRuntime, name: &str, report: &Report) -> io::Result<()> {
    let entries = report.history.len();
    match fold(rt.alloc(), &report.script, &report.history) {
        Ok(folded) => println!(rt;
            "{name}: legal {entries}, folded {}, next s{}, {} pages",
            folded.taken, folded.next, folded.pages
        ),
        Err(_) => println!(rt; "{name}: out of memory"),
    }
}

pub fn tell_all(rt: &HostRuntime) -> io::Result<()> {
    for stem in stems(rt, "checks", ".report")?.iter() {
        tell(rt, stem.as_str())?;
    }
    Ok(())
}
