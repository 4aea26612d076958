// Compares what is stored beside the examples, in the folders here, with what comes of them now; of reports it says
// what is said of them. One program does all of it, since the gate reads the libraries below for each program once
// more.
#![tactic(auto)]

mod checks;
mod files;
mod folded;
mod judged;
mod linux;
mod outcome;
mod races;
mod replays;
mod streams;
mod words;

use std::io;

fn main(rt: HostRuntime) -> io::Result<()> {
    replays::compare_all(&rt)?;
    checks::tell_all(&rt)?;
    judged::tell_all(&rt)?;
    races::compare_all(&rt)?;
    linux::compare_all(&rt)
}
