// `run`: does what the words after the program's name ask for.
ghost use Rattle.std.specs.Prelude.{◌≡◌, ◌↔◌, [], None, map, string_bytes};
ghost use Rattle.hm_edge.specs.Traffic.{traffic};
ghost use Rattle.hm_edge.specs.declared.status.Status.{Status};
ghost use Rattle.hm_top.specs.Commands.{IsNoPeek, alone, command_of};
ghost use Rattle.hm_top.specs.Does.{Does, DoesAlone};

use crate::advise::advise;
use crate::check::check;
use crate::command::{Alone, Command};
use crate::ended::Ended;
use crate::generate::{generate, trial};
use crate::peek::peek;
use crate::replay::replay;
use crate::threads::threads;
use crate::upgrade::upgrade;
use crate::why::why;
use hm_edge::Status;
use hm_io::{Sink, Source};
use hm_workers::Gate;
use skip_rules::{Kept, Leans};
use std::alloc::Global;
use std::sync::Wait;
use std::thread::Threads;

/// Does what the calling thread does alone.
fn do_alone<S: Source, K: Sink>(
    alloc: Global,
    what: Alone,
    source: &mut S,
    sink: &mut K,
    skip: &Kept,
    leans: &Leans,
) -> Ended
    ensures peeks { result.peeks ≡ [] }
    ensures does { DoesAlone what (traffic S.state K.state source.old source.new sink.old sink.new) result }
{
    match what {
        Alone::Replay => replay(alloc, source, sink, skip),
        Alone::Generate(number) => generate(alloc, number, sink),
        Alone::Trial(number) => trial(alloc, number, sink, skip),
        Alone::Upgrade => upgrade(alloc, source, sink),
        Alone::Check => check(alloc, source, sink),
        Alone::Advise => advise(alloc, source, sink, skip, leans),
        Alone::Why => why(alloc, source, sink),
    }
}

/// Does what the words after the program's name ask for, if that is none of `threads`, `race` and `peek`, which are
/// none of its forms: reads from the source, runs, and writes to the sink. It waits for nobody. The rules are the
/// caller's: which pages a migration skips, and where a page should live.
pub fn run_alone<S: Source, K: Sink>(
    alloc: Global,
    words: Vec<String>,
    source: &mut S,
    sink: &mut K,
    skip: &Kept,
    leans: &Leans,
) -> Ended
    ensures usage { (result.status ≡ Status.Usage) ↔ (alone (command_of (map string_bytes words.items)) ≡ None) }
    ensures peeks { result.peeks ≡ [] }
    ensures does { Does (alone (command_of (map string_bytes words.items)))
        (traffic S.state K.state source.old source.new sink.old sink.new) result }
{
    match Command::of(words.as_slice()) {
        Some(Command::Alone(what)) => do_alone(alloc, what, source, sink, skip, leans),
        _ => Ended::stopped(alloc, Status::Usage),
    }
}

/// Does what the words after the program's name ask for: reads from the source, runs, and writes to the sink. With
/// `threads`, `race` and `peek` each actor goes from a thread of its own, when the gate admits it. Other words wait for
/// nobody. The rules are the caller's: which pages a migration skips, and where a page should live.
pub fn run<R: Threads + Wait + Sync, S: Source, K: Sink, G: Gate + Sync>(
    rt: &R,
    alloc: Global,
    words: Vec<String>,
    source: &mut S,
    sink: &mut K,
    gate: &G,
    skip: &Kept,
    leans: &Leans,
) -> Ended
    // `Usage` comes exactly if the words are none of the forms.
    ensures usage { (result.status ≡ Status.Usage) ↔ (command_of (map string_bytes words.items) ≡ None) }
    // What each word does is a record of its own, whose fields say what is read, run and written by how the call ends.
    ensures does { Does (command_of (map string_bytes words.items))
        (traffic S.state K.state source.old source.new sink.old sink.new) result }
    // Only `peek` answers peeks.
    ensures peeks { IsNoPeek (command_of (map string_bytes words.items)) → result.peeks ≡ [] }
{
    match Command::of(words.as_slice()) {
        Some(Command::Peek(asked)) => peek(rt, alloc, source, sink, gate, skip, &asked),
        Some(Command::Threads(begin)) => threads(rt, alloc, source, sink, gate, skip, begin),
        Some(Command::Alone(what)) => do_alone(alloc, what, source, sink, skip, leans),
        None => Ended::stopped(alloc, Status::Usage),
    }
}
