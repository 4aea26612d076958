// The top call: reads a script, searches the races of drivers that leave a rule out, and writes what is asked for.
ghost use Rattle.std.specs.Prelude.{◌≡◌, ◌≤◌, false, length, map, string_bytes};
ghost use Rattle.hm_edge.specs.Traffic.{traffic};
ghost use Rattle.hm_edge.specs.Writing.{WriteFaulted};
ghost use Rattle.hm_history.specs.Kernel.Run.{run};
ghost use Rattle.hm_race_top.specs.Telling.{IsSentOn};
ghost use Rattle.hm_script.specs.Built.{has_drain};
ghost use Rattle.hm_flaw_top.specs.Withouts.{HasFound, Searches, Withouts};

use crate::text::{Task, task_of};
use crate::told::tell;
use hm_base::Script;
use hm_edge::{RaceEnd, Status, read_script};
use hm_history::{Entry, StepError};
use hm_io::{Sink, Source};
use hm_race_top::has_drain;
use hm_race_top::run::set_up_of;
use hm_race_top::telling::write_telling;
use std::alloc::Global;

/// Searches the races after the run of a script whose schedule does not end in `drain`, and writes what is asked for.
fn search_after<K: Sink>(
    alloc: Global,
    script: &Script,
    set_up: &[Entry],
    task: Task,
    sink: &mut K,
) -> Status
    requires races { has_drain script.now.schedule ≡ false }
    requires set_up { set_up.now ≡ run script.now }
    requires few { length set_up.now ≤ 2000000 }
    ensures found { HasFound task script.now (K.state sink.old) (K.state sink.new) result }
    ensures faults { WriteFaulted (K.state sink.old).faults (K.state sink.new).faults result }
    ensures flushed { IsSentOn (K.state sink.new).pending result }
{
    hm_history::laws::runs_are_due();
    match tell(alloc, script, set_up, task) {
        Ok(telling) => write_telling(alloc, &telling, sink),
        Err(StepError::Full(_)) => Status::HistoryFull,
        Err(StepError::NoMemory) => Status::NoMemory,
    }
}

/// Makes the set-up of a script whose schedule does not end in `drain`, searches the races after it, and writes what is
/// asked for.
fn search_races<K: Sink>(alloc: Global, script: Script, task: Task, sink: &mut K) -> Status
    requires { has_drain script.schedule ≡ false }
    ensures found { HasFound task script (K.state sink.old) (K.state sink.new) result }
    ensures faults { WriteFaulted (K.state sink.old).faults (K.state sink.new).faults result }
    ensures flushed { IsSentOn (K.state sink.new).pending result }
{
    match set_up_of(alloc, script) {
        Ok((script, set_up)) => search_after(alloc, &script, set_up.as_slice(), task, sink),
        Err(StepError::Full(_)) => Status::HistoryFull,
        Err(StepError::NoMemory) => Status::NoMemory,
    }
}

/// Searches the races of a script, and writes what is asked for.
fn find<K: Sink>(alloc: Global, script: Script, task: Task, sink: &mut K) -> Status
    ensures found { HasFound task script (K.state sink.old) (K.state sink.new) result }
    ensures faults { WriteFaulted (K.state sink.old).faults (K.state sink.new).faults result }
    ensures flushed { IsSentOn (K.state sink.new).pending result }
{
    if has_drain(script.schedule.as_slice()) {
        Status::Race(RaceEnd::Drained)
    } else {
        search_races(alloc, script, task, sink)
    }
}

/// Reads a script, searches its races, and writes what is asked for.
fn read_and_find<S: Source, K: Sink>(
    alloc: Global,
    task: Task,
    source: &mut S,
    sink: &mut K,
) -> Status
    ensures { Searches task (traffic S.state K.state source.old source.new sink.old sink.new) result }
{
    match read_script(alloc, source) {
        Ok(script) => find(alloc, script, task, sink),
        Err(status) => status,
    }
}

/// Reads a script from the source, and writes to the sink what the words after the program's name ask for: a shortest
/// race in which a driver that leaves a rule out does what it must not do, or a line for each driver. The script's
/// schedule is the set-up, which the right driver makes; from there every actor may take its turn at any time. A search
/// knows of no more states than the words say. It waits for nobody.
pub fn without<S: Source, K: Sink>(
    alloc: Global,
    words: &[String],
    source: &mut S,
    sink: &mut K,
) -> Status
    ensures { Withouts (map string_bytes words.now)
        (traffic S.state K.state source.old source.new sink.old sink.new) result }
{
    match task_of(words) {
        Ok(task) => read_and_find(alloc, task, source, sink),
        Err(_) => Status::Usage,
    }
}
