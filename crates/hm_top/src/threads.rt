// The words `threads` and `race`.
ghost use Rattle.std.specs.Prelude.{◌≡◌, [], IfOk, Some, true, false};
ghost use Rattle.hm_base.specs.Program.{IsScript};
ghost use Rattle.hm_history.specs.Kernel.Legal.{Legal};
ghost use Rattle.hm_top.specs.RunsThreads.{AllEnded, RunsThreads, StoppedFull};
ghost use Rattle.hm_edge.specs.Traffic.{traffic};

use crate::command::Begin;
use crate::ended::Ended;
use crate::output::report_run;
use crate::schedule::Ran;
use hm_base::{NoMemory, Script};
use hm_edge::{Status, read_script};
use hm_history::StepError;
use hm_io::{Sink, Source};
use hm_machine::Machine;
use hm_script::one_text;
use hm_workers::{Gate, Staged, run_all};
use skip_rules::Kept;
use std::alloc::Global;
use std::sync::Wait;
use std::thread::Threads;

/// Runs each actor of the script from a thread of its own, until its operations have ended or the history is full.
fn run_threads<R: Threads + Wait + Sync, G: Gate + Sync>(
    rt: &R,
    alloc: Global,
    script: Script,
    gate: &G,
    skip: &Kept,
) -> Result<Ran, NoMemory>
    ensures script { IfOk result (λ r. r.script ≡ script) }
    ensures legal { IfOk result (λ r. Legal r.script r.history.entries) }
    ensures ended { IfOk result (λ r. r.full ≡ false → AllEnded script r.history.entries) }
    ensures full { IfOk result (λ r. r.full ≡ true → StoppedFull script r.history.entries) }
    ensures receipt { IfOk result (λ r. r.receipt ≡ Some r.history.entries) }
{
    script.facts();
    hm_laws::never_stuck();
    let actors = script.actors.len() as u32;
    let machine = Machine::new(alloc, script, skip)?;
    let (machine, receipt) = run_all(rt, alloc, machine, actors, gate)?;
    machine.stands();
    let full = match machine.world().halted() {
        None => false,
        Some(StepError::Full(_)) => true,
        Some(StepError::NoMemory) => return Err(NoMemory),
    };
    let (script, history) = machine.into_parts();
    Ok(Ran {
        script,
        history,
        full,
        receipt: Some(receipt),
    })
}

/// Does so, after the turns of the script's schedule if these come first.
fn run_from<R: Threads + Wait + Sync, G: Gate + Sync>(
    rt: &R,
    alloc: Global,
    script: Script,
    gate: &G,
    skip: &Kept,
    begin: Begin,
) -> Result<Ran, NoMemory>
    ensures script { IfOk result (λ r. r.script ≡ script) }
    ensures legal { IfOk result (λ r. Legal r.script r.history.entries) }
    ensures ended { IfOk result (λ r. r.full ≡ false → AllEnded script r.history.entries) }
    ensures full { IfOk result (λ r. r.full ≡ true → StoppedFull script r.history.entries) }
    ensures receipt { IfOk result (λ r. r.receipt ≡ Some r.history.entries) }
{
    match begin {
        Begin::AtOnce => run_threads(rt, alloc, script, gate, skip),
        Begin::AfterSchedule => {
            let staged = Staged::new(rt, alloc, &script.schedule, gate)?;
            run_threads(rt, alloc, script, &staged, skip)
        }
    }
}

/// Reads a script, runs each actor from a thread of its own to its end, and writes the report.
pub(crate) fn threads<R: Threads + Wait + Sync, S: Source, K: Sink, G: Gate + Sync>(
    rt: &R,
    alloc: Global,
    source: &mut S,
    sink: &mut K,
    gate: &G,
    skip: &Kept,
    begin: Begin,
) -> Ended
    ensures does { RunsThreads
        (traffic S.state K.state source.old source.new sink.old sink.new) result }
    ensures peeks { result.peeks ≡ [] }
{
    let script = match read_script(alloc, source) {
        Ok(script) => script,
        Err(status) => return Ended::stopped(alloc, status),
    };
    match run_from(rt, alloc, script, gate, skip, begin) {
        Ok(ran) => report_run(alloc, ran, sink),
        Err(_) => Ended::stopped(alloc, Status::NoMemory),
    }
}
