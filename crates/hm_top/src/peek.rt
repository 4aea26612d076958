// The word `peek`.
ghost use Rattle.std.specs.Prelude.{◌≡◌, [], ◌++◌, IfOk, OnOk, Some, true, false};
ghost use Rattle.std.specs.List.{flat_map};
ghost use Rattle.hm_history.specs.Kernel.Legal.{Legal};
ghost use Rattle.hm_report.specs.Report.{report};
ghost use Rattle.hm_report.specs.Written.{FaultCause, ReportWants, SentOn, Writes};
ghost use Rattle.hm_turns.specs.Looking.{IsLook};
ghost use Rattle.hm_top.specs.Peeks.{AnswersPeeks, RunsPeeked, SawAll, peek_line, peeked_text};
ghost use Rattle.hm_top.specs.Ran.{Shows, shown_status};
ghost use Rattle.hm_top.specs.RunsThreads.{AllEnded, StoppedFull};
ghost use Rattle.hm_edge.specs.Traffic.{traffic};
ghost use Rattle.hm_edge.specs.Writing.{HasWritten, IsFlushed, WriteFaulted};

use crate::command::PeekedBytes;
use crate::ended::Ended;
use crate::output::show_run;
use crate::schedule::Ran;
use hm_base::{NoMemory, Script, Text};
use hm_edge::{Status, read_script};
use hm_history::{History, StepError};
use hm_io::{Sink, Source};
use hm_machine::Machine;
use hm_report::{Written, write_report, write_text};
use hm_script::extend_hex;
use hm_workers::{Gate, Peek, PeekList, peek_all};
use skip_rules::Kept;
use std::alloc::Global;
use std::sync::Wait;
use std::thread::Threads;

/// A run from threads, and what was seen of it.
#[derive(Drop)]
struct Peeked {
    ran: Ran,
    peeks: PeekList,
}

/// What is said of what was seen: nothing if the history got full.
fn to_tell(alloc: Global, full: bool, peeks: PeekList) -> PeekList
    ensures whole { full ≡ false → result ≡ peeks }
    ensures full { full ≡ true → result ≡ [] }
{
    if full { PeekList::new(alloc) } else { peeks }
}

/// Runs each actor of the script from a thread of its own, with a watcher beside them. If the history got full,
/// nothing is said of what was seen.
fn run_peeked<R: Threads + Wait + Sync, G: Gate + Sync>(
    rt: &R,
    alloc: Global,
    script: Script,
    gate: &G,
    skip: &Kept,
    asked: &PeekedBytes,
) -> Result<Peeked, NoMemory>
    requires { IsLook asked.now.addr asked.now.len }
    ensures script { IfOk result (λ r. r.ran.script ≡ script) }
    ensures legal { IfOk result (λ r. Legal r.ran.script r.ran.history.entries) }
    ensures ended { IfOk result (λ r. r.ran.full ≡ false → AllEnded script r.ran.history.entries) }
    ensures full { IfOk result (λ r. r.ran.full ≡ true → StoppedFull script r.ran.history.entries) }
    ensures receipt { IfOk result (λ r. r.ran.receipt ≡ Some r.ran.history.entries) }
    ensures saw { IfOk result (λ r. r.ran.full ≡ false
        → SawAll asked.now.proc asked.now.addr asked.now.len r.ran.history.entries r.peeks) }
    ensures none { IfOk result (λ r. r.ran.full ≡ true → r.peeks ≡ []) }
{
    script.facts();
    hm_laws::never_stuck();
    let actors = script.actors.len() as u32;
    let machine = Machine::new(alloc, script, skip)?;
    let (machine, receipt, peeks) = peek_all(
        rt, alloc, machine, actors, gate, asked.proc, asked.addr, asked.len,
    )?;
    machine.stands();
    machine.world().facts();
    let full = match machine.world().halted() {
        None => false,
        Some(StepError::Full(_)) => true,
        Some(StepError::NoMemory) => return Err(NoMemory),
    };
    let peeks = to_tell(alloc, full, peeks);
    let (script, history) = machine.into_parts();
    Ok(Peeked {
        ran: Ran {
            script,
            history,
            full,
            receipt: Some(receipt),
        },
        peeks,
    })
}

/// Adds the line of a peek.
fn add_peek(alloc: Global, text: &mut Text, peek: &Peek) -> Result<(), NoMemory>
    ensures { OnOk result (text.new ≡ text.old ++ peek_line peek.now) }
{
    let proc = peek.proc.number();
    let addr = peek.addr;
    let count = peek.count;
    let front = format!(in alloc; "peek p{proc} 0x{addr:x} {count} ")?;
    text.extend(front.as_bytes())?;
    extend_hex(text, peek.bytes.as_slice())?;
    text.push(b'\n')
}

/// The lines of the peeks.
fn peek_lines(alloc: Global, peeks: &[Peek]) -> Result<Text, NoMemory>
    ensures { IfOk result (λ text. text ≡ flat_map peek_line peeks.now) }
{
    let mut text = Text::new(alloc);
    for peek in peeks {
        add_peek(alloc, &mut text, peek)?;
    }
    Ok(text)
}

/// Writes the report and then these lines.
fn write_with<K: Sink>(
    alloc: Global,
    script: &Script,
    history: &History,
    lines: &Text,
    sink: &mut K,
) -> Written
    requires { Legal script.now history.now.entries }
    ensures text { Writes (K.state sink.old).held (K.state sink.new).held
        (report script.now history.now.entries ++ lines.now) result }
    ensures sent { SentOn (K.state sink.new).pending result }
    ensures faults { FaultCause (K.state sink.old).faults (K.state sink.new).faults result }
    ensures wants { ReportWants (K.state sink.old) (K.state sink.new) result }
{
    match write_report(alloc, script, history, sink) {
        Written::Done => write_text(alloc, lines, sink),
        Written::Fault => Written::Fault,
        Written::NoMemory => Written::NoMemory,
    }
}

/// Writes the report and a line for each peek.
fn write_peeked<K: Sink>(
    alloc: Global,
    script: &Script,
    history: &History,
    peeks: &[Peek],
    sink: &mut K,
) -> Written
    requires { Legal script.now history.now.entries }
    ensures text { Writes (K.state sink.old).held (K.state sink.new).held
        (peeked_text peeks.now script.now history.now.entries) result }
    ensures sent { SentOn (K.state sink.new).pending result }
    ensures faults { FaultCause (K.state sink.old).faults (K.state sink.new).faults result }
    ensures wants { ReportWants (K.state sink.old) (K.state sink.new) result }
{
    match peek_lines(alloc, peeks) {
        Ok(lines) => write_with(alloc, script, history, &lines, sink),
        Err(NoMemory) => Written::NoMemory,
    }
}

/// Ends a call whose text of what ran and was seen was written so.
fn end_peeked(alloc: Global, peeked: Peeked, written: Written) -> Ended
    ensures status { result.status ≡ shown_status written peeked.ran.full }
    ensures shows { Shows peeked.ran result }
    ensures peeks { AnswersPeeks peeked.peeks result.peeks result.status }
{
    let Peeked { ran, peeks } = peeked;
    let mut ended = show_run(alloc, ran, written);
    match written {
        Written::Done => ended.peeks = peeks,
        Written::Fault => ended.peeks = peeks,
        Written::NoMemory => (),
    }
    ended
}

/// Writes the report of what ran and a line for each peek, and ends the call.
fn report_peeked<K: Sink>(alloc: Global, peeked: Peeked, sink: &mut K) -> Ended
    requires { Legal peeked.ran.script peeked.ran.history.entries }
    ensures shows { Shows peeked.ran result }
    ensures peeks { AnswersPeeks peeked.peeks result.peeks result.status }
    ensures written { HasWritten (peeked_text result.peeks peeked.ran.script peeked.ran.history.entries)
        (λ t. t ≡ peeked_text peeked.peeks peeked.ran.script peeked.ran.history.entries)
        (K.state sink.old) (K.state sink.new)
        result.status }
    ensures write_faults { WriteFaulted (K.state sink.old).faults (K.state sink.new).faults result.status }
    ensures flushed { IsFlushed (K.state sink.new).pending result.status }
{
    let written = write_peeked(
        alloc,
        &peeked.ran.script,
        &peeked.ran.history,
        peeked.peeks.as_slice(),
        sink,
    );
    end_peeked(alloc, peeked, written)
}

/// Reads a script, runs each actor from a thread of its own to its end, with a watcher that looks at these bytes, and
/// writes the report and what the watcher saw.
pub(crate) fn peek<R: Threads + Wait + Sync, S: Source, K: Sink, G: Gate + Sync>(
    rt: &R,
    alloc: Global,
    source: &mut S,
    sink: &mut K,
    gate: &G,
    skip: &Kept,
    asked: &PeekedBytes,
) -> Ended
    requires { IsLook asked.now.addr asked.now.len }
    ensures { RunsPeeked asked.now.proc asked.now.addr asked.now.len
        (traffic S.state K.state source.old source.new sink.old sink.new) result }
{
    let script = match read_script(alloc, source) {
        Ok(script) => script,
        Err(status) => return Ended::stopped(alloc, status),
    };
    match run_peeked(rt, alloc, script, gate, skip, asked) {
        Ok(peeked) => report_peeked(alloc, peeked, sink),
        Err(_) => Ended::stopped(alloc, Status::NoMemory),
    }
}
