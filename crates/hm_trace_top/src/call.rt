// The top call: reads a trace, or several, and writes the verdicts.
ghost use Rattle.std.specs.Prelude.{◌≡◌, map, string_bytes, IfSome, IfOk, IfErr, OnOk, Ok};
ghost use Rattle.hm_edge.specs.Reading.{ReadFaulted};
ghost use Rattle.hm_edge.specs.Traffic.{traffic};
ghost use Rattle.hm_edge.specs.Writing.{HasWritten, IsFlushed, WriteFaulted};
ghost use Rattle.hm_trace_top.specs.Heard.{said_of};
ghost use Rattle.hm_trace_top.specs.Judging.{Does, EndsAs, HasNoTrace, Judges, Runs, ending_of, streams_as};
ghost use Rattle.hm_trace_top.specs.Together.{outcome_of};
ghost use Rattle.hm_trace_top.specs.Words.{asked_by};

use crate::ended::{Ended, Outcome};
use crate::judged::{Judged, judge_bytes};
use crate::together::outcome;
use crate::words::{Task, task_of};
use hm_base::MOST_REPORT_BYTES;
use hm_edge::{Input, read_all};
use hm_io::{Sink, Source};
use hm_protocol::Rule;
use hm_report::{Written, write_text};
use std::alloc::Global;

/// How a call ends whose text was written so, by what the verdicts come to.
fn ending(outcome: Outcome, written: Written) -> Ended
    ensures { result ≡ ending_of outcome written }
{
    match written {
        Written::Done => Ended::Told(outcome),
        Written::Fault => Ended::WriteFault,
        Written::NoMemory => Ended::NoMemory,
    }
}

/// Writes what is said of bytes; how the call ends tells what the verdicts come to.
fn write_judged<K: Sink>(alloc: Global, expected: &[Rule], judged: &Judged, sink: &mut K) -> Ended
    ensures ends { EndsAs (outcome_of expected.now judged.now.said) result }
    ensures written { HasWritten judged.now.text (λ t. t ≡ judged.now.text) (K.state sink.old) (K.state sink.new)
        (streams_as result) }
    ensures faults { WriteFaulted (K.state sink.old).faults (K.state sink.new).faults (streams_as result) }
    ensures flushed { IsFlushed (K.state sink.new).pending (streams_as result) }
{
    let outcome = outcome(expected, judged.said.as_slice());
    let written = write_text(alloc, &judged.text, sink);
    ending(outcome, written)
}

/// What is said of the bytes that the source has, or how a call ends that comes to nothing.
fn judge_source<S: Source>(alloc: Global, source: &mut S) -> Result<Judged, Ended>
    ensures said { IfOk result (λ h. IfSome (S.state source.old).left (λ bytes. said_of bytes ≡ Ok h)) }
    ensures none { IfErr result (HasNoTrace (S.state source.old)) }
    ensures faults { OnOk result ((S.state source.new).faults ≡ (S.state source.old).faults) }
    ensures fault { IfErr result
        (λ ended. ReadFaulted (S.state source.old).faults (S.state source.new).faults (streams_as ended)) }
{
    let text = match read_all(alloc, source, MOST_REPORT_BYTES) {
        Input::Whole(text) => text,
        Input::Fault => return Err(Ended::ReadFault),
        Input::TooLong => return Err(Ended::TooLong),
        Input::NoMemory => return Err(Ended::NoMemory),
    };
    judge_bytes(alloc, text.as_slice())
}

/// Reads a trace, or several, and writes the verdicts.
fn judge_trace<S: Source, K: Sink>(
    alloc: Global,
    expected: &[Rule],
    source: &mut S,
    sink: &mut K,
) -> Ended
    ensures { Judges expected.now (traffic S.state K.state source.old source.new sink.old sink.new) result }
{
    match judge_source(alloc, source) {
        Ok(judged) => write_judged(alloc, expected, &judged, sink),
        Err(ended) => ended,
    }
}

/// Does a task: reads a trace, or several, and writes the verdicts.
fn run_task<S: Source, K: Sink>(alloc: Global, task: &Task, source: &mut S, sink: &mut K) -> Ended
    ensures { Does (asked_by task.now) (traffic S.state K.state source.old source.new sink.old sink.new) result }
{
    match task {
        Task::Verdicts => judge_trace(alloc, &[], source, sink),
        Task::Expect(rules) => judge_trace(alloc, rules.as_slice(), source, sink),
    }
}

/// Does what the words after the program's name ask for: reads a trace from the source, or several, and writes the
/// verdicts to the sink. How it ends tells if a rule is broken, or one that the words name was not tested. It waits for nobody.
pub fn judge<S: Source, K: Sink>(
    alloc: Global,
    words: &[String],
    source: &mut S,
    sink: &mut K,
) -> Ended
    ensures { Runs (map string_bytes words.now)
        (traffic S.state K.state source.old source.new sink.old sink.new) result }
{
    match task_of(alloc, words) {
        Ok(task) => run_task(alloc, &task, source, sink),
        Err(ended) => ended,
    }
}
