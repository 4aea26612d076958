// The top call: reads a report, and writes the trace of its history.
ghost use Rattle.std.specs.Prelude.{◌≡◌, false, IfOk};
ghost use Rattle.hm_check.specs.FirstBad.{IsLegalReport};
ghost use Rattle.hm_edge.specs.Traffic.{traffic};
ghost use Rattle.hm_edge.specs.Writing.{WriteFaulted};
ghost use Rattle.hm_projection.specs.Traces.{IsReadBack, trace_of};
ghost use Rattle.hm_projection.specs.Writes.{HasTraced, WritesTrace};

use crate::entries::project;
use crate::text::trace_text;
use hm_base::{NoMemory, Text};
use hm_check::{Report, Verdict, check_source};
use hm_edge::Status;
use hm_io::{Sink, Source};
use hm_report::{Written, write_text};
use std::alloc::Global;

/// The trace of a legal report.
fn trace_of(alloc: Global, report: Report) -> Result<Text, NoMemory>
    requires { IsLegalReport report.script report.history.entries }
    ensures text { IfOk result (λ t. t ≡ trace_of report.script report.history.entries) }
    ensures reads { IfOk result (λ t. IsReadBack report.script report.history.entries) }
{
    let events = project(alloc, report)?;
    trace_text(alloc, events.as_slice())
}

/// Writes the trace of a legal report.
fn write_trace<K: Sink>(alloc: Global, report: Report, sink: &mut K) -> Status
    requires { IsLegalReport report.script report.history.entries }
    ensures written { HasTraced report.script report.history.entries
        (K.state sink.old) (K.state sink.new) result }
    ensures faults { WriteFaulted (K.state sink.old).faults (K.state sink.new).faults result }
    ensures flushed { result ≡ Status.Done → (K.state sink.new).pending ≡ false }
{
    let Ok(text) = trace_of(alloc, report) else {
        return Status::NoMemory;
    };
    match write_text(alloc, &text, sink) {
        Written::Done => Status::Done,
        Written::Fault => Status::WriteFault,
        Written::NoMemory => Status::NoMemory,
    }
}

/// Reads a report from the source, and writes the trace of its history to the sink. It waits for nobody.
pub fn write_trace_of<S: Source, K: Sink>(alloc: Global, source: &mut S, sink: &mut K) -> Status
    ensures { WritesTrace (traffic S.state K.state source.old source.new sink.old sink.new) result }
{
    match check_source(alloc, source) {
        Ok(Verdict::Yes(report)) => write_trace(alloc, report, sink),
        Ok(Verdict::No(line)) => Status::NotLegal(line),
        Err(status) => status,
    }
}
