// The word `why`.
ghost use Rattle.std.specs.Prelude.{◌≡◌, [], None};
ghost use Rattle.hm_report.specs.Written.{FaultCause, ReportWants, SentOn, Writes};
ghost use Rattle.hm_top.specs.Checks.{Explains, bad_line};
ghost use Rattle.hm_edge.specs.Traffic.{traffic};
ghost use Rattle.hm_top.specs.Verdicts.{EndsAt, verdict_text};
ghost use Rattle.hm_check.specs.Judging.{IsSound};
ghost use Rattle.hm_edge.specs.Writing.{HasWritten, IsFlushed, WriteFaulted};
ghost use Rattle.hm_why.specs.Loads.{why_text};

use crate::check::{bad_line, end_judged};
use crate::ended::Ended;
use hm_base::NoMemory;
use hm_check::{Verdict, check_source};
use hm_io::{Sink, Source};
use hm_report::{Written, write_text};
use hm_why::write_why;
use std::alloc::Global;

/// Writes the line on the first bad line.
fn write_bad<K: Sink>(alloc: Global, line: u64, sink: &mut K) -> Written
    ensures text { Writes (K.state sink.old).held (K.state sink.new).held (bad_line line) result }
    ensures sent { SentOn (K.state sink.new).pending result }
    ensures faults { FaultCause (K.state sink.old).faults (K.state sink.new).faults result }
    ensures wants { ReportWants (K.state sink.old) (K.state sink.new) result }
{
    match bad_line(alloc, line) {
        Ok(text) => write_text(alloc, &text, sink),
        Err(NoMemory) => Written::NoMemory,
    }
}

/// Writes where the bytes of each load came from, or the line on the first bad line.
fn tell_sources<K: Sink>(alloc: Global, verdict: &Verdict, sink: &mut K) -> Written
    requires { IsSound verdict.now }
    ensures text { Writes (K.state sink.old).held (K.state sink.new).held (verdict_text why_text verdict.now) result }
    ensures sent { SentOn (K.state sink.new).pending result }
    ensures faults { FaultCause (K.state sink.old).faults (K.state sink.new).faults result }
    ensures wants { ReportWants (K.state sink.old) (K.state sink.new) result }
{
    match verdict {
        Verdict::Yes(report) => write_why(alloc, &report.history, sink),
        Verdict::No(line) => write_bad(alloc, *line, sink),
    }
}

/// Writes that text, and ends the call.
fn write_sources<K: Sink>(alloc: Global, verdict: Verdict, sink: &mut K) -> Ended
    requires { IsSound verdict }
    ensures ends { EndsAt verdict result result.status }
    ensures receipt { result.receipt ≡ None }
    ensures written { HasWritten (verdict_text why_text verdict) (λ t. t ≡ verdict_text why_text verdict)
        (K.state sink.old) (K.state sink.new)
        result.status }
    ensures write_faults { WriteFaulted (K.state sink.old).faults (K.state sink.new).faults result.status }
    ensures flushed { IsFlushed (K.state sink.new).pending result.status }
    ensures peeks { result.peeks ≡ [] }
{
    let written = tell_sources(alloc, &verdict, sink);
    end_judged(alloc, verdict, written)
}

/// Reads a report, and writes for each load the entries that its bytes came from.
pub(crate) fn why<S: Source, K: Sink>(alloc: Global, source: &mut S, sink: &mut K) -> Ended
    ensures does { Explains
        (traffic S.state K.state source.old source.new sink.old sink.new) result }
    ensures peeks { result.peeks ≡ [] }
{
    match check_source(alloc, source) {
        Ok(verdict) => write_sources(alloc, verdict, sink),
        Err(status) => Ended::stopped(alloc, status),
    }
}
