// The word `check`.
ghost use Rattle.std.specs.Prelude.{◌≡◌, [], None, IfOk};
ghost use Rattle.hm_top.specs.Checks.{Checks, bad_line};
ghost use Rattle.hm_check.specs.Judging.{IsSound, IsVerdictOn};
ghost use Rattle.hm_edge.specs.Reading.{HasNotJudged, ReadFaulted};
ghost use Rattle.hm_edge.specs.Traffic.{traffic};
ghost use Rattle.hm_top.specs.Verdicts.{AnswersTo, EndsAt, told_status, verdict_line, verdict_status};
ghost use Rattle.hm_edge.specs.Writing.{HasWritten, IsFlushed, WriteFaulted};

use crate::ended::Ended;
use hm_base::{NoMemory, Text};
use hm_check::{Verdict, check_source};
use hm_edge::Status;
use hm_io::{Sink, Source};
use hm_report::{Written, write_text};
use hm_workers::PeekList;
use std::alloc::Global;

/// The line on bytes with this first bad line.
pub(crate) fn bad_line(alloc: Global, line: u64) -> Result<Text, NoMemory>
    ensures { IfOk result (λ t. t ≡ bad_line line) }
{
    let text = format!(in alloc; "bad {line}\n")?;
    Text::from_slice(alloc, text.as_bytes())
}

/// The line of a verdict.
fn verdict_line(alloc: Global, verdict: &Verdict) -> Result<Text, NoMemory>
    ensures { IfOk result (λ t. t ≡ verdict_line verdict.now) }
{
    match verdict {
        Verdict::Yes(report) => {
            let count = report.history.len();
            let text = format!(in alloc; "legal {count}\n")?;
            Text::from_slice(alloc, text.as_bytes())
        }
        Verdict::No(line) => bad_line(alloc, *line),
    }
}

/// Ends a call whose line went out.
fn answer(alloc: Global, verdict: Verdict) -> Ended
    ensures status { result.status ≡ verdict_status verdict }
    ensures answer { AnswersTo verdict result }
    ensures peeks { result.peeks ≡ [] }
{
    match verdict {
        Verdict::Yes(report) => Ended {
            status: Status::Done,
            script: Some(report.script),
            history: report.history,
            receipt: None,
            peeks: PeekList::new(alloc),
        },
        Verdict::No(line) => Ended::stopped(alloc, Status::NotLegal(line)),
    }
}

/// Ends a call whose text of the verdict was written so.
pub(crate) fn end_judged(alloc: Global, verdict: Verdict, written: Written) -> Ended
    ensures status { result.status ≡ told_status verdict written }
    ensures peeks { result.peeks ≡ [] }
    ensures ends { EndsAt verdict result result.status }
    ensures receipt { result.receipt ≡ None }
{
    match written {
        Written::Done => answer(alloc, verdict),
        Written::Fault => {
            let mut ended = answer(alloc, verdict);
            ended.status = Status::WriteFault;
            ended
        }
        Written::NoMemory => Ended::stopped(alloc, Status::NoMemory),
    }
}

/// Writes the line of the verdict, and ends the call.
fn write_verdict<K: Sink>(alloc: Global, verdict: Verdict, sink: &mut K) -> Ended
    ensures ends { EndsAt verdict result result.status }
    ensures receipt { result.receipt ≡ None }
    ensures written { HasWritten (verdict_line verdict) (λ t. t ≡ verdict_line verdict)
        (K.state sink.old) (K.state sink.new)
        result.status }
    ensures write_faults { WriteFaulted (K.state sink.old).faults (K.state sink.new).faults result.status }
    ensures flushed { IsFlushed (K.state sink.new).pending result.status }
    ensures peeks { result.peeks ≡ [] }
{
    let Ok(line) = verdict_line(alloc, &verdict) else {
        return Ended::stopped(alloc, Status::NoMemory);
    };
    let written = write_text(alloc, &line, sink);
    end_judged(alloc, verdict, written)
}

/// Reads a report, and writes the verdict on it.
pub(crate) fn check<S: Source, K: Sink>(alloc: Global, source: &mut S, sink: &mut K) -> Ended
    ensures does { Checks
        (traffic S.state K.state source.old source.new sink.old sink.new) result }
    ensures peeks { result.peeks ≡ [] }
{
    match check_source(alloc, source) {
        Ok(verdict) => write_verdict(alloc, verdict, sink),
        Err(status) => Ended::stopped(alloc, status),
    }
}
