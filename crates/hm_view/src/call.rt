// The top call: reads a report, and draws it.
ghost use Rattle.std.specs.Prelude.{◌≡◌, false, length, map, string_bytes};
ghost use Rattle.hm_check.specs.FirstBad.{IsLegalReport};
ghost use Rattle.hm_view.specs.Asked.{asked_of};
ghost use Rattle.hm_edge.specs.Traffic.{traffic};
ghost use Rattle.hm_view.specs.Views.{HasDrawn, Draws, Views};
ghost use Rattle.hm_edge.specs.Writing.{WriteFaulted};

use crate::asked::Asked;
use crate::draw::write_page;
use hm_check::{Report, Verdict, check_source};
use hm_edge::Status;
use hm_io::{Sink, Source};
use hm_report::Written;
use std::alloc::Global;

/// Draws the rows that are asked for.
fn draw<K: Sink>(alloc: Global, report: Report, asked: Asked, sink: &mut K) -> Status
    requires { IsLegalReport report.script report.history.entries }
    ensures drawn { HasDrawn asked report.script report.history.entries
        (K.state sink.old) (K.state sink.new) result }
    ensures faults { WriteFaulted (K.state sink.old).faults (K.state sink.new).faults result }
    ensures flushed { result ≡ Status.Done → (K.state sink.new).pending ≡ false }
{
    let count = report.history.len();
    if !asked.is_there(count) {
        return Status::NoRows;
    }
    if !asked.fits(count) {
        return Status::TooManyRows;
    }
    match write_page(alloc, report, asked.first(), asked.behind(count), sink) {
        Written::Done => Status::Done,
        Written::Fault => Status::WriteFault,
        Written::NoMemory => Status::NoMemory,
    }
}

/// Reads a report, and draws the rows that are asked for.
fn read_and_draw<S: Source, K: Sink>(
    alloc: Global,
    asked: Asked,
    source: &mut S,
    sink: &mut K,
) -> Status
    ensures { Draws asked
        (traffic S.state K.state source.old source.new sink.old sink.new) result }
{
    match check_source(alloc, source) {
        Ok(Verdict::Yes(report)) => draw(alloc, report, asked, sink),
        Ok(Verdict::No(line)) => Status::NotLegal(line),
        Err(status) => status,
    }
}

/// Reads a report from the source, and writes the page of the rows that the words after the program's name ask for to
/// the sink. It waits for nobody.
pub fn view<S: Source, K: Sink>(
    alloc: Global,
    words: &[String],
    source: &mut S,
    sink: &mut K,
) -> Status
    ensures { Views (asked_of (map string_bytes words.now))
        (traffic S.state K.state source.old source.new sink.old sink.new) result }
{
    match Asked::of(words) {
        Some(asked) => read_and_draw(alloc, asked, source, sink),
        None => Status::Usage,
    }
}
