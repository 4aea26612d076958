// The top call: reads a report, and writes the judgement on it.
ghost use Rattle.std.specs.Prelude.{◌≡◌, map, string_bytes};
ghost use Rattle.hm_edge.specs.Traffic.{traffic};
ghost use Rattle.hm_edge.specs.Writing.{HasWritten, IsFlushed, WriteFaulted};
ghost use Rattle.hm_judge.specs.Judging.{EndsAs, Judges, ending_of};
ghost use Rattle.hm_judge.specs.Runs.{Runs};
ghost use Rattle.hm_judge.specs.LaterTexts.{answer_text};

use crate::answer::Answer;
use crate::asked::Asked;
use crate::judgement::Judgement;
use crate::later_text::answer_text;
use crate::source::answer_source;
use hm_edge::Status;
use hm_io::{Sink, Source};
use hm_report::{Written, write_text};
use std::alloc::Global;

/// How a call ends whose text was written so.
fn ending(judgement: &Judgement, written: Written) -> Status
    ensures { result ≡ ending_of judgement.now written }
{
    match written {
        Written::Fault => Status::WriteFault,
        Written::NoMemory => Status::NoMemory,
        Written::Done => match judgement {
            Judgement::Legal(_) => Status::Done,
            Judgement::Bad(bad) => Status::NotLegal(bad.line),
        },
    }
}

/// Writes the text of an answer.
fn write_answer<K: Sink>(alloc: Global, asked: Asked, answer: &Answer, sink: &mut K) -> Status
    ensures ends { EndsAs answer.now.judgement result }
    ensures written { HasWritten (answer_text asked answer.now) (λ t. t ≡ answer_text asked answer.now)
        (K.state sink.old) (K.state sink.new) result }
    ensures faults { WriteFaulted (K.state sink.old).faults (K.state sink.new).faults result }
    ensures flushed { IsFlushed (K.state sink.new).pending result }
{
    let Ok(text) = answer_text(alloc, asked, answer) else {
        return Status::NoMemory;
    };
    let written = write_text(alloc, &text, sink);
    ending(&answer.judgement, written)
}

/// Reads a report, and writes the judgement on it.
fn judge_report<S: Source, K: Sink>(
    alloc: Global,
    asked: Asked,
    source: &mut S,
    sink: &mut K,
) -> Status
    ensures { Judges asked (traffic S.state K.state source.old source.new sink.old sink.new) result }
{
    match answer_source(alloc, asked, source) {
        Ok(answer) => write_answer(alloc, asked, &answer, sink),
        Err(status) => status,
    }
}

/// Reads a report from the source, and writes the judgement on it to the sink, as the words after the program's name
/// ask for it. It waits for nobody.
pub fn judge<S: Source, K: Sink>(
    alloc: Global,
    words: &[String],
    source: &mut S,
    sink: &mut K,
) -> Status
    ensures { Runs (map string_bytes words.now)
        (traffic S.state K.state source.old source.new sink.old sink.new) result }
{
    match Asked::of(words) {
        Some(asked) => judge_report(alloc, asked, source, sink),
        None => Status::Usage,
    }
}
