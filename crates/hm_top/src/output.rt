// Writing what a call has made.
ghost use Rattle.std.specs.Prelude.{◌≡◌, [], None};
ghost use Rattle.hm_history.specs.Kernel.Legal.{Legal};
ghost use Rattle.hm_report.specs.Report.{report};
ghost use Rattle.hm_report.specs.Summary.{summary};
ghost use Rattle.hm_script.specs.Spelling.{text};
ghost use Rattle.hm_top.specs.Generates.{HasMade, IsAlone};
ghost use Rattle.hm_top.specs.Ran.{IsRan, Shows, shown_status};
ghost use Rattle.hm_edge.specs.Writing.{HasWritten, IsFlushed, WriteFaulted};

use crate::ended::Ended;
use crate::schedule::Ran;
use hm_base::Script;
use hm_edge::Status;
use hm_history::History;
use hm_io::Sink;
use hm_report::{Written, summary, write_report, write_text};
use hm_script::print;
use hm_workers::PeekList;
use std::alloc::Global;

/// Ends a call whose text of what ran was written so.
pub(crate) fn show_run(alloc: Global, ran: Ran, written: Written) -> Ended
    ensures shows { Shows ran result }
    ensures status { result.status ≡ shown_status written ran.full }
    ensures peeks { result.peeks ≡ [] }
{
    let status = match written {
        Written::Done if ran.full => Status::HistoryFull,
        Written::Done => Status::Done,
        Written::Fault => Status::WriteFault,
        Written::NoMemory => return Ended::stopped(alloc, Status::NoMemory),
    };
    Ended {
        status,
        script: Some(ran.script),
        history: ran.history,
        receipt: ran.receipt,
        peeks: PeekList::new(alloc),
    }
}

/// Writes the report of what ran, and ends the call.
pub(crate) fn report_run<K: Sink>(alloc: Global, ran: Ran, sink: &mut K) -> Ended
    requires { Legal ran.script ran.history.entries }
    ensures shows { Shows ran result }
    ensures written { HasWritten (report ran.script ran.history.entries)
        (λ t. t ≡ report ran.script ran.history.entries) (K.state sink.old) (K.state sink.new) result.status }
    ensures write_faults { WriteFaulted (K.state sink.old).faults (K.state sink.new).faults result.status }
    ensures flushed { IsFlushed (K.state sink.new).pending result.status }
    ensures peeks { result.peeks ≡ [] }
{
    let written = write_report(alloc, &ran.script, &ran.history, sink);
    show_run(alloc, ran, written)
}

/// Writes the script's text, and ends the call.
pub(crate) fn write_script<K: Sink>(alloc: Global, script: Script, sink: &mut K) -> Ended
    ensures made { HasMade (IsAlone script) result.script result.history.entries result.status }
    ensures written { HasWritten (text script) (λ t. t ≡ text script)
        (K.state sink.old) (K.state sink.new)
        result.status }
    ensures receipt { result.receipt ≡ None }
    ensures write_faults { WriteFaulted (K.state sink.old).faults (K.state sink.new).faults result.status }
    ensures flushed { IsFlushed (K.state sink.new).pending result.status }
    ensures peeks { result.peeks ≡ [] }
{
    let Ok(text) = print(alloc, &script) else {
        return Ended::stopped(alloc, Status::NoMemory);
    };
    let status = match write_text(alloc, &text, sink) {
        Written::Done => Status::Done,
        Written::Fault => Status::WriteFault,
        Written::NoMemory => return Ended::stopped(alloc, Status::NoMemory),
    };
    Ended {
        status,
        script: Some(script),
        history: History::new(alloc),
        receipt: None,
        peeks: PeekList::new(alloc),
    }
}

/// Writes the summary of a trial's run, and ends the call.
pub(crate) fn write_summary<K: Sink>(alloc: Global, number: u64, ran: Ran, sink: &mut K) -> Ended
    requires { Legal ran.script ran.history.entries }
    ensures made { HasMade (IsRan ran) result.script result.history.entries result.status }
    ensures written { HasWritten (summary number ran.script ran.history.entries)
        (λ t. t ≡ summary number ran.script ran.history.entries) (K.state sink.old) (K.state sink.new) result.status }
    ensures receipt { result.receipt ≡ None }
    ensures write_faults { WriteFaulted (K.state sink.old).faults (K.state sink.new).faults result.status }
    ensures flushed { IsFlushed (K.state sink.new).pending result.status }
    ensures peeks { result.peeks ≡ [] }
{
    let Ran {
        script,
        history,
        full: _,
        receipt: _,
    } = ran;
    let Ok(text) = summary(alloc, number, &script, &history) else {
        return Ended::stopped(alloc, Status::NoMemory);
    };
    let status = match write_text(alloc, &text, sink) {
        Written::Done => Status::Done,
        Written::Fault => Status::WriteFault,
        Written::NoMemory => return Ended::stopped(alloc, Status::NoMemory),
    };
    Ended {
        status,
        script: Some(script),
        history,
        receipt: None,
        peeks: PeekList::new(alloc),
    }
}
