// The report of a script and a history.
ghost use Rattle.std.specs.Prelude.{◌≡◌, ◌+◌, ◌≤◌, ◌<◌, ◌++◌, [], false, length, slice_index, OnOk, IfErr, IfOk};
ghost use Rattle.hm_history.specs.Kernel.Legal.{Legal};
ghost use Rattle.hm_report.specs.Counted.{counted};
ghost use Rattle.hm_report.specs.Ends.{AreCounted};
ghost use Rattle.hm_script.specs.Spelling.{text as script_text};
ghost use Rattle.hm_report.specs.Words.{tail_text};
ghost use Rattle.hm_report.specs.Report.{entry_line, entry_lines, history_line, unfinished_line, unfinished_lines};
ghost use Rattle.hm_report.specs.Report.{end_line, report_by, report};
ghost use Rattle.hm_report.specs.Sends.{Sends, GoesOn, Stops};
ghost use Rattle.hm_report.specs.Written.{Writes, SentOn, FaultCause, TextWants, ReportWants};

use crate::buffer::{Buffer, PIECE, ROOM};
use crate::ended::{ACTORS, Ends, op_count};
use crate::kinds::put_front;
use crate::laws::ends_are_counted;
use crate::numerals::put_decimal;
use crate::outlet::{Stop, put_hex, put_text, settle, write_last};
use crate::written::Written;
use hm_base::{Script, Text};
use hm_history::{Entry, History, Kind};
use hm_io::Sink;
use hm_script::print;
use std::alloc::Global;

/// Adds the bytes that an entry tells, if it tells some.
fn put_tail<K: Sink>(out: &mut Buffer, sink: &mut K, kind: &Kind) -> Result<(), Stop>
    requires { length out.old + 1 < ROOM }
    ensures ok { OnOk result
        (GoesOn (K.state sink.old)
        (K.state sink.new) out.old out.new (tail_text kind.now)) }
    ensures room { OnOk result (length out.new < ROOM) }
    ensures err { IfErr result
        (Stops (K.state sink.old) (K.state sink.new)
        (out.old ++ tail_text kind.now)) }
{
    match kind {
        Kind::Loaded {
            who: _,
            addr: _,
            bytes,
        } => put_hex(out, sink, bytes.as_slice()),
        Kind::Stored {
            who: _,
            addr: _,
            bytes,
        } => put_hex(out, sink, bytes.as_slice()),
        Kind::Fetched {
            mirror: _,
            addr: _,
            bytes,
        } => put_hex(out, sink, bytes.as_slice()),
        _ => Ok(()),
    }
}

/// Adds the line of an entry.
fn put_entry<K: Sink>(out: &mut Buffer, sink: &mut K, at: u64, entry: &Entry) -> Result<(), Stop>
    requires { length out.old ≤ 5000 }
    ensures ok { OnOk result
        (GoesOn (K.state sink.old)
        (K.state sink.new) out.old out.new (entry_line at entry.now)) }
    ensures room { OnOk result (length out.new ≤ 5000) }
    ensures err { IfErr result
        (Stops (K.state sink.old) (K.state sink.new)
        (out.old ++ entry_line at entry.now)) }
{
    put_front(out, at, entry);
    put_tail(out, sink, &entry.kind)?;
    out.push(b'\n');
    settle(out, sink)
}

/// Adds the lines of the entries, from position 0 on, and counts as it goes: the answer is how many operations of each
/// actor have ended.
fn put_entries<K: Sink>(
    out: &mut Buffer,
    sink: &mut K,
    script: &Script,
    entries: &[Entry],
) -> Result<[u64; ACTORS], Stop>
    requires { length out.old ≤ 5000 }
    ensures ended { IfOk result (AreCounted script.now entries.now) }
    ensures ok { OnOk result
        (GoesOn (K.state sink.old)
        (K.state sink.new) out.old out.new (entry_lines 0 entries.now)) }
    ensures room { OnOk result (length out.new ≤ 5000) }
    ensures err { IfErr result
        (Stops (K.state sink.old) (K.state sink.new)
        (out.old ++ entry_lines 0 entries.now)) }
{
    let mut ends = Ends::none();
    for (at, entry) in entries.iter().enumerate() {
        put_entry(out, sink, at as u64, entry)?;
        ends.add(script, entry);
    }
    Ok(ends.operations)
}

/// Adds the line of an actor with an operation that has not ended.
#[tactic(auto, using(std::proofs::Common::append_assoc))]
pub fn put_unfinished_line(out: &mut Buffer, actor: u64, index: u64, count: u64)
    requires { length out.old ≤ 5000 }
    ensures text { out.new ≡ out.old ++ unfinished_line actor index count }
    ensures room { length out.new ≤ length out.old + 200 }
{
    if index != count {
        put_decimal(out, b"unfinished a", actor);
        put_decimal(out, b" ", index);
        out.push(b'\n');
    }
}

/// Adds the lines of the actors with an operation that has not ended, from how many have ended.
fn put_unfinished<K: Sink>(
    out: &mut Buffer,
    sink: &mut K,
    script: &Script,
    ended: &[u64],
) -> Result<(), Stop>
    requires room { length out.old ≤ 5000 }
    requires ended { length script.now.actors ≤ length ended.now }
    ensures ok { OnOk result
        (GoesOn (K.state sink.old)
        (K.state sink.new) out.old out.new
        (unfinished_lines script.now (λ a. slice_index ended.now a))) }
    ensures room { OnOk result (length out.new ≤ 5000) }
    ensures err { IfErr result
        (Stops (K.state sink.old) (K.state sink.new)
        (out.old ++ unfinished_lines script.now (λ a. slice_index ended.now a))) }
{
    for actor in 0..script.actors.len() {
        let count = op_count(script, actor);
        put_unfinished_line(out, actor, ended[actor as usize], count);
        settle(out, sink)?;
    }
    Ok(())
}

/// Adds the script's text and the lines of the entries, and answers how many operations of each actor have ended.
fn put_lines<K: Sink>(
    out: &mut Buffer,
    sink: &mut K,
    text: &[u8],
    script: &Script,
    entries: &[Entry],
) -> Result<[u64; ACTORS], Stop>
    requires { length out.old ≤ PIECE }
    ensures ended { IfOk result (AreCounted script.now entries.now) }
    ensures ok { OnOk result
        (GoesOn (K.state sink.old)
        (K.state sink.new) out.old out.new
        (text.now ++ (history_line ++ entry_lines 0 entries.now))) }
    ensures room { OnOk result (length out.new ≤ 5000) }
    ensures err { IfErr result
        (Stops (K.state sink.old) (K.state sink.new)
        (out.old ++ (text.now ++ (history_line ++ entry_lines 0 entries.now)))) }
{
    put_text(out, sink, text)?;
    out.put(b"history\n");
    put_entries(out, sink, script, entries)
}

/// Adds the last line.
#[tactic(auto, using(std::proofs::Common::append_assoc))]
pub fn put_end(out: &mut Buffer, count: u64)
    requires { length out.old ≤ 5000 }
    ensures text { out.new ≡ out.old ++ end_line count }
    ensures room { length out.new ≤ length out.old + 200 }
{
    put_decimal(out, b"end ", count);
    out.push(b'\n');
}

/// Writes what is in the buffer and the last line.
fn write_end<K: Sink>(out: &mut Buffer, sink: &mut K, count: u64) -> Result<(), Stop>
    requires { length out.old ≤ 5000 }
    ensures ok { OnOk result
        (Sends (K.state sink.old) (K.state sink.new)
        (out.old ++ end_line count)) }
    ensures sent { OnOk result ((K.state sink.new).pending ≡ false) }
    ensures err { IfErr result
        (Stops (K.state sink.old) (K.state sink.new)
        (out.old ++ end_line count)) }
{
    put_end(out, count);
    write_last(sink, out.as_slice())
}

/// Writes all lines, by way of an empty buffer.
fn write_lines<K: Sink>(
    out: &mut Buffer,
    sink: &mut K,
    text: &[u8],
    script: &Script,
    history: &History,
) -> Result<(), Stop>
    requires empty { out.old ≡ [] }
    requires text { text.now ≡ script_text script.now }
    ensures ok { OnOk result
        (Sends (K.state sink.old) (K.state sink.new)
        (report_by script.now history.now.entries (counted script.now history.now.entries))) }
    ensures sent { OnOk result ((K.state sink.new).pending ≡ false) }
    ensures err { IfErr result
        (Stops (K.state sink.old) (K.state sink.new)
        (report_by script.now history.now.entries (counted script.now history.now.entries))) }
{
    script.facts();
    let ended = put_lines(out, sink, text, script, history.as_slice())?;
    put_unfinished(out, sink, script, &ended)?;
    let count = history.len();
    write_end(out, sink, count)
}

/// Writes the report with the ends of operations that the entries tell.
pub(crate) fn write_counted<K: Sink>(
    alloc: Global,
    script: &Script,
    history: &History,
    sink: &mut K,
) -> Written
    ensures text { Writes (K.state sink.old).held (K.state sink.new).held
        (report_by script.now history.now.entries (counted script.now history.now.entries)) result }
    ensures sent { SentOn (K.state sink.new).pending result }
    ensures faults { FaultCause (K.state sink.old).faults (K.state sink.new).faults result }
    ensures wants { ReportWants (K.state sink.old)
        (K.state sink.new) result }
{
    let Ok(text) = print(alloc, script) else {
        return Written::NoMemory;
    };
    let Ok(mut out) = Buffer::new(alloc) else {
        return Written::NoMemory;
    };
    match write_lines(&mut out, sink, text.as_slice(), script, history) {
        Ok(_) => Written::Done,
        Err(Stop::Fault) => Written::Fault,
        Err(Stop::NoMemory) => Written::NoMemory,
    }
}

/// Writes the report of a legal history, piece by piece, and flushes the sink. What it allocates is taken before
/// anything is written.
pub fn write_report<K: Sink>(
    alloc: Global,
    script: &Script,
    history: &History,
    sink: &mut K,
) -> Written
    requires { Legal script.now history.now.entries }
    ensures text { Writes (K.state sink.old).held (K.state sink.new).held (report script.now history.now.entries)
        result }
    ensures sent { SentOn (K.state sink.new).pending result }
    ensures faults { FaultCause (K.state sink.old).faults (K.state sink.new).faults result }
    ensures wants { ReportWants (K.state sink.old)
        (K.state sink.new) result }
{
    ends_are_counted();
    write_counted(alloc, script, history, sink)
}

/// Writes the text, piece by piece, and flushes the sink. It takes no memory itself.
pub fn write_text<K: Sink>(_alloc: Global, text: &Text, sink: &mut K) -> Written
    ensures text { Writes (K.state sink.old).held (K.state sink.new).held text.now result }
    ensures sent { SentOn (K.state sink.new).pending result }
    ensures faults { FaultCause (K.state sink.old).faults (K.state sink.new).faults result }
    ensures wants { TextWants (K.state sink.old).wants (K.state sink.new).wants result }
{
    match write_last(sink, text.as_slice()) {
        Ok(_) => Written::Done,
        Err(Stop::Fault) => Written::Fault,
        Err(Stop::NoMemory) => Written::NoMemory,
    }
}
