// The text that tells where the bytes of all loads came from.
ghost use Rattle.std.specs.Prelude.{◌≡◌, ℕ, ◌+◌, ◌≤◌, ◌^◌, ◌∷◌, ◌++◌, length, map, IfOk, OnOk};
ghost use Rattle.hm_history.specs.Memory.Words.{numbers};
ghost use Rattle.hm_report.specs.Line.{spaced};
ghost use Rattle.hm_report.specs.Written.{Writes, SentOn, FaultCause, ReportWants};
ghost use Rattle.hm_why.specs.Laws.{IsLegal};
ghost use Rattle.hm_why.specs.Writers.{source_in, process_in, IsSized};
ghost use Rattle.hm_why.specs.Loads.{is_load, IsLow, source_text, why_line, load_count, why_text};

use crate::changes::{entry_on, next_change};
use crate::laws::loads_lie_in_a_page;
use crate::writers::Writers;
use hm_base::{NoMemory, Proc, Text};
use hm_history::{Entry, History, Kind};
use hm_io::Sink;
use hm_report::{Buffer, Written, put_decimal, put_end, write_text};
use std::alloc::Global;

/// Adds a space and the source.
fn add_source(text: &mut Text, out: &mut Buffer, source: Option<u64>) -> Result<(), NoMemory>
    ensures { OnOk result (text.new ≡ text.old ++ 32 ∷ source_text source) }
{
    out.clear();
    match source {
        Some(at) => put_decimal(out, b" ", at),
        None => out.put(b" -"),
    }
    text.extend(out.as_slice())
}

/// Adds the sources of this many bytes of a process, in their order.
fn add_sources(
    text: &mut Text,
    out: &mut Buffer,
    writers: &Writers,
    proc: Proc,
    addr: u64,
    len: u64,
) -> Result<(), NoMemory>
    requires sized { IsSized writers.now }
    requires low { addr + len ≤ 2 ^ 48 }
    ensures { OnOk result (text.new
        ≡ text.old ++ spaced (map source_text (map (source_in writers.now proc) (numbers addr len)))) }
{
    let end = addr + len;
    let changes = writers.changes_of(proc);
    let mut source = changes.get(addr);
    let mut points = changes.ahead(addr, end);
    let mut next = next_change(&mut points);
    for byte in addr..end {
        source = entry_on(&mut points, &mut next, byte, source);
        add_source(text, out, source)?;
    }
    Ok(())
}

/// Adds the line of the entry at this position, if it is a load.
fn add_line(
    text: &mut Text,
    out: &mut Buffer,
    writers: &Writers,
    at: u64,
    kind: &Kind,
) -> Result<(), NoMemory>
    requires sized { IsSized writers.now }
    requires low { IsLow kind.now }
    ensures { OnOk result (text.new
        ≡ text.old ++ why_line (process_in writers.now) (source_in writers.now) at kind.now) }
{
    match kind {
        Kind::Loaded { who, addr, bytes } => {
            out.clear();
            put_decimal(out, b"why ", at);
            text.extend(out.as_slice())?;
            let proc = writers.process(*who);
            add_sources(text, out, writers, proc, *addr, bytes.len())?;
            text.push(b'\n')
        }
        _ => Ok(()),
    }
}

fn is_load(kind: &Kind) -> bool
    ensures { result ≡ is_load kind.now }
{
    matches!(kind, Kind::Loaded { .. })
}

/// How many loads there are.
fn load_count(entries: &[Entry]) -> u64
    ensures { result ≡ load_count entries.now }
{
    let mut count = 0;
    for entry in entries {
        if is_load(&entry.kind) {
            count += 1;
        }
    }
    count
}

/// The text that tells where the bytes of all loads came from: a line for each load, with its position and the
/// positions of the entries that gave its bytes their values, and a last line with the number of loads. One pass over
/// the history.
pub fn why_text(alloc: Global, history: &History) -> Result<Text, NoMemory>
    requires { IsLegal history.now.entries }
    ensures { IfOk result (λ text. text ≡ why_text history.now.entries) }
{
    loads_lie_in_a_page();
    let entries = history.as_slice();
    let mut writers = Writers::new(alloc)?;
    let mut out = Buffer::new(alloc)?;
    let mut text = Text::new(alloc);
    for at in 0..entries.len() {
        let kind = &entries[at].kind;
        add_line(&mut text, &mut out, &writers, at as u64, kind)?;
        writers.note(at as u64, kind)?;
    }
    out.clear();
    put_end(&mut out, load_count(entries));
    text.extend(out.as_slice())?;
    Ok(text)
}

/// Writes that text and flushes the sink. The text is made whole before anything is written.
pub fn write_why<K: Sink>(alloc: Global, history: &History, sink: &mut K) -> Written
    requires { IsLegal history.now.entries }
    ensures text { Writes (K.state sink.old).held (K.state sink.new).held (why_text history.now.entries) result }
    ensures sent { SentOn (K.state sink.new).pending result }
    ensures faults { FaultCause (K.state sink.old).faults (K.state sink.new).faults result }
    ensures wants { ReportWants (K.state sink.old)
        (K.state sink.new) result }
{
    match why_text(alloc, history) {
        Ok(text) => write_text(alloc, &text, sink),
        Err(NoMemory) => Written::NoMemory,
    }
}
