// The page of a legal report.
ghost use Rattle.std.specs.Prelude.{◌≡◌, ◌≤◌, ◌++◌, [], length, IfOk, OnOk};
ghost use Rattle.hm_base.specs.declared.limits.TheConstants.{MOST_ENTRIES};
ghost use Rattle.hm_history.specs.Laws.{DueFrom};
ghost use Rattle.hm_world.specs.WorldValue.{opening};
ghost use Rattle.hm_check.specs.FirstBad.{IsLegalReport};
ghost use Rattle.hm_report.specs.Written.{Writes, SentOn, FaultCause, ReportWants};
ghost use Rattle.hm_view.specs.Page.{rows_line, front, middle, ending, behind_head, page_head, page_end, page_text};

use crate::changes::add_first_lines;
use crate::findings::add_findings;
use crate::laws::legal_is_due;
use crate::page::{end, head};
use crate::rows::add_rows;
use crate::standing::add_standing_line;
use hm_base::{NoMemory, Script, Text};
use hm_check::{Report, put_tail};
use hm_history::{Entry, History};
use hm_io::Sink;
use hm_reads::Reads;
use hm_report::{Buffer, Written, put_decimal, write_text};
use hm_script::print;
use hm_world::World;
use std::alloc::Global;

/// Adds the script's text and the findings.
#[tactic(auto, using(std::proofs::Common::append_assoc), unfolding(crate::specs::Page::front))]
fn add_front(
    alloc: Global,
    text: &mut Text,
    out: &mut Buffer,
    script: &Script,
    entries: &[Entry],
) -> Result<(), NoMemory>
    ensures { OnOk result (text.new ≡ text.old ++ front script.now entries.now) }
{
    let spelled = print(alloc, script)?;
    text.extend(spelled.as_slice())?;
    text.extend(b"findings\n")?;
    add_findings(text, out, entries)
}

/// Adds the line before the rows.
#[tactic(auto, using(std::proofs::Common::append_assoc))]
fn add_rows_line(text: &mut Text, out: &mut Buffer, from: u64) -> Result<(), NoMemory>
    ensures { OnOk result (text.new ≡ text.old ++ rows_line from) }
{
    out.clear();
    put_decimal(out, b"rows ", from);
    out.push(b'\n');
    text.extend(out.as_slice())
}

/// Adds what holds before the first row, the rows before a position, of which those from `from` on are shown, and how the actors stand after them.
#[tactic(auto, using(std::proofs::Common::append_assoc), unfolding(crate::specs::Page::middle))]
fn add_middle(
    alloc: Global,
    text: &mut Text,
    out: &mut Buffer,
    world: &mut World,
    entries: &[Entry],
    from: u64,
    to: u64,
) -> Result<(), NoMemory>
    requires start { world.old ≡ opening world.old.script }
    requires dues { DueFrom world.old.script [] entries.now }
    requires few { length entries.now ≤ MOST_ENTRIES }
    requires within { to ≤ length entries.now }
    ensures script { OnOk result (world.new.script ≡ world.old.script) }
    ensures text { OnOk result (text.new ≡ text.old ++ middle world.old.script entries.now from to) }
{
    add_rows_line(text, out, from)?;
    add_first_lines(text, out)?;
    add_rows(alloc, text, out, world, entries, from, to)?;
    add_standing_line(alloc, text, out, &*world)
}

/// Adds the end of the page.
fn add_end(text: &mut Text) -> Result<(), NoMemory>
    ensures { OnOk result (text.new ≡ text.old ++ page_end) }
{
    text.extend(end())
}

/// Adds what follows the rows, and the end of the page.
#[tactic(auto, using(std::proofs::Common::append_assoc), unfolding(crate::specs::Page::ending))]
fn add_back(
    text: &mut Text,
    out: &mut Buffer,
    script: &Script,
    history: &History,
) -> Result<(), NoMemory>
    requires { DueFrom script.now [] history.now.entries }
    ensures { OnOk result (text.new ≡ text.old ++ ending script.now history.now.entries) }
{
    put_tail(out, script, history);
    text.extend(out.as_slice())?;
    add_end(text)
}

/// Adds the head of the page.
fn add_head(text: &mut Text) -> Result<(), NoMemory>
    ensures { OnOk result (text.new ≡ text.old ++ page_head) }
{
    text.extend(head())
}

/// Adds the rows and what follows them.
#[tactic(auto, using(std::proofs::Common::append_assoc))]
fn add_rest(
    alloc: Global,
    text: &mut Text,
    out: &mut Buffer,
    world: &mut World,
    history: &History,
    from: u64,
    to: u64,
) -> Result<(), NoMemory>
    requires start { world.old ≡ opening world.old.script }
    requires dues { DueFrom world.old.script [] history.now.entries }
    requires few { length history.now.entries ≤ MOST_ENTRIES }
    requires within { to ≤ length history.now.entries }
    ensures { OnOk result (text.new
        ≡ text.old
        ++ (middle world.old.script history.now.entries from to
        ++ ending world.old.script history.now.entries)) }
{
    add_middle(alloc, text, out, world, history.as_slice(), from, to)?;
    add_back(text, out, world.script(), history)
}

/// Adds what follows the head.
#[tactic(auto, using(std::proofs::Common::append_assoc), unfolding(crate::specs::Page::behind_head))]
fn add_lines(
    alloc: Global,
    text: &mut Text,
    out: &mut Buffer,
    report: Report,
    from: u64,
    to: u64,
) -> Result<(), NoMemory>
    requires legal { IsLegalReport report.script report.history.entries }
    requires within { to ≤ length report.history.entries }
    ensures { OnOk result (text.new ≡ text.old ++ behind_head report.script report.history.entries from to) }
{
    legal_is_due();
    let Report { script, history } = report;
    add_front(alloc, text, out, &script, history.as_slice())?;
    let mut world = World::new(alloc, script)?;
    let added = add_rest(alloc, text, out, &mut world, &history, from, to);
    // Taken apart, since a drop here would be proved once more, part by part.
    let _ = world.into_parts();
    added
}

/// The page of a legal report: its script, its findings, and a row for each entry before `to`, of which those from
/// `from` on tell how each actor stands. One pass over the history; it is made whole in memory.
#[tactic(auto, using(std::proofs::Common::append_assoc), unfolding(crate::specs::Page::page_text))]
pub fn page_text(alloc: Global, report: Report, from: u64, to: u64) -> Result<Text, NoMemory>
    requires legal { IsLegalReport report.script report.history.entries }
    requires within { to ≤ length report.history.entries }
    ensures { IfOk result (λ t. t ≡ page_text report.script report.history.entries from to) }
{
    let mut out = Buffer::new(alloc)?;
    let mut text = Text::new(alloc);
    add_head(&mut text)?;
    add_lines(alloc, &mut text, &mut out, report, from, to)?;
    Ok(text)
}

/// Writes that page and flushes the sink. The page is made whole before anything is written.
pub fn write_page<K: Sink>(
    alloc: Global,
    report: Report,
    from: u64,
    to: u64,
    sink: &mut K,
) -> Written
    requires legal { IsLegalReport report.script report.history.entries }
    requires within { to ≤ length report.history.entries }
    ensures text { Writes (K.state sink.old).held (K.state sink.new).held
        (page_text report.script report.history.entries from to) result }
    ensures sent { SentOn (K.state sink.new).pending result }
    ensures faults { FaultCause (K.state sink.old).faults (K.state sink.new).faults result }
    ensures wants { ReportWants (K.state sink.old)
        (K.state sink.new) result }
{
    match page_text(alloc, report, from, to) {
        Ok(text) => write_text(alloc, &text, sink),
        Err(NoMemory) => Written::NoMemory,
    }
}
