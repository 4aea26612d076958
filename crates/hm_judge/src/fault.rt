// What is wrong with a bad line.
ghost use Rattle.std.specs.Prelude.{IfOk, slice_get};
ghost use Rattle.hm_check.specs.Parts.{BeginsNoEntry, IsNoEntry};
ghost use Rattle.hm_report_reading.specs.Entries.{IsRead};
ghost use Rattle.hm_parts.specs.Parts.{AreParts};
ghost use Rattle.hm_parts.specs.Shown.{AreShown};
ghost use Rattle.hm_script.specs.Automaton.{lines};
ghost use Rattle.hm_judge.specs.Judgements.{IsFault, IsLineFault};

use crate::judgement::Fault;
use crate::lines::line_at;
use hm_base::{MOST_ENTRIES, NoMemory};
use hm_history::Entry;
use hm_parts::{Findings, find};
use hm_report_reading::LineReader;
use hm_world::World;
use std::alloc::Global;

/// What is found of the entry after the world's history.
fn find_in(alloc: Global, world: &World, entry: &Entry) -> Result<Findings, NoMemory>
    ensures parts { IfOk result (λ x. AreParts world.now.script world.now.history entry.now x.parts) }
    ensures shown { IfOk result (λ x. AreShown world.now.script world.now.history entry.now x.shown) }
{
    world.facts();
    let records = world.records(entry.actor);
    find(alloc, world, world.history().as_slice(), records, entry)
}

/// The entry that has this line at this position, if one has.
fn entry_on(alloc: Global, line: &[u8], at: u64) -> Result<Option<Entry>, NoMemory>
    ensures { IfOk result (IsRead at line.now) }
{
    let mut reader = LineReader::new(alloc)?;
    reader.entry(alloc, line, at)
}

/// What is wrong with a line that is that of no entry that is due.
fn line_fault(alloc: Global, world: &World, line: &[u8]) -> Result<Fault, NoMemory>
    requires { IsNoEntry world.now.script world.now.history line.now }
    ensures { IfOk result (IsLineFault world.now.script world.now.history line.now) }
{
    world.facts();
    let at = world.history().len();
    if at == MOST_ENTRIES {
        return Ok(Fault::Full);
    }
    match entry_on(alloc, line, at)? {
        Some(entry) => {
            let Findings { parts, shown } = find_in(alloc, world, &entry)?;
            Ok(Fault::Entry(entry, parts, shown))
        }
        None => Ok(Fault::NoEntry),
    }
}

/// What is wrong with the lines after the entries, of which the first `same` end the report. The first line is that of
/// no entry that is due.
pub(crate) fn fault_at(
    alloc: Global,
    world: &World,
    rest: &[u8],
    same: u64,
) -> Result<Fault, NoMemory>
    requires { BeginsNoEntry world.now.script world.now.history (lines rest.now) }
    ensures { IfOk result
        (IsFault world.now.script world.now.history same (slice_get (lines rest.now) same)) }
{
    match line_at(rest, same) {
        None => Ok(Fault::Missing),
        Some(line) => {
            if same == 0 {
                line_fault(alloc, world, line)
            } else {
                Ok(Fault::Behind)
            }
        }
    }
}
