// The entries of a history, line by line.
ghost use Rattle.std.specs.Prelude.{◌≡◌, IfOk};
ghost use Rattle.hm_report_reading.specs.Entries.{ReadsAll};

use crate::reader::LineReader;
use hm_base::{MOST_ENTRIES, NoMemory};
use hm_history::History;
use hm_script::cut_line;
use std::alloc::Global;

/// Reads lines of entries, whose positions rise from 0, up to the first other line, and gives that line and what
/// follows it. A history has no more than `MOST_ENTRIES`.
pub fn read_entries<'a>(
    alloc: Global,
    reader: &mut LineReader,
    bytes: &'a [u8],
) -> Result<(History, &'a [u8]), NoMemory>
    ensures { IfOk result (λ r. ReadsAll bytes.now r.0.entries r.1.now) }
{
    let mut history = History::new(alloc);
    let mut rest = bytes;
    while !rest.is_empty() && history.len() < MOST_ENTRIES {
        let (line, after) = cut_line(rest);
        let Some(entry) = reader.entry(alloc, line, history.len())? else {
            return Ok((history, rest));
        };
        history.reserve(1)?;
        history.push_reserved(entry);
        rest = after;
    }
    Ok((history, rest))
}
