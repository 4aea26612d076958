// The lines of operations that have not ended.
ghost use Rattle.std.specs.Prelude.{IfOk};
ghost use Rattle.hm_report_reading.specs.Reports.{ReadsUnfinished};

use crate::reader::{LineReader, Unfinished};
use hm_base::NoMemory;
use hm_script::cut_line;
use std::alloc::Global;

/// Reads these lines up to the first other one, and gives that line and what follows it.
pub(crate) fn read_unfinished<'a>(
    alloc: Global,
    reader: &mut LineReader,
    bytes: &'a [u8],
) -> Result<(Vec<Unfinished>, &'a [u8]), NoMemory>
    ensures { IfOk result (λ r. ReadsUnfinished bytes.now r.0.items r.1.now) }
{
    let mut unfinished = Vec::new(alloc);
    let mut rest = bytes;
    while !rest.is_empty() {
        let (line, after) = cut_line(rest);
        let Some(told) = reader.unfinished(line) else {
            return Ok((unfinished, rest));
        };
        unfinished.push(told)?;
        rest = after;
    }
    Ok((unfinished, rest))
}
