// The script at the front of a report.
ghost use Rattle.std.specs.Prelude.{◌+◌, ◌≤◌, length, IfOk};
ghost use Rattle.hm_report_front.specs.Heads.{ReadsHead};

use crate::front::cut_front;
use hm_base::{NoMemory, Script};
use hm_script::{ScriptError, parse};
use std::alloc::Global;

/// The script at a report's front, and the lines after it.
#[derive(Drop)]
pub struct Head<'a> {
    pub script: Script,
    /// The number, from 1, of the first line after `history`.
    pub first: u64,
    /// The lines after `history`.
    pub rest: &'a [u8],
}

/// The number, from 1, of a first bad line.
#[derive(Clone, Copy)]
pub struct BadLine(pub u64);

/// Reads the script at a report's front, and the line `history` after it.
pub fn read_head(alloc: Global, bytes: &[u8]) -> Result<Result<Head<'_>, BadLine>, NoMemory>
    ensures read { IfOk result (ReadsHead bytes.now) }
    ensures few { IfOk result (λ r. IfOk r (λ head. head.first + length head.rest.now ≤ length bytes.now + 2)) }
{
    let front = cut_front(bytes);
    let script = match parse(alloc, front.script) {
        Ok(script) => script,
        Err(ScriptError::Refused(refused)) => return Ok(Err(BadLine(refused.line))),
        Err(ScriptError::NoMemory) => return Err(NoMemory),
    };
    script.facts();
    match front.rest {
        Some(rest) => Ok(Ok(Head {
            script,
            first: front.lines + 2,
            rest,
        })),
        None => Ok(Err(BadLine(front.lines + 1))),
    }
}
