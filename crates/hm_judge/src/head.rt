// What is wrong with a script, or with the line after it.
ghost use Rattle.std.specs.Prelude.{◌≡◌, [], if◌then◌else◌, nat_lt, IfOk};
ghost use Rattle.hm_report.specs.Report.{history_line};
ghost use Rattle.hm_report_front.specs.Heads.{IsBadHead};
ghost use Rattle.hm_judge.specs.Judgements.{HasBadHead, IsAtLine, IsHeadFault};

use crate::judgement::{BadReport, Fault};
use hm_base::{NoMemory, Text};
use hm_script::{ScriptError, parse};
use std::alloc::Global;

/// What is wrong with bytes that do not begin with a script and `history`, and have this first bad line.
fn head_fault(alloc: Global, bytes: &[u8], line: u64) -> Result<Fault, NoMemory>
    requires { IsBadHead bytes.now line }
    ensures fault { IfOk result (IsHeadFault bytes.now) }
    ensures at_line { IfOk result (IsAtLine line) }
{
    match parse(alloc, bytes) {
        Ok(script) => {
            script.facts();
            Ok(Fault::Missing)
        }
        Err(ScriptError::Refused(refused)) => Ok(Fault::Script(refused)),
        Err(ScriptError::NoMemory) => Err(NoMemory),
    }
}

/// The line `history`, if it may stand in the place of this line: the version and the number of frames are a script,
/// and so are these with any lines that a script goes on with.
fn history_at(alloc: Global, line: u64) -> Result<Text, NoMemory>
    ensures { IfOk result (λ t. t ≡ (if nat_lt line 3 then [] else history_line)) }
{
    if line < 3 {
        Ok(Text::new(alloc))
    } else {
        Text::from_slice(alloc, b"history\n")
    }
}

/// What is said of bytes whose first bad line is no line of a script, and not `history` after one. They are read as a
/// script once, for the reason.
pub(crate) fn head_report(alloc: Global, bytes: &[u8], line: u64) -> Result<BadReport, NoMemory>
    requires { IsBadHead bytes.now line }
    ensures { IfOk result (HasBadHead bytes.now) }
{
    let fault = head_fault(alloc, bytes, line)?;
    let ending = history_at(alloc, line)?;
    Ok(BadReport {
        line,
        at: 0,
        fault,
        nearest: Text::new(alloc),
        standing: Vec::new(alloc),
        ending,
    })
}
