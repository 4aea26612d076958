// The verdict on all that a source has.
ghost use Rattle.std.specs.Prelude.{◌≡◌, IfOk, IfErr, OnOk};
ghost use Rattle.hm_check.specs.Judging.{IsSound, IsVerdictOn};
ghost use Rattle.hm_edge.specs.Reading.{HasNotJudged, ReadFaulted};

use crate::verdict::{Verdict, check};
use hm_base::NoMemory;
use hm_edge::{Status, read_report};
use hm_io::Source;
use std::alloc::Global;

/// Reads a source to its end, and gives the verdict on what it had; or how a call ends that comes to none.
pub fn check_source<S: Source>(alloc: Global, source: &mut S) -> Result<Verdict, Status>
    ensures sound { IfOk result IsSound }
    ensures verdict { IfOk result (IsVerdictOn (S.state source.old) (S.state source.new)) }
    ensures none { IfErr result (HasNotJudged (S.state source.old) (S.state source.new)) }
    ensures faults { OnOk result ((S.state source.new).faults ≡ (S.state source.old).faults) }
    ensures fault { IfErr result (ReadFaulted (S.state source.old).faults (S.state source.new).faults) }
{
    let text = read_report(alloc, source)?;
    match check(alloc, text.as_slice()) {
        Ok(verdict) => Ok(verdict),
        Err(NoMemory) => Err(Status::NoMemory),
    }
}
