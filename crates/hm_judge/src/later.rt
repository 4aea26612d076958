// What is said of the entries after a first bad line.
ghost use Rattle.std.specs.Prelude.{IfOk};
ghost use Rattle.hm_judge.specs.Later.{IsFollowedOn, IsLater};

use crate::asked::Asked;
use crate::followed::{Followed, Later};
use crate::judgement::Judgement;
use hm_base::NoMemory;
use hm_parts::follow;
use hm_report_reading::read_report;
use std::alloc::Global;

/// Reads bytes as a report, be it legal or not, and follows its entries.
fn follow_bytes(alloc: Global, bytes: &[u8]) -> Result<Later, NoMemory>
    ensures { IfOk result (IsFollowedOn bytes.now) }
{
    match read_report(alloc, bytes)? {
        Ok(whole) => {
            let rules = follow(alloc, &whole.script, whole.history.as_slice())?;
            Ok(Later::Read(Followed {
                first: whole.first,
                history: whole.history,
                rules,
            }))
        }
        Err(bad) => Ok(Later::Unread(bad.0)),
    }
}

/// What is said of the later entries of bytes on which this is the judgement, if they are asked for.
pub(crate) fn later_of(
    alloc: Global,
    asked: Asked,
    judgement: &Judgement,
    bytes: &[u8],
) -> Result<Later, NoMemory>
    ensures { IfOk result (IsLater asked judgement.now bytes.now) }
{
    match asked {
        Asked::All => match judgement {
            Judgement::Legal(_) => Ok(Later::Unasked),
            Judgement::Bad(_) => follow_bytes(alloc, bytes),
        },
        Asked::Verdict => Ok(Later::Unasked),
        Asked::Standing => Ok(Later::Unasked),
    }
}
