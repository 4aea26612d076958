// The judgement on bytes that may be a report.
ghost use Rattle.std.specs.Prelude.{IfOk};
ghost use Rattle.hm_judge.specs.Judging.{IsJudgementOn};

use crate::behind::judge_behind;
use crate::head::head_report;
use crate::judgement::Judgement;
use hm_base::NoMemory;
use hm_report_front::read_head;
use std::alloc::Global;

/// Judges bytes. The verdict is that of `hm_check::check`, and is found as there, in one pass. If a line is that of an
/// entry that is not due, the entries before it are gone over once more; if the script is bad, it is read once more.
pub fn judge_bytes(alloc: Global, bytes: &[u8]) -> Result<Judgement, NoMemory>
    ensures { IfOk result (IsJudgementOn bytes.now) }
{
    hm_script::one_text();
    match read_head(alloc, bytes)? {
        Ok(head) => judge_behind(alloc, head.script, head.first, head.rest),
        Err(bad) => {
            let bad = head_report(alloc, bytes, bad.0)?;
            Ok(Judgement::Bad(bad))
        }
    }
}
