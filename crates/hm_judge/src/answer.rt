// All that is said of bytes that may be a report.
ghost use Rattle.std.specs.Prelude.{IfOk};
ghost use Rattle.hm_judge.specs.Judging.{IsAnswerOn};

use crate::asked::Asked;
use crate::followed::Later;
use crate::judgement::Judgement;
use crate::later::later_of;
use crate::verdict::judge_bytes;
use hm_base::NoMemory;
use std::alloc::Global;

/// What is said of bytes.
#[derive(Drop)]
pub struct Answer {
    pub judgement: Judgement,
    /// What is said of the entries after the first bad line.
    pub later: Later,
}

/// Judges bytes, as it is asked for. If the entries after the first bad line are asked for, the bytes are read once
/// more, and the entries are gone over once more.
pub fn answer_on(alloc: Global, asked: Asked, bytes: &[u8]) -> Result<Answer, NoMemory>
    ensures { IfOk result (IsAnswerOn asked bytes.now) }
{
    let judgement = judge_bytes(alloc, bytes)?;
    let later = later_of(alloc, asked, &judgement, bytes)?;
    Ok(Answer { judgement, later })
}
