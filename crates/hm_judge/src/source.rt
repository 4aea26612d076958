// What is said of all that a source has.
ghost use Rattle.std.specs.Prelude.{◌≡◌, IfOk, IfErr, OnOk};
ghost use Rattle.hm_check.specs.Judging.{IsSound};
ghost use Rattle.hm_edge.specs.Reading.{HasNotJudged, ReadFaulted};
ghost use Rattle.hm_judge.specs.Judgements.{verdict_of};
ghost use Rattle.hm_judge.specs.Judging.{IsAnswerFrom};

use crate::answer::{Answer, answer_on};
use crate::asked::Asked;
use hm_base::NoMemory;
use hm_edge::{Status, read_report};
use hm_io::Source;
use std::alloc::Global;

/// Reads a source to its end, and judges what it had, as it is asked for; or gives how a call ends that comes to no
/// judgement.
pub fn answer_source<S: Source>(
    alloc: Global,
    asked: Asked,
    source: &mut S,
) -> Result<Answer, Status>
    ensures sound { IfOk result (λ a. IsSound (verdict_of a.judgement)) }
    ensures answer { IfOk result (IsAnswerFrom asked (S.state source.old) (S.state source.new)) }
    ensures none { IfErr result (HasNotJudged (S.state source.old) (S.state source.new)) }
    ensures faults { OnOk result ((S.state source.new).faults ≡ (S.state source.old).faults) }
    ensures fault { IfErr result (ReadFaulted (S.state source.old).faults (S.state source.new).faults) }
{
    let text = read_report(alloc, source)?;
    match answer_on(alloc, asked, text.as_slice()) {
        Ok(answer) => Ok(answer),
        Err(NoMemory) => Err(Status::NoMemory),
    }
}
