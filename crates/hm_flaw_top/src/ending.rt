// How a call ends that has searched the races of drivers, if its text goes out whole.
ghost use Rattle.std.specs.Prelude.{◌≡◌};
ghost use Rattle.hm_edge.specs.Messages.{code_of};
ghost use Rattle.hm_flaw_search.specs.Outcomes.{answer_code};
ghost use Rattle.hm_race_top.specs.Telling.{IsEnding};
ghost use Rattle.hm_flaw_top.specs.Endings.{ending_by, ending_of, ending_of_all, has_code};

use crate::text::RuleAnswer;
use hm_edge::{RaceEnd, Status};
use hm_flaw_search::Answer;

/// How a call ends that found a driver which does what it must not do, or one of which that is not known.
fn ending_by(broken: bool, cut: bool) -> Status
    ensures same { result ≡ ending_by broken cut }
    ensures ends { IsEnding result }
{
    if broken {
        return Status::Race(RaceEnd::Broken);
    }
    if cut {
        return Status::Race(RaceEnd::Open);
    }
    Status::Done
}

/// How a call ends that says this of one driver. Its exit code is that of what was found.
pub(crate) fn ending_of(answer: &Answer) -> Status
    ensures same { result ≡ ending_of answer.now }
    ensures code { code_of result ≡ answer_code answer.now }
    ensures ends { IsEnding result }
{
    let code = answer.code();
    ending_by(code == 1, code == 10)
}

/// Whether one of the lines has this exit status.
fn has_code(code: u8, rows: &[RuleAnswer]) -> bool
    ensures { result ≡ has_code code rows.now }
{
    for row in rows {
        if row.answer.code() == code {
            return true;
        }
    }
    false
}

/// How a call ends that says this of several: by the worst of them.
pub(crate) fn ending_of_all(rows: &[RuleAnswer]) -> Status
    ensures same { result ≡ ending_of_all rows.now }
    ensures ends { IsEnding result }
{
    ending_by(has_code(1, rows), has_code(10, rows))
}
