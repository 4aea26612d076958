// The judgement on the lines after `history`.
ghost use Rattle.std.specs.Prelude.{◌≡◌, ◌+◌, ◌^◌, ◌≤◌, IfOk};
ghost use Rattle.hm_check.specs.Parts.{BeginsNoEntry, tail_of};
ghost use Rattle.hm_script.specs.Automaton.{lines};
ghost use Rattle.hm_judge.specs.Judgements.{IsBadThere, IsFound, IsJudgementAt, IsNear};
ghost use Rattle.hm_judge.specs.Nearest.{could_stand};
ghost use Rattle.hm_judge.specs.Instead.{IsInstead};
ghost use Rattle.hm_judge.specs.Judging.{IsJudgementBehind};

use crate::fault::fault_at;
use crate::judgement::{BadReport, Fault, Judgement, LegalReport};
use crate::lines::{copy_line, line_or_empty};
use crate::nearest::nearest_line;
use crate::standing::standings;
use hm_base::{NoMemory, Script, Text};
use hm_check::{Report, Taken, put_ending, take_all};
use hm_history::Progress;
use hm_reads::Reads;
use hm_report::Buffer;
use hm_report_front::first_difference;
use hm_world::World;
use std::alloc::Global;

/// The nearest of the lines that could stand there, if the line is that of no entry; else nothing.
fn nearest_to(
    alloc: Global,
    fault: &Fault,
    line: &[u8],
    at: u64,
    standing: &[Progress],
    ending: &[u8],
) -> Result<Text, NoMemory>
    ensures { IfOk result (IsNear fault.now line.now (could_stand at standing.now ending.now)) }
{
    match fault {
        Fault::NoEntry => nearest_line(alloc, line, at, standing, ending),
        _ => Ok(Text::new(alloc)),
    }
}

/// What could stand in the place of a bad line: how each actor stands there, the line that goes on to end the report,
/// and the nearest to the line that stands there.
#[derive(Drop)]
pub struct Instead {
    standing: Vec<Progress>,
    ending: Text,
    nearest: Text,
}

/// What could stand in the place of the line after the first `same` of those that end the report, if this is wrong with
/// that line.
fn instead_of(
    alloc: Global,
    world: &World,
    tail: &[u8],
    rest: &[u8],
    same: u64,
    fault: &Fault,
) -> Result<Instead, NoMemory>
    requires { tail.now ≡ tail_of world.now.script world.now.history }
    ensures { IfOk result (IsInstead world.now.script world.now.history (lines rest.now) same fault.now) }
{
    world.facts();
    let at = world.history().len();
    let line = line_or_empty(rest, same);
    let ending = copy_line(alloc, tail, same)?;
    let standing = standings(alloc, world)?;
    let nearest = nearest_to(
        alloc,
        fault,
        line,
        at,
        standing.as_slice(),
        ending.as_slice(),
    )?;
    Ok(Instead {
        standing,
        ending,
        nearest,
    })
}

/// What is said if the lines after the entries are not those that end the report: the first `same` of them are. The
/// first line after `history` has the number `first`.
fn bad_report(
    alloc: Global,
    world: &World,
    tail: &[u8],
    first: u64,
    rest: &[u8],
    same: u64,
) -> Result<BadReport, NoMemory>
    requires first { first ≤ 2 ^ 63 + 2 }
    requires same { same ≤ 5000 }
    requires tail { tail.now ≡ tail_of world.now.script world.now.history }
    requires ends { BeginsNoEntry world.now.script world.now.history (lines rest.now) }
    ensures { IfOk result
        (IsBadThere world.now.script world.now.history first (lines rest.now) same) }
{
    world.facts();
    let at = world.history().len();
    let fault = fault_at(alloc, world, rest, same)?;
    let Instead {
        standing,
        ending,
        nearest,
    } = instead_of(alloc, world, tail, rest, same, &fault)?;
    Ok(BadReport {
        line: first + at + same,
        at,
        fault,
        nearest,
        standing,
        ending,
    })
}

/// What is found of the lines after a world's entries.
#[derive(Drop)]
enum Found {
    /// They end its report; what is due to each actor.
    Legal(Vec<Progress>),
    /// They do not.
    Bad(BadReport),
}

/// What is found of the lines after the world's entries. The first line after `history` has this number.
fn find_rest(alloc: Global, world: &World, first: u64, rest: &[u8]) -> Result<Found, NoMemory>
    requires first { first ≤ 2 ^ 63 + 2 }
    requires ends { BeginsNoEntry world.now.script world.now.history (lines rest.now) }
    ensures { IfOk result (IsFound world.now.script world.now.history first rest.now) }
{
    let mut out = Buffer::new(alloc)?;
    put_ending(&mut out, world);
    let tail = out.as_slice();
    match first_difference(tail, rest) {
        Some(same) => {
            let bad = bad_report(alloc, world, tail, first, rest, same)?;
            Ok(Found::Bad(bad))
        }
        None => {
            let standing = standings(alloc, world)?;
            Ok(Found::Legal(standing))
        }
    }
}

/// The judgement on the lines after the world's entries. The first line after `history` has this number.
fn judge_rest(alloc: Global, world: World, first: u64, rest: &[u8]) -> Result<Judgement, NoMemory>
    requires first { first ≤ 2 ^ 63 + 2 }
    requires ends { BeginsNoEntry world.script world.history (lines rest.now) }
    ensures { IfOk result (IsJudgementAt world.script world.history first rest.now) }
{
    let found = find_rest(alloc, &world, first, rest);
    let (script, history) = world.into_parts();
    match found? {
        Found::Legal(standing) => Ok(Judgement::Legal(LegalReport {
            report: Report { script, history },
            standing,
        })),
        Found::Bad(bad) => Ok(Judgement::Bad(bad)),
    }
}

/// The judgement on the lines after `history`, of which the first has this number.
pub(crate) fn judge_behind(
    alloc: Global,
    script: Script,
    first: u64,
    bytes: &[u8],
) -> Result<Judgement, NoMemory>
    requires { first ≤ 2 ^ 63 + 2 }
    ensures { IfOk result (IsJudgementBehind script first bytes.now) }
{
    hm_laws::every_history_is_legal();
    hm_script::one_text();
    let Taken { world, rest } = match take_all(alloc, script, bytes) {
        Ok(taken) => taken,
        Err(NoMemory) => return Err(NoMemory),
    };
    judge_rest(alloc, world, first, rest)
}
