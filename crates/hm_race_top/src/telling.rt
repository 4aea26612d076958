// What is written of a race, and how the call ends then.
ghost use Rattle.std.specs.Prelude.{◌≡◌, IfOk, MatchOption, None, Some};
ghost use Rattle.hm_race_top.specs.Text.Conditions.Texts.{is_whole};
ghost use Rattle.hm_race_top.specs.Text.Laws.{lines_of};
ghost use Rattle.hm_race_top.specs.Telling.{HasTold, IsEnding, IsSentOn, ending_of, rulings_told, numbered};
ghost use Rattle.hm_race_top.specs.Telling.{missing, script_told, strictly_told, telling};
ghost use Rattle.hm_edge.specs.Writing.{WriteFaulted};

use crate::asked::Task;
use crate::text::{
    OutcomeBlock, Question, Ruling, have_absent, is_whole, outcomes_text, rulings_text, strictly,
    summary, table_text, text_with_turns,
};
use hm_base::{NoMemory, Script, Text};
use hm_edge::{RaceEnd, Status};
use hm_io::Sink;
use hm_report::{Written, write_text};
use hm_search::End;
use std::alloc::Global;

/// A text, and how the call ends if it goes out whole.
#[derive(Drop)]
pub struct Telling {
    pub text: Text,
    pub ends: Status,
}

/// The outcome with this number, from 1.
fn numbered(blocks: &[OutcomeBlock], number: u64) -> Option<&OutcomeBlock>
    ensures { MatchOption result (numbered blocks.now number ≡ None) (λ b. numbered blocks.now number ≡ Some b.now) }
{
    if number == 0 {
        return None;
    }
    blocks.get((number - 1) as usize)
}

/// How a call ends that has found no outcome with the number that is asked for.
fn missing(whole: bool) -> RaceEnd
    ensures same { result ≡ missing whole }
    ensures ends { IsEnding (Status.Race result) }
{
    if whole {
        RaceEnd::NoOutcome
    } else {
        RaceEnd::NotFound
    }
}

/// The script with the schedule of the outcome with this number, if it was found; `whole` says whether all are known.
fn tell_script(
    alloc: Global,
    script: &Script,
    blocks: &[OutcomeBlock],
    number: u64,
    whole: bool,
) -> Result<Telling, NoMemory>
    ensures telling { IfOk result (λ t. t ≡ script_told script.now (numbered blocks.now number) whole) }
    ensures ends { IfOk result (λ t. IsEnding t.ends) }
{
    match numbered(blocks, number) {
        None => Ok(Telling {
            text: Text::new(alloc),
            ends: Status::Race(missing(whole)),
        }),
        Some(block) => Ok(Telling {
            text: text_with_turns(alloc, script, block.turns.as_slice())?,
            ends: Status::Done,
        }),
    }
}

/// How a call ends that says this of its conditions.
fn ending_of(ruling: Ruling) -> Status
    ensures same { result ≡ ending_of ruling }
    ensures ends { IsEnding result }
{
    match ruling {
        Ruling::Holds => Status::Done,
        Ruling::Fails => Status::Race(RaceEnd::Fails),
        Ruling::Open => Status::Race(RaceEnd::Unsettled),
    }
}

/// What is said of conditions.
fn tell_rulings(
    alloc: Global,
    questions: &[Question],
    blocks: &[OutcomeBlock],
    states: u64,
    end: End,
) -> Result<Telling, NoMemory>
    ensures telling { IfOk result (λ t. t ≡ rulings_told questions.now blocks.now states end) }
    ensures ends { IfOk result (λ t. IsEnding t.ends) }
{
    Ok(Telling {
        text: rulings_text(alloc, questions, blocks, states, end)?,
        ends: ending_of(summary(questions, blocks, is_whole(end))),
    })
}

/// The same with `--strict`.
fn tell_strictly(
    alloc: Global,
    questions: &[Question],
    blocks: &[OutcomeBlock],
    states: u64,
    end: End,
) -> Result<Telling, NoMemory>
    ensures telling { IfOk result (λ t. t ≡ strictly_told questions.now blocks.now states end) }
    ensures ends { IfOk result (λ t. IsEnding t.ends) }
{
    let whole = is_whole(end);
    let absent = have_absent(questions, blocks);
    Ok(Telling {
        text: rulings_text(alloc, questions, blocks, states, end)?,
        ends: ending_of(strictly(summary(questions, blocks, whole), absent, whole)),
    })
}

/// What is to be written for a task, of the outcomes that a search knows, and of how many states it knows.
pub(crate) fn tell(
    alloc: Global,
    script: &Script,
    task: &Task,
    blocks: &[OutcomeBlock],
    states: u64,
    end: End,
) -> Result<Telling, NoMemory>
    ensures telling { IfOk result (λ t. t ≡ telling script.now task.now blocks.now states end) }
    ensures ends { IfOk result (λ t. IsEnding t.ends) }
{
    let text = match task {
        Task::Script(number) => {
            return tell_script(alloc, script, blocks, *number, is_whole(end));
        }
        Task::Expect(questions) => {
            return tell_rulings(alloc, questions.as_slice(), blocks, states, end);
        }
        Task::Strict(questions) => {
            return tell_strictly(alloc, questions.as_slice(), blocks, states, end);
        }
        Task::Outcomes => outcomes_text(alloc, blocks, states, end)?,
        Task::Table => table_text(alloc, blocks, states, end)?,
    };
    Ok(Telling {
        text,
        ends: Status::Done,
    })
}

/// Writes it.
pub fn write_telling<K: Sink>(alloc: Global, telling: &Telling, sink: &mut K) -> Status
    requires { IsEnding telling.now.ends }
    ensures written { HasTold telling.now (K.state sink.old) (K.state sink.new) result }
    ensures faults { WriteFaulted (K.state sink.old).faults (K.state sink.new).faults result }
    ensures flushed { IsSentOn (K.state sink.new).pending result }
{
    match write_text(alloc, &telling.text, sink) {
        Written::Done => telling.ends,
        Written::Fault => Status::WriteFault,
        Written::NoMemory => Status::NoMemory,
    }
}
