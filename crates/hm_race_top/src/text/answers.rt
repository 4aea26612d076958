// The lines of an outcome's answers.
ghost use Rattle.std.specs.Prelude.{◌≡◌, ◌+◌, ◌≤◌, ◌∷◌, ◌++◌, length, map, IfOk, OnOk};
ghost use Rattle.hm_history.specs.Memory.Words.{numbers};
ghost use Rattle.hm_race_keys.specs.Trail.{answers_in};
ghost use Rattle.hm_race_lines.specs.Answers.{answer_line, actor_lines, answer_lines};

use hm_base::{NoMemory, Text};
use hm_history::Kind;
use hm_race_keys::shared_answers::{Answer, SharedAnswers};
use hm_race_lines::put_answer;
use hm_report::{Buffer, add_tail, put_decimal};
use std::alloc::Global;

/// Adds the line of an actor's answer. The buffer is written over.
#[tactic(auto, using(std::proofs::Common::append_assoc))]
fn add_line(text: &mut Text, out: &mut Buffer, actor: u64, kind: &Kind) -> Result<(), NoMemory>
    ensures { OnOk result (text.new ≡ text.old ++ answer_line actor kind.now) }
{
    out.clear();
    put_decimal(out, b"a", actor);
    put_answer(out, kind);
    text.extend(out.as_slice())?;
    add_tail(text, kind)?;
    text.push(b'\n')
}

/// Adds the lines of all of an actor's answers.
fn add_lines(
    text: &mut Text,
    out: &mut Buffer,
    actor: u64,
    answers: &[Answer],
) -> Result<(), NoMemory>
    ensures { OnOk result (text.new ≡ text.old ++ actor_lines actor answers.now) }
{
    for answer in answers {
        add_line(text, out, actor, answer.kind())?;
    }
    Ok(())
}

/// The lines of the answers of the first `actors` actors.
pub fn answer_lines(alloc: Global, answers: &SharedAnswers, actors: u64) -> Result<Text, NoMemory>
    requires { actors ≤ 16 }
    ensures { IfOk result (λ t. t ≡ answer_lines (map (answers_in answers.now.lists.items) (numbers 0 actors))) }
{
    let mut text = Text::new(alloc);
    let mut out = Buffer::new(alloc)?;
    for actor in 0..actors {
        let list = &answers.lists[actor as usize];
        add_lines(&mut text, &mut out, actor, list.as_slice())?;
    }
    Ok(text)
}
