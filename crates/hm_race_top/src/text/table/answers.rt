// The answers of outcomes, each a line of their text.
ghost use Rattle.std.specs.Prelude.{◌≡◌, ◌==◌, ◌<◌, length, position, IfOk, IfSome};
ghost use Rattle.std.specs.List.{before_first};
ghost use Rattle.hm_race_top.specs.Text.Table.Answers.{answer_at, answers, rows_of};

use crate::text::block::OutcomeBlock;
use hm_base::{ListOf, NoMemory, Text};
use hm_script::cut_line;
use std::alloc::Global;

/// The answers of one outcome.
pub type AnswerList = ListOf<Text>;

fn feed_in(line: &[u8]) -> Option<usize>
    ensures gives { result ≡ position (λ b. b == 10) line.now }
    ensures inside { IfSome result (λ at. at < length line.now) }
{
    line.iter().position(|b| *b == b'\n')
}

/// The line up to its line feed.
fn without_feed(line: &[u8]) -> &[u8]
    ensures { result.now ≡ before_first (λ b. b == 10) line.now }
{
    match feed_in(line) {
        Some(end) => &line[..end],
        None => line,
    }
}

/// The answers of an outcome of these lines.
fn answers_in(alloc: Global, lines: &[u8]) -> Result<AnswerList, NoMemory>
    ensures { IfOk result (λ row. row ≡ answers lines.now) }
{
    let mut row = ListOf::new(alloc);
    let mut rest = lines;
    while !rest.is_empty() {
        let (line, after) = cut_line(rest);
        row.push(Text::from_slice(alloc, without_feed(line))?)?;
        rest = after;
    }
    Ok(row)
}

/// The answers of each outcome.
pub(crate) fn rows_of(
    alloc: Global,
    blocks: &[OutcomeBlock],
) -> Result<ListOf<AnswerList>, NoMemory>
    ensures { IfOk result (λ rows. rows ≡ rows_of blocks.now) }
{
    let mut rows = ListOf::new(alloc);
    for block in blocks {
        rows.push(answers_in(alloc, block.lines.as_slice())?)?;
    }
    Ok(rows)
}

/// The answer at a position, and nothing after the last.
pub(crate) fn answer_at(row: &AnswerList, at: u64) -> &[u8]
    ensures { result.now ≡ answer_at at row.now }
{
    match row.get(at) {
        Some(answer) => answer.as_slice(),
        None => &[],
    }
}
