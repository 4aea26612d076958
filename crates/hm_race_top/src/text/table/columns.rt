// Which answers all outcomes share, and the columns of the others.
ghost use Rattle.std.specs.Prelude.{◌≡◌, IfOk};
ghost use Rattle.hm_race_top.specs.Text.Table.Columns.{columns, first_answer, is_shared, longest, shared, widest};

use crate::text::table::answers::{AnswerList, answer_at};
use hm_base::{ListOf, NoMemory, Text};
use std::alloc::Global;

/// A position at which outcomes differ.
#[derive(Clone, Copy)]
pub struct Column {
    pub at: u64,
    /// How wide the widest answer there is.
    pub width: u64,
}

/// How many answers an outcome has at most.
fn longest(rows: &[AnswerList]) -> u64
    ensures { result ≡ longest rows.now }
{
    let mut longest = 0;
    for row in rows {
        longest = row.len().max(longest);
    }
    longest
}

/// How wide the widest answer at the position is.
fn widest(rows: &[AnswerList], at: u64) -> u64
    ensures { result ≡ widest rows.now at }
{
    let mut width = 0;
    for row in rows {
        width = (answer_at(row, at).len() as u64).max(width);
    }
    width
}

/// The answer of the first outcome at the position, if there is an outcome.
fn first_answer(rows: &[AnswerList], at: u64) -> &[u8]
    ensures { result.now ≡ first_answer rows.now at }
{
    match rows.first() {
        Some(row) => answer_at(row, at),
        None => &[],
    }
}

/// Whether all outcomes have the same answer at the position.
fn is_shared(rows: &[AnswerList], at: u64) -> bool
    ensures { result ≡ is_shared rows.now at }
{
    let first = first_answer(rows, at);
    for row in rows {
        if answer_at(row, at) != first {
            return false;
        }
    }
    true
}

/// The answers that all outcomes have at the same position.
pub(crate) fn shared(alloc: Global, rows: &[AnswerList]) -> Result<AnswerList, NoMemory>
    ensures { IfOk result (λ answers. answers ≡ shared rows.now) }
{
    let mut answers = ListOf::new(alloc);
    for at in 0..longest(rows) {
        if is_shared(rows, at) {
            answers.push(Text::from_slice(alloc, first_answer(rows, at))?)?;
        }
    }
    Ok(answers)
}

/// The columns: the positions at which not all outcomes have the same answer.
pub(crate) fn columns(alloc: Global, rows: &[AnswerList]) -> Result<ListOf<Column>, NoMemory>
    ensures { IfOk result (λ cs. cs ≡ columns rows.now) }
{
    let mut columns = ListOf::new(alloc);
    for at in 0..longest(rows) {
        if !is_shared(rows, at) {
            columns.push(Column {
                at,
                width: widest(rows, at),
            })?;
        }
    }
    Ok(columns)
}
