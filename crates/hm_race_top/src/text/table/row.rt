// The rows of a table.
ghost use Rattle.std.specs.Prelude.{◌≡◌, ◌++◌, length, IfOk, OnOk};
ghost use Rattle.std.specs.List.{flat_map};
ghost use Rattle.std.specs.Fmt.{decimal};
ghost use Rattle.hm_race_top.specs.Text.Table.Answers.{answer_at};
ghost use Rattle.hm_race_top.specs.Text.Table.Text.{cell, number_width, row_text, rows_text};

use crate::text::table::answers::{AnswerList, answer_at};
use crate::text::table::cell::add_cell;
use crate::text::table::columns::Column;
use hm_base::{NoMemory, Text};
use std::alloc::Global;

/// How wide a number is.
fn width_of(alloc: Global, number: u64) -> Result<u64, NoMemory>
    ensures { IfOk result (λ n. n ≡ length (decimal number)) }
{
    let digits = format!(in alloc; "{number}")?;
    Ok(digits.len() as u64)
}

/// Adds the cell of a number.
fn add_number(alloc: Global, text: &mut Text, width: u64, number: u64) -> Result<(), NoMemory>
    ensures { OnOk result (text.new ≡ text.old ++ cell width (decimal number)) }
{
    let digits = format!(in alloc; "{number}")?;
    add_cell(text, width, digits.as_bytes())
}

/// Adds the cells of an outcome's answers, one in each column.
fn add_cells(text: &mut Text, columns: &[Column], row: &AnswerList) -> Result<(), NoMemory>
    ensures { OnOk result (text.new ≡ text.old ++ flat_map (λ c. cell c.width (answer_at c.at row.now)) columns.now) }
{
    for column in columns {
        add_cell(text, column.width, answer_at(row, column.at))?;
    }
    Ok(())
}

/// Adds the row of an outcome.
#[tactic(auto, using(std::proofs::Common::append_assoc))]
fn add_row(
    alloc: Global,
    text: &mut Text,
    columns: &[Column],
    width: u64,
    number: u64,
    row: &AnswerList,
) -> Result<(), NoMemory>
    ensures { OnOk result (text.new ≡ text.old ++ row_text columns.now width number row.now) }
{
    add_number(alloc, text, width, number)?;
    add_cells(text, columns, row)?;
    text.extend(b"|\n")
}

/// Adds the rows of all outcomes, numbered from 1.
#[tactic(auto, using(std::proofs::Common::append_assoc))]
pub(crate) fn add_rows(
    alloc: Global,
    text: &mut Text,
    columns: &[Column],
    rows: &[AnswerList],
) -> Result<(), NoMemory>
    ensures { OnOk result (text.new ≡ text.old ++ rows_text columns.now (number_width rows.now) 1 rows.now) }
{
    let width = width_of(alloc, rows.len() as u64)?;
    for at in 0..rows.len() {
        add_row(alloc, text, columns, width, at as u64 + 1, &rows[at])?;
    }
    Ok(())
}
