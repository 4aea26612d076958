// The outcomes of a race as a table: what all share above it, and a column for each answer that differs.
ghost use Rattle.std.specs.Prelude.{◌≡◌, ◌++◌, IfOk, OnOk};
ghost use Rattle.hm_race_top.specs.Text.Table.Text.{table_of, table_text};

mod answers;
mod cell;
mod columns;
mod row;
mod shared;

use crate::text::block::OutcomeBlock;
use crate::text::outcomes::add_states;
use crate::text::table::answers::{AnswerList, rows_of};
use crate::text::table::columns::{columns, shared};
use crate::text::table::row::add_rows;
use crate::text::table::shared::add_shared;
use hm_base::{NoMemory, Text};
use hm_search::End;
use std::alloc::Global;

/// Adds the table of these answers.
#[tactic(auto, using(std::proofs::Common::append_assoc))]
fn add_table(alloc: Global, text: &mut Text, rows: &[AnswerList]) -> Result<(), NoMemory>
    ensures { OnOk result (text.new ≡ text.old ++ table_of rows.now) }
{
    let shared = shared(alloc, rows)?;
    let columns = columns(alloc, rows)?;
    add_shared(text, shared.as_slice())?;
    add_rows(alloc, text, columns.as_slice(), rows)
}

/// The outcomes as a table, and how many states a search knows.
#[tactic(auto, using(std::proofs::Common::append_assoc), unfolding(crate::specs::Text::Table::Text::table_text))]
pub fn table_text(
    alloc: Global,
    blocks: &[OutcomeBlock],
    states: u64,
    end: End,
) -> Result<Text, NoMemory>
    ensures { IfOk result (λ t. t ≡ table_text blocks.now states end) }
{
    let rows = rows_of(alloc, blocks)?;
    let mut text = Text::new(alloc);
    add_table(alloc, &mut text, rows.as_slice())?;
    add_states(alloc, &mut text, states, end)?;
    Ok(text)
}
