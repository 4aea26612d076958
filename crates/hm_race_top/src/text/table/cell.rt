// Cells of a table.
ghost use Rattle.std.specs.Prelude.{◌≡◌, ◌++◌, OnOk};
ghost use Rattle.hm_race_top.specs.Text.Table.Text.{cell};

use crate::text::padded::add_padded;
use hm_base::{NoMemory, Text};

/// Adds a cell, with the bar before it.
#[tactic(auto, using(std::proofs::Common::append_assoc))]
pub(crate) fn add_cell(text: &mut Text, width: u64, from: &[u8]) -> Result<(), NoMemory>
    ensures { OnOk result (text.new ≡ text.old ++ cell width from.now) }
{
    text.extend(b"| ")?;
    add_padded(text, width, from)?;
    text.push(b' ')
}
