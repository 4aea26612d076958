// The blocks of a text: one for each outcome.
ghost use Rattle.std.specs.Prelude.{◌≡◌, OnOk};
ghost use Rattle.hm_race_top.specs.Text.Text.{has_lines, with_block};

use hm_base::{Actor, ListOf, NoMemory, Text};

/// The lines of an outcome's answers, and turns that lead to it.
#[derive(Drop)]
pub struct OutcomeBlock {
    pub lines: Text,
    pub turns: ListOf<Actor>,
}

fn has_lines(blocks: &[OutcomeBlock], lines: &[u8]) -> bool
    ensures { result ≡ has_lines lines.now blocks.now }
{
    for block in blocks {
        if block.lines.as_slice() == lines {
            return true;
        }
    }
    false
}

/// Adds a block at the end, unless its lines are there already.
pub fn add_block(blocks: &mut ListOf<OutcomeBlock>, block: OutcomeBlock) -> Result<(), NoMemory>
    ensures { OnOk result (blocks.new ≡ with_block blocks.old block) }
{
    if has_lines(blocks.as_slice(), block.lines.as_slice()) {
        return Ok(());
    }
    blocks.push(block)
}
