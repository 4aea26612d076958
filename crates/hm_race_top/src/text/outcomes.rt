// The text of a search, made whole and then written.
ghost use Rattle.std.specs.Prelude.{◌≡◌, ◌∷◌, ◌++◌, [], IfOk, OnOk};
ghost use Rattle.hm_race_top.specs.Text.Text.{end_word, outcome_line, block_text, blocks_text, states_line};
ghost use Rattle.hm_race_top.specs.Text.Text.{outcomes_text};

use crate::text::block::OutcomeBlock;
use crate::text::decimal::add_decimal;
use crate::text::schedule::add_turns;
use hm_base::{NoMemory, Text};
use hm_search::End;
use std::alloc::Global;

/// Adds an outcome: its number, its answers, and a schedule that leads to it.
#[tactic(auto, using(std::proofs::Common::append_assoc))]
pub fn add_outcome(
    alloc: Global,
    text: &mut Text,
    number: u64,
    block: &OutcomeBlock,
) -> Result<(), NoMemory>
    ensures { OnOk result (text.new ≡ text.old ++ block_text number block.now) }
{
    add_decimal(alloc, text, b"outcome ", number)?;
    text.push(b'\n')?;
    text.extend(block.lines.as_slice())?;
    add_turns(alloc, text, block.turns.as_slice())
}

/// Adds the blocks, numbered from 1.
fn add_blocks(alloc: Global, text: &mut Text, blocks: &[OutcomeBlock]) -> Result<(), NoMemory>
    ensures { OnOk result (text.new ≡ text.old ++ blocks_text 1 blocks.now) }
{
    for at in 0..blocks.len() {
        add_outcome(alloc, text, at as u64 + 1, &blocks[at])?;
    }
    Ok(())
}

fn end_word(end: End) -> &'static [u8]
    ensures { result.now ≡ end_word end }
{
    match end {
        End::Whole => b"whole",
        End::Cut => b"cut",
        End::Reached => b"stopped",
    }
}

/// Adds the last line: how many states a search knows, and whether these are all.
#[tactic(auto, using(std::proofs::Common::append_assoc))]
pub fn add_states(alloc: Global, text: &mut Text, states: u64, end: End) -> Result<(), NoMemory>
    ensures { OnOk result (text.new ≡ text.old ++ states_line states end) }
{
    add_decimal(alloc, text, b"states ", states)?;
    text.push(b' ')?;
    text.extend(end_word(end))?;
    text.push(b'\n')
}

/// The text of the outcomes, and of how many states a search knows.
#[tactic(auto, using(std::proofs::Common::append_assoc), unfolding(crate::specs::Text::Text::outcomes_text))]
pub fn outcomes_text(
    alloc: Global,
    blocks: &[OutcomeBlock],
    states: u64,
    end: End,
) -> Result<Text, NoMemory>
    ensures { IfOk result (λ t. t ≡ outcomes_text blocks.now states end) }
{
    let mut text = Text::new(alloc);
    add_blocks(alloc, &mut text, blocks)?;
    add_states(alloc, &mut text, states, end)?;
    Ok(text)
}
