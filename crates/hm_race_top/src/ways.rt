// The ways to the outcomes that a search knows.
ghost use Rattle.std.specs.Prelude.{◌≡◌, ◌≤◌, ◌++◌, IfOk, OnOk};
ghost use Rattle.hm_script.specs.Built.{has_drain};
ghost use Rattle.hm_search.specs.Known.{turns_at};
ghost use Rattle.hm_search.specs.Values.{all_known};
ghost use Rattle.hm_race_states.specs.Keyed.{form_in};
ghost use Rattle.hm_race_top.specs.Text.Text.{block_of, blocks_of};
ghost use Rattle.hm_race_top.specs.Run.Played.{all_played, played_of};
ghost use Rattle.hm_race_top.specs.Ways.{way_by, way_to, ways_by, with_ways};

use crate::run::Played;
use crate::text::{OutcomeBlock, add_block, answer_lines};
use hm_base::{Actor, ListOf, NoMemory, ScheduleLine};
use hm_race_states::key::StateKey;
use hm_search::{Known, turns_to};
use std::alloc::Global;

/// Whether one of the lines is `drain`.
pub fn has_drain(lines: &[ScheduleLine]) -> bool
    ensures { result ≡ has_drain lines.now }
{
    for line in lines {
        match line {
            ScheduleLine::Drain => return true,
            ScheduleLine::Run { .. } => (),
        }
    }
    false
}

// The same turns, as a list.
fn listed(alloc: Global, turns: &[Actor]) -> Result<ListOf<Actor>, NoMemory>
    ensures { IfOk result (λ xs. xs ≡ turns.now) }
{
    let mut list = ListOf::new(alloc);
    for actor in turns {
        list.push(*actor)?;
    }
    Ok(list)
}

/// The turns that lead to the state with this number.
fn turns_of(alloc: Global, known: &[Known<StateKey>], at: usize) -> Result<ListOf<Actor>, NoMemory>
    ensures { IfOk result (λ xs. xs ≡ turns_at (all_known form_in known.now) at) }
{
    let turns = turns_to(alloc, known, at)?;
    Ok(listed(alloc, turns.as_slice())?)
}

/// The block of the way to the state with this number and this key, of a race of `actors` actors.
fn block_of(
    alloc: Global,
    actors: u64,
    known: &[Known<StateKey>],
    at: usize,
    key: &StateKey,
) -> Result<OutcomeBlock, NoMemory>
    requires { actors ≤ 16 }
    ensures { IfOk result (λ b. b ≡ block_of (way_to actors (all_known form_in known.now) at (form_in key.now))) }
{
    Ok(OutcomeBlock {
        lines: answer_lines(alloc, &key.answers, actors)?,
        turns: turns_of(alloc, known, at)?,
    })
}

// The blocks of the ways to the outcomes, in the order in which the search came to them.
fn known_blocks(
    alloc: Global,
    actors: u64,
    known: &[Known<StateKey>],
) -> Result<ListOf<OutcomeBlock>, NoMemory>
    requires { actors ≤ 16 }
    ensures { IfOk result (λ bs. bs ≡ blocks_of (ways_by actors (all_known form_in known.now))) }
{
    let mut blocks = ListOf::new(alloc);
    for at in 0..known.len() {
        let state = &known[at];
        if state.ended {
            let block = block_of(alloc, actors, known, at, &state.key)?;
            add_block(&mut blocks, block)?;
        }
    }
    Ok(blocks)
}

// The block of the way of an order that was played.
fn played_block(alloc: Global, actors: u64, played: &Played) -> Result<OutcomeBlock, NoMemory>
    requires { actors ≤ 16 }
    ensures { IfOk result (λ b. b ≡ block_of (way_by actors (played_of played.now))) }
{
    Ok(OutcomeBlock {
        lines: answer_lines(alloc, &played.key.answers, actors)?,
        turns: listed(alloc, played.turns.as_slice())?,
    })
}

// Adds the blocks of those orders that came to outcomes.
fn add_played(
    alloc: Global,
    actors: u64,
    blocks: &mut ListOf<OutcomeBlock>,
    orders: &[Played],
) -> Result<(), NoMemory>
    requires { actors ≤ 16 }
    ensures { OnOk result (blocks.new ≡ with_ways blocks.old (ways_by actors (all_played orders.now))) }
{
    for at in 0..orders.len() {
        let played = &orders[at];
        if played.ended {
            let block = played_block(alloc, actors, played)?;
            add_block(blocks, block)?;
        }
    }
    Ok(())
}

/// The blocks of the ways to the outcomes, in the order in which the search came to them, and then of those orders that
/// were played after it.
pub(crate) fn blocks_of(
    alloc: Global,
    actors: u64,
    known: &[Known<StateKey>],
    orders: &[Played],
) -> Result<ListOf<OutcomeBlock>, NoMemory>
    requires { actors ≤ 16 }
    ensures { IfOk result (λ bs.
        bs ≡ blocks_of (ways_by actors (all_known form_in known.now ++ all_played orders.now))) }
{
    let mut blocks = known_blocks(alloc, actors, known)?;
    add_played(alloc, actors, &mut blocks, orders)?;
    Ok(blocks)
}
