// Turns as lines of a schedule.
ghost use Rattle.std.specs.Prelude.{◌≡◌, ◌∷◌, ◌++◌, [], OnOk};
ghost use Rattle.hm_base.specs.declared.ops.ScheduleLine.TheVariants.{Run};
ghost use Rattle.hm_race_top.specs.Text.Text.{lines_text, turns_text};
ghost use Rattle.hm_race_top.specs.Text.Schedule.{packed_from};

use crate::text::decimal::add_decimal;
use hm_base::{Actor, NoMemory, Text};
use std::alloc::Global;

/// As many turns as a line of a schedule has at most.
const MOST_TURNS: u32 = 1_000_000;

/// Adds the line of `count` turns of the actor.
#[tactic(auto, using(std::proofs::Common::append_assoc))]
fn add_line(alloc: Global, text: &mut Text, actor: Actor, count: u32) -> Result<(), NoMemory>
    ensures { OnOk result (text.new ≡ text.old ++ lines_text (Run actor count ∷ [])) }
{
    add_decimal(alloc, text, b"turns ", u64::from(actor.number()))?;
    add_decimal(alloc, text, b" ", u64::from(count))?;
    text.push(b'\n')
}

/// Adds the lines of a turn of the actor and of more turns.
fn add_from(alloc: Global, text: &mut Text, first: Actor, more: &[Actor]) -> Result<(), NoMemory>
    ensures { OnOk result (text.new ≡ text.old ++ lines_text (packed_from first 1 more.now)) }
{
    let mut actor = first;
    let mut count = 1u32;
    for next in more {
        if actor == *next && count < MOST_TURNS {
            count += 1;
        } else {
            add_line(alloc, text, actor, count)?;
            actor = *next;
            count = 1;
        }
    }
    add_line(alloc, text, actor, count)
}

/// Adds the lines of the turns: those of one actor in a row are one line.
pub(crate) fn add_turns(alloc: Global, text: &mut Text, turns: &[Actor]) -> Result<(), NoMemory>
    ensures { OnOk result (text.new ≡ text.old ++ turns_text turns.now) }
{
    match turns {
        [] => Ok(()),
        [first, more @ ..] => add_from(alloc, text, *first, more),
    }
}
