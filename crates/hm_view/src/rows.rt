// The rows, one after the other, in a world that goes on with them.
ghost use Rattle.std.specs.Prelude.{◌≡◌, ◌<◌, ◌≤◌, ◌∷◌, ◌++◌, [], None, length, take, OnOk};
ghost use Rattle.hm_base.specs.declared.limits.TheConstants.{MOST_ENTRIES};
ghost use Rattle.hm_history.specs.Kernel.Due.{due};
ghost use Rattle.hm_history.specs.Laws.{DueFrom};
ghost use Rattle.hm_history.specs.declared.Progress.{Progress};
ghost use Rattle.hm_world.specs.WorldValue.{opening, grown};
ghost use Rattle.hm_view.specs.Changes.{entry_change_lines};
ghost use Rattle.hm_view.specs.Rows.{row, rows};

use crate::changes::{add_change_lines, place_before};
use crate::standing::add_standing_line;
use hm_base::{NoMemory, Text};
use hm_history::Entry;
use hm_machine::copy_entry;
use hm_report::{Buffer, add_entry};
use hm_world::World;
use std::alloc::Global;

/// Goes on by the entry, which is due, and adds the lines of its changes.
#[tactic(auto, using(std::proofs::Common::append_assoc))]
fn add_changes(
    alloc: Global,
    text: &mut Text,
    out: &mut Buffer,
    world: &mut World,
    entry: &Entry,
) -> Result<(), NoMemory>
    requires limit { length world.old.history < MOST_ENTRIES }
    requires running { world.old.halted ≡ None }
    requires due { due world.old.script world.old.history entry.now.actor ≡ Progress.Did entry.now }
    ensures grown { OnOk result (world.new ≡ grown world.old entry.now.actor entry.now.kind) }
    ensures text { OnOk result (text.new
        ≡ text.old ++ entry_change_lines world.old.script world.old.history entry.now) }
{
    world.facts();
    let before = place_before(&*world, &entry.kind);
    world.add(copy_entry(alloc, entry)?)?;
    world.facts();
    add_change_lines(text, out, &*world, &before, entry)
}

/// Goes on by the entry, which is due, and adds its row.
#[tactic(auto, using(std::proofs::Common::append_assoc))]
fn add_row(
    alloc: Global,
    text: &mut Text,
    out: &mut Buffer,
    world: &mut World,
    shown: bool,
    entry: &Entry,
) -> Result<(), NoMemory>
    requires limit { length world.old.history < MOST_ENTRIES }
    requires running { world.old.halted ≡ None }
    requires due { due world.old.script world.old.history entry.now.actor ≡ Progress.Did entry.now }
    ensures grown { OnOk result (world.new ≡ grown world.old entry.now.actor entry.now.kind) }
    ensures text { OnOk result (text.new
        ≡ text.old ++ row world.old.script world.old.history shown entry.now) }
{
    if shown {
        add_standing_line(alloc, text, out, &*world)?;
    }
    let at = world.history().len();
    add_entry(text, out, at, entry)?;
    add_changes(alloc, text, out, world, entry)
}

/// Goes on from the start by the entries before a position, and adds their rows.
pub(crate) fn add_rows(
    alloc: Global,
    text: &mut Text,
    out: &mut Buffer,
    world: &mut World,
    entries: &[Entry],
    from: u64,
    to: u64,
) -> Result<(), NoMemory>
    requires start { world.old ≡ opening world.old.script }
    requires dues { DueFrom world.old.script [] entries.now }
    requires few { length entries.now ≤ MOST_ENTRIES }
    requires within { to ≤ length entries.now }
    ensures script { OnOk result (world.new.script ≡ world.old.script) }
    ensures history { OnOk result (world.new.history ≡ take to entries.now) }
    ensures text { OnOk result (text.new ≡ text.old ++ rows world.old.script entries.now from to) }
{
    for at in 0..to {
        add_row(alloc, text, out, world, from <= at, &entries[at as usize])?;
    }
    Ok(())
}
