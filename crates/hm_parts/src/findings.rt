// What is found of an entry after a history of entries that were due.
ghost use Rattle.std.specs.Prelude.{◌≡◌, [], IfOk};
ghost use Rattle.hm_history.specs.Kernel.Going.{state_of};
ghost use Rattle.hm_history.specs.Laws.{DueFrom};
ghost use Rattle.hm_parts.specs.Parts.{AreParts};
ghost use Rattle.hm_parts.specs.Shown.{AreShown};

use crate::follower::Follower;
use crate::parts::{Parts, parts_of};
use crate::shown::{ShownParts, shown_of};
use hm_base::NoMemory;
use hm_history::Entry;
use hm_history::phases::Migrating;
use hm_reads::Reads;
use std::alloc::Global;

/// Which parts of legality an entry meets, and what bears on each.
#[derive(Drop)]
pub struct Findings {
    pub parts: Parts,
    pub shown: ShownParts,
}

/// What is found of the entry after a history of entries that were due. The world is that after the history, and the
/// records are those of the entry's actor. It goes over the history once.
pub fn find<W: Reads>(
    alloc: Global,
    world: &W,
    entries: &[Entry],
    records: &[Migrating],
    entry: &Entry,
) -> Result<Findings, NoMemory>
    requires state { W.state world.now ≡ state_of (W.program world.now) entries.now }
    requires due { DueFrom (W.program world.now) [] entries.now }
    requires records { records.now ≡ ((W.state world.now).going entry.now.actor).pages }
    ensures parts { IfOk result (λ x. AreParts (W.program world.now) entries.now entry.now x.parts) }
    ensures shown { IfOk result (λ x. AreShown (W.program world.now) entries.now entry.now x.shown) }
{
    let mut followed = Follower::after(alloc, world.script(), entries)?;
    let shown = shown_of(alloc, world, &followed, entry)?;
    let parts = parts_of(world, &mut followed, entries, records, entry)?;
    Ok(Findings { parts, shown })
}
