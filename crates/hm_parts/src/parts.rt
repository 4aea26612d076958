// All parts of what a legal history asks of its next entry.
ghost use Rattle.std.specs.Prelude.{◌≡◌, IfOk};
ghost use Rattle.hm_flaws.specs.Recalled.{recalled_of};
ghost use Rattle.hm_history.specs.Kernel.Going.{state_of};
ghost use Rattle.hm_parts.specs.Follower.{IsFollowed};
ghost use Rattle.hm_parts.specs.Parts.{AreParts, parts_hold};

use crate::follower::Follower;
use crate::kept::meets_kept;
use hm_base::NoMemory;
use hm_history::Entry;
use hm_history::phases::Migrating;
use hm_reads::Reads;

/// Which parts an entry meets, besides being due to its actor.
#[derive(Clone, Copy)]
pub struct Parts {
    /// Its answer is by the plain bytes, areas, processes and mirrors.
    pub answers: bool,
    /// Places, frames and mirror tables allow it.
    pub places: bool,
    /// It fails for want of a frame only if none was free.
    pub frames: bool,
    /// Its sequences are right.
    pub sequences: bool,
    /// It uses no table entry that was told of since its look-up began.
    pub untold: bool,
    /// It takes nothing from a page but under a guard in which all were told.
    pub guarded: bool,
    /// What it keeps is kept for its reason.
    pub kept: bool,
}

impl Parts {
    /// Whether it meets all.
    pub fn hold(&self) -> bool
        ensures { result ≡ parts_hold self.now }
    {
        self.answers
            && self.places
            && self.frames
            && self.sequences
            && self.untold
            && self.guarded
            && self.kept
    }
}

/// Which parts the entry meets after a history of entries that were due, which was followed. The world is that after
/// the history, and the records are those of the entry's actor. The entry is taken, so what is kept stands for the
/// history no longer.
pub(crate) fn parts_of<W: Reads>(
    world: &W,
    followed: &mut Follower,
    entries: &[Entry],
    records: &[Migrating],
    entry: &Entry,
) -> Result<Parts, NoMemory>
    requires state { W.state world.now ≡ state_of (W.program world.now) entries.now }
    requires followed { IsFollowed (W.program world.now) (recalled_of (W.program world.now) entries.now) followed.old }
    requires records { records.now ≡ ((W.state world.now).going entry.now.actor).pages }
    ensures { IfOk result (AreParts (W.program world.now) entries.now entry.now) }
{
    let rules = followed.take(entry, entries.len() as u64)?;
    Ok(Parts {
        answers: rules.answers,
        places: rules.places,
        frames: rules.frames,
        sequences: rules.sequences,
        untold: rules.untold,
        guarded: rules.guarded,
        kept: meets_kept(world, records, entry),
    })
}
