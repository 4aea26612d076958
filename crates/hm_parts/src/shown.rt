// What shows why a part is broken.
ghost use Rattle.std.specs.Prelude.{◌≡◌, IfOk};
ghost use Rattle.hm_base.specs.declared.PoolId as pool;
ghost use Rattle.hm_history.specs.Memory.Places.{lowest_free};
ghost use Rattle.hm_parts.specs.Follower.{StandsFor};
ghost use Rattle.hm_parts.specs.Shown.{AreShownIn, or_else, taken};

use crate::follower::Follower;
use crate::show_answers::shows_answers;
use crate::show_kept::shows_kept;
use crate::show_places::{entry_of, shows_guarded, shows_places, table_of};
use crate::show_sequences::shows_sequences;
use hm_base::{Frame, MirrorId, NoMemory, Page, PoolId};
use hm_history::{Entry, Kind};
use hm_reads::Reads;
use std::alloc::Global;

/// Something that is so after the entries before.
#[derive(Drop)]
pub enum Shown {
    /// What these words of an entry say: a place or table entry that is there, an answer that would be right.
    Words(Kind),
    /// The mirror's table has nothing for the page.
    Unset(MirrorId, Page),
}

/// What bears on each part, if there is something to be said.
#[derive(Drop)]
pub struct ShownParts {
    pub answers: Option<Shown>,
    pub places: Option<Shown>,
    pub frames: Option<Shown>,
    pub sequences: Option<Shown>,
    pub untold: Option<Shown>,
    pub guarded: Option<Shown>,
    pub kept: Option<Shown>,
}

/// The first, if there is one, and else the other.
pub(crate) fn or_else(one: Option<Shown>, other: Option<Shown>) -> Option<Shown>
    ensures { result ≡ or_else one other }
{
    match one {
        None => other,
        Some(shown) => Some(shown),
    }
}

/// That a `take` would give this frame.
pub fn taken(frame: Option<Frame>) -> Option<Shown>
    ensures { result ≡ taken frame }
{
    match frame {
        None => None,
        Some(frame) => Some(Shown::Words(Kind::Take(frame))),
    }
}

/// That a `take` of the system's frames would give this one.
fn system_taken<W: Reads>(world: &W) -> Option<Shown>
    ensures { result ≡ taken (lowest_free (W.program world.now) (W.state world.now).after.places pool.PoolId.System) }
{
    taken(world.lowest_free(PoolId::System))
}

/// What bears on each part of the entry, in the state of the world, for which what was followed stands.
pub(crate) fn shown_of<W: Reads>(
    alloc: Global,
    world: &W,
    followed: &Follower,
    entry: &Entry,
) -> Result<ShownParts, NoMemory>
    requires { StandsFor (W.program world.now) (W.state world.now).after followed.now }
    ensures { IfOk result (AreShownIn (W.program world.now) (W.state world.now) entry.now) }
{
    let kind = &entry.kind;
    let found = table_of(&followed.places, kind);
    let answers = shows_answers(alloc, world, &followed.plain, kind)?;
    Ok(ShownParts {
        answers,
        places: shows_places(world, kind, &found),
        frames: system_taken(world),
        sequences: shows_sequences(world, &followed.sequences, entry.actor, kind),
        untold: entry_of(kind, &found),
        guarded: shows_guarded(world, kind),
        kept: shows_kept(world, entry),
    })
}
