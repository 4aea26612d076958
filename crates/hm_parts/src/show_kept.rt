// What bears on the reason for which something is kept.
ghost use Rattle.std.specs.Prelude.{◌≡◌, Some};
ghost use Rattle.hm_history.specs.Kernel.Due.{pool_of};
ghost use Rattle.hm_history.specs.Memory.Places.{lowest_free};
ghost use Rattle.hm_history.specs.declared.Kind.{Kind as AnyKind};
ghost use Rattle.hm_parts.specs.Shown.{keeps_such, kept_place, locked_by, locker_shown, shows_kept, shows_kept_in};
ghost use Rattle.hm_parts.specs.Shown.{shows_reason, taken};

use crate::kept::{kept_frame, pool_of};
use crate::show_places::place_shown;
use crate::shown::{Shown, or_else, taken};
use hm_base::{Actor, Frame, Op, Proc};
use hm_history::{Entry, KeptAt, KeptWhy, Kind};
use hm_reads::Reads;
use hm_reads::operations::op_mirror;

/// The place of the page that is kept.
fn kept_place<W: Reads>(world: &W, proc: Proc, at: &KeptAt) -> Option<Shown>
    ensures { result ≡ kept_place (W.state world.now).after.places proc at.now }
{
    match at {
        KeptAt::Page(page) => Some(place_shown(world, proc, *page)),
        KeptAt::Frame(_) => None,
    }
}

/// That a frame is kept since another actor has it locked.
fn locked_by(actor: Actor, frame: Frame, by: Option<Actor>) -> Option<Shown>
    ensures { result ≡ locked_by actor frame by }
{
    let by = by?;
    if actor == by {
        return None;
    }
    Some(Shown::Words(Kind::Kept {
        at: KeptAt::Frame(frame),
        why: KeptWhy::LockedBy(by),
    }))
}

/// Which other actor has the frame locked that is kept.
fn locker_shown<W: Reads>(world: &W, actor: Actor, frame: Option<Frame>) -> Option<Shown>
    ensures { result ≡ locker_shown (W.state world.now).after actor frame }
{
    match frame {
        None => None,
        Some(frame) => locked_by(actor, frame, world.locker(&frame)),
    }
}

/// The frame that a `take` of the operation's pool would give.
fn op_taken<W: Reads>(world: &W, op: &Op) -> Option<Shown>
    ensures { result
        ≡ taken (lowest_free (W.program world.now) (W.state world.now).after.places
        (pool_of (W.state world.now).after op.now)) }
{
    taken(world.lowest_free(pool_of(world, op)))
}

/// What bears on the reason, in an operation of the actor on the process.
fn shows_reason<W: Reads>(
    world: &W,
    actor: Actor,
    op: &Op,
    proc: Proc,
    at: &KeptAt,
    why: &KeptWhy,
) -> Option<Shown>
    ensures { result ≡ shows_reason (W.program world.now) (W.state world.now).after actor op.now proc at.now why.now }
{
    match why {
        KeptWhy::NoFrame => op_taken(world, op),
        KeptWhy::LockedBy(_) => or_else(
            locker_shown(world, actor, kept_frame(world, proc, at)),
            kept_place(world, proc, at),
        ),
        KeptWhy::NotHere => kept_place(world, proc, at),
        KeptWhy::Lost => kept_place(world, proc, at),
        KeptWhy::Skipped => None,
    }
}

/// Whether the operation keeps such things: pages in a migration of a process's pages, frames in any.
fn keeps_such(op: &Op, at: &KeptAt) -> bool
    ensures { result ≡ keeps_such op.now at.now }
{
    match op {
        Op::ToDevice { .. } => true,
        Op::ToSystem { .. } => true,
        _ => match at {
            KeptAt::Page(_) => false,
            KeptAt::Frame(_) => true,
        },
    }
}

/// What bears on the reason for which the actor's operation keeps something.
fn shows_kept_at<W: Reads>(
    world: &W,
    actor: Actor,
    op: &Op,
    at: &KeptAt,
    why: &KeptWhy,
) -> Option<Shown>
    ensures { result
        ≡ shows_kept_in (W.program world.now) (W.state world.now).after actor (Some op.now)
        (AnyKind.Kept at.now why.now) }
{
    if keeps_such(op, at) {
        let proc = world.mirror_proc(op_mirror(op));
        shows_reason(world, actor, op, proc, at, why)
    } else {
        None
    }
}

/// What bears on the reason of an entry that keeps something.
pub(crate) fn shows_kept<W: Reads>(world: &W, entry: &Entry) -> Option<Shown>
    ensures { result ≡ shows_kept (W.program world.now) (W.state world.now) entry.now }
{
    match &entry.kind {
        Kind::Kept { at, why } => match world.op(entry.actor) {
            None => None,
            Some(op) => shows_kept_at(world, entry.actor, op, at, why),
        },
        _ => None,
    }
}
