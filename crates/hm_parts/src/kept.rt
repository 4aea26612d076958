// What is kept, and whether for its reason.
ghost use Rattle.std.specs.Prelude.{◌≡◌, ◌&&◌, ◌==◌, not, is_none, ℕ};
ghost use Rattle.std.specs.List.{list_any};
ghost use Rattle.hm_history.specs.Kernel.Legal as spec;
ghost use Rattle.hm_history.specs.Kernel.Legal.{kept_rightly, was_fresh, kept_for, kept_op};
ghost use Rattle.hm_history.specs.Kernel.Due.{has_no_frame, skips, pool_of};
ghost use Rattle.hm_history.specs.Memory.Places.{lowest_free};
ghost use Rattle.hm_history.specs.Kernel.Going.{op_at};
ghost use Rattle.hm_history.specs.declared.KeptAt.{KeptAt as AnyKept};
ghost use Rattle.hm_history.specs.declared.KeptWhy.{KeptWhy as AnyWhy};
ghost use Rattle.hm_history.specs.Memory.Plain.{mirror_proc};
ghost use Rattle.hm_history.specs.Kernel.Operation.{op_mirror};
ghost use Rattle.hm_parts.specs.Reasons.{IsOfPage};

use hm_base::frames::names;
use hm_base::{Actor, Dev, Frame, Op, Page, Place, PoolId, Proc};
use hm_history::phases::Migrating;
use hm_history::{Entry, KeptAt, KeptWhy, Kind};
use hm_reads::Reads;
use hm_reads::operations::{is_to_device, op_mirror};
use skip_rules::{Multiples, SkipRule};

fn stays_put(place: &Place) -> bool
    ensures { result ≡ spec.stays_put place.now }
{
    matches!(
        place,
        Place::Own { .. } | Place::Moving { .. } | Place::Exclusive { .. }
    )
}

fn is_own_of(place: &Place, dev: Dev) -> bool
    ensures { result ≡ spec.is_own_of place.now dev }
{
    match place {
        Place::Own { dev: of, .. } => dev == *of,
        _ => false,
    }
}

fn has_no_frame(place: &Place) -> bool
    ensures { result ≡ has_no_frame place.now }
{
    matches!(place, Place::Empty | Place::Zero)
}

/// Whether the page is not where the migration begins, or has no area.
fn is_not_here<W: Reads>(world: &W, op: &Op, proc: Proc, page: Page) -> bool
    ensures { result ≡ spec.is_not_here (W.state world.now).after op.now proc page }
{
    match op {
        Op::ToDevice { .. } => {
            world.rights(proc, page).is_none() || stays_put(&world.place(proc, page))
        }
        Op::ToSystem { mirror, .. } => {
            !is_own_of(&world.place(proc, page), world.mirror_dev(*mirror))
        }
        _ => false,
    }
}

pub(crate) fn kept_frame<W: Reads>(world: &W, proc: Proc, at: &KeptAt) -> Option<Frame>
    ensures { result ≡ spec.kept_frame (W.state world.now).after proc at.now }
{
    match at {
        KeptAt::Frame(frame) => Some(*frame),
        KeptAt::Page(page) => names(&world.place(proc, *page)),
    }
}

fn is_locked_by<W: Reads>(world: &W, frame: &Option<Frame>, by: Actor) -> bool
    ensures { result ≡ spec.is_locked_by (W.state world.now).after frame.now by }
{
    match frame {
        None => false,
        Some(frame) => match world.locker(frame) {
            None => false,
            Some(locker) => by == locker,
        },
    }
}

/// Whether the migration found the page without a frame.
fn was_fresh(page: Page, records: &[Migrating]) -> bool
    ensures { result ≡ was_fresh page records.now }
{
    for record in records {
        if record.page == page && record.source.is_none() {
            return true;
        }
    }
    false
}

fn skips<W: Reads>(world: &W, op: &Op, page: Page) -> bool
    ensures { result ≡ skips (W.program world.now) op.now page }
{
    is_to_device(op) && Multiples.skips(world.script().skip, page.number())
}

/// Where the migration takes its frames.
pub(crate) fn pool_of<W: Reads>(world: &W, op: &Op) -> PoolId
    ensures { result ≡ pool_of (W.state world.now).after op.now }
{
    if is_to_device(op) {
        PoolId::Device(world.mirror_dev(op_mirror(op)))
    } else {
        PoolId::System
    }
}

/// Whether no frame is free where the migration takes its frames.
fn has_none<W: Reads>(world: &W, op: &Op) -> bool
    ensures { result
        ≡ is_none (lowest_free (W.program world.now) (W.state world.now).after.places
        (pool_of (W.state world.now).after op.now)) }
{
    world.lowest_free(pool_of(world, op)).is_none()
}

/// Whether the reason holds of a page of the process.
fn page_kept_for<W: Reads>(
    world: &W,
    op: &Op,
    records: &[Migrating],
    proc: Proc,
    page: Page,
    why: &KeptWhy,
) -> bool
    ensures { (a : ℕ) → IsOfPage why.now → result
        ≡ kept_for (W.program world.now) (W.state world.now).after a op.now records.now proc (AnyKept.Page page)
        why.now }
{
    match why {
        KeptWhy::NotHere => is_not_here(world, op, proc, page),
        KeptWhy::Skipped => skips(world, op, page),
        KeptWhy::Lost => was_fresh(page, records) && !has_no_frame(&world.place(proc, page)),
        _ => false,
    }
}

/// Whether the reason holds of what the actor kept in this operation on the process.
fn kept_for<W: Reads>(
    world: &W,
    actor: Actor,
    op: &Op,
    records: &[Migrating],
    proc: Proc,
    at: &KeptAt,
    why: &KeptWhy,
) -> bool
    ensures { result
        ≡ kept_for (W.program world.now) (W.state world.now).after actor op.now records.now proc at.now why.now }
{
    match why {
        KeptWhy::LockedBy(by) => {
            actor != *by && is_locked_by(world, &kept_frame(world, proc, at), *by)
        }
        KeptWhy::NoFrame => has_none(world, op),
        _ => match at {
            KeptAt::Page(page) => page_kept_for(world, op, records, proc, *page, why),
            KeptAt::Frame(_) => false,
        },
    }
}

/// Whether the reason of an entry that keeps something holds. The records are those of the entry's actor.
pub fn meets_kept<W: Reads>(world: &W, records: &[Migrating], entry: &Entry) -> bool
    requires { records.now ≡ ((W.state world.now).going entry.now.actor).pages }
    ensures { result ≡ kept_rightly (W.program world.now) (W.state world.now) entry.now }
{
    let actor = entry.actor;
    match &entry.kind {
        Kind::Kept { at, why } => match world.op(actor) {
            None => false,
            Some(op) => {
                let proc = world.mirror_proc(op_mirror(op));
                kept_for(world, actor, op, records, proc, at, why)
            }
        },
        _ => true,
    }
}
