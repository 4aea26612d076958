// Snapshots: they begin inside no invalidation, are repeated if one met them, and see nothing where no area is left.
ghost use Rattle.std.specs.Prelude.{◌≡◌};
ghost use Rattle.hm_base.specs.Pages.{Pages};
ghost use Rattle.hm_base.specs.declared.ops.Op as op;
ghost use Rattle.hm_history.specs.declared.phases.Next as next;
ghost use Rattle.hm_linux.specs.UnmapLetsIn.{sees_mapped};
ghost use Rattle.hm_linux.specs.WholeSnapshot.{begins_snap, ends_snap};
ghost use Rattle.hm_linux_steps.specs.Notes.{noted_in};

use crate::notes::Notes;
use crate::shows::Shows;
use hm_base::{Actor, MirrorId, Op};
use hm_history::phases::Next;
use hm_history::{Kind, Why};
use hm_reads::Reads;
use hm_reads::operations::op_mirror;

// A snapshot takes its lock once nobody invalidates its process.
fn locks_snap<W: Shows>(found: &W, mirror: MirrorId, kind: Kind) -> Next
    ensures { (r : Pages) → result ≡ begins_snap (W.state found.now).after (op.Op.Snap mirror r) (next.Next.Do kind) }
{
    match kind {
        Kind::Rlock(proc) => {
            if found.is_active(proc) {
                Next::Wait(Why::Invalidating(mirror, found.process_seq(proc)))
            } else {
                Next::Do(Kind::Rlock(proc))
            }
        }
        other => Next::Do(other),
    }
}

/// The lock of a snapshot is taken once nobody invalidates its process.
pub(crate) fn begins_snap<W: Shows>(found: &W, op: &Op, next: Next) -> Next
    ensures { result ≡ begins_snap (W.state found.now).after op.now next }
{
    match op {
        Op::Snap { mirror, span: _ } => match next {
            Next::Do(kind) => locks_snap(found, *mirror, kind),
            Next::Wait(why) => Next::Wait(why),
        },
        _ => next,
    }
}

// The end of a torn snapshot makes it a retry.
fn ended(notes: &Notes, actor: Actor, op: &Op, kind: Kind) -> Next
    ensures { result ≡ ends_snap (noted_in notes.now) actor op.now (next.Next.Do kind) }
{
    match kind {
        Kind::Runlock(proc) => {
            if notes.is_torn(actor) {
                Next::Do(Kind::Retry(op_mirror(op)))
            } else {
                Next::Do(Kind::Runlock(proc))
            }
        }
        other => Next::Do(other),
    }
}

/// After the last page an invalidation that met the snapshot makes it a retry.
pub(crate) fn ends_snap(notes: &Notes, actor: Actor, op: &Op, next: Next) -> Next
    ensures { result ≡ ends_snap (noted_in notes.now) actor op.now next }
{
    match next {
        Next::Do(kind) => ended(notes, actor, op, kind),
        Next::Wait(why) => Next::Wait(why),
    }
}

// A page without an area is seen as one without an entry.
fn seen<W: Reads>(found: &W, kind: Kind) -> Next
    ensures { result ≡ sees_mapped (W.state found.now).after (next.Next.Do kind) }
{
    match kind {
        Kind::Seen { mirror, page, code } => {
            if found.rights(found.mirror_proc(mirror), page).is_none() {
                Next::Do(Kind::Seen {
                    mirror,
                    page,
                    code: 0,
                })
            } else {
                Next::Do(Kind::Seen { mirror, page, code })
            }
        }
        other => Next::Do(other),
    }
}

/// A snapshot sees nothing where no area is left.
pub(crate) fn sees_mapped<W: Reads>(found: &W, next: Next) -> Next
    ensures { result ≡ sees_mapped (W.state found.now).after next }
{
    match next {
        Next::Do(kind) => seen(found, kind),
        Next::Wait(why) => Next::Wait(why),
    }
}
