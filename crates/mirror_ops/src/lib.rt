// A mirror's own operations, as lib/test_hmm.c has them: attach (`dmirror_fops_open`, `mmu_interval_notifier_insert`),
// detach (`mmu_interval_notifier_remove`) and snapshots (`dmirror_snapshot`).
#![tactic(auto)]

ghost use Rattle.std.specs.Prelude.{◌≡◌, ◌||◌, not};
ghost use Rattle.hm_base.specs.declared.ops.Op as op;
ghost use Rattle.hm_history.specs.Memory.Plain.{mirror_proc, mirror_dev};
ghost use Rattle.hm_history.specs.Memory.Words.{snap_code};
ghost use Rattle.hm_history.specs.Memory.Sequences.{is_odd, insert_deferred};
ghost use Rattle.hm_history.specs.Kernel.Due as spec;
ghost use Rattle.hm_history.specs.declared.Kind as kind;

use hm_base::{Cause, Dev, MirrorId, Page, Proc, Span, snap_code};
use hm_history::phases::Next;
use hm_history::{Kind, Why};
use hm_reads::Reads;
use hm_reads::decisions::{process_seq, runlock_mirror};
use hm_reads::guards::is_before_end;

/// What is due to an attach: a refusal, or the interval is inserted with its sequence.
pub fn attach<W: Reads>(world: &W, mirror: MirrorId, dev: Dev, proc: Proc, span: Span) -> Kind
    ensures { result ≡ spec.due_attach (W.state world.now).after mirror dev proc span }
{
    if world.has_mirror(mirror) {
        Kind::Refused(Cause::MirrorTaken)
    } else if world.there(proc) {
        Kind::Attached {
            mirror,
            dev,
            proc,
            span,
            seq: world.interval_inserted(proc),
        }
    } else {
        Kind::Refused(Cause::NoProcess)
    }
}

fn may_leave_at_once<W: Reads>(world: &W, mirror: MirrorId) -> bool
    ensures { result
        ≡
        (not (is_odd (spec.process_seq (W.state world.now).after mirror))
        || insert_deferred (W.state world.now).after.sequences mirror) }
{
    process_seq(world, mirror) % 2 == 0 || world.insert_deferred(mirror)
}

/// What is due to a detach: the interval is gone at once, or its removal waits for the invalidations under way.
pub fn detach<W: Reads>(world: &W, mirror: MirrorId) -> Kind
    ensures { result ≡ spec.due_detach (W.state world.now).after mirror }
{
    if !world.is_attached(mirror) {
        Kind::Refused(Cause::Outside)
    } else if may_leave_at_once(world, mirror) {
        Kind::Detached(mirror)
    } else {
        Kind::Detaching {
            mirror,
            seq: process_seq(world, mirror),
        }
    }
}

/// The wait of a detach until its interval has left the tree.
pub fn leave<W: Reads>(world: &W, mirror: MirrorId, seq: u64) -> Next
    ensures { result ≡ spec.due_detaching (W.state world.now).after mirror seq }
{
    if world.in_tree(mirror) {
        Next::Wait(Why::Invalidating(mirror, seq))
    } else {
        Next::Do(Kind::Detached(mirror))
    }
}

fn seen<W: Reads>(world: &W, mirror: MirrorId, page: Page) -> Kind
    ensures { result
        ≡ kind.Kind.Seen mirror page
        (snap_code ((W.state world.now).after.places.place
        (mirror_proc (W.state world.now).after.plain mirror) page)
        (mirror_dev (W.state world.now).after.plain mirror)) }
{
    let place = world.place(world.mirror_proc(mirror), page);
    Kind::Seen {
        mirror,
        page,
        code: snap_code(place, world.mirror_dev(mirror)),
    }
}

/// What is due to a snapshot that has come to this page: what is seen there, or the lock is released.
pub fn step_mirror<W: Reads>(world: &W, mirror: MirrorId, span: Span, next: u64) -> Kind
    ensures { result ≡ spec.due_pages (W.state world.now).after (op.Op.Snap mirror span) next }
{
    if is_before_end(span, next) {
        span.facts();
        seen(world, mirror, Page::new(next))
    } else {
        runlock_mirror(world, mirror)
    }
}
