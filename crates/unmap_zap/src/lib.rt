// Areas made, cut and changed: mm/mmap.c (`do_mas_munmap`, `exit_mmap`), mm/mprotect.c (`change_protection`), and the
// pages that they empty, mm/memory.c (`unmap_vmas`, `zap_pte_range`).
#![tactic(auto)]

ghost use Rattle.std.specs.Prelude.{◌≡◌, false};
ghost use Rattle.hm_history.specs.Memory.Words.{writable, narrowed};
ghost use Rattle.hm_history.specs.Memory.Places.{is_used, next_page};
ghost use Rattle.hm_history.specs.Kernel.Due as spec;
ghost use Rattle.hm_history.specs.declared.Kind as kind;
ghost use Rattle.hm_base.specs.declared.Place as place;
ghost use Rattle.hm_base.specs.declared.ops.Op as op;
ghost use Rattle.unmap_zap.specs.Areas.{is_fork};

use hm_base::{Cause, Op, Page, Place, Proc, Span};
use hm_history::Kind;
use hm_reads::Reads;
use hm_reads::decisions::{start, start_all};
use hm_reads::guards::end_of;
use hm_reads::operations::proc_of_op;

fn unmap<W: Reads>(world: &W, proc: Proc, span: Span) -> Kind
    ensures { result ≡ spec.due_areas (W.state world.now).after (op.Op.Unmap proc span) }
{
    if world.meets(proc, span) {
        start(world, proc, span)
    } else {
        Kind::Unmapped { proc, span }
    }
}

fn exit<W: Reads>(world: &W, proc: Proc) -> Kind
    ensures { result ≡ spec.due_areas (W.state world.now).after (op.Op.Exit proc) }
{
    start_all(world, proc)
}

fn change<W: Reads>(world: &W, op: &Op) -> Kind
    requires { is_fork op.now ≡ false }
    ensures { result ≡ spec.due_areas (W.state world.now).after op.now }
{
    match op {
        Op::Map { proc, span, rights } => Kind::Mapped {
            proc: *proc,
            span: *span,
            rights: *rights,
        },
        Op::Unmap { proc, span } => unmap(world, *proc, *span),
        Op::Protect { proc, span, .. } => start(world, *proc, *span),
        Op::Exit { proc } => exit(world, *proc),
        _ => Kind::Refused(Cause::Never),
    }
}

/// What is due to map, unmap, protect and exit once they have the write lock: a refusal, the answer of map and of an
/// unmap of nothing, or else the start of the invalidation.
pub fn step_areas<W: Reads>(world: &W, op: &Op) -> Kind
    requires { is_fork op.now ≡ false }
    ensures { result ≡ spec.due_locked (W.state world.now).after op.now }
{
    if world.there(proc_of_op(op)) {
        match world.area_refusal(op) {
            Some(cause) => Kind::Refused(cause),
            None => change(world, op),
        }
    } else {
        Kind::Refused(Cause::NoProcess)
    }
}

/// The body that empties every page, from the cursor on.
pub fn zap<W: Reads>(world: &W, proc: Proc, span: Span, next: u64) -> Option<Kind>
    ensures { result
        ≡ spec.within span (next_page (W.state world.now).after.places is_used proc next)
        (λ v. kind.Kind.Place proc v place.Place.Empty) }
{
    let page = world.next_used(proc, next, end_of(span))?;
    Some(Kind::Place {
        proc,
        page,
        place: Place::Empty,
    })
}

fn without_right<W: Reads>(world: &W, proc: Proc, page: Page) -> Kind
    ensures { result ≡ kind.Kind.Place proc page (narrowed ((W.state world.now).after.places.place proc page)) }
{
    Kind::Place {
        proc,
        page,
        place: world.place(proc, page).narrowed(),
    }
}

/// The body that takes the write right of every page, from the cursor on.
pub fn narrow<W: Reads>(world: &W, proc: Proc, span: Span, next: u64) -> Option<Kind>
    ensures { result
        ≡ spec.within span (next_page (W.state world.now).after.places writable proc next)
        (λ v. kind.Kind.Place proc v (narrowed ((W.state world.now).after.places.place proc v))) }
{
    let page = world.next_writable(proc, next, end_of(span))?;
    Some(without_right(world, proc, page))
}
