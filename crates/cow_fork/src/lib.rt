// Fork by copy on write: mm/memory.c, `copy_page_range` with `copy_present_pte` and `copy_nonpresent_pte`, which
// kernel/fork.c, `dup_mmap`, calls under the write lock.
#![tactic(auto)]

ghost use Rattle.std.specs.Prelude.{◌≡◌, true, IsTrue};
ghost use Rattle.hm_history.specs.Memory.Places.{is_used, next_page};
ghost use Rattle.hm_history.specs.Kernel.Due as spec;
ghost use Rattle.hm_base.specs.declared.ops.Op as op;
ghost use Rattle.hm_history.specs.declared.Kind as kind;
ghost use Rattle.hm_reads.specs.Ranges.{body_in_range};
ghost use Rattle.hm_history.specs.declared.phases.Body as body;

use hm_base::{Cause, Page, Proc, Span};
use hm_history::Kind;
use hm_reads::Reads;
use hm_reads::guards::end_of;

/// What is due to a fork once it has the write lock: a refusal, or the child's number is given away.
pub fn step_fork<W: Reads>(world: &W, proc: Proc, child: Proc) -> Kind
    ensures { result ≡ spec.due_locked (W.state world.now).after (op.Op.Fork proc child) }
{
    if !world.there(proc) {
        Kind::Refused(Cause::NoProcess)
    } else if child.number() == 0 || world.named(child) {
        Kind::Refused(Cause::NameTaken)
    } else {
        Kind::Named {
            parent: proc,
            child,
        }
    }
}

fn fork_page<W: Reads>(world: &W, proc: Proc, child: Proc, page: Page) -> Kind
    ensures { result ≡ spec.fork_page (W.state world.now).after proc child page }
{
    let place = &world.place(proc, page);
    if place.writable() {
        Kind::Place {
            proc,
            page,
            place: place.narrowed(),
        }
    } else {
        Kind::Place {
            proc: child,
            page,
            place: *place,
        }
    }
}

/// The body of a fork: the parent's page loses its write right, and the child gets the parent's place.
pub fn copy<W: Reads>(world: &W, proc: Proc, child: Proc, span: Span, next: u64) -> Option<Kind>
    ensures { result
        ≡ spec.within span (next_page (W.state world.now).after.places is_used proc next)
        (spec.fork_page (W.state world.now).after proc child) }
{
    let page = world.next_used(proc, next, end_of(span))?;
    Some(fork_page(world, proc, child, page))
}

/// The other half of a page whose write right the parent has lost: the child gets the parent's place.
pub fn give<W: Reads>(world: &W, proc: Proc, child: Proc, next: u64) -> Kind
    requires { IsTrue (body_in_range (body.Body.Fork next true)) }
    ensures { result ≡ kind.Kind.Place child next ((W.state world.now).after.places.place proc next) }
{
    let page = Page::new(next);
    Kind::Place {
        proc: child,
        page,
        place: world.place(proc, page),
    }
}
