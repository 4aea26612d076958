// Accesses through a mirror and their look-ups: mm/hmm.c (`hmm_range_fault`, `hmm_vma_handle_pte`) under
// `mmu_interval_read_begin` and `mmu_interval_read_retry`, as Documentation/mm/hmm.rst has the loop.
#![tactic(auto)]

ghost use Rattle.std.specs.Prelude.{◌≡◌, true, IsTrue, IfOk};
ghost use Rattle.hm_base.specs.Program.{op_in_range};
ghost use Rattle.hm_history.specs.Memory.Words.{page_of, names, writable};
ghost use Rattle.hm_history.specs.Memory.Plain.{mirror_dev};
ghost use Rattle.hm_history.specs.Kernel.Operation.{op_writes, op_who, op_piece, op_mirror};
ghost use Rattle.hm_history.specs.Kernel.Due as spec;
ghost use Rattle.hm_history.specs.declared.Kind as kind;
ghost use Rattle.hm_history.specs.declared.Who as who;
ghost use Rattle.hm_history.specs.declared.phases.Touch as touch;
ghost use Rattle.hm_history.specs.declared.phases.Next.TheVariants.{Do};

use hm_base::frames::names;
use hm_base::{Actor, Cause, Dev, MirrorId, NoMemory, Op, Place};
use hm_history::phases::Next;
use hm_history::{Kind, Who};
use hm_reads::Reads;
use hm_reads::decisions::{
    failed, invalidating, is_invalidating, one_page, repeats, right_of, stored,
};
use hm_reads::faults::{Wanted, fault, suits};
use hm_reads::operations::{op_mirror, op_piece, op_writes, page_of, piece_page};
use std::alloc::Global;

fn answer<W: Reads>(
    world: &W,
    alloc: Global,
    op: &Op,
    piece: u32,
    mirror: MirrorId,
) -> Result<Next, NoMemory>
    requires range { IsTrue (op_in_range op.now) }
    requires who { op_who op.now ≡ who.Who.Mirror mirror }
    requires usable { spec.is_usable (op_writes op.now)
        ((W.state world.now).after.places.table mirror (page_of (op_piece op.now piece).0))
        ≡ true }
    ensures { IfOk result (λ next. next ≡ Do (spec.answer_of_piece (W.state world.now).after op.now piece)) }
{
    if op_writes(op) {
        stored(alloc, op, piece)
    } else {
        let (addr, len) = op_piece(op, piece);
        let bytes = world.mirror_bytes(alloc, mirror, addr, len)?;
        Ok(Next::Do(Kind::Loaded {
            who: Who::Mirror(mirror),
            addr,
            bytes,
        }))
    }
}

fn begins<W: Reads>(world: &W, mirror: MirrorId) -> Next
    ensures { result ≡ spec.begin_look_up (W.state world.now).after mirror }
{
    if is_invalidating(world, mirror) {
        invalidating(world, mirror)
    } else {
        Next::Do(Kind::Begin {
            mirror,
            seq: world.interval_seq(mirror),
        })
    }
}

/// What is due at a piece of a load or a store by a mirror: its answer if the mirror's table has the page, or else a
/// look-up begins, once no invalidation is under way.
pub fn step_walk<W: Reads>(
    world: &W,
    alloc: Global,
    op: &Op,
    piece: u32,
    mirror: MirrorId,
) -> Result<Next, NoMemory>
    requires range { IsTrue (op_in_range op.now) }
    requires who { op_who op.now ≡ who.Who.Mirror mirror }
    ensures { IfOk result (λ next. next ≡ spec.due_mirror (W.state world.now).after op.now piece mirror) }
{
    let page = piece_page(op, piece);
    if !world.in_window(mirror, one_page(page)) {
        Ok(Next::Do(failed(op, piece, Cause::Outside)))
    } else if world.is_usable(mirror, page, op_writes(op)) {
        answer(world, alloc, op, piece, mirror)
    } else {
        Ok(begins(world, mirror))
    }
}

fn suits_walk(dev: Dev, writes: bool, place: &Place) -> bool
    ensures { result ≡ spec.suits_walk dev writes place.now }
{
    match place {
        Place::Own {
            dev: of,
            number: _,
            writable,
        } => dev == *of && (!writes || *writable),
        _ => suits(writes, *place),
    }
}

/// What the walk of a look-up decides: it is given up if its interval was told since it began, and else it faults
/// as an access would, but that the device's own pages suit it.
pub fn decide<W: Reads>(world: &W, actor: Actor, op: &Op, at: &Wanted, since: u64, seq: u64) -> Next
    requires { IsTrue (op_in_range op.now) }
    ensures { result
        ≡ spec.due_decide (W.program world.now) (W.state world.now).after actor op.now
        (touch.Touch.Walk at.now.piece since seq) at.now.proc at.now.page }
{
    let _ = since;
    let mirror = op_mirror(op);
    if repeats(world, mirror, seq) {
        Next::Do(Kind::Retry(mirror))
    } else {
        walk(world, actor, op, at)
    }
}

fn walk<W: Reads>(world: &W, actor: Actor, op: &Op, at: &Wanted) -> Next
    requires { IsTrue (op_in_range op.now) }
    ensures { result
        ≡ spec.fault (W.program world.now) (W.state world.now).after actor op.now at.now.piece
        (spec.suits_walk (mirror_dev (W.state world.now).after.plain (op_mirror op.now))
        (op_writes op.now)) at.now.proc at.now.page }
{
    let place = world.place(at.proc, at.page);
    let suited = suits_walk(world.mirror_dev(op_mirror(op)), op_writes(op), &place);
    fault(world, actor, op, at, suited)
}

fn set(op: &Op, piece: u32, since: u64, place: &Place) -> Kind
    requires { IsTrue (op_in_range op.now) }
    ensures { result
        ≡ kind.Kind.Set (op_mirror op.now) (page_of (op_piece op.now piece).0) (names place.now)
        (spec.right_of (writable place.now)) since }
{
    let right = right_of(place.writable());
    Kind::Set {
        mirror: op_mirror(op),
        page: piece_page(op, piece),
        target: names(place),
        right,
        since,
    }
}

/// What is due once a look-up has noted the page's place: it is given up if its interval was told since it began,
/// and else the mirror's table has the page.
pub fn noted<W: Reads>(world: &W, op: &Op, piece: u32, since: u64, seq: u64, place: &Place) -> Next
    requires { IsTrue (op_in_range op.now) }
    ensures { result ≡ spec.due_noted (W.state world.now).after op.now piece since seq place.now }
{
    let mirror = op_mirror(op);
    if repeats(world, mirror, seq) {
        Next::Do(Kind::Retry(mirror))
    } else {
        Next::Do(set(op, piece, since, place))
    }
}
