// Accesses of the CPU and their faults, as mm/memory.c has them: `handle_pte_fault`, `do_anonymous_page`, `do_wp_page`.
#![tactic(auto)]

ghost use Rattle.std.specs.Prelude.{◌≡◌, true, IsTrue, IfOk};
ghost use Rattle.hm_base.specs.Program.{op_in_range};
ghost use Rattle.hm_history.specs.Memory.Words.{place_in, same_place};
ghost use Rattle.hm_history.specs.Kernel.Operation.{op_writes, op_who, op_piece};
ghost use Rattle.hm_history.specs.Memory.Words.{page_of};
ghost use Rattle.hm_history.specs.Kernel.Due as spec;
ghost use Rattle.hm_history.specs.declared.Kind as kind;
ghost use Rattle.hm_history.specs.declared.Who as who;
ghost use Rattle.hm_history.specs.declared.phases.Touch as touch;
ghost use Rattle.hm_history.specs.declared.phases.Next.TheVariants.{Do};

use hm_base::frames::{names, place_in, same_place};
use hm_base::{Actor, Cause, Frame, NoMemory, Op, Page, Place, Proc};
use hm_history::Kind;
use hm_history::phases::Next;
use hm_reads::Reads;
use hm_reads::decisions::{failed, rlock, stored};
use hm_reads::faults::{Wanted, fault, suits};
use hm_reads::operations::{op_piece, op_writes, page_of};
use std::alloc::Global;

fn answer<W: Reads>(
    world: &W,
    alloc: Global,
    op: &Op,
    piece: u32,
    proc: Proc,
) -> Result<Next, NoMemory>
    requires range { IsTrue (op_in_range op.now) }
    requires who { op_who op.now ≡ who.Who.Cpu proc }
    requires there { (W.state world.now).after.plain.there proc ≡ true }
    requires suits { spec.suits (op_writes op.now)
        ((W.state world.now).after.places.place proc (page_of (op_piece op.now piece).0))
        ≡ true }
    ensures { IfOk result (λ next. next ≡ Do (spec.answer_of_piece (W.state world.now).after op.now piece)) }
{
    if op_writes(op) {
        stored(alloc, op, piece)
    } else {
        let (addr, len) = op_piece(op, piece);
        let bytes = world.cpu_bytes(alloc, proc, addr, len)?;
        Ok(Next::Do(Kind::Loaded {
            who: hm_history::Who::Cpu(proc),
            addr,
            bytes,
        }))
    }
}

/// What is due at a piece of a load or a store: its answer if the place suits, or else the fault begins.
pub fn step_anon<W: Reads>(
    world: &W,
    alloc: Global,
    op: &Op,
    piece: u32,
    proc: Proc,
) -> Result<Next, NoMemory>
    requires range { IsTrue (op_in_range op.now) }
    requires who { op_who op.now ≡ who.Who.Cpu proc }
    ensures { IfOk result (λ next. next ≡ spec.due_cpu (W.state world.now).after op.now piece proc) }
{
    let (addr, _) = op_piece(op, piece);
    if !world.there(proc) {
        Ok(Next::Do(failed(op, piece, Cause::Unmapped)))
    } else if suits(op_writes(op), world.place(proc, page_of(addr))) {
        answer(world, alloc, op, piece, proc)
    } else {
        Ok(rlock(world, proc))
    }
}

/// What the fault of an access by the CPU decides.
pub fn decide<W: Reads>(world: &W, actor: Actor, op: &Op, at: &Wanted) -> Next
    requires { IsTrue (op_in_range op.now) }
    ensures { result
        ≡ spec.due_decide (W.program world.now) (W.state world.now).after actor op.now
        (touch.Touch.Cpu at.now.piece) at.now.proc at.now.page }
{
    let suited = suits(op_writes(op), world.place(at.proc, at.page));
    fault(world, actor, op, at, suited)
}

/// What is due once a frame was taken for a page that had this place: it is dropped if the place changed, and
/// else placed, or the old frame is copied to it.
pub fn taken<W: Reads>(world: &W, at: &Wanted, by: &Frame, over: &Place) -> Next
    ensures { result ≡ spec.due_taken (W.state world.now).after by.now over.now at.now.proc at.now.page }
{
    if same_place(&world.place(at.proc, at.page), over) {
        match names(over) {
            None => Next::Do(Kind::Place {
                proc: at.proc,
                page: at.page,
                place: place_in(by, true),
            }),
            Some(from) => Next::Do(Kind::Copied {
                from,
                to: *by,
                part: None,
            }),
        }
    } else {
        Next::Do(Kind::Drop(*by))
    }
}

/// The body that replaces a place, if the page still has it, by the taken frame.
pub fn replace<W: Reads>(
    world: &W,
    proc: Proc,
    page: Page,
    over: &Place,
    by: &Frame,
) -> Option<Kind>
    ensures { result
        ≡ spec.if_so (same_place ((W.state world.now).after.places.place proc page) over.now)
        (kind.Kind.Place proc page (place_in by.now true)) }
{
    if same_place(&world.place(proc, page), over) {
        Some(Kind::Place {
            proc,
            page,
            place: place_in(by, true),
        })
    } else {
        None
    }
}
