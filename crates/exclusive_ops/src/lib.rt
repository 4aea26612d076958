// Pages that a device has alone: mm/rmap.c (`make_device_exclusive_range`), mm/memory.c
// (`remove_device_exclusive_entry`) and lib/test_hmm.c (`dmirror_exclusive`, `dmirror_do_update`).
#![tactic(auto)]

ghost use Rattle.std.specs.Prelude.{◌≡◌, ◌^◌, ◌<◌, true, false, Some, [], ◌∷◌, IsTrue, IfOk};
ghost use Rattle.hm_base.specs.Program.{op_in_range};
ghost use Rattle.hm_base.specs.declared.Place as place;
ghost use Rattle.hm_history.specs.Memory.Words.{sys_frame, same_place, page_of};
ghost use Rattle.hm_history.specs.Memory.Plain.{plain_bytes};
ghost use Rattle.hm_history.specs.Kernel.Due as spec;
ghost use Rattle.hm_history.specs.declared.Kind as kind;
ghost use Rattle.hm_history.specs.declared.TableRight as right;
ghost use Rattle.hm_history.specs.declared.Who as who;
ghost use Rattle.hm_history.specs.declared.phases.Touch as touch;
ghost use Rattle.hm_history.specs.declared.phases.Next.TheVariants.{Do};

use hm_base::frames::{same_place, sys_frame};
use hm_base::{Actor, Bytes, Cause, Frame, MirrorId, NoMemory, Op, Page, Place, Proc};
use hm_history::phases::Next;
use hm_history::{Kind, TableRight};
use hm_reads::Reads;
use hm_reads::decisions::{
    failed, fails, invalidating, is_invalidating, one_page, rlock_mirror, start_page,
};
use hm_reads::faults::{Wanted, fault, suits};
use hm_reads::operations::{op_mirror, page_of};
use std::alloc::Global;

fn touch_first<W: Reads>(world: &W, actor: Actor, op: &Op, at: &Wanted) -> Next
    requires { IsTrue (op_in_range op.now) }
    ensures { result
        ≡ spec.fault (W.program world.now) (W.state world.now).after actor op.now at.now.piece
        (spec.suits true) at.now.proc at.now.page }
{
    let suited = suits(true, world.place(at.proc, at.page));
    fault(world, actor, op, at, suited)
}

fn set_sole<W: Reads>(world: &W, mirror: MirrorId, page: Page, number: u32) -> Next
    ensures { result
        ≡ elim
        (spec.is_invalidating (W.state world.now).after mirror) [
          | true ↦ spec.invalidating
              (W.state world.now).after mirror
          | false ↦ Do
              (kind.Kind.Set mirror page (Some (sys_frame number)) right.TableRight.Sole
              (W.state world.now).after.length)
        ] }
{
    if is_invalidating(world, mirror) {
        invalidating(world, mirror)
    } else {
        let frame = Some(sys_frame(number));
        Next::Do(Kind::Set {
            mirror,
            page,
            target: frame,
            right: TableRight::Sole,
            since: world.length(),
        })
    }
}

fn sole<W: Reads>(
    world: &W,
    actor: Actor,
    op: &Op,
    mirror: MirrorId,
    at: &Wanted,
    place: &Place,
) -> Next
    requires range { IsTrue (op_in_range op.now) }
    requires first { at.now.piece ≡ 0 }
    ensures { result
        ≡ spec.due_sole (W.program world.now)
        (W.state world.now).after actor op.now mirror at.now.proc at.now.page place.now }
{
    match place {
        Place::Exclusive { number, actor: by } => {
            if actor == *by {
                set_sole(world, mirror, at.page, *number)
            } else {
                touch_first(world, actor, op, at)
            }
        }
        Place::Sys {
            number: _,
            writable: true,
        } => Next::Do(start_page(world, at.proc, at.page)),
        _ => touch_first(world, actor, op, at),
    }
}

/// What is due to an access that wants the page alone: a writable system page is seized, and one that the actor has
/// alone gets its entry in the mirror's table; until then it faults as a store would.
pub fn step_exclusive<W: Reads>(world: &W, actor: Actor, op: &Op, at: &Wanted) -> Next
    requires range { IsTrue (op_in_range op.now) }
    requires first { at.now.piece ≡ 0 }
    ensures { result
        ≡ spec.due_decide (W.program world.now)
        (W.state world.now).after actor op.now touch.Touch.Sole at.now.proc at.now.page }
{
    let mirror = op_mirror(op);
    if world.is_attached(mirror) {
        sole(world, actor, op, mirror, at, &world.place(at.proc, at.page))
    } else {
        Next::Do(fails(op, 0, Cause::Outside))
    }
}

fn one_byte(alloc: Global, byte: u8) -> Result<Bytes, NoMemory>
    ensures { IfOk result (λ bytes. bytes ≡ byte ∷ []) }
{
    Bytes::from_slice(alloc, &[byte])
}

fn fetch<W: Reads>(
    world: &W,
    alloc: Global,
    actor: Actor,
    mirror: MirrorId,
    addr: u64,
) -> Result<Next, NoMemory>
    requires { spec.has_exclusive (W.state world.now).after actor mirror (page_of addr) ≡ true }
    ensures { IfOk result
        (λ next. next
        ≡ Do (kind.Kind.Fetched mirror addr
        (plain_bytes (W.state world.now).after.plain (who.Who.Mirror mirror) addr 1))) }
{
    let bytes = one_byte(alloc, world.sole_byte(actor, mirror, addr))?;
    Ok(Next::Do(Kind::Fetched {
        mirror,
        addr,
        bytes,
    }))
}

/// What is due to an addition: the byte is read if the actor has the page alone, or else its fault begins.
pub fn add<W: Reads>(
    world: &W,
    alloc: Global,
    actor: Actor,
    op: &Op,
    mirror: MirrorId,
    addr: u64,
) -> Result<Next, NoMemory>
    requires range { IsTrue (op_in_range op.now) }
    requires address { addr < 2 ^ 48 }
    ensures { IfOk result (λ next. next ≡ spec.due_add (W.state world.now).after actor op.now mirror addr) }
{
    let page = page_of(addr);
    if !world.in_window(mirror, one_page(page)) {
        Ok(Next::Do(failed(op, 0, Cause::Outside)))
    } else if world.has_exclusive(actor, mirror, page) {
        fetch(world, alloc, actor, mirror, addr)
    } else {
        Ok(rlock_mirror(world, mirror))
    }
}

/// What is due to an addition that has read this byte: it writes the sum if the actor still has the page alone, and
/// else begins anew.
pub fn fetched<W: Reads>(
    world: &W,
    alloc: Global,
    actor: Actor,
    op: &Op,
    old: u8,
) -> Result<Next, NoMemory>
    requires { IsTrue (op_in_range op.now) }
    ensures { IfOk result (λ next. next ≡ spec.due_fetched (W.state world.now).after actor op.now old) }
{
    match op {
        Op::Add {
            mirror,
            addr,
            amount,
        } => {
            if world.has_exclusive(actor, *mirror, page_of(*addr)) {
                let sum = old.wrapping_add(*amount);
                Ok(Next::Do(Kind::Added {
                    mirror: *mirror,
                    addr: *addr,
                    read: old,
                    written: sum,
                }))
            } else {
                add(world, alloc, actor, op, *mirror, *addr)
            }
        }
        _ => Ok(Next::Do(Kind::Refused(Cause::Never))),
    }
}

/// The body that gives an exclusive page back to all, if it still is one.
pub fn restore<W: Reads>(world: &W, proc: Proc, page: Page) -> Option<Kind>
    ensures { result ≡ spec.restore_at proc page ((W.state world.now).after.places.place proc page) }
{
    match world.place(proc, page) {
        Place::Exclusive { number, actor: _ } => {
            let place = Place::Sys {
                number,
                writable: true,
            };
            Some(Kind::Place { proc, page, place })
        }
        _ => None,
    }
}

/// The body that makes a writable system page this actor's alone, if the page still is that.
pub fn seize<W: Reads>(
    world: &W,
    actor: Actor,
    proc: Proc,
    page: Page,
    frame: &Frame,
) -> Option<Kind>
    ensures { result
        ≡ spec.if_so
        (same_place ((W.state world.now).after.places.place proc page) (place.Place.Sys frame.now.number true))
        (kind.Kind.Place proc page (place.Place.Exclusive frame.now.number actor)) }
{
    let number = frame.number;
    let whole = Place::Sys {
        number,
        writable: true,
    };
    if same_place(&world.place(proc, page), &whole) {
        Some(Kind::Place {
            proc,
            page,
            place: Place::Exclusive { number, actor },
        })
    } else {
        None
    }
}
