// What is noted after an entry.
ghost use Rattle.std.specs.Prelude.{◌≡◌, ℕ, Bool, true, false, List, slice_index_or, if◌then◌else◌, IfOk, IsTrue};
ghost use Rattle.hm_base.specs.Program.{op_in_range};
ghost use Rattle.hm_base.specs.declared.Frame.{Frame as AnyFrame};
ghost use Rattle.hm_history.specs.Kernel.Going.{op_at};
ghost use Rattle.hm_linux.specs.HeldPage.{references_held};
ghost use Rattle.hm_linux.specs.ExclusivePins.{references_pinned};
ghost use Rattle.hm_linux.specs.ExclusiveBusy.{locked_after, busy_after};
ghost use Rattle.hm_linux.specs.WholeSnapshot.{tears, torn_after};
ghost use Rattle.hm_linux.specs.Instead.{references_after, noted_next, noted_top};
ghost use Rattle.hm_linux_steps.specs.Changes.{changed};
ghost use Rattle.hm_linux_steps.specs.Notes.{noted_in};

use crate::areas::overlap;
use crate::changes::{Change, held_change, pinned_change};
use crate::notes::Notes;
use crate::shows::Shows;
use hm_base::frames::names;
use hm_base::{Actor, Frame, NoMemory, Op, Place};
use hm_history::Kind;
use hm_history::phases::{Body, Phase};
use hm_linux::Variant;
use hm_reads::Reads;
use hm_spaces::map_locks::releases;
use std::alloc::Global;
use std::rc::Rc;

// The change of references of a fault, an unmap or an exit, if they have some.
fn held_as<W: Reads>(world: &W, variant: Variant, op: &Op, top: &Phase, kind: &Kind) -> Change
    requires { IsTrue (op_in_range op.now) }
    ensures { (fs : List AnyFrame) → changed result fs
        ≡ (if variant.held_page then references_held (W.state world.now).after op.now fs top.now kind.now else fs) }
{
    if variant.held_page {
        held_change(world, op, top, kind)
    } else {
        Change::Keep
    }
}

// The change of references of a call for an exclusive page, if it has some.
fn pinned_as<W: Reads>(world: &W, variant: Variant, top: &Phase, kind: &Kind) -> Change
    ensures { (fs : List AnyFrame) → changed result fs
        ≡ (if variant.exclusive_pins then references_pinned (W.state world.now).after fs top.now kind.now else fs) }
{
    if variant.exclusive_pins {
        pinned_change(world, top, kind)
    } else {
        Change::Keep
    }
}

// The references of an actor after its entry.
fn references_after<W: Reads>(
    world: &W,
    variant: Variant,
    alloc: Global,
    op: &Op,
    frames: &[Frame],
    top: &Phase,
    kind: &Kind,
) -> Result<Vec<Frame>, NoMemory>
    requires { IsTrue (op_in_range op.now) }
    ensures { IfOk result
        (λ x. x.items ≡ references_after variant (W.state world.now).after op.now frames.now top.now kind.now) }
{
    let held = held_as(world, variant, op, top, kind);
    let pinned = pinned_as(world, variant, top, kind);
    let between = held.of(alloc, frames)?;
    pinned.of(alloc, &between)
}

// The exclusive page's frame that an actor has locked after its entry.
fn locked_after(locked: Option<Frame>, kind: &Kind) -> Option<Frame>
    ensures { result ≡ locked_after locked kind.now }
{
    match kind {
        Kind::Place {
            proc: _,
            page: _,
            place: Place::Exclusive { number, actor },
        } => names(&Place::Exclusive {
            number: *number,
            actor: *actor,
        }),
        Kind::Set { .. } => None,
        _ => { if releases(kind) { None } else { locked } }
    }
}

// Whether the guard of an actor that wants a page alone ends and has not placed it.
fn busy_after(top: &Phase, kind: &Kind) -> bool
    ensures { result ≡ busy_after top.now kind.now }
{
    match top {
        Phase::Guard {
            body: Body::Seize { .. },
            ..
        } => match kind {
            Kind::End { .. } => true,
            _ => false,
        },
        _ => false,
    }
}

// Whether the entry starts an invalidation of pages of the actor's snapshot, which is under way.
fn tears<W: Reads>(world: &W, kind: &Kind, actor: Actor) -> bool
    ensures { result
        ≡ tears (W.state world.now).after kind.now
        (op_at (W.program world.now) actor ((W.state world.now).going actor).index)
        ((W.state world.now).going actor).stack }
{
    match kind {
        Kind::Start { proc, span, .. } => match world.op(actor) {
            Some(Op::Snap { mirror, span: own }) => match world.phase(actor) {
                Some(Phase::Pages { .. }) => {
                    world.mirror_proc(*mirror) == *proc && overlap(span, own)
                }
                _ => false,
            },
            _ => false,
        },
        _ => false,
    }
}

// Whether the snapshot of another actor, or of the same, is torn after the entry.
fn torn_now<W: Reads>(world: &W, notes: &Notes, actor: Actor, kind: &Kind, of: Actor) -> bool
    ensures { result
        ≡ torn_after (W.program world.now) (record { state = W.state world.now; noted = noted_in notes.now }) actor
        kind.now of }
{
    match kind {
        Kind::Rlock(_) => actor != of && notes.is_torn(of),
        _ => notes.is_torn(of) || tears(world, kind, of),
    }
}

// Whose snapshots are torn after the entry.
fn torn_after<W: Reads>(world: &W, notes: &Notes, actor: Actor, kind: &Kind) -> [bool; 16]
    ensures { (b : ℕ) → slice_index_or result b false
        ≡ torn_after (W.program world.now) (record { state = W.state world.now; noted = noted_in notes.now }) actor
        kind.now b }
{
    world.script().facts();
    notes.none_past();
    let mut torn = [false; 16];
    for at in 0..16u32 {
        torn[at as usize] = torn_now(world, notes, actor, kind, Actor::new(at));
    }
    torn
}

// What is noted after an entry at this phase.
fn next_notes<W: Reads>(
    world: &W,
    notes: &Notes,
    variant: Variant,
    alloc: Global,
    actor: Actor,
    kind: &Kind,
    op: &Op,
    top: &Phase,
) -> Result<Notes, NoMemory>
    requires { IsTrue (op_in_range op.now) }
    ensures { IfOk result
        (λ n. noted_in n
        ≡ noted_next variant (W.program world.now) (record { state = W.state world.now; noted = noted_in notes.now })
        actor kind.now op.now top.now) }
{
    let held = notes.references(actor);
    let frames = references_after(world, variant, alloc, op, held, top, kind)?;
    let mut next = notes.copy(alloc)?;
    next.set_references(actor, frames);
    if variant.exclusive_busy {
        next.set_lock(actor, locked_after(notes.locked(actor), kind));
        next.set_busy(actor, busy_after(top, kind));
    }
    if variant.whole_snapshot {
        next.set_torn(torn_after(world, notes, actor, kind));
    }
    Ok(next)
}

/// What is noted after an entry of the actor, with these variants. `world` is the state before it.
pub fn notes_after<W: Reads>(
    world: &W,
    notes: &Notes,
    variant: Variant,
    alloc: Global,
    actor: Actor,
    kind: &Kind,
) -> Result<Notes, NoMemory>
    ensures { IfOk result
        (λ n. noted_in n
        ≡ noted_top variant (W.program world.now) (record { state = W.state world.now; noted = noted_in notes.now })
        actor kind.now (op_at (W.program world.now) actor ((W.state world.now).going actor).index)
        ((W.state world.now).going actor).stack) }
{
    world.script().facts();
    let Some(op) = world.op(actor) else {
        return notes.copy(alloc);
    };
    let Some(top) = world.phase(actor) else {
        return notes.copy(alloc);
    };
    next_notes(world, notes, variant, alloc, actor, kind, op, top)
}

/// The same, of notes that are shared: if nothing changes, they are shared on.
pub fn shared_after<W: Reads>(
    world: &W,
    notes: &Rc<Notes>,
    variant: Variant,
    alloc: Global,
    actor: Actor,
    kind: &Kind,
) -> Result<Rc<Notes>, NoMemory>
    ensures { IfOk result
        (λ n. noted_in n.value
        ≡ noted_top variant (W.program world.now)
        (record { state = W.state world.now; noted = noted_in notes.now.value }) actor kind.now
        (op_at (W.program world.now) actor ((W.state world.now).going actor).index)
        ((W.state world.now).going actor).stack) }
{
    let next = notes_after(world, notes, variant, alloc, actor, kind)?;
    if next.same(notes) {
        Ok(notes.clone()?)
    } else {
        Ok(Rc::new(alloc, next)?)
    }
}
