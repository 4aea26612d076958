// What is due at each phase. Each turn answers what `due` answers, so that a kind moves as seldom as can be. Each is a
// function of its own: what an arm of `due_phase` kept in its frame would be filled with zeros at every turn, be it
// taken or not.
ghost use Rattle.std.specs.Prelude.{◌≡◌, Some, Ok, IsTrue, IfOk};
ghost use Rattle.hm_base.specs.Pages.{one_page};
ghost use Rattle.hm_base.specs.Program.{op_in_range};
ghost use Rattle.hm_history.specs.Memory.Plain.{mirror_proc};
ghost use Rattle.hm_history.specs.Kernel.Operation.{op_mirror};
ghost use Rattle.hm_history.specs.Kernel.Going.{touch_page, touch_proc};
ghost use Rattle.hm_history.specs.Kernel.Stacks.{piece_of};
ghost use Rattle.hm_history.specs.Kernel.Due as spec;
ghost use Rattle.hm_reads.specs.Ranges.{phase_in_range};
ghost use Rattle.hm_history.specs.Kernel.Going.{coming};
ghost use Rattle.hm_base.specs.declared.cause.Cause.TheVariants as cause;
ghost use Rattle.hm_history.specs.declared.Kind.TheVariants as kind;
ghost use Rattle.hm_history.specs.declared.KeptAt.TheVariants as kept;
ghost use Rattle.hm_history.specs.declared.KeptWhy.TheVariants as why;
ghost use Rattle.hm_history.specs.declared.phases.Phase.TheVariants as phase;
ghost use Rattle.hm_history.specs.declared.phases.Next.TheVariants as next;
ghost use Rattle.hm_reads.specs.Ranges.{body_in_range};

use crate::bodies::due_guard;
use crate::moves::due_moves;
use crate::operations::{due_answer, due_begin, due_locked, due_pages, due_piece, due_ready};
use device_evict::step_evict;
use exclusive_ops::{fetched, step_exclusive};
use fault_home::{give_up, step_home};
use hm_base::{Actor, Cause, Frame, MirrorId, NoMemory, Op, Page, Place, Proc, Span};
use hm_history::phases::{Body, MoveStep, Next, Phase, Touch};
use hm_history::{Entry, KeptAt, KeptWhy, Kind, Progress};
use hm_reads::Reads;
use hm_reads::decisions::{rlock_mirror, start_page};
use hm_reads::faults::Wanted;
use hm_reads::operations::{op_mirror, piece_of, touch_page, touch_proc};
use mig_finish::{settle, step_finish};
use mirror_ops::leave;
use range_walk::noted;
use skip_rules::SkipRule;
use std::alloc::Global;

fn wanted<W: Reads>(world: &W, op: &Op, touch: &Touch) -> Wanted
    requires { IsTrue (op_in_range op.now) }
    ensures piece { result.piece ≡ piece_of touch.now }
    ensures proc { result.proc ≡ touch_proc (W.state world.now).after op.now }
    ensures page { result.page ≡ touch_page op.now touch.now }
{
    Wanted {
        piece: piece_of(*touch),
        proc: touch_proc(world, op),
        page: touch_page(op, *touch),
    }
}

fn decide_at<W: Reads>(world: &W, actor: Actor, op: &Op, touch: &Touch, at: &Wanted) -> Next
    requires range { IsTrue (op_in_range op.now) }
    requires piece { at.now.piece ≡ piece_of touch.now }
    ensures { result
        ≡ spec.due_decide (W.program world.now)
        (W.state world.now).after actor op.now touch.now at.now.proc at.now.page }
{
    match touch {
        Touch::Cpu { .. } => anon_fault::decide(world, actor, op, at),
        Touch::Walk {
            piece: _,
            since,
            seq,
        } => range_walk::decide(world, actor, op, at, *since, *seq),
        Touch::Sole => step_exclusive(world, actor, op, at),
    }
}

fn due_decide<W: Reads>(world: &W, actor: Actor, op: &Op, touch: &Touch) -> Next
    requires { IsTrue (op_in_range op.now) }
    ensures { result
        ≡ spec.due_decide (W.program world.now) (W.state world.now).after actor op.now touch.now
        (touch_proc (W.state world.now).after op.now) (touch_page op.now touch.now) }
{
    let at = wanted(world, op, touch);
    decide_at(world, actor, op, touch, &at)
}

#[inline(always)]
fn did(actor: Actor, kind: Kind) -> Result<Progress, NoMemory>
    ensures { result ≡ Ok (spec.progress actor (next.Do kind)) }
{
    Ok(Progress::Did(Entry { actor, kind }))
}

#[inline(always)]
fn comes_to(actor: Actor, next: Next) -> Result<Progress, NoMemory>
    ensures { result ≡ Ok (spec.progress actor next) }
{
    match next {
        Next::Do(kind) => did(actor, kind),
        Next::Wait(why) => Ok(Progress::Waiting(why)),
    }
}

#[inline(never)]
fn begin_turn<W: Reads>(world: &W, actor: Actor, op: &Op) -> Result<Progress, NoMemory>
    ensures { result ≡ Ok (spec.progress actor (spec.due_begin (W.state world.now).after actor op.now)) }
{
    comes_to(actor, due_begin(world, actor, op))
}

#[inline(never)]
fn locked_turn<W: Reads>(world: &W, actor: Actor, op: &Op) -> Result<Progress, NoMemory>
    ensures { result ≡ Ok (spec.progress actor (next.Do (spec.due_locked (W.state world.now).after op.now))) }
{
    did(actor, due_locked(world, op))
}

#[inline(never)]
fn ready_turn<W: Reads>(world: &W, actor: Actor, op: &Op) -> Result<Progress, NoMemory>
    ensures { result ≡ Ok (spec.progress actor (next.Do (spec.due_ready (W.state world.now).after op.now))) }
{
    did(actor, due_ready(world, op))
}

#[inline(never)]
fn answer_turn<W: Reads>(world: &W, actor: Actor, op: &Op) -> Result<Progress, NoMemory>
    ensures { result ≡ Ok (spec.progress actor (next.Do (spec.due_answer (W.state world.now).after op.now))) }
{
    did(actor, due_answer(world, op))
}

#[inline(never)]
fn detaching_turn<W: Reads>(
    world: &W,
    actor: Actor,
    op: &Op,
    seq: u64,
) -> Result<Progress, NoMemory>
    ensures { result ≡ Ok (spec.progress actor (spec.due_detaching (W.state world.now).after (op_mirror op.now) seq)) }
{
    comes_to(actor, leave(world, op_mirror(op), seq))
}

#[inline(never)]
fn pages_turn<W: Reads>(world: &W, actor: Actor, op: &Op, from: u64) -> Result<Progress, NoMemory>
    ensures { result ≡ Ok (spec.progress actor (next.Do (spec.due_pages (W.state world.now).after op.now from))) }
{
    did(actor, due_pages(world, op, from))
}

#[inline(never)]
fn begun_turn<W: Reads>(world: &W, actor: Actor, op: &Op) -> Result<Progress, NoMemory>
    ensures { result
        ≡ Ok (spec.progress actor
        (spec.rlock (W.state world.now).after (mirror_proc (W.state world.now).after.plain (op_mirror op.now)))) }
{
    comes_to(actor, rlock_mirror(world, op_mirror(op)))
}

#[inline(never)]
fn decide_turn<W: Reads>(
    world: &W,
    actor: Actor,
    op: &Op,
    touch: &Touch,
) -> Result<Progress, NoMemory>
    requires { IsTrue (op_in_range op.now) }
    ensures { result
        ≡ Ok (spec.progress actor
        (spec.due_decide (W.program world.now) (W.state world.now).after actor op.now touch.now (touch_proc
        (W.state world.now).after op.now) (touch_page op.now touch.now))) }
{
    comes_to(actor, due_decide(world, actor, op, touch))
}

#[inline(never)]
fn noted_turn<W: Reads>(
    world: &W,
    actor: Actor,
    op: &Op,
    piece: u32,
    since: u64,
    seq: u64,
    place: &Place,
) -> Result<Progress, NoMemory>
    requires { IsTrue (op_in_range op.now) }
    ensures { result
        ≡ Ok (spec.progress actor
        (spec.due_noted (W.state world.now).after op.now piece since seq place.now)) }
{
    comes_to(actor, noted(world, op, piece, since, seq, place))
}

#[inline(never)]
fn taken_turn<W: Reads>(
    world: &W,
    actor: Actor,
    op: &Op,
    touch: &Touch,
    by: &Frame,
    over: &Place,
) -> Result<Progress, NoMemory>
    requires { IsTrue (op_in_range op.now) }
    ensures { result
        ≡ Ok (spec.progress actor
        (spec.due_taken (W.state world.now).after by.now over.now (touch_proc (W.state world.now).after op.now)
        (touch_page op.now touch.now))) }
{
    let at = wanted(world, op, touch);
    comes_to(actor, anon_fault::taken(world, &at, by, over))
}

#[inline(never)]
fn armed_turn<W: Reads>(
    world: &W,
    actor: Actor,
    op: &Op,
    touch: &Touch,
) -> Result<Progress, NoMemory>
    requires { IsTrue (op_in_range op.now) }
    ensures { result
        ≡ Ok (spec.progress actor
        (next.Do (spec.start_entry (W.state world.now).after (touch_proc (W.state world.now).after op.now) (one_page
        (touch_page op.now touch.now))))) }
{
    let at = wanted(world, op, touch);
    did(actor, start_page(world, at.proc, at.page))
}

#[inline(never)]
fn guard_turn<W: Reads>(
    world: &W,
    actor: Actor,
    op: &Op,
    proc: Proc,
    span: Span,
    overlapped: bool,
    told: Option<MirrorId>,
    body: &Body,
) -> Result<Progress, NoMemory>
    requires { IsTrue (body_in_range body.now) }
    ensures { result
        ≡ Ok (spec.progress actor
        (next.Do (spec.due_guard (W.state world.now).after actor op.now proc span overlapped told body.now))) }
{
    did(
        actor,
        due_guard(world, actor, op, proc, span, overlapped, told, body),
    )
}

#[inline(never)]
fn drop_turn(actor: Actor, frame: Frame) -> Result<Progress, NoMemory>
    ensures { result ≡ Ok (spec.progress actor (next.Do (kind.Drop frame))) }
{
    did(actor, Kind::Drop(frame))
}

#[inline(never)]
fn home_turn<W: Reads>(
    world: &W,
    actor: Actor,
    frame: &Frame,
    at: KeptAt,
) -> Result<Progress, NoMemory>
    ensures { result
        ≡ Ok (spec.progress actor
        (next.Do (spec.due_emptying (W.program world.now) (W.state world.now).after frame.now at))) }
{
    did(actor, step_home(world, frame, at))
}

#[inline(never)]
fn copy_turn(actor: Actor, from: Frame, to: Frame, part: u8) -> Result<Progress, NoMemory>
    ensures { result ≡ Ok (spec.progress actor (next.Do (kind.Copied from to (Some part)))) }
{
    did(
        actor,
        Kind::Copied {
            from,
            to,
            part: Some(part),
        },
    )
}

#[inline(never)]
fn commit_turn(actor: Actor, from: Frame, to: Frame) -> Result<Progress, NoMemory>
    ensures { result ≡ Ok (spec.progress actor (next.Do (kind.Committed from to))) }
{
    did(actor, Kind::Committed { from, to })
}

#[inline(never)]
fn finish_turn<W: Reads>(
    world: &W,
    actor: Actor,
    from: &Frame,
    to: Option<Frame>,
) -> Result<Progress, NoMemory>
    ensures { result ≡ Ok (spec.progress actor (next.Do (spec.due_finish (W.state world.now).after from.now to))) }
{
    did(actor, step_finish(world, from, to))
}

#[inline(never)]
fn settle_turn<W: Reads>(world: &W, actor: Actor, frame: &Frame) -> Result<Progress, NoMemory>
    ensures { result ≡ Ok (spec.progress actor (next.Do (spec.settle (W.state world.now).after frame.now))) }
{
    did(actor, settle(world, frame))
}

#[inline(never)]
fn give_up_turn(actor: Actor, op: &Op, touch: &Option<Touch>) -> Result<Progress, NoMemory>
    requires { IsTrue (op_in_range op.now) }
    ensures { result ≡ Ok (spec.progress actor (next.Do (spec.due_give_up op.now touch.now))) }
{
    did(actor, give_up(op, touch))
}

#[inline(never)]
fn frames_turn<W: Reads>(
    world: &W,
    actor: Actor,
    op: &Op,
    from: u64,
    emptied: u64,
) -> Result<Progress, NoMemory>
    ensures { result
        ≡ Ok (spec.progress actor
        (spec.due_frames (W.program world.now) (W.state world.now).after actor op.now from emptied)) }
{
    comes_to(actor, step_evict(world, actor, op, from, emptied))
}

#[inline(never)]
fn moves_turn<W: Reads, R: SkipRule>(
    world: &W,
    rule: &R,
    actor: Actor,
    op: &Op,
    step: MoveStep,
    from: u64,
) -> Result<Progress, NoMemory>
    ensures { result
        ≡ Ok (spec.progress actor
        (next.Do (spec.due_moves (W.program world.now) (W.state world.now).after op.now
        ((W.state world.now).going actor).pages (coming (W.state world.now).after op.now
        ((W.state world.now).going actor).pages (phase.Moves step from))))) }
{
    did(actor, due_moves(world, rule, actor, op, step, from))
}

#[inline(never)]
fn lost_turn(actor: Actor, page: Page) -> Result<Progress, NoMemory>
    ensures { result ≡ Ok (spec.progress actor (next.Do (kind.Kept (kept.Page page) why.Lost))) }
{
    did(
        actor,
        Kind::Kept {
            at: KeptAt::Page(page),
            why: KeptWhy::Lost,
        },
    )
}

#[inline(never)]
fn piece_turn<W: Reads>(
    world: &W,
    alloc: Global,
    actor: Actor,
    op: &Op,
    piece: u32,
) -> Result<Progress, NoMemory>
    requires { IsTrue (op_in_range op.now) }
    ensures { IfOk result (λ p. p ≡ spec.progress actor (spec.due_piece (W.state world.now).after actor op.now piece)) }
{
    comes_to(actor, due_piece(world, alloc, actor, op, piece)?)
}

#[inline(never)]
fn fetched_turn<W: Reads>(
    world: &W,
    alloc: Global,
    actor: Actor,
    op: &Op,
    old: u8,
) -> Result<Progress, NoMemory>
    requires { IsTrue (op_in_range op.now) }
    ensures { IfOk result (λ p. p ≡ spec.progress actor (spec.due_fetched (W.state world.now).after actor op.now old)) }
{
    comes_to(actor, fetched(world, alloc, actor, op, old)?)
}

/// The turn at a phase. Only the answers of accesses take memory.
#[inline(always)]
pub(crate) fn due_phase<W: Reads, R: SkipRule>(
    world: &W,
    rule: &R,
    alloc: Global,
    actor: Actor,
    op: &Op,
    top: &Phase,
) -> Result<Progress, NoMemory>
    requires op { IsTrue (op_in_range op.now) }
    requires top { IsTrue (phase_in_range top.now) }
    ensures { IfOk result
        (λ progress. progress
        ≡ spec.progress actor
        (spec.due_phase (W.program world.now) (W.state world.now).after actor op.now
        ((W.state world.now).going actor).pages top.now)) }
{
    match top {
        Phase::Begin => begin_turn(world, actor, op),
        Phase::Locked => locked_turn(world, actor, op),
        Phase::Ready => ready_turn(world, actor, op),
        Phase::Answer => answer_turn(world, actor, op),
        Phase::Detaching { seq } => detaching_turn(world, actor, op, *seq),
        Phase::Pages { next } => pages_turn(world, actor, op, *next),
        Phase::Piece { piece } => piece_turn(world, alloc, actor, op, *piece),
        Phase::Fetched { old } => fetched_turn(world, alloc, actor, op, *old),
        Phase::Begun { .. } => begun_turn(world, actor, op),
        Phase::Decide { touch } => decide_turn(world, actor, op, touch),
        Phase::Noted {
            piece,
            since,
            seq,
            place,
        } => noted_turn(world, actor, op, *piece, *since, *seq, place),
        Phase::Taken { touch, by, over } => taken_turn(world, actor, op, touch, by, over),
        Phase::Armed { touch, .. } => armed_turn(world, actor, op, touch),
        Phase::Guard {
            proc,
            span,
            overlapped,
            told,
            body,
        } => guard_turn(world, actor, op, *proc, *span, *overlapped, *told, body),
        Phase::Drop { frame } => drop_turn(actor, *frame),
        Phase::Emptying { frame, at } => home_turn(world, actor, frame, *at),
        Phase::Copy { from, to, part } => copy_turn(actor, *from, *to, *part),
        Phase::Copied { from, to } => commit_turn(actor, *from, *to),
        Phase::Finish { from, to } => finish_turn(world, actor, from, *to),
        Phase::Settle { frame } => settle_turn(world, actor, frame),
        Phase::GiveUp { touch } => give_up_turn(actor, op, touch),
        Phase::Frames { next, emptied } => frames_turn(world, actor, op, *next, *emptied),
        Phase::Moves { step, next } => moves_turn(world, rule, actor, op, *step, *next),
        Phase::Lost { page, .. } => lost_turn(actor, *page),
    }
}
