// Accesses of the CPU to any memory, as if a device's were the system's.
ghost use Rattle.std.specs.Prelude.{◌≡◌, IsTrue, IfOk};
ghost use Rattle.hm_base.specs.Program.{op_in_range};
ghost use Rattle.hm_history.specs.Kernel.Operation.{op_who};
ghost use Rattle.hm_history.specs.Kernel.Due as spec;
ghost use Rattle.hm_history.specs.declared.Who as who;
ghost use Rattle.hm_history.specs.declared.phases.Next.TheVariants.{Do};
ghost use Rattle.hm_flaws.specs.Overrides.{answered, has_any_place};
ghost use Rattle.hm_flaws.specs.declared.flaws.Flaw as flaws;
ghost use Rattle.hm_flaw_states.specs.Steps.Found.{right_at, flawed_at, any_place};

use crate::steps::Finds;
use crate::steps::look_ups::suits_any;
use hm_base::{Actor, NoMemory, Op, Proc};
use hm_history::phases::{Next, Phase};
use hm_history::{Kind, Who};
use hm_reads::decisions::stored;
use hm_reads::operations::{op_piece, op_writes, piece_page};
use std::alloc::Global;

// The answer of a piece: what it writes, or what its process has there.
fn answer<W: Finds>(
    found: &W,
    alloc: Global,
    op: &Op,
    piece: u32,
    proc: Proc,
) -> Result<Next, NoMemory>
    requires range { IsTrue (op_in_range op.now) }
    requires who { op_who op.now ≡ who.Who.Cpu proc }
    ensures { IfOk result (λ next. next ≡ Do (spec.answer_of_piece (W.state found.now).after op.now piece)) }
{
    if op_writes(op) {
        stored(alloc, op, piece)
    } else {
        let (addr, len) = op_piece(op, piece);
        let bytes = found.process_bytes(alloc, proc, addr, len)?;
        Ok(Next::Do(Kind::Loaded {
            who: Who::Cpu(proc),
            addr,
            bytes,
        }))
    }
}

// The answer, if the process is there and the page's place allows the access.
fn placed_or<W: Finds>(
    found: &W,
    alloc: Global,
    op: &Op,
    piece: u32,
    proc: Proc,
    right: Next,
) -> Result<Next, NoMemory>
    requires range { IsTrue (op_in_range op.now) }
    requires who { op_who op.now ≡ who.Who.Cpu proc }
    ensures { IfOk result
        (λ n. n
        ≡ answered (any_place (W.state found.now).after op.now piece proc) (W.state found.now).after op.now piece
        right) }
{
    if found.there(proc) && suits_any(op_writes(op), &found.place(proc, piece_page(op, piece))) {
        answer(found, alloc, op, piece, proc)
    } else {
        Ok(right)
    }
}

// A piece of an access: that of a process by its place, another one as is due.
fn any_piece<W: Finds>(
    found: &W,
    alloc: Global,
    op: &Op,
    piece: u32,
    right: Next,
) -> Result<Next, NoMemory>
    requires { IsTrue (op_in_range op.now) }
    ensures { IfOk result
        (λ n. n
        ≡ answered (has_any_place (W.state found.now).after op.now piece) (W.state found.now).after op.now piece
        right) }
{
    match op {
        Op::Load { proc, .. } => placed_or(found, alloc, op, piece, *proc, right),
        Op::Store { proc, .. } => placed_or(found, alloc, op, piece, *proc, right),
        _ => Ok(right),
    }
}

/// A CPU that accesses a device's memory.
pub(crate) fn device_accessed<W: Finds>(
    found: &W,
    alloc: Global,
    actor: Actor,
    op: &Op,
    top: &Phase,
    right: Next,
) -> Result<Next, NoMemory>
    requires range { IsTrue (op_in_range op.now) }
    requires right { right ≡ right_at (W.program found.now) (W.state found.now) actor op.now top.now }
    ensures { IfOk result
        (λ n. n ≡ flawed_at flaws.Flaw.DeviceAccessed (W.program found.now) (W.state found.now) actor op.now top.now) }
{
    let _ = actor;
    match top {
        Phase::Piece { piece } => any_piece(found, alloc, op, *piece, right),
        _ => Ok(right),
    }
}
