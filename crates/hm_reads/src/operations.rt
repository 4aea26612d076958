// What an operation is about: whose access, its pieces, its bytes.
ghost use Rattle.std.specs.Prelude.{◌≡◌, ℕ, ◌+◌, ◌%◌, ◌^◌, ◌<◌, ◌≤◌, IsTrue, IfOk, length};
ghost use Rattle.hm_base.specs.Program.{op_in_range, access_in_range};
ghost use Rattle.hm_history.specs.Memory.Words.{pieces, first_len, page_of};
ghost use Rattle.hm_history.specs.Kernel.Operation as spec;
ghost use Rattle.hm_history.specs.Kernel.Going.{touch_page, touch_proc};
ghost use Rattle.hm_history.specs.Kernel.Stacks.{piece_of};
ghost use Rattle.hm_history.specs.Kernel.Due.{proc_of_op, child_of};

use crate::Reads;
use hm_base::{Bytes, MirrorId, NoMemory, Op, Page, Proc};
use hm_history::Who;
use hm_history::phases::Touch;
use std::alloc::Global;

fn first_len(addr: u64, len: u64) -> u64
    ensures { result ≡ first_len addr len }
{
    let room = 4096 - addr % 4096;
    if len <= room { len } else { room }
}

fn piece_in(addr: u64, len: u64, piece: u32) -> (u64, u64)
    requires { IsTrue (access_in_range addr len) }
    ensures same { result ≡ spec.piece_at (pieces addr len) piece }
    ensures below { result.0 < 2 ^ 48 }
    ensures lies { result.0 % 4096 + result.1 ≤ 4096 }
{
    let first = first_len(addr, len);
    if piece == 0 {
        (addr, first)
    } else if piece == 1 && first < len {
        (addr + first, len - first)
    } else {
        (0, 0)
    }
}

/// The address and the length of a piece of an access; each lies in one page.
pub fn op_piece(op: &Op, piece: u32) -> (u64, u64)
    requires { IsTrue (op_in_range op.now) }
    ensures same { result ≡ spec.op_piece op.now piece }
    ensures below { result.0 < 2 ^ 48 }
    ensures lies { result.0 % 4096 + result.1 ≤ 4096 }
{
    match op {
        Op::Load { proc: _, addr, len } => piece_in(*addr, u64::from(*len), piece),
        Op::Store {
            proc: _,
            addr,
            bytes,
        } => piece_in(*addr, bytes.len(), piece),
        Op::DeviceLoad {
            mirror: _,
            addr,
            len,
        } => piece_in(*addr, u64::from(*len), piece),
        Op::DeviceStore {
            mirror: _,
            addr,
            bytes,
        } => piece_in(*addr, bytes.len(), piece),
        Op::Add {
            mirror: _,
            addr,
            amount: _,
        } => if piece == 0 { (*addr, 1) } else { (0, 0) },
        _ => (0, 0),
    }
}

/// The page of an address.
pub fn page_of(addr: u64) -> Page
    requires { addr < 2 ^ 48 }
    ensures { result ≡ page_of addr }
{
    Page::new(addr / 4096)
}

/// The page of a piece of an access.
pub fn piece_page(op: &Op, piece: u32) -> Page
    requires { IsTrue (op_in_range op.now) }
    ensures { result ≡ page_of (spec.op_piece op.now piece).0 }
{
    page_of(op_piece(op, piece).0)
}

/// Whose access it is.
pub(crate) fn op_who(op: &Op) -> Who
    ensures { result ≡ spec.op_who op.now }
{
    match op {
        Op::Load { proc, .. } | Op::Store { proc, .. } => Who::Cpu(*proc),
        Op::DeviceLoad { mirror, .. } | Op::DeviceStore { mirror, .. } => Who::Mirror(*mirror),
        Op::Add { mirror, .. } | Op::Exclusive { mirror, .. } => Who::Mirror(*mirror),
        _ => Who::Cpu(Proc::new(0)),
    }
}

/// The mirror that it is about.
pub fn op_mirror(op: &Op) -> MirrorId
    ensures { result ≡ spec.op_mirror op.now }
{
    match op {
        Op::Attach { mirror, .. } | Op::Detach { mirror } => *mirror,
        Op::DeviceLoad { mirror, .. } | Op::DeviceStore { mirror, .. } => *mirror,
        Op::ToDevice { mirror, .. } | Op::ToSystem { mirror, .. } => *mirror,
        Op::Snap { mirror, .. } | Op::Exclusive { mirror, .. } => *mirror,
        Op::Add { mirror, .. } => *mirror,
        _ => MirrorId::new(0),
    }
}

/// The process whose areas it changes, or that it forks.
pub fn proc_of_op(op: &Op) -> Proc
    ensures { result ≡ proc_of_op op.now }
{
    match op {
        Op::Map { proc, .. } | Op::Unmap { proc, .. } | Op::Protect { proc, .. } => *proc,
        Op::Exit { proc } | Op::Fork { proc, .. } => *proc,
        _ => Proc::new(0),
    }
}

/// The child of a fork.
pub fn child_of(op: &Op) -> Proc
    ensures { result ≡ child_of op.now }
{
    match op {
        Op::Fork { proc: _, child } => *child,
        _ => Proc::new(0),
    }
}

/// Whether it writes.
pub fn op_writes(op: &Op) -> bool
    ensures { result ≡ spec.op_writes op.now }
{
    match op {
        Op::Store { .. } | Op::DeviceStore { .. } => true,
        Op::Exclusive { .. } | Op::Add { .. } => true,
        _ => false,
    }
}

/// Whether the operation makes a page exclusive.
pub(crate) fn is_exclusive_op(op: &Op) -> bool
    ensures { result ≡ spec.is_exclusive_op op.now }
{
    match op {
        Op::Exclusive { .. } => true,
        _ => false,
    }
}

/// Whether it migrates to a device.
pub fn is_to_device(op: &Op) -> bool
    ensures { result ≡ spec.is_to_device op.now }
{
    match op {
        Op::ToDevice { .. } => true,
        _ => false,
    }
}

/// The piece that a touch is of.
pub fn piece_of(touch: Touch) -> u32
    ensures { result ≡ piece_of touch }
{
    match touch {
        Touch::Cpu { piece } => piece,
        Touch::Walk {
            piece,
            since: _,
            seq: _,
        } => piece,
        Touch::Sole => 0,
    }
}

/// The page that a touch wants.
pub fn touch_page(op: &Op, touch: Touch) -> Page
    requires { IsTrue (op_in_range op.now) }
    ensures { result ≡ touch_page op.now touch }
{
    match op {
        Op::Exclusive { mirror: _, page } => *page,
        _ => piece_page(op, piece_of(touch)),
    }
}

/// The process whose page a touch wants.
pub fn touch_proc<W: Reads>(world: &W, op: &Op) -> Proc
    ensures { result ≡ touch_proc (W.state world.now).after op.now }
{
    match op_who(op) {
        Who::Cpu(proc) => proc,
        Who::Mirror(mirror) => world.mirror_proc(mirror),
    }
}

fn bytes_of(alloc: Global, base: u64, bytes: &Bytes, addr: u64, len: u64) -> Result<Bytes, NoMemory>
    ensures { IfOk result (λ piece. piece ≡ spec.bytes_of base bytes.now (addr, len)) }
{
    let all = bytes.as_slice();
    let from = addr.saturating_sub(base);
    let rest = if from <= all.len() as u64 {
        &all[from as usize..]
    } else {
        &[]
    };
    let part = if len <= rest.len() as u64 {
        &rest[..len as usize]
    } else {
        rest
    };
    Bytes::from_slice(alloc, part)
}

/// The bytes that an operation writes in a piece.
pub(crate) fn op_bytes(alloc: Global, op: &Op, addr: u64, len: u64) -> Result<Bytes, NoMemory>
    ensures { IfOk result (λ bytes. bytes ≡ spec.op_bytes op.now (addr, len)) }
{
    match op {
        Op::Store {
            proc: _,
            addr: base,
            bytes,
        } => bytes_of(alloc, *base, bytes, addr, len),
        Op::DeviceStore {
            mirror: _,
            addr: base,
            bytes,
        } => bytes_of(alloc, *base, bytes, addr, len),
        _ => Ok(Bytes::new(alloc)),
    }
}
