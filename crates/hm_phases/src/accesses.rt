// Accesses piece by piece, and the decisions of a fault.
ghost use Rattle.std.specs.Prelude.{◌≡◌, [], ◌∷◌, length, slice_index};
ghost use Rattle.hm_history.specs.Memory.Words.{pieces};
ghost use Rattle.hm_history.specs.Kernel.Operation.{op_pieces};
ghost use Rattle.hm_history.specs.Kernel.Stacks as spec;
ghost use Rattle.hm_history.specs.declared.phases.Body.{Body as AnyBody};
ghost use Rattle.hm_history.specs.declared.phases.Phase.{Phase as AnyPhase};

use crate::Stack;
use crate::guards::opened_over;
use hm_base::{Bytes, Frame, Op, Place, PoolId};
use hm_history::Kind;
use hm_history::phases::{Body, Phase, Seen, Touch};

fn count_at(addr: u64, len: u64) -> u32
    ensures { result ≡ length (pieces addr len) }
{
    if len <= 4096 - addr % 4096 { 1 } else { 2 }
}

fn piece_count(op: &Op) -> u32
    ensures { result ≡ length (op_pieces op.now) }
{
    match op {
        Op::Load { proc: _, addr, len } => count_at(*addr, u64::from(*len)),
        Op::Store {
            proc: _,
            addr,
            bytes,
        } => count_at(*addr, bytes.len()),
        Op::DeviceLoad {
            mirror: _,
            addr,
            len,
        } => count_at(*addr, u64::from(*len)),
        Op::DeviceStore {
            mirror: _,
            addr,
            bytes,
        } => count_at(*addr, bytes.len()),
        Op::Add { .. } => 1,
        _ => 0,
    }
}

fn piece_ends(stack: &mut Stack, op: &Op, piece: u32)
    ensures { stack.new ≡ spec.piece_ends op.now piece }
{
    let count = piece_count(op);
    if piece < count && piece + 1 < count {
        stack.only(Phase::Piece { piece: piece + 1 });
    } else {
        stack.clear();
    }
}

fn piece_of(touch: Touch) -> u32
    ensures { result ≡ spec.piece_of touch }
{
    match touch {
        Touch::Cpu { piece } => piece,
        Touch::Walk {
            piece,
            since: _,
            seq: _,
        } => piece,
        Touch::Sole => 0,
    }
}

fn first_touch(op: &Op, piece: u32) -> Touch
    ensures { result ≡ spec.first_touch op.now piece }
{
    match op {
        Op::Add { .. } => Touch::Sole,
        _ => Touch::Cpu { piece },
    }
}

fn first_byte(bytes: &Bytes) -> u8
    ensures { result ≡ slice_index bytes.now 0 }
{
    match bytes.get(0) {
        Some(byte) => *byte,
        None => 0,
    }
}

fn after_piece(stack: &mut Stack, op: &Op, piece: u32, touch: Touch, kind: &Kind, seen: &Seen)
    ensures { stack.new ≡ spec.after_piece op.now piece touch kind.now seen.now }
{
    match kind {
        Kind::Loaded { .. } | Kind::Stored { .. } | Kind::Failed { .. } => {
            piece_ends(stack, op, piece);
        }
        Kind::Begin { mirror: _, seq } => stack.only(Phase::Begun {
            piece,
            since: seen.at,
            seq: *seq,
        }),
        Kind::Fetched {
            mirror: _,
            addr: _,
            bytes,
        } => stack.only(Phase::Fetched {
            old: first_byte(bytes),
        }),
        Kind::Rlock(_) => stack.only(Phase::Decide { touch }),
        _ => stack.only(Phase::Piece { piece }),
    }
}

#[inline(never)]
pub(crate) fn after_first(stack: &mut Stack, op: &Op, piece: u32, kind: &Kind, seen: &Seen)
    ensures { stack.new ≡ spec.after_piece op.now piece (spec.first_touch op.now piece) kind.now seen.now }
{
    after_piece(stack, op, piece, first_touch(op, piece), kind, seen);
}

#[inline(never)]
pub(crate) fn after_begun(
    stack: &mut Stack,
    op: &Op,
    piece: u32,
    since: u64,
    seq: u64,
    kind: &Kind,
    seen: &Seen,
)
    ensures { stack.new ≡ spec.after_piece op.now piece (Touch.Walk piece since seq) kind.now seen.now }
{
    after_piece(
        stack,
        op,
        piece,
        Touch::Walk { piece, since, seq },
        kind,
        seen,
    );
}

#[inline(never)]
pub(crate) fn after_noted(stack: &mut Stack, piece: u32)
    ensures { stack.new ≡ AnyPhase.Piece piece ∷ [] }
{
    stack.only(Phase::Piece { piece });
}

fn is_added(kind: &Kind) -> bool
    ensures { result ≡ spec.is_added kind.now }
{
    match kind {
        Kind::Added { .. } => true,
        _ => false,
    }
}

#[inline(never)]
pub(crate) fn after_fetched(stack: &mut Stack, op: &Op, kind: &Kind, seen: &Seen)
    ensures { stack.new ≡ spec.after_fetched op.now kind.now seen.now }
{
    if is_added(kind) {
        stack.clear();
    } else {
        after_piece(stack, op, 0, Touch::Sole, kind, seen);
    }
}

fn noted(touch: Touch, place: Place) -> Phase
    ensures { result ≡ spec.after_walk touch place }
{
    match touch {
        Touch::Walk { piece, since, seq } => Phase::Noted {
            piece,
            since,
            seq,
            place,
        },
        _ => Phase::Piece {
            piece: piece_of(touch),
        },
    }
}

fn taken(touch: Touch, by: Frame, over: Place) -> Phase
    ensures { result ≡ spec.with_frame_taken touch by over }
{
    match over {
        Place::Zero => Phase::Armed { touch, by, over },
        _ => Phase::Taken { touch, by, over },
    }
}

fn caught(place: Place) -> Body
    ensures { result ≡ spec.body_of_fault place }
{
    match place {
        Place::Own {
            dev,
            number,
            writable: _,
        } => Body::Catch {
            frame: Frame {
                pool: PoolId::Device(dev),
                number,
            },
        },
        Place::Exclusive { .. } => Body::Restore,
        Place::Sys {
            number,
            writable: _,
        } => Body::Seize {
            frame: Frame {
                pool: PoolId::System,
                number,
            },
        },
        _ => Body::Nothing,
    }
}

#[inline(never)]
pub(crate) fn after_decide(stack: &mut Stack, op: &Op, touch: &Touch, kind: &Kind, seen: &Seen)
    ensures { stack.new ≡ spec.after_decide op.now touch.now kind.now seen.now }
{
    let touch = *touch;
    match kind {
        Kind::Failed { .. } => piece_ends(stack, op, piece_of(touch)),
        Kind::Retry(_) => stack.only(Phase::Piece {
            piece: piece_of(touch),
        }),
        Kind::Runlock(_) => stack.only(noted(touch, seen.place)),
        Kind::Set { .. } => stack.only(Phase::Answer),
        Kind::Place { .. } => stack.only(Phase::Decide { touch }),
        Kind::Take(frame) => stack.only(taken(touch, *frame, seen.place)),
        Kind::Start { .. } => opened_over(
            stack,
            Phase::Decide { touch },
            kind,
            seen,
            caught(seen.place),
        ),
        _ => stack.clear(),
    }
}

#[inline(never)]
pub(crate) fn after_armed(
    stack: &mut Stack,
    touch: &Touch,
    by: &Frame,
    over: &Place,
    kind: &Kind,
    seen: &Seen,
)
    ensures { stack.new
        ≡ spec.with_guard kind.now seen.now (AnyBody.Replace over.now by.now) (AnyPhase.Decide touch.now ∷ []) }
{
    let below = Phase::Decide { touch: *touch };
    let body = Body::Replace {
        over: *over,
        by: *by,
    };
    opened_over(stack, below, kind, seen, body);
}

#[inline(never)]
pub(crate) fn after_taken(stack: &mut Stack, touch: &Touch, by: &Frame, over: &Place, kind: &Kind)
    ensures { stack.new ≡ spec.after_taken touch.now by.now over.now kind.now }
{
    match kind {
        Kind::Copied { .. } => stack.only(Phase::Armed {
            touch: *touch,
            by: *by,
            over: *over,
        }),
        _ => stack.only(Phase::Decide { touch: *touch }),
    }
}

fn piece_of_given_up(touch: &Option<Touch>) -> u32
    ensures { result ≡ spec.piece_of_given_up touch.now }
{
    match touch {
        None => 0,
        Some(touch) => piece_of(*touch),
    }
}

#[inline(never)]
pub(crate) fn after_give_up(stack: &mut Stack, op: &Op, touch: &Option<Touch>, kind: &Kind)
    ensures { stack.new ≡ spec.after_give_up op.now touch.now kind.now }
{
    match kind {
        Kind::Failed { .. } => piece_ends(stack, op, piece_of_given_up(touch)),
        _ => stack.clear(),
    }
}
