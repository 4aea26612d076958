// A guard after its start: mirrors are told, the body is done, the guard ends.
ghost use Rattle.std.specs.Prelude.{◌≡◌, ◌+◌, nat_lt};
ghost use Rattle.hm_history.specs.Kernel.Due as spec;

use crate::Reads;
use hm_base::{MirrorId, Proc, Span};
use hm_history::Kind;

/// The mirror that is told next.
pub fn to_tell<W: Reads>(
    world: &W,
    proc: Proc,
    span: Span,
    overlapped: bool,
    told: Option<MirrorId>,
) -> Option<MirrorId>
    ensures { result ≡ spec.to_tell (W.state world.now).after proc span overlapped told }
{
    if overlapped {
        world.next_told(proc, span, told)
    } else {
        None
    }
}

/// What the body has next, or else the guard's end.
pub fn body_or_end<W: Reads>(world: &W, proc: Proc, span: Span, body: Option<Kind>) -> Kind
    ensures { result ≡ spec.body_or_end (W.state world.now).after proc span body }
{
    match body {
        Some(kind) => kind,
        None => Kind::End {
            proc,
            span,
            seq: world.seq_ended(proc),
        },
    }
}

/// The first page after the span.
pub fn end_of(span: Span) -> u64
    ensures { result ≡ span.first + span.count }
{
    span.first().number() + span.count()
}

/// Whether a cursor is still before the span's end.
pub fn is_before_end(span: Span, next: u64) -> bool
    ensures { result ≡ nat_lt next (span.first + span.count) }
{
    next < end_of(span)
}
