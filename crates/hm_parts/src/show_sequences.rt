// What sequences allow in the place of an entry that they do not allow.
ghost use Rattle.std.specs.Prelude.{◌≡◌, Option, Some, None};
ghost use Rattle.hm_folds.specs.Kept.{sequences_of, under_way};
ghost use Rattle.hm_parts.specs.Shown.{ending, goes_on, guard_goes_on, if_right, next_of, shows_sequences, starting};
ghost use Rattle.hm_parts.specs.Shown.{telling};

use crate::shown::{Shown, or_else};
use hm_base::{Actor, MirrorId, Proc, Span};
use hm_folds::SeqState;
use hm_history::Kind;
use hm_reads::Reads;

/// These words, if sequences allow them as the actor's next entry.
fn if_right(sequences: &SeqState, actor: Actor, kind: Kind) -> Option<Shown>
    ensures { result ≡ if_right (sequences_of sequences.now) actor kind }
{
    if sequences.accepts(actor, &kind) {
        Some(Shown::Words(kind))
    } else {
        None
    }
}

/// That this mirror is told of an invalidation of the span.
fn telling(sequences: &SeqState, proc: Proc, span: Span, mirror: MirrorId) -> Kind
    ensures { result ≡ telling (sequences_of sequences.now) proc span mirror }
{
    Kind::Told {
        mirror,
        span,
        seq: sequences.process_seq(proc),
    }
}

/// The least mirror that the actor may tell of the invalidation.
fn next_of(sequences: &SeqState, actor: Actor, proc: Proc, span: Span) -> Option<MirrorId>
    ensures { result ≡ next_of (sequences_of sequences.now) proc span actor }
{
    for number in 0..32u32 {
        let mirror = MirrorId::new(number);
        if sequences.accepts(actor, &telling(sequences, proc, span, mirror)) {
            return Some(mirror);
        }
    }
    None
}

/// That an invalidation of the span starts, with the sequence that it would have.
fn starting<W: Reads>(world: &W, proc: Proc, span: Span) -> Kind
    ensures { result ≡ starting (W.state world.now).after.sequences proc span }
{
    Kind::Start {
        proc,
        span,
        seq: world.seq_started(proc, span),
    }
}

/// That it ends.
fn ending<W: Reads>(world: &W, proc: Proc, span: Span) -> Kind
    ensures { result ≡ ending (W.state world.now).after.sequences proc span }
{
    Kind::End {
        proc,
        span,
        seq: world.seq_ended(proc),
    }
}

/// How the actor's invalidation of this span may go on: the next mirror is told, or it ends.
fn goes_on<W: Reads>(
    world: &W,
    sequences: &SeqState,
    actor: Actor,
    proc: Proc,
    span: Span,
) -> Option<Shown>
    requires { sequences_of sequences.now ≡ (W.state world.now).after.sequences }
    ensures { result ≡ goes_on (W.state world.now).after.sequences actor proc span }
{
    match next_of(sequences, actor, proc, span) {
        Some(mirror) => Some(Shown::Words(telling(sequences, proc, span, mirror))),
        None => if_right(sequences, actor, ending(world, proc, span)),
    }
}

/// So it may, if the actor has one under way.
fn guard_goes_on<W: Reads>(world: &W, sequences: &SeqState, actor: Actor) -> Option<Shown>
    requires { sequences_of sequences.now ≡ (W.state world.now).after.sequences }
    ensures { result
        ≡ guard_goes_on (W.state world.now).after.sequences actor
        (under_way ((W.state world.now).after.sequences.guard actor)) }
{
    match sequences.under_way(actor) {
        None => None,
        Some((proc, span)) => goes_on(world, sequences, actor, proc, span),
    }
}

/// An entry that sequences allow in the place of this one. The sequences are those of the world.
pub(crate) fn shows_sequences<W: Reads>(
    world: &W,
    sequences: &SeqState,
    actor: Actor,
    kind: &Kind,
) -> Option<Shown>
    requires { sequences_of sequences.now ≡ (W.state world.now).after.sequences }
    ensures { result ≡ shows_sequences (W.state world.now).after.sequences actor kind.now }
{
    match kind {
        Kind::Start { proc, span, .. } => or_else(
            guard_goes_on(world, sequences, actor),
            if_right(sequences, actor, starting(world, *proc, *span)),
        ),
        Kind::Told { .. } | Kind::End { .. } => guard_goes_on(world, sequences, actor),
        Kind::Attached {
            mirror,
            dev,
            proc,
            span,
            ..
        } => {
            let attached = Kind::Attached {
                mirror: *mirror,
                dev: *dev,
                proc: *proc,
                span: *span,
                seq: world.interval_inserted(*proc),
            };
            if_right(sequences, actor, attached)
        }
        Kind::Detaching { mirror, .. } => {
            let seq = world.process_seq(sequences.interval_proc(*mirror));
            let mirror = *mirror;
            if_right(sequences, actor, Kind::Detaching { mirror, seq })
        }
        Kind::Begin { mirror, .. } => {
            let seq = world.interval_seq(*mirror);
            let mirror = *mirror;
            if_right(sequences, actor, Kind::Begin { mirror, seq })
        }
        _ => None,
    }
}
