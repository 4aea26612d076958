// Failures for want of a frame.
ghost use Rattle.std.specs.Prelude.{◌≡◌, ◌&&◌, ◌==◌, ◌∷◌, [], not, is_none, if◌then◌else◌};
ghost use Rattle.hm_history.specs.Memory.Rules.{is_finishing, is_no_frame, wants_frame, needs_full};
ghost use Rattle.hm_history.specs.Memory.Places.{lowest_free};
ghost use Rattle.hm_folds.specs.Places.{ForShown};
ghost use Rattle.hm_base.specs.declared.PoolId.{PoolId as AnyPool};
ghost use Rattle.hm_parts.specs.Short.{short_next};

use hm_base::{Actor, Cause, PoolId};
use hm_folds::PlaceState;
use hm_history::{Entry, KeptWhy, Kind};

/// Whether an entry of this kind ends what its actor asked a frame for.
pub fn is_finishing(kind: &Kind) -> bool
    ensures { result ≡ is_finishing kind.now }
{
    matches!(kind, Kind::Place { .. } | Kind::Done(_) | Kind::Drop(_))
}

/// Whether the entry keeps something for want of a frame.
pub fn is_no_frame(entry: &Entry) -> bool
    ensures { result ≡ is_no_frame (entry.now ∷ []) }
{
    matches!(
        &entry.kind,
        Kind::Kept {
            at: _,
            why: KeptWhy::NoFrame
        }
    )
}

fn wants_frame(cause: Cause) -> bool
    ensures { result ≡ wants_frame cause }
{
    matches!(cause, Cause::NoFrame)
}

/// Whether the entry fails or is refused for want of a frame.
pub fn needs_full(kind: &Kind) -> bool
    ensures { result ≡ needs_full kind.now }
{
    match kind {
        Kind::Failed {
            who: _,
            addr: _,
            len: _,
            cause,
        } => wants_frame(*cause),
        Kind::Refused(cause) => wants_frame(*cause),
        _ => false,
    }
}

/// Whether every frame of the system is held.
pub(crate) fn is_full(state: &PlaceState) -> bool
    ensures { ForShown state.now (λ c s. result ≡ is_none (lowest_free c s AnyPool.System)) }
{
    state.lowest_free(PoolId::System).is_none()
}

/// Whether no frame was free when the actor last asked for one to bring a page home or to empty a frame, after one more
/// entry. The state is that before it.
pub(crate) fn short_next(state: &PlaceState, actor: Actor, short: bool, entry: &Entry) -> bool
    ensures { ForShown state.now (λ c s. result ≡ short_next c s actor short entry.now) }
{
    if entry.actor == actor && !is_finishing(&entry.kind) {
        is_no_frame(entry) && is_full(state)
    } else {
        short
    }
}
