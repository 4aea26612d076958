// Phases without positions and absolute sequences.
ghost use Rattle.std.specs.Prelude.{◌≡◌, ℕ, true, map};
ghost use Rattle.hm_phases.specs.Items.{phases_of};
ghost use Rattle.hm_race_states.specs.Blurs.{noted, blurred_touch, blurred_option, blurred_phase};

use hm_history::phases::{Phase, Touch};
use hm_phases::Items;

fn noted(own: u64, small: u64, seq: u64) -> u64
    ensures { result ≡ noted own small seq }
{
    if own == seq { small } else { 5 }
}

fn blurred_touch(own: u64, small: u64, touch: Touch) -> Touch
    ensures { result ≡ blurred_touch own small touch }
{
    match touch {
        Touch::Cpu { piece } => Touch::Cpu { piece },
        Touch::Walk {
            piece,
            since: _,
            seq,
        } => Touch::Walk {
            piece,
            since: 0,
            seq: noted(own, small, seq),
        },
        Touch::Sole => Touch::Sole,
    }
}

fn blurred_option(own: u64, small: u64, touch: Option<Touch>) -> Option<Touch>
    ensures { result ≡ blurred_option own small touch }
{
    match touch {
        None => None,
        Some(touch) => Some(blurred_touch(own, small, touch)),
    }
}

fn blurred_phase(own: u64, small: u64, phase: Phase) -> Phase
    ensures { result ≡ blurred_phase own small phase }
{
    match phase {
        Phase::Detaching { seq: _ } => Phase::Detaching { seq: 0 },
        Phase::Begun {
            piece,
            since: _,
            seq,
        } => Phase::Begun {
            piece,
            since: 0,
            seq: noted(own, small, seq),
        },
        Phase::Decide { touch } => Phase::Decide {
            touch: blurred_touch(own, small, touch),
        },
        Phase::Noted {
            piece,
            since: _,
            seq,
            place,
        } => Phase::Noted {
            piece,
            since: 0,
            seq: noted(own, small, seq),
            place,
        },
        Phase::Taken { touch, by, over } => Phase::Taken {
            touch: blurred_touch(own, small, touch),
            by,
            over,
        },
        Phase::Armed { touch, by, over } => Phase::Armed {
            touch: blurred_touch(own, small, touch),
            by,
            over,
        },
        Phase::GiveUp { touch } => Phase::GiveUp {
            touch: blurred_option(own, small, touch),
        },
        other => other,
    }
}

/// The phases without positions and absolute sequences; `own` is the sequence of the interval of the actor's mirror,
/// and `small` what is kept of it.
pub(crate) fn blurred_items(own: u64, small: u64, items: Items) -> Items
    ensures { phases_of result ≡ map (blurred_phase own small) (phases_of items) }
{
    match items {
        Items::Zero => Items::Zero,
        Items::One(x) => Items::One(blurred_phase(own, small, x)),
        Items::Two(x, y) => Items::Two(blurred_phase(own, small, x), blurred_phase(own, small, y)),
        Items::Three(x, y, z) => Items::Three(
            blurred_phase(own, small, x),
            blurred_phase(own, small, y),
            blurred_phase(own, small, z),
        ),
    }
}

// Whether the phase has no position and no sequence of its own. It may say no of one that has none.
fn notes_nothing(phase: &Phase) -> bool
    ensures { result ≡ true → (own small : ℕ) → blurred_phase own small phase.now ≡ phase.now }
{
    !matches!(
        phase,
        Phase::Detaching { .. }
            | Phase::Begun { .. }
            | Phase::Noted { .. }
            | Phase::Decide {
                touch: Touch::Walk { .. }
            }
            | Phase::Taken {
                touch: Touch::Walk { .. },
                ..
            }
            | Phase::Armed {
                touch: Touch::Walk { .. },
                ..
            }
            | Phase::GiveUp {
                touch: Some(Touch::Walk { .. })
            }
    )
}

/// Whether no phase has a position or a sequence of its own. It may say no of such as have none.
pub(crate) fn all_note_nothing(items: &Items) -> bool
    ensures { result ≡ true → (own small : ℕ)
        → map (blurred_phase own small) (phases_of items.now) ≡ phases_of items.now }
{
    match items {
        Items::Zero => true,
        Items::One(x) => notes_nothing(x),
        Items::Two(x, y) => notes_nothing(x) && notes_nothing(y),
        Items::Three(x, y, z) => notes_nothing(x) && notes_nothing(y) && notes_nothing(z),
    }
}
