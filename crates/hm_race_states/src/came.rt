// Sequences just after an entry.
ghost use Rattle.std.specs.Prelude.{◌≡◌, ℕ, true};
ghost use Rattle.hm_history.specs.Memory.Sequences.{Sequences, interval_seq, sequences_next};
ghost use Rattle.hm_race_states.specs.Small.{between_seqs, kept_seqs};

use crate::small::{Between, SmallSeqs};
use hm_base::MirrorId;
use hm_history::Kind;

/// Whether the entry leaves all sequences as they are. It may say no of one that does.
pub(crate) fn is_still(kind: &Kind) -> bool
    ensures { result ≡ true → (s : Sequences) (a : ℕ) → sequences_next s a kind.now ≡ s }
{
    !matches!(
        kind,
        Kind::Start { .. }
            | Kind::Told { .. }
            | Kind::End { .. }
            | Kind::Attached { .. }
            | Kind::Detaching { .. }
            | Kind::Detached(..)
    )
}

/// Sequences just after an entry, before they are made small again.
pub trait Came {
    ghost seqs: { Self → Sequences };

    /// The sequence of the mirror's interval, and 0 if it was never attached.
    fn own_seq(&self, mirror: MirrorId) -> u64
        ensures { result ≡ interval_seq (seqs self.now) mirror };
}

impl Came for Between {
    ghost seqs = { between_seqs };

    fn own_seq(&self, mirror: MirrorId) -> u64 {
        self.interval_seq(mirror)
    }
}

impl Came for SmallSeqs {
    ghost seqs = { kept_seqs };

    fn own_seq(&self, mirror: MirrorId) -> u64 {
        self.interval_seq(mirror)
    }
}
