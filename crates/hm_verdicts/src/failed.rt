// Why a trace is not judged.
use hm_base::NoMemory;

/// Why a trace is not judged.
#[derive(Clone, Copy)]
pub enum Failed {
    /// It runs out of memory.
    NoMemory,
    /// The trace has more than 2^32 events.
    TooLong,
}

impl From<NoMemory> for Failed {
    ghost use Rattle.std.specs.Prelude.{◌≡◌};
    ghost use Rattle.hm_verdicts.specs.declared.failed.Failed.TheVariants as reasons;

    ghost from_gives = { λ _ e. e ≡ reasons.NoMemory };

    fn from(_: NoMemory) -> Failed {
        Failed::NoMemory
    }
}
