// The first part of legality that an entry breaks, in a race of a driver with a flaw.
ghost use Rattle.std.specs.Prelude.{◌≡◌};
ghost use Rattle.hm_flaw_parts.specs.Judged.{first_of};

use hm_flaws::Part;
use hm_parts::Parts;

/// Which parts of legality an entry is judged by.
#[derive(Clone, Copy)]
pub enum Judging {
    /// By all: they are the protocol.
    AllParts,
    /// By answers alone: what breaks them does harm.
    AnswersAlone,
}

/// The first part that is not met.
pub fn first_unmet(met: &Parts) -> Option<Part>
    ensures { result ≡ first_of met.now }
{
    if !met.answers {
        return Some(Part::Answers);
    }
    if !met.places {
        return Some(Part::Places);
    }
    if !met.frames {
        return Some(Part::Frames);
    }
    if !met.sequences {
        return Some(Part::Sequences);
    }
    if !met.untold {
        return Some(Part::Untold);
    }
    if !met.guarded {
        return Some(Part::Guarded);
    }
    if !met.kept {
        return Some(Part::Kept);
    }
    None
}
