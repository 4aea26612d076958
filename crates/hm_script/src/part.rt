// The parts of a script.

ghost use Rattle.std.specs.Prelude.{◌≡◌};
ghost use Rattle.hm_script.specs.Automaton.{allows};

use crate::keyword::Keyword;

/// The part of a script that has been reached.
#[derive(Clone, Copy, PartialEq, Eq)]
pub enum Part {
    Start,
    Headed,
    Devices,
    Skipped,
    Actors,
    Turns,
    Drained,
}

impl Part {
    /// Whether a line with this first word may come next.
    pub(crate) fn allows(self, keyword: Keyword) -> bool
        ensures { result ≡ allows self keyword }
    {
        match self {
            Part::Start | Part::Drained => false,
            Part::Headed => matches!(keyword, Keyword::Frames),
            Part::Devices => matches!(
                keyword,
                Keyword::Device | Keyword::Skip | Keyword::Actor | Keyword::Turns | Keyword::Drain
            ),
            Part::Skipped => matches!(keyword, Keyword::Actor | Keyword::Turns | Keyword::Drain),
            Part::Actors => matches!(
                keyword,
                Keyword::Actor | Keyword::Op(_) | Keyword::Turns | Keyword::Drain
            ),
            Part::Turns => matches!(keyword, Keyword::Turns | Keyword::Drain),
        }
    }
}
