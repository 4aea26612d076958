// Which rules an entry keeps.
ghost use Rattle.std.specs.Prelude.{◌≡◌};
ghost use Rattle.hm_parts.specs.Rules.{keeps_all, leads_on, leaves_places, leaves_plain, leaves_sequences};

use hm_history::Kind;

/// Which rules of memory an entry keeps after those before it. None of them asks how far the actors have come.
#[derive(Clone, Copy)]
pub struct Rules {
    /// Its answer is by the plain bytes, areas, processes and mirrors.
    pub answers: bool,
    /// Places, frames and mirror tables allow it.
    pub places: bool,
    /// It fails for want of a frame only if none was free.
    pub frames: bool,
    /// Its sequences are right.
    pub sequences: bool,
    /// It uses no table entry that was told of since its look-up began.
    pub untold: bool,
    /// It takes nothing from a page but under a guard in which all were told.
    pub guarded: bool,
    /// There is a state after it: what it does not allow it leaves as it is.
    pub goes_on: bool,
}

impl Rules {
    /// Whether it keeps all.
    pub fn hold(&self) -> bool
        ensures { result ≡ keeps_all self.now }
    {
        self.answers && self.places && self.frames && self.sequences && self.untold && self.guarded
    }
}

/// Whether the entry leaves the plain state as it is.
fn leaves_plain(kind: &Kind) -> bool
    ensures { result ≡ leaves_plain kind.now }
{
    matches!(
        kind,
        Kind::Loaded { .. } | Kind::Failed { .. } | Kind::Fetched { .. }
    )
}

/// Whether the entry leaves the places as they are.
fn leaves_places(kind: &Kind) -> bool
    ensures { result ≡ leaves_places kind.now }
{
    matches!(
        kind,
        Kind::Loaded { .. } | Kind::Stored { .. } | Kind::Fetched { .. } | Kind::Added { .. }
    )
}

/// Whether the entry leaves the sequences as they are.
fn leaves_sequences(kind: &Kind) -> bool
    ensures { result ≡ leaves_sequences kind.now }
{
    matches!(kind, Kind::Begin { .. })
}

/// Whether there is a state after an entry of this kind, if these say whether its answers, places and sequences are
/// allowed.
pub(crate) fn leads_on(answers: bool, places: bool, sequences: bool, kind: &Kind) -> bool
    ensures { result ≡ leads_on answers places sequences kind.now }
{
    (answers || leaves_plain(kind))
        && (places || leaves_places(kind))
        && (sequences || leaves_sequences(kind))
}
