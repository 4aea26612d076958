// The mirrors that are attached, with their processes and windows.
ghost use Rattle.std.specs.Prelude.{◌≡◌};
ghost use Rattle.hm_advisor.specs.Windows.{windows_next};

use hm_base::{Proc, Span};
use hm_history::Kind;

/// How many mirrors there are.
pub const MIRRORS: usize = 32;

/// An attached mirror: its process, and the pages that it follows.
#[derive(Clone, Copy)]
pub struct Window {
    pub proc: Proc,
    pub span: Span,
}

/// What the entry changes in them, by the number of the mirror.
pub(crate) fn step(windows: &mut [Option<Window>; MIRRORS], kind: &Kind)
    ensures { windows.new ≡ windows_next kind.now windows.old }
{
    match kind {
        Kind::Attached {
            mirror,
            proc,
            span,
            ..
        } => {
            windows[mirror.number() as usize] = Some(Window {
                proc: *proc,
                span: *span,
            });
        }
        Kind::Detaching { mirror, .. } => windows[mirror.number() as usize] = None,
        Kind::Detached(mirror) => windows[mirror.number() as usize] = None,
        _ => (),
    }
}
