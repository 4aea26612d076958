// Which processes were there at some time, and the numbers that an entry names.
ghost use Rattle.std.specs.Prelude.{◌≡◌, true};
ghost use Rattle.hm_history.specs.Memory.Words.{with_at};
ghost use Rattle.hm_folds.specs.Ranges.{InRange};
ghost use Rattle.hm_folds.specs.Been.{been_of, been_next};

use hm_base::Proc;
use hm_history::Kind;

/// Which processes were there at some time, after an entry.
pub(crate) fn step_been(been: &mut [bool; 32], kind: &Kind)
    ensures { been_of been.new ≡ been_next (been_of been.old) kind.now }
{
    match kind {
        Kind::Forked { parent: _, child } => mark(been, *child),
        _ => (),
    }
}

fn mark(been: &mut [bool; 32], proc: Proc)
    ensures { been_of been.new ≡ with_at (been_of been.old) proc true }
{
    been[proc.number() as usize] = true;
}

/// Costs nothing: it hands the prover what the types of an entry's numbers say.
pub(crate) fn facts_of(kind: &Kind)
    ensures { InRange kind.now }
{
    match kind {
        Kind::Mapped { proc, span, .. } | Kind::Protected { proc, span, .. } => {
            proc.facts();
            span.facts();
        }
        Kind::Unmapped { proc, .. } | Kind::Exited(proc) => proc.facts(),
        Kind::Forked { parent, child } => {
            parent.facts();
            child.facts();
        }
        Kind::Named { child, .. } => child.facts(),
        _ => (),
    }
}
