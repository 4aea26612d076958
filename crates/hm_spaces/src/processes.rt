// Which processes are there, and which numbers were given to forks.
ghost use Rattle.std.specs.Prelude.{◌≡◌};
ghost use Rattle.hm_spaces.specs.Spaces.{there_next, named_next};

use hm_history::Kind;

pub(crate) fn step_there(there: &mut [bool; 32], kind: &Kind)
    ensures { there.new ≡ there_next kind.now there.old }
{
    match kind {
        Kind::Forked { parent: _, child } => there[child.number() as usize] = true,
        Kind::Exited(proc) => there[proc.number() as usize] = false,
        _ => (),
    }
}

pub(crate) fn step_named(named: &mut [bool; 32], kind: &Kind)
    ensures { named.new ≡ named_next kind.now named.old }
{
    match kind {
        Kind::Named { parent: _, child } => named[child.number() as usize] = true,
        _ => (),
    }
}
