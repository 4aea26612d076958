// The page to which a migration has come.
ghost use Rattle.std.specs.Prelude.{◌≡◌, Bool, option_copied};
ghost use Rattle.hm_history.specs.Kernel.Going.{steps_from};
ghost use Rattle.hm_history.specs.declared.phases.Migrating.{Migrating as Record};
ghost use Rattle.hm_history.specs.declared.phases.MoveStep.{MoveStep as Step};
ghost use Rattle.hm_actors.specs.Coming.{first_from, come_by};

use crate::records::Records;
use hm_history::phases::{Migrating, MoveStep};

/// What tells whether a step of a migration has an entry for a record now.
pub trait Concerns {
    ghost concerns: { Self → Step → Record → Bool };

    fn concerns(&self, step: MoveStep, migrating: &Migrating) -> bool
        ensures { result ≡ concerns self.now step migrating.now };
}

// The first record from the page on that the step concerns.
fn first_from<'a, C: Concerns>(
    records: &'a [Migrating],
    concerns: &C,
    step: MoveStep,
    next: u64,
) -> Option<&'a Migrating>
    ensures { option_copied result ≡ first_from (C.concerns concerns.now step) next records.now }
{
    for migrating in records {
        if next <= migrating.page.number() && concerns.concerns(step, migrating) {
            return Some(migrating);
        }
    }
    None
}

// The steps from one on, in their order.
fn steps_from(step: MoveStep) -> &'static [MoveStep]
    ensures { result.now ≡ steps_from step }
{
    match step {
        MoveStep::FreezeOthers => &[
            MoveStep::FreezeOthers,
            MoveStep::TakeAndCopy,
            MoveStep::Commit,
            MoveStep::SetOwnTable,
            MoveStep::Finish,
        ],
        MoveStep::TakeAndCopy => &[
            MoveStep::TakeAndCopy,
            MoveStep::Commit,
            MoveStep::SetOwnTable,
            MoveStep::Finish,
        ],
        MoveStep::Commit => &[MoveStep::Commit, MoveStep::SetOwnTable, MoveStep::Finish],
        MoveStep::SetOwnTable => &[MoveStep::SetOwnTable, MoveStep::Finish],
        MoveStep::Finish => &[MoveStep::Finish],
    }
}

/// The step, from this one on, and the record that the migration has come to; none at its end.
pub fn come_to<C: Concerns>(
    records: &Records,
    concerns: &C,
    step: MoveStep,
    next: u64,
) -> Option<(MoveStep, Migrating)>
    ensures { result ≡ come_by (C.concerns concerns.now) records.now.items (steps_from step) next }
{
    let mut from = next;
    for at in steps_from(step) {
        match first_from(records.from_page(from), concerns, *at, from) {
            Some(migrating) => return Some((*at, *migrating)),
            None => from = 0,
        }
    }
    None
}
