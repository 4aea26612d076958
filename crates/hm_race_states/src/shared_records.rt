// The records of an actor's migration, which states share.
ghost use Rattle.std.specs.Prelude.{◌≡◌, false, List, Option, [], IfOk};
ghost use Rattle.hm_history.specs.Kernel.Going.{recorded, steps_from};
ghost use Rattle.hm_history.specs.declared.Kind.{Kind as AnyKind};
ghost use Rattle.hm_history.specs.declared.phases.Migrating.{Migrating as Record};
ghost use Rattle.hm_actors.specs.Coming.{come_by};

use hm_actors::{Concerns, Records, come_to};
use hm_base::NoMemory;
use hm_history::Kind;
use hm_history::phases::{Body, Migrating, MoveStep, Phase};
use std::alloc::Global;
use std::marker::Model;
use std::rc::Rc;

/// The records of an actor's migration, in the order in which they came. Of most actors there are none.
#[derive(Drop)]
pub struct SharedRecords {
    kept: Option<Rc<Records>>,
}

impl Model for SharedRecords {
    ghost use Rattle.std.specs.Prelude.{List};
    ghost use Rattle.hm_history.specs.declared.phases.Migrating.{Migrating as AnyMigrating};
    ghost use Rattle.hm_race_states.specs.SharedRecords.{records_in};

    ghost Value = { List AnyMigrating };

    ghost view = { λ s. records_in s.kept };
}

// Whether an entry at this phase may change records. It may say so of one that does not.
fn may_record(top: &Phase) -> bool
    ensures { result ≡ false → (page : Option Record) (xs : List Record) (k : AnyKind)
        → recorded top.now page xs k ≡ xs }
{
    matches!(
        top,
        Phase::Moves { .. }
            | Phase::Guard {
                body: Body::Select { .. },
                ..
            }
            | Phase::Guard {
                body: Body::Fresh { .. },
                ..
            }
    )
}

impl SharedRecords {
    /// No record. It takes no memory.
    pub(crate) fn none() -> SharedRecords
        ensures { result ≡ [] }
    {
        SharedRecords { kept: None }
    }

    // These records.
    fn of(alloc: Global, records: Records) -> Result<SharedRecords, NoMemory>
        ensures { IfOk result (λ x. x ≡ records.items) }
    {
        if records.as_slice().is_empty() {
            return Ok(SharedRecords::none());
        }
        Ok(SharedRecords {
            kept: Some(Rc::new(alloc, records)?),
        })
    }

    /// Records in this order.
    pub fn listed(alloc: Global, records: &[Migrating]) -> Result<SharedRecords, NoMemory>
        ensures { IfOk result (λ x. x ≡ records.now) }
    {
        SharedRecords::of(alloc, Records::of(alloc, records)?)
    }

    /// The records.
    pub fn as_slice(&self) -> &[Migrating]
        ensures { result.now ≡ self.now }
    {
        match &self.kept {
            None => &[],
            Some(records) => records.as_ref().as_slice(),
        }
    }

    /// The same records, in the same memory.
    pub fn share(&self) -> Result<SharedRecords, NoMemory>
        ensures { IfOk result (λ x. x ≡ self.now) }
    {
        match &self.kept {
            None => Ok(SharedRecords::none()),
            Some(records) => Ok(SharedRecords {
                kept: Some(records.clone()?),
            }),
        }
    }

    /// The step, from this one on, and the record that the migration has come to; none at its end.
    pub fn come_to<C: Concerns>(
        &self,
        concerns: &C,
        step: MoveStep,
        next: u64,
    ) -> Option<(MoveStep, Migrating)>
        ensures { result ≡ come_by (C.concerns concerns.now) self.now (steps_from step) next }
    {
        match &self.kept {
            None => None,
            Some(records) => come_to(records, concerns, step, next),
        }
    }

    /// The records after an entry at this phase, if the migration has come to this record.
    pub fn after(
        &self,
        alloc: Global,
        top: &Phase,
        page: Option<Migrating>,
        kind: &Kind,
    ) -> Result<SharedRecords, NoMemory>
        ensures { IfOk result (λ x. x ≡ recorded top.now page self.now kind.now) }
    {
        if !may_record(top) {
            return Ok(self.share()?);
        }
        let mut records = Records::of(alloc, self.as_slice())?;
        records.step(top, page, kind);
        Ok(SharedRecords::of(alloc, records)?)
    }
}
