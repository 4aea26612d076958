// The migrations under way: the records of each stand in a slab, under the key that the actor's task holds.
ghost use Rattle.std.specs.Prelude.{◌≡◌, ◌≤◌, ℕ, [], true, None, Some, OnErr, IfOk};
ghost use Rattle.slab.specs.Slab.{get, Updates, SameValues};
ghost use Rattle.hm_history.specs.Kernel.Going.{recorded, steps_from};
ghost use Rattle.hm_actors.specs.Coming.{come_by};
ghost use Rattle.hm_actors.specs.Actors.{adds_at, spare_next};
ghost use Rattle.hm_actors.specs.Migrations.{kept_at, HasItem, Changes};

use crate::coming;
use crate::coming::Concerns;
use crate::records::Records;
use hm_base::NoMemory;
use hm_history::Kind;
use hm_history::phases::{Migrating, MoveStep, Phase};
use slab::Slab;
use std::alloc::Global;

/// The records under a key; none without one.
pub(crate) fn records_at(migrations: &Slab<Records>, key: Option<usize>) -> &[Migrating]
    ensures { result.now ≡ (kept_at migrations.now key).items }
{
    let Some(key) = key else {
        return &[];
    };
    match migrations.get(key) {
        Some(records) => records.as_slice(),
        None => &[],
    }
}

/// The step, from this one on, and the record that the migration under a key has come to.
pub fn come_to<C: Concerns>(
    migrations: &Slab<Records>,
    key: Option<usize>,
    concerns: &C,
    step: MoveStep,
    next: u64,
) -> Option<(MoveStep, Migrating)>
    ensures { result
        ≡ come_by (C.concerns concerns.now) (kept_at migrations.now key).items (steps_from step) next }
{
    let Some(key) = key else {
        return None;
    };
    match migrations.get(key) {
        Some(records) => coming::come_to(records, concerns, step, next),
        None => None,
    }
}

/// Makes an item with room for a record, and gives its key.
pub(crate) fn begin(migrations: &mut Slab<Records>, alloc: Global) -> Result<usize, NoMemory>
    ensures vacant { IfOk result (λ key. get migrations.old key ≡ None) }
    ensures item { IfOk result
        (λ key. Updates migrations.old migrations.new key (Some (record { items = []; spare = 1 }))) }
    ensures err { OnErr result (SameValues migrations.old migrations.new) }
{
    migrations.reserve(1)?;
    let records = Records::with_room(alloc)?;
    Ok(migrations.insert_reserved(records))
}

/// The items after an entry at this phase of the task that holds the key.
pub(crate) fn step(
    migrations: &mut Slab<Records>,
    key: Option<usize>,
    top: &Phase,
    page: Option<Migrating>,
    kind: &Kind,
)
    requires held { HasItem migrations.old key }
    requires room { adds_at top.now kind.now ≡ true → 1 ≤ (kept_at migrations.old key).spare }
    ensures changes { Changes migrations.old migrations.new key key }
    ensures records { kept_at migrations.new key
        ≡ record {
          items = recorded top.now page (kept_at migrations.old key).items kind.now;
          spare = spare_next top.now kind.now (kept_at migrations.old key).spare;
        } }
{
    if let Some(key) = key {
        migrations[key].step(top, page, kind);
    }
}

/// Gives the item of a migration that is over back.
pub(crate) fn end(migrations: &mut Slab<Records>, key: Option<usize>)
    requires held { HasItem migrations.old key }
    ensures changes { Changes migrations.old migrations.new key None }
{
    if let Some(key) = key {
        migrations.remove(key);
    }
}
