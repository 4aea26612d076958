// The entries of all mirrors' tables, which are kept the oldest first.
ghost use Rattle.std.specs.Prelude.{◌≡◌, ◌==◌, ◌∷◌, filter, IfOk, OnOk, reverse};
ghost use Rattle.hm_protocol.specs.Words.{drop_if};
ghost use Rattle.hm_protocol.specs.Known.{is_slot, in_span};

use crate::slots::{Slot, drop_page};
use hm_base::NoMemory;
use hm_protocol::TraceSpan;
use std::alloc::Global;

/// The page of a mirror has no entry any more.
#[tactic(auto, using(crate::proofs::Reversed::filter_reversed))]
pub(crate) fn erase(slots: &mut Vec<Slot>, mirror: u64, page: u64)
    ensures { reverse slots.new.items ≡ drop_if (is_slot mirror page) (reverse slots.old.items) }
{
    drop_page(slots, mirror, page);
}

/// It has this one, and no other.
pub(crate) fn set(slots: &mut Vec<Slot>, slot: Slot) -> Result<(), NoMemory>
    ensures { OnOk result (reverse slots.new.items
        ≡ slot ∷ drop_if (is_slot slot.mirror slot.page) (reverse slots.old.items)) }
{
    erase(slots, slot.mirror(), slot.page());
    slots.push(slot)?;
    Ok(())
}

// The mirror has none.
fn drop_mirror(slots: &mut Vec<Slot>, mirror: u64)
    ensures { slots.new.items ≡ drop_if (λ x. x.mirror == mirror) slots.old.items }
{
    slots.retain(|slot| slot.mirror() != mirror);
}

/// The mirror has none any more.
#[tactic(auto, using(crate::proofs::Reversed::filter_reversed))]
pub(crate) fn forget(slots: &mut Vec<Slot>, mirror: u64)
    ensures { reverse slots.new.items ≡ drop_if (λ x. x.mirror == mirror) (reverse slots.old.items) }
{
    drop_mirror(slots, mirror);
}

/// Those of a mirror's span, the newest first.
#[tactic(auto, using(crate::proofs::Reversed::filter_reversed))]
pub(crate) fn in_span(
    alloc: Global,
    slots: &[Slot],
    mirror: u64,
    span: TraceSpan,
) -> Result<Vec<Slot>, NoMemory>
    ensures { IfOk result (λ xs. xs.items ≡ filter (in_span mirror span) (reverse slots.now)) }
{
    let mut found = some_in_span(alloc, slots, mirror, span)?;
    found.reverse();
    Ok(found)
}

// Those of a mirror's span, in their order.
fn some_in_span(
    alloc: Global,
    slots: &[Slot],
    mirror: u64,
    span: TraceSpan,
) -> Result<Vec<Slot>, NoMemory>
    ensures { IfOk result (λ xs. xs.items ≡ filter (in_span mirror span) slots.now) }
{
    let found = slots
        .iter()
        .filter(|slot| slot.in_span(mirror, span))
        .copied()
        .collect(alloc)?;
    Ok(found)
}
