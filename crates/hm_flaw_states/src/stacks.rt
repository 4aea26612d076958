// The phases of an actor after its entry, by a driver's flaw.
ghost use Rattle.std.specs.Prelude.{◌≡◌, ℕ, ◌+◌, ◌==◌, Option, None, List, [], ◌∷◌, if◌then◌else◌, option_copied, find};
ghost use Rattle.hm_base.specs.declared.ops.Op.{Op as AnyOp};
ghost use Rattle.hm_history.specs.Kernel.Stacks.{freezing};
ghost use Rattle.hm_history.specs.declared.phases.Migrating.{Migrating as AnyMigrating};
ghost use Rattle.hm_history.specs.declared.phases.MoveStep as steps;
ghost use Rattle.hm_history.specs.declared.phases.Phase.{Phase as AnyPhase};
ghost use Rattle.hm_history.specs.declared.phases.Touch.TheVariants.{Walk};
ghost use Rattle.hm_flaws.specs.Flawed.{freezing_late, led_on, page_to_freeze, set_on};
ghost use Rattle.hm_flaws.specs.Flawed.{some_device_access, stack_by, with_body, without_step};
ghost use Rattle.hm_flaws.specs.declared.flaws.Flaw as flaws;
ghost use Rattle.hm_phases.specs.Items.{phases_of};
ghost use Rattle.hm_flaw_states.specs.Rooms.{leaves_out, without_top};

use crate::held_locks::is_device_access;
use hm_base::{Frame, Op, Page};
use hm_flaws::Flaw;
use hm_history::Kind;
use hm_history::phases::{Body, Migrating, MoveStep, Phase, Touch};
use hm_phases::Items;
use hm_race_states::shared_phases::SharedPhases;

// ---- what a flaw leaves out

// Whether the top is a step that the driver leaves out, with nothing in its place.
fn leaves_out(flaw: Flaw, items: &Items) -> bool
    ensures { result ≡ leaves_out flaw (phases_of items.now) }
{
    match flaw {
        Flaw::PartCopied => match items {
            Items::One(Phase::Copy { part, .. })
            | Items::Two(Phase::Copy { part, .. }, _)
            | Items::Three(Phase::Copy { part, .. }, _, _) => *part == 7,
            _ => false,
        },
        Flaw::LostHeld => match items {
            Items::Two(Phase::Drop { .. }, Phase::Moves { .. })
            | Items::Three(Phase::Drop { .. }, Phase::Moves { .. }, _) => true,
            _ => false,
        },
        _ => false,
    }
}

fn without_top(items: Items) -> Items
    ensures { phases_of result ≡ without_top (phases_of items) }
{
    match items {
        Items::Zero => Items::Zero,
        Items::One(_) => Items::Zero,
        Items::Two(_, lowest) => Items::One(lowest),
        Items::Three(_, second, lowest) => Items::Two(second, lowest),
    }
}

// The phases of a migration that freezes nothing after its setup: it goes to its copies at once.
fn without_freezing(items: Items) -> Items
    ensures { phases_of result ≡ without_step flaws.Flaw.OthersLeft (phases_of items) }
{
    match items {
        Items::One(
            Phase::Moves {
                step: MoveStep::FreezeOthers,
                next,
            },
        ) => Items::One(Phase::Moves {
            step: MoveStep::TakeAndCopy,
            next,
        }),
        Items::Two(
            Phase::Moves {
                step: MoveStep::FreezeOthers,
                next,
            },
            lowest,
        ) => Items::Two(
            Phase::Moves {
                step: MoveStep::TakeAndCopy,
                next,
            },
            lowest,
        ),
        Items::Three(
            Phase::Moves {
                step: MoveStep::FreezeOthers,
                next,
            },
            second,
            lowest,
        ) => Items::Three(
            Phase::Moves {
                step: MoveStep::TakeAndCopy,
                next,
            },
            second,
            lowest,
        ),
        other => other,
    }
}

// The phases without a step that is left out.
fn without_step(flaw: Flaw, items: Items) -> Items
    ensures { phases_of result ≡ without_step flaw (phases_of items) }
{
    match flaw {
        Flaw::OthersLeft => without_freezing(items),
        Flaw::FrozenLate => without_freezing(items),
        _ => {
            if leaves_out(flaw, &items) {
                without_top(items)
            } else {
                items
            }
        }
    }
}

// ---- a migration that freezes late

// The record of the page before that number.
fn page_before(records: &[Migrating], number: u64) -> Option<Migrating>
    ensures { result ≡ find (λ x. x.page + 1 == number) records.now }
{
    records
        .iter()
        .copied()
        .find(|migrating| migrating.page.number() + 1 == number)
}

// The page whose frame a migration with these two phases at its top is about to freeze.
fn page_to_freeze(records: &[Migrating], top: &Phase, second: &Phase) -> Option<Migrating>
    ensures { result ≡ page_to_freeze records.now top.now second.now }
{
    match top {
        Phase::Guard {
            body: Body::Nothing,
            ..
        } => match second {
            Phase::Moves { next, .. } => page_before(records, *next),
            _ => None,
        },
        _ => None,
    }
}

// What such a guard does.
fn freezing(source: Option<Frame>) -> Body
    ensures { result ≡ freezing steps.MoveStep.FreezeOthers source None }
{
    match source {
        Some(frame) => Body::Freeze { frame },
        None => Body::Nothing,
    }
}

fn with_body(body: Body, top: Phase) -> Phase
    ensures { result ≡ with_body body top }
{
    match top {
        Phase::Guard {
            proc,
            span,
            overlapped,
            told,
            body: _,
        } => Phase::Guard {
            proc,
            span,
            overlapped,
            told,
            body,
        },
        other => other,
    }
}

// The two phases, if the upper one is a guard that a migration has begun at its commit: it freezes a mapping of the
// page's frame, and then the page comes again.
fn freezing_page(records: &[Migrating], top: Phase, second: Phase) -> (Phase, Phase)
    ensures { (below : List AnyPhase) → result.0 ∷ result.1 ∷ below
        ≡ freezing_late records.now (top ∷ second ∷ below) }
{
    match page_to_freeze(records, &top, &second) {
        None => (top, second),
        Some(migrating) => (
            with_body(freezing(migrating.source), top),
            Phase::Moves {
                step: MoveStep::Commit,
                next: migrating.page.number(),
            },
        ),
    }
}

// The phases of a migration that begins a guard: at its commit it freezes.
fn freezing_late(records: &[Migrating], items: Items) -> Items
    ensures { phases_of result ≡ freezing_late records.now (phases_of items) }
{
    match items {
        Items::Zero => Items::Zero,
        Items::One(top) => Items::One(top),
        Items::Two(top, second) => {
            let (guard, below) = freezing_page(records, top, second);
            Items::Two(guard, below)
        }
        Items::Three(top, second, lowest) => {
            let (guard, below) = freezing_page(records, top, second);
            Items::Three(guard, below, lowest)
        }
    }
}

// The phases after an entry of a driver whose migrations freeze late.
fn frozen_late(kind: &Kind, records: &[Migrating], items: Items) -> Items
    ensures { (o : Option AnyOp) (at : ℕ) (before : List AnyPhase) → phases_of result
        ≡ stack_by flaws.Flaw.FrozenLate o at before kind.now records.now (phases_of items) }
{
    match kind {
        Kind::Start { .. } => freezing_late(records, items),
        _ => without_step(Flaw::FrozenLate, items),
    }
}

// ---- a migration that has set a page of its own

// The phase after the page was set.
fn after_set(page: Page, top: Phase) -> Phase
    ensures { (below : List AnyPhase) → result ∷ below ≡ set_on page (top ∷ below) }
{
    match top {
        Phase::Moves { step, next: _ } => Phase::Moves {
            step,
            next: page.number() + 1,
        },
        other => other,
    }
}

fn set_on(page: Page, items: Items) -> Items
    ensures { phases_of result ≡ set_on page (phases_of items) }
{
    match items {
        Items::Zero => Items::Zero,
        Items::One(top) => Items::One(after_set(page, top)),
        Items::Two(top, lowest) => Items::Two(after_set(page, top), lowest),
        Items::Three(top, second, lowest) => Items::Three(after_set(page, top), second, lowest),
    }
}

// The phases after an entry of a driver that sets what it moved in any case.
fn own_set(kind: &Kind, items: Items) -> Items
    ensures { (o : Option AnyOp) (at : ℕ) (before : List AnyPhase) (xs : List AnyMigrating) → phases_of result
        ≡ stack_by flaws.Flaw.OwnAnyway o at before kind.now xs (phases_of items) }
{
    match kind {
        Kind::Set { page, .. } => set_on(*page, items),
        _ => items,
    }
}

// ---- a look-up that reads its sequence after the walk

// Whether it is a load or a store through a mirror.
fn some_device_access(op: Option<&Op>) -> bool
    ensures { result ≡ some_device_access (option_copied op.entry) }
{
    match op {
        Some(some) => is_device_access(some),
        None => false,
    }
}

// The phases after the lock of a piece: a load or a store through a mirror walks, and has noted no sequence.
fn walking(op: Option<&Op>, piece: u32, items: Items) -> Items
    ensures { phases_of result
        ≡ (if some_device_access (option_copied op.entry) then AnyPhase.Decide (Walk piece 0 0) ∷ []
        else phases_of items) }
{
    if some_device_access(op) {
        Items::One(Phase::Decide {
            touch: Touch::Walk {
                piece,
                since: 0,
                seq: 0,
            },
        })
    } else {
        items
    }
}

// The phases after an entry, given the top before it: the lock is that of a walk, and the begin, which has this
// position, goes to the commit.
fn led_from(op: Option<&Op>, at: u64, top: &Phase, kind: &Kind, items: Items) -> Items
    ensures { phases_of result ≡ led_on (option_copied op.entry) at (top.now ∷ []) kind.now (phases_of items) }
{
    match top {
        Phase::Piece { piece } => match kind {
            Kind::Rlock(_) => walking(op, *piece, items),
            _ => items,
        },
        Phase::Noted { piece, place, .. } => match kind {
            Kind::Begin { seq, .. } => Items::One(Phase::Noted {
                piece: *piece,
                since: at,
                seq: *seq,
                place: *place,
            }),
            _ => items,
        },
        _ => items,
    }
}

// The phases after an entry, given those before it.
fn led_on(op: Option<&Op>, at: u64, before: &SharedPhases, kind: &Kind, items: Items) -> Items
    ensures { phases_of result ≡ led_on (option_copied op.entry) at before.now kind.now (phases_of items) }
{
    match before.top() {
        Some(top) => led_from(op, at, top, kind, items),
        None => items,
    }
}

// ---- all of it

/// The phases after an entry by the driver's flaw, given the operation, the entry's position, the phases before it, and
/// the records after it.
pub(crate) fn stack_by(
    flaw: Flaw,
    op: Option<&Op>,
    at: u64,
    before: &SharedPhases,
    kind: &Kind,
    records: &[Migrating],
    items: Items,
) -> Items
    ensures { phases_of result
        ≡ stack_by flaw (option_copied op.entry) at before.now kind.now records.now (phases_of items) }
{
    match flaw {
        Flaw::BegunLast => led_on(op, at, before, kind, items),
        Flaw::OwnAnyway => own_set(kind, items),
        Flaw::FrozenLate => frozen_late(kind, records, items),
        _ => without_step(flaw, items),
    }
}
