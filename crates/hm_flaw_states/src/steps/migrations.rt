// Migrations of a driver that sets its table otherwise, or takes frames that it must not.
ghost use Rattle.std.specs.Prelude.{◌≡◌, ◌<◌, false, not};
ghost use Rattle.hm_history.specs.Memory.Words.{least};
ghost use Rattle.hm_history.specs.Memory.Places.{frame_of, pool_size, lowest_free};
ghost use Rattle.hm_history.specs.Kernel.Due as spec;
ghost use Rattle.hm_base.specs.declared.PoolId as pools;
ghost use Rattle.hm_history.specs.Kernel.Going.{coming};
ghost use Rattle.hm_history.specs.declared.phases.Next.TheVariants.{Do};
ghost use Rattle.hm_history.specs.declared.phases.Phase as phase;
ghost use Rattle.hm_flaws.specs.Overrides.{coming_anyway, all_withdrawn};
ghost use Rattle.hm_flaws.specs.declared.flaws.Flaw as flaws;
ghost use Rattle.hm_flaw_states.specs.Steps.Found.{right_at, flawed_at, is_wanting};
ghost use Rattle.hm_flaw_states.specs.Steps.Found.{page_set_at, page_to_set};

use crate::steps::Finds;
use crate::steps::look_ups::for_writes;
use hm_base::frames::dev_frame;
use hm_base::{Actor, Dev, Frame, Op, Page, PoolId, Script};
use hm_history::phases::{Migrating, MoveStep, Next, Phase};
use hm_history::{KeptWhy, Kind};
use hm_reads::Reads;
use hm_reads::operations::{is_to_device, op_mirror};
use migrate_ops::set_own;

// How many frames the device has.
fn device_size(script: &Script, dev: Dev) -> u32
    ensures { result ≡ pool_size script.now (pools.PoolId.Device dev) }
{
    match script.devices.get(u64::from(dev.number())) {
        Some(size) => *size,
        None => 0,
    }
}

// Whether the frame of this number is held.
fn is_held<W: Reads>(found: &W, dev: Dev, number: u32) -> bool
    requires { number < pool_size (W.program found.now) (pools.PoolId.Device dev) }
    ensures { result ≡ (W.state found.now).after.places.held (frame_of (pools.PoolId.Device dev) number) }
{
    match found.held_from(dev, u64::from(number)) {
        Some(first) => first == number,
        None => false,
    }
}

// The lowest frame of the device that is not held, be it withdrawn or not.
fn lowest_unheld<W: Reads>(found: &W, dev: Dev, size: u32) -> Option<u32>
    requires { size ≡ pool_size (W.program found.now) (pools.PoolId.Device dev) }
    ensures { result
        ≡ least (λ n. not ((W.state found.now).after.places.held (frame_of (pools.PoolId.Device dev) n))) 0 size }
{
    for number in 0..size {
        if !is_held(found, dev, number) {
            return Some(number);
        }
    }
    None
}

// The frame that the migration's next `take` gives, be its device withdrawn or not.
fn lowest_free<W: Reads>(found: &W, op: &Op) -> Option<Frame>
    ensures { result
        ≡ lowest_free (W.program found.now) (all_withdrawn false (W.state found.now).after).places
        (spec.pool_of (W.state found.now).after op.now) }
{
    if !is_to_device(op) {
        return found.lowest_free(PoolId::System);
    }
    let dev = found.mirror_dev(op_mirror(op));
    match lowest_unheld(found, dev, device_size(found.script(), dev)) {
        Some(number) => Some(dev_frame(dev, number)),
        None => None,
    }
}

// Whether a page is kept for want of a frame.
fn is_wanting(next: &Next) -> bool
    ensures { result ≡ is_wanting next.now }
{
    match next {
        Next::Do(
            Kind::Kept {
                at: _,
                why: KeptWhy::NoFrame,
            },
        ) => true,
        _ => false,
    }
}

// What is done for a page that may have been kept for want of a frame.
fn taken_anyway<W: Reads>(found: &W, op: &Op, page: Page, right: Next) -> Next
    requires { right ≡ Do (spec.fetch_page (W.program found.now) (W.state found.now).after op.now page) }
    ensures { result
        ≡ Do (spec.fetch_page (W.program found.now) (all_withdrawn false (W.state found.now).after) op.now page) }
{
    if !is_wanting(&right) {
        return right;
    }
    match lowest_free(found, op) {
        Some(frame) => Next::Do(Kind::Take(frame)),
        None => right,
    }
}

/// A migration that sets each moved page for writes in its own table.
pub(crate) fn own_for_writes<W: Reads>(
    found: &W,
    actor: Actor,
    op: &Op,
    top: &Phase,
    right: Next,
) -> Next
    requires { right ≡ right_at (W.program found.now) (W.state found.now) actor op.now top.now }
    ensures { result
        ≡ flawed_at flaws.Flaw.OwnForWrites (W.program found.now) (W.state found.now) actor op.now top.now }
{
    let _ = found;
    let _ = actor;
    let _ = op;
    match top {
        Phase::Moves { .. } => for_writes(right),
        _ => right,
    }
}

fn page_set_at(step: MoveStep, page: Migrating) -> Option<Migrating>
    ensures { result ≡ page_set_at step page }
{
    match step {
        MoveStep::SetOwnTable => Some(page),
        _ => None,
    }
}

// The page that a migration sets in its own table, if it has come to that.
fn page_to_set<W: Finds>(
    found: &W,
    actor: Actor,
    op: &Op,
    step: MoveStep,
    next: u64,
) -> Option<Migrating>
    ensures { result
        ≡ page_to_set (coming_anyway (W.state found.now).after op.now ((W.state found.now).going actor).pages
        (phase.Phase.Moves step next)) }
{
    match found.coming_anyway(actor, op, step, next) {
        Some((step, page)) => page_set_at(step, page),
        None => None,
    }
}

// A migration that sets its own table, if it has come to that.
fn set_anyway<W: Finds>(
    found: &W,
    actor: Actor,
    op: &Op,
    step: MoveStep,
    next: u64,
    right: Next,
) -> Next
    requires { right
        ≡ Do (spec.due_moves (W.program found.now) (W.state found.now).after op.now
        ((W.state found.now).going actor).pages (coming (W.state found.now).after op.now
        ((W.state found.now).going actor).pages (phase.Phase.Moves step next))) }
    ensures { result
        ≡ Do (spec.due_moves (W.program found.now) (W.state found.now).after op.now
        ((W.state found.now).going actor).pages (coming_anyway (W.state found.now).after op.now
        ((W.state found.now).going actor).pages (phase.Phase.Moves step next))) }
{
    match page_to_set(found, actor, op, step, next) {
        Some(page) => {
            let mirror = op_mirror(op);
            Next::Do(set_own(found, mirror, found.mirror_proc(mirror), &page))
        }
        None => right,
    }
}

/// A migration that sets each moved page in its own table, though the interval is being invalidated.
pub(crate) fn own_anyway<W: Finds>(
    found: &W,
    actor: Actor,
    op: &Op,
    top: &Phase,
    right: Next,
) -> Next
    requires { right ≡ right_at (W.program found.now) (W.state found.now) actor op.now top.now }
    ensures { result
        ≡ flawed_at flaws.Flaw.OwnAnyway (W.program found.now) (W.state found.now) actor op.now top.now }
{
    match top {
        Phase::Moves { step, next } => set_anyway(found, actor, op, *step, *next, right),
        _ => right,
    }
}

// A migration that has come to a step and a page, if no device is withdrawn.
fn moved_on<W: Reads>(
    found: &W,
    actor: Actor,
    op: &Op,
    step: MoveStep,
    next: u64,
    right: Next,
) -> Next
    requires { right
        ≡ Do (spec.due_moves (W.program found.now) (W.state found.now).after op.now
        ((W.state found.now).going actor).pages (coming (W.state found.now).after op.now
        ((W.state found.now).going actor).pages (phase.Phase.Moves step next))) }
    ensures { result
        ≡ Do (spec.due_moves (W.program found.now) (all_withdrawn false (W.state found.now).after) op.now
        ((W.state found.now).going actor).pages (coming (W.state found.now).after op.now
        ((W.state found.now).going actor).pages (phase.Phase.Moves step next))) }
{
    match found.coming(actor, op, step, next) {
        Some((MoveStep::TakeAndCopy, page)) => taken_anyway(found, op, page.page, right),
        _ => right,
    }
}

/// A migration that takes frames of a withdrawn device.
pub(crate) fn withdrawn_taken<W: Reads>(
    found: &W,
    actor: Actor,
    op: &Op,
    top: &Phase,
    right: Next,
) -> Next
    requires { right ≡ right_at (W.program found.now) (W.state found.now) actor op.now top.now }
    ensures { result
        ≡ flawed_at flaws.Flaw.WithdrawnTaken (W.program found.now) (W.state found.now) actor op.now top.now }
{
    match top {
        Phase::Moves { step, next } => moved_on(found, actor, op, *step, *next, right),
        _ => right,
    }
}
