// What is asked of what is known, before an event: whether it breaks a rule.
ghost use Rattle.std.specs.Prelude.{◌≡◌};
ghost use Rattle.hm_protocol.specs.Known as known;
ghost use Rattle.hm_protocol.specs.Noted.{is_begun};
ghost use Rattle.hm_protocol.specs.Tests as tests;
ghost use Rattle.hm_protocol.specs.Words as words;
ghost use Rattle.hm_verdicts.specs.Asking.{breaks_at};
ghost use Rattle.hm_verdicts.specs.Stages.{stage_of};
ghost use Rattle.hm_verdicts.specs.Knowledge.{known_of};

use crate::frames::{are_of, device_of, is_sole, is_write, private_to};
use crate::knowledge::Knowledge;
use crate::looks::Stage;
use crate::moves::{is_migrated, keeps_lost, sets, sets_read, sets_stayed};
use crate::slots::{are_read, are_sole};
use hm_history::TableRight;
use hm_protocol::{Event, Rule, Traced};

/// Whether the event breaks the rule.
pub(crate) fn breaks(knowledge: &Knowledge, rule: Rule, event: &Traced) -> bool
    ensures { result ≡ breaks_at rule (known_of knowledge.now) event.now }
{
    match rule {
        Rule::EntryRight => entry_right(knowledge, event),
        Rule::MmapLock => mmap_lock(event),
        Rule::OwnDevice => own_device(knowledge, event),
        Rule::BeginFirst => begin_first(knowledge, event),
        Rule::StopAtDetach => stop_at_detach(knowledge, event),
        Rule::WriteEntry => write_entry(knowledge, event),
        Rule::DetachWaits => detach_waits(knowledge, event),
        Rule::SetMoved => set_moved(knowledge, event),
        Rule::SetRight => set_right(knowledge, event),
        Rule::SetUnlessInvalidated => set_unless_invalidated(knowledge, event),
        Rule::DropLost => drop_lost(knowledge, event),
        Rule::TakeFromThere => take_from_there(knowledge, event),
        Rule::EvictFirst => evict_first(knowledge, event),
        Rule::WithdrawFirst => withdraw_first(knowledge, event),
        Rule::WaitForLocked => wait_for_locked(knowledge, event),
        Rule::ExclusiveWaits => exclusive_waits(knowledge, event),
        Rule::LookAgain => look_again(knowledge, event),
        _ => false,
    }
}

/// Whether a thread's `Set` of this page, with this right, is by its look-up.
pub(crate) fn is_look_up(knowledge: &Knowledge, thread: u64, page: u64, right: TableRight) -> bool
    ensures { result ≡ known.is_look_up (known_of knowledge.now) thread page right }
{
    !is_sole(right) && !is_migrated(knowledge.moves.oldest_first(thread), page)
}

// Whether a look-up has begun, and not walked since.
fn is_begun(stage: Stage) -> bool
    ensures { result ≡ is_begun (stage_of stage) }
{
    match stage {
        Stage::Begun => true,
        _ => false,
    }
}

// Whether there is a number, and it is another one.
fn is_other(it: Option<u64>, other: u64) -> bool
    ensures { result ≡ words.is_other it other }
{
    it.is_some_and(|it| it != other)
}

// ---- look-ups

// A look-up is committed that has not walked since its `Begin`.
fn begin_first(knowledge: &Knowledge, event: &Traced) -> bool
    ensures { result ≡ tests.begin_first (known_of knowledge.now) event.now }
{
    match event.event {
        Event::Set {
            mirror,
            page,
            right,
            ..
        } => {
            is_look_up(knowledge, event.thread, page, right)
                && is_begun(knowledge.looks.stage(event.thread, mirror))
        }
        _ => false,
    }
}

// A walk while nobody holds the mmap lock.
fn mmap_lock(event: &Traced) -> bool
    ensures { (k : known.Known) → result ≡ tests.mmap_lock k event.now }
{
    match event.event {
        Event::Walk { locked, .. } => !locked,
        _ => false,
    }
}

// A page that was found for reads is set for writes.
fn entry_right(knowledge: &Knowledge, event: &Traced) -> bool
    ensures { result ≡ tests.entry_right (known_of knowledge.now) event.now }
{
    match event.event {
        Event::Set {
            mirror,
            page,
            right,
            ..
        } => {
            is_write(right)
                && is_look_up(knowledge, event.thread, page, right)
                && knowledge.looks.has_found(event.thread, mirror, page, false)
        }
        _ => false,
    }
}

// Another device's private frame is set.
fn own_device(knowledge: &Knowledge, event: &Traced) -> bool
    ensures { result ≡ tests.own_device (known_of knowledge.now) event.now }
{
    match event.event {
        Event::Set { mirror, frame, .. } => match private_to(frame) {
            None => false,
            Some(device) => is_other(knowledge.device.get(mirror).copied(), device),
        },
        _ => false,
    }
}

// ---- the table

// A write goes through an entry for reads.
fn write_entry(knowledge: &Knowledge, event: &Traced) -> bool
    ensures { result ≡ tests.write_entry (known_of knowledge.now) event.now }
{
    match event.event {
        Event::Use {
            mirror,
            span,
            writes,
        } => writes && are_read(&knowledge.slots, mirror, span),
        _ => false,
    }
}

// The table is set or used after the removal.
fn stop_at_detach(knowledge: &Knowledge, event: &Traced) -> bool
    ensures { result ≡ tests.stop_at_detach (known_of knowledge.now) event.now }
{
    match event.event {
        Event::Use { mirror, .. } | Event::Set { mirror, .. } | Event::Add { mirror, .. } => {
            knowledge.gone.has(mirror)
        }
        _ => false,
    }
}

// A removal returns while the mirror is told of an invalidation.
fn detach_waits(knowledge: &Knowledge, event: &Traced) -> bool
    ensures { result ≡ tests.detach_waits (known_of knowledge.now) event.now }
{
    match event.event {
        Event::Removed { mirror } => knowledge.calls.are_telling(mirror),
        _ => false,
    }
}

// A page for one actor is set while the mirror is invalidated.
fn exclusive_waits(knowledge: &Knowledge, event: &Traced) -> bool
    ensures { result ≡ tests.exclusive_waits (known_of knowledge.now) event.now }
{
    match event.event {
        Event::Set { mirror, right, .. } => {
            is_sole(right) && knowledge.calls.are_invalidating(mirror)
        }
        _ => false,
    }
}

// An addition to an entry that is not there for one actor.
fn look_again(knowledge: &Knowledge, event: &Traced) -> bool
    ensures { result ≡ tests.look_again (known_of knowledge.now) event.now }
{
    match event.event {
        Event::Add { mirror, page } => !are_sole(&knowledge.slots, mirror, page),
        _ => false,
    }
}

// ---- migrations

// The new frame of a page that stayed is set.
fn set_moved(knowledge: &Knowledge, event: &Traced) -> bool
    ensures { result ≡ tests.set_moved (known_of knowledge.now) event.now }
{
    match event.event {
        Event::Set { page, right, .. } => {
            sets_stayed(knowledge.moves.oldest_first(event.thread), page, right)
        }
        _ => false,
    }
}

// A page that was collected for reads is set for writes.
fn set_right(knowledge: &Knowledge, event: &Traced) -> bool
    ensures { result ≡ tests.set_right (known_of knowledge.now) event.now }
{
    match event.event {
        Event::Set { page, right, .. } => {
            is_write(right) && sets_read(knowledge.moves.oldest_first(event.thread), page, right)
        }
        _ => false,
    }
}

// A page that moved is set while the mirror is invalidated.
fn set_unless_invalidated(knowledge: &Knowledge, event: &Traced) -> bool
    ensures { result ≡ tests.set_unless_invalidated (known_of knowledge.now) event.now }
{
    match event.event {
        Event::Set {
            mirror,
            page,
            right,
            ..
        } => {
            sets(knowledge.moves.oldest_first(event.thread), page, right)
                && knowledge.calls.are_invalidating(mirror)
        }
        _ => false,
    }
}

// A migration to a device ends, and has not freed the frame of a page that stayed.
fn drop_lost(knowledge: &Knowledge, event: &Traced) -> bool
    ensures { result ≡ tests.drop_lost (known_of knowledge.now) event.now }
{
    match event.event {
        Event::Finalize { .. } => keeps_lost(knowledge.moves.oldest_first(event.thread)),
        _ => false,
    }
}

// ---- devices

// A frame of a withdrawn device is taken.
fn take_from_there(knowledge: &Knowledge, event: &Traced) -> bool
    ensures { result ≡ tests.take_from_there (known_of knowledge.now) event.now }
{
    match event.event {
        Event::Take { frame } => match device_of(frame) {
            None => false,
            Some(device) => knowledge.withdrawn.has(device),
        },
        _ => false,
    }
}

// A withdrawn device goes with frames held.
fn goes_held(knowledge: &Knowledge, device: u64) -> bool
    ensures { result ≡ tests.goes_held (known_of knowledge.now) device }
{
    knowledge.withdrawn.has(device) && are_of(&knowledge.held, device)
}

// None of them was passed over.
fn evict_first(knowledge: &Knowledge, event: &Traced) -> bool
    ensures { result ≡ tests.evict_first (known_of knowledge.now) event.now }
{
    match event.event {
        Event::Gone { device } => !knowledge.passed.has(device) && goes_held(knowledge, device),
        _ => false,
    }
}

// Some were.
fn wait_for_locked(knowledge: &Knowledge, event: &Traced) -> bool
    ensures { result ≡ tests.wait_for_locked (known_of knowledge.now) event.now }
{
    match event.event {
        Event::Gone { device } => knowledge.passed.has(device) && goes_held(knowledge, device),
        _ => false,
    }
}

// A device goes that was not withdrawn.
fn withdraw_first(knowledge: &Knowledge, event: &Traced) -> bool
    ensures { result ≡ tests.withdraw_first (known_of knowledge.now) event.now }
{
    match event.event {
        Event::Gone { device } => !knowledge.withdrawn.has(device),
        _ => false,
    }
}
