// How often an event puts a rule to the test, after what is known.
ghost use Rattle.std.specs.Prelude.{◌≡◌};
ghost use Rattle.hm_protocol.specs.Known as known;
ghost use Rattle.hm_protocol.specs.Verdicts.{asks, has_begun, one_if};
ghost use Rattle.hm_protocol.specs.declared.rules.Rule as rule;
ghost use Rattle.hm_verdicts.specs.Stages.{stage_of};
ghost use Rattle.hm_verdicts.specs.Knowledge.{known_of};

use crate::asking::is_look_up;
use crate::frames::{is_read, is_sole, private_to};
use crate::knowledge::Knowledge;
use crate::looks::Stage;
use crate::moves::{freed_stayed, leaves_moved, sets_read, unset_stayed};
use crate::slots::writable;
use hm_protocol::{Event, Rule, Traced};

/// How often an event puts a rule of events to the test.
pub(crate) fn asks(knowledge: &Knowledge, rule: Rule, event: &Traced) -> u64
    ensures { result ≡ asks rule (known_of knowledge.now) event.now.thread event.now.event }
{
    match rule {
        Rule::EntryRight => entry_right(knowledge, event),
        Rule::MmapLock => mmap_lock(event),
        Rule::OwnDevice => own_device(knowledge, event),
        Rule::BeginWaits => begin_waits(knowledge, event),
        Rule::BeginFirst => begin_first(knowledge, event),
        Rule::StopAtDetach => stop_at_detach(event),
        Rule::WriteEntry => write_entry(knowledge, event),
        Rule::DetachWaits => detach_waits(knowledge, event),
        Rule::SetMoved => set_moved(knowledge, event),
        Rule::SetRight => set_right(knowledge, event),
        Rule::SetUnlessInvalidated => set_unless_invalidated(knowledge, event),
        Rule::DropLost => drop_lost(knowledge, event),
        Rule::TakeFromThere => take_from_there(knowledge, event),
        Rule::EvictFirst => evict_first(knowledge, event),
        Rule::WithdrawFirst => withdraw_first(event),
        Rule::WaitForLocked => wait_for_locked(knowledge, event),
        Rule::ExclusiveWaits => exclusive_waits(event),
        Rule::LookAgain => look_again(event),
        _ => 0,
    }
}

// 1 if it is so.
fn one_if(is_so: bool) -> u64
    ensures { result ≡ one_if is_so }
{
    if is_so { 1 } else { 0 }
}

// Whether some look-up has begun.
fn has_begun(stage: Stage) -> bool
    ensures { result ≡ has_begun (stage_of stage) }
{
    match stage {
        Stage::Unbegun => false,
        _ => true,
    }
}

// ---- look-ups

// A page for reads is set by the look-up that found it for reads.
fn entry_right(knowledge: &Knowledge, event: &Traced) -> u64
    ensures { result ≡ asks rule.Rule.EntryRight (known_of knowledge.now) event.now.thread event.now.event }
{
    match event.event {
        Event::Set {
            mirror,
            page,
            right,
            ..
        } => one_if(
            is_read(right)
                && is_look_up(knowledge, event.thread, page, right)
                && knowledge.looks.has_found(event.thread, mirror, page, false),
        ),
        _ => 0,
    }
}

// A walk.
fn mmap_lock(event: &Traced) -> u64
    ensures { (k : known.Known) → result ≡ asks rule.Rule.MmapLock k event.now.thread event.now.event }
{
    match event.event {
        Event::Walk { .. } => 1,
        _ => 0,
    }
}

// A device's private frame is set, and the mirror's device is known.
fn own_device(knowledge: &Knowledge, event: &Traced) -> u64
    ensures { result ≡ asks rule.Rule.OwnDevice (known_of knowledge.now) event.now.thread event.now.event }
{
    match event.event {
        Event::Set { mirror, frame, .. } => one_if(
            private_to(frame).is_some() && knowledge.device.get(mirror).is_some(),
        ),
        _ => 0,
    }
}

// A look-up begins after an invalidation that has ended since the thread's last event.
fn begin_waits(knowledge: &Knowledge, event: &Traced) -> u64
    ensures { result ≡ asks rule.Rule.BeginWaits (known_of knowledge.now) event.now.thread event.now.event }
{
    match event.event {
        Event::Begin { mirror, .. } => one_if(
            knowledge
                .calls
                .are_over_since(mirror, knowledge.last.at(event.thread)),
        ),
        _ => 0,
    }
}

// A page is set by a look-up.
fn begin_first(knowledge: &Knowledge, event: &Traced) -> u64
    ensures { result ≡ asks rule.Rule.BeginFirst (known_of knowledge.now) event.now.thread event.now.event }
{
    match event.event {
        Event::Set {
            mirror,
            page,
            right,
            ..
        } => one_if(
            is_look_up(knowledge, event.thread, page, right)
                && has_begun(knowledge.looks.stage(event.thread, mirror)),
        ),
        _ => 0,
    }
}

// ---- the table

// A removal returns.
fn stop_at_detach(event: &Traced) -> u64
    ensures { (k : known.Known) → result ≡ asks rule.Rule.StopAtDetach k event.now.thread event.now.event }
{
    match event.event {
        Event::Removed { .. } => 1,
        _ => 0,
    }
}

// A write goes through entries that are not for reads.
fn write_entry(knowledge: &Knowledge, event: &Traced) -> u64
    ensures { result ≡ asks rule.Rule.WriteEntry (known_of knowledge.now) event.now.thread event.now.event }
{
    match event.event {
        Event::Use {
            mirror,
            span,
            writes,
        } => if writes {
            writable(&knowledge.slots, mirror, span)
        } else {
            0
        },
        _ => 0,
    }
}

// A removal returns that began while the mirror was invalidated.
fn detach_waits(knowledge: &Knowledge, event: &Traced) -> u64
    ensures { result ≡ asks rule.Rule.DetachWaits (known_of knowledge.now) event.now.thread event.now.event }
{
    match event.event {
        Event::Removed { mirror } => one_if(knowledge.leaving.has(mirror)),
        _ => 0,
    }
}

// A page is set for one actor.
fn exclusive_waits(event: &Traced) -> u64
    ensures { (k : known.Known) → result ≡ asks rule.Rule.ExclusiveWaits k event.now.thread event.now.event }
{
    match event.event {
        Event::Set { right, .. } => one_if(is_sole(right)),
        _ => 0,
    }
}

// An addition to an exclusive page.
fn look_again(event: &Traced) -> u64
    ensures { (k : known.Known) → result ≡ asks rule.Rule.LookAgain k event.now.thread event.now.event }
{
    match event.event {
        Event::Add { .. } => 1,
        _ => 0,
    }
}

// ---- migrations

// A migration ends that has not set pages that stayed.
fn set_moved(knowledge: &Knowledge, event: &Traced) -> u64
    ensures { result ≡ asks rule.Rule.SetMoved (known_of knowledge.now) event.now.thread event.now.event }
{
    match event.event {
        Event::Finalize { .. } => unset_stayed(knowledge.moves.oldest_first(event.thread)),
        _ => 0,
    }
}

// A migration sets a page for reads that it has collected for reads.
fn set_right(knowledge: &Knowledge, event: &Traced) -> u64
    ensures { result ≡ asks rule.Rule.SetRight (known_of knowledge.now) event.now.thread event.now.event }
{
    match event.event {
        Event::Set { page, right, .. } => one_if(
            is_read(right) && sets_read(knowledge.moves.oldest_first(event.thread), page, right),
        ),
        _ => 0,
    }
}

// A migration ends that has not set a page that moved.
fn set_unless_invalidated(knowledge: &Knowledge, event: &Traced) -> u64
    ensures { result ≡ asks rule.Rule.SetUnlessInvalidated (known_of knowledge.now) event.now.thread event.now.event }
{
    match event.event {
        Event::Finalize { .. } => leaves_moved(knowledge.moves.oldest_first(event.thread)),
        _ => 0,
    }
}

// A migration ends that has freed frames of pages that stayed.
fn drop_lost(knowledge: &Knowledge, event: &Traced) -> u64
    ensures { result ≡ asks rule.Rule.DropLost (known_of knowledge.now) event.now.thread event.now.event }
{
    match event.event {
        Event::Finalize { .. } => freed_stayed(knowledge.moves.oldest_first(event.thread)),
        _ => 0,
    }
}

// ---- devices

// A device is withdrawn.
fn take_from_there(knowledge: &Knowledge, event: &Traced) -> u64
    ensures { result ≡ asks rule.Rule.TakeFromThere (known_of knowledge.now) event.now.thread event.now.event }
{
    match event.event {
        Event::Withdraw { device } => one_if(!knowledge.withdrawn.has(device)),
        _ => 0,
    }
}

// A device goes that held frames when it was withdrawn, and passed over none.
fn evict_first(knowledge: &Knowledge, event: &Traced) -> u64
    ensures { result ≡ asks rule.Rule.EvictFirst (known_of knowledge.now) event.now.thread event.now.event }
{
    match event.event {
        Event::Gone { device } => one_if(
            knowledge.withdrawn.has(device)
                && !knowledge.passed.has(device)
                && knowledge.held_then.has(device),
        ),
        _ => 0,
    }
}

// A device goes.
fn withdraw_first(event: &Traced) -> u64
    ensures { (k : known.Known) → result ≡ asks rule.Rule.WithdrawFirst k event.now.thread event.now.event }
{
    match event.event {
        Event::Gone { .. } => 1,
        _ => 0,
    }
}

// A device goes that held frames when it was withdrawn.
fn wait_for_locked(knowledge: &Knowledge, event: &Traced) -> u64
    ensures { result ≡ asks rule.Rule.WaitForLocked (known_of knowledge.now) event.now.thread event.now.event }
{
    match event.event {
        Event::Gone { device } => one_if(
            knowledge.withdrawn.has(device) && knowledge.held_then.has(device),
        ),
        _ => 0,
    }
}
