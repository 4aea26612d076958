// What each flaw makes of what is due.
ghost use Rattle.std.specs.Prelude.{◌≡◌, IsTrue, IfOk};
ghost use Rattle.hm_base.specs.Program.{op_in_range};
ghost use Rattle.hm_reads.specs.Ranges.{phase_in_range};
ghost use Rattle.hm_flaw_states.specs.Steps.Found.{right_at, flawed_at};

use crate::steps::Finds;
use crate::steps::accesses::{added_anyway, reads_written, sole_anyway, used_detached};
use crate::steps::begins::{begun_anyway, begun_last, detached_at_once};
use crate::steps::cpu_accesses::device_accessed;
use crate::steps::endings::{not_put_back, unnamed_held};
use crate::steps::freezing::frozen_late;
use crate::steps::invalidations::{ended_at_once, told_last};
use crate::steps::locking::locked_taken;
use crate::steps::look_ups::{
    all_for_writes, any_device, compared_now, not_compared, walks_unlocked,
};
use crate::steps::migrations::{own_anyway, own_for_writes, withdrawn_taken};
use crate::steps::placing::{
    back_for_writes, forked_whole, fresh_anyway, fresh_for_writes, replaced_anyway,
};
use crate::steps::removals::{locked_passed, not_withdrawn, removed_at_once};
use hm_base::{Actor, NoMemory, Op};
use hm_flaws::Flaw;
use hm_history::phases::{Next, Phase};
use std::alloc::Global;

/// What is due at a phase to a driver with the flaw, before its device has read, given what is due to the right driver.
pub(crate) fn flawed<W: Finds>(
    found: &W,
    alloc: Global,
    flaw: Flaw,
    actor: Actor,
    op: &Op,
    top: &Phase,
    right: Next,
) -> Result<Next, NoMemory>
    requires range { IsTrue (op_in_range op.now) }
    requires top { IsTrue (phase_in_range top.now) }
    requires right { right ≡ right_at (W.program found.now) (W.state found.now) actor op.now top.now }
    ensures { IfOk result
        (λ n. n ≡ flawed_at flaw (W.program found.now) (W.state found.now) actor op.now top.now) }
{
    match flaw {
        Flaw::NotCompared => Ok(not_compared(found, actor, op, top, right)),
        Flaw::ComparedNow => Ok(compared_now(found, actor, op, top, right)),
        Flaw::AllForWrites => Ok(all_for_writes(found, actor, op, top, right)),
        Flaw::WalksUnlocked => Ok(walks_unlocked(found, actor, op, top, right)),
        Flaw::AnyDevice => Ok(any_device(found, actor, op, top, right)),
        Flaw::BegunAnyway => Ok(begun_anyway(found, actor, op, top, right)),
        Flaw::BegunLast => Ok(begun_last(found, actor, op, top, right)),
        Flaw::DetachedAtOnce => Ok(detached_at_once(found, actor, op, top, right)),
        Flaw::UsedDetached => used_detached(found, alloc, actor, op, top, right),
        Flaw::ReadsWritten => reads_written(found, alloc, actor, op, top, right),
        Flaw::OwnForWrites => Ok(own_for_writes(found, actor, op, top, right)),
        Flaw::OwnAnyway => Ok(own_anyway(found, actor, op, top, right)),
        Flaw::WithdrawnTaken => Ok(withdrawn_taken(found, actor, op, top, right)),
        Flaw::RemovedAtOnce => Ok(removed_at_once(found, actor, op, top, right)),
        Flaw::NotWithdrawn => Ok(not_withdrawn(found, actor, op, top, right)),
        Flaw::LockedPassed => Ok(locked_passed(found, actor, op, top, right)),
        Flaw::SoleAnyway => Ok(sole_anyway(found, actor, op, top, right)),
        Flaw::AddedAnyway => Ok(added_anyway(found, actor, op, top, right)),
        Flaw::ToldLast => Ok(told_last(found, actor, op, top, right)),
        Flaw::EndedAtOnce => Ok(ended_at_once(found, actor, op, top, right)),
        Flaw::ForkedWhole => Ok(forked_whole(found, actor, op, top, right)),
        Flaw::ReplacedAnyway => Ok(replaced_anyway(found, actor, op, top, right)),
        Flaw::DeviceAccessed => device_accessed(found, alloc, actor, op, top, right),
        Flaw::FrozenLate => Ok(frozen_late(found, actor, op, top, right)),
        Flaw::FreshAnyway => Ok(fresh_anyway(found, actor, op, top, right)),
        Flaw::FreshForWrites => Ok(fresh_for_writes(found, actor, op, top, right)),
        Flaw::BackForWrites => Ok(back_for_writes(found, actor, op, top, right)),
        Flaw::LockedTaken => Ok(locked_taken(found, actor, op, top, right)),
        Flaw::NotPutBack => Ok(not_put_back(found, actor, op, top, right)),
        Flaw::UnnamedHeld => Ok(unnamed_held(found, actor, op, top, right)),
        _ => Ok(right),
    }
}
