// What a look-up makes of what is known.
ghost use Rattle.std.specs.Prelude.{◌≡◌, ◌++◌, false, if◌then◌else◌, is_some, OnOk};
ghost use Rattle.hm_protocol.specs.Words.{drop_if};
ghost use Rattle.hm_protocol.specs.Noted.{begun_last, is_last};
ghost use Rattle.hm_verdicts.specs.Looking.{given_up_by, early_by, reads_itself, stale_by};
ghost use Rattle.hm_verdicts.specs.Numbers.{values_in};
ghost use Rattle.hm_history.specs.Memory.Words.{with_at};

use crate::insides::Early;
use crate::kept_calls::Calls;
use crate::looks::Look;
use crate::newest_first::{Changes, change_items};
use crate::numbered::Numbered;
use hm_base::NoMemory;

/// The look-up is given up by the next one, if it has walked and set nothing, and its mirror was told.
pub(crate) fn give_up(
    given_up: &mut Vec<bool>,
    calls: &Calls,
    mirror: u64,
    look: &Look,
) -> Result<(), NoMemory>
    ensures { OnOk result (given_up.new.items ≡ given_up.old.items ++ given_up_by calls.now mirror look.now) }
{
    if look.is_open() && calls.are_met(mirror, look) {
        given_up.push(calls.are_past(mirror, look))?;
    }
    Ok(())
}

/// So it is by a walk with this sequence, if that has one that its driver has read itself.
pub(crate) fn give_up_by_walk(
    given_up: &mut Vec<bool>,
    calls: &Calls,
    mirror: u64,
    look: &Look,
    seq: u64,
) -> Result<(), NoMemory>
    ensures { OnOk result (given_up.new.items ≡ (if reads_itself seq look.now
        then given_up.old.items ++ given_up_by calls.now mirror look.now else given_up.old.items)) }
{
    if !look.reads_itself(seq) {
        return Ok(());
    }
    give_up(given_up, calls, mirror, look)
}

/// The device of a mirror is that for which it walks, if none is known.
pub(crate) fn learn_device(
    devices: &mut Numbered<u64>,
    mirror: u64,
    owner: Option<u64>,
) -> Result<(), NoMemory>
    ensures { OnOk result (values_in devices.new ≡ (if is_some (values_in devices.old mirror)
        then values_in devices.old else with_at (values_in devices.old) mirror owner)) }
{
    if devices.get(mirror).is_some() {
        return Ok(());
    }
    devices.set_or_take(mirror, owner)?;
    Ok(())
}

/// A `Begin` or walk is too early, if its sequence is that of an invalidation under way.
pub(crate) fn note_early(
    early: &mut Vec<Early>,
    calls: &Calls,
    thread: u64,
    mirror: u64,
    seq: u64,
    walks: bool,
    at: u64,
) -> Result<(), NoMemory>
    ensures { OnOk result
        (early.new.items ≡ early.old.items ++ early_by calls.now at thread mirror seq walks) }
{
    if calls.are_early(mirror, seq) {
        early.push(Early::new(thread, mirror, walks, at))?;
    }
    Ok(())
}

// The look-up of a thread in a mirror.
#[derive(Drop)]
struct Followed {
    thread: u64,
    mirror: u64,
}

impl Changes<Early> for Followed {
    ghost use Rattle.std.specs.Prelude.{false, if◌then◌else◌};
    ghost use Rattle.hm_protocol.specs.Noted.{is_last};

    ghost made = { λ s x. if is_last s.thread s.mirror x then record x { last = false } else x };

    fn change(&self, one: &mut Early) -> Result<(), NoMemory> {
        *one = one.followed(self.thread, self.mirror);
        Ok(())
    }
}

// The last walks of a look-up are not among them.
fn drop_last(early: &mut Vec<Early>, thread: u64, mirror: u64)
    ensures { early.new.items ≡ drop_if (is_last thread mirror) early.old.items }
{
    early.retain(|one| !one.is_last(thread, mirror));
}

/// A `Begin` follows the walks of a look-up.
pub(crate) fn follow(
    early: &mut Vec<Early>,
    thread: u64,
    mirror: u64,
    look: &Look,
) -> Result<(), NoMemory>
    ensures { OnOk result (early.new.items ≡ begun_last thread mirror look.now early.old.items) }
{
    if look.walks_itself() {
        drop_last(early, thread, mirror);
        return Ok(());
    }
    change_items(early, &Followed { thread, mirror })
}

/// A commit of a look-up is stale, if it meets a callback.
pub(crate) fn note_stale(
    stale: &mut Vec<(u64, bool)>,
    calls: &Calls,
    mirror: u64,
    look: &Look,
    at: u64,
) -> Result<(), NoMemory>
    ensures { OnOk result (stale.new.items ≡ stale.old.items ++ stale_by calls.now at mirror look.now) }
{
    if calls.are_met(mirror, look) {
        stale.push((at, calls.are_met_under_way(mirror, look)))?;
    }
    Ok(())
}
