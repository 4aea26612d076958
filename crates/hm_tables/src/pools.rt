// The reverse maps of the pools.
ghost use Rattle.std.specs.Prelude.{◌≡◌, ◌<◌, length, OnOk, IfOk};
ghost use Rattle.hm_base.specs.PlaceWords.{names};
ghost use Rattle.entry_words.specs.Word.{pool_field};
ghost use Rattle.hm_tables.specs.Values.{size_in};
ghost use Rattle.hm_tables.specs.Steps.{frames_of, first_pools, without_use_of, with_use_of, with_mark_of, keeps_frame};
ghost use Rattle.hm_tables.specs.Steps.{freezes, keeps_use, uses_next, FrameFits, HasUseRoom, SaysOf, LosesUse};
ghost use Rattle.hm_tables.specs.Steps.{GainsUse, SamePools};

use crate::places::{is_moving, is_named_by};
use hm_base::frames::names;
use hm_base::{Frame, NoMemory, Page, Place, PoolId, Proc, Script};
use rev_maps::{RevMaps, Use};
use std::alloc::Global;

/// The pools of a script: the system's, and those of four devices.
const POOLS: u32 = 5;

/// The maps of the pools of a script, in which no frame has a use.
pub(crate) fn new_pools(alloc: Global, script: &Script) -> Result<Vec<RevMaps>, NoMemory>
    ensures { IfOk result (λ pools. pools.items ≡ first_pools script.now 5) }
{
    let mut pools = Vec::new(alloc);
    for index in 0..POOLS {
        let maps = RevMaps::new(alloc, frames_of(script, index))?;
        if let Err(_) = pools.push(maps) {
            return Err(NoMemory);
        }
    }
    Ok(pools)
}

/// How many frames a pool of the script has; none if the device is not declared.
fn frames_of(script: &Script, index: u32) -> u32
    ensures { result ≡ frames_of script.now index }
{
    if index == 0 {
        return script.frames;
    }
    match script.devices.get(u64::from(index - 1)) {
        Some(frames) => *frames,
        None => 0,
    }
}

/// Where the maps of a pool stand.
pub(crate) fn pool_index(pool: &PoolId) -> usize
    ensures index { result ≡ pool_field pool.now }
    ensures below { result < 5 }
{
    match pool {
        PoolId::System => 0,
        PoolId::Device(dev) => 1 + dev.number() as usize,
    }
}

/// Makes room for a use of the frame.
pub(crate) fn reserve_use(pools: &mut Vec<RevMaps>, frame: Option<Frame>) -> Result<(), NoMemory>
    requires pools { length pools.old.items ≡ 5 }
    requires fits { FrameFits (size_in pools.old.items) frame }
    ensures same { SamePools pools.old.items pools.new.items }
    ensures ok { OnOk result (HasUseRoom pools.new.items frame) }
{
    match frame {
        None => Ok(()),
        Some(frame) => {
            let maps = &mut pools[pool_index(&frame.pool)];
            maps.reserve(frame.number)
        }
    }
}

/// The use of the page from its old place to its new one. Where the frame stays, the list stays, or its
/// entry is marked.
pub(crate) fn change_use(pools: &mut Vec<RevMaps>, proc: Proc, page: Page, old: &Place, new: &Place)
    requires pools { length pools.old.items ≡ 5 }
    requires says { SaysOf pools.old.items proc page old.now }
    requires room { HasUseRoom pools.old.items (names new.now) }
    ensures { pools.new.items ≡ uses_next proc page old.now new.now pools.old.items }
{
    if freezes(old, new) {
        mark_use(pools, names(old), proc, page);
    } else if !keeps_use(old, new) {
        remove_use(pools, names(old), proc, page);
        let moving = is_moving(new);
        add_use(pools, names(new), Use { proc, page, moving });
    }
}

/// Whether the new place is a migration entry of the frame that the old one names.
fn freezes(old: &Place, new: &Place) -> bool
    ensures { result ≡ freezes old.now new.now }
{
    is_moving(new) && keeps_frame(old, new)
}

/// Whether both places name one frame, and neither is a migration entry.
fn keeps_use(old: &Place, new: &Place) -> bool
    ensures { result ≡ keeps_use old.now new.now }
{
    !is_moving(old) && !is_moving(new) && keeps_frame(old, new)
}

fn keeps_frame(old: &Place, new: &Place) -> bool
    ensures { result ≡ keeps_frame (names old.now) new.now }
{
    match names(old) {
        None => false,
        Some(frame) => is_named_by(&frame, new),
    }
}

/// The page names the frame no more.
fn remove_use(pools: &mut Vec<RevMaps>, frame: Option<Frame>, proc: Proc, page: Page)
    requires pools { length pools.old.items ≡ 5 }
    requires used { LosesUse pools.old.items frame proc page }
    ensures { pools.new.items ≡ without_use_of proc page frame pools.old.items }
{
    if let Some(frame) = frame {
        let maps = &mut pools[pool_index(&frame.pool)];
        maps.remove(frame.number, proc, page);
    }
}

/// The page names the frame by a migration entry.
fn mark_use(pools: &mut Vec<RevMaps>, frame: Option<Frame>, proc: Proc, page: Page)
    requires pools { length pools.old.items ≡ 5 }
    requires used { LosesUse pools.old.items frame proc page }
    ensures { pools.new.items ≡ with_mark_of proc page frame pools.old.items }
{
    if let Some(frame) = frame {
        let maps = &mut pools[pool_index(&frame.pool)];
        maps.set_moving(frame.number, proc, page);
    }
}

/// The page names the frame.
fn add_use(pools: &mut Vec<RevMaps>, frame: Option<Frame>, used: Use)
    requires pools { length pools.old.items ≡ 5 }
    requires fits { GainsUse pools.old.items frame used.proc used.page }
    ensures { pools.new.items ≡ with_use_of used.proc used.page used.moving frame pools.old.items }
{
    if let Some(frame) = frame {
        let maps = &mut pools[pool_index(&frame.pool)];
        maps.add_reserved(frame.number, used);
    }
}
