// Which frames are held, of the system and of the devices.
ghost use Rattle.std.specs.Prelude.{◌≡◌, ◌-◌, not, ℕ, ◌<◌, ◌^◌, true, false, Some, IfSome, OnOk, OnErr, slice_index_or};
ghost use Rattle.hm_base.specs.PlaceWords.{with_frame};
ghost use Rattle.hm_base.specs.declared.Frame.{Frame as AnyFrame};
ghost use Rattle.hm_base.specs.declared.PoolId.{PoolId as AnyPool};
ghost use Rattle.hm_history.specs.Memory.Words.{least};
ghost use Rattle.hm_history.specs.Memory.Places.{frame_of, pool_size};
ghost use Rattle.hm_folds.specs.HeldFrames.{held_at, frames_in};

use crate::held::HeldNumbers;
use hm_base::frames::pool_index;
use hm_base::{Dev, DeviceList, Frame, NoMemory, PoolId, Script};
use std::alloc::Global;

/// The pools of a script: the system's, and those of four devices.
#[derive(Drop)]
pub struct HeldFrames {
    pools: [HeldNumbers; 5],
}

impl HeldFrames {
    /// The pools of a script, of whose frames none is held. It takes no memory.
    pub(crate) fn new(alloc: Global, script: &Script) -> HeldFrames
        ensures held { (f : AnyFrame) → held_at result.pools f ≡ false }
        ensures frames { (pool : AnyPool) → frames_in result.pools pool ≡ pool_size script.now pool }
    {
        script.facts();
        HeldFrames {
            pools: [
                HeldNumbers::new(alloc, script.frames),
                HeldNumbers::new(alloc, frames_of(&script.devices, 0)),
                HeldNumbers::new(alloc, frames_of(&script.devices, 1)),
                HeldNumbers::new(alloc, frames_of(&script.devices, 2)),
                HeldNumbers::new(alloc, frames_of(&script.devices, 3)),
            ],
        }
    }

    /// Whether the frame is held.
    pub(crate) fn is_held(&self, frame: &Frame) -> bool
        ensures { result ≡ held_at self.now.pools frame.now }
    {
        self.pools[pool_index(&frame.pool)].is_held(u64::from(frame.number))
    }

    /// The lowest frame of the pool that is not held.
    pub fn lowest_free(&self, pool: PoolId) -> Option<u32>
        ensures { result
            ≡ least (λ n. not (held_at self.now.pools (frame_of pool n))) 0 (frames_in self.now.pools pool) }
    {
        match self.pools[pool_index(&pool)].lowest_free() {
            Some(number) => Some(number as u32),
            None => None,
        }
    }

    /// The lowest frame of the device from there on that is held.
    pub fn held_from(&self, dev: Dev, from: u64) -> Option<u32>
        ensures { result
            ≡ least (λ n. held_at self.now.pools (frame_of (AnyPool.Device dev) n)) from
            (frames_in self.now.pools (AnyPool.Device dev) - from) }
    {
        match self.pools[pool_index(&PoolId::Device(dev))].held_from(from) {
            Some(number) => Some(number as u32),
            None => None,
        }
    }

    /// The lowest free frame of its pool is held from now on; a failure changes nothing.
    pub(crate) fn take(&mut self, frame: &Frame) -> Result<(), NoMemory>
        requires { least (λ n. not (held_at self.old.pools (frame_of frame.now.pool n))) 0
            (frames_in self.old.pools frame.now.pool)
            ≡ Some frame.now.number }
        ensures frames { (pool : AnyPool) → frames_in self.new.pools pool ≡ frames_in self.old.pools pool }
        ensures ok { OnOk result
            ((f : AnyFrame) → held_at self.new.pools f ≡ with_frame (held_at self.old.pools) frame.now true f) }
        ensures err { OnErr result ((f : AnyFrame) → held_at self.new.pools f ≡ held_at self.old.pools f) }
    {
        let pool = &mut self.pools[pool_index(&frame.pool)];
        match pool.take(u64::from(frame.number)) {
            Ok(()) => Ok(()),
            Err(error) => Err(error),
        }
    }

    /// A held frame is free from now on; a failure changes nothing.
    pub(crate) fn drop_frame(&mut self, frame: &Frame) -> Result<(), NoMemory>
        requires { held_at self.old.pools frame.now ≡ true }
        ensures frames { (pool : AnyPool) → frames_in self.new.pools pool ≡ frames_in self.old.pools pool }
        ensures ok { OnOk result
            ((f : AnyFrame) → held_at self.new.pools f ≡ with_frame (held_at self.old.pools) frame.now false f) }
        ensures err { OnErr result ((f : AnyFrame) → held_at self.new.pools f ≡ held_at self.old.pools f) }
    {
        let pool = &mut self.pools[pool_index(&frame.pool)];
        match pool.drop_frame(u64::from(frame.number)) {
            Ok(()) => Ok(()),
            Err(error) => Err(error),
        }
    }
}

// How many frames a device of the script has; none if it is not declared.
fn frames_of(devices: &DeviceList, number: u64) -> u32
    ensures { result ≡ slice_index_or devices.now number 0 }
{
    match devices.get(number) {
        Some(frames) => *frames,
        None => 0,
    }
}
