// The lowest free and the lowest held frame of a pool.
ghost use Rattle.std.specs.Prelude.{◌≡◌, ◌-◌, not};
ghost use Rattle.hm_history.specs.Memory.Words.{least};
ghost use Rattle.hm_history.specs.Memory.Places.{places_start, frame_of, pool_size, is_withdrawn, lowest_free};
ghost use Rattle.hm_history.specs.Memory.Places.{held_from};
ghost use Rattle.hm_race_keys.specs.Arrays.{flag_in};
ghost use Rattle.hm_race_keys.specs.FrameTables.{held_in};

use crate::device_marks::DeviceMarks;
use crate::held_frames::HeldFrames;
use hm_base::{Dev, Frame, PoolId, Script};

// How many frames the pool has.
fn pool_size(script: &Script, pool: &PoolId) -> u32
    ensures { result ≡ pool_size script.now pool.now }
{
    match pool {
        PoolId::System => script.frames,
        PoolId::Device(dev) => match script.devices.get(u64::from(dev.number())) {
            Some(size) => *size,
            None => 0,
        },
    }
}

impl HeldFrames {
    // The lowest of the first `size` frames of the pool that is not held.
    fn first_free(&self, pool: &PoolId, size: u32) -> Option<u32>
        ensures { result ≡ least (λ n. not (held_in self.now (frame_of pool.now n))) 0 size }
    {
        for number in 0..size {
            if !self.is_held(&Frame {
                pool: *pool,
                number,
            }) {
                return Some(number);
            }
        }
        None
    }

    // The lowest frame of the pool from there on and below `size` that is held.
    fn first_held(&self, pool: &PoolId, from: u32, size: u32) -> Option<u32>
        ensures { result ≡ least (λ n. held_in self.now (frame_of pool.now n)) from (size - from) }
    {
        for number in from..size {
            if self.is_held(&Frame {
                pool: *pool,
                number,
            }) {
                return Some(number);
            }
        }
        None
    }

    /// The frame that the next `take` of the pool gives.
    pub fn lowest_free(&self, script: &Script, marks: &DeviceMarks, pool: PoolId) -> Option<Frame>
        ensures { result
            ≡ lowest_free script.now
            (record places_start { held = held_in self.now; withdrawn = flag_in marks.now.withdrawn })
            pool }
    {
        if marks.is_withdrawn(&pool) {
            return None;
        }
        match self.first_free(&pool, pool_size(script, &pool)) {
            Some(number) => Some(Frame { pool, number }),
            None => None,
        }
    }

    /// The lowest held frame of the device from there on.
    pub fn held_from(&self, script: &Script, dev: Dev, from: u64) -> Option<u32>
        ensures { result ≡ held_from script.now (record places_start { held = held_in self.now }) dev from }
    {
        let pool = PoolId::Device(dev);
        let size = pool_size(script, &pool);
        if from >= u64::from(size) {
            return None;
        }
        self.first_held(&pool, from as u32, size)
    }
}
