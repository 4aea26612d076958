// Frames that are locked.
use crate::frames::is_held;
use frame_pool::{Held, Pool};
use hm_base::Actor;

/// Locks a frame that is held for an actor that there may be.
fn lock(pool: &mut Pool, frame: u32, number: u32) -> Option<Result<(), Held>> {
    if number < 16 && is_held(pool, frame) {
        Some(pool.try_lock(frame, Actor::new(number)))
    } else {
        None
    }
}

/// Unlocks the frame if it is locked.
fn unlock(pool: &mut Pool, frame: u32) {
    if pool.holder(frame).is_some() {
        pool.unlock(frame);
    }
}

/// Whether the frame is locked for one actor, and then for no other.
fn locks(pool: &mut Pool, frame: u32) -> bool {
    pool.holder(frame).is_none()
        && lock(pool, frame, 3) == Some(Ok(()))
        && lock(pool, frame, 4) == Some(Err(Held(Actor::new(3))))
        && pool.holder(frame) == Some(Actor::new(3))
}

/// Whether the frame is unlocked. A frame that there is not is locked for nobody.
fn unlocks(pool: &mut Pool, frame: u32) -> bool {
    unlock(pool, frame);
    pool.holder(frame).is_none() && pool.holder(7).is_none()
}

/// Whether the pool's lowest frame is taken, locked and unlocked.
fn is_locked(pool: &mut Pool) -> bool {
    match pool.take_lowest() {
        Some(frame) => locks(pool, frame) && unlocks(pool, frame),
        None => false,
    }
}

#[test]
fn frames_are_locked(rt: HostRuntime) {
    let mut pool = Pool::new(rt.alloc(), 1).expect(&rt, "memory");
    assert!(rt; is_locked(&mut pool));
}
