// Frames that are written, copied and taken again.
//
// Each of the calls does nothing if its frame is not held, so that a test has nothing to prove: what it compares at its
// end tells whether they did anything.

use crate::frames::is_held;
use frame_pool::{Piece, Pool, copy_across};

/// Writes two bytes, the last of an eighth of the frame and the first of the next.
fn write(pool: &mut Pool, frame: u32) {
    if is_held(pool, frame) {
        pool.write(frame, 511, &[1, 2]);
    }
}

/// The same two bytes.
fn read(pool: &Pool, frame: u32) -> [u8; 2] {
    let mut into = [9; 2];
    if is_held(pool, frame) {
        pool.read(frame, 511, &mut into);
    }
    into
}

/// Copies the second eighth.
fn copy_second(pool: &mut Pool, from: u32, to: u32) {
    if from != to && is_held(pool, from) && is_held(pool, to) {
        pool.copy_within(from, to, Piece::Part(1));
    }
}

/// Copies the whole frame.
fn copy_all(from: &Pool, frame: u32, to: &mut Pool, number: u32) {
    if is_held(from, frame) && is_held(to, number) {
        copy_across(from, frame, to, number, Piece::All);
    }
}

/// Gives the frame back to its pool.
fn give_back(pool: &mut Pool, frame: u32) {
    if is_held(pool, frame) {
        pool.drop_frame(frame);
    }
}

/// The bytes of a frame that half of another's were copied to; none if a frame could not be taken.
fn copied_within(pool: &mut Pool) -> Option<[u8; 2]> {
    let first = pool.take_lowest()?;
    let second = pool.take_lowest()?;
    write(pool, first);
    copy_second(pool, first, second);
    Some(read(pool, second))
}

#[test]
fn bytes_are_copied_within_a_pool(rt: HostRuntime) {
    let mut pool = Pool::new(rt.alloc(), 2).expect(&rt, "memory");
    assert!(rt; copied_within(&mut pool) == Some([0, 2]));
}

/// The bytes of a frame that those of another pool were copied to; none if a frame could not be taken.
fn copied_across(system: &mut Pool, device: &mut Pool) -> Option<[u8; 2]> {
    let from = system.take_lowest()?;
    let to = device.take_lowest()?;
    write(system, from);
    copy_all(system, from, device, to);
    Some(read(device, to))
}

#[test]
fn bytes_are_copied_across_pools(rt: HostRuntime) {
    let mut system = Pool::new(rt.alloc(), 1).expect(&rt, "memory");
    let mut device = Pool::new(rt.alloc(), 1).expect(&rt, "memory");
    assert!(rt; copied_across(&mut system, &mut device) == Some([1, 2]));
}

/// Whether the frame has the bytes that are written, and is then given back.
fn is_written(pool: &mut Pool, frame: u32) -> bool {
    write(pool, frame);
    let written = read(pool, frame);
    give_back(pool, frame);
    written == [1, 2]
}

/// Whether the same frame is taken twice, and has no bytes of the first time at the second.
fn is_clear_again(pool: &mut Pool) -> bool {
    match pool.take_lowest() {
        Some(frame) => {
            is_written(pool, frame)
                && pool.take_lowest() == Some(frame)
                && read(pool, frame) == [0; 2]
        }
        None => false,
    }
}

#[test]
fn a_frame_that_is_taken_again_is_clear(rt: HostRuntime) {
    let mut pool = Pool::new(rt.alloc(), 1).expect(&rt, "memory");
    assert!(rt; is_clear_again(&mut pool));
}
