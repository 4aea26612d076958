// Frames that are taken and given back, against a plain list.
use crate::drawn::after;
use crate::frames::is_held;
use frame_pool::Pool;

/// The first number from one on whose frame is held, or is not.
fn next_in(plain: &[bool; 130], from: usize, held: bool) -> Option<u32> {
    for (number, is_held) in plain.iter().enumerate() {
        if from <= number && *is_held == held {
            return Some(number as u32);
        }
    }
    None
}

/// The lowest free frame is taken, or the one of this number is given back if it is held.
fn turn(pool: &mut Pool, plain: &mut [bool; 130], x: u64) {
    let number = (x >> 33) % 130;
    if x >> 60 < 9 {
        if let Some(taken) = next_in(plain, 0, false) {
            plain[taken as usize % 130] = true;
        }
        let _ = pool.take_lowest();
    } else if is_held(pool, number as u32) {
        pool.drop_frame(number as u32);
        plain[number as usize] = false;
    }
}

/// Whether the pool finds what the list does: its lowest free frame, and the first that is held from a number on.
fn agree(pool: &Pool, plain: &[bool; 130], from: u32) -> bool {
    pool.lowest_free() == next_in(plain, 0, false)
        && pool.held_at_or_after(from) == next_in(plain, from as usize, true)
}

/// Whether the two agree after each of 3,000 turns.
fn turns_agree(pool: &mut Pool) -> bool {
    let mut plain = [false; 130];
    let mut x: u64 = 1;
    for _ in 0..3_000u64 {
        x = after(x);
        turn(pool, &mut plain, x);
        if !agree(pool, &plain, ((x >> 41) % 130) as u32) {
            return false;
        }
    }
    true
}

#[test]
fn a_pool_finds_what_a_scan_finds(rt: HostRuntime) {
    let mut pool = Pool::new(rt.alloc(), 130).expect(&rt, "memory");
    assert!(rt; turns_agree(&mut pool));
}
