// What two threads tell each other.
use std::sync::atomic::{AtomicBool, Ordering};
use std::thread;

/// How often a thread looks before it goes on.
const LOOKS: u64 = 50_000_000;

/// A sign that one thread shows and another waits for.
#[derive(Drop)]
pub struct Sign {
    is_shown: AtomicBool,
}

impl Sign {
    pub fn new() -> Sign {
        Sign {
            is_shown: AtomicBool::new(false),
        }
    }

    pub fn show(&self) {
        self.is_shown.store(true, Ordering::SeqCst);
    }

    /// Whether the sign was seen in time.
    pub fn is_seen(&self) -> bool {
        for _ in 0..LOOKS {
            if self.is_shown.load(Ordering::SeqCst) {
                return true;
            }
            thread::yield_now();
        }
        false
    }
}
