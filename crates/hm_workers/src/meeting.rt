// Where all workers wait for one another before they go.
use std::sync::Wait;
use std::sync::atomic::{AtomicU64, Ordering};
use std::thread;
use std::time::Duration;

/// How often one that has come looks for those that have not, before it sleeps.
const LOOKS: u64 = 1 << 16;

/// How many looks are made before other threads are let go first.
const LOOKS_AT_ONCE: u64 = 1 << 10;

/// How often it sleeps, before it goes on without those that have not come.
const SLEEPS: u64 = 50;

/// How many milliseconds a sleep lasts at most.
const SLEEP: u64 = 10;

/// The bit that says that one was too long in coming.
const WAS_MISSED: u64 = 1 << 32;

/// A meeting of all actors. A thread may be lacking for one of them, so nobody waits for longer than half a second and
/// some looks. Either all come or one is missed, and which it is no longer changes once anybody has left.
#[derive(Drop)]
pub(crate) struct Meeting {
    // A bit for each actor.
    all: AtomicU64,
    // A bit for each that has come, and the one above.
    come: AtomicU64,
}

impl Meeting {
    pub(crate) fn new() -> Meeting {
        Meeting {
            all: AtomicU64::new(0),
            come: AtomicU64::new(0),
        }
    }

    /// Begins, for this many actors.
    pub(crate) fn begin(&self, actors: u64) {
        self.come.store(0, Ordering::SeqCst);
        self.all.store((1 << actors.min(16)) - 1, Ordering::SeqCst);
    }

    fn is_all(&self, come: u64) -> bool {
        let all = self.all.load(Ordering::SeqCst);
        come & all == all
    }

    /// Whether the actor with this bit has come.
    pub(crate) fn has(&self, bit: u64) -> bool {
        self.come.load(Ordering::SeqCst) & bit != 0
    }

    /// Whether it ended before all had come.
    pub(crate) fn was_missed(&self) -> bool {
        self.come.load(Ordering::SeqCst) & WAS_MISSED != 0
    }

    /// Counts the actor with this bit as come. The last ends the sleep of all others.
    pub(crate) fn count(&self, bit: u64) {
        let before = self.come.fetch_or(bit, Ordering::SeqCst);
        if self.is_all(before | bit) && !self.is_all(before) {
            self.come.wake_all();
        }
    }

    // Looks until all have come, or it has looked often enough. Gives the number of looks.
    fn look(&self) -> u64 {
        for look in 0..LOOKS {
            if self.is_all(self.come.load(Ordering::SeqCst)) {
                return look;
            }
            if look % LOOKS_AT_ONCE == LOOKS_AT_ONCE - 1 {
                thread::yield_now();
            }
        }
        LOOKS
    }

    // Sleeps until all have come, or it has slept often enough.
    fn sleep<R: Wait>(&self, rt: &R) {
        for _ in 0..SLEEPS {
            let come = self.come.load(Ordering::SeqCst);
            if self.is_all(come) {
                return;
            }
            let low = (come % (1 << 32)) as u32;
            self.come
                .park_timeout(rt, low, Duration::from_millis(SLEEP));
        }
    }

    // Goes on without those that have not come. Says whether there are any.
    fn gives_up(&self) -> bool {
        let all = self.all.load(Ordering::SeqCst);
        let order = Ordering::SeqCst;
        let missed = self.come.fetch_update(order, order, |come| {
            if come & all == all {
                None
            } else {
                Some(all | WAS_MISSED)
            }
        });
        if missed.is_ok() {
            self.come.wake_all();
        }
        missed.is_ok()
    }

    /// Comes, and waits until all have come, but not for long. Gives the number of looks; none if it gave up.
    pub(crate) fn attend<R: Wait>(&self, rt: &R, bit: u64) -> Option<u64> {
        self.count(bit);
        let looks = self.look();
        if looks == LOOKS {
            self.sleep(rt);
            if self.gives_up() {
                return None;
            }
        }
        Some(looks)
    }
}
