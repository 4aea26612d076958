// Gates that tests hold actors with.
use hm_base::Actor;
use hm_turns::Pass;
use hm_workers::Gate;
use std::snapshot::Snapshot;
use std::sync::atomic::{AtomicU64, Ordering};
use std::thread;

/// How often an actor looks before it goes on.
const LOOKS: u64 = 50_000_000;

/// Lets each actor go on.
pub struct Open;

impl Gate for Open {
    fn admits(&self, _actor: Actor, _added: u64, _first: &Snapshot<Pass>, _pass: &Pass) -> bool {
        true
    }
}

/// Holds the second actor until the first has added a number of entries, and then the first, inside that call, until
/// the second has added one.
#[derive(Drop)]
pub struct Meets {
    at: u64,
    first_is_there: AtomicU64,
    second_has_added: AtomicU64,
    missed: AtomicU64,
}

impl Meets {
    pub fn at(at: u64) -> Meets {
        Meets {
            at,
            first_is_there: AtomicU64::new(0),
            second_has_added: AtomicU64::new(0),
            missed: AtomicU64::new(0),
        }
    }

    /// Whether an actor went on without having seen what it was held for.
    pub fn was_missed(&self) -> bool {
        self.missed.load(Ordering::SeqCst) != 0
    }

    fn look_for(&self, sign: &AtomicU64) {
        for _ in 0..LOOKS {
            if sign.load(Ordering::SeqCst) != 0 {
                return;
            }
            thread::yield_now();
        }
        self.missed.store(1, Ordering::SeqCst);
    }
}

impl Gate for Meets {
    fn admits(&self, actor: Actor, added: u64, _first: &Snapshot<Pass>, _pass: &Pass) -> bool {
        if actor.number() == 0 && added == self.at {
            self.first_is_there.store(1, Ordering::SeqCst);
            self.look_for(&self.second_has_added);
        }
        if actor.number() == 1 {
            if added == 0 {
                self.look_for(&self.first_is_there);
            } else {
                self.second_has_added.store(1, Ordering::SeqCst);
            }
        }
        true
    }
}
