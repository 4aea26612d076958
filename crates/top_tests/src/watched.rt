// A value that counts how often it is looked at, and a gate that holds its actor until it was.
use hm_base::{Actor, Proc};
use hm_history::{Progress, StepError};
use hm_turns::{Looked, Looks, Pass, Stepped};
use hm_workers::Gate;
use std::snapshot::Snapshot;
use std::sync::atomic::{AtomicU64, Ordering};
use std::thread;

/// How often the gate looks before it lets the actor go on.
const LOOKS: u64 = 1 << 27;

/// After this many looks it lets other threads go first.
const LOOKS_A_YIELD: u64 = 1 << 16;

/// A value that counts the looks at it.
#[derive(Drop)]
pub struct Counted<'a, S> {
    pub inner: S,
    pub looks: &'a AtomicU64,
}

impl<S: Stepped> Stepped for Counted<'_, S> {
    ghost script = { λ c. S.script c.inner };

    ghost history = { λ c. S.history c.inner };

    ghost halt = { λ c. S.halt c.inner };

    ghost legal = { S.legal };

    ghost due = { S.due };

    fn step(&mut self, actor: Actor) -> Result<Progress, StepError> {
        self.inner.step(actor)
    }

    fn halted(&self) -> Option<StepError> {
        self.inner.halted()
    }

    fn length(&self) -> u64 {
        self.inner.length()
    }

    fn touched(&self) -> Option<Proc> {
        self.inner.touched()
    }
}

impl<S: Looks> Looks for Counted<'_, S> {
    fn look(&self, proc: Proc, addr: u64, into: &mut [u8]) -> Looked {
        self.looks.fetch_add(1, Ordering::SeqCst);
        self.inner.look(proc, addr, into)
    }
}

/// Holds an actor that has added this many entries or more, once after each of them, until there was a new look.
#[derive(Drop)]
pub struct Held<'a> {
    from: u64,
    looks: &'a AtomicU64,
    seen: AtomicU64,
    /// After how many entries the actor was held last.
    held_at: AtomicU64,
    missed: AtomicU64,
}

impl<'a> Held<'a> {
    pub fn new(from: u64, looks: &'a AtomicU64) -> Held<'a> {
        Held {
            from,
            looks,
            seen: AtomicU64::new(0),
            held_at: AtomicU64::new(0),
            missed: AtomicU64::new(0),
        }
    }

    /// How often the actor went on without a new look.
    pub fn missed(&self) -> u64 {
        self.missed.load(Ordering::SeqCst)
    }
}

impl Gate for Held<'_> {
    fn admits(&self, _actor: Actor, added: u64, _first: &Snapshot<Pass>, _pass: &Pass) -> bool {
        if added < self.from || self.held_at.swap(added, Ordering::SeqCst) == added {
            return true;
        }
        for look in 0..LOOKS {
            let looks = self.looks.load(Ordering::SeqCst);
            if looks > self.seen.load(Ordering::SeqCst) {
                self.seen.store(looks, Ordering::SeqCst);
                return true;
            }
            if look % LOOKS_A_YIELD == LOOKS_A_YIELD - 1 {
                thread::yield_now();
            }
        }
        self.missed.fetch_add(1, Ordering::SeqCst);
        true
    }
}
