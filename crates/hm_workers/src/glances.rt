// A gate that lets a watcher look now and then.
use crate::gate::{Gate, is_entry};
use crate::watching::Signs;
use hm_base::Actor;
use hm_turns::{Pass, Turn};
use std::snapshot::Snapshot;
use std::sync::atomic::{AtomicU64, Ordering};
use std::thread;

/// After this many entries the watcher should have made a try.
const ENTRIES_A_LOOK: u64 = 32;

/// So often the actor that goes lets other threads go first, if it has not.
const MOST_YIELDS: u32 = 16;

/// Another gate, under which the watcher comes to look, if it lacks a processor.
#[derive(Drop)]
pub(crate) struct Watched<'a, G> {
    gate: &'a G,
    signs: &'a Signs,
    // How many entries were added.
    added: AtomicU64,
    // How many tries the watcher had made some entries ago.
    seen: AtomicU64,
}

impl<'a, G> Watched<'a, G> {
    pub(crate) fn new(gate: &'a G, signs: &'a Signs) -> Watched<'a, G> {
        Watched {
            gate,
            signs,
            added: AtomicU64::new(0),
            seen: AtomicU64::new(0),
        }
    }

    // Lets other threads go first, until the watcher has made a try since the last time, but not for long.
    fn let_look(&self) {
        let seen = self.seen.load(Ordering::SeqCst);
        for _ in 0..MOST_YIELDS {
            if self.signs.tries.load(Ordering::SeqCst) != seen {
                break;
            }
            thread::yield_now();
        }
        let tries = self.signs.tries.load(Ordering::SeqCst);
        self.seen.store(tries, Ordering::SeqCst);
    }
}

impl<G: Gate> Gate for Watched<'_, G> {
    fn begins(&self, actors: u64) {
        self.gate.begins(actors);
    }

    fn admits(&self, actor: Actor, added: u64, first: &Snapshot<Pass>, pass: &Pass) -> bool {
        self.gate.admits(actor, added, first, pass)
    }

    fn tried(&self, actor: Actor, turn: &Turn) {
        if is_entry(turn) {
            let added = self.added.fetch_add(1, Ordering::SeqCst);
            if added % ENTRIES_A_LOOK == ENTRIES_A_LOOK - 1 {
                self.let_look();
            }
        }
        self.gate.tried(actor, turn);
    }
}
