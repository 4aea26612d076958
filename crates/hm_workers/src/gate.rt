// What is asked before each turn, and told after it.
ghost use Rattle.hm_workers.specs.Working.{IsAdded};

use hm_base::Actor;
use hm_history::Progress;
use hm_turns::{Pass, Turn};
use std::snapshot::Snapshot;
use std::thread;

/// Whether a turn added an entry.
pub(crate) fn is_entry(turn: &Turn) -> bool {
    matches!(turn, Turn::Did(Progress::Did(_)))
}

/// Says when an actor may go on; no claim rests on its answers.
pub trait Gate {
    /// Is told how many actors there are, before any worker starts.
    fn begins(&self, _actors: u64) {}

    /// Whether the actor may try for the turn now. Its worker has added this many entries with its pass, since that was
    /// the first.
    fn admits(&self, actor: Actor, added: u64, first: &Snapshot<Pass>, pass: &Pass) -> bool
        requires told { IsAdded first.now.value pass.now added };

    /// Is told what each admitted try came to. It lets other threads go first if no entry was added.
    fn tried(&self, _actor: Actor, turn: &Turn) {
        if !is_entry(turn) {
            thread::yield_now();
        }
    }
}
