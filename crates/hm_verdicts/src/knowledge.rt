// What is known after some events of a trace.
ghost use Rattle.std.specs.Prelude.{◌≡◌, OnOk, IfOk};
ghost use Rattle.hm_protocol.specs.Known.{known_start};
ghost use Rattle.hm_protocol.specs.Noted as noted;
ghost use Rattle.hm_verdicts.specs.Knowledge.{known_of};

use crate::all_looks::AllLooks;
use crate::flags::{Flags, Positions};
use crate::insides::{Early, Inside};
use crate::kept_calls::Calls;
use crate::moves::Move;
use crate::numbered::Numbered;
use crate::of_threads::OfThreads;
use crate::slots::Slot;
use hm_protocol::TraceFrame;
use std::alloc::Global;

/// What is known after some events.
#[derive(Drop)]
pub struct Knowledge {
    pub(crate) alloc: Global,
    /// How many events.
    pub(crate) at: u64,
    /// The position of a thread's last event.
    pub(crate) last: Positions,
    pub(crate) device: Numbered<u64>,
    /// The first page of a mirror's window.
    pub(crate) first: Positions,
    /// The mirror was removed.
    pub(crate) gone: Flags,
    /// It was being invalidated when its removal began.
    pub(crate) leaving: Flags,
    /// A thread's invalidations under way, the inner one first.
    pub(crate) under: OfThreads<Inside>,
    // The oldest first.
    pub(crate) slots: Vec<Slot>,
    pub(crate) calls: Calls,
    pub(crate) looks: AllLooks,
    pub(crate) early: Vec<Early>,
    /// Commits of stale look-ups; whether an invalidation is under way.
    pub(crate) stale: Vec<(u64, bool)>,
    /// Look-ups that were given up; whether after the invalidation.
    pub(crate) given_up: Vec<bool>,
    /// A thread's migrations, the inner one first.
    pub(crate) moves: OfThreads<Move>,
    // The oldest first.
    pub(crate) held: Vec<TraceFrame>,
    pub(crate) withdrawn: Flags,
    /// Frames of the device were held when it was withdrawn.
    pub(crate) held_then: Flags,
    /// Some were passed over since.
    pub(crate) passed: Flags,
}

impl Knowledge {
    /// Before the first event. It takes no memory.
    pub fn new(alloc: Global) -> Knowledge
        ensures { known_of result ≡ known_start }
    {
        Knowledge {
            alloc,
            at: 0,
            last: Positions::new(alloc),
            device: Numbered::new(alloc),
            first: Positions::new(alloc),
            gone: Flags::new(alloc),
            leaving: Flags::new(alloc),
            under: OfThreads::new(alloc),
            slots: Vec::new(alloc),
            calls: Calls::new(alloc),
            looks: AllLooks::new(alloc),
            early: Vec::new(alloc),
            stale: Vec::new(alloc),
            given_up: Vec::new(alloc),
            moves: OfThreads::new(alloc),
            held: Vec::new(alloc),
            withdrawn: Flags::new(alloc),
            held_then: Flags::new(alloc),
            passed: Flags::new(alloc),
        }
    }
}
