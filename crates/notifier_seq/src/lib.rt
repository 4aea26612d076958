// The invalidations, intervals and sequences of one process: `struct mmu_notifier_subscriptions` and the interval
// notifiers of mm/mmu_notifier.c.
//
// A process has one sequence and a count of the invalidations under way. Each mirror has an interval, its window, with
// a sequence of its own. The rules, and what they are for:
//
// - A *start* raises the count. If an interval in the tree overlaps the span, the sequence becomes odd: an odd sequence
//   means that an invalidation is under way that some mirror has to know of. If none overlaps, nobody is told.
// - *Telling* a mirror gives its interval the process's sequence. So the two are equal exactly while the mirror was
//   told by an invalidation that is still under way, and a look-up that would begin then waits.
// - An *end* lowers the count. The last one, if the sequence is odd, makes it even again and applies what was deferred.
//   An earlier end leaves the sequence odd, since another invalidation is still under way.
// - A look-up *begins* by reading its interval's sequence, and is to be *repeated* if and only if that has changed when
//   it would commit. A sequence never goes back, so no telling in between is missed.
// - The tree does not change while the sequence is odd, since an invalidation walks it. An *insert* is then deferred,
//   with the process's sequence as its own, so that no look-up begins before the invalidation has ended; a *remove* is
//   deferred too, and its caller waits, but a deferred insert is cancelled at once. While invalidations are under way
//   that met nobody (the sequence is even), an insert makes the sequence odd, so that their ends know of it.
//
// The caller's locks keep an interval's table and its sequence together: a table is erased when its mirror is told, and
// an entry is set only by a look-up that was compared. hm_laws proves from these rules that no told entry is ever used.
#![tactic(auto)]

ghost use Rattle.std.specs.Prelude.{◌≡◌, ◌==◌, ◌&&◌, ◌+◌, ◌^◌, ◌<◌, ◌≤◌, ◌-◌, nat_lt, not, OnOk, OnErr, IsTrue, IsSome};
ghost use Rattle.std.specs.Prelude.{None, true, false, option_map, if◌then◌else◌};
ghost use Rattle.notifier_seq.specs.Sequences.{sequences_start, reserved, is_odd, in_tree, insert_deferred, is_leaving};
ghost use Rattle.notifier_seq.specs.Sequences.{is_present, interval_at, interval_seq, next_told, some_overlap};
ghost use Rattle.notifier_seq.specs.Sequences.{seq_started, started, seq_ended, ended, interval_inserted, inserted};
ghost use Rattle.notifier_seq.specs.Sequences.{told, removal_of, removed, begin_of};
ghost use Rattle.notifier_seq.specs.declared.interval.Interval.{Interval as AnyInterval};

use hm_base::{MirrorId, NoMemory, Span};
use interval::{seq_of, stage_of};
pub use interval::{Interval, Stage};
use std::alloc::Global;
use std::marker::Model;
use subscriptions::Subscriptions;

mod interval;
mod subscriptions;

/// What a start of an invalidation tells: the process's sequence afterwards, and whether an interval
/// overlapped, so that mirrors are to be told.
#[derive(Clone, Copy, PartialEq, Eq)]
pub struct Started {
    pub seq: u64,
    pub overlapped: bool,
}

/// A look-up that may begin has its interval's sequence; one that has to wait has the sequence that
/// it waits for to move.
#[derive(Clone, Copy, PartialEq, Eq)]
pub enum Begin {
    Ready(u64),
    Invalidating(u64),
}

/// An interval is removed at once, or when this sequence moves.
#[derive(Clone, Copy, PartialEq, Eq)]
pub enum Removal {
    Removed,
    WaitFor(u64),
}

/// The notifiers of one process, with the interval of each mirror by its number. The sequence is odd while an
/// invalidation that met an interval is under way. They take no memory before the first room for an insert is made,
/// as in Linux, where a process has no `mmu_notifier_subscriptions` before its first mirror.
#[derive(Drop)]
pub struct Notifiers {
    seq: u64,
    active: u64,
    subscriptions: Option<Box<Subscriptions>>,
}

impl Model for Notifiers {
    ghost use Rattle.std.specs.Prelude.{◌≤◌};
    ghost use Rattle.notifier_seq.specs.Sequences.{Sequences};
    ghost use Rattle.notifier_seq.specs.Kept.{intervals_in, room_in};

    ghost Value = { Sequences };

    ghost view = { λ n. record {
      seq = n.seq;
      active = n.active;
      intervals = intervals_in n.subscriptions;
      room = room_in n.subscriptions;
    } };

    ghost invariant = { λ n. 2 ≤ n.seq };
}

impl Notifiers {
    /// The sequence 2, no invalidation and no interval.
    pub fn new() -> Notifiers
        ensures { result ≡ sequences_start }
    {
        Notifiers {
            seq: 2,
            active: 0,
            subscriptions: None,
        }
    }

    /// Makes room for one insert more; a failure changes nothing.
    pub fn reserve(&mut self, alloc: Global) -> Result<(), NoMemory>
        ensures ok { OnOk result (self.new ≡ reserved self.old) }
        ensures err { OnErr result (self.new ≡ self.old) }
    {
        if self.subscriptions.is_none() {
            self.subscriptions = Some(Box::new(alloc, Subscriptions::new(alloc))?);
        }
        match &mut self.subscriptions {
            Some(subscriptions) => subscriptions.reserve(),
            None => Ok(()),
        }
    }

    /// An invalidation of the span begins (`mn_itree_invalidate` and its count of active ones).
    pub fn start(&mut self, span: Span) -> Started
        requires seq { self.old.seq < 2 ^ 63 }
        requires active { self.old.active < 2 ^ 63 }
        ensures result { result ≡ record { seq = seq_started self.old span; overlapped = some_overlap self.old span } }
        ensures state { self.new ≡ started self.old span }
    {
        let overlapped = self.next_overlapping(span, None).is_some();
        self.active += 1;
        self.seq = seq_after_start(self.seq, overlapped);
        Started {
            seq: self.seq,
            overlapped,
        }
    }

    /// The least mirror above `after` whose interval is in the tree and overlaps the span.
    pub fn next_overlapping(&self, span: Span, after: Option<MirrorId>) -> Option<MirrorId>
        ensures { result ≡ next_told self.now span after }
    {
        match &self.subscriptions {
            Some(subscriptions) => subscriptions.next_overlapping(span, after),
            None => None,
        }
    }

    /// The interval was told: it gets this sequence (`mmu_interval_set_seq`).
    pub fn set_seq(&mut self, id: MirrorId, seq: u64)
        requires { IsSome (interval_at self.old id) }
        ensures { self.new ≡ told self.old id seq }
    {
        let Some(subscriptions) = &mut self.subscriptions else {
            unreachable!()
        };
        subscriptions.set_seq(id, seq);
    }

    /// An invalidation ends, and the last one makes the deferred inserts and removes (`mn_itree_inv_end`). It gives the
    /// process's sequence afterwards.
    pub fn end(&mut self) -> u64
        requires active { 1 ≤ self.old.active }
        requires seq { self.old.seq < 2 ^ 63 }
        ensures result { result ≡ seq_ended self.old }
        ensures state { self.new ≡ ended self.old }
    {
        let moves_on = self.active == 1 && is_odd(self.seq);
        self.active -= 1;
        if moves_on {
            self.seq += 1;
            if let Some(subscriptions) = &mut self.subscriptions {
                subscriptions.settle();
            }
        }
        self.seq
    }

    /// The sequence that a look-up begins with, or the one to wait for (`mmu_interval_read_begin`).
    pub fn read_begin(&self, id: MirrorId) -> Begin
        requires { IsSome (interval_at self.now id) }
        ensures { result ≡ begin_of self.now id }
    {
        let seq = seq_of(&self.interval(id));
        if seq == self.seq {
            Begin::Invalidating(seq)
        } else {
            Begin::Ready(seq)
        }
    }

    /// Whether a look-up that began with this sequence has to be repeated (`mmu_interval_read_retry`).
    pub fn retry(&self, id: MirrorId, seq: u64) -> bool
        requires { IsSome (interval_at self.now id) }
        ensures { result ≡ not (interval_seq self.now id == seq) }
    {
        seq_of(&self.interval(id)) != seq
    }

    /// A mirror's interval comes, at once or deferred (`mmu_interval_notifier_insert`). It gives the
    /// interval's sequence.
    pub fn insert(&mut self, id: MirrorId, span: Span) -> u64
        requires absent { interval_at self.old id ≡ None }
        requires room { self.old.room ≡ true }
        ensures result { result ≡ interval_inserted self.old }
        ensures state { self.new ≡ inserted self.old id span }
    {
        let Some(subscriptions) = &mut self.subscriptions else {
            unreachable!()
        };
        if is_odd(self.seq) {
            subscriptions.defer_insert(id, span, self.seq);
            return self.seq;
        }
        let seq = seq_for_insert(self.seq, self.active);
        self.seq += u64::from(self.active > 0);
        subscriptions.insert(id, span, seq);
        seq
    }

    /// A mirror's interval goes, at once or when the sequence moves
    /// (`mmu_interval_notifier_remove`). An insert that is deferred is cancelled.
    pub fn remove(&mut self, id: MirrorId) -> Removal
        requires present { IsTrue (is_present self.old id) }
        requires staying { is_leaving self.old id ≡ false }
        ensures result { result ≡ removal_of self.old id }
        ensures state { self.new ≡ removed self.old id }
    {
        let Some(subscriptions) = &mut self.subscriptions else {
            unreachable!()
        };
        match stage_of(subscriptions.interval(id)) {
            Stage::InTree => {
                if is_odd(self.seq) {
                    subscriptions.defer_remove(id);
                    Removal::WaitFor(self.seq)
                } else {
                    subscriptions.remove(id);
                    Removal::Removed
                }
            }
            _ => {
                subscriptions.cancel(id);
                Removal::Removed
            }
        }
    }

    /// Whether the mirror's interval is in the tree, or its insert is deferred.
    pub fn present(&self, id: MirrorId) -> bool
        ensures { result ≡ is_present self.now id }
    {
        match self.interval(id) {
            Some(interval) => !matches!(interval.stage, Stage::Out),
            None => false,
        }
    }

    /// The process's sequence.
    pub fn seq(&self) -> u64
        ensures { result ≡ self.now.seq }
    {
        self.seq
    }

    /// How many invalidations are under way.
    pub fn active(&self) -> u64
        ensures { result ≡ self.now.active }
    {
        self.active
    }

    /// The interval of a mirror, if it ever had one.
    pub fn interval(&self, id: MirrorId) -> Option<Interval>
        ensures { result ≡ interval_at self.now id }
    {
        match &self.subscriptions {
            Some(subscriptions) => *subscriptions.interval(id),
            None => None,
        }
    }

    /// The sequence of the mirror's interval, which is kept after its removal.
    pub fn interval_seq(&self, id: MirrorId) -> Option<u64>
        ensures { result ≡ option_map (λ (x : AnyInterval). x.seq) (interval_at self.now id) }
    {
        match self.interval(id) {
            Some(interval) => Some(interval.seq),
            None => None,
        }
    }

    /// Whether the mirror's interval is in the tree; one whose removal is deferred is.
    pub fn in_tree(&self, id: MirrorId) -> bool
        ensures { result ≡ in_tree self.now id }
    {
        match self.interval(id) {
            Some(interval) => matches!(interval.stage, Stage::InTree | Stage::RemoveDeferred),
            None => false,
        }
    }

    /// Whether the insert of the mirror's interval is still deferred.
    pub fn deferred(&self, id: MirrorId) -> bool
        ensures { result ≡ insert_deferred self.now id }
    {
        match self.interval(id) {
            Some(interval) => matches!(interval.stage, Stage::InsertDeferred),
            None => false,
        }
    }
}

fn is_odd(seq: u64) -> bool
    ensures { result ≡ is_odd seq }
{
    seq % 2 == 1
}

// The process's sequence after a start.
fn seq_after_start(seq: u64, overlapped: bool) -> u64
    requires { seq < 2 ^ 63 }
    ensures { result ≡ (if overlapped && not (is_odd seq) then seq + 1 else seq) }
{
    if overlapped && !is_odd(seq) {
        seq + 1
    } else {
        seq
    }
}

// The sequence of an interval that comes while the process's is even.
fn seq_for_insert(seq: u64, active: u64) -> u64
    requires even { is_odd seq ≡ false }
    requires least { 2 ≤ seq }
    ensures { result ≡ (if nat_lt 0 active then seq + 1 else (seq - 1)) }
{
    if active > 0 { seq + 1 } else { seq - 1 }
}
