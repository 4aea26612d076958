// The intervals of a process, and the tree of those that an invalidation is to tell.
ghost use Rattle.std.specs.Prelude.{◌≡◌, map, true, None, OnOk, OnErr};
ghost use Rattle.interval_tree.specs.Intervals.{next_overlapping};
ghost use Rattle.notifier_seq.specs.Sequences.{settled, with_seq, with_stage};
ghost use Rattle.notifier_seq.specs.Kept.{nothing_listed, listed_at, with_listed, listed_with, tree_window, stage_of};
ghost use Rattle.notifier_seq.specs.declared.interval.Stage.TheVariants.{InTree, InsertDeferred, RemoveDeferred, Out};

use crate::interval::{Interval, Settling, Stage, settled, settling_of, with_seq, with_stage};
use hm_base::{MirrorId, NoMemory, Span};
use interval_tree::IntervalTree;
use std::alloc::Global;
use std::marker::Model;

/// What a process has from its first mirror on (`struct mmu_notifier_subscriptions` of mm/mmu_notifier.c): the
/// interval of each mirror by its number.
#[derive(Drop)]
pub struct Subscriptions {
    intervals: [Option<Interval>; 32],
    tree: IntervalTree,
    // Whether an insert or a remove may be deferred.
    deferred: bool,
    // Whether the tree has room for one insert more than are deferred.
    room: bool,
}

impl Model for Subscriptions {
    ghost use Rattle.notifier_seq.specs.Kept.{Listed, IsKept};

    ghost Value = { Listed };

    ghost view = { λ s. record { intervals = s.intervals; room = s.room } };

    ghost invariant = { λ s. IsKept s.intervals s.tree.spans s.tree.spare s.deferred s.room };
}

impl Subscriptions {
    pub(crate) fn new(alloc: Global) -> Subscriptions
        ensures { result ≡ nothing_listed }
    {
        Subscriptions {
            intervals: [None; 32],
            tree: IntervalTree::new(alloc),
            deferred: false,
            room: false,
        }
    }

    /// Makes room for one insert more, deferred or not.
    pub(crate) fn reserve(&mut self) -> Result<(), NoMemory>
        ensures intervals { self.new.intervals ≡ self.old.intervals }
        ensures room { OnOk result (self.new.room ≡ true) }
        ensures same { OnErr result (self.new ≡ self.old) }
    {
        // If some may be deferred they are not counted: there are 32 at most.
        let wanted = if self.deferred { 33 } else { 1 };
        self.tree.reserve(wanted)?;
        self.room = true;
        Ok(())
    }

    /// The interval of a mirror, if it ever had one.
    pub(crate) fn interval(&self, id: MirrorId) -> &Option<Interval>
        ensures { result.now ≡ listed_at self.now id }
    {
        &self.intervals[id.number() as usize]
    }

    /// The least mirror above `after` whose interval is in the tree and overlaps the span.
    pub(crate) fn next_overlapping(&self, span: Span, after: Option<MirrorId>) -> Option<MirrorId>
        ensures { result ≡ next_overlapping (map tree_window self.now.intervals) span after }
    {
        self.tree.next_overlapping(span, after)
    }

    pub(crate) fn set_seq(&mut self, id: MirrorId, seq: u64)
        ensures { self.new ≡ with_listed self.old id (with_seq seq (listed_at self.old id)) }
    {
        let at = id.number() as usize;
        self.intervals[at] = with_seq(&self.intervals[at], seq);
    }

    /// An interval that comes into the tree now.
    pub(crate) fn insert(&mut self, id: MirrorId, window: Span, seq: u64)
        requires absent { listed_at self.old id ≡ None }
        requires room { self.old.room ≡ true }
        ensures { self.new ≡ listed_with self.old id (record { window = window; seq = seq; stage = InTree }) }
    {
        let at = id.number() as usize;
        self.tree.insert_reserved(id, window);
        self.room = false;
        self.intervals[at] = Some(Interval {
            window,
            seq,
            stage: Stage::InTree,
        });
    }

    /// An interval that is to come into the tree.
    pub(crate) fn defer_insert(&mut self, id: MirrorId, window: Span, seq: u64)
        requires absent { listed_at self.old id ≡ None }
        requires room { self.old.room ≡ true }
        ensures { self.new ≡ listed_with self.old id (record { window = window; seq = seq; stage = InsertDeferred }) }
    {
        let at = id.number() as usize;
        self.deferred = true;
        self.room = false;
        self.intervals[at] = Some(Interval {
            window,
            seq,
            stage: Stage::InsertDeferred,
        });
    }

    /// An interval of the tree that goes now.
    pub(crate) fn remove(&mut self, id: MirrorId)
        requires { stage_of (listed_at self.old id) ≡ InTree }
        ensures { self.new ≡ with_listed self.old id (with_stage Out (listed_at self.old id)) }
    {
        let at = id.number() as usize;
        self.tree.remove(id);
        self.intervals[at] = with_stage(&self.intervals[at], Stage::Out);
    }

    /// An interval of the tree that is to go.
    pub(crate) fn defer_remove(&mut self, id: MirrorId)
        requires { stage_of (listed_at self.old id) ≡ InTree }
        ensures { self.new ≡ with_listed self.old id (with_stage RemoveDeferred (listed_at self.old id)) }
    {
        let at = id.number() as usize;
        self.deferred = true;
        self.intervals[at] = with_stage(&self.intervals[at], Stage::RemoveDeferred);
    }

    /// An interval that is not in the tree, and now not to come either.
    pub(crate) fn cancel(&mut self, id: MirrorId)
        requires { tree_window (listed_at self.old id) ≡ None }
        ensures { self.new ≡ with_listed self.old id (with_stage Out (listed_at self.old id)) }
    {
        let at = id.number() as usize;
        self.intervals[at] = with_stage(&self.intervals[at], Stage::Out);
    }

    /// The deferred inserts and removes are made.
    pub(crate) fn settle(&mut self)
        ensures { self.new ≡ record self.old { intervals = map settled self.old.intervals } }
    {
        if self.deferred {
            for number in 0..32u32 {
                self.settle_one(MirrorId::new(number));
            }
            self.deferred = false;
        }
    }

    fn settle_one(&mut self, id: MirrorId)
        ensures { self.new ≡ with_listed self.old id (settled (listed_at self.old id)) }
    {
        let at = id.number() as usize;
        match settling_of(&self.intervals[at]) {
            Settling::Insert(window) => {
                self.tree.insert_reserved(id, window);
                self.intervals[at] = settled(&self.intervals[at]);
            }
            Settling::Remove => {
                self.tree.remove(id);
                self.intervals[at] = settled(&self.intervals[at]);
            }
            Settling::Nothing => (),
        }
    }
}
