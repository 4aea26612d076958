// Intervals of pages, found by overlap: a balanced search tree with room reserved ahead (lib/interval_tree.c,
// `interval_tree_iter_first`).
#![tactic(auto)]

ghost use Rattle.std.specs.Prelude.{◌≡◌, ◌+◌, ◌-◌, ◌≤◌, ◌<◌, None, Some, IsSome, OnOk, length, slice_set, replicate};
ghost use Rattle.interval_tree.specs.Intervals.{Intervals, IsEnd, span_at, span_overlaps, next_overlapping};

use hm_base::{MirrorId, NoMemory, Page, Span};
use node::{Inner, Interval, Tree, key};
use std::alloc::Global;
use std::marker::Model;

mod node;

/// The windows of mirrors, by their numbers: the interval tree of a process's invalidations
/// (`mmu_notifier_subscriptions` of mm/mmu_notifier.c). An insert and a remove take time in the
/// logarithm of the number of intervals, and a search besides for each interval that overlaps.
#[derive(Drop)]
pub struct IntervalTree {
    spans: [Option<Span>; 32],
    // No number from here on has an interval.
    end: u32,
    tree: Tree,
    // Nodes for later inserts; what is in them says nothing.
    spare: Vec<Box<Inner>>,
    alloc: Global,
}

impl Model for IntervalTree {
    ghost use Rattle.std.specs.Prelude.{length};
    ghost use Rattle.interval_tree.specs.Intervals.{Intervals, IsIndex, IsEnd};

    ghost Value = { Intervals };

    ghost view = { λ t. record { spans = t.spans; spare = length t.spare.items } };

    ghost invariant = { λ t. IsIndex t.spans t.tree.items × IsEnd t.spans t.end };
}

impl IntervalTree {
    /// No interval, and no room: it takes no memory.
    pub fn new(alloc: Global) -> IntervalTree
        ensures { result ≡ record { spans = replicate 32 None; spare = 0 } }
    {
        IntervalTree {
            spans: [None; 32],
            end: 0,
            tree: Tree::new(),
            spare: Vec::new(alloc),
            alloc,
        }
    }

    /// Room for at least n intervals more; after a failure there may be some of it.
    pub fn reserve(&mut self, n: u64) -> Result<(), NoMemory>
        ensures room { OnOk result (n ≤ self.new.spare) }
        ensures spans { self.new.spans ≡ self.old.spans }
        ensures kept { self.old.spare ≤ self.new.spare }
    {
        fill(&mut self.spare, self.alloc, n as usize)
    }

    /// How many inserts have room.
    pub fn spare(&self) -> u64
        ensures { result ≡ self.now.spare }
    {
        self.spare.len() as u64
    }

    /// The interval of this number, if there is one.
    pub fn get(&self, id: MirrorId) -> Option<Span>
        ensures { result ≡ span_at self.now.spans id }
    {
        self.spans[id.number() as usize]
    }

    /// An interval more, in the room that was reserved.
    pub fn insert_reserved(&mut self, id: MirrorId, span: Span)
        requires room { 1 ≤ self.old.spare }
        requires absent { span_at self.old.spans id ≡ None }
        ensures { self.new ≡ record { spans = slice_set self.old.spans id (Some span); spare = self.old.spare - 1 } }
    {
        let at = id.number() as usize;
        let Some(mut node) = self.spare.pop() else {
            unreachable!()
        };
        *node = Inner::alone(id, span);
        self.tree.insert(node);
        self.spans[at] = Some(span);
        self.end = self.end.max(id.number() + 1);
    }

    /// Without the interval of this number, whose node is given back.
    pub fn remove(&mut self, id: MirrorId)
        requires { IsSome (span_at self.old.spans id) }
        ensures { self.new ≡ record { spans = slice_set self.old.spans id None; spare = self.old.spare } }
    {
        let at = id.number() as usize;
        if let Some(span) = self.spans[at] {
            self.tree.remove(key(&Interval { id, span }));
            self.spans[at] = None;
        }
    }

    /// The least number above `after` whose interval overlaps the span.
    pub fn next_overlapping(&self, span: Span, after: Option<MirrorId>) -> Option<MirrorId>
        ensures { result ≡ next_overlapping self.now.spans span after }
    {
        match after {
            None => self.tree.least_overlapping(&span, 0),
            Some(id) => next_above(&self.spans, self.end, span, id),
        }
    }
}

fn overlaps(interval: &Option<Span>, span: Span) -> bool
    ensures { result ≡ span_overlaps span interval.now }
{
    match interval {
        Some(interval) => {
            let (first, of) = (span.first().number(), interval.first().number());
            of < first + span.count() && first < of + interval.count()
        }
        None => false,
    }
}

// The numbers below the end are tried in turn: after one of them another one mostly follows at once.
fn next_above(spans: &[Option<Span>; 32], end: u32, span: Span, after: MirrorId) -> Option<MirrorId>
    requires { IsEnd spans.now end }
    ensures { result ≡ next_overlapping spans.now span (Some after) }
{
    for id in after.number() + 1..end.min(32) {
        if overlaps(&spans[id as usize], span) {
            return Some(MirrorId::new(id));
        }
    }
    None
}

// At least n nodes.
fn fill(spare: &mut Vec<Box<Inner>>, alloc: Global, n: usize) -> Result<(), NoMemory>
    ensures room { OnOk result (n ≤ length spare.new.items) }
    ensures kept { length spare.old.items ≤ length spare.new.items }
{
    for _more in spare.len()..n {
        push_node(spare, alloc)?;
    }
    Ok(())
}

fn push_node(spare: &mut Vec<Box<Inner>>, alloc: Global) -> Result<(), NoMemory>
    ensures more { OnOk result (length spare.new.items ≡ length spare.old.items + 1) }
    ensures kept { length spare.old.items ≤ length spare.new.items }
{
    let blank = Inner::alone(MirrorId::new(0), Span::new(Page::new(0), 1));
    spare.push(Box::new(alloc, blank)?)?;
    Ok(())
}
