// A balanced search tree of intervals, in the order of their first pages, each node with the greatest
// end below it (the interval tree of include/linux/interval_tree_generic.h, balanced by height).
ghost use Rattle.std.specs.Prelude.{◌≡◌, ◌+◌, ◌*◌, ◌^◌, ◌<◌, ◌≤◌, max, length, List, [], ◌∷◌, ◌++◌, MatchOption, None};
ghost use Rattle.std.specs.Prelude.{Some};
ghost use Rattle.interval_tree.specs.Items.{key, upto, IsSorted, LacksKey, with_interval, without_key, top_of, lesser};
ghost use Rattle.interval_tree.specs.Items.{id_if, is_wanted, least_id};
ghost use Rattle.interval_tree.specs.Shape.{nothing, DifferByAtMost, IsHeightOver};
ghost use Rattle.interval_tree.specs.Avl.{shape_of, items_of, IsAvl};

use hm_base::{MirrorId, Span};
use std::marker::Model;
use std::mem;

/// The window of a mirror.
#[derive(Clone, Copy)]
pub struct Interval {
    pub id: MirrorId,
    pub span: Span,
}

#[cycle(tree)]
#[derive(Drop)]
pub struct Tree {
    node: Node,
}

#[cycle(tree)]
#[derive(Drop)]
enum Node {
    Leaf,
    Fork(Box<Inner>),
}

// The height counts the nodes of the longest path, and `top` is the greatest end of an interval.
#[cycle(tree)]
#[derive(Drop)]
pub struct Inner {
    interval: Interval,
    left: Tree,
    right: Tree,
    height: u64,
    top: u64,
}

impl Model for Tree {
    ghost use Rattle.std.specs.Prelude.{length};
    ghost use Rattle.interval_tree.specs.Shape.{Shape};

    ghost Value = { Shape };

    ghost use Rattle.interval_tree.specs.Avl.{shape_of, IsAvl};

    ghost view = { λ t. shape_of t.node };

    ghost invariant = { λ t. IsAvl t.node };

    ghost size = { λ s. length s.items };

    ghost use Rattle.std.proofs.Common.{arith, length-append};

    ghost size_decreases = { λ a h. Prim.grind (arith, length-append) };
}

/// The interval's place in the order.
pub(crate) fn key(interval: &Interval) -> u64
    ensures { result ≡ key interval.now }
{
    interval.span.first().number() * 32 + u64::from(interval.id.number())
}

fn upto(interval: &Interval) -> u64
    ensures { result ≡ upto interval.now }
{
    interval.span.first().number() + interval.span.count()
}

impl Tree {
    pub(crate) fn new() -> Tree
        ensures { result ≡ nothing }
    {
        Tree { node: Node::Leaf }
    }

    /// How many nodes the longest path has.
    pub(crate) fn height(&self) -> u64
        ensures height { result ≡ self.now.height }
        ensures few { self.now.height ≤ length self.now.items }
    {
        match &self.node {
            Node::Leaf => 0,
            Node::Fork(inner) => inner.height,
        }
    }

    fn top(&self) -> u64
        ensures { result ≡ top_of self.now.items }
    {
        match &self.node {
            Node::Leaf => 0,
            Node::Fork(inner) => inner.top,
        }
    }

    // The node, out of the tree, which is then empty.
    fn take(&mut self) -> Node
        ensures shape { shape_of result ≡ self.old }
        ensures balanced { IsAvl result }
        ensures empty { self.new ≡ nothing }
    {
        mem::replace(&mut self.node, Node::Leaf)
    }

    // A tree of a node whose sides are balanced.
    fn closed(mut inner: Box<Inner>) -> Tree
        requires sorted { IsSorted (items_of inner.value) }
        requires sides { DifferByAtMost 1 inner.value.left.height inner.value.right.height }
        requires few { length (items_of inner.value) < 2 ^ 60 }
        ensures items { result.items ≡ items_of inner.value }
        ensures height { result.height ≡ max inner.value.left.height inner.value.right.height + 1 }
    {
        let node = &mut *inner;
        node.height = node.left.height().max(node.right.height()) + 1;
        node.top = node
            .left
            .top()
            .max(upto(&node.interval))
            .max(node.right.top());
        Tree {
            node: Node::Fork(inner),
        }
    }

    /// One interval more, in a node without sides. No interval of the tree has its key.
    pub(crate) fn insert(&mut self, new: Box<Inner>)
        requires number { new.value.interval.id < 32 }
        requires alone { (new.value.left ≡ nothing) × (new.value.right ≡ nothing) }
        requires lacks { LacksKey (key new.value.interval) self.old.items }
        requires few { length self.old.items < 2 ^ 50 }
        ensures items { self.new.items ≡ with_interval new.value.interval self.old.items }
        ensures not_lower { self.old.height ≤ self.new.height }
        ensures at_most_one_higher { self.new.height ≤ self.old.height + 1 }
    {
        match self.take() {
            Node::Leaf => *self = Tree::closed(new),
            Node::Fork(mut inner) => {
                if key(&new.interval) < key(&inner.interval) {
                    inner.left.insert(new);
                    *self = rebalanced(inner);
                } else {
                    inner.right.insert(new);
                    *self = rebalanced(inner);
                }
            }
        }
    }

    /// Without the interval of this key.
    pub(crate) fn remove(&mut self, at: u64)
        requires { length self.old.items < 2 ^ 50 }
        ensures items { self.new.items ≡ without_key at self.old.items }
        ensures not_higher { self.new.height ≤ self.old.height }
        ensures at_most_one_lower { self.old.height ≤ self.new.height + 1 }
    {
        match self.take() {
            Node::Leaf => (),
            Node::Fork(mut inner) => {
                let here = key(&inner.interval);
                if at < here {
                    inner.left.remove(at);
                    *self = rebalanced(inner);
                } else if here < at {
                    inner.right.remove(at);
                    *self = rebalanced(inner);
                } else {
                    let (left, right) = inner.take_sides();
                    *self = joined(left, right);
                }
            }
        }
    }

    // The node of the first interval, out of the tree; None if there is none.
    fn take_first(&mut self) -> Option<Box<Inner>>
        requires { length self.old.items < 2 ^ 50 }
        ensures first { MatchOption result ((self.old.items ≡ []) × (self.new ≡ self.old))
            (λ first. self.old.items ≡ first.value.interval ∷ self.new.items) }
        ensures not_higher { self.new.height ≤ self.old.height }
        ensures at_most_one_lower { self.old.height ≤ self.new.height + 1 }
    {
        match self.take() {
            Node::Leaf => None,
            Node::Fork(mut inner) => match inner.left.take_first() {
                Some(first) => {
                    *self = rebalanced(inner);
                    Some(first)
                }
                None => {
                    mem::swap(self, &mut inner.right);
                    Some(inner)
                }
            },
        }
    }

    /// The least number, not below one, of an interval that overlaps the span.
    pub(crate) fn least_overlapping(&self, span: &Span, from: u32) -> Option<MirrorId>
        ensures { result ≡ least_id (is_wanted span.now from) self.now.items }
    {
        match &self.node {
            Node::Leaf => None,
            Node::Fork(inner) => {
                if inner.top <= span.first().number() {
                    return None;
                }
                let left = inner.left.least_overlapping(span, from);
                if span.first().number() + span.count() <= inner.interval.span.first().number() {
                    return left;
                }
                let own = id_if_wanted(&inner.interval, span, from);
                lesser(lesser(left, own), inner.right.least_overlapping(span, from))
            }
        }
    }
}

impl Inner {
    /// A node without sides.
    pub(crate) fn alone(id: MirrorId, span: Span) -> Inner
        ensures interval { result.interval ≡ record { id = id; span = span } }
        ensures sides { (result.left ≡ nothing) × (result.right ≡ nothing) }
    {
        Inner {
            interval: Interval { id, span },
            left: Tree::new(),
            right: Tree::new(),
            height: 1,
            top: span.first().number() + span.count(),
        }
    }

    fn take_sides(&mut self) -> (Tree, Tree)
        ensures left { result.0 ≡ self.old.left }
        ensures right { result.1 ≡ self.old.right }
    {
        (
            mem::replace(&mut self.left, Tree::new()),
            mem::replace(&mut self.right, Tree::new()),
        )
    }
}

fn id_if_wanted(interval: &Interval, span: &Span, from: u32) -> Option<MirrorId>
    ensures { result ≡ id_if (is_wanted span.now from interval.now) interval.now.id }
{
    let first = interval.span.first().number();
    let wanted = from <= interval.id.number()
        && first < span.first().number() + span.count()
        && span.first().number() < upto(interval);
    if wanted { Some(interval.id) } else { None }
}

fn lesser(one: Option<MirrorId>, other: Option<MirrorId>) -> Option<MirrorId>
    ensures { result ≡ lesser one other }
{
    match (one, other) {
        (None, other) => other,
        (Some(id), None) => Some(id),
        (Some(id), Some(than)) => {
            if id.number() <= than.number() {
                Some(id)
            } else {
                Some(than)
            }
        }
    }
}

// The trees as one, all of the first before all of the second.
fn joined(left: Tree, mut right: Tree) -> Tree
    requires sorted { IsSorted (left.items ++ right.items) }
    requires sides { DifferByAtMost 1 left.height right.height }
    requires left_few { length left.items < 2 ^ 50 }
    requires right_few { length right.items < 2 ^ 50 }
    ensures items { result.items ≡ left.items ++ right.items }
    ensures not_lower { max left.height right.height ≤ result.height }
    ensures at_most_one_higher { result.height ≤ max left.height right.height + 1 }
{
    match right.take_first() {
        None => left,
        Some(mut first) => {
            first.left = left;
            first.right = right;
            rebalanced(first)
        }
    }
}

// A tree of a node whose sides differ by at most two in height.
fn rebalanced(inner: Box<Inner>) -> Tree
    requires sorted { IsSorted (items_of inner.value) }
    requires sides { DifferByAtMost 2 inner.value.left.height inner.value.right.height }
    requires few { length (items_of inner.value) < 2 ^ 60 }
    ensures items { result.items ≡ items_of inner.value }
    ensures height { IsHeightOver inner.value.left.height inner.value.right.height result.height }
{
    let (left, right) = (inner.left.height(), inner.right.height());
    if left > right + 1 {
        lean_left(inner)
    } else if right > left + 1 {
        lean_right(inner)
    } else {
        Tree::closed(inner)
    }
}

// The left side is two higher: its node comes up, or the node between the two.
fn lean_left(mut inner: Box<Inner>) -> Tree
    requires sorted { IsSorted (items_of inner.value) }
    requires two_higher { inner.value.left.height ≡ inner.value.right.height + 2 }
    requires few { length (items_of inner.value) < 2 ^ 60 }
    ensures items { result.items ≡ items_of inner.value }
    ensures not_lower { inner.value.left.height ≤ result.height }
    ensures at_most_one_higher { result.height ≤ inner.value.left.height + 1 }
{
    let Node::Fork(mut left) = inner.left.take() else {
        unreachable!()
    };
    if left.left.height() >= left.right.height() {
        mem::swap(&mut inner.left, &mut left.right);
        left.right = Tree::closed(inner);
        return Tree::closed(left);
    }
    let Node::Fork(mut middle) = left.right.take() else {
        unreachable!()
    };
    mem::swap(&mut left.right, &mut middle.left);
    mem::swap(&mut inner.left, &mut middle.right);
    middle.left = Tree::closed(left);
    middle.right = Tree::closed(inner);
    Tree::closed(middle)
}

// The right side is two higher, and the same the other way round.
fn lean_right(mut inner: Box<Inner>) -> Tree
    requires sorted { IsSorted (items_of inner.value) }
    requires two_higher { inner.value.right.height ≡ inner.value.left.height + 2 }
    requires few { length (items_of inner.value) < 2 ^ 60 }
    ensures items { result.items ≡ items_of inner.value }
    ensures not_lower { inner.value.right.height ≤ result.height }
    ensures at_most_one_higher { result.height ≤ inner.value.right.height + 1 }
{
    let Node::Fork(mut right) = inner.right.take() else {
        unreachable!()
    };
    if right.right.height() >= right.left.height() {
        mem::swap(&mut inner.right, &mut right.left);
        right.left = Tree::closed(inner);
        return Tree::closed(right);
    }
    let Node::Fork(mut middle) = right.left.take() else {
        unreachable!()
    };
    mem::swap(&mut right.left, &mut middle.right);
    mem::swap(&mut inner.right, &mut middle.left);
    middle.right = Tree::closed(right);
    middle.left = Tree::closed(inner);
    Tree::closed(middle)
}
