// Entries of mirrors' tables, with the positions of their `Set`.
ghost use Rattle.std.specs.Prelude.{◌≡◌, ◌&&◌, not, reverse, count_by, filter, IfOk, OnOk};
ghost use Rattle.std.specs.List.{list_any};
ghost use Rattle.hm_protocol.specs.Words as words;
ghost use Rattle.hm_protocol.specs.Words.{drop_if};
ghost use Rattle.hm_protocol.specs.Known.{is_slot, in_span};

use crate::frames::{is_read, is_sole};
use crate::pages::covers;
use hm_base::NoMemory;
use hm_history::TableRight;
use hm_protocol::TraceSpan;
use std::alloc::Global;
use std::marker::Model;

/// An entry of a table, and the position of its `Set`.
#[derive(Clone, Copy)]
pub struct Slot {
    mirror: u64,
    page: u64,
    right: TableRight,
    at: u64,
}

impl Model for Slot {
    ghost use Rattle.hm_protocol.specs.Known as known;

    ghost Value = { known.Slot };

    ghost view = { λ s. record { mirror = s.mirror; page = s.page; right = s.right; at = s.at } };

    ghost inverse = { λ s. record { mirror = s.mirror; page = s.page; right = s.right; at = s.at } };
}

impl Slot {
    pub(crate) fn new(mirror: u64, page: u64, right: TableRight, at: u64) -> Slot
        ensures { result ≡ record { mirror = mirror; page = page; right = right; at = at } }
    {
        Slot {
            mirror,
            page,
            right,
            at,
        }
    }

    pub(crate) fn mirror(&self) -> u64
        ensures { result ≡ self.now.mirror }
    {
        self.mirror
    }

    pub(crate) fn page(&self) -> u64
        ensures { result ≡ self.now.page }
    {
        self.page
    }

    pub(crate) fn right(&self) -> TableRight
        ensures { result ≡ self.now.right }
    {
        self.right
    }

    /// Whether it is that of a mirror's page.
    pub(crate) fn is_at(&self, mirror: u64, page: u64) -> bool
        ensures { result ≡ is_slot mirror page self.now }
    {
        self.mirror == mirror && self.page == page
    }

    /// Whether it lies in a mirror's span.
    pub(crate) fn in_span(&self, mirror: u64, span: TraceSpan) -> bool
        ensures { result ≡ in_span mirror span self.now }
    {
        self.mirror == mirror && covers(span, self.page)
    }
}

/// Whether some entry is that of a mirror's page.
pub(crate) fn has(slots: &[Slot], mirror: u64, page: u64) -> bool
    ensures { result ≡ list_any (is_slot mirror page) slots.now }
{
    slots.iter().any(|slot| slot.is_at(mirror, page))
}

/// The page of a mirror has none.
pub(crate) fn drop_page(slots: &mut Vec<Slot>, mirror: u64, page: u64)
    ensures { slots.new.items ≡ drop_if (is_slot mirror page) slots.old.items }
{
    slots.retain(|slot| !slot.is_at(mirror, page));
}

// Whether some entry of a mirror's span is for reads.
fn some_read(slots: &[Slot], mirror: u64, span: TraceSpan) -> bool
    ensures { result ≡ list_any (λ x. in_span mirror span x && words.is_read x.right) slots.now }
{
    slots
        .iter()
        .any(|slot| slot.in_span(mirror, span) && is_read(slot.right()))
}

// Whether the entry of a page is for one actor.
fn some_sole(slots: &[Slot], mirror: u64, page: u64) -> bool
    ensures { result ≡ list_any (λ x. is_slot mirror page x && words.is_sole x.right) slots.now }
{
    slots
        .iter()
        .any(|slot| slot.is_at(mirror, page) && is_sole(slot.right()))
}

// How many entries of a mirror's span are not for reads.
fn count_writable(slots: &[Slot], mirror: u64, span: TraceSpan) -> u64
    ensures { result ≡ count_by (λ x. in_span mirror span x && not (words.is_read x.right)) slots.now }
{
    slots
        .iter()
        .filter(|slot| slot.in_span(mirror, span) && !is_read(slot.right()))
        .count() as u64
}

/// Whether some entry of a mirror's span is for reads, of entries that are kept the oldest first.
#[tactic(auto, using(crate::proofs::Reversed::any_reversed))]
pub(crate) fn are_read(slots: &[Slot], mirror: u64, span: TraceSpan) -> bool
    ensures { result ≡ list_any (λ x. in_span mirror span x && words.is_read x.right) (reverse slots.now) }
{
    some_read(slots, mirror, span)
}

/// Whether that of a page is for one actor.
#[tactic(auto, using(crate::proofs::Reversed::any_reversed))]
pub(crate) fn are_sole(slots: &[Slot], mirror: u64, page: u64) -> bool
    ensures { result ≡ list_any (λ x. is_slot mirror page x && words.is_sole x.right) (reverse slots.now) }
{
    some_sole(slots, mirror, page)
}

/// How many of a mirror's span are not for reads.
#[tactic(auto, using(crate::proofs::Reversed::count_reversed))]
pub(crate) fn writable(slots: &[Slot], mirror: u64, span: TraceSpan) -> u64
    ensures { result ≡ count_by (λ x. in_span mirror span x && not (words.is_read x.right)) (reverse slots.now) }
{
    count_writable(slots, mirror, span)
}
