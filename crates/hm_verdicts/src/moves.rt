// Migrations of threads.
ghost use Rattle.std.specs.Prelude.{◌≡◌, ◌∷◌, [], ◌==◌, true, false, nat_lt, OnOk, reverse};
ghost use Rattle.std.specs.List.{list_any};
ghost use Rattle.hm_protocol.specs.Known as known;
ghost use Rattle.hm_protocol.specs.Noted as noted;
ghost use Rattle.hm_verdicts.specs.Changes.{is_placing};

mod inner;

use crate::newest_first::NewestFirst;
use crate::pages::overlap;
use hm_base::NoMemory;
use hm_protocol::{TraceFrame, TraceSpan};
pub(crate) use inner::{
    freed_stayed, inner, is_migrated, keeps_lost, leaves_moved, sets, sets_read, sets_stayed,
    unset_stayed,
};
use std::alloc::Global;
use std::marker::Model;

/// A migration of a thread.
#[derive(Drop)]
pub struct Move {
    /// Where its pages were collected.
    at: u64,
    span: TraceSpan,
    to_device: bool,
    /// The pages, and whether for writes.
    source: NewestFirst<(u64, bool)>,
    moved: NewestFirst<u64>,
    stayed: NewestFirst<(u64, TraceFrame)>,
    /// What moved is known.
    paged: bool,
    /// The pages that were set after that.
    set: NewestFirst<u64>,
    freed: NewestFirst<TraceFrame>,
}

impl Model for Move {
    ghost use Rattle.hm_protocol.specs.Known as known;

    ghost Value = { known.Move };

    ghost view = { λ s. record {
      at = s.at;
      span = s.span;
      to_device = s.to_device;
      source = s.source;
      moved = s.moved;
      stayed = s.stayed;
      paged = s.paged;
      set = s.set;
      freed = s.freed;
    } };
}

// Whether one of them is this page.
fn has_page(pages: &[(u64, bool)], page: u64) -> bool
    ensures { result ≡ list_any (λ u. u.0 == page) pages.now }
{
    pages.iter().any(|x| x.0 == page)
}

// Whether a migration has not said what moved, and has pages of the span.
fn some_place(moves: &[Move], span: TraceSpan) -> bool
    ensures { result ≡ list_any (is_placing span) moves.now }
{
    moves.iter().any(|y| y.is_placing(span))
}

// Whether one has collected its pages after this position.
fn some_later(moves: &[Move], at: u64) -> bool
    ensures { result ≡ list_any (λ y. nat_lt at y.at) moves.now }
{
    moves.iter().any(|y| at < y.at())
}

/// The same of migrations that are kept the oldest first.
#[tactic(auto, using(crate::proofs::Reversed::any_reversed))]
pub(crate) fn are_placing(moves: &[Move], span: TraceSpan) -> bool
    ensures { result ≡ list_any (is_placing span) (reverse moves.now) }
{
    some_place(moves, span)
}

/// Whether one of them has collected its pages after this position.
#[tactic(auto, using(crate::proofs::Reversed::any_reversed))]
pub(crate) fn are_later(moves: &[Move], at: u64) -> bool
    ensures { result ≡ list_any (λ y. nat_lt at y.at) (reverse moves.now) }
{
    some_later(moves, at)
}

impl Move {
    /// One that has collected nothing yet.
    pub(crate) fn new(alloc: Global, at: u64, span: TraceSpan, to_device: bool) -> Move
        ensures { result ≡ record {
          at = at;
          span = span;
          to_device = to_device;
          source = [];
          moved = [];
          stayed = [];
          paged = false;
          set = [];
          freed = [];
        } }
    {
        Move {
            at,
            span,
            to_device,
            source: NewestFirst::new(alloc),
            moved: NewestFirst::new(alloc),
            stayed: NewestFirst::new(alloc),
            paged: false,
            set: NewestFirst::new(alloc),
            freed: NewestFirst::new(alloc),
        }
    }

    /// Where its pages were collected.
    pub(crate) fn at(&self) -> u64
        ensures { result ≡ self.now.at }
    {
        self.at
    }

    pub(crate) fn span(&self) -> TraceSpan
        ensures { result ≡ self.now.span }
    {
        self.span
    }

    pub(crate) fn to_device(&self) -> bool
        ensures { result ≡ self.now.to_device }
    {
        self.to_device
    }

    /// Whether what moved is not known, and it has pages of the span.
    pub(crate) fn is_placing(&self, span: TraceSpan) -> bool
        ensures { result ≡ is_placing span self.now }
    {
        !self.paged && overlap(self.span, span)
    }

    /// Whether it has collected the page.
    #[tactic(auto, using(crate::proofs::Reversed::any_reversed))]
    pub(crate) fn has_collected(&self, page: u64) -> bool
        ensures { result ≡ list_any (λ u. u.0 == page) self.now.source }
    {
        has_page(self.source.oldest_first(), page)
    }

    /// It has collected a page.
    pub(crate) fn collect(&mut self, page: u64, writes: bool) -> Result<(), NoMemory>
        ensures { OnOk result (self.new ≡ record self.old { source = (page, writes) ∷ self.old.source }) }
    {
        self.source.push((page, writes))?;
        Ok(())
    }

    /// A page has moved.
    pub(crate) fn move_page(&mut self, page: u64) -> Result<(), NoMemory>
        ensures { OnOk result (self.new ≡ record self.old { moved = page ∷ self.old.moved }) }
    {
        self.moved.push(page)?;
        Ok(())
    }

    /// A page was given a frame, and does not have it.
    pub(crate) fn stay(&mut self, page: u64, frame: TraceFrame) -> Result<(), NoMemory>
        ensures { OnOk result (self.new ≡ record self.old { stayed = (page, frame) ∷ self.old.stayed }) }
    {
        self.stayed.push((page, frame))?;
        Ok(())
    }

    /// What moved is known.
    pub(crate) fn know(&mut self)
        ensures { self.new ≡ record self.old { paged = true } }
    {
        self.paged = true;
    }

    /// A page was set after that.
    pub(crate) fn set_page(&mut self, page: u64) -> Result<(), NoMemory>
        ensures { OnOk result (self.new ≡ record self.old { set = page ∷ self.old.set }) }
    {
        self.set.push(page)?;
        Ok(())
    }

    /// A frame was freed since it began.
    pub(crate) fn free(&mut self, frame: TraceFrame) -> Result<(), NoMemory>
        ensures { OnOk result (self.new ≡ noted.freed frame self.old) }
    {
        self.freed.push(frame)?;
        Ok(())
    }
}
