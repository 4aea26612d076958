// Callbacks, and what became of the entries of their spans.
ghost use Rattle.std.specs.Prelude.{◌≡◌, ◌+◌, ◌==◌, ◌&&◌, ◌||◌, true, nat_lt, length, is_none, OnOk, IfOk, reverse, filter};
ghost use Rattle.hm_protocol.specs.Words.{is_it};
ghost use Rattle.std.specs.List.{list_any};
ghost use Rattle.hm_protocol.specs.Known as known;
ghost use Rattle.hm_verdicts.specs.Numbers.{values_in};
ghost use Rattle.hm_verdicts.specs.Changes.{own_by, call_with, lost_by, erased_by, returned_by, paged_by};
ghost use Rattle.hm_protocol.specs.Noted.{after_end, after_set};
ghost use Rattle.hm_verdicts.specs.Settled.{is_settled};

mod asked;

use crate::insides::Inside;
use crate::moves::{Move, are_later, are_placing};
use crate::numbered::Numbered;
use crate::pages::overlap;
use crate::slots::{Slot, drop_page, has};
pub(crate) use asked::at;
use hm_base::NoMemory;
use hm_protocol::TraceSpan;
use std::alloc::Global;
use std::marker::Model;

/// A callback.
#[derive(Drop)]
pub struct Call {
    thread: u64,
    mirror: u64,
    span: TraceSpan,
    /// The sequence that it was given.
    seq: u64,
    /// Where its invalidation began.
    of: Option<u64>,
    /// The device whose migration that is for.
    owner: Option<u64>,
    /// Where it ended.
    ended: Option<u64>,
    /// Where it returned, and before that where it began.
    at: u64,
    /// The interval's sequence when it returned.
    after: Option<u64>,
    /// No other callback was given this sequence.
    alone: bool,
    /// The entries of its span when it began.
    had: Vec<Slot>,
    /// Those that are still there.
    here: Vec<Slot>,
    /// Those that were there when it returned.
    left: Vec<Slot>,
    /// It has erased one.
    erased: bool,
    /// How many of the left ones were erased later, and not by a callback.
    late: u64,
    /// The same while its own migration had collected its pages.
    copied: u64,
    /// At the end of that: those of its pages that are there; whether to a device.
    stale: Option<(Vec<Slot>, bool)>,
}

impl Model for Call {
    ghost use Rattle.hm_protocol.specs.Known as known;
    ghost use Rattle.std.specs.Prelude.{option_map};
    ghost use Rattle.hm_verdicts.specs.Changes.{Adds};

    ghost Value = { known.Call };

    ghost view = { λ s. record {
      thread = s.thread;
      mirror = s.mirror;
      span = s.span;
      seq = s.seq;
      of = s.of;
      owner = s.owner;
      ended = s.ended;
      at = s.at;
      after = s.after;
      alone = s.alone;
      had = s.had.items;
      here = s.here.items;
      left = s.left.items;
      erased = s.erased;
      late = s.late;
      copied = s.copied;
      stale = option_map (λ y. (y.0.items, y.1)) s.stale;
    } };

    ghost invariant = { λ s. Adds s.after s.late s.copied s.here.items s.left.items };
}

impl Call {
    /// It begins, in an invalidation of its thread or in none, with these entries in its span.
    pub(crate) fn new(
        alloc: Global,
        thread: u64,
        mirror: u64,
        span: TraceSpan,
        seq: u64,
        within: Option<Inside>,
        at: u64,
        had: Vec<Slot>,
    ) -> Result<Call, NoMemory>
        ensures { IfOk result (λ x. x ≡ call_with thread mirror span seq within at had.items) }
    {
        let here = Vec::from_slice(alloc, &had)?;
        let (of, owner) = match within {
            None => (None, None),
            Some(within) => (Some(within.at()), within.owner()),
        };
        Ok(Call {
            thread,
            mirror,
            span,
            seq,
            of,
            owner,
            ended: None,
            at,
            after: None,
            alone: true,
            had,
            here,
            left: Vec::new(alloc),
            erased: false,
            late: 0,
            copied: 0,
            stale: None,
        })
    }

    pub(crate) fn mirror(&self) -> u64
        ensures { result ≡ self.now.mirror }
    {
        self.mirror
    }

    pub(crate) fn seq(&self) -> u64
        ensures { result ≡ self.now.seq }
    {
        self.seq
    }

    pub(crate) fn span(&self) -> TraceSpan
        ensures { result ≡ self.now.span }
    {
        self.span
    }

    pub(crate) fn of(&self) -> Option<u64>
        ensures { result ≡ self.now.of }
    {
        self.of
    }

    pub(crate) fn ended(&self) -> Option<u64>
        ensures { result ≡ self.now.ended }
    {
        self.ended
    }

    pub(crate) fn at(&self) -> u64
        ensures { result ≡ self.now.at }
    {
        self.at
    }

    pub(crate) fn after(&self) -> Option<u64>
        ensures { result ≡ self.now.after }
    {
        self.after
    }

    /// Whether it is the callback that a thread is in.
    pub(crate) fn is_current(&self, thread: u64, mirror: u64) -> bool
        ensures { result ≡ known.is_current thread mirror self.now }
    {
        self.thread == thread && self.mirror == mirror && self.after.is_none()
    }

    /// Whether its invalidation is under way.
    pub(crate) fn goes_on(&self) -> bool
        ensures { result ≡ known.goes_on self.now }
    {
        self.of.is_some() && self.ended.is_none()
    }

    /// Whether so it is in this mirror, and the callback has returned.
    pub(crate) fn is_telling(&self, mirror: u64) -> bool
        ensures { result ≡ known.is_telling mirror self.now }
    {
        self.mirror == mirror && self.goes_on() && self.after.is_some()
    }

    /// Whether it has returned, its invalidation is not under way, and none of the entries of its span is there.
    pub(crate) fn is_settled(&self) -> bool
        ensures { result ≡ is_settled self.now }
    {
        self.after.is_some() && !self.goes_on() && self.here.is_empty()
    }

    /// Whether it returned, and the interval had another sequence than it was given.
    pub(crate) fn leaves_seq(&self) -> bool
        ensures { result ≡ known.leaves_seq self.now }
    {
        self.after.is_some_and(|after| after != self.seq)
    }

    /// Whether it returned, and the interval had the sequence that it was given.
    pub(crate) fn keeps_seq(&self) -> bool
        ensures { result ≡ is_it self.now.after self.now.seq }
    {
        self.after.is_some_and(|after| after == self.seq)
    }

    /// Whether it was told of a migration by its mirror's own device.
    pub(crate) fn is_own(&self, devices: &Numbered<u64>) -> bool
        ensures { result ≡ own_by (values_in devices.now) self.now }
    {
        match self.owner {
            None => false,
            Some(owner) => match devices.get(self.mirror) {
                None => false,
                Some(device) => *device == owner,
            },
        }
    }

    /// Whether its thread is this, and it has not returned.
    pub(crate) fn is_in(&self, thread: u64) -> bool
        ensures { result ≡ (self.now.thread == thread) && is_none self.now.after }
    {
        self.thread == thread && self.after.is_none()
    }

    // An entry of its span was erased by a thread, which is in a callback or is not.
    fn lose(&mut self, by: &Eraser<'_>)
        requires { is_none self.old.after || nat_lt (self.old.late + self.old.copied + length self.old.here)
            (length self.old.left) ≡ true }
        ensures { self.new ≡ lost_by (values_in by.now.devices.now) by.now.in_callback
            (reverse by.now.moves.now) by.now.thread self.old }
    {
        if self.after.is_none() {
            self.erased = self.erased || self.thread == by.thread;
            return;
        }
        if by.in_callback {
            return;
        }
        if !self.is_own(by.devices) {
            self.late += 1;
            return;
        }
        if self.stale.is_some() || self.thread != by.thread {
            return;
        }
        if are_later(by.moves, self.at) {
            self.copied += 1;
        } else {
            self.late += 1;
        }
    }

    /// The invalidation that began here has ended there.
    pub(crate) fn end(&mut self, begun: u64, at: u64)
        ensures { self.new ≡ after_end begun at self.old }
    {
        if self.of.is_some_and(|of| of == begun) {
            self.ended = Some(at);
        }
    }

    /// Another entry is there.
    pub(crate) fn set_over(&mut self, mirror: u64, page: u64)
        ensures { self.new ≡ after_set mirror page self.old }
    {
        drop_page(&mut self.here, mirror, page);
    }

    /// An entry of a page was erased.
    pub(crate) fn erase(&mut self, by: &Eraser<'_>, mirror: u64, page: u64)
        ensures { self.new ≡ erased_by (values_in by.now.devices.now) by.now.in_callback
            (reverse by.now.moves.now) by.now.thread mirror page self.old }
    {
        if has(&self.here, mirror, page) {
            drop_page(&mut self.here, mirror, page);
            self.lose(by);
        }
    }

    /// It returns at this position, with this sequence; whether no other was given its own, and a migration of the
    /// thread is placing pages there.
    pub(crate) fn return_at(
        &mut self,
        alloc: Global,
        at: u64,
        seq: u64,
        is_alone: bool,
        is_placing: bool,
    ) -> Result<(), NoMemory>
        requires { is_none self.old.after ≡ true }
        ensures { OnOk result (self.new ≡ returned_by at seq is_alone is_placing self.old) }
    {
        let left = Vec::from_slice(alloc, &self.here)?;
        self.at = at;
        self.after = Some(seq);
        self.left = left;
        self.alone = is_alone;
        self.stale = if is_placing {
            Some((Vec::new(alloc), false))
        } else {
            None
        };
        Ok(())
    }

    /// The thread's own migration knows what moved.
    pub(crate) fn know(
        &mut self,
        alloc: Global,
        devices: &Numbered<u64>,
        thread: u64,
        of: &Move,
    ) -> Result<(), NoMemory>
        ensures { OnOk result (self.new ≡ paged_by (values_in devices.now) thread of.now self.old) }
    {
        if self.thread != thread
            || !self.is_own(devices)
            || self.stale.is_some()
            || self.at >= of.at()
            || !overlap(of.span(), self.span)
        {
            return Ok(());
        }
        let stale = collected(alloc, &self.here, of)?;
        self.stale = Some((stale, of.to_device()));
        Ok(())
    }
}

// The entries of pages that the migration has collected.
fn collected(alloc: Global, slots: &[Slot], of: &Move) -> Result<Vec<Slot>, NoMemory>
    ensures { IfOk result
        (λ xs. xs.items ≡ filter (λ s. list_any (λ u. u.0 == s.page) of.now.source) slots.now) }
{
    let kept = slots
        .iter()
        .filter(|slot| of.has_collected(slot.page()))
        .copied()
        .collect(alloc)?;
    Ok(kept)
}

/// Who erases: a thread, which is in a callback or is not, and has these migrations, the oldest first.
#[derive(Drop)]
pub(crate) struct Eraser<'a> {
    pub thread: u64,
    pub in_callback: bool,
    pub devices: &'a Numbered<u64>,
    pub moves: &'a [Move],
}
