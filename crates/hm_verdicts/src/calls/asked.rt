// What is asked of a callback.
ghost use Rattle.std.specs.Prelude.{◌≡◌, ◌&&◌, nat_lt, is_some, length, option_map};
ghost use Rattle.hm_protocol.specs.Callbacks as callbacks;
ghost use Rattle.hm_protocol.specs.Words as words;
ghost use Rattle.hm_verdicts.specs.Ending.{has_page, left_from};
ghost use Rattle.hm_verdicts.specs.Settled.{is_lasting};

use super::Call;
use crate::slots::Slot;

// Whether one of them is of this page.
fn has_page(slots: &[Slot], page: u64) -> bool
    ensures { result ≡ has_page slots.now page }
{
    slots.iter().any(|slot| slot.page() == page)
}

impl Call {
    /// Whether it has returned, and its invalidation has ended after this position.
    pub(crate) fn is_over_since(&self, last: u64) -> bool
        ensures { result ≡ is_some self.now.after && words.is_after self.now.ended last }
    {
        self.after.is_some() && self.ended.is_some_and(|ended| last < ended)
    }

    /// Whether no migration changes it any more: it has returned, and is of none, or what became of it is known.
    pub(crate) fn is_lasting(&self) -> bool
        ensures { result ≡ is_lasting self.now }
    {
        self.after.is_some() && (self.owner.is_none() || self.stale.is_some())
    }

    /// Whether no other was given its sequence.
    pub(crate) fn is_alone(&self) -> bool
        ensures { result ≡ self.now.alone }
    {
        self.alone
    }

    /// Whether it has erased an entry of its span.
    pub(crate) fn has_erased(&self) -> bool
        ensures { result ≡ self.now.erased }
    {
        self.erased
    }

    /// Whether its span had no entries.
    pub(crate) fn had_none(&self) -> bool
        ensures { result ≡ words.is_empty self.now.had }
    {
        self.had.is_empty()
    }

    /// Whether there were more than so many.
    pub(crate) fn had_more(&self, than: u64) -> bool
        ensures { result ≡ nat_lt than (length self.now.had) }
    {
        than < self.had.len() as u64
    }

    /// Whether it left no entries.
    pub(crate) fn left_none(&self) -> bool
        ensures { result ≡ words.is_empty self.now.left }
    {
        self.left.is_empty()
    }

    /// Whether it left the first page of its span from this page on.
    pub(crate) fn left_from(&self, first: u64) -> bool
        ensures { result ≡ left_from self.now first }
    {
        if self.span.first() < first {
            has_page(&self.left, first)
        } else {
            has_page(&self.left, self.span.first())
        }
    }

    /// Whether all that it left was erased later.
    pub(crate) fn is_late(&self) -> bool
        ensures { result ≡ callbacks.is_late self.now }
    {
        !self.left.is_empty() && self.late == self.left.len() as u64
    }

    /// Whether it is known what became of the pages of its own migration.
    pub(crate) fn is_known(&self) -> bool
        ensures { result ≡ is_some self.now.stale }
    {
        self.stale.is_some()
    }

    /// Whether entries of moved pages outlived the copy.
    pub(crate) fn is_stale(&self) -> bool
        ensures { result ≡ callbacks.is_stale self.now }
    {
        match &self.stale {
            None => false,
            Some(stale) => !stale.0.is_empty(),
        }
    }

    /// Whether they were erased when they were copied, to a device if this is asked.
    pub(crate) fn is_copied(&self, to_device: bool) -> bool
        ensures { result ≡ callbacks.is_copied to_device self.now }
    {
        match &self.stale {
            None => false,
            Some(stale) => 0 < self.copied && stale.0.is_empty() && (!to_device || stale.1),
        }
    }
}

/// Where it returned, if there is one.
pub(crate) fn at(call: Option<&Call>) -> Option<u64>
    ensures { result ≡ option_map (λ x. x.at) (option_map (λ x. x.now) call.entry) }
{
    match call {
        None => None,
        Some(call) => Some(call.at),
    }
}
