// What is asked of a thread's inner migration; migrations are kept the oldest first.
ghost use Rattle.std.specs.Prelude.{◌≡◌, ◌==◌, true, false, not, reverse, option_map, count_by};
ghost use Rattle.std.specs.List.{list_any};
ghost use Rattle.hm_protocol.specs.Known as known;
ghost use Rattle.hm_protocol.specs.Tests.{is_kept_back, is_migrated_set, keeps_lost};
ghost use Rattle.hm_protocol.specs.Verdicts.{is_unset, of_inner, one_if};
ghost use Rattle.hm_protocol.specs.Words as words;
ghost use Rattle.hm_verdicts.specs.Inner.{first, has_placed};

use super::Move;
use crate::frames::{is_same, is_sole};
use crate::looks::is_noted;
use hm_history::TableRight;
use hm_protocol::TraceFrame;

// Whether one of them is this page.
fn is_among(pages: &[u64], page: u64) -> bool
    ensures { result ≡ list_any (λ u. u == page) pages.now }
{
    pages.iter().any(|u| *u == page)
}

// Whether one of them is of this page.
fn is_stayed(stayed: &[(u64, TraceFrame)], page: u64) -> bool
    ensures { result ≡ list_any (λ u. u.0 == page) stayed.now }
{
    stayed.iter().any(|u| u.0 == page)
}

// Whether the frame is one of these.
fn is_freed(freed: &[TraceFrame], frame: TraceFrame) -> bool
    ensures { result ≡ list_any (words.is_same frame) freed.now }
{
    freed.iter().any(|other| is_same(frame, *other))
}

impl Move {
    // Whether it has moved the page.
    #[tactic(auto, using(crate::proofs::Reversed::any_reversed))]
    fn has_moved(&self, page: u64) -> bool
        ensures { result ≡ list_any (λ u. u == page) self.now.moved }
    {
        is_among(self.moved.oldest_first(), page)
    }

    // Whether it could not move it.
    #[tactic(auto, using(crate::proofs::Reversed::any_reversed))]
    fn has_stayed(&self, page: u64) -> bool
        ensures { result ≡ list_any (λ u. u.0 == page) self.now.stayed }
    {
        is_stayed(self.stayed.oldest_first(), page)
    }

    // Whether it knows what moved, and the page is one of either.
    fn has_placed(&self, page: u64) -> bool
        ensures { result ≡ has_placed page self.now }
    {
        self.paged && (self.has_moved(page) || self.has_stayed(page))
    }

    // Whether it has not set the page.
    #[tactic(auto, using(crate::proofs::Reversed::any_reversed))]
    fn is_unset(&self, page: u64) -> bool
        ensures { result ≡ is_unset self.now page }
    {
        !is_among(self.set.oldest_first(), page)
    }

    // Whether it has not freed the frame.
    #[tactic(auto, using(crate::proofs::Reversed::any_reversed))]
    fn keeps_back(&self, frame: TraceFrame) -> bool
        ensures { result ≡ is_kept_back self.now.freed frame }
    {
        !is_freed(self.freed.oldest_first(), frame)
    }
}

// How many of these pages it has not set.
fn count_unset(of: &Move, stayed: &[(u64, TraceFrame)]) -> u64
    ensures { result ≡ count_by (λ x. is_unset of.now x.0) stayed.now }
{
    stayed.iter().filter(|x| of.is_unset(x.0)).count() as u64
}

// How many of these frames it has not freed.
fn count_kept(of: &Move, stayed: &[(u64, TraceFrame)]) -> u64
    ensures { result ≡ count_by (λ x. not (is_kept_back of.now.freed x.1)) stayed.now }
{
    stayed.iter().filter(|x| !of.keeps_back(x.1)).count() as u64
}

// Whether it has not freed one of these frames.
fn keeps_some(of: &Move, stayed: &[(u64, TraceFrame)]) -> bool
    ensures { result ≡ list_any (λ x. is_kept_back of.now.freed x.1) stayed.now }
{
    stayed.iter().any(|x| of.keeps_back(x.1))
}

// Whether it has not set one of these pages.
fn leaves_some(of: &Move, moved: &[u64]) -> bool
    ensures { result ≡ list_any (is_unset of.now) moved.now }
{
    moved.iter().any(|page| of.is_unset(*page))
}

impl Move {
    // How many pages that stayed it has not set.
    #[tactic(auto, using(crate::proofs::Reversed::count_reversed))]
    fn unset_stayed(&self) -> u64
        ensures { result ≡ count_by (λ x. is_unset self.now x.0) self.now.stayed }
    {
        count_unset(self, self.stayed.oldest_first())
    }

    // Of how many it has freed the frame.
    #[tactic(auto, using(crate::proofs::Reversed::count_reversed))]
    fn freed_stayed(&self) -> u64
        ensures { result ≡ count_by (λ x. not (is_kept_back self.now.freed x.1)) self.now.stayed }
    {
        count_kept(self, self.stayed.oldest_first())
    }

    // Whether it has not freed the frame of one.
    #[tactic(auto, using(crate::proofs::Reversed::any_reversed))]
    fn keeps_lost(&self) -> bool
        ensures { result ≡ list_any (λ x. is_kept_back self.now.freed x.1) self.now.stayed }
    {
        keeps_some(self, self.stayed.oldest_first())
    }

    // Whether it has not set a page that moved.
    #[tactic(auto, using(crate::proofs::Reversed::any_reversed))]
    fn leaves_moved(&self) -> bool
        ensures { result ≡ list_any (is_unset self.now) self.now.moved }
    {
        leaves_some(self, self.moved.oldest_first())
    }

    // Whether what was said last of a page that it collected is this.
    fn has_noted(&self, page: u64, writes: bool) -> bool
        ensures { result ≡ known.is_noted page writes self.now.source }
    {
        is_noted(self.source.oldest_first(), page, writes)
    }
}

/// The inner one.
#[tactic(auto, using(crate::proofs::Inner::last_is_first))]
pub(crate) fn inner(moves: &[Move]) -> Option<&Move>
    ensures { option_map (λ y. y.now) result ≡ first (reverse moves.now) }
{
    moves.last()
}

/// Whether the page is one that it has moved, or could not move.
#[tactic(auto, using(crate::proofs::Inner::inner_migrated))]
pub(crate) fn is_migrated(moves: &[Move], page: u64) -> bool
    ensures { result ≡ known.is_migrated (reverse moves.now) page }
{
    match inner(moves) {
        None => false,
        Some(y) => y.has_placed(page),
    }
}

/// Whether it sets the page.
#[tactic(auto, using(crate::proofs::Inner::inner_set))]
pub(crate) fn sets(moves: &[Move], page: u64, right: TableRight) -> bool
    ensures { result ≡ is_migrated_set (reverse moves.now) (λ y. true) page right }
{
    match inner(moves) {
        None => false,
        Some(y) => !is_sole(right) && y.has_placed(page),
    }
}

/// Whether so it does, and it could not move the page.
#[tactic(auto, using(crate::proofs::Inner::inner_set))]
pub(crate) fn sets_stayed(moves: &[Move], page: u64, right: TableRight) -> bool
    ensures { result ≡ is_migrated_set (reverse moves.now) (λ y. list_any (λ u. u.0 == page) y.stayed) page right }
{
    match inner(moves) {
        None => false,
        Some(y) => !is_sole(right) && y.has_placed(page) && y.has_stayed(page),
    }
}

/// Whether it sets the page, which it has collected for reads.
#[tactic(auto, using(crate::proofs::Inner::inner_set))]
pub(crate) fn sets_read(moves: &[Move], page: u64, right: TableRight) -> bool
    ensures { result ≡ is_migrated_set (reverse moves.now) (λ y. known.is_noted page false y.source) page right }
{
    match inner(moves) {
        None => false,
        Some(y) => !is_sole(right) && y.has_placed(page) && y.has_noted(page, false),
    }
}

/// Whether it is one to a device, and has not freed the frame of a page that stayed.
#[tactic(auto, using(crate::proofs::Inner::inner_lost))]
pub(crate) fn keeps_lost(moves: &[Move]) -> bool
    ensures { result ≡ keeps_lost (reverse moves.now) }
{
    match inner(moves) {
        None => false,
        Some(y) => y.to_device && y.keeps_lost(),
    }
}

/// How many pages that stayed it has not set, if it is one to a device.
#[tactic(auto, using(crate::proofs::Inner::inner_counted))]
pub(crate) fn unset_stayed(moves: &[Move]) -> u64
    ensures { result ≡ of_inner (λ y. count_by (λ x. is_unset y x.0) y.stayed) (reverse moves.now) }
{
    match inner(moves) {
        None => 0,
        Some(y) => { if y.to_device { y.unset_stayed() } else { 0 } }
    }
}

/// Of how many it has freed the frame.
#[tactic(auto, using(crate::proofs::Inner::inner_counted))]
pub(crate) fn freed_stayed(moves: &[Move]) -> u64
    ensures { result ≡ of_inner (λ y. count_by (λ x. not (is_kept_back y.freed x.1)) y.stayed) (reverse moves.now) }
{
    match inner(moves) {
        None => 0,
        Some(y) => { if y.to_device { y.freed_stayed() } else { 0 } }
    }
}

/// 1 if it has not set a page that moved.
#[tactic(auto, using(crate::proofs::Inner::inner_counted))]
pub(crate) fn leaves_moved(moves: &[Move]) -> u64
    ensures { result ≡ of_inner (λ y. one_if (list_any (is_unset y) y.moved)) (reverse moves.now) }
{
    match inner(moves) {
        None => 0,
        Some(y) => {
            if y.to_device && y.leaves_moved() {
                1
            } else {
                0
            }
        }
    }
}
