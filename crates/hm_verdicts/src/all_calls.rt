// All callbacks, in their order, and what events make of them; some of the first are known to be over.
ghost use Rattle.std.specs.Prelude.{◌≡◌, ◌<◌, true, ◌==◌, ◌&&◌, ◌||◌, not, is_none, OnOk, option_map, length, map, reverse};
ghost use Rattle.std.specs.Prelude.{IfOk, find, count_by, slice_set, slice_index_or};
ghost use Rattle.std.specs.List.{list_any, list_all};
ghost use Rattle.hm_protocol.specs.Words.{drop_if, is_it};
ghost use Rattle.hm_protocol.specs.Known as known;
ghost use Rattle.hm_protocol.specs.Noted.{after_end, after_set, is_past, began};
ghost use Rattle.hm_verdicts.specs.Changes.{erased_by, returned_in, paged_by, paged_in};
ghost use Rattle.hm_verdicts.specs.Asking.{are_over_since};
ghost use Rattle.hm_verdicts.specs.Numbers.{values_in};
ghost use Rattle.hm_verdicts.specs.Settled.{First, IsFresh, IsOver, is_lasting};

use crate::calls::{Call, Eraser};
use crate::looks::Look;
use crate::moves::{Move, are_placing, inner};
use crate::newest_first::{Changes, change_from};
use crate::numbered::Numbered;
use crate::over::{Fresh, Over, change, rest};
use hm_base::NoMemory;
use hm_protocol::TraceSpan;
use std::alloc::Global;

// An invalidation that began and ended there.
#[derive(Drop)]
struct Ended {
    begun: u64,
    at: u64,
}

impl Changes<Call> for Ended {
    ghost made = { λ s. after_end s.begun s.at };

    fn change(&self, call: &mut Call) -> Result<(), NoMemory> {
        call.end(self.begun, self.at);
        Ok(())
    }
}

// A page of a mirror.
#[derive(Drop)]
struct SetOver {
    mirror: u64,
    page: u64,
}

impl Changes<Call> for SetOver {
    ghost made = { λ s. after_set s.mirror s.page };

    fn change(&self, call: &mut Call) -> Result<(), NoMemory> {
        call.set_over(self.mirror, self.page);
        Ok(())
    }
}

// A page of a mirror, and who erases its entry.
#[derive(Drop)]
struct Erased<'a> {
    by: Eraser<'a>,
    mirror: u64,
    page: u64,
}

impl<'a> Changes<Call> for Erased<'a> {
    ghost use Rattle.std.specs.Prelude.{reverse};
    ghost use Rattle.hm_verdicts.specs.Numbers.{values_in};
    ghost use Rattle.hm_verdicts.specs.Changes.{erased_by};

    ghost made = { λ s. erased_by (values_in s.by.devices.now) s.by.in_callback (reverse s.by.moves.now)
        s.by.thread s.mirror s.page };

    fn change(&self, call: &mut Call) -> Result<(), NoMemory> {
        call.erase(&self.by, self.mirror, self.page);
        Ok(())
    }
}

// A migration that knows what moved.
#[derive(Drop)]
struct Paged<'a> {
    alloc: Global,
    devices: &'a Numbered<u64>,
    thread: u64,
    of: &'a Move,
}

impl<'a> Changes<Call> for Paged<'a> {
    ghost use Rattle.hm_verdicts.specs.Numbers.{values_in};
    ghost use Rattle.hm_verdicts.specs.Changes.{paged_by};

    ghost made = { λ s. paged_by (values_in s.devices.now) s.thread s.of.now };

    fn change(&self, call: &mut Call) -> Result<(), NoMemory> {
        call.know(self.alloc, self.devices, self.thread, self.of)
    }
}

/// The invalidation that began there has ended here.
pub(crate) fn end(calls: &mut Vec<Call>, over: Over, begun: u64, at: u64) -> Result<Over, NoMemory>
    requires { First (IsOver over) over.count calls.old.items }
    ensures { IfOk result (λ o. (calls.new.items ≡ map (after_end begun at) calls.old.items)
        × First (IsOver o) o.count calls.new.items) }
{
    change(calls, over.before_end(begun), &Ended { begun, at })
}

/// Another entry is set.
pub(crate) fn set_over(
    calls: &mut Vec<Call>,
    over: Over,
    mirror: u64,
    page: u64,
) -> Result<Over, NoMemory>
    requires { First (IsOver over) over.count calls.old.items }
    ensures { IfOk result (λ o. (calls.new.items ≡ map (after_set mirror page) calls.old.items)
        × First (IsOver o) o.count calls.new.items) }
{
    change(calls, over, &SetOver { mirror, page })
}

/// A thread, which has these migrations, the oldest first, erases the entry of a page.
pub(crate) fn erase(
    calls: &mut Vec<Call>,
    over: Over,
    thread: u64,
    devices: &Numbered<u64>,
    moves: &[Move],
    mirror: u64,
    page: u64,
) -> Result<Over, NoMemory>
    requires { First (IsOver over) over.count calls.old.items }
    ensures { IfOk result (λ o. (calls.new.items ≡ map (erased_by (values_in devices.now)
        (list_any (λ y. (y.thread == thread) && is_none y.after) calls.old.items)
        (reverse moves.now) thread mirror page) calls.old.items)
        × First (IsOver o) o.count calls.new.items) }
{
    let by = Eraser {
        thread,
        in_callback: are_in(rest(calls, over.count), thread),
        devices,
        moves,
    };
    change(calls, over, &Erased { by, mirror, page })
}

// A migration of a thread knows what moved; it changes none of the first.
fn know(
    alloc: Global,
    calls: &mut Vec<Call>,
    lasting: usize,
    devices: &Numbered<u64>,
    thread: u64,
    of: &Move,
) -> Result<(), NoMemory>
    requires { First (λ x. is_lasting x ≡ true) lasting calls.old.items }
    ensures { OnOk result (calls.new.items ≡ map (paged_by (values_in devices.now) thread of.now) calls.old.items) }
{
    change_from(
        calls,
        lasting,
        &Paged {
            alloc,
            devices,
            thread,
            of,
        },
    )
}

/// The inner migration of a thread, of those that are kept the oldest first, knows what moved; none changes the first.
pub(crate) fn know_inner(
    alloc: Global,
    calls: &mut Vec<Call>,
    lasting: usize,
    devices: &Numbered<u64>,
    thread: u64,
    moves: &[Move],
) -> Result<(), NoMemory>
    requires { First (λ x. is_lasting x ≡ true) lasting calls.old.items }
    ensures { OnOk result (calls.new.items
        ≡ paged_in (values_in devices.now) thread (reverse moves.now) calls.old.items) }
{
    match inner(moves) {
        None => Ok(()),
        Some(of) => know(alloc, calls, lasting, devices, thread, of),
    }
}

/// Each callback returns that the thread is in, which has these migrations, the oldest first; its
/// sequence may be fresh.
pub(crate) fn return_all(
    alloc: Global,
    calls: &mut Vec<Call>,
    over: Over,
    fresh: Fresh,
    moves: &[Move],
    thread: u64,
    mirror: u64,
    at: u64,
    seq: u64,
) -> Result<(), NoMemory>
    requires over { First (IsOver over) over.count calls.old.items }
    requires fresh { IsFresh mirror fresh calls.old.items }
    ensures { OnOk result (calls.new.items
        ≡ map (returned_in at seq calls.old.items (reverse moves.now) thread mirror) calls.old.items) }
{
    for number in over.count..calls.len() {
        return_one(alloc, calls, fresh, number, moves, thread, mirror, at, seq)?;
    }
    Ok(())
}

// One of them, if the thread is in it.
fn return_one(
    alloc: Global,
    calls: &mut Vec<Call>,
    fresh: Fresh,
    number: usize,
    moves: &[Move],
    thread: u64,
    mirror: u64,
    at: u64,
    seq: u64,
) -> Result<(), NoMemory>
    requires there { number < length calls.old.items }
    requires fresh { IsFresh mirror fresh calls.old.items }
    ensures { OnOk result ((d : known.Call) → calls.new.items ≡ slice_set calls.old.items number
        (returned_in at seq calls.old.items (reverse moves.now) thread mirror
        (slice_index_or calls.old.items number d))) }
{
    if !calls[number].is_current(thread, mirror) {
        return Ok(());
    }
    let is_alone = given_of(calls, fresh, mirror, calls[number].seq()) == 1;
    let is_placing = are_placing(moves, calls[number].span());
    let call = &mut calls[number];
    call.return_at(alloc, at, seq, is_alone, is_placing)
}

// Whether the thread is in one.
fn are_in(calls: &[Call], thread: u64) -> bool
    ensures { result ≡ list_any (λ y. (y.thread == thread) && is_none y.after) calls.now }
{
    calls.iter().any(|call| call.is_in(thread))
}

/// Whether some has returned in this mirror, and its invalidation is under way.
pub(crate) fn are_telling(calls: &[Call], mirror: u64) -> bool
    ensures { result ≡ list_any (known.is_telling mirror) calls.now }
{
    calls.iter().any(|call| call.is_telling(mirror))
}

/// Whether the mirror is being invalidated, and its interval has that sequence.
pub(crate) fn are_invalidating(calls: &[Call], mirror: u64) -> bool
    ensures { result ≡ list_any (λ x. known.is_telling mirror x && is_it x.after x.seq) calls.now }
{
    calls
        .iter()
        .any(|call| call.is_telling(mirror) && call.keeps_seq())
}

/// Whether some invalidation of the mirror under way has this sequence.
pub(crate) fn are_early(calls: &[Call], mirror: u64, seq: u64) -> bool
    ensures { result ≡ list_any (λ x. known.is_telling mirror x && (x.seq == seq)) calls.now }
{
    calls
        .iter()
        .any(|call| call.is_telling(mirror) && call.seq() == seq)
}

/// Whether some of the mirror has returned, and its invalidation has ended after this position.
pub(crate) fn are_over_since(calls: &[Call], mirror: u64, last: u64) -> bool
    ensures { result ≡ are_over_since mirror last calls.now }
{
    calls
        .iter()
        .any(|call| call.mirror() == mirror && call.is_over_since(last))
}

// How many of the mirror were given this sequence.
fn given(calls: &[Call], mirror: u64, seq: u64) -> usize
    ensures { result ≡ count_by (λ y. (y.mirror == mirror) && (y.seq == seq)) calls.now }
{
    calls
        .iter()
        .filter(|call| call.mirror() == mirror && call.seq() == seq)
        .count()
}

// The same, if none of the first was given a fresh one.
fn given_of(calls: &[Call], fresh: Fresh, mirror: u64, seq: u64) -> usize
    requires { IsFresh mirror fresh calls.now }
    ensures { result ≡ count_by (λ y. (y.mirror == mirror) && (y.seq == seq)) calls.now }
{
    if seq == fresh.seq {
        given(rest(calls, fresh.count), mirror, seq)
    } else {
        given(calls, mirror, seq)
    }
}

/// Where the invalidation began of the callback that the thread is in; none if it is in none.
pub(crate) fn begun(calls: &[Call], thread: u64, mirror: u64) -> Option<u64>
    ensures { result ≡ began (find (known.is_current thread mirror) calls.now) }
{
    match current(calls, thread, mirror) {
        None => None,
        Some(call) => call.of(),
    }
}

/// The sequence that it was given.
pub(crate) fn given_seq(calls: &[Call], thread: u64, mirror: u64) -> Option<u64>
    ensures { result ≡ option_map (λ x. x.seq) (find (known.is_current thread mirror) calls.now) }
{
    match current(calls, thread, mirror) {
        None => None,
        Some(call) => Some(call.seq()),
    }
}

// The callback that the thread is in.
fn current(calls: &[Call], thread: u64, mirror: u64) -> Option<&Call>
    ensures { option_map (λ x. x.now) result ≡ find (known.is_current thread mirror) calls.now }
{
    calls.iter().find(|call| call.is_current(thread, mirror))
}

/// The callback that the thread is in was none.
pub(crate) fn drop_current(calls: &mut Vec<Call>, thread: u64, mirror: u64)
    ensures { calls.new.items ≡ drop_if (known.is_current thread mirror) calls.old.items }
{
    calls.retain(|call| !call.is_current(thread, mirror));
}

/// Whether the look-up meets some callback.
pub(crate) fn are_met(calls: &[Call], mirror: u64, look: &Look) -> bool
    ensures { result ≡ list_any (known.meets look.now mirror) calls.now }
{
    calls.iter().any(|call| look.meets(mirror, call))
}

/// Whether it meets one whose invalidation is under way.
pub(crate) fn are_met_under_way(calls: &[Call], mirror: u64, look: &Look) -> bool
    ensures { result ≡ list_any (λ x. known.meets look.now mirror x && known.goes_on x) calls.now }
{
    calls
        .iter()
        .any(|call| look.meets(mirror, call) && call.goes_on())
}

/// Whether each that it meets was over when its last walk ended.
pub(crate) fn are_past(calls: &[Call], mirror: u64, look: &Look) -> bool
    ensures { result ≡ list_all (λ x. not (known.meets look.now mirror x) || is_past look.now x) calls.now }
{
    calls
        .iter()
        .all(|call| !look.meets(mirror, call) || look.is_past(call))
}
