// The first callbacks of a trace that are over for good, and bounds of their numbers.
ghost use Rattle.std.specs.Prelude.{◌≡◌, ◌≤◌, ℕ, List, true, false, if◌then◌else◌, nat_lt, drop, map, filter, is_some, IfOk, OnOk};
ghost use Rattle.std.specs.List.{All};
ghost use Rattle.hm_protocol.specs.Words.{is_after};
ghost use Rattle.hm_protocol.specs.Known as known;
ghost use Rattle.hm_verdicts.specs.Settled.{First, IsBelow, IsMark, IsOver, is_lasting, is_settled};
ghost use Rattle.hm_verdicts.specs.Numbers.{positions_in};

use crate::calls::Call;
use crate::flags::Positions;
use crate::newest_first::{Changes, Passes, change_from};
use hm_base::NoMemory;

/// How many of the first callbacks are over, and bounds of their numbers.
#[derive(Clone, Copy)]
pub struct Over {
    pub(crate) count: usize,
    /// Where their invalidations began.
    pub(crate) of: u64,
    /// Where they returned.
    pub(crate) at: u64,
    /// The sequences that they were given.
    pub(crate) seq: u64,
    /// Where their invalidations ended.
    pub(crate) ended: u64,
}

/// The higher of two.
pub(crate) fn higher(a: u64, b: u64) -> u64
    ensures first { a ≤ result }
    ensures second { b ≤ result }
{
    if a < b { b } else { a }
}

// The higher of two, if there is a second.
fn higher_of(a: u64, b: Option<u64>) -> u64
    ensures first { a ≤ result }
    ensures second { is_after b result ≡ false }
{
    match b {
        None => a,
        Some(b) => higher(a, b),
    }
}

impl Over {
    /// None is.
    pub(crate) fn new() -> Over
        ensures { result.count ≡ 0 }
    {
        Over {
            count: 0,
            of: 0,
            at: 0,
            seq: 0,
            ended: 0,
        }
    }

    /// None is known to be.
    pub(crate) fn none(self) -> Over
        ensures { result ≡ record self { count = 0 } }
    {
        Over { count: 0, ..self }
    }

    // So many are, this one too.
    fn with(self, count: usize, call: &Call) -> Over
        requires { is_settled call.now ≡ true }
        ensures many { result.count ≡ count }
        ensures one { IsOver result call.now }
        ensures others { (x : known.Call) → IsOver self x → IsOver result x }
    {
        Over {
            count,
            of: higher_of(self.of, call.of()),
            at: higher(self.at, call.at()),
            seq: higher(self.seq, call.seq()),
            ended: higher_of(self.ended, call.ended()),
        }
    }

    /// Those that are over if an invalidation ends that began there.
    pub(crate) fn before_end(self, begun: u64) -> Over
        ensures { result ≡ (if nat_lt self.of begun then self else record self { count = 0 }) }
    {
        if self.of < begun { self } else { self.none() }
    }
}

/// A sequence, and how many callbacks, of which those of a mirror were given others.
#[derive(Clone, Copy)]
pub(crate) struct Fresh {
    pub seq: u64,
    pub count: usize,
}

/// None returned after this position, if there is one.
#[derive(Drop)]
pub(crate) struct ReturnedBy(pub Option<u64>);

impl Passes<Over> for ReturnedBy {
    ghost use Rattle.std.specs.Prelude.{not};
    ghost use Rattle.hm_protocol.specs.Words.{is_before};

    ghost test = { λ s o. not (is_before s.0 o.at) };

    fn test(&self, over: &Over) -> bool {
        !self.0.is_some_and(|begun| begun < over.at)
    }
}

/// None of their invalidations ended after this position.
#[derive(Drop)]
pub(crate) struct EndedBy(pub u64);

impl Passes<Over> for EndedBy {
    ghost use Rattle.std.specs.Prelude.{not, nat_lt};

    ghost test = { λ s o. not (nat_lt s.0 o.ended) };

    fn test(&self, over: &Over) -> bool {
        !(self.0 < over.ended)
    }
}

/// None was given this sequence, or a higher one.
#[derive(Drop)]
pub(crate) struct BelowSeq(pub u64);

impl Passes<Over> for BelowSeq {
    ghost use Rattle.std.specs.Prelude.{nat_lt};

    ghost test = { λ s o. nat_lt o.seq s.0 };

    fn test(&self, over: &Over) -> bool {
        over.seq < self.0
    }
}

/// The last of some bounds; of no callback, if there are none.
pub(crate) fn latest(marks: &[Over]) -> Over
    ensures { (top : ℕ) (xs : List known.Call) → All (IsMark top xs) marks.now → First (IsOver result) result.count xs }
{
    let count = marks.len();
    if count == 0 {
        Over::new()
    } else {
        marks[count - 1]
    }
}

// Without those of which an invalidation may have begun there or later.
fn drop_late(marks: &mut Vec<Over>, begun: u64)
    ensures { marks.new.items ≡ filter (λ o. nat_lt o.of begun) marks.old.items }
{
    marks.retain(|mark| mark.of < begun);
}

/// The same, if the last of their invalidations began there.
pub(crate) fn drop_from(marks: &mut Vec<Over>, top: u64, begun: u64)
    ensures held { (xs : List known.Call) → All (IsMark top xs) marks.old.items → All (IsMark top xs) marks.new.items }
    ensures before { (xs : List known.Call) → All (IsMark top xs) marks.old.items
        → All (λ o. nat_lt o.of begun ≡ true) marks.new.items }
{
    if begun <= top {
        drop_late(marks, begun);
    }
}

/// The bounds, or the last of these if an invalidation may have begun there or later.
pub(crate) fn earlier(over: Over, marks: &[Over], begun: u64) -> Over
    ensures { (top : ℕ) (xs : List known.Call) → First (IsOver over) over.count xs → All (IsMark top xs) marks.now
        → First (IsOver result) result.count xs }
{
    if begun <= over.of {
        latest(marks)
    } else {
        over
    }
}

/// Goes on while the next callback is over.
pub(crate) fn settle(calls: &[Call], over: Over) -> Over
    requires { First (IsOver over) over.count calls.now }
    ensures { First (IsOver result) result.count calls.now }
{
    let mut over = over;
    while over.count < calls.len() && calls[over.count].is_settled() {
        over = over.with(over.count + 1, &calls[over.count]);
    }
    over
}

/// Goes on while no migration changes the next callback.
pub(crate) fn last_on(calls: &[Call], count: usize) -> usize
    requires { First (λ x. is_lasting x ≡ true) count calls.now }
    ensures { First (λ x. is_lasting x ≡ true) result calls.now }
{
    let mut count = count;
    while count < calls.len() && calls[count].is_lasting() {
        count += 1;
    }
    count
}

/// Goes on while the next callback has returned, and keeps the highest sequence of each mirror.
pub(crate) fn learn(
    calls: &[Call],
    count: usize,
    highest: &mut Positions,
) -> Result<usize, NoMemory>
    requires { First (IsBelow (positions_in highest.old)) count calls.now }
    ensures { IfOk result (λ n. First (IsBelow (positions_in highest.new)) n calls.now) }
{
    let mut count = count;
    while count < calls.len() && calls[count].after().is_some() {
        learn_one(&calls[count], highest)?;
        count += 1;
    }
    Ok(count)
}

// The same of one that has returned.
fn learn_one(call: &Call, highest: &mut Positions) -> Result<(), NoMemory>
    requires { is_some call.now.after ≡ true }
    ensures kept { OnOk result ((x : known.Call) → IsBelow (positions_in highest.old) x → IsBelow (positions_in highest.new) x) }
    ensures one { OnOk result (IsBelow (positions_in highest.new) call.now) }
{
    let mirror = call.mirror();
    let seq = higher(highest.at(mirror), call.seq());
    highest.set(mirror, seq)?;
    Ok(())
}

/// The callbacks from one on.
pub(crate) fn rest(calls: &[Call], from: usize) -> &[Call]
    ensures { result.now ≡ drop from calls.now }
{
    if from <= calls.len() {
        &calls[from..]
    } else {
        &calls[calls.len()..]
    }
}

/// All are changed; those that are over stay as they are.
pub(crate) fn change<C: Changes<Call>>(
    calls: &mut Vec<Call>,
    over: Over,
    how: &C,
) -> Result<Over, NoMemory>
    requires held { First (IsOver over) over.count calls.old.items }
    requires same { First (λ x. C.made how.now x ≡ x) over.count calls.old.items }
    ensures { IfOk result (λ o. (calls.new.items ≡ map (C.made how.now) calls.old.items)
        × First (IsOver o) o.count calls.new.items) }
{
    change_from(calls, over.count, how)?;
    Ok(settle(calls, over))
}
