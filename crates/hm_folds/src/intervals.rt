// The interval of a mirror, and where it is.
ghost use Rattle.std.specs.Prelude.{◌≡◌, ◌≤◌, ℕ, nat_le, filter, find, is_some, if◌then◌else◌};
ghost use Rattle.hm_history.specs.Memory.Words.{numbers};
ghost use Rattle.hm_history.specs.Memory.Sequences.{interval_passes, in_tree_state, deferred_state, removed_state};
ghost use Rattle.hm_history.specs.Memory.Sequences.{applied, applied_stage, with_seq, with_stage, is_above};
ghost use Rattle.hm_history.specs.Memory.Sequences.{Interval as AnyInterval};
ghost use Rattle.hm_history.specs.Memory.Sequences as stage;
ghost use Rattle.hm_base.specs.Pages.{overlap};
ghost use Rattle.hm_folds.specs.Kept.{interval_of, interval_at, stage_of, overlaps_in, overlaps_at, mirrors_of, seq_in};
ghost use Rattle.hm_folds.specs.Kept.{proc_in};

use hm_base::{MirrorId, Proc, Span};

/// Where an interval is.
#[derive(Clone, Copy)]
pub enum KeptStage {
    InTree,
    InsertDeferred,
    /// It is still in the tree.
    RemoveDeferred,
    /// The deferred removal was made, and its detach has not answered.
    Removed,
    Out,
}

/// A mirror's interval.
#[derive(Clone, Copy)]
pub struct KeptInterval {
    pub proc: Proc,
    pub window: Span,
    pub seq: u64,
    pub stage: KeptStage,
}

/// Whether the interval is in the tree of the process, and overlaps the span.
pub fn overlaps(interval: &Option<KeptInterval>, proc: Proc, span: Span) -> bool
    ensures { result ≡ overlaps_in proc span (interval_of interval.now) }
{
    match interval {
        None => false,
        Some(interval) => {
            stage_in_tree(interval.stage)
                && interval.proc == proc
                && spans_overlap(interval.window, span)
        }
    }
}

fn spans_overlap(one: Span, other: Span) -> bool
    ensures { result ≡ overlap one other }
{
    let first = one.first().number();
    let from = other.first().number();
    first < from + other.count() && from < first + one.count()
}

fn stage_in_tree(stage: KeptStage) -> bool
    ensures { result ≡ in_tree_state (stage_of stage) }
{
    match stage {
        KeptStage::InTree | KeptStage::RemoveDeferred => true,
        KeptStage::InsertDeferred | KeptStage::Removed | KeptStage::Out => false,
    }
}

/// Whether it is in the tree; one whose removal is deferred is.
pub fn is_in_tree(interval: &Option<KeptInterval>) -> bool
    ensures { result ≡ interval_passes (λ (x : AnyInterval). in_tree_state x.stage) (interval_of interval.now) }
{
    match interval {
        None => false,
        Some(interval) => stage_in_tree(interval.stage),
    }
}

/// Whether its insert is deferred.
pub fn is_deferred(interval: &Option<KeptInterval>) -> bool
    ensures { result ≡ interval_passes (λ (x : AnyInterval). deferred_state x.stage) (interval_of interval.now) }
{
    match interval {
        None => false,
        Some(interval) => matches!(interval.stage, KeptStage::InsertDeferred),
    }
}

/// Whether its deferred removal was made.
pub fn is_removed(interval: &Option<KeptInterval>) -> bool
    ensures { result ≡ interval_passes (λ (x : AnyInterval). removed_state x.stage) (interval_of interval.now) }
{
    match interval {
        None => false,
        Some(interval) => matches!(interval.stage, KeptStage::Removed),
    }
}

/// Whether there is one.
pub(crate) fn is_there(interval: &Option<KeptInterval>) -> bool
    ensures { result ≡ is_some (interval_of interval.now) }
{
    interval.is_some()
}

/// Where an interval comes to, by whether its process's sequence is odd.
pub fn first_stage(odd: bool) -> KeptStage
    ensures { stage_of result ≡ (if odd then stage.InsertDeferred else stage.InTree) }
{
    if odd {
        KeptStage::InsertDeferred
    } else {
        KeptStage::InTree
    }
}

/// Its sequence, and 0 if there is none.
pub fn seq_of(interval: &Option<KeptInterval>) -> u64
    ensures { result ≡ seq_in (interval_of interval.now) }
{
    match interval {
        None => 0,
        Some(interval) => interval.seq,
    }
}

/// Its process, and process 0 if there is none.
pub fn proc_of(interval: &Option<KeptInterval>) -> Proc
    ensures { result ≡ proc_in (interval_of interval.now) }
{
    match interval {
        None => Proc::new(0),
        Some(interval) => interval.proc,
    }
}

/// The interval with this sequence.
pub fn with_seq(interval: &Option<KeptInterval>, seq: u64) -> Option<KeptInterval>
    ensures { interval_of result ≡ with_seq seq (interval_of interval.now) }
{
    match interval {
        None => None,
        Some(interval) => Some(KeptInterval { seq, ..*interval }),
    }
}

/// The interval at this stage.
pub fn with_stage(interval: &Option<KeptInterval>, stage: KeptStage) -> Option<KeptInterval>
    ensures { interval_of result ≡ with_stage (stage_of stage) (interval_of interval.now) }
{
    match interval {
        None => None,
        Some(interval) => Some(KeptInterval { stage, ..*interval }),
    }
}

fn applied_stage(stage: KeptStage) -> KeptStage
    ensures { stage_of result ≡ applied_stage (stage_of stage) }
{
    match stage {
        KeptStage::InTree | KeptStage::InsertDeferred => KeptStage::InTree,
        KeptStage::RemoveDeferred | KeptStage::Removed => KeptStage::Removed,
        KeptStage::Out => KeptStage::Out,
    }
}

fn applied(interval: &Option<KeptInterval>, proc: Proc) -> Option<KeptInterval>
    ensures { interval_of result ≡ applied proc (interval_of interval.now) }
{
    match interval {
        None => None,
        Some(interval) => {
            if interval.proc == proc {
                let stage = applied_stage(interval.stage);
                Some(KeptInterval { stage, ..*interval })
            } else {
                Some(*interval)
            }
        }
    }
}

/// The deferred inserts and removes of the process are made.
pub fn apply_all(intervals: &mut [Option<KeptInterval>; 32], proc: Proc)
    ensures { (m : ℕ) → interval_at intervals.new m ≡ applied proc (interval_at intervals.old m) }
{
    for number in 0..32usize {
        intervals[number] = applied(&intervals[number], proc);
    }
}

/// The mirrors whose interval overlaps the span.
pub fn overlapping(intervals: &[Option<KeptInterval>; 32], proc: Proc, span: Span) -> [bool; 32]
    ensures { mirrors_of result ≡ filter (overlaps_at intervals.now proc span) (numbers 0 32) }
{
    let mut set = [false; 32];
    for number in 0..32usize {
        set[number] = overlaps(&intervals[number], proc, span);
    }
    set
}

/// The least mirror above `after` whose interval overlaps the span.
pub fn next_told(
    intervals: &[Option<KeptInterval>; 32],
    proc: Proc,
    span: Span,
    after: Option<MirrorId>,
) -> Option<MirrorId>
    ensures { result ≡ find (is_above after) (filter (overlaps_at intervals.now proc span) (numbers 0 32)) }
{
    for number in first_above(after)..32u32 {
        if overlaps(&intervals[number as usize], proc, span) {
            return Some(MirrorId::new(number));
        }
    }
    None
}

fn first_above(after: Option<MirrorId>) -> u32
    ensures above { (k : ℕ) → is_above after k ≡ nat_le result k }
    ensures below { result ≤ 32 }
{
    match after {
        None => 0,
        Some(mirror) => mirror.number() + 1,
    }
}
