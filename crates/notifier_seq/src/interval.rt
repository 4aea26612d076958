// The interval of a mirror, and where it is.
ghost use Rattle.std.specs.Prelude.{◌≡◌, Some};
ghost use Rattle.notifier_seq.specs.Sequences.{settled, with_seq, with_stage};
ghost use Rattle.notifier_seq.specs.Kept.{stage_of, due};
ghost use Rattle.notifier_seq.specs.declared.interval.Interval.{Interval as AnyInterval};

use hm_base::Span;

/// Where an interval is.
#[derive(Clone, Copy)]
pub enum Stage {
    InTree,
    /// It comes into the tree when the sequence moves.
    InsertDeferred,
    /// It is still in the tree, and leaves it when the sequence moves.
    RemoveDeferred,
    Out,
}

/// The window of a mirror, the sequence with which it was last told, and where it is
/// (`struct mmu_interval_notifier` of include/linux/mmu_notifier.h).
#[derive(Clone, Copy)]
pub struct Interval {
    pub window: Span,
    pub seq: u64,
    pub stage: Stage,
}

// What is due of an interval when the sequence moves.
#[derive(Clone, Copy)]
pub enum Settling {
    Insert(Span),
    Remove,
    Nothing,
}

pub fn seq_of(interval: &Option<Interval>) -> u64
    ensures { (x : AnyInterval) → interval.now ≡ Some x → result ≡ x.seq }
{
    match interval {
        Some(interval) => interval.seq,
        None => 0,
    }
}

pub fn stage_of(interval: &Option<Interval>) -> Stage
    ensures { result ≡ stage_of interval.now }
{
    match interval {
        Some(interval) => interval.stage,
        None => Stage::Out,
    }
}

pub fn settling_of(interval: &Option<Interval>) -> Settling
    ensures { result ≡ due interval.now }
{
    match interval {
        Some(interval) => match interval.stage {
            Stage::InTree | Stage::Out => Settling::Nothing,
            Stage::InsertDeferred => Settling::Insert(interval.window),
            Stage::RemoveDeferred => Settling::Remove,
        },
        None => Settling::Nothing,
    }
}

pub fn settled(interval: &Option<Interval>) -> Option<Interval>
    ensures { result ≡ settled interval.now }
{
    match interval {
        Some(interval) => Some(Interval {
            window: interval.window,
            seq: interval.seq,
            stage: match interval.stage {
                Stage::InTree | Stage::InsertDeferred => Stage::InTree,
                Stage::RemoveDeferred | Stage::Out => Stage::Out,
            },
        }),
        None => None,
    }
}

pub fn with_seq(interval: &Option<Interval>, seq: u64) -> Option<Interval>
    ensures { result ≡ with_seq seq interval.now }
{
    match interval {
        Some(interval) => Some(Interval {
            window: interval.window,
            seq,
            stage: interval.stage,
        }),
        None => None,
    }
}

pub fn with_stage(interval: &Option<Interval>, stage: Stage) -> Option<Interval>
    ensures { result ≡ with_stage stage interval.now }
{
    match interval {
        Some(interval) => Some(Interval {
            window: interval.window,
            seq: interval.seq,
            stage,
        }),
        None => None,
    }
}
