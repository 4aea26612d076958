// Small sequences, and how they go on by an entry: of a process's sequence counts whether it is odd, of an interval's
// whether it is its process's.
ghost use Rattle.std.specs.Prelude.{◌≡◌, ◌<◌, ◌≤◌, ◌+◌, ℕ, true, false, None, nat_le, length, filter, find};
ghost use Rattle.std.specs.Prelude.{slice_index_or, IfOk};
ghost use Rattle.hm_base.specs.Pages.{Pages};
ghost use Rattle.hm_history.specs.Memory.Words.{numbers};
ghost use Rattle.hm_history.specs.Memory.Sequences.{is_above, sequences_start, sequences_next, interval_seq};
ghost use Rattle.hm_history.specs.Memory.Sequences.{interval_proc};
ghost use Rattle.hm_history.specs.Memory.Sequences.{in_tree, insert_deferred, next_told, seq_started, seq_ended};
ghost use Rattle.hm_history.specs.Memory.Sequences.{interval_inserted, seq_inserted, is_last_end, some_overlap, is_odd};
ghost use Rattle.hm_history.specs.declared.Kind.{Kind as AnyKind};
ghost use Rattle.hm_race_laws.specs.Numbers.{small_of, small_interval};
ghost use Rattle.hm_race_states.specs.SeqBy.{seq_by};
ghost use Rattle.hm_folds.specs.Kept.{interval_of, interval_at, overlaps_at, stage_of, standing};

use hm_base::{MirrorId, NoMemory, Proc, Span};
use hm_folds::intervals::{
    KeptInterval, KeptStage, apply_all, first_stage, is_deferred, is_in_tree, overlaps, proc_of,
    seq_of, with_seq, with_stage,
};
use hm_history::Kind;
use std::alloc::Global;

/// By process whether its sequence is odd, and how many invalidations are under way; by mirror its interval, whose
/// sequence is 3 if it is its process's, and else 1. No interval is kept past the last that is there.
#[derive(Drop)]
pub struct SmallSeqs {
    pub odd: [bool; 32],
    pub active: [u8; 32],
    pub intervals: Vec<Option<KeptInterval>>,
    ghost few: { length intervals.items ≤ 32 },
}

/// What an entry makes of small sequences, before they are made small again.
#[derive(Clone, Copy)]
pub struct Between {
    pub seqs: [u64; 32],
    pub active: [u8; 32],
    pub intervals: [Option<KeptInterval>; 32],
}

fn seq_by(odd: bool) -> u64
    ensures { result ≡ seq_by odd }
{
    if odd { 3 } else { 2 }
}

fn small_of(now: bool) -> u64
    ensures { result ≡ small_of now }
{
    if now { 3 } else { 1 }
}

// Whether a sequence is odd.
fn odd_of(seq: u64) -> bool
    ensures { result ≡ is_odd seq }
{
    seq % 2 == 1
}

// An interval after these sequences of the processes: what counts is whether it has its process's.
fn settled_interval(seqs: &[u64; 32], interval: &Option<KeptInterval>) -> Option<KeptInterval>
    ensures { interval_of result ≡ small_interval (λ p. slice_index_or seqs.now p 2) (interval_of interval.now) }
{
    match interval {
        None => None,
        Some(interval) => {
            let seq = small_of(interval.seq == seqs[interval.proc.number() as usize]);
            Some(KeptInterval { seq, ..*interval })
        }
    }
}

// All intervals after these sequences of the processes.
fn settled_intervals(
    seqs: &[u64; 32],
    intervals: &[Option<KeptInterval>; 32],
) -> [Option<KeptInterval>; 32]
    ensures { (m : ℕ) → interval_at result m
        ≡ small_interval (λ p. slice_index_or seqs.now p 2) (interval_at intervals.now m) }
{
    let mut settled = [None; 32];
    for number in 0..32usize {
        settled[number] = settled_interval(seqs, &intervals[number]);
    }
    settled
}

// The same intervals, with room for all mirrors.
fn copied(intervals: &[Option<KeptInterval>]) -> [Option<KeptInterval>; 32]
    requires { length intervals.now ≤ 32 }
    ensures { (m : ℕ) → interval_at result m ≡ interval_at intervals.now m }
{
    let mut copy = [None; 32];
    for number in 0..intervals.len() {
        copy[number] = intervals[number];
    }
    copy
}

// How many mirrors there are up to the last that has an interval.
fn used(intervals: &[Option<KeptInterval>; 32]) -> usize
    ensures within { result ≤ 32 }
    ensures none { (m : ℕ) → result ≤ m → interval_at intervals.now m ≡ None }
{
    let mut count = 0;
    for number in 0..32usize {
        if intervals[number].is_some() {
            count = number + 1;
        }
    }
    count
}

// The same intervals, up to the last that is there.
fn kept(
    alloc: Global,
    intervals: &[Option<KeptInterval>; 32],
) -> Result<Vec<Option<KeptInterval>>, NoMemory>
    ensures few { IfOk result (λ v. length v.items ≤ 32) }
    ensures same { IfOk result (λ v. (m : ℕ) → interval_at v.items m ≡ interval_at intervals.now m) }
{
    let count = used(intervals);
    Ok(Vec::from_slice(alloc, &intervals[..count])?)
}

/// The interval of a mirror; none past the last that is kept.
pub(crate) fn read(intervals: &[Option<KeptInterval>], number: usize) -> Option<KeptInterval>
    ensures { interval_of result ≡ interval_at intervals.now number }
{
    match intervals.get(number) {
        Some(interval) => *interval,
        None => None,
    }
}

// By process whether its sequence is odd.
fn odd_ones(seqs: &[u64; 32]) -> [bool; 32]
    ensures { (p : ℕ) → slice_index_or result p false ≡ is_odd (slice_index_or seqs.now p 2) }
{
    let mut odd = [false; 32];
    for number in 0..32usize {
        odd[number] = odd_of(seqs[number]);
    }
    odd
}

// The sequences by whether they are odd.
fn seqs_by(odd: &[bool; 32]) -> [u64; 32]
    ensures { (p : ℕ) → slice_index_or result p 2 ≡ seq_by (slice_index_or odd.now p false) }
{
    let mut seqs = [2; 32];
    for number in 0..32usize {
        seqs[number] = seq_by(odd[number]);
    }
    seqs
}

// Whether the interval stays as it is when sequences are made small again.
fn is_steady_at(odd: &[bool; 32], interval: &Option<KeptInterval>) -> bool
    ensures { result ≡ true
        → small_interval (λ p. seq_by (slice_index_or odd.now p false)) (interval_of interval.now)
        ≡ interval_of interval.now }
{
    match interval {
        None => true,
        Some(interval) => {
            let of_process = seq_by(odd[interval.proc.number() as usize]);
            interval.seq == small_of(interval.seq == of_process)
        }
    }
}

// Whether all do.
fn all_steady(odd: &[bool; 32], intervals: &[Option<KeptInterval>]) -> bool
    ensures { result ≡ true → (m : ℕ)
        → small_interval (λ p. seq_by (slice_index_or odd.now p false)) (interval_at intervals.now m)
        ≡ interval_at intervals.now m }
{
    for number in 0..intervals.len() {
        if !is_steady_at(odd, &intervals[number]) {
            return false;
        }
    }
    true
}

// The least number above this mirror's.
fn first_above(after: Option<MirrorId>) -> u32
    ensures { (k : ℕ) → is_above after k ≡ nat_le result k }
{
    match after {
        None => 0,
        Some(mirror) => mirror.number() + 1,
    }
}

// The least mirror above `after` whose interval overlaps the span.
fn next_told(
    intervals: &[Option<KeptInterval>],
    proc: Proc,
    span: Span,
    after: Option<MirrorId>,
) -> Option<MirrorId>
    requires { length intervals.now ≤ 32 }
    ensures { result ≡ find (is_above after) (filter (overlaps_at intervals.now proc span) (numbers 0 32)) }
{
    for number in first_above(after)..intervals.len() as u32 {
        if overlaps(&intervals[number as usize], proc, span) {
            return Some(MirrorId::new(number));
        }
    }
    None
}

impl Between {
    ghost use Rattle.hm_race_states.specs.Small.{between_seqs, kept_seqs, settled};

    /// The small sequences again.
    pub(crate) fn settled(&self, alloc: Global) -> Result<SmallSeqs, NoMemory>
        ensures { IfOk result (λ x. kept_seqs x ≡ settled (between_seqs self.now)) }
    {
        let intervals = kept(alloc, &settled_intervals(&self.seqs, &self.intervals))?;
        Ok(SmallSeqs {
            odd: odd_ones(&self.seqs),
            active: self.active,
            intervals,
        })
    }

    /// The sequence of the mirror's interval, and 0 if it was never attached.
    pub fn interval_seq(&self, mirror: MirrorId) -> u64
        ensures { result ≡ interval_seq (between_seqs self.now) mirror }
    {
        seq_of(&self.intervals[mirror.number() as usize])
    }
}

impl SmallSeqs {
    ghost use Rattle.hm_race_states.specs.Afters.{SeqsTake};
    ghost use Rattle.hm_race_states.specs.Small.{between_seqs, kept_seqs, settled, unguarded};

    /// Before the first entry. It takes no memory.
    pub fn start(alloc: Global) -> SmallSeqs
        ensures { kept_seqs result ≡ sequences_start }
    {
        SmallSeqs {
            odd: [false; 32],
            active: [0; 32],
            intervals: Vec::new(alloc),
        }
    }

    fn interval(&self, mirror: MirrorId) -> Option<KeptInterval>
        ensures { interval_of result ≡ (kept_seqs self.now).interval mirror }
    {
        read(&self.intervals, mirror.number() as usize)
    }

    fn is_odd(&self, proc: Proc) -> bool
        ensures odd { result ≡ is_odd ((kept_seqs self.now).seq proc) }
        ensures seq { (kept_seqs self.now).seq proc ≡ seq_by result }
    {
        self.odd[proc.number() as usize]
    }

    /// The process's sequence: 3 if it is odd, else 2.
    pub fn process_seq(&self, proc: Proc) -> u64
        ensures { result ≡ (kept_seqs self.now).seq proc }
    {
        seq_by(self.is_odd(proc))
    }

    /// How many invalidations of the process are under way.
    pub fn active(&self, proc: Proc) -> u8
        ensures { result ≡ (kept_seqs self.now).active proc }
    {
        self.active[proc.number() as usize]
    }

    /// The sequence of the mirror's interval: 3 if it is its process's, else 1, and 0 if it was never attached.
    pub fn interval_seq(&self, mirror: MirrorId) -> u64
        ensures { result ≡ interval_seq (kept_seqs self.now) mirror }
    {
        seq_of(&self.interval(mirror))
    }

    fn interval_proc(&self, mirror: MirrorId) -> Proc
        ensures { result ≡ interval_proc (kept_seqs self.now) mirror }
    {
        proc_of(&self.interval(mirror))
    }

    /// Whether the mirror's interval is in the tree; one whose removal is deferred is.
    pub fn in_tree(&self, mirror: MirrorId) -> bool
        ensures { result ≡ in_tree (kept_seqs self.now) mirror }
    {
        is_in_tree(&self.interval(mirror))
    }

    /// Whether the insert of the mirror's interval is still deferred.
    pub fn insert_deferred(&self, mirror: MirrorId) -> bool
        ensures { result ≡ insert_deferred (kept_seqs self.now) mirror }
    {
        is_deferred(&self.interval(mirror))
    }

    /// The least mirror above `after` that an invalidation of the span is to tell.
    pub fn next_told(&self, proc: Proc, span: Span, after: Option<MirrorId>) -> Option<MirrorId>
        ensures { result ≡ next_told (kept_seqs self.now) proc span after }
    {
        next_told(&self.intervals, proc, span, after)
    }

    /// Whether an interval in the tree of the process overlaps the span.
    pub fn some_overlap(&self, proc: Proc, span: Span) -> bool
        ensures { result ≡ some_overlap (kept_seqs self.now) proc span }
    {
        self.next_told(proc, span, None).is_some()
    }

    fn is_last_end(&self, proc: Proc) -> bool
        ensures { result ≡ is_last_end (kept_seqs self.now) proc }
    {
        self.active(proc) == 1 && self.is_odd(proc)
    }

    /// The process's sequence after a start over the span.
    pub fn seq_started(&self, proc: Proc, span: Span) -> u64
        ensures { result ≡ seq_started (kept_seqs self.now) proc span }
    {
        if self.is_odd(proc) {
            return 3;
        }
        if self.some_overlap(proc, span) { 3 } else { 2 }
    }

    /// The process's sequence after an end: 4 if it was odd and this is the last.
    pub fn seq_ended(&self, proc: Proc) -> u64
        ensures { result ≡ seq_ended (kept_seqs self.now) proc }
    {
        if self.is_last_end(proc) {
            4
        } else {
            self.process_seq(proc)
        }
    }

    /// The sequence that an interval of the process gets when it is inserted now.
    pub fn interval_inserted(&self, proc: Proc) -> u64
        ensures { result ≡ interval_inserted (kept_seqs self.now) proc }
    {
        if self.is_odd(proc) || self.active(proc) > 0 {
            3
        } else {
            1
        }
    }

    // The process's sequence after an insert.
    fn seq_inserted(&self, proc: Proc) -> u64
        ensures { result ≡ seq_inserted (kept_seqs self.now) proc }
    {
        if self.is_odd(proc) || self.active(proc) > 0 {
            3
        } else {
            2
        }
    }

    /// Whether they stay as they are when they are made small again. It may say no of such as do.
    pub(crate) fn is_steady(&self) -> bool
        ensures { result ≡ true → settled (kept_seqs self.now) ≡ kept_seqs self.now }
    {
        all_steady(&self.odd, &self.intervals)
    }

    // The same, before an entry changes them.
    fn spread(&self) -> Between
        ensures { between_seqs result ≡ kept_seqs self.now }
    {
        Between {
            seqs: seqs_by(&self.odd),
            active: self.active,
            intervals: copied(&self.intervals),
        }
    }

    fn begin(&self, proc: Proc, span: Span) -> Between
        requires { (kept_seqs self.now).active proc < 255 }
        ensures { (a q : ℕ) → between_seqs result
            ≡ unguarded (sequences_next (kept_seqs self.now) a (AnyKind.Start proc span q)) }
    {
        let at = proc.number() as usize;
        let mut next = self.spread();
        next.seqs[at] = self.seq_started(proc, span);
        next.active[at] = self.active(proc) + 1;
        next
    }

    fn tell(&self, mirror: MirrorId) -> Between
        ensures { (a q : ℕ) (r : Pages) → between_seqs result
            ≡ unguarded (sequences_next (kept_seqs self.now) a (AnyKind.Told mirror r q)) }
    {
        let at = mirror.number() as usize;
        let mut next = self.spread();
        let of_process = self.process_seq(self.interval_proc(mirror));
        next.intervals[at] = with_seq(&self.interval(mirror), of_process);
        next
    }

    fn end(&self, proc: Proc) -> Between
        ensures { (a q : ℕ) (r : Pages) → between_seqs result
            ≡ unguarded (sequences_next (kept_seqs self.now) a (AnyKind.End proc r q)) }
    {
        let at = proc.number() as usize;
        let mut next = self.spread();
        next.seqs[at] = self.seq_ended(proc);
        next.active[at] = self.active(proc).saturating_sub(1);
        if self.is_last_end(proc) {
            apply_all(&mut next.intervals, proc);
        }
        next
    }

    fn attach(&self, mirror: MirrorId, proc: Proc, window: Span) -> Between
        ensures { (a d q : ℕ) → between_seqs result
            ≡ unguarded (sequences_next (kept_seqs self.now) a (AnyKind.Attached mirror d proc window q)) }
    {
        let mut next = self.spread();
        next.seqs[proc.number() as usize] = self.seq_inserted(proc);
        next.intervals[mirror.number() as usize] = Some(KeptInterval {
            proc,
            window,
            seq: self.interval_inserted(proc),
            stage: first_stage(self.is_odd(proc)),
        });
        next
    }

    fn stand(&self, mirror: MirrorId, stage: KeptStage) -> Between
        ensures { between_seqs result ≡ standing (kept_seqs self.now) mirror (stage_of stage) }
    {
        let at = mirror.number() as usize;
        let mut next = self.spread();
        next.intervals[at] = with_stage(&self.interval(mirror), stage);
        next
    }

    /// What an entry makes of them.
    pub fn after(&self, kind: &Kind) -> Between
        requires { SeqsTake (kept_seqs self.now) kind.now }
        ensures { (a : ℕ) → between_seqs result ≡ unguarded (sequences_next (kept_seqs self.now) a kind.now) }
    {
        match kind {
            Kind::Start { proc, span, seq: _ } => self.begin(*proc, *span),
            Kind::Told {
                mirror,
                span: _,
                seq: _,
            } => self.tell(*mirror),
            Kind::End {
                proc,
                span: _,
                seq: _,
            } => self.end(*proc),
            Kind::Attached {
                mirror,
                dev: _,
                proc,
                span,
                seq: _,
            } => self.attach(*mirror, *proc, *span),
            Kind::Detaching { mirror, seq: _ } => self.stand(*mirror, KeptStage::RemoveDeferred),
            Kind::Detached(mirror) => self.stand(*mirror, KeptStage::Out),
            _ => self.spread(),
        }
    }
}
