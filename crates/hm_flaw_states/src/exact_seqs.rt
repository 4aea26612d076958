// The sequences of processes and of mirrors' intervals, kept exactly, and how they go on by an entry.
ghost use Rattle.std.specs.Prelude.{◌≡◌, ◌+◌, ◌<◌, ℕ, None, slice_index_or, option_map, IfOk};
ghost use Rattle.hm_base.specs.Pages.{Pages};
ghost use Rattle.hm_history.specs.Memory.Sequences.{Interval, sequences_start, sequences_next, interval_seq, in_tree};
ghost use Rattle.hm_history.specs.Memory.Sequences.{interval_proc, insert_deferred, next_told, seq_started, seq_ended};
ghost use Rattle.hm_history.specs.Memory.Sequences.{interval_inserted, seq_inserted, is_last_end, some_overlap, is_odd};
ghost use Rattle.hm_history.specs.Memory.Sequences.{interval_passes, intervals_ended, overlapping, overlaps};
ghost use Rattle.hm_history.specs.Memory.Sequences.{removed_state};
ghost use Rattle.hm_history.specs.declared.Kind.{Kind as AnyKind};
ghost use Rattle.hm_folds.specs.Kept.{interval_of, interval_at, mirrors_of, standing, stage_of};
ghost use Rattle.hm_race_states.specs.Small.{unguarded};
ghost use Rattle.hm_flaw_states.specs.Exact.{exact_in, IsPaced};

use hm_base::{MirrorId, NoMemory, Proc, Span};
use hm_folds::intervals::{
    KeptInterval, KeptStage, apply_all, first_stage, is_deferred, is_in_tree, is_removed,
    next_told, overlapping, overlaps, proc_of, seq_of, with_seq, with_stage,
};
use hm_history::Kind;
use std::alloc::Global;
use std::rc::Rc;

/// By process its sequence, and how many invalidations are under way; by mirror its interval.
#[derive(Clone, Copy)]
pub struct ExactParts {
    pub seqs: [u64; 32],
    pub active: [u64; 32],
    pub intervals: [Option<KeptInterval>; 32],
}

/// The same, if each sequence can be raised once more.
#[derive(Drop)]
pub struct ExactSeqs {
    pub kept: ExactParts,
    ghost below: { (p : ℕ) → slice_index_or kept.seqs p 2 < 18446744073709551615 },
}

fn seq_at(seqs: &[u64; 32], proc: Proc) -> u64
    ensures { result ≡ slice_index_or seqs.now proc 2 }
{
    seqs[proc.number() as usize]
}

impl ExactSeqs {
    /// Before the first entry.
    pub fn start() -> ExactSeqs
        ensures { exact_in result.kept ≡ sequences_start }
    {
        ExactSeqs {
            kept: ExactParts {
                seqs: [2; 32],
                active: [0; 32],
                intervals: [None; 32],
            },
        }
    }

    /// Costs nothing: it hands the prover that each sequence can be raised by one.
    pub fn facts(&self)
        ensures { (p : ℕ) → (exact_in self.now.kept).seq p < 18446744073709551615 }
    {
        let _ = &self.kept;
    }

    fn copied(&self) -> ExactParts
        ensures { result ≡ self.now.kept }
    {
        self.kept
    }

    fn interval(&self, mirror: MirrorId) -> Option<KeptInterval>
        ensures { interval_of result ≡ (exact_in self.now.kept).interval mirror }
    {
        self.kept.intervals[mirror.number() as usize]
    }

    /// The process of the mirror's interval; none if it has no interval.
    pub fn owner(&self, mirror: MirrorId) -> Option<Proc>
        ensures { result ≡ option_map (λ (x : Interval). x.proc) ((exact_in self.now.kept).interval mirror) }
    {
        match self.interval(mirror) {
            None => None,
            Some(interval) => Some(interval.proc),
        }
    }

    /// The window of the mirror's interval; none if it has no interval.
    pub(crate) fn window(&self, mirror: MirrorId) -> Option<Span>
        ensures { result ≡ option_map (λ (x : Interval). x.window) ((exact_in self.now.kept).interval mirror) }
    {
        match self.interval(mirror) {
            None => None,
            Some(interval) => Some(interval.window),
        }
    }

    /// The process's sequence.
    pub fn process_seq(&self, proc: Proc) -> u64
        ensures same { result ≡ (exact_in self.now.kept).seq proc }
        ensures below { result < 18446744073709551615 }
    {
        seq_at(&self.kept.seqs, proc)
    }

    fn is_odd(&self, proc: Proc) -> bool
        ensures { result ≡ is_odd ((exact_in self.now.kept).seq proc) }
    {
        self.process_seq(proc) % 2 == 1
    }

    fn active(&self, proc: Proc) -> u64
        ensures { result ≡ (exact_in self.now.kept).active proc }
    {
        self.kept.active[proc.number() as usize]
    }

    /// The sequence of the mirror's interval, and 0 if it was never attached.
    pub fn interval_seq(&self, mirror: MirrorId) -> u64
        ensures { result ≡ interval_seq (exact_in self.now.kept) mirror }
    {
        seq_of(&self.interval(mirror))
    }

    fn interval_proc(&self, mirror: MirrorId) -> Proc
        ensures { result ≡ interval_proc (exact_in self.now.kept) mirror }
    {
        proc_of(&self.interval(mirror))
    }

    /// Whether the mirror's interval is in the tree; one whose removal is deferred is.
    pub fn in_tree(&self, mirror: MirrorId) -> bool
        ensures { result ≡ in_tree (exact_in self.now.kept) mirror }
    {
        is_in_tree(&self.interval(mirror))
    }

    /// Whether the insert of the mirror's interval is still deferred.
    pub fn insert_deferred(&self, mirror: MirrorId) -> bool
        ensures { result ≡ insert_deferred (exact_in self.now.kept) mirror }
    {
        is_deferred(&self.interval(mirror))
    }

    /// Whether the deferred removal of the mirror's interval was made.
    pub(crate) fn is_removed(&self, mirror: MirrorId) -> bool
        ensures { result
            ≡ interval_passes (λ (x : Interval). removed_state x.stage) ((exact_in self.now.kept).interval mirror) }
    {
        is_removed(&self.interval(mirror))
    }

    /// Whether the mirror's interval is in the tree of the process, and overlaps the span.
    pub(crate) fn overlaps(&self, mirror: MirrorId, proc: Proc, span: Span) -> bool
        ensures { result ≡ overlaps (exact_in self.now.kept) proc span mirror }
    {
        overlaps(&self.interval(mirror), proc, span)
    }

    /// The mirrors whose interval overlaps the span.
    pub(crate) fn overlapping(&self, proc: Proc, span: Span) -> [bool; 32]
        ensures { mirrors_of result ≡ overlapping (exact_in self.now.kept) proc span }
    {
        overlapping(&self.kept.intervals, proc, span)
    }

    /// The least mirror above `after` that an invalidation of the span is to tell.
    pub fn next_told(&self, proc: Proc, span: Span, after: Option<MirrorId>) -> Option<MirrorId>
        ensures { result ≡ next_told (exact_in self.now.kept) proc span after }
    {
        next_told(&self.kept.intervals, proc, span, after)
    }

    fn some_overlap(&self, proc: Proc, span: Span) -> bool
        ensures { result ≡ some_overlap (exact_in self.now.kept) proc span }
    {
        self.next_told(proc, span, None).is_some()
    }

    fn is_last_end(&self, proc: Proc) -> bool
        ensures { result ≡ is_last_end (exact_in self.now.kept) proc }
    {
        self.active(proc) == 1 && self.is_odd(proc)
    }

    /// The process's sequence after a start over the span.
    pub fn seq_started(&self, proc: Proc, span: Span) -> u64
        ensures { result ≡ seq_started (exact_in self.now.kept) proc span }
    {
        let seq = self.process_seq(proc);
        if self.some_overlap(proc, span) && !self.is_odd(proc) {
            seq + 1
        } else {
            seq
        }
    }

    /// The process's sequence after an end.
    pub fn seq_ended(&self, proc: Proc) -> u64
        ensures { result ≡ seq_ended (exact_in self.now.kept) proc }
    {
        let seq = self.process_seq(proc);
        if self.is_last_end(proc) { seq + 1 } else { seq }
    }

    /// The sequence that an interval of the process gets when it is inserted now.
    pub fn interval_inserted(&self, proc: Proc) -> u64
        ensures { result ≡ interval_inserted (exact_in self.now.kept) proc }
    {
        let seq = self.process_seq(proc);
        if self.is_odd(proc) {
            seq
        } else if self.active(proc) > 0 {
            seq + 1
        } else {
            seq.saturating_sub(1)
        }
    }

    // The process's sequence after an insert.
    fn seq_inserted(&self, proc: Proc) -> u64
        ensures { result ≡ seq_inserted (exact_in self.now.kept) proc }
    {
        let seq = self.process_seq(proc);
        if !self.is_odd(proc) && self.active(proc) > 0 {
            seq + 1
        } else {
            seq
        }
    }

    // The same with the intervals as they are after an end.
    fn applied(&self, proc: Proc) -> ExactParts
        ensures { exact_in result ≡ record (exact_in self.now.kept) {
          interval = intervals_ended (exact_in self.now.kept) proc;
        } }
    {
        let mut next = self.copied();
        if self.is_last_end(proc) {
            apply_all(&mut next.intervals, proc);
            return next;
        }
        next
    }

    fn begin(&self, proc: Proc, span: Span) -> ExactParts
        requires { (exact_in self.now.kept).active proc < 18446744073709551615 }
        ensures { (a q : ℕ) → exact_in result
            ≡ unguarded (sequences_next (exact_in self.now.kept) a (AnyKind.Start proc span q)) }
    {
        let at = proc.number() as usize;
        let mut next = self.copied();
        next.seqs[at] = self.seq_started(proc, span);
        next.active[at] = self.active(proc) + 1;
        next
    }

    fn tell(&self, mirror: MirrorId) -> ExactParts
        ensures { (a q : ℕ) (r : Pages) → exact_in result
            ≡ unguarded (sequences_next (exact_in self.now.kept) a (AnyKind.Told mirror r q)) }
    {
        let at = mirror.number() as usize;
        let mut next = self.copied();
        let of_process = self.process_seq(self.interval_proc(mirror));
        next.intervals[at] = with_seq(&self.interval(mirror), of_process);
        next
    }

    fn end(&self, proc: Proc) -> ExactParts
        ensures { (a q : ℕ) (r : Pages) → exact_in result
            ≡ unguarded (sequences_next (exact_in self.now.kept) a (AnyKind.End proc r q)) }
    {
        let at = proc.number() as usize;
        let mut next = self.applied(proc);
        next.seqs[at] = self.seq_ended(proc);
        next.active[at] = self.active(proc).saturating_sub(1);
        next
    }

    fn attach(&self, mirror: MirrorId, proc: Proc, window: Span) -> ExactParts
        ensures { (a d q : ℕ) → exact_in result
            ≡ unguarded (sequences_next (exact_in self.now.kept) a (AnyKind.Attached mirror d proc window q)) }
    {
        let mut next = self.copied();
        next.seqs[proc.number() as usize] = self.seq_inserted(proc);
        next.intervals[mirror.number() as usize] = Some(KeptInterval {
            proc,
            window,
            seq: self.interval_inserted(proc),
            stage: first_stage(self.is_odd(proc)),
        });
        next
    }

    fn stand(&self, mirror: MirrorId, stage: KeptStage) -> ExactParts
        ensures { exact_in result ≡ standing (exact_in self.now.kept) mirror (stage_of stage) }
    {
        let at = mirror.number() as usize;
        let mut next = self.copied();
        next.intervals[at] = with_stage(&self.interval(mirror), stage);
        next
    }

    // What an entry makes of them.
    fn stepped(&self, kind: &Kind) -> ExactParts
        requires { IsPaced self.now.kept 2000000 }
        ensures { (a : ℕ) → exact_in result
            ≡ unguarded (sequences_next (exact_in self.now.kept) a kind.now) }
    {
        match kind {
            Kind::Start { proc, span, seq: _ } => self.begin(*proc, *span),
            Kind::Told {
                mirror,
                span: _,
                seq: _,
            } => self.tell(*mirror),
            Kind::End {
                proc,
                span: _,
                seq: _,
            } => self.end(*proc),
            Kind::Attached {
                mirror,
                dev: _,
                proc,
                span,
                seq: _,
            } => self.attach(*mirror, *proc, *span),
            Kind::Detaching { mirror, seq: _ } => self.stand(*mirror, KeptStage::RemoveDeferred),
            Kind::Detached(mirror) => self.stand(*mirror, KeptStage::Out),
            _ => self.copied(),
        }
    }

    // The sequences after an entry.
    fn after(&self, kind: &Kind) -> ExactSeqs
        requires { IsPaced self.now.kept 2000000 }
        ensures { (a : ℕ) → exact_in result.kept
            ≡ unguarded (sequences_next (exact_in self.now.kept) a kind.now) }
    {
        let kept = self.stepped(kind);
        ExactSeqs { kept }
    }
}

/// The sequences after an entry. Each is raised by one at most, and so is how many invalidations are under way.
pub(crate) fn seqs_after(
    alloc: Global,
    seqs: &Rc<ExactSeqs>,
    kind: &Kind,
) -> Result<Rc<ExactSeqs>, NoMemory>
    requires { IsPaced seqs.now.value.kept 2000000 }
    ensures next { IfOk result (λ x. (a : ℕ) → exact_in x.value.kept
        ≡ unguarded (sequences_next (exact_in seqs.now.value.kept) a kind.now)) }
    ensures paced { IfOk result (λ x. (n : ℕ) → IsPaced seqs.now.value.kept n → IsPaced x.value.kept (n + 1)) }
{
    match kind {
        Kind::Start { .. }
        | Kind::Told { .. }
        | Kind::End { .. }
        | Kind::Attached { .. }
        | Kind::Detaching { .. }
        | Kind::Detached(..) => Ok(Rc::new(alloc, seqs.after(kind))?),
        _ => Ok(seqs.clone()?),
    }
}
