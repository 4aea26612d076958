// Invalidations, intervals and their sequences, of all processes (mm/mmu_notifier.c).
ghost use Rattle.std.specs.Prelude.{◌≡◌, ◌≤◌, ◌==◌, ◌+◌, ◌%◌, ℕ, IfOk, OnErr, is_ok, Ok, Err, true, if◌then◌else◌};
ghost use Rattle.hm_history.specs.Memory.Sequences.{sequences_start, sequences_next, sequences_accept, interval_seq};
ghost use Rattle.hm_history.specs.Memory.Sequences.{interval_proc, insert_deferred, in_tree, next_told, is_odd};
ghost use Rattle.hm_history.specs.Memory.Sequences.{is_next_told, is_last_end, interval_inserted, seq_inserted};
ghost use Rattle.hm_history.specs.Memory.Lookups.{is_guarded};
ghost use Rattle.hm_history.specs.declared.Kind.{Kind as AnyKind};
ghost use Rattle.hm_folds.specs.Kept.{sequences_of, interval_of, guarded, stage_of, standing, under_way};

use crate::guards::{
    KeptGuard, active, all_below, covers_told, has_some, is_done, is_free, lower_told, same_span,
    with_told,
};
use crate::intervals::{
    KeptInterval, KeptStage, apply_all, first_stage, is_deferred, is_in_tree, is_removed, is_there,
    next_told, overlapping, overlaps, proc_of, seq_of, with_seq, with_stage,
};
use hm_base::{Actor, MirrorId, NoMemory, Page, Proc, Script, Span};
use hm_history::{Entry, FoldError, Kind};
use std::alloc::Global;

/// The sequences after a history. It has no memory of its own.
#[derive(Drop)]
pub struct SeqState {
    seqs: [u64; 32],
    intervals: [Option<KeptInterval>; 32],
    guards: [Option<KeptGuard>; 16],
}

impl SeqState {
    /// Before the first entry. It takes no memory, so it never fails.
    pub fn start(_alloc: Global, _script: &Script) -> Result<SeqState, NoMemory>
        ensures ok { is_ok result ≡ true }
        ensures start { IfOk result (λ x. sequences_of x ≡ sequences_start) }
    {
        Ok(SeqState {
            seqs: [2; 32],
            intervals: [None; 32],
            guards: [None; 16],
        })
    }

    /// The process's sequence.
    pub fn process_seq(&self, proc: Proc) -> u64
        ensures { result ≡ (sequences_of self.now).seq proc }
    {
        self.seqs[proc.number() as usize]
    }

    /// How many invalidations of the process are under way.
    pub fn active(&self, proc: Proc) -> u64
        ensures { result ≡ (sequences_of self.now).active proc }
    {
        active(&self.guards, proc)
    }

    /// The sequence of the mirror's interval, and 0 if it was never attached.
    pub fn interval_seq(&self, mirror: MirrorId) -> u64
        ensures { result ≡ interval_seq (sequences_of self.now) mirror }
    {
        seq_of(&self.intervals[mirror.number() as usize])
    }

    /// The mirror's interval, if it was ever attached.
    pub fn interval(&self, mirror: MirrorId) -> Option<KeptInterval>
        ensures { interval_of result ≡ (sequences_of self.now).interval mirror }
    {
        self.intervals[mirror.number() as usize]
    }

    /// Costs nothing: it hands the prover that no sequence beyond the last process ever changes.
    pub fn facts(&self)
        ensures { (p : ℕ) → 32 ≤ p → (sequences_of self.now).seq p ≡ 2 }
    {
        let _ = &self.seqs;
    }

    /// The process of the mirror's interval; 0 for a mirror that was never attached.
    pub fn interval_proc(&self, mirror: MirrorId) -> Proc
        ensures { result ≡ interval_proc (sequences_of self.now) mirror }
    {
        proc_of(&self.intervals[mirror.number() as usize])
    }

    /// Whether the insert of the mirror's interval is still deferred.
    pub fn deferred(&self, mirror: MirrorId) -> bool
        ensures { result ≡ insert_deferred (sequences_of self.now) mirror }
    {
        is_deferred(&self.intervals[mirror.number() as usize])
    }

    /// Whether the mirror's interval is in the tree; one whose removal is deferred is.
    pub fn in_tree(&self, mirror: MirrorId) -> bool
        ensures { result ≡ in_tree (sequences_of self.now) mirror }
    {
        is_in_tree(&self.intervals[mirror.number() as usize])
    }

    /// Whether the actor has a guard of the process with the page, in which each interval that it met was told.
    pub fn is_guarded(&self, actor: Actor, proc: Proc, page: Page) -> bool
        ensures { result ≡ is_guarded (sequences_of self.now) actor proc page }
    {
        covers_told(&self.guards[actor.number() as usize], proc, page)
    }

    /// The process and the span of the invalidation that the actor has under way.
    pub fn under_way(&self, actor: Actor) -> Option<(Proc, Span)>
        ensures { result ≡ under_way ((sequences_of self.now).guard actor) }
    {
        match &self.guards[actor.number() as usize] {
            None => None,
            Some(guard) => Some((guard.proc, guard.span)),
        }
    }

    /// The least mirror above `after` that an invalidation of the span is to tell.
    pub fn next_told(&self, proc: Proc, span: Span, after: Option<MirrorId>) -> Option<MirrorId>
        ensures { result ≡ next_told (sequences_of self.now) proc span after }
    {
        next_told(&self.intervals, proc, span, after)
    }

    /// The state after one entry more. It never answers NoMemory, and an entry that is not legal changes nothing.
    pub fn apply(&mut self, entry: &Entry) -> Result<(), FoldError>
        ensures legal { result
            ≡
            (if sequences_accept (sequences_of self.old) entry.now.actor entry.now.kind then Ok tt
            else Err FoldError.NotLegal) }
        ensures ok { IfOk result
            (λ x. sequences_of self.new ≡ sequences_next (sequences_of self.old) entry.now.actor entry.now.kind) }
        ensures err { OnErr result (self.new ≡ self.old) }
    {
        if !self.accepts(entry.actor, &entry.kind) {
            return Err(FoldError::NotLegal);
        }
        self.step(entry.actor, &entry.kind);
        Ok(())
    }

    /// Whether there is a next state after an entry of the actor.
    pub fn accepts(&self, actor: Actor, kind: &Kind) -> bool
        ensures { result ≡ sequences_accept (sequences_of self.now) actor kind.now }
    {
        match kind {
            Kind::Start { proc, span, seq } => self.may_start(actor, *proc, *span, *seq),
            Kind::Told { mirror, span, seq } => self.may_tell(actor, *mirror, *span, *seq),
            Kind::End { proc, span, seq } => self.may_end(actor, *proc, *span, *seq),
            Kind::Attached { proc, seq, .. } => self.is_inserted(*proc, *seq),
            Kind::Detaching { mirror, seq } => self.may_leave(*mirror, *seq),
            Kind::Detached(mirror) => self.may_detach(*mirror),
            Kind::Begin { mirror, seq } => self.may_begin(*mirror, *seq),
            _ => true,
        }
    }

    fn may_start(&self, actor: Actor, proc: Proc, span: Span, seq: u64) -> bool
        ensures { result ≡ sequences_accept (sequences_of self.now) actor (AnyKind.Start proc span seq) }
    {
        let before = self.seqs[proc.number() as usize];
        let met = overlapping(&self.intervals, proc, span);
        is_free(&self.guards[actor.number() as usize])
            && is_raised(before, has_some(&met) && !is_odd(before), seq)
    }

    fn is_next_told(&self, guard: &KeptGuard, mirror: MirrorId) -> bool
        ensures { result ≡ is_next_told (sequences_of self.now) (guarded guard.now) mirror }
    {
        if !all_below(&guard.told, mirror) {
            return false;
        }
        if !overlaps(
            &self.intervals[mirror.number() as usize],
            guard.proc,
            guard.span,
        ) {
            return false;
        }
        let all = overlapping(&self.intervals, guard.proc, guard.span);
        lower_told(&all, &guard.told, mirror)
    }

    fn may_tell(&self, actor: Actor, mirror: MirrorId, span: Span, seq: u64) -> bool
        ensures { result ≡ sequences_accept (sequences_of self.now) actor (AnyKind.Told mirror span seq) }
    {
        match &self.guards[actor.number() as usize] {
            None => false,
            Some(guard) => {
                same_span(guard.span, span)
                    && has_some(&guard.met)
                    && self.is_next_told(guard, mirror)
                    && seq == self.seqs[guard.proc.number() as usize]
            }
        }
    }

    fn is_last_end(&self, proc: Proc) -> bool
        ensures { result ≡ is_last_end (sequences_of self.now) proc }
    {
        self.active(proc) == 1 && is_odd(self.seqs[proc.number() as usize])
    }

    fn may_end(&self, actor: Actor, proc: Proc, span: Span, seq: u64) -> bool
        ensures { result ≡ sequences_accept (sequences_of self.now) actor (AnyKind.End proc span seq) }
    {
        let before = self.seqs[proc.number() as usize];
        is_done(&self.guards[actor.number() as usize], proc, span)
            && is_raised(before, self.is_last_end(proc), seq)
    }

    fn is_inserted(&self, proc: Proc, seq: u64) -> bool
        ensures { result ≡ (seq == interval_inserted (sequences_of self.now) proc) }
    {
        let before = self.seqs[proc.number() as usize];
        if is_odd(before) {
            seq == before
        } else if self.active(proc) > 0 {
            is_raised(before, true, seq)
        } else {
            seq == before.saturating_sub(1)
        }
    }

    fn may_leave(&self, mirror: MirrorId, seq: u64) -> bool
        ensures { result ≡ sequences_accept (sequences_of self.now) 0 (AnyKind.Detaching mirror seq) }
    {
        let of_process = self.seqs[self.interval_proc(mirror).number() as usize];
        is_odd(of_process) && self.in_tree(mirror) && seq == of_process
    }

    fn may_detach(&self, mirror: MirrorId) -> bool
        ensures { result ≡ sequences_accept (sequences_of self.now) 0 (AnyKind.Detached mirror) }
    {
        let of_process = self.seqs[self.interval_proc(mirror).number() as usize];
        self.deferred(mirror)
            || self.in_tree(mirror) && !is_odd(of_process)
            || is_removed(&self.intervals[mirror.number() as usize])
    }

    fn may_begin(&self, mirror: MirrorId, seq: u64) -> bool
        ensures { result ≡ sequences_accept (sequences_of self.now) 0 (AnyKind.Begin mirror seq) }
    {
        let of_process = self.seqs[self.interval_proc(mirror).number() as usize];
        is_there(&self.intervals[mirror.number() as usize])
            && seq == self.interval_seq(mirror)
            && seq != of_process
    }

    fn step(&mut self, actor: Actor, kind: &Kind)
        requires { sequences_accept (sequences_of self.old) actor kind.now ≡ true }
        ensures { sequences_of self.new ≡ sequences_next (sequences_of self.old) actor kind.now }
    {
        match kind {
            Kind::Start { proc, span, seq } => self.begin_guard(actor, *proc, *span, *seq),
            Kind::Told { mirror, span, seq } => self.tell(actor, *mirror, *span, *seq),
            Kind::End { proc, span, seq } => self.end_guard(actor, *proc, *span, *seq),
            Kind::Attached {
                mirror,
                dev: _,
                proc,
                span,
                seq,
            } => self.attach(*mirror, *proc, *span, *seq),
            Kind::Detaching { mirror, seq: _ } => self.stand(*mirror, KeptStage::RemoveDeferred),
            Kind::Detached(mirror) => self.stand(*mirror, KeptStage::Out),
            _ => (),
        }
    }

    fn begin_guard(&mut self, actor: Actor, proc: Proc, span: Span, seq: u64)
        requires { sequences_accept (sequences_of self.old) actor (AnyKind.Start proc span seq) ≡ true }
        ensures { sequences_of self.new ≡ sequences_next (sequences_of self.old) actor (AnyKind.Start proc span seq) }
    {
        let met = overlapping(&self.intervals, proc, span);
        self.seqs[proc.number() as usize] = seq;
        self.guards[actor.number() as usize] = Some(KeptGuard {
            proc,
            span,
            met,
            told: [false; 32],
        });
    }

    fn tell(&mut self, actor: Actor, mirror: MirrorId, span: Span, seq: u64)
        requires { sequences_accept (sequences_of self.old) actor (AnyKind.Told mirror span seq) ≡ true }
        ensures { sequences_of self.new
            ≡ sequences_next (sequences_of self.old) actor (AnyKind.Told mirror span seq) }
    {
        let at = mirror.number() as usize;
        let by = actor.number() as usize;
        let of_process = self.seqs[self.interval_proc(mirror).number() as usize];
        self.intervals[at] = with_seq(&self.intervals[at], of_process);
        self.guards[by] = with_told(&self.guards[by], mirror);
    }

    fn end_guard(&mut self, actor: Actor, proc: Proc, span: Span, seq: u64)
        requires { sequences_accept (sequences_of self.old) actor (AnyKind.End proc span seq) ≡ true }
        ensures { sequences_of self.new ≡ sequences_next (sequences_of self.old) actor (AnyKind.End proc span seq) }
    {
        let last = self.is_last_end(proc);
        self.seqs[proc.number() as usize] = seq;
        self.guards[actor.number() as usize] = None;
        if last {
            apply_all(&mut self.intervals, proc);
        }
    }

    // The process's sequence after an insert, by which the interval gets this one.
    fn seq_inserted(&self, proc: Proc, seq: u64) -> u64
        requires { (seq == interval_inserted (sequences_of self.now) proc) ≡ true }
        ensures { result ≡ seq_inserted (sequences_of self.now) proc }
    {
        let before = self.seqs[proc.number() as usize];
        if is_odd(before) || self.active(proc) == 0 {
            before
        } else {
            seq
        }
    }

    fn attach(&mut self, mirror: MirrorId, proc: Proc, window: Span, seq: u64)
        requires { (seq == interval_inserted (sequences_of self.old) proc) ≡ true }
        ensures { (a d : ℕ)
            → sequences_of self.new
            ≡ sequences_next (sequences_of self.old) a (AnyKind.Attached mirror d proc window seq) }
    {
        let at = proc.number() as usize;
        let odd = is_odd(self.seqs[at]);
        self.seqs[at] = self.seq_inserted(proc, seq);
        self.intervals[mirror.number() as usize] = Some(KeptInterval {
            proc,
            window,
            seq,
            stage: first_stage(odd),
        });
    }

    fn stand(&mut self, mirror: MirrorId, stage: KeptStage)
        ensures { sequences_of self.new
            ≡ standing (sequences_of self.old) mirror (stage_of stage) }
    {
        let at = mirror.number() as usize;
        self.intervals[at] = with_stage(&self.intervals[at], stage);
    }
}

fn is_odd(seq: u64) -> bool
    ensures { result ≡ is_odd seq }
{
    seq % 2 == 1
}

/// Whether a sequence is the one before, or one more.
fn is_raised(before: u64, by_one: bool, seq: u64) -> bool
    ensures { result ≡ (seq == (if by_one then before + 1 else before)) }
{
    if by_one {
        seq > before && seq - before == 1
    } else {
        seq == before
    }
}
