// The invalidations of all processes: each process's notifiers (mm/mmu_notifier.c), and whose each mirror's interval
// is. It keeps step with a history, entry by entry.
#![tactic(auto)]

ghost use Rattle.std.specs.Prelude.{◌≡◌, ◌<◌, ◌≤◌, ◌^◌, IfOk, OnOk, IsSome, None, Some, true, false};
ghost use Rattle.hm_notifiers.specs.NotifiersValue.{all_start, notifiers_start, notifiers_next, CanStep, NotifiersRoom};
ghost use Rattle.hm_notifiers.specs.NotifiersValue.{SameNotifiers, InRange, of_proc, of_mirror, proc_of, seq_of};
ghost use Rattle.hm_notifiers.specs.NotifiersValue.{active_of, interval_seq_of, in_tree_of, insert_deferred_of};
ghost use Rattle.hm_notifiers.specs.NotifiersValue.{next_told_of, some_overlap_of, seq_started_of, seq_ended_of};
ghost use Rattle.hm_notifiers.specs.NotifiersValue.{interval_inserted_of, with_proc, with_interval, without_interval};
ghost use Rattle.notifier_seq.specs.Sequences as one;

use hm_base::{MirrorId, NoMemory, Proc, Span};
use hm_history::Kind;
use notifier_seq::Notifiers;
use std::alloc::Global;
use std::marker::Model;

/// The notifiers of the 32 processes (`mmu_notifier_subscriptions` of each `struct mm_struct`), and the
/// process of each mirror's interval from its attach on.
#[derive(Drop)]
pub struct AllNotifiers {
    of_process: Vec<Notifiers>,
    procs: [Option<Proc>; 32],
    alloc: Global,
}

impl Model for AllNotifiers {
    ghost use Rattle.std.specs.Prelude.{◌≡◌, length};
    ghost use Rattle.hm_notifiers.specs.NotifiersValue.{NotifiersValue};

    ghost Value = { NotifiersValue };

    ghost view = { λ n. record { of_process = n.of_process.items; procs = n.procs } };

    ghost invariant = { λ n. length n.of_process.items ≡ 32 };
}

impl AllNotifiers {
    /// No invalidation and no interval.
    pub fn new(alloc: Global) -> Result<AllNotifiers, NoMemory>
        ensures { IfOk result (λ x. x ≡ notifiers_start) }
    {
        let of_process = all_notifiers(alloc)?;
        Ok(AllNotifiers {
            of_process,
            procs: [None; 32],
            alloc,
        })
    }

    /// Makes room for what an entry of this kind changes: a process takes memory with its first mirror. A failure may
    /// leave some of it.
    #[inline(always)]
    pub fn reserve(&mut self, kind: &Kind) -> Result<(), NoMemory>
        ensures same { SameNotifiers self.old self.new }
        ensures ok { OnOk result (NotifiersRoom kind.now self.new) }
    {
        match kind {
            Kind::Attached {
                mirror: _,
                dev: _,
                proc,
                span: _,
                seq: _,
            } => self.reserve_insert(*proc),
            _ => Ok(()),
        }
    }

    #[inline(never)]
    fn reserve_insert(&mut self, proc: Proc) -> Result<(), NoMemory>
        ensures same { SameNotifiers self.old self.new }
        ensures ok { OnOk result (proc < 32 → (of_proc self.new proc).room ≡ true) }
    {
        let notifiers = &mut self.of_process[proc.number() as usize];
        notifiers.reserve(self.alloc)
    }

    /// The state after an entry, for which there is room. An entry that changes nothing here costs one look.
    #[inline(always)]
    pub fn step(&mut self, kind: &Kind)
        requires fits { CanStep kind.now self.old }
        requires room { NotifiersRoom kind.now self.old }
        ensures next { self.new ≡ notifiers_next kind.now self.old }
        ensures range { InRange kind.now }
    {
        match kind {
            Kind::Start { .. }
            | Kind::Told { .. }
            | Kind::End { .. }
            | Kind::Attached { .. }
            | Kind::Detaching { .. }
            | Kind::Detached(..) => self.change(kind),
            _ => (),
        }
    }

    // The state after an entry that may change it.
    #[inline(never)]
    fn change(&mut self, kind: &Kind)
        requires fits { CanStep kind.now self.old }
        requires room { NotifiersRoom kind.now self.old }
        ensures next { self.new ≡ notifiers_next kind.now self.old }
        ensures range { InRange kind.now }
    {
        match kind {
            Kind::Start { proc, span, seq: _ } => self.start(*proc, *span),
            Kind::Told {
                mirror,
                span: _,
                seq: _,
            } => self.tell(*mirror),
            Kind::End {
                proc,
                span: _,
                seq: _,
            } => self.end(*proc),
            Kind::Attached {
                mirror,
                dev: _,
                proc,
                span,
                seq: _,
            } => self.attach(*mirror, *proc, *span),
            Kind::Detaching { mirror, seq: _ } | Kind::Detached(mirror) => self.detach(*mirror),
            _ => (),
        }
    }

    fn start(&mut self, proc: Proc, span: Span)
        requires { proc < 32 → (seq_of self.old proc < 2 ^ 63) × (active_of self.old proc < 2 ^ 63) }
        ensures { self.new ≡ with_proc self.old proc (one.started (of_proc self.old proc) span) }
    {
        let notifiers = &mut self.of_process[proc.number() as usize];
        let _ = notifiers.start(span);
    }

    fn tell(&mut self, mirror: MirrorId)
        requires { IsSome (one.interval_at (of_mirror self.old mirror) mirror) }
        ensures { self.new
            ≡ with_proc self.old (proc_of self.old mirror)
            (one.told (of_mirror self.old mirror) mirror (of_mirror self.old mirror).seq) }
    {
        let proc = self.interval_proc(mirror);
        let notifiers = &mut self.of_process[proc.number() as usize];
        let seq = notifiers.seq();
        notifiers.set_seq(mirror, seq);
    }

    fn end(&mut self, proc: Proc)
        requires { proc < 32 → (seq_of self.old proc < 2 ^ 63) × (1 ≤ active_of self.old proc) }
        ensures { self.new ≡ with_proc self.old proc (one.ended (of_proc self.old proc)) }
    {
        let notifiers = &mut self.of_process[proc.number() as usize];
        let _ = notifiers.end();
    }

    fn attach(&mut self, mirror: MirrorId, proc: Proc, window: Span)
        requires absent { mirror < 32 → proc < 32 → one.interval_at (of_proc self.old proc) mirror ≡ None }
        requires room { proc < 32 → (of_proc self.old proc).room ≡ true }
        ensures next { self.new ≡ with_interval self.old mirror proc window }
        ensures mirror { mirror < 32 }
        ensures proc { proc < 32 }
    {
        let at = mirror.number() as usize;
        let notifiers = &mut self.of_process[proc.number() as usize];
        let _ = notifiers.insert(mirror, window);
        self.procs[at] = Some(proc);
    }

    fn detach(&mut self, mirror: MirrorId)
        requires { one.is_leaving (of_mirror self.old mirror) mirror ≡ false }
        ensures { self.new ≡ without_interval self.old mirror }
    {
        let proc = self.interval_proc(mirror);
        let notifiers = &mut self.of_process[proc.number() as usize];
        if notifiers.present(mirror) {
            let _ = notifiers.remove(mirror);
        }
    }

    fn of_proc(&self, proc: Proc) -> &Notifiers
        ensures { result.now ≡ of_proc self.now proc }
    {
        &self.of_process[proc.number() as usize]
    }

    fn of_mirror(&self, mirror: MirrorId) -> &Notifiers
        ensures { result.now ≡ of_mirror self.now mirror }
    {
        self.of_proc(self.interval_proc(mirror))
    }

    /// The process of the mirror's interval, and process 0 if it was never attached.
    pub fn interval_proc(&self, mirror: MirrorId) -> Proc
        ensures { result ≡ proc_of self.now mirror }
    {
        match self.procs[mirror.number() as usize] {
            Some(proc) => proc,
            None => Proc::new(0),
        }
    }

    /// The process's sequence.
    pub fn seq(&self, proc: Proc) -> u64
        ensures { result ≡ seq_of self.now proc }
    {
        self.of_proc(proc).seq()
    }

    /// How many invalidations of the process are under way.
    pub fn active(&self, proc: Proc) -> u64
        ensures { result ≡ active_of self.now proc }
    {
        self.of_proc(proc).active()
    }

    /// The sequence with which the mirror's interval was last told, and 0 if it was never attached.
    pub fn interval_seq(&self, mirror: MirrorId) -> u64
        ensures { result ≡ interval_seq_of self.now mirror }
    {
        match self.of_mirror(mirror).interval_seq(mirror) {
            Some(seq) => seq,
            None => 0,
        }
    }

    /// Whether the mirror's interval is in the tree; one whose removal is deferred is.
    pub fn in_tree(&self, mirror: MirrorId) -> bool
        ensures { result ≡ in_tree_of self.now mirror }
    {
        self.of_mirror(mirror).in_tree(mirror)
    }

    /// Whether the insert of the mirror's interval is still deferred.
    pub fn insert_deferred(&self, mirror: MirrorId) -> bool
        ensures { result ≡ insert_deferred_of self.now mirror }
    {
        self.of_mirror(mirror).deferred(mirror)
    }

    /// The least mirror above `after` that an invalidation of the span is to tell.
    pub fn next_told(&self, proc: Proc, span: Span, after: Option<MirrorId>) -> Option<MirrorId>
        ensures { result ≡ next_told_of self.now proc span after }
    {
        self.of_proc(proc).next_overlapping(span, after)
    }

    /// Whether an invalidation of the span is to tell some mirror.
    pub fn some_overlap(&self, proc: Proc, span: Span) -> bool
        ensures { result ≡ some_overlap_of self.now proc span }
    {
        self.next_told(proc, span, None).is_some()
    }

    /// The process's sequence after the start of an invalidation of the span.
    pub fn seq_started(&self, proc: Proc, span: Span) -> u64
        ensures { result ≡ seq_started_of self.now proc span }
    {
        let seq = self.seq(proc);
        if self.some_overlap(proc, span) && seq % 2 == 0 {
            seq + 1
        } else {
            seq
        }
    }

    /// The process's sequence after the end of an invalidation.
    pub fn seq_ended(&self, proc: Proc) -> u64
        requires { seq_of self.now proc < 2 ^ 63 }
        ensures { result ≡ seq_ended_of self.now proc }
    {
        let seq = self.seq(proc);
        if self.active(proc) == 1 && seq % 2 == 1 {
            seq + 1
        } else {
            seq
        }
    }

    /// The sequence of an interval that would come now.
    pub fn interval_inserted(&self, proc: Proc) -> u64
        ensures { result ≡ interval_inserted_of self.now proc }
    {
        let seq = self.seq(proc);
        if seq % 2 == 1 {
            seq
        } else if self.active(proc) > 0 {
            seq + 1
        } else {
            seq.saturating_sub(1)
        }
    }
}

fn all_notifiers(alloc: Global) -> Result<Vec<Notifiers>, NoMemory>
    ensures { IfOk result (λ v. v.items ≡ all_start) }
{
    let mut all = Vec::with_capacity(alloc, 32)?;
    for _process in 0..32u32 {
        all.push(Notifiers::new())?;
    }
    Ok(all)
}
