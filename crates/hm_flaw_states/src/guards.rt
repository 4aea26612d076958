// The invalidations under way, one of each actor at most, kept exactly.
ghost use Rattle.std.specs.Prelude.{◌≡◌, ℕ, [], true, Some, None, length, option_copied, option_map, IfOk};
ghost use Rattle.std.specs.Prelude.{OnOk};
ghost use Rattle.hm_history.specs.Memory.Words.{with_at};
ghost use Rattle.hm_history.specs.Memory.Sequences.{overlapping, sequences_next, with_told};
ghost use Rattle.hm_folds.specs.Kept.{has_mirror};
ghost use Rattle.hm_flaw_states.specs.Exact.{exact_in};
ghost use Rattle.hm_flaw_states.specs.Guards.{guard_in, guard_of, guarded_in, guards_in, mirrors_in};

use crate::exact_seqs::ExactSeqs;
use hm_base::{Actor, MirrorId, NoMemory, Proc, Span};
use hm_folds::intervals::overlapping;
use hm_history::Kind;
use std::alloc::Global;
use std::rc::Rc;

/// The guard of an actor: its process and span, the mirrors whose interval overlapped at its start, and those told, in
/// the order in which they were told.
#[derive(Drop)]
pub struct ActorGuard {
    pub proc: Proc,
    pub span: Span,
    pub met: [bool; 32],
    pub told: Vec<MirrorId>,
}

/// The guard of each actor that has one. States share those that they have alike.
#[derive(Drop)]
pub struct ActorGuards {
    pub guards: Vec<Option<Rc<ActorGuard>>>,
    ghost sized: { length guards.items ≡ 16 },
}

// The guard with one more mirror told.
fn with_told(
    alloc: Global,
    guard: &Option<Rc<ActorGuard>>,
    mirror: MirrorId,
) -> Result<Option<Rc<ActorGuard>>, NoMemory>
    ensures { IfOk result (λ g. guard_in g ≡ with_told mirror (guard_in guard.now)) }
{
    match guard {
        None => Ok(None),
        Some(guard) => {
            let mut told = Vec::from_slice(alloc, guard.told.as_slice())?;
            told.push(mirror)?;
            let more = ActorGuard {
                proc: guard.proc,
                span: guard.span,
                met: guard.met,
                told,
            };
            Ok(Some(Rc::new(alloc, more)?))
        }
    }
}

// The guard of an invalidation that begins.
fn begun(
    alloc: Global,
    seqs: &ExactSeqs,
    proc: Proc,
    span: Span,
) -> Result<Rc<ActorGuard>, NoMemory>
    ensures { IfOk result (λ x. guard_in (Some x)
        ≡ Some (record {
          proc = proc;
          span = span;
          met = overlapping (exact_in seqs.now.kept) proc span;
          told = [];
        })) }
{
    let new = ActorGuard {
        proc,
        span,
        met: overlapping(&seqs.kept.intervals, proc, span),
        told: Vec::new(alloc),
    };
    Ok(Rc::new(alloc, new)?)
}

fn same_set(one: &[bool; 32], other: &[bool; 32]) -> bool
    ensures yes { result ≡ true → (k : ℕ) → has_mirror one.now k ≡ has_mirror other.now k }
    ensures no { ((k : ℕ) → has_mirror one.now k ≡ has_mirror other.now k) → result ≡ true }
{
    for at in 0..32usize {
        if one[at] != other[at] {
            return false;
        }
    }
    true
}

fn same_mirrors(one: &[bool; 32], other: &[bool; 32]) -> bool
    ensures yes { result ≡ true → mirrors_in one.now ≡ mirrors_in other.now }
    ensures no { mirrors_in one.now ≡ mirrors_in other.now → result ≡ true }
{
    same_set(one, other)
}

fn same_told(one: &[MirrorId], other: &[MirrorId]) -> bool
    ensures yes { result ≡ true → one.now ≡ other.now }
    ensures no { one.now ≡ other.now → result ≡ true }
{
    if one.len() != other.len() {
        return false;
    }
    for at in 0..one.len() {
        if one[at] != other[at] {
            return false;
        }
    }
    true
}

fn same_some(one: &ActorGuard, other: &ActorGuard) -> bool
    ensures yes { result ≡ true → guard_of one.now ≡ guard_of other.now }
    ensures no { guard_of one.now ≡ guard_of other.now → result ≡ true }
{
    if one.proc != other.proc {
        return false;
    }
    if one.span != other.span {
        return false;
    }
    if !same_mirrors(&one.met, &other.met) {
        return false;
    }
    same_told(one.told.as_slice(), other.told.as_slice())
}

fn same_guard(one: &Option<Rc<ActorGuard>>, other: &Option<Rc<ActorGuard>>) -> bool
    ensures yes { result ≡ true → guard_in one.now ≡ guard_in other.now }
    ensures no { guard_in one.now ≡ guard_in other.now → result ≡ true }
{
    match one {
        None => other.is_none(),
        Some(x) => match other {
            None => false,
            Some(y) => same_some(x, y),
        },
    }
}

fn same_guards(one: &[Option<Rc<ActorGuard>>], other: &[Option<Rc<ActorGuard>>]) -> bool
    requires one { length one.now ≡ 16 }
    requires other { length other.now ≡ 16 }
    ensures yes { result ≡ true → (a : ℕ) → guards_in one.now a ≡ guards_in other.now a }
    ensures no { ((a : ℕ) → guards_in one.now a ≡ guards_in other.now a) → result ≡ true }
{
    for at in 0..16usize {
        if !same_guard(&one[at], &other[at]) {
            return false;
        }
    }
    true
}

// The same guard, in the same memory.
fn shared(guard: &Option<Rc<ActorGuard>>) -> Result<Option<Rc<ActorGuard>>, NoMemory>
    ensures { IfOk result (λ g. guard_in g ≡ guard_in guard.now) }
{
    match guard {
        None => Ok(None),
        Some(some) => Ok(Some(some.clone()?)),
    }
}

impl ActorGuards {
    /// None.
    pub fn new(alloc: Global) -> Result<ActorGuards, NoMemory>
        ensures { IfOk result (λ x. (a : ℕ) → guards_in x.guards.items a ≡ None) }
    {
        let mut guards = Vec::with_capacity(alloc, 16)?;
        for _ in 0..16u32 {
            guards.push(None)?;
        }
        Ok(ActorGuards { guards })
    }

    /// The guard of an actor that has one.
    pub(crate) fn get(&self, actor: Actor) -> Option<&ActorGuard>
        ensures { option_map guard_of (option_copied result) ≡ guards_in self.now.guards.items actor }
    {
        match &self.guards[actor.number() as usize] {
            None => None,
            Some(guard) => Some(&**guard),
        }
    }

    // The same guards, shared.
    fn copy(&self, alloc: Global) -> Result<ActorGuards, NoMemory>
        ensures { IfOk result (λ x. guards_in x.guards.items ≡ guards_in self.now.guards.items) }
    {
        let mut guards = Vec::with_capacity(alloc, 16)?;
        for at in 0..self.guards.len() {
            guards.push(shared(&self.guards[at])?)?;
        }
        Ok(ActorGuards { guards })
    }

    fn set(&mut self, actor: Actor, guard: Option<Rc<ActorGuard>>)
        ensures { guards_in self.new.guards.items
            ≡ with_at (guards_in self.old.guards.items) actor (guard_in guard) }
    {
        self.guards[actor.number() as usize] = guard;
    }

    fn tell(&mut self, alloc: Global, actor: Actor, mirror: MirrorId) -> Result<(), NoMemory>
        ensures { OnOk result
            (guards_in self.new.guards.items
            ≡ with_at (guards_in self.old.guards.items) actor
            (with_told mirror (guards_in self.old.guards.items actor))) }
    {
        let told = with_told(alloc, &self.guards[actor.number() as usize], mirror)?;
        self.set(actor, told);
        Ok(())
    }

    // The guards after an entry; `seqs` are the sequences before it.
    fn step(
        &mut self,
        alloc: Global,
        seqs: &ExactSeqs,
        actor: Actor,
        kind: &Kind,
    ) -> Result<(), NoMemory>
        ensures { OnOk result
            (guards_in self.new.guards.items
            ≡ (sequences_next (guarded_in seqs.now self.old.guards.items) actor kind.now).guard) }
    {
        match kind {
            Kind::Start { proc, span, seq: _ } => {
                let new = begun(alloc, seqs, *proc, *span)?;
                self.set(actor, Some(new));
                Ok(())
            }
            Kind::Told {
                mirror,
                span: _,
                seq: _,
            } => Ok(self.tell(alloc, actor, *mirror)?),
            Kind::End { .. } => {
                self.set(actor, None);
                Ok(())
            }
            _ => Ok(()),
        }
    }

    /// Whether each actor has the same guard in both.
    pub fn same(&self, other: &ActorGuards) -> bool
        ensures yes { result ≡ true
            → (a : ℕ) → guards_in self.now.guards.items a ≡ guards_in other.now.guards.items a }
        ensures no { ((a : ℕ) → guards_in self.now.guards.items a ≡ guards_in other.now.guards.items a)
            → result ≡ true }
    {
        same_guards(self.guards.as_slice(), other.guards.as_slice())
    }
}

/// The guards after an entry; `seqs` are the sequences before it.
pub(crate) fn guards_after(
    alloc: Global,
    guards: &Rc<ActorGuards>,
    seqs: &ExactSeqs,
    actor: Actor,
    kind: &Kind,
) -> Result<Rc<ActorGuards>, NoMemory>
    ensures { IfOk result (λ x. guards_in x.value.guards.items
        ≡ (sequences_next (guarded_in seqs.now guards.now.value.guards.items) actor kind.now).guard) }
{
    match kind {
        Kind::Start { .. } | Kind::Told { .. } | Kind::End { .. } => {
            let mut new = guards.copy(alloc)?;
            new.step(alloc, seqs, actor, kind)?;
            Ok(Rc::new(alloc, new)?)
        }
        _ => Ok(guards.clone()?),
    }
}
