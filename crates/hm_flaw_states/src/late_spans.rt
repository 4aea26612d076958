// The spans that are erased at the end of their invalidation.
ghost use Rattle.std.specs.Prelude.{◌≡◌, ℕ, true, [], ◌∷◌, ◌++◌, length, map, IfOk, OnOk};
ghost use Rattle.hm_history.specs.Memory.Words.{with_at};
ghost use Rattle.hm_flaw_states.specs.LateSpans.{late_in, pair_of};

use hm_base::{Actor, MirrorId, NoMemory, Span};
use std::alloc::Global;

/// A span that a mirror was told of, and that its table still has.
#[derive(Clone, Copy, PartialEq, Eq)]
pub struct LateSpan {
    pub mirror: MirrorId,
    pub span: Span,
}

/// The spans of an actor's invalidation, in the order in which their mirrors were told.
#[derive(Drop)]
pub struct ActorSpans {
    pub spans: Vec<LateSpan>,
}

/// The spans of all actors.
#[derive(Drop)]
pub struct LateSpans {
    pub of_actors: Vec<ActorSpans>,
    ghost sized: { length of_actors.items ≡ 16 },
}

fn same_spans(one: &[LateSpan], other: &[LateSpan]) -> bool
    ensures yes { result ≡ true → one.now ≡ other.now }
    ensures no { one.now ≡ other.now → result ≡ true }
{
    if one.len() != other.len() {
        return false;
    }
    for at in 0..one.len() {
        if one[at] != other[at] {
            return false;
        }
    }
    true
}

impl LateSpans {
    /// None.
    pub fn new(alloc: Global) -> Result<LateSpans, NoMemory>
        ensures { IfOk result (λ x. (a : ℕ) → late_in x.of_actors.items a ≡ []) }
    {
        let mut of_actors = Vec::with_capacity(alloc, 16)?;
        for _ in 0..16u32 {
            of_actors.push(ActorSpans {
                spans: Vec::new(alloc),
            })?;
        }
        Ok(LateSpans { of_actors })
    }

    /// The spans of an actor.
    pub(crate) fn at(&self, actor: Actor) -> &[LateSpan]
        ensures { map pair_of result.now ≡ late_in self.now.of_actors.items actor }
    {
        self.of_actors[actor.number() as usize].spans.as_slice()
    }

    /// An actor has one span more.
    pub fn push(&mut self, actor: Actor, span: LateSpan) -> Result<(), NoMemory>
        ensures { OnOk result
            (late_in self.new.of_actors.items
            ≡ with_at (late_in self.old.of_actors.items) actor
            (late_in self.old.of_actors.items actor ++ pair_of span ∷ [])) }
    {
        let own = &mut self.of_actors[actor.number() as usize];
        own.spans.push(span)?;
        Ok(())
    }

    /// An actor has none.
    pub fn clear(&mut self, actor: Actor)
        ensures { late_in self.new.of_actors.items ≡ with_at (late_in self.old.of_actors.items) actor [] }
    {
        let own = &mut self.of_actors[actor.number() as usize];
        own.spans.clear();
    }

    /// The same spans, in memory of their own.
    pub fn copy(&self, alloc: Global) -> Result<LateSpans, NoMemory>
        ensures { IfOk result (λ x. (a : ℕ) → late_in x.of_actors.items a ≡ late_in self.now.of_actors.items a) }
    {
        let mut of_actors = Vec::with_capacity(alloc, 16)?;
        for own in &self.of_actors {
            of_actors.push(ActorSpans {
                spans: Vec::from_slice(alloc, own.spans.as_slice())?,
            })?;
        }
        Ok(LateSpans { of_actors })
    }

    /// Whether each actor has the same spans in both.
    pub fn same(&self, other: &LateSpans) -> bool
        ensures yes { result ≡ true
            → (a : ℕ) → late_in self.now.of_actors.items a ≡ late_in other.now.of_actors.items a }
        ensures no { ((a : ℕ) → late_in self.now.of_actors.items a ≡ late_in other.now.of_actors.items a)
            → result ≡ true }
    {
        for number in 0..16usize {
            if !same_spans(
                self.of_actors[number].spans.as_slice(),
                other.of_actors[number].spans.as_slice(),
            ) {
                return false;
            }
        }
        true
    }
}
