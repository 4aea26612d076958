// Whether an entry has the sequences that a state asks for, and whether it takes something from a page under a guard in
// which all were told.
ghost use Rattle.std.specs.Prelude.{◌≡◌, ◌==◌, ◌&&◌, ◌||◌, ℕ, nat_lt, nat_le, length, option_copied, option_map};
ghost use Rattle.std.specs.List.{list_all, list_any};
ghost use Rattle.hm_base.specs.Pages.{covers};
ghost use Rattle.hm_history.specs.Memory.Sequences.{sequences_accept, is_next_told, same_span, all_told};
ghost use Rattle.hm_history.specs.Memory.Lookups.{is_guarded, narrows_guarded};
ghost use Rattle.hm_history.specs.declared.Kind.{Kind as AnyKind};
ghost use Rattle.hm_folds.specs.Kept.{mirrors_of};
ghost use Rattle.hm_flaw_states.specs.Exact.{exact_in};
ghost use Rattle.hm_flaw_states.specs.Guards.{guard_of};
ghost use Rattle.hm_flaw_states.specs.States.{state_in};

use crate::details::Details;
use crate::exact_seqs::ExactSeqs;
use crate::guards::ActorGuard;
use crate::here::FlawHere;
use crate::owns::told_seq;
use hm_base::{Actor, MirrorId, Page, Proc, Span};
use hm_folds::guards::{has_page, has_some, same_span};
use hm_history::Kind;
use hm_parts::loses;
use hm_reads::Reads;

// Whether the mirror was told.
fn has(told: &[MirrorId], mirror: u32) -> bool
    ensures { result ≡ list_any (λ k. k == mirror) told.now }
{
    for one in told {
        if one.number() == mirror {
            return true;
        }
    }
    false
}

// Whether each mirror that was met was told.
fn all_told(met: &[bool; 32], told: &[MirrorId]) -> bool
    ensures { result ≡ list_all (λ m. list_any (λ k. k == m) told.now) (mirrors_of met.now) }
{
    for number in 0..32u32 {
        if met[number as usize] && !has(told, number) {
            return false;
        }
    }
    true
}

// Whether each mirror that was told has a lower number.
fn all_below(told: &[MirrorId], mirror: MirrorId) -> bool
    ensures { result ≡ list_all (λ k. nat_lt k mirror) told.now }
{
    for one in told {
        if one.number() >= mirror.number() {
            return false;
        }
    }
    true
}

// Whether each lower mirror of `all` was told.
fn lower_told(all: &[bool; 32], told: &[MirrorId], mirror: MirrorId) -> bool
    ensures { result
        ≡ list_all (λ k. nat_le mirror k || list_any (λ t. t == k) told.now) (mirrors_of all.now) }
{
    for number in 0..32u32 {
        if all[number as usize] && number < mirror.number() && !has(told, number) {
            return false;
        }
    }
    true
}

// Whether the mirror is the next that the guard tells.
fn is_next_told(seqs: &ExactSeqs, guard: &ActorGuard, mirror: MirrorId) -> bool
    ensures { result ≡ is_next_told (exact_in seqs.now.kept) (guard_of guard.now) mirror }
{
    if !all_below(guard.told.as_slice(), mirror) {
        return false;
    }
    if !seqs.overlaps(mirror, guard.proc, guard.span) {
        return false;
    }
    let all = seqs.overlapping(guard.proc, guard.span);
    lower_told(&all, guard.told.as_slice(), mirror)
}

// Whether the guard goes on by telling the mirror, with this sequence.
fn goes_on(seqs: &ExactSeqs, guard: &ActorGuard, mirror: MirrorId, span: Span, seq: u64) -> bool
    ensures { result
        ≡ (same_span (guard_of guard.now).span span
        && (nat_lt 0 (length (guard_of guard.now).met)
        && (is_next_told (exact_in seqs.now.kept) (guard_of guard.now) mirror
        && (seq == (exact_in seqs.now.kept).seq (guard_of guard.now).proc)))) }
{
    same_span(guard.span, span)
        && guard.has_met()
        && is_next_told(seqs, guard, mirror)
        && seq == seqs.process_seq(guard.proc)
}

impl ActorGuard {
    // Whether it met a mirror.
    fn has_met(&self) -> bool
        ensures { result ≡ nat_lt 0 (length (guard_of self.now).met) }
    {
        has_some(&self.met)
    }

    // Whether all mirrors that it met were told.
    fn all_told(&self) -> bool
        ensures { result ≡ all_told (guard_of self.now) }
    {
        all_told(&self.met, self.told.as_slice())
    }

    // Whether it is of that process and span, and all mirrors that it met were told.
    fn is_done(&self, proc: Proc, span: Span) -> bool
        ensures { result
            ≡ (((guard_of self.now).proc == proc)
            && (same_span (guard_of self.now).span span && all_told (guard_of self.now))) }
    {
        self.proc == proc && same_span(self.span, span) && self.all_told()
    }

    // Whether it is of that process and has the page, and all mirrors that it met were told.
    fn covers_told(&self, proc: Proc, page: Page) -> bool
        ensures { result
            ≡ (((guard_of self.now).proc == proc)
            && (covers (guard_of self.now).span page && all_told (guard_of self.now))) }
    {
        self.proc == proc && has_page(self.span, page) && self.all_told()
    }
}

impl<'a> FlawHere<'a> {
    /// Whether there is a next state of sequences after an entry of the actor.
    pub(crate) fn meets_sequences(&self, actor: Actor, kind: &Kind) -> bool
        ensures { result ≡ sequences_accept (state_in self.now.state.now).after.sequences actor kind.now }
    {
        match kind {
            Kind::Start { proc, span, seq } => self.may_start(actor, *proc, *span, *seq),
            Kind::Told { mirror, span, seq } => self.may_tell(actor, *mirror, *span, *seq),
            Kind::End { proc, span, seq } => self.may_end(actor, *proc, *span, *seq),
            Kind::Attached { proc, seq, .. } => *seq == self.interval_inserted(*proc),
            Kind::Detaching { mirror, seq } => self.may_leave(*mirror, *seq),
            Kind::Detached(mirror) => self.may_be_out(*mirror),
            Kind::Begin { mirror, seq } => self.may_begin(*mirror, *seq),
            _ => true,
        }
    }

    // The actor's guard.
    fn guard(&self, actor: Actor) -> Option<&ActorGuard>
        ensures { option_map guard_of (option_copied result)
            ≡ (state_in self.now.state.now).after.sequences.guard actor }
    {
        self.state.guards.get(actor)
    }

    fn may_start(&self, actor: Actor, proc: Proc, span: Span, seq: u64) -> bool
        ensures { result
            ≡ sequences_accept (state_in self.now.state.now).after.sequences actor (AnyKind.Start proc span seq) }
    {
        match self.guard(actor) {
            None => seq == self.seq_started(proc, span),
            Some(_) => false,
        }
    }

    fn may_tell(&self, actor: Actor, mirror: MirrorId, span: Span, seq: u64) -> bool
        ensures { result
            ≡ sequences_accept (state_in self.now.state.now).after.sequences actor (AnyKind.Told mirror span seq) }
    {
        match self.guard(actor) {
            None => false,
            Some(guard) => goes_on(&self.state.seqs, guard, mirror, span, seq),
        }
    }

    fn may_end(&self, actor: Actor, proc: Proc, span: Span, seq: u64) -> bool
        ensures { result
            ≡ sequences_accept (state_in self.now.state.now).after.sequences actor (AnyKind.End proc span seq) }
    {
        match self.guard(actor) {
            None => false,
            Some(guard) => guard.is_done(proc, span) && seq == self.seq_ended(proc),
        }
    }

    fn may_leave(&self, mirror: MirrorId, seq: u64) -> bool
        ensures { (a : ℕ) → result
            ≡ sequences_accept (state_in self.now.state.now).after.sequences a (AnyKind.Detaching mirror seq) }
    {
        let of_process = told_seq(self, mirror);
        of_process % 2 == 1 && self.in_tree(mirror) && seq == of_process
    }

    fn may_be_out(&self, mirror: MirrorId) -> bool
        ensures { (a : ℕ) → result
            ≡ sequences_accept (state_in self.now.state.now).after.sequences a (AnyKind.Detached mirror) }
    {
        self.insert_deferred(mirror)
            || self.in_tree(mirror) && told_seq(self, mirror) % 2 != 1
            || self.state.seqs.is_removed(mirror)
    }

    fn may_begin(&self, mirror: MirrorId, seq: u64) -> bool
        ensures { (a : ℕ) → result
            ≡ sequences_accept (state_in self.now.state.now).after.sequences a (AnyKind.Begin mirror seq) }
    {
        self.interval_proc(mirror).is_some()
            && seq == self.interval_seq(mirror)
            && seq != told_seq(self, mirror)
    }

    // Whether the actor has a guard of the page, in which all mirrors that it met were told.
    fn is_guarded(&self, actor: Actor, proc: Proc, page: Page) -> bool
        ensures { result ≡ is_guarded (state_in self.now.state.now).after.sequences actor proc page }
    {
        match self.guard(actor) {
            None => false,
            Some(guard) => guard.covers_told(proc, page),
        }
    }

    /// Whether an entry of the actor takes nothing from the page of its `place`, or does so under a guard of the actor
    /// in which all were told.
    pub(crate) fn meets_guarded(&self, actor: Actor, kind: &Kind) -> bool
        ensures { result
            ≡ narrows_guarded (state_in self.now.state.now).after.sequences
            (state_in self.now.state.now).after.places.place actor kind.now }
    {
        match kind {
            Kind::Place { proc, page, place } => {
                !loses(&self.place(*proc, *page), place) || self.is_guarded(actor, *proc, *page)
            }
            _ => true,
        }
    }
}
