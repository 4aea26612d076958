// What an actor sees at its entry, just before it.
ghost use Rattle.std.specs.Prelude.{◌≡◌, Some};
ghost use Rattle.hm_history.specs.Kernel.Going.{seen_overlap, seen_place, coming, coming_page, op_at, touch_page};
ghost use Rattle.hm_history.specs.Kernel.Going.{touch_proc};
ghost use Rattle.hm_actors.specs.Actors.{IsSeen};
ghost use Rattle.hm_base.specs.declared.ops.Op.{Op as AnyOp};
ghost use Rattle.hm_history.specs.declared.phases.Phase.{Phase as AnyPhase};
ghost use Rattle.hm_race_states.specs.Afters.{AtPhase};
ghost use Rattle.hm_race_states.specs.States.{state_in};

use crate::here::Here;
use hm_base::{Actor, Place};
use hm_history::Kind;
use hm_history::phases::{Migrating, MoveStep, Phase, Seen, Touch};
use hm_reads::Reads;
use hm_reads::operations::{touch_page, touch_proc};

impl<'a> Here<'a> {
    // Whether the invalidation that starts meets an interval.
    fn overlaps(&self, kind: &Kind) -> bool
        ensures { result ≡ seen_overlap (state_in self.now.state.now).after kind.now }
    {
        match kind {
            Kind::Start { proc, span, seq: _ } => self.state.seqs.some_overlap(*proc, *span),
            _ => false,
        }
    }

    // The place of the page that a fault is about.
    fn decided_place(&self, actor: Actor, touch: &Touch) -> Place
        ensures { (o : AnyOp)
            → op_at self.now.script.now actor ((state_in self.now.state.now).going actor).index ≡ Some o
            → result
            ≡ (state_in self.now.state.now).after.places.place (touch_proc (state_in self.now.state.now).after o)
            (touch_page o touch.now) }
    {
        self.script.facts();
        match self.op(actor) {
            Some(op) => self.place(touch_proc(self, op), touch_page(op, *touch)),
            None => Place::Empty,
        }
    }

    // The place of the page that the actor's step is about.
    fn place_seen(&self, actor: Actor, kind: &Kind) -> Place
        ensures { AtPhase self.now.script.now actor ((state_in self.now.state.now).going actor)
            (λ o top. result ≡ seen_place (state_in self.now.state.now).after o top kind.now) }
    {
        match kind {
            Kind::Start { proc, span, seq: _ } => self.place(*proc, span.first()),
            Kind::Place {
                proc,
                page,
                place: _,
            } => self.place(*proc, *page),
            _ => match self.phase(actor) {
                Some(Phase::Decide { touch }) => self.decided_place(actor, touch),
                _ => Place::Empty,
            },
        }
    }

    // The record of the page to which a migration has come.
    fn page_at_step(&self, actor: Actor, step: MoveStep, next: u64) -> Option<Migrating>
        ensures { (o : AnyOp)
            → op_at self.now.script.now actor ((state_in self.now.state.now).going actor).index ≡ Some o
            → result
            ≡ coming_page
            (coming (state_in self.now.state.now).after o ((state_in self.now.state.now).going actor).pages
            (AnyPhase.Moves step next)) }
    {
        match self.op(actor) {
            Some(op) => match self.coming(actor, op, step, next) {
                Some((_, page)) => Some(page),
                None => None,
            },
            None => None,
        }
    }

    // The record of the page that the actor's migration has come to.
    fn page_seen(&self, actor: Actor) -> Option<Migrating>
        ensures { AtPhase self.now.script.now actor ((state_in self.now.state.now).going actor)
            (λ o top. result
            ≡ coming_page
            (coming (state_in self.now.state.now).after o ((state_in self.now.state.now).going actor).pages top)) }
    {
        match self.phase(actor) {
            Some(Phase::Moves { step, next }) => self.page_at_step(actor, *step, *next),
            _ => None,
        }
    }

    /// What the actor sees at its entry.
    pub(crate) fn seen(&self, actor: Actor, kind: &Kind) -> Seen
        ensures { IsSeen self.now.script.now (state_in self.now.state.now).after actor
            ((state_in self.now.state.now).going actor) kind.now result }
    {
        Seen {
            at: 0,
            overlapped: self.overlaps(kind),
            place: self.place_seen(actor, kind),
            orphan: self.state.locks.orphan(&self.state.places, kind),
            page: self.page_seen(actor),
        }
    }
}
