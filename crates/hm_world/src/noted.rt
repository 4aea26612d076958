// What is read of a world before an entry changes it: the place that the entry is about, the frame that it leaves
// unnamed, and what the stack of phases notes. An arm that calls puts what it got into a variable. So all other arms
// answer from registers, and nobody waits for memory into which only a call would have written.
ghost use Rattle.std.specs.Prelude.{◌≡◌, Some, is_some};
ghost use Rattle.hm_history.specs.Memory.Words.{page_of};
ghost use Rattle.hm_history.specs.Memory.Plain.{owner};
ghost use Rattle.hm_history.specs.Memory.Contents.{place_for};
ghost use Rattle.hm_history.specs.Memory.Locks.{orphan};
ghost use Rattle.hm_history.specs.Memory.Sequences.{some_overlap};
ghost use Rattle.hm_history.specs.Kernel.Going.{seen_overlap, seen_place, coming, coming_page, op_at, touch_page};
ghost use Rattle.hm_history.specs.Kernel.Going.{touch_proc};
ghost use Rattle.hm_frames.specs.Shown.{entry_place};
ghost use Rattle.hm_base.specs.PlaceWords.{names};
ghost use Rattle.hm_base.specs.declared.Frame.{Frame as AnyFrame};
ghost use Rattle.hm_base.specs.declared.ops.Op.{Op as AnyOp};
ghost use Rattle.hm_history.specs.declared.phases.Phase.{Phase as AnyPhase};
ghost use Rattle.hm_world.specs.Noted.{IsPlaceSeen, IsPageSeen};
ghost use Rattle.hm_world.specs.WorldValue.{now};

use crate::World;
use hm_base::{Actor, Frame, Page, Place, Proc, Span};
use hm_history::phases::{Migrating, MoveStep, Phase, Touch};
use hm_history::{Kind, Who};
use hm_reads::Reads;
use hm_reads::operations::{page_of, touch_page, touch_proc};

impl World {
    fn place_at(&self, proc: Proc, addr: u64) -> Place
        ensures { result ≡ (now self.now).after.places.place proc (page_of addr) }
    {
        if addr < 1 << 48 {
            self.tables.place(proc, page_of(addr))
        } else {
            Place::Empty
        }
    }

    fn accessed_place(&self, who: Who, addr: u64) -> Place
        ensures { result ≡ place_for (now self.now).after.places (owner (now self.now).after.plain who) (page_of addr) }
    {
        match self.mirrors.owner(who) {
            Some(proc) => self.place_at(proc, addr),
            None => Place::Empty,
        }
    }

    /// The place that an entry is about.
    #[inline(always)]
    pub(crate) fn place_before(&self, kind: &Kind) -> Place
        ensures { result ≡ entry_place (now self.now).after.plain (now self.now).after.places kind.now }
    {
        match kind {
            Kind::Place {
                proc,
                page,
                place: _,
            } => {
                let place = self.place(*proc, *page);
                place
            }
            Kind::Stored {
                who,
                addr,
                bytes: _,
            } => {
                let place = self.accessed_place(*who, *addr);
                place
            }
            Kind::Added {
                mirror,
                addr,
                read: _,
                written: _,
            } => {
                let place = self.accessed_place(Who::Mirror(*mirror), *addr);
                place
            }
            _ => Place::Empty,
        }
    }

    /// The frame that the entry leaves unnamed, and that nobody has locked; `old` is the place that it is about.
    #[inline(always)]
    pub(crate) fn left_behind(&self, kind: &Kind, old: &Place) -> Option<Frame>
        requires { old.now ≡ entry_place (now self.now).after.plain (now self.now).after.places kind.now }
        ensures { result ≡ orphan (now self.now).after.locks (now self.now).after.places kind.now }
    {
        match kind {
            Kind::Place { place, .. } => {
                let frame = self.tables.orphan(old, place, self.is_locked(old));
                frame
            }
            _ => None,
        }
    }

    fn is_locked(&self, place: &Place) -> bool
        ensures { (f : AnyFrame) → names place.now ≡ Some f → result ≡ is_some ((now self.now).after.locks.frame f) }
    {
        match hm_base::frames::names(place) {
            Some(frame) => self.frames.locker(&frame).is_some(),
            None => false,
        }
    }

    fn overlaps_span(&self, proc: Proc, span: Span) -> bool
        ensures { result ≡ some_overlap (now self.now).after.sequences proc span }
    {
        self.notifiers.some_overlap(proc, span)
    }

    #[inline(always)]
    pub(crate) fn overlaps(&self, kind: &Kind) -> bool
        ensures { result ≡ seen_overlap (now self.now).after kind.now }
    {
        match kind {
            Kind::Start { proc, span, seq: _ } => self.overlaps_span(*proc, *span),
            _ => false,
        }
    }

    // Where the actor's phase decides, the place that it decides about.
    fn decided_place(&self, actor: Actor, touch: &Touch) -> Place
        ensures { (o : AnyOp) → op_at self.now.script actor ((now self.now).going actor).index ≡ Some o
            → result ≡ (now self.now).after.places.place (touch_proc (now self.now).after o) (touch_page o touch.now) }
    {
        // hands the prover the world's invariant
        let _ = &self.history;
        match self.op(actor) {
            Some(op) => self.place(touch_proc(self, op), touch_page(op, *touch)),
            None => Place::Empty,
        }
    }

    /// The place that the actor's step is about; `old` is the place that its entry is about.
    #[inline(always)]
    pub(crate) fn place_seen(&self, actor: Actor, kind: &Kind, old: &Place) -> Place
        requires { old.now ≡ entry_place (now self.now).after.plain (now self.now).after.places kind.now }
        ensures { IsPlaceSeen self.now.script (now self.now).after actor ((now self.now).going actor) kind.now result }
    {
        match kind {
            Kind::Start { proc, span, seq: _ } => {
                let place = self.place(*proc, span.first());
                place
            }
            Kind::Place { .. } => *old,
            _ => match self.phase(actor) {
                Some(Phase::Decide { touch }) => {
                    let place = self.decided_place(actor, touch);
                    place
                }
                _ => Place::Empty,
            },
        }
    }

    // Apart from the rest, so that the entries of other phases do not pay for it.
    #[inline(never)]
    fn page_at_step(&self, actor: Actor, step: MoveStep, next: u64) -> Option<Migrating>
        ensures { (o : AnyOp) → op_at self.now.script actor ((now self.now).going actor).index ≡ Some o
            → result
            ≡ coming_page
            (coming (now self.now).after o ((now self.now).going actor).pages (AnyPhase.Moves step next)) }
    {
        match self.op(actor) {
            Some(op) => match self.coming(actor, op, step, next) {
                Some((_, page)) => Some(page),
                None => None,
            },
            None => None,
        }
    }

    /// The page that the actor's migration has come to.
    #[inline(always)]
    pub(crate) fn page_seen(&self, actor: Actor) -> Option<Migrating>
        ensures { IsPageSeen self.now.script (now self.now).after actor ((now self.now).going actor) result }
    {
        match self.phase(actor) {
            Some(Phase::Moves { step, next }) => {
                let page = self.page_at_step(actor, *step, *next);
                page
            }
            _ => None,
        }
    }
}
