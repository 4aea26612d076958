// What a driver with a flaw asks of a state besides what steps ask.
ghost use Rattle.std.specs.Prelude.{◌≡◌, ◌^◌, ◌≤◌, ◌<◌, ℕ, option_map};
ghost use Rattle.hm_base.specs.declared.Place as places;
ghost use Rattle.hm_history.specs.Memory.Sequences.{Interval};
ghost use Rattle.hm_history.specs.Kernel.Going.{steps_from};
ghost use Rattle.hm_flaws.specs.Drivers.{first_within};
ghost use Rattle.hm_actors.specs.Coming.{come_by};

use hm_actors::Concerns;
use hm_base::{Actor, Frame, MirrorId, Page, Proc, Span};
use hm_history::locks::MapLock;
use hm_history::phases::{Migrating, MoveStep};
use hm_reads::Reads;

/// A state of a script with more of its details: the state that the history gives, by which legality judges.
pub trait Details: Reads {
    /// Costs nothing: it hands the prover that nothing is mapped past the last page.
    fn none_past(&self)
        ensures { (p v : ℕ) → 2 ^ 36 ≤ v → (Self.state self.now).after.places.place p v ≡ places.Place.Empty };

    /// Costs nothing: it hands the prover that the sequence of each process can be raised by one.
    fn can_be_raised(&self)
        ensures { (p : ℕ) → (Self.state self.now).after.sequences.seq p < 18446744073709551615 };

    /// Where the frame was committed to since it was last taken.
    fn committed_to(&self, frame: &Frame) -> Option<Frame>
        ensures { result ≡ (Self.state self.now).after.places.committed_to frame.now };

    /// The process of the mirror's interval; none if it has no interval.
    fn interval_proc(&self, mirror: MirrorId) -> Option<Proc>
        ensures { result
            ≡ option_map (λ (x : Interval). x.proc) ((Self.state self.now).after.sequences.interval mirror) };

    /// The first page of a span that lies in the mirror's window.
    fn first_within(&self, mirror: MirrorId, span: Span) -> Page
        ensures { result ≡ first_within ((Self.state self.now).after.plain.mirrors mirror) span };

    /// The mmap lock that the actor has.
    fn map_lock(&self, actor: Actor) -> Option<MapLock>
        ensures { result ≡ (Self.state self.now).after.locks.map actor };

    /// The step, from this one on, and the page to which the actor's migration has come, by what tells whether a step
    /// has to do with a page; none at its end.
    fn coming_by<C: Concerns>(
        &self,
        actor: Actor,
        concerns: &C,
        step: MoveStep,
        next: u64,
    ) -> Option<(MoveStep, Migrating)>
        ensures { result
            ≡ come_by (C.concerns concerns.now) ((Self.state self.now).going actor).pages (steps_from step) next };
}
