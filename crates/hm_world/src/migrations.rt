// Where a migration has come to: the page that its step is about.
ghost use Rattle.std.specs.Prelude.{◌≡◌};
ghost use Rattle.hm_history.specs.Kernel.Going.{is_direct, sets_now, concerns, coming};
ghost use Rattle.hm_history.specs.declared.phases.Phase as phase;
ghost use Rattle.hm_world.specs.WorldValue.{now};

use crate::World;
use hm_actors::Concerns;
use hm_base::{Actor, Frame, MirrorId, Op};
use hm_history::phases::{Migrating, MoveStep};
use hm_reads::Reads;
use hm_reads::operations::{is_to_device, op_mirror};

/// What tells of a migration's pages whether a step is about them.
#[derive(Drop)]
struct Asking<'a> {
    world: &'a World,
    op: &'a Op,
}

impl<'a> Concerns for Asking<'a> {
    ghost concerns = { λ q step x. concerns (now q.world.now).after q.op.now step x };

    fn concerns(&self, step: MoveStep, migrating: &Migrating) -> bool {
        match step {
            MoveStep::FreezeOthers => self.world.is_direct(&migrating.source),
            MoveStep::TakeAndCopy => true,
            MoveStep::Commit => migrating.dest.is_some(),
            MoveStep::SetOwnTable => {
                is_to_device(self.op) && migrating.moved && self.world.sets_now(op_mirror(self.op))
            }
            MoveStep::Finish => migrating.source.is_some() || migrating.moved,
        }
    }
}

impl World {
    fn is_direct(&self, frame: &Option<Frame>) -> bool
        ensures { result ≡ is_direct (now self.now).after frame.now }
    {
        match frame {
            Some(frame) => self.lowest_direct(frame).is_some(),
            None => false,
        }
    }

    fn sets_now(&self, mirror: MirrorId) -> bool
        ensures { result ≡ sets_now (now self.now).after mirror }
    {
        self.is_attached(mirror)
            && self.interval_seq(mirror) != self.process_seq(self.mirror_proc(mirror))
    }

    #[inline(always)]
    pub(crate) fn come_to(
        &self,
        actor: Actor,
        op: &Op,
        step: MoveStep,
        next: u64,
    ) -> Option<(MoveStep, Migrating)>
        ensures { result
            ≡ coming (now self.now).after op.now ((now self.now).going actor).pages (phase.Phase.Moves step next) }
    {
        let asking = Asking { world: self, op };
        self.actors.come_to(actor, &asking, step, next)
    }
}
