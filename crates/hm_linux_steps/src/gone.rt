// What unmaps under way have taken away so far.
ghost use Rattle.std.specs.Prelude.{◌≡◌, is_some};
ghost use Rattle.hm_linux.specs.UnmapLetsIn.{gone_by};

use crate::first::Passes;
use crate::shows::Shows;
use hm_base::{Actor, Op, Proc, Span};
use hm_history::phases::Phase;

/// What the actor has taken away so far: the process and the span.
pub(crate) fn gone_by<W: Shows>(world: &W, actor: Actor) -> Option<(Proc, Span)>
    ensures { result ≡ gone_by (W.program world.now) (W.state world.now) actor }
{
    match world.op(actor) {
        Some(Op::Unmap { proc, span }) => match world.phase(actor) {
            Some(Phase::Begin) => None,
            Some(Phase::Locked) => None,
            _ => Some((*proc, *span)),
        },
        _ => None,
    }
}

/// Whether an actor has taken something away.
#[derive(Drop)]
pub(crate) struct Takes<'a, W> {
    pub(crate) world: &'a W,
}

impl<'a, W: Shows> Passes for Takes<'a, W> {
    ghost passes = { λ q a. is_some (gone_by (W.program q.world.now) (W.state q.world.now) a) };

    fn passes(&self, actor: Actor) -> bool {
        gone_by(self.world, actor).is_some()
    }
}
