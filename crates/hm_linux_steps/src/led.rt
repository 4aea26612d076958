// Where variants lead an actor after its entry.
ghost use Rattle.std.specs.Prelude.{◌≡◌, ℕ, [], ◌∷◌, List, if◌then◌else◌, IsTrue};
ghost use Rattle.hm_base.specs.Program.{Program};
ghost use Rattle.hm_history.specs.Kernel.Going.{Going, going_on, op_at};
ghost use Rattle.hm_history.specs.Kernel.Stacks.{piece_ends};
ghost use Rattle.hm_history.specs.declared.Kind.{Kind as AnyKind};
ghost use Rattle.hm_history.specs.declared.phases.Phase.{Phase as AnyPhase};
ghost use Rattle.hm_linux.specs.OwnReadOnly.{led_failed};
ghost use Rattle.hm_linux.specs.WholeSnapshot.{led_anew};
ghost use Rattle.hm_linux.specs.Instead.{going_varied};
ghost use Rattle.hm_linux_steps.specs.Led.{led_to, FailsHere};

use hm_base::{Actor, Op, Place};
use hm_history::Kind;
use hm_history::phases::{Phase, Seen, Touch};
use hm_linux::Variant;
use hm_phases::{Items, Stack};
use hm_reads::Reads;

/// Where a variant leads an actor after its entry.
#[derive(Clone, Copy, PartialEq, Eq)]
pub enum Led {
    /// Where the definitions lead.
    Plainly,
    /// To this piece of its access.
    Piece(u32),
    /// To its next operation.
    Over,
    /// To the beginning of its operation.
    Anew,
}

// Where a failure of this piece leads, which answers it.
fn after_failed(op: &Op, piece: u32, kind: &Kind) -> Led
    requires { FailsHere kind.now }
    ensures { (c : Program) (a i : ℕ) (g : Going)
        → led_to c a i result g ≡ going_on c a i (piece_ends op.now piece) [] }
{
    let seen = Seen {
        at: 0,
        overlapped: false,
        place: Place::Empty,
        orphan: None,
        page: None,
    };
    let touch = Touch::Cpu { piece };
    let mut stack = Stack::of(Items::One(Phase::Decide { touch }));
    stack.moved(op, kind, &seen);
    match stack.top() {
        Some(Phase::Piece { piece }) => Led::Piece(*piece),
        _ => Led::Over,
    }
}

// Where a failure in place of a commit leads.
fn failed<W: Reads>(world: &W, actor: Actor, kind: &Kind) -> Led
    ensures { (g : Going) → led_to (W.program world.now) actor ((W.state world.now).going actor).index result g
        ≡ led_failed (W.program world.now) actor ((W.state world.now).going actor).index
        (op_at (W.program world.now) actor ((W.state world.now).going actor).index)
        ((W.state world.now).going actor).stack kind.now g }
{
    match world.op(actor) {
        None => Led::Plainly,
        Some(op) => match world.phase(actor) {
            Some(Phase::Noted { piece, .. }) => match kind {
                Kind::Failed { .. } => after_failed(op, *piece, kind),
                _ => Led::Plainly,
            },
            _ => Led::Plainly,
        },
    }
}

// Where a retry of a snapshot leads.
fn retried<W: Reads>(world: &W, actor: Actor, kind: &Kind) -> Led
    ensures { (g : Going) → led_to (W.program world.now) actor ((W.state world.now).going actor).index result g
        ≡ led_anew (W.program world.now) actor ((W.state world.now).going actor).index
        ((W.state world.now).going actor).stack kind.now g }
{
    match world.phase(actor) {
        Some(Phase::Pages { .. }) => match kind {
            Kind::Retry(_) => Led::Anew,
            _ => Led::Plainly,
        },
        _ => Led::Plainly,
    }
}

/// Where these variants lead the actor after its entry. `world` is the state before it.
pub fn leads<W: Reads>(world: &W, variant: Variant, actor: Actor, kind: &Kind) -> Led
    ensures { (g : Going) → led_to (W.program world.now) actor ((W.state world.now).going actor).index result g
        ≡ going_varied variant (W.program world.now) actor ((W.state world.now).going actor) kind.now g }
{
    let anew = if variant.whole_snapshot {
        retried(world, actor, kind)
    } else {
        Led::Plainly
    };
    match anew {
        Led::Plainly => {
            if variant.own_read_only {
                failed(world, actor, kind)
            } else {
                Led::Plainly
            }
        }
        other => other,
    }
}
