// An actor's place within its operation: a stack of at most three phases. Each function has the contract that it is
// the definition of the same name in hm_history's specs/Stacks. What is due at a phase is hm_steps; hm_actors keeps
// the stack of each actor.
#![tactic(auto)]

ghost use Rattle.std.specs.Prelude.{◌≡◌, ℕ, ◌+◌, ◌≤◌, ◌<◌, [], ◌∷◌, length, IfOk, IsTrue, IsOk, true, false};
ghost use Rattle.std.specs.Prelude.{option_copied, slice_get};
ghost use Rattle.hm_history.specs.Kernel.Stacks.{first_phase, stack_after};
ghost use Rattle.hm_phases.specs.Items.{below_takes_count, phases_of};

use hm_base::{NoMemory, Op};
use hm_history::Kind;
use std::alloc::Global;
use std::marker::Model;

mod accesses;
mod edits;
mod frames;
mod guards;
mod in_place;
mod items;
mod migrations;
mod moves;
mod operations;

pub use hm_history::phases::{Body, Migrating, Phase, Seen, Touch};
pub use items::Items;

/// How many phases a stack has.
#[derive(Clone, Copy)]
enum Depth {
    Zero,
    One,
    Two,
    Three,
}

/// An actor's phases within its operation; contracts see the list, the top first. Most entries change the top alone,
/// so it is always at the same place. What is past the depth is left over.
#[derive(Drop)]
pub struct Stack {
    depth: Depth,
    top: Phase,
    second: Phase,
    third: Phase,
}

impl Model for Stack {
    ghost use Rattle.std.specs.Prelude.{List};
    ghost use Rattle.hm_history.specs.declared.phases.Phase.{Phase};

    ghost Value = { List Phase };

    ghost use Rattle.hm_phases.specs.Depths.{front};

    ghost view = { λ s. front s.depth s.top s.second s.third };
}

impl Stack {
    /// An empty stack, with room for all that an operation puts on it.
    pub fn new(alloc: Global) -> Result<Stack, NoMemory>
        ensures ok { IsOk result }
        ensures empty { IfOk result (λ s. s ≡ []) }
    {
        let _ = alloc;
        Ok(Stack {
            depth: Depth::Zero,
            top: Phase::Begin,
            second: Phase::Begin,
            third: Phase::Begin,
        })
    }

    /// Puts the operation's first phase.
    pub fn begin(&mut self, op: &Op)
        requires { self.old ≡ [] }
        ensures { self.new ≡ first_phase op.now ∷ [] }
    {
        self.only(operations::first_phase(op));
    }

    /// The phase that the actor is in, none between operations.
    pub fn top(&self) -> Option<&Phase>
        ensures { option_copied result ≡ slice_get self.now 0 }
    {
        match self.depth {
            Depth::Zero => None,
            _ => Some(&self.top),
        }
    }

    /// The phases.
    pub fn items(&self) -> Items
        ensures { phases_of result ≡ self.now }
    {
        match self.depth {
            Depth::Zero => Items::Zero,
            Depth::One => Items::One(self.top),
            Depth::Two => Items::Two(self.top, self.second),
            Depth::Three => Items::Three(self.top, self.second, self.third),
        }
    }

    /// A stack of these phases.
    pub fn of(items: Items) -> Stack
        ensures { result ≡ phases_of items }
    {
        let (depth, top, second, third) = match items {
            Items::Zero => (Depth::Zero, Phase::Begin, Phase::Begin, Phase::Begin),
            Items::One(top) => (Depth::One, top, Phase::Begin, Phase::Begin),
            Items::Two(top, second) => (Depth::Two, top, second, Phase::Begin),
            Items::Three(top, second, third) => (Depth::Three, top, second, third),
        };
        Stack {
            depth,
            top,
            second,
            third,
        }
    }

    /// What the stack is after the actor's entry, given what the world showed just before it; empty if the entry
    /// ends the operation.
    pub fn moved(&mut self, op: &Op, kind: &Kind, seen: &Seen)
        requires room { length (stack_after op.now self.old kind.now seen.now) ≤ 3 }
        requires counted { IsTrue (below_takes_count self.old) }
        ensures { self.new ≡ stack_after op.now self.old kind.now seen.now }
    {
        match self.depth {
            Depth::Zero => (),
            _ => self.after_top(op, kind, seen),
        }
    }
}
