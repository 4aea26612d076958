// How far an actor is, and how it goes on.
ghost use Rattle.std.specs.Prelude.{◌≡◌, ◌+◌, ◌<◌, ◌^◌, ℕ, [], true, map, slice_get, count_by, option_copied, is_none};
ghost use Rattle.std.specs.Prelude.{IfOk, OnOk, IsTrue};
ghost use Rattle.hm_history.specs.Kernel.Going.{going_from, going_seen, op_at, first_stack};
ghost use Rattle.hm_actors.specs.Actors.{task_next, task_top};
ghost use Rattle.hm_phases.specs.Items.{phases_of};
ghost use Rattle.hm_race_states.specs.Afters.{StackTakes, TaskTakes};
ghost use Rattle.hm_race_states.specs.Blurs.{blurred_phase};
ghost use Rattle.hm_reads.specs.Ranges.{top_in_range};

use crate::blur::{all_note_nothing, blurred_items};
use crate::shared_phases::SharedPhases;
use crate::shared_records::SharedRecords;
use hm_actors::op_at;
use hm_base::{Actor, NoMemory, Op, Script};
use hm_history::Kind;
use hm_history::phases::{Phase, Seen};
use hm_phases::Stack;
use std::alloc::Global;

/// How far an actor is: the number of its operation, its phases, and the records of its migration. If it is quiet, no
/// phase has a position or a sequence of its own.
#[derive(Drop)]
pub struct RaceTask {
    pub index: u64,
    pub stack: SharedPhases,
    pub records: SharedRecords,
    pub quiet: bool,
    ghost ranged: { top_in_range (slice_get stack 0) ≡ true },
    ghost notes: { quiet ≡ true → (own small : ℕ) → map (blurred_phase own small) stack ≡ stack },
}

impl RaceTask {
    ghost use Rattle.hm_race_states.specs.Tasks.{going_in};

    // An actor of these parts.
    fn made(index: u64, stack: SharedPhases, records: SharedRecords) -> RaceTask
        requires { IsTrue (top_in_range (slice_get stack 0)) }
        ensures { going_in result ≡ record { index = index; stack = stack; pages = records } }
    {
        let quiet = all_note_nothing(&stack.items());
        RaceTask {
            index,
            stack,
            records,
            quiet,
        }
    }

    // The actor at the beginning of an operation.
    fn at(alloc: Global, script: &Script, actor: Actor, index: u64) -> Result<RaceTask, NoMemory>
        ensures { IfOk result (λ t. going_in t ≡ going_from script.now actor index) }
    {
        let mut stack = Stack::new(alloc)?;
        if let Some(op) = op_at(script, actor, index) {
            stack.begin(op);
        }
        let stack = SharedPhases::of(alloc, &stack.items(), &SharedPhases::none())?;
        Ok(RaceTask::made(index, stack, SharedRecords::none()))
    }

    /// The actor at its first operation.
    pub fn start(alloc: Global, script: &Script, actor: Actor) -> Result<RaceTask, NoMemory>
        ensures { IfOk result (λ t. going_in t ≡ going_from script.now actor 0) }
    {
        RaceTask::at(alloc, script, actor, 0)
    }

    /// The operation that the actor is at.
    pub fn op<'a>(&self, script: &'a Script, actor: Actor) -> Option<&'a Op>
        ensures { option_copied result ≡ op_at script.now actor (going_in self.now).index }
    {
        op_at(script, actor, self.index)
    }

    /// The top of its phases.
    pub fn top(&self) -> Option<&Phase>
        ensures same { option_copied result ≡ slice_get (going_in self.now).stack 0 }
        ensures range { top_in_range (slice_get (going_in self.now).stack 0) ≡ true }
    {
        self.stack.top()
    }

    /// How many pages its migration has moved.
    pub fn moved_pages(&self) -> u64
        ensures { result ≡ count_by (λ x. x.moved) (going_in self.now).pages }
    {
        self.records
            .as_slice()
            .iter()
            .filter(|migrating| migrating.moved)
            .count() as u64
    }

    // The same actor once more.
    fn copy(&self, alloc: Global) -> Result<RaceTask, NoMemory>
        ensures { IfOk result (λ t. going_in t ≡ going_in self.now) }
    {
        let stack = SharedPhases::of(alloc, &self.stack.items(), &self.stack)?;
        Ok(RaceTask::made(self.index, stack, self.records.share()?))
    }

    // The actor, at this operation and this phase, after its entry.
    fn after_top(
        &self,
        alloc: Global,
        script: &Script,
        actor: Actor,
        op: &Op,
        kind: &Kind,
        seen: &Seen,
    ) -> Result<RaceTask, NoMemory>
        requires below { self.now.index + 1 < 2 ^ 64 }
        requires takes { StackTakes op.now self.now.stack kind.now seen.now }
        ensures { IfOk result (λ t. going_in t
            ≡ (task_top script.now actor (record { going = going_in self.now; spare = 1 }) op.now self.now.stack
            kind.now seen.now).going) }
    {
        let Some(top) = self.stack.top() else {
            return self.copy(alloc);
        };
        let mut stack = Stack::of(self.stack.items());
        stack.moved(op, kind, seen);
        if is_over(&stack) {
            return Ok(RaceTask::at(alloc, script, actor, self.index + 1)?);
        }
        let records = self.records.after(alloc, top, seen.page, kind)?;
        let stack = SharedPhases::of(alloc, &stack.items(), &self.stack)?;
        Ok(RaceTask::made(self.index, stack, records))
    }

    /// The actor after its entry, given what the state showed just before it.
    pub fn after(
        &self,
        alloc: Global,
        script: &Script,
        actor: Actor,
        kind: &Kind,
        seen: &Seen,
    ) -> Result<RaceTask, NoMemory>
        requires { TaskTakes script.now actor (going_in self.now) kind.now seen.now }
        ensures { IfOk result (λ t. going_in t
            ≡ (task_next script.now actor (record { going = going_in self.now; spare = 1 }) kind.now seen.now).going) }
    {
        match op_at(script, actor, self.index) {
            Some(op) => self.after_top(alloc, script, actor, op, kind, seen),
            None => self.copy(alloc),
        }
    }

    /// The actor without positions and absolute sequences of its phases; `own` is the sequence of the interval of the
    /// actor's mirror, and `small` what is kept of it.
    pub(crate) fn blurred(&self, alloc: Global, own: u64, small: u64) -> Result<RaceTask, NoMemory>
        ensures { IfOk result (λ t. going_in t ≡ record (going_in self.now) {
          stack = map (blurred_phase own small) (going_in self.now).stack;
        }) }
    {
        let items = blurred_items(own, small, self.stack.items());
        let stack = SharedPhases::of(alloc, &items, &self.stack)?;
        Ok(RaceTask::made(self.index, stack, self.records.share()?))
    }
}

// Whether the operation is over.
fn is_over(stack: &Stack) -> bool
    ensures { result ≡ is_none (slice_get stack.now 0) }
{
    stack.top().is_none()
}
