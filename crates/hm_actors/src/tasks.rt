// One actor: the number of its operation, the phases there, and the key of its migration.
ghost use Rattle.std.specs.Prelude.{◌≡◌, ◌+◌, ◌<◌, ◌≤◌, ◌^◌, [], true, None, Some, OnOk, OnErr, OnSome, IfOk, is_none};
ghost use Rattle.std.specs.Prelude.{option_copied, slice_get};
ghost use Rattle.hm_history.specs.Kernel.Going.{first_stack, op_at};
ghost use Rattle.hm_phases.specs.Items.{phases_of};
ghost use Rattle.hm_actors.specs.Actors.{task_next, task_top, adds_at, adds_record, ActorsFit, HasRoom, StackFits};
ghost use Rattle.hm_actors.specs.Migrations.{key_of, task_shown, HasItem, Changes};

use crate::records::Records;
use crate::under_way;
use hm_base::{Actor, NoMemory, Op, Script};
use hm_history::Kind;
use hm_history::phases::{Body, Phase, Seen};
use hm_phases::{Items, Stack};
use slab::Slab;
use std::alloc::Global;

/// `migration` is the key of the records, from the first one on.
#[derive(Drop)]
pub struct Task {
    pub index: u64,
    pub stack: Stack,
    pub migration: Option<usize>,
}

/// The actor's operation of that number.
pub fn op_at(script: &Script, actor: Actor, index: u64) -> Option<&Op>
    ensures op { option_copied result ≡ op_at script.now actor index }
    ensures below { OnSome result (index + 1 < 2 ^ 64) }
{
    match script.actors.get(u64::from(actor.number())) {
        Some(ops) if index < ops.len() => ops.get(index),
        _ => None,
    }
}

/// The key of the actor's migration.
pub(crate) fn key_of(tasks: &[Task], actor: Actor) -> Option<usize>
    ensures { result ≡ key_of tasks.now actor }
{
    match tasks.get(actor.number() as usize) {
        Some(task) => task.migration,
        None => None,
    }
}

// Whether the operation is over.
fn is_over(stack: &Stack) -> bool
    ensures { result ≡ is_none (slice_get stack.now 0) }
{
    stack.top().is_none()
}

// Whether an entry at this phase adds a record.
fn adds_at(top: &Phase, kind: &Kind) -> bool
    ensures { result ≡ adds_at top.now kind.now }
{
    match (top, kind) {
        (
            Phase::Guard {
                body: Body::Select { .. },
                ..
            },
            Kind::Fresh { .. } | Kind::Place { .. },
        ) => true,
        _ => false,
    }
}

impl Task {
    pub(crate) fn start(alloc: Global, script: &Script, actor: Actor) -> Result<Task, NoMemory>
        ensures { IfOk result
            (λ t. t ≡ record { index = 0; stack = first_stack (op_at script.now actor 0); migration = None }) }
    {
        let mut task = Task {
            index: 0,
            stack: Stack::new(alloc)?,
            migration: None,
        };
        task.begin(script, actor);
        Ok(task)
    }

    /// Makes room for the record that the entry adds, if it adds one.
    pub(crate) fn reserve(
        &mut self,
        migrations: &mut Slab<Records>,
        alloc: Global,
        kind: &Kind,
    ) -> Result<(), NoMemory>
        requires held { HasItem migrations.old self.old.migration }
        ensures room { OnOk result
            (adds_record self.new.stack kind.now ≡ true → 1 ≤ (task_shown migrations.new self.new).spare) }
        ensures same { (task_shown migrations.new self.new).going ≡ (task_shown migrations.old self.old).going }
        ensures changes { Changes migrations.old migrations.new self.old.migration self.new.migration }
        ensures err { OnErr result (task_shown migrations.new self.new ≡ task_shown migrations.old self.old) }
    {
        let Some(top) = self.stack.top() else {
            return Ok(());
        };
        if !adds_at(top, kind) {
            return Ok(());
        }
        match self.migration {
            Some(key) => migrations[key].reserve(),
            None => {
                self.migration = Some(under_way::begin(migrations, alloc)?);
                Ok(())
            }
        }
    }

    /// The task after its entry.
    pub(crate) fn step(
        &mut self,
        migrations: &mut Slab<Records>,
        script: &Script,
        actor: Actor,
        kind: &Kind,
        seen: &Seen,
    )
        requires held { HasItem migrations.old self.old.migration }
        requires fits { ActorsFit script.now actor (task_shown migrations.old self.old).going kind.now seen.now }
        requires room { HasRoom kind.now (task_shown migrations.old self.old) }
        ensures changes { Changes migrations.old migrations.new self.old.migration self.new.migration }
        ensures next { task_shown migrations.new self.new
            ≡ task_next script.now actor (task_shown migrations.old self.old) kind.now seen.now }
    {
        if let Some(op) = op_at(script, actor, self.index) {
            self.step_op(migrations, script, actor, op, kind, seen);
        }
    }

    fn step_op(
        &mut self,
        migrations: &mut Slab<Records>,
        script: &Script,
        actor: Actor,
        op: &Op,
        kind: &Kind,
        seen: &Seen,
    )
        requires held { HasItem migrations.old self.old.migration }
        requires below { self.old.index + 1 < 2 ^ 64 }
        requires fits { StackFits op.now self.old.stack kind.now seen.now }
        requires room { HasRoom kind.now (task_shown migrations.old self.old) }
        ensures changes { Changes migrations.old migrations.new self.old.migration self.new.migration }
        ensures next { task_shown migrations.new self.new
            ≡ task_top script.now actor (task_shown migrations.old self.old) op.now self.old.stack kind.now seen.now }
    {
        let Some(top) = self.stack.top() else {
            return;
        };
        under_way::step(migrations, self.migration, top, seen.page, kind);
        self.stack.moved(op, kind, seen);
        if is_over(&self.stack) {
            under_way::end(migrations, self.migration);
            self.migration = None;
            self.index += 1;
            self.begin(script, actor);
        }
    }

    // The operation of this number, from its first phase on.
    fn begin(&mut self, script: &Script, actor: Actor)
        requires { self.old.stack ≡ [] }
        ensures { self.new ≡ record self.old { stack = first_stack (op_at script.now actor self.old.index) } }
    {
        if let Some(op) = op_at(script, actor, self.index) {
            self.stack.begin(op);
        }
    }
}
