// All actors of a script.
ghost use Rattle.std.specs.Prelude.{◌≡◌, ◌<◌, ◌≤◌, List, [], true, false, is_none, count_by, length, OnOk, OnErr, IfOk};
ghost use Rattle.std.specs.Prelude.{option_copied, slice_get};
ghost use Rattle.hm_history.specs.Kernel.Going.{op_at, steps_from};
ghost use Rattle.hm_history.specs.declared.phases.Phase.{Phase as AnyPhase};
ghost use Rattle.hm_actors.specs.Coming.{come_by};
ghost use Rattle.hm_phases.specs.Items.{phases_of};
ghost use Rattle.hm_actors.specs.Actors.{actors_start, actors_next, adds_record, going_of, goings, ActorsFit};
ghost use Rattle.hm_actors.specs.Actors.{ActorsRoom};

use crate::coming::Concerns;
use crate::records::Records;
use crate::tasks::{Task, key_of, op_at};
use crate::under_way;
use hm_base::{Actor, NoMemory, Op, Script};
use hm_history::Kind;
use hm_history::phases::{Migrating, MoveStep, Phase, Seen};
use hm_phases::Items;
use slab::Slab;
use std::alloc::Global;
use std::marker::Model;

// Whether an entry of this kind adds no record, whatever the phase.
fn adds_none(kind: &Kind) -> bool
    ensures { result ≡ true → (stack : List AnyPhase) → adds_record stack kind.now ≡ false }
{
    match kind {
        Kind::Fresh { .. } | Kind::Place { .. } => false,
        _ => true,
    }
}

/// How far each actor of a script is.
#[derive(Drop)]
pub struct Actors {
    tasks: Vec<Task>,
    migrations: Slab<Records>,
    alloc: Global,
}

impl Model for Actors {
    ghost use Rattle.std.specs.Prelude.{List, map};
    ghost use Rattle.hm_actors.specs.Actors.{TaskValue};
    ghost use Rattle.hm_actors.specs.Migrations.{task_shown, KeysFit};

    ghost Value = { List TaskValue };

    ghost view = { λ x. map (task_shown x.migrations) x.tasks.items };

    ghost invariant = { λ x. KeysFit x.tasks.items x.migrations };
}

impl Actors {
    /// Each actor at its first operation.
    pub fn new(alloc: Global, script: &Script) -> Result<Actors, NoMemory>
        ensures { IfOk result (λ x. x ≡ actors_start script.now) }
    {
        script.facts();
        let count = script.actors.len() as u32;
        let mut tasks = Vec::new(alloc);
        for at in 0..count {
            tasks.push(Task::start(alloc, script, Actor::new(at))?)?;
        }
        Ok(Actors {
            tasks,
            migrations: Slab::new(alloc),
            alloc,
        })
    }

    /// Makes room for the record that the actor's entry adds, if it adds one; all else stays.
    #[inline(always)]
    pub fn reserve(&mut self, actor: Actor, kind: &Kind) -> Result<(), NoMemory>
        ensures room { OnOk result (ActorsRoom actor kind.now self.new) }
        ensures same { goings self.new ≡ goings self.old }
        ensures err { OnErr result (self.new ≡ self.old) }
    {
        if adds_none(kind) {
            Ok(())
        } else {
            self.reserve_record(actor, kind)
        }
    }

    // Apart, so that most entries do not pay for it.
    #[inline(never)]
    fn reserve_record(&mut self, actor: Actor, kind: &Kind) -> Result<(), NoMemory>
        ensures room { OnOk result (ActorsRoom actor kind.now self.new) }
        ensures same { goings self.new ≡ goings self.old }
        ensures err { OnErr result (self.new ≡ self.old) }
    {
        let at = actor.number() as usize;
        if self.tasks.len() <= at {
            return Ok(());
        }
        let task = &mut self.tasks[at];
        task.reserve(&mut self.migrations, self.alloc, kind)
    }

    /// The actors after an entry of one of them, with what the state showed just before it.
    pub fn step(&mut self, script: &Script, actor: Actor, kind: &Kind, seen: &Seen)
        requires fits { ActorsFit script.now actor (going_of self.old actor) kind.now seen.now }
        requires room { ActorsRoom actor kind.now self.old }
        ensures { self.new ≡ actors_next script.now actor kind.now seen.now self.old }
    {
        let at = actor.number() as usize;
        if at < self.tasks.len() {
            let task = &mut self.tasks[at];
            task.step(&mut self.migrations, script, actor, kind, seen);
        }
    }

    /// The number of the actor's operation; 0 if there is no such actor.
    pub fn index(&self, actor: Actor) -> u64
        ensures { result ≡ (going_of self.now actor).index }
    {
        match self.tasks.get(actor.number() as usize) {
            Some(task) => task.index,
            None => 0,
        }
    }

    /// The operation that the actor is at.
    pub fn op<'a>(&self, script: &'a Script, actor: Actor) -> Option<&'a Op>
        ensures { option_copied result ≡ op_at script.now actor (going_of self.now actor).index }
    {
        op_at(script, actor, self.index(actor))
    }

    /// The phase that the actor is in.
    pub fn top(&self, actor: Actor) -> Option<&Phase>
        ensures { option_copied result ≡ slice_get (going_of self.now actor).stack 0 }
    {
        match self.tasks.get(actor.number() as usize) {
            Some(task) => task.stack.top(),
            None => None,
        }
    }

    /// The actor's phases, the top first; none if there is no such actor.
    pub fn phases(&self, actor: Actor) -> Items
        ensures { phases_of result ≡ (going_of self.now actor).stack }
    {
        match self.tasks.get(actor.number() as usize) {
            Some(task) => task.stack.items(),
            None => Items::Zero,
        }
    }

    /// The records of the actor's migration.
    pub fn records(&self, actor: Actor) -> &[Migrating]
        ensures { result.now ≡ (going_of self.now actor).pages }
    {
        match self.tasks.get(actor.number() as usize) {
            Some(task) => under_way::records_at(&self.migrations, task.migration),
            None => &[],
        }
    }

    /// The step, from this one on, and the record that the actor's migration has come to; none at its end.
    #[inline(always)]
    pub fn come_to<C: Concerns>(
        &self,
        actor: Actor,
        concerns: &C,
        step: MoveStep,
        next: u64,
    ) -> Option<(MoveStep, Migrating)>
        ensures { result
            ≡ come_by (C.concerns concerns.now) (going_of self.now actor).pages (steps_from step) next }
    {
        under_way::come_to(
            &self.migrations,
            key_of(&self.tasks, actor),
            concerns,
            step,
            next,
        )
    }

    /// How many pages the actor's migration has moved.
    pub fn moved_pages(&self, actor: Actor) -> u64
        ensures { result ≡ count_by (λ x. x.moved) (going_of self.now actor).pages }
    {
        moved_count(self.records(actor))
    }
}

fn moved_count(records: &[Migrating]) -> u64
    ensures { result ≡ count_by (λ x. x.moved) records.now }
{
    records.iter().filter(|x| x.moved).count() as u64
}
