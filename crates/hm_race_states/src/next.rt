// A state after an entry.
ghost use Rattle.std.specs.Prelude.{◌≡◌, ◌<◌, ◌≤◌, ℕ, length, map, IfOk};
ghost use Rattle.std.specs.Rc.{rc_value};
ghost use Rattle.hm_history.specs.Memory.Words.{with_at};
ghost use Rattle.hm_history.specs.Kernel.Going.{going_next, op_at, state_next};
ghost use Rattle.hm_race_laws.specs.Blur.{tidied, unlisted};
ghost use Rattle.hm_race_laws.specs.Positions.{forget_going};
ghost use Rattle.hm_race_laws.specs.Numbers.{mirror_of, small_going};
ghost use Rattle.hm_race_states.specs.Afters.{ActorTakes, PartsTake};
ghost use Rattle.hm_race_states.specs.Goings.{blurred_goings, goings_with};
ghost use Rattle.hm_history.specs.Memory.Sequences.{sequences_next};
ghost use Rattle.hm_race_states.specs.Small.{kept_seqs, settled};
ghost use Rattle.hm_race_states.specs.States.{goings_in, state_in};
ghost use Rattle.hm_race_states.specs.Tasks.{going_in};

use crate::after::{actors_after, places_after, processes_after, shared_seqs};
use crate::came::{Came, is_still};
use crate::here::Here;
use crate::joined::joined;
use crate::small::SmallSeqs;
use crate::state::RaceState;
use crate::tasks::RaceTask;
use hm_base::{Actor, MirrorId, NoMemory, Script};
use hm_history::Entry;
use hm_reads::operations::op_mirror;
use std::alloc::Global;
use std::rc::Rc;

// The mirror of the operation that an actor is at.
fn mirror_of(script: &Script, actor: Actor, task: &RaceTask) -> MirrorId
    ensures { result ≡ mirror_of (op_at script.now actor (going_in task.now).index) }
{
    match task.op(script, actor) {
        Some(op) => op_mirror(op),
        None => MirrorId::new(0),
    }
}

// An actor without positions and absolute sequences.
fn blurred<C: Came>(
    alloc: Global,
    script: &Script,
    actor: Actor,
    task: &Rc<RaceTask>,
    came: &C,
    seqs: &SmallSeqs,
) -> Result<Rc<RaceTask>, NoMemory>
    requires { kept_seqs seqs.now ≡ settled (C.seqs came.now) }
    ensures { IfOk result (λ t. going_in t.value
        ≡ forget_going (small_going script.now (C.seqs came.now) actor (going_in task.now.value))) }
{
    if task.quiet {
        return Ok(task.clone()?);
    }
    let mirror = mirror_of(script, actor, task);
    let own = came.own_seq(mirror);
    let small = seqs.interval_seq(mirror);
    Ok(Rc::new(alloc, task.blurred(alloc, own, small)?)?)
}

// The actor at a place, if this one has gone on.
fn gone_on<'a>(
    tasks: &'a [Rc<RaceTask>],
    actor: Actor,
    moved: &'a Rc<RaceTask>,
    at: usize,
) -> &'a Rc<RaceTask>
    requires { at < length tasks.now }
    ensures { going_in result.now.value ≡ goings_with (map rc_value tasks.now) actor (going_in moved.now.value) at }
{
    if at == actor.number() as usize {
        moved
    } else {
        &tasks[at]
    }
}

// All actors after this one has gone on.
fn tasks_after<C: Came>(
    alloc: Global,
    script: &Script,
    tasks: &[Rc<RaceTask>],
    actor: Actor,
    moved: &Rc<RaceTask>,
    came: &C,
    seqs: &SmallSeqs,
) -> Result<Vec<Rc<RaceTask>>, NoMemory>
    requires seqs { kept_seqs seqs.now ≡ settled (C.seqs came.now) }
    requires few { length tasks.now ≤ 16 }
    requires there { actor < length tasks.now }
    ensures few { IfOk result (λ ts. length ts.items ≤ 16) }
    ensures goings { IfOk result (λ ts. (a : ℕ) → goings_in (map rc_value ts.items) a
        ≡ blurred_goings script.now (C.seqs came.now)
        (goings_with (map rc_value tasks.now) actor (going_in moved.now.value)) a) }
{
    let mut all = Vec::with_capacity(alloc, tasks.len())?;
    for at in 0..tasks.len() {
        let task = gone_on(tasks, actor, moved, at);
        all.push(blurred(alloc, script, Actor::new(at as u32), task, came, seqs)?)?;
    }
    Ok(all)
}

impl RaceState {
    // The actor after its entry.
    fn moved(&self, alloc: Global, script: &Script, entry: &Entry) -> Result<Rc<RaceTask>, NoMemory>
        requires takes { ActorTakes script.now (state_in self.now) entry.now }
        requires there { entry.now.actor < length self.now.tasks.items }
        ensures { IfOk result (λ t. going_in t.value
            ≡ going_next script.now (state_in self.now).after entry.now.actor
            ((state_in self.now).going entry.now.actor) entry.now.kind) }
    {
        let here = Here {
            script,
            state: self,
        };
        let seen = here.seen(entry.actor, &entry.kind);
        let task = &self.tasks[entry.actor.number() as usize];
        let moved = task.after(alloc, script, entry.actor, &entry.kind, &seen)?;
        Ok(Rc::new(alloc, moved)?)
    }

    // The state after an entry, with these sequences and actors.
    fn rest_after(
        &self,
        alloc: Global,
        script: &Script,
        entry: &Entry,
        seqs: Rc<SmallSeqs>,
        tasks: Vec<Rc<RaceTask>>,
    ) -> Result<RaceState, NoMemory>
        requires few { length tasks.items ≤ 16 }
        requires seqs { kept_seqs seqs.value
            ≡ settled (sequences_next (state_in self.now).after.sequences entry.now.actor entry.now.kind) }
        requires goings { (a : ℕ) → goings_in (map rc_value tasks.items) a
            ≡ blurred_goings script.now
            (sequences_next (state_in self.now).after.sequences entry.now.actor entry.now.kind)
            (state_next script.now (state_in self.now) entry.now).going a }
        requires parts { PartsTake (state_in self.now) entry.now.kind }
        ensures { IfOk result (λ x. unlisted (state_in x)
            ≡ tidied script.now (state_next script.now (state_in self.now) entry.now)) }
    {
        let kind = &entry.kind;
        let processes = processes_after(alloc, self, kind, seqs)?;
        let places = places_after(alloc, self, entry.actor, kind)?;
        let actors = actors_after(alloc, self, entry.actor, kind, tasks)?;
        Ok(joined(processes, places, actors))
    }

    // The state after an entry that may change sequences.
    fn after_change(
        &self,
        alloc: Global,
        script: &Script,
        entry: &Entry,
        moved: &Rc<RaceTask>,
    ) -> Result<RaceState, NoMemory>
        requires there { entry.now.actor < length self.now.tasks.items }
        requires moved { going_in moved.now.value
            ≡ going_next script.now (state_in self.now).after entry.now.actor
            ((state_in self.now).going entry.now.actor) entry.now.kind }
        requires parts { PartsTake (state_in self.now) entry.now.kind }
        ensures { IfOk result (λ x. unlisted (state_in x)
            ≡ tidied script.now (state_next script.now (state_in self.now) entry.now)) }
    {
        let between = self.seqs.after(&entry.kind);
        let seqs = Rc::new(alloc, between.settled(alloc)?)?;
        let tasks = tasks_after(
            alloc,
            script,
            &self.tasks,
            entry.actor,
            moved,
            &between,
            &seqs,
        )?;
        let seqs = shared_seqs(&self.seqs, seqs)?;
        Ok(self.rest_after(alloc, script, entry, seqs, tasks)?)
    }

    // The state after an entry that leaves sequences as they are.
    fn after_still(
        &self,
        alloc: Global,
        script: &Script,
        entry: &Entry,
        moved: &Rc<RaceTask>,
    ) -> Result<RaceState, NoMemory>
        requires there { entry.now.actor < length self.now.tasks.items }
        requires moved { going_in moved.now.value
            ≡ going_next script.now (state_in self.now).after entry.now.actor
            ((state_in self.now).going entry.now.actor) entry.now.kind }
        requires steady { settled (kept_seqs self.now.seqs.value) ≡ kept_seqs self.now.seqs.value }
        requires still { sequences_next (kept_seqs self.now.seqs.value) entry.now.actor entry.now.kind
            ≡ kept_seqs self.now.seqs.value }
        requires parts { PartsTake (state_in self.now) entry.now.kind }
        ensures { IfOk result (λ x. unlisted (state_in x)
            ≡ tidied script.now (state_next script.now (state_in self.now) entry.now)) }
    {
        let seqs = self.seqs.clone()?;
        let tasks = tasks_after::<SmallSeqs>(
            alloc,
            script,
            &self.tasks,
            entry.actor,
            moved,
            &seqs,
            &seqs,
        )?;
        Ok(self.rest_after(alloc, script, entry, seqs, tasks)?)
    }

    /// The state after an entry, again without positions and absolute sequences.
    pub fn after(
        &self,
        alloc: Global,
        script: &Script,
        entry: &Entry,
    ) -> Result<RaceState, NoMemory>
        requires there { entry.now.actor < length self.now.tasks.items }
        requires actor { ActorTakes script.now (state_in self.now) entry.now }
        requires parts { PartsTake (state_in self.now) entry.now.kind }
        ensures { IfOk result (λ x. unlisted (state_in x)
            ≡ tidied script.now (state_next script.now (state_in self.now) entry.now)) }
    {
        let moved = self.moved(alloc, script, entry)?;
        if is_still(&entry.kind) && self.seqs.is_steady() {
            return Ok(self.after_still(alloc, script, entry, &moved)?);
        }
        Ok(self.after_change(alloc, script, entry, &moved)?)
    }
}
