// A state after an entry.
ghost use Rattle.std.specs.Prelude.{◌≡◌, ◌<◌, ◌≤◌, true, length, map, IfOk};
ghost use Rattle.std.specs.Rc.{rc_value};
ghost use Rattle.hm_history.specs.Kernel.Going.{going_next, op_at};
ghost use Rattle.hm_history.specs.Memory.After.{after_entry};
ghost use Rattle.hm_history.specs.Memory.Plain.{plain_accepts};
ghost use Rattle.hm_history.specs.declared.phases.Seen.{Seen as AnySeen};
ghost use Rattle.hm_actors.specs.Actors.{IsSeen};
ghost use Rattle.hm_flaws.specs.Flawed.{found, flawed_next, going_by, taken_for};
ghost use Rattle.hm_flaw_states.specs.Owns.{driver_in, StaysInPage};
ghost use Rattle.hm_flaw_states.specs.Rooms.{IsQuietAt};
ghost use Rattle.hm_race_states.specs.Goings.{goings_with};
ghost use Rattle.hm_race_states.specs.States.{goings_in};
ghost use Rattle.hm_race_states.specs.Tasks.{going_in};
ghost use Rattle.hm_flaw_states.specs.Follows.{Follows, Standing};
ghost use Rattle.hm_flaw_states.specs.Joined.{joined};
ghost use Rattle.hm_flaw_states.specs.States.{plain_in, state_in};
ghost use Rattle.hm_flaw_states.specs.declared.groups.ActorParts.{ActorParts as AnyActors};

use crate::found::Found;
use crate::goings::{facts_of, task_after};
use crate::groups::{ActorParts, MemoryParts};
use crate::here::FlawHere;
use crate::joined::joined;
use crate::owns::Own;
use crate::parts::been_after;
use crate::seen::seen;
use crate::state::FlawState;
use crate::steps::taken_for;
use hm_base::{Actor, NoMemory, Script};
use hm_flaws::Flaw;
use hm_history::phases::Seen;
use hm_history::{Entry, Kind};
use hm_race_states::tasks::RaceTask;
use std::alloc::Global;
use std::rc::Rc;

// The same actors, shared.
fn shared(alloc: Global, tasks: &[Rc<RaceTask>]) -> Result<Vec<Rc<RaceTask>>, NoMemory>
    ensures len { IfOk result (λ x. length x.items ≡ length tasks.now) }
    ensures same { IfOk result (λ x. map rc_value x.items ≡ map rc_value tasks.now) }
{
    let mut all = Vec::with_capacity(alloc, tasks.len())?;
    for at in 0..tasks.len() {
        all.push(tasks[at].clone()?)?;
    }
    Ok(all)
}

// All actors after this one has gone on.
fn tasks_with(
    alloc: Global,
    tasks: &[Rc<RaceTask>],
    actor: Actor,
    moved: RaceTask,
) -> Result<ActorParts, NoMemory>
    requires few { length tasks.now ≤ 16 }
    requires there { actor < length tasks.now }
    ensures { IfOk result (λ x. goings_in (map rc_value x.tasks.items)
        ≡ goings_with (map rc_value tasks.now) actor (going_in moved)) }
{
    let mut all = shared(alloc, tasks)?;
    let task = Rc::new(alloc, moved)?;
    all[actor.number() as usize] = task;
    Ok(ActorParts { tasks: all })
}

impl FlawState {
    // What the actor sees at its entry, in the state as actors find it.
    fn seen(&self, script: &Script, flaw: Flaw, own: &Own, actor: Actor, kind: &Kind) -> Seen
        ensures seen { IsSeen script.now
            (found flaw script.now (record { state = state_in self.now; driver = driver_in own.now })) actor
            ((state_in self.now).going actor) kind.now result }
        ensures at { result.at ≡ (state_in self.now).after.length }
    {
        let here = FlawHere {
            script,
            state: self,
        };
        let orphan = self.orphan(kind);
        match flaw {
            Flaw::NoFlaw => seen(&here, actor, kind, orphan),
            _ => {
                let view = Found {
                    world: &here,
                    own,
                    flaw,
                };
                seen(&view, actor, kind, orphan)
            }
        }
    }

    // The actor after its entry, which it takes for one of this kind.
    fn gone_by(
        &self,
        alloc: Global,
        script: &Script,
        flaw: Flaw,
        own: &Own,
        actor: Actor,
        kind: &Kind,
    ) -> Result<RaceTask, NoMemory>
        requires there { actor < length self.now.tasks.items }
        requires room { self.now.entries ≤ 2000000 }
        requires standing { Standing (state_in self.now) }
        requires quiet { (seen : AnySeen)
            → IsSeen script.now
            (found flaw script.now (record { state = state_in self.now; driver = driver_in own.now })) actor
            ((state_in self.now).going actor) kind.now seen
            → IsQuietAt ((state_in self.now).going actor).stack seen }
        ensures { IfOk result (λ t. let g = (state_in self.now).going actor in going_in t
            ≡ going_by flaw (op_at script.now actor g.index) (state_in self.now).after.length g.stack kind.now
            (going_next script.now
            (found flaw script.now (record { state = state_in self.now; driver = driver_in own.now })) actor g
            kind.now)) }
    {
        let seen = self.seen(script, flaw, own, actor, kind);
        let task = &self.tasks[actor.number() as usize];
        Ok(task_after(alloc, script, flaw, actor, task, kind, &seen)?)
    }

    // The actor after its entry.
    fn moved(
        &self,
        alloc: Global,
        script: &Script,
        flaw: Flaw,
        own: &Own,
        entry: &Entry,
    ) -> Result<RaceTask, NoMemory>
        requires { Follows flaw script.now self.now (driver_in own.now) entry.now }
        ensures { IfOk result (λ t. let g = (state_in self.now).going entry.now.actor in
            let k = taken_for flaw g.stack entry.now.kind in going_in t
            ≡ going_by flaw (op_at script.now entry.now.actor g.index) (state_in self.now).after.length g.stack k
            (going_next script.now
            (found flaw script.now (record { state = state_in self.now; driver = driver_in own.now }))
            entry.now.actor g k)) }
    {
        let here = FlawHere {
            script,
            state: self,
        };
        let actor = entry.actor;
        match taken_for(&here, flaw, actor, &entry.kind) {
            Some(kind) => Ok(self.gone_by(alloc, script, flaw, own, actor, &kind)?),
            None => Ok(self.gone_by(alloc, script, flaw, own, actor, &entry.kind)?),
        }
    }

    // All actors after the actor of an entry has gone on.
    fn actors_after(
        &self,
        alloc: Global,
        script: &Script,
        flaw: Flaw,
        own: &Own,
        entry: &Entry,
    ) -> Result<ActorParts, NoMemory>
        requires { Follows flaw script.now self.now (driver_in own.now) entry.now }
        ensures { IfOk result (λ x. goings_in (map rc_value x.tasks.items)
            ≡ (flawed_next flaw script.now (record { state = state_in self.now; driver = driver_in own.now })
            entry.now).state.going) }
    {
        let moved = self.moved(alloc, script, flaw, own, entry)?;
        Ok(tasks_with(alloc, &self.tasks, entry.actor, moved)?)
    }

    // All but the actors after an entry.
    fn memory_after(
        &self,
        alloc: Global,
        script: &Script,
        entry: &Entry,
    ) -> Result<MemoryParts, NoMemory>
        requires page { StaysInPage entry.now.kind }
        requires answers { plain_accepts (plain_in self.now) entry.now.kind ≡ true }
        requires room { self.now.entries ≤ 2000000 }
        ensures { IfOk result (λ m. (x : AnyActors)
            → (state_in (joined m x)).after ≡ after_entry (state_in self.now).after entry.now) }
    {
        let kind = &entry.kind;
        let here = FlawHere {
            script,
            state: self,
        };
        let entries = self.entries + 1;
        let processes = self.processes_after(alloc, kind)?;
        let pages = self.pages_after(alloc, kind)?;
        let devices = here.devices_after(alloc, kind)?;
        let locking = self.locking_after(alloc, entry.actor, kind)?;
        Ok(MemoryParts {
            entries,
            been: been_after(&self.been, kind),
            processes,
            pages,
            devices,
            locking,
        })
    }

    /// The state after an entry that is due, if the driver has this flaw.
    pub fn after(
        &self,
        alloc: Global,
        script: &Script,
        flaw: Flaw,
        own: &Own,
        entry: &Entry,
    ) -> Result<FlawState, NoMemory>
        requires { Follows flaw script.now self.now (driver_in own.now) entry.now }
        ensures next { IfOk result (λ x. state_in x
            ≡ (flawed_next flaw script.now (record { state = state_in self.now; driver = driver_in own.now })
            entry.now).state) }
        ensures standing { IfOk result (λ x. Standing (state_in x)) }
    {
        script.facts();
        facts_of(&entry.kind);
        let actors = self.actors_after(alloc, script, flaw, own, entry)?;
        let memory = self.memory_after(alloc, script, entry)?;
        Ok(joined(memory, actors))
    }
}
