// The state before the first entry.
ghost use Rattle.std.specs.Prelude.{◌≡◌, ℕ, map, IfOk};
ghost use Rattle.std.specs.Rc.{rc_value};
ghost use Rattle.hm_base.specs.Program.{Program};
ghost use Rattle.hm_history.specs.Kernel.Going.{going_from, state_start};
ghost use Rattle.hm_history.specs.Memory.Plain.{plain_start};
ghost use Rattle.hm_folds.specs.Been.{been_of};
ghost use Rattle.hm_race_states.specs.States.{goings_in};
ghost use Rattle.hm_flaw_states.specs.Joined.{joined};
ghost use Rattle.hm_flaw_states.specs.States.{state_in};
ghost use Rattle.hm_flaw_states.specs.declared.groups.ActorParts.{ActorParts as AnyActors};

use crate::groups::{
    ActorParts, MemoryParts, first_devices, first_locks, first_pages, first_processes,
};
use crate::joined::joined;
use crate::state::FlawState;
use hm_base::{NoMemory, Script};
use hm_race_states::start::first_tasks;
use std::alloc::Global;

// Process 0 alone was there.
fn first_been() -> [bool; 32]
    ensures { been_of result ≡ plain_start.been }
{
    let mut been = [false; 32];
    been[0] = true;
    been
}

// All but the actors.
fn first_memory(alloc: Global) -> Result<MemoryParts, NoMemory>
    ensures { IfOk result (λ m. (c : Program) (x : AnyActors)
        → ((a : ℕ) → goings_in (map rc_value x.tasks.items) a ≡ going_from c a 0)
        → state_in (joined m x) ≡ state_start c) }
{
    let processes = first_processes(alloc)?;
    let pages = first_pages(alloc)?;
    let devices = first_devices(alloc)?;
    let locking = first_locks(alloc)?;
    Ok(MemoryParts {
        entries: 0,
        been: first_been(),
        processes,
        pages,
        devices,
        locking,
    })
}

impl FlawState {
    /// The state before the first entry.
    pub fn start(alloc: Global, script: &Script) -> Result<FlawState, NoMemory>
        ensures { IfOk result (λ x. state_in x ≡ state_start script.now) }
    {
        let tasks = first_tasks(alloc, script)?;
        let memory = first_memory(alloc)?;
        Ok(joined(memory, ActorParts { tasks }))
    }
}
