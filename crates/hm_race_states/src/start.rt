// The state before the first entry.
ghost use Rattle.std.specs.Prelude.{◌≡◌, ◌≤◌, ℕ, length, map, IfOk};
ghost use Rattle.std.specs.Rc.{rc_value};
ghost use Rattle.hm_history.specs.Kernel.Going.{going_from, state_start};
ghost use Rattle.hm_race_laws.specs.Blur.{tidied, unlisted};
ghost use Rattle.hm_race_states.specs.Parts.{ActorsStart, PlacesStart, ProcessesStart};
ghost use Rattle.hm_race_states.specs.States.{goings_in, state_in};

use crate::joined::joined;
use crate::memory::RaceBytes;
use crate::mirrors::RaceMirrors;
use crate::parts::{ActorParts, PlaceParts, ProcessParts};
use crate::small::SmallSeqs;
use crate::spaces::RaceSpaces;
use crate::state::RaceState;
use crate::tasks::RaceTask;
use hm_base::{Actor, NoMemory, Script};
use hm_race_keys::device_marks::DeviceMarks;
use hm_race_keys::frame_locks::FrameLocks;
use hm_race_keys::held_frames::HeldFrames;
use hm_race_keys::map_locks::MapLocks;
use hm_race_keys::page_places::Places;
use hm_race_keys::table_entries::TableEntries;
use std::alloc::Global;
use std::rc::Rc;

/// How many actors the script has.
pub fn count_of(script: &Script) -> u32
    ensures same { result ≡ length script.now.actors }
    ensures few { result ≤ 16 }
{
    script.facts();
    script.actors.len() as u32
}

/// Each actor of the script at its first operation.
pub fn first_tasks(alloc: Global, script: &Script) -> Result<Vec<Rc<RaceTask>>, NoMemory>
    ensures few { IfOk result (λ ts. length ts.items ≤ 16) }
    ensures goings { IfOk result (λ ts. (a : ℕ) → goings_in (map rc_value ts.items) a ≡ going_from script.now a 0) }
{
    let count = count_of(script);
    let mut all = Vec::with_capacity(alloc, count as usize)?;
    for number in 0..count {
        let task = RaceTask::start(alloc, script, Actor::new(number))?;
        all.push(Rc::new(alloc, task)?)?;
    }
    Ok(all)
}

// What the state before the first entry has by process and by mirror.
fn first_processes(alloc: Global) -> Result<ProcessParts, NoMemory>
    ensures { IfOk result ProcessesStart }
{
    Ok(ProcessParts {
        spaces: Rc::new(alloc, RaceSpaces::start(alloc)?)?,
        bytes: Rc::new(alloc, RaceBytes::new(alloc))?,
        mirrors: Rc::new(alloc, RaceMirrors::new(alloc))?,
        seqs: Rc::new(alloc, SmallSeqs::start(alloc))?,
    })
}

// What it has by page and by frame.
fn first_places(alloc: Global) -> Result<PlaceParts, NoMemory>
    ensures { IfOk result PlacesStart }
{
    Ok(PlaceParts {
        places: Rc::new(alloc, Places::new(alloc))?,
        held: Rc::new(alloc, HeldFrames::new(alloc))?,
        tables: Rc::new(alloc, TableEntries::new(alloc))?,
        locks: Rc::new(alloc, FrameLocks::new(alloc))?,
    })
}

// What it has by actor, and the marks of devices.
fn first_actors(alloc: Global, script: &Script) -> Result<ActorParts, NoMemory>
    ensures { IfOk result (ActorsStart script.now) }
{
    Ok(ActorParts {
        marks: Rc::new(alloc, DeviceMarks::new())?,
        maps: Rc::new(alloc, MapLocks::new())?,
        tasks: first_tasks(alloc, script)?,
    })
}

impl RaceState {
    /// The state before the first entry.
    pub fn start(alloc: Global, script: &Script) -> Result<RaceState, NoMemory>
        ensures { IfOk result (λ x. unlisted (state_in x) ≡ tidied script.now (state_start script.now)) }
    {
        let processes = first_processes(alloc)?;
        let places = first_places(alloc)?;
        let actors = first_actors(alloc, script)?;
        Ok(joined(processes, places, actors))
    }
}
