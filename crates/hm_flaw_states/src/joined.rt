// A state made of its parts.
ghost use Rattle.std.specs.Prelude.{◌≡◌};
ghost use Rattle.hm_flaw_states.specs.Joined.{joined};
ghost use Rattle.hm_flaw_states.specs.States.{state_in};

use crate::groups::{ActorParts, MemoryParts};
use crate::state::FlawState;

/// The state of these parts.
pub(crate) fn joined(memory: MemoryParts, actors: ActorParts) -> FlawState
    ensures { state_in result ≡ state_in (joined memory actors) }
{
    let been = memory.been;
    let processes = memory.processes;
    let pages = memory.pages;
    let devices = memory.devices;
    let locking = memory.locking;
    FlawState {
        entries: memory.entries,
        been,
        spaces: processes.spaces,
        bytes: processes.bytes,
        mirrors: processes.mirrors,
        places: pages.places,
        placed: pages.placed,
        held: pages.held,
        commits: pages.commits,
        marks: devices.marks,
        tables: devices.tables,
        locks: locking.locks,
        maps: locking.maps,
        seqs: locking.seqs,
        guards: locking.guards,
        contents: devices.contents,
        tasks: actors.tasks,
    }
}
