// A state made of its groups of parts.
ghost use Rattle.std.specs.Prelude.{◌≡◌};
ghost use Rattle.hm_race_states.specs.Parts.{joined};

use crate::parts::{ActorParts, PlaceParts, ProcessParts};
use crate::state::RaceState;

/// The state of these groups.
pub(crate) fn joined(processes: ProcessParts, places: PlaceParts, actors: ActorParts) -> RaceState
    ensures { result ≡ joined processes places actors }
{
    let ProcessParts {
        spaces,
        bytes,
        mirrors,
        seqs,
    } = processes;
    let PlaceParts {
        places,
        held,
        tables,
        locks,
    } = places;
    let ActorParts { marks, maps, tasks } = actors;
    RaceState {
        spaces,
        bytes,
        mirrors,
        places,
        held,
        marks,
        tables,
        locks,
        maps,
        seqs,
        tasks,
    }
}
