// The holds of a race that was found.
ghost use Rattle.std.specs.Prelude.{◌≡◌, ◌++◌, ◌∷◌, [], length, map, IfErr, IfOk};
ghost use Rattle.hm_held_search.specs.Events.{event_of, first_of};
ghost use Rattle.hm_held_search.specs.Finding.{IsFound, MayFailBy};

use crate::events::{Event, first_holds};
use crate::finding::{FoundHolds, find_holds};
use hm_base::NoMemory;
use hm_flaw_search::FlawRace;
use hm_history::{Entry, StepError};
use std::alloc::Global;

// What holds name of these entries, and of the last.
fn events_of(alloc: Global, entries: &[Entry], last: &Entry) -> Result<Vec<Event>, NoMemory>
    ensures { IfOk result (λ v. v.items ≡ map event_of (entries.now ++ last.now ∷ [])) }
{
    let mut events = Vec::new(alloc);
    for entry in entries {
        events.push(Event::of(entry))?;
    }
    events.push(Event::of(last))?;
    Ok(events)
}

/// The few holds of a race: these entries, and the last, which goes wrong. It begins with a hold for each change of the
/// actor, and one for each other actor at the end, and leaves out what is not needed.
pub fn holds_of_race(
    race: &FlawRace,
    entries: &[Entry],
    last: &Entry,
    most: u64,
) -> Result<FoundHolds, StepError>
    ensures found { IfOk result (IsFound race.now
        (first_of (map event_of (entries.now ++ last.now ∷ [])) (length race.now.script.actors)) most) }
    ensures fails { IfErr result (MayFailBy race.now) }
{
    let Ok(events) = events_of(race.alloc, entries, last) else {
        return Err(StepError::NoMemory);
    };
    let Ok(first) = first_holds(race.alloc, &events, race.count()) else {
        return Err(StepError::NoMemory);
    };
    find_holds(race, first, most)
}
