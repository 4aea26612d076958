// A turn of an actor at a state of a race.
ghost use Rattle.std.specs.Prelude.{◌≡◌, [], ◌∷◌, ◌++◌, List, IfOk};
ghost use Rattle.hm_history.specs.Kernel.Due.{due};
ghost use Rattle.hm_history.specs.declared.Entry.{Entry as AnyEntry};
ghost use Rattle.hm_history.specs.declared.Progress.{Progress as AnyProgress};
ghost use Rattle.hm_race_laws.specs.Blur.{blurred_entry};
ghost use Rattle.hm_race_laws.specs.Positions.{forget_kind};
ghost use Rattle.hm_race_laws.specs.Numbers.{small_kind};
ghost use Rattle.hm_race_top.specs.Run.Turns.{IsDue, IsShown, IsTurned, Shows};

use hm_base::{Actor, NoMemory, Script};
use hm_history::{Entry, Kind, Progress};
use hm_machine::copy_entry;
use hm_race_states::here::Here;
use hm_race_states::state::RaceState;
use skip_rules::Multiples;
use std::alloc::Global;

/// An entry, without positions and sequences, and the state after it.
#[derive(Drop)]
pub struct Turned {
    pub entry: Entry,
    pub state: RaceState,
}

fn blurred_kind(mut kind: Kind) -> Kind
    ensures { result ≡ forget_kind (small_kind kind) }
{
    match &mut kind {
        Kind::Set { since, .. } => *since = 0,
        Kind::Attached { seq, .. } => *seq = 0,
        Kind::Detaching { seq, .. } => *seq = 0,
        Kind::Start { seq, .. } => *seq = 0,
        Kind::Told { seq, .. } => *seq = 0,
        Kind::End { seq, .. } => *seq = 0,
        Kind::Begin { seq, .. } => *seq = 1,
        _ => (),
    }
    kind
}

fn blurred_entry(entry: Entry) -> Entry
    ensures { result ≡ blurred_entry entry }
{
    Entry {
        actor: entry.actor,
        kind: blurred_kind(entry.kind),
    }
}

/// The state after an entry that is due there, with its positions and sequences.
pub(crate) fn after_entry(
    alloc: Global,
    script: &Script,
    state: &RaceState,
    entry: &Entry,
) -> Result<RaceState, NoMemory>
    requires { IsDue script.now state.now entry.now }
    ensures { IfOk result (λ x. (h : List AnyEntry) → Shows script.now h state.now
        → due script.now h entry.now.actor ≡ AnyProgress.Did entry.now → Shows script.now (h ++ entry.now ∷ []) x) }
{
    script.facts();
    state.facts();
    hm_race_laws::forms_go_on();
    let entry = blurred_entry(copy_entry(alloc, entry)?);
    Ok(state.after(alloc, script, &entry)?)
}

/// A turn of the actor: the entry that is due and the state after it, or `None` if none is due.
pub(crate) fn turn(
    alloc: Global,
    script: &Script,
    state: &RaceState,
    actor: Actor,
) -> Result<Option<Turned>, NoMemory>
    requires { IsShown script.now state.now 2000000 }
    ensures { IfOk result (λ o. (h : List AnyEntry) → Shows script.now h state.now → IsTurned script.now h actor o) }
{
    script.facts();
    state.facts();
    hm_race_laws::forms_go_on();
    match hm_steps::due(&Here { script, state }, &Multiples, alloc, actor)? {
        Progress::Did(entry) => {
            let entry = blurred_entry(entry);
            let state = state.after(alloc, script, &entry)?;
            Ok(Some(Turned { entry, state }))
        }
        Progress::Waiting(_) => Ok(None),
        Progress::Idle => Ok(None),
    }
}
