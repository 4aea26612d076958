// The parts of a state in groups of three or four. What makes a whole state makes the groups one after the other: few
// are alive at each of its ways out.
ghost use Rattle.std.specs.Prelude.{◌≡◌, ◌+◌, ◌≤◌, ℕ, false, None, [], length, IfOk};
ghost use Rattle.hm_history.specs.Memory.Contents.{contents_next};
ghost use Rattle.hm_history.specs.Memory.Locks.{frame_next, map_next};
ghost use Rattle.hm_history.specs.Memory.Places.{places_next};
ghost use Rattle.hm_history.specs.Memory.Plain.{plain_next, plain_start};
ghost use Rattle.hm_history.specs.Memory.Sequences.{sequences_next, sequences_start};
ghost use Rattle.hm_race_keys.specs.Arrays.{flag_in, lock_in};
ghost use Rattle.hm_race_keys.specs.FrameTables.{held_in, lockers_in};
ghost use Rattle.hm_race_keys.specs.PagePlaces.{places_in};
ghost use Rattle.hm_race_states.specs.Bytes.{bytes_in};
ghost use Rattle.hm_race_states.specs.Mirrors.{mirrors_in};
ghost use Rattle.hm_race_states.specs.Small.{unguarded};
ghost use Rattle.hm_flaw_states.specs.Exact.{exact_in, IsPaced};
ghost use Rattle.hm_race_states.specs.Spaces.{bare, spaces_in};
ghost use Rattle.hm_spaces.specs.Spaces.{SpacesFit};
ghost use Rattle.hm_flaw_states.specs.Commits.{commits_in, commits_next};
ghost use Rattle.hm_flaw_states.specs.FrameBytes.{contents_in};
ghost use Rattle.hm_flaw_states.specs.OwnTables.{table_in};
ghost use Rattle.hm_flaw_states.specs.Placed.{pages_in, placed_next};
ghost use Rattle.hm_flaw_states.specs.Owns.{StaysInPage};
ghost use Rattle.hm_flaw_states.specs.Seqs.{guards_in, seqs_in};
ghost use Rattle.hm_flaw_states.specs.States.{plain_in, state_in};
ghost use Rattle.hm_flaw_states.specs.Windows.{SameWindows};

use crate::commits::{FrameCommits, commits_after};
use crate::exact_seqs::{ExactSeqs, seqs_after};
use crate::frame_bytes::FrameBytes;
use crate::guards::{ActorGuards, guards_after};
use crate::here::FlawHere;
use crate::own_tables::OwnTables;
use crate::placed::{PlacedPages, placed_after};
use crate::state::FlawState;
use hm_base::{Actor, NoMemory};
use hm_history::Kind;
use hm_race_keys::device_marks::DeviceMarks;
use hm_race_keys::frame_locks::FrameLocks;
use hm_race_keys::held_frames::HeldFrames;
use hm_race_keys::map_locks::MapLocks;
use hm_race_keys::page_places::Places;
use hm_race_states::memory::RaceBytes;
use hm_race_states::mirrors::RaceMirrors;
use hm_race_states::spaces::RaceSpaces;
use hm_race_states::tasks::RaceTask;
use std::alloc::Global;
use std::rc::Rc;

/// The processes, their bytes, and the mirrors.
#[derive(Drop)]
pub(crate) struct ProcessParts {
    pub spaces: Rc<RaceSpaces>,
    pub bytes: Rc<RaceBytes>,
    pub mirrors: Rc<RaceMirrors>,
}

/// What stands at pages, and which frames are held.
#[derive(Drop)]
pub(crate) struct PageParts {
    pub places: Rc<Places>,
    pub placed: Rc<PlacedPages>,
    pub held: Rc<HeldFrames>,
    pub commits: Rc<FrameCommits>,
}

/// The marks of devices, the mirrors' tables, and the bytes of frames.
#[derive(Drop)]
pub(crate) struct DeviceParts {
    pub marks: Rc<DeviceMarks>,
    pub tables: Rc<OwnTables>,
    pub contents: Rc<FrameBytes>,
}

/// The locks, and the sequences with what guards them.
#[derive(Drop)]
pub(crate) struct LockParts {
    pub locks: Rc<FrameLocks>,
    pub maps: Rc<MapLocks>,
    pub seqs: Rc<ExactSeqs>,
    pub guards: Rc<ActorGuards>,
}

/// Of a state all but its actors.
#[derive(Drop)]
pub(crate) struct MemoryParts {
    pub entries: u64,
    pub been: [bool; 32],
    pub processes: ProcessParts,
    pub pages: PageParts,
    pub devices: DeviceParts,
    pub locking: LockParts,
    ghost windows: { SameWindows processes.mirrors.value locking.seqs.value.kept.intervals },
    ghost paced: { IsPaced locking.seqs.value.kept entries },
}

/// Of a state its actors.
#[derive(Drop)]
pub(crate) struct ActorParts {
    pub tasks: Vec<Rc<RaceTask>>,
    ghost few: { length tasks.items ≤ 16 },
}

// ---- before the first entry

/// Process 0 alone, with no bytes and no mirrors.
pub(crate) fn first_processes(alloc: Global) -> Result<ProcessParts, NoMemory>
    ensures spaces { IfOk result (λ x. spaces_in x.spaces.value ≡ bare plain_start) }
    ensures bytes { IfOk result (λ x. x.bytes.value ≡ []) }
    ensures mirrors { IfOk result (λ x. x.mirrors.value ≡ []) }
{
    Ok(ProcessParts {
        spaces: Rc::new(alloc, RaceSpaces::start(alloc)?)?,
        bytes: Rc::new(alloc, RaceBytes::new(alloc))?,
        mirrors: Rc::new(alloc, RaceMirrors::new(alloc))?,
    })
}

/// No page, no frame.
pub(crate) fn first_pages(alloc: Global) -> Result<PageParts, NoMemory>
    ensures places { IfOk result (λ x. x.places.value ≡ []) }
    ensures placed { IfOk result (λ x. pages_in x.placed.value.pages.items ≡ []) }
    ensures held { IfOk result (λ x. x.held.value ≡ []) }
    ensures commits { IfOk result (λ x. x.commits.value ≡ []) }
{
    Ok(PageParts {
        places: Rc::new(alloc, Places::new(alloc))?,
        placed: Rc::new(alloc, PlacedPages::new(alloc))?,
        held: Rc::new(alloc, HeldFrames::new(alloc))?,
        commits: Rc::new(alloc, FrameCommits::new(alloc))?,
    })
}

/// No mark, no table entry, no byte.
pub(crate) fn first_devices(alloc: Global) -> Result<DeviceParts, NoMemory>
    ensures withdrawn { IfOk result (λ x. (d : ℕ) → flag_in x.marks.value.withdrawn d ≡ false) }
    ensures removed { IfOk result (λ x. (d : ℕ) → flag_in x.marks.value.removed d ≡ false) }
    ensures tables { IfOk result (λ x. x.tables.value ≡ []) }
    ensures contents { IfOk result (λ x. x.contents.value ≡ []) }
{
    Ok(DeviceParts {
        marks: Rc::new(alloc, DeviceMarks::new())?,
        tables: Rc::new(alloc, OwnTables::new(alloc))?,
        contents: Rc::new(alloc, FrameBytes::new(alloc))?,
    })
}

/// No lock, and the sequences with which all processes begin.
pub(crate) fn first_locks(alloc: Global) -> Result<LockParts, NoMemory>
    ensures locks { IfOk result (λ x. x.locks.value ≡ []) }
    ensures maps { IfOk result (λ x. (a : ℕ) → lock_in x.maps.value.locks a ≡ None) }
    ensures seqs { IfOk result (λ x. exact_in x.seqs.value.kept ≡ sequences_start) }
    ensures guards { IfOk result (λ x. (a : ℕ) → guards_in x.guards.value.guards.items a ≡ None) }
{
    Ok(LockParts {
        locks: Rc::new(alloc, FrameLocks::new(alloc))?,
        maps: Rc::new(alloc, MapLocks::new())?,
        seqs: Rc::new(alloc, ExactSeqs::start())?,
        guards: Rc::new(alloc, ActorGuards::new(alloc)?)?,
    })
}

// ---- after an entry

impl FlawState {
    /// The processes, their bytes, and the mirrors after an entry.
    pub(crate) fn processes_after(
        &self,
        alloc: Global,
        kind: &Kind,
    ) -> Result<ProcessParts, NoMemory>
        requires areas { SpacesFit (plain_in self.now) kind.now }
        requires page { StaysInPage kind.now }
        ensures spaces { IfOk result
            (λ x. spaces_in x.spaces.value ≡ bare (plain_next (state_in self.now).after.plain kind.now)) }
        ensures bytes { IfOk result
            (λ x. bytes_in x.bytes.value ≡ (plain_next (state_in self.now).after.plain kind.now).bytes) }
        ensures mirrors { IfOk result
            (λ x. mirrors_in x.mirrors.value ≡ (plain_next (state_in self.now).after.plain kind.now).mirrors) }
    {
        Ok(ProcessParts {
            spaces: self.spaces_after(alloc, kind)?,
            bytes: self.bytes_after(alloc, kind)?,
            mirrors: self.mirrors_after(alloc, kind)?,
        })
    }

    /// What stands at pages, and which frames are held, after an entry.
    pub(crate) fn pages_after(&self, alloc: Global, kind: &Kind) -> Result<PageParts, NoMemory>
        ensures place { IfOk result
            (λ x. places_in x.places.value ≡ (places_next (state_in self.now).after.places kind.now).place) }
        ensures placed { IfOk result (λ x. pages_in x.placed.value.pages.items
            ≡ placed_next (pages_in self.now.placed.value.pages.items) kind.now) }
        ensures held { IfOk result
            (λ x. held_in x.held.value ≡ (places_next (state_in self.now).after.places kind.now).held) }
        ensures commits { IfOk result
            (λ x. commits_in x.commits.value ≡ commits_next (commits_in self.now.commits.value) kind.now) }
    {
        Ok(PageParts {
            places: self.places_after(alloc, kind)?,
            placed: placed_after(alloc, &self.placed, kind)?,
            held: self.held_after(alloc, kind)?,
            commits: commits_after(alloc, &self.commits, kind)?,
        })
    }

    /// The locks, and the sequences with what guards them, after an entry.
    pub(crate) fn locking_after(
        &self,
        alloc: Global,
        actor: Actor,
        kind: &Kind,
    ) -> Result<LockParts, NoMemory>
        requires { IsPaced self.now.seqs.value.kept 2000000 }
        ensures frames { IfOk result (λ x. lockers_in x.locks.value
            ≡ frame_next (state_in self.now).after.locks (state_in self.now).after.places actor kind.now) }
        ensures maps { IfOk result
            (λ x. lock_in x.maps.value.locks ≡ map_next (state_in self.now).after.locks actor kind.now) }
        ensures seqs { IfOk result (λ x. (a : ℕ) → exact_in x.seqs.value.kept
            ≡ unguarded (sequences_next (exact_in self.now.seqs.value.kept) a kind.now)) }
        ensures paced { IfOk result (λ x. (n : ℕ) → IsPaced self.now.seqs.value.kept n
            → IsPaced x.seqs.value.kept (n + 1)) }
        ensures guards { IfOk result (λ x. guards_in x.guards.value.guards.items
            ≡ (sequences_next (seqs_in self.now.seqs.value self.now.guards.value) actor kind.now).guard) }
    {
        Ok(LockParts {
            locks: self.locks_after(alloc, actor, kind)?,
            maps: self.maps_after(alloc, actor, kind)?,
            seqs: seqs_after(alloc, &self.seqs, kind)?,
            guards: guards_after(alloc, &self.guards, &self.seqs, actor, kind)?,
        })
    }
}

impl<'a> FlawHere<'a> {
    /// The marks of devices, the mirrors' tables, and the bytes of frames after an entry.
    pub(crate) fn devices_after(&self, alloc: Global, kind: &Kind) -> Result<DeviceParts, NoMemory>
        requires { StaysInPage kind.now }
        ensures withdrawn { IfOk result (λ x. flag_in x.marks.value.withdrawn
            ≡ (places_next (state_in self.now.state.now).after.places kind.now).withdrawn) }
        ensures removed { IfOk result (λ x. flag_in x.marks.value.removed
            ≡ (places_next (state_in self.now.state.now).after.places kind.now).removed) }
        ensures table { IfOk result (λ x. table_in x.tables.value
            ≡ (places_next (state_in self.now.state.now).after.places kind.now).table) }
        ensures contents { IfOk result (λ x. contents_in x.contents.value
            ≡ contents_next (state_in self.now.state.now).after.plain (state_in self.now.state.now).after.places
            (state_in self.now.state.now).after.contents kind.now) }
    {
        Ok(DeviceParts {
            marks: self.state.marks_after(alloc, kind)?,
            tables: self.tables_after(alloc, kind)?,
            contents: self.contents_after(alloc, kind)?,
        })
    }
}
