// The parts of a state after an entry. What the entry does not change is shared.
ghost use Rattle.std.specs.Prelude.{◌≡◌, ◌≤◌, is_some, length, IfOk};
ghost use Rattle.hm_history.specs.Memory.Locks.{locks_start, map_next, orphan};
ghost use Rattle.hm_history.specs.Memory.Plain.{owner, plain_next, with_zeros, written_for};
ghost use Rattle.hm_history.specs.Memory.Words.{with_at};
ghost use Rattle.hm_race_laws.specs.Outcomes.{answer_of, answers_next};
ghost use Rattle.hm_race_keys.specs.Arrays.{flag_in, lock_in};
ghost use Rattle.hm_race_keys.specs.FrameTables.{held_in, lockers_in};
ghost use Rattle.hm_race_keys.specs.PagePlaces.{places_in, places_of};
ghost use Rattle.hm_race_keys.specs.TableEntries.{table_in};
ghost use Rattle.hm_race_keys.specs.Trail.{answers_in, entry_old, held_next, lockers_next, mirrors_next, place_next};
ghost use Rattle.hm_race_keys.specs.Trail.{removed_next, table_next, withdrawn_next};
ghost use Rattle.hm_race_states.specs.Afters.{bytes_next, BytesTake, PartsTake};
ghost use Rattle.hm_race_states.specs.Bytes.{bytes_in};
ghost use Rattle.hm_race_states.specs.Mirrors.{mirrors_in, plain_by};
ghost use Rattle.hm_race_states.specs.Parts.{ActorsGo, PlacesGo, ProcessesGo};
ghost use Rattle.hm_race_states.specs.Small.{kept_seqs};
ghost use Rattle.hm_race_states.specs.Spaces.{bare, spaces_in};
ghost use Rattle.hm_race_states.specs.States.{state_in};
ghost use Rattle.hm_laws.specs.Allowed.{InPage};
ghost use Rattle.hm_spaces.specs.Spaces.{SpacesFit};

use crate::memory::RaceBytes;
use crate::mirrors::RaceMirrors;
use crate::parts::{ActorParts, PlaceParts, ProcessParts};
use crate::small::SmallSeqs;
use crate::spaces::RaceSpaces;
use crate::state::RaceState;
use crate::tasks::RaceTask;
use hm_base::{Actor, NoMemory, Place, Proc, Span};
use hm_history::{Entry, Kind, Who};
use hm_race_keys::device_marks::DeviceMarks;
use hm_race_keys::frame_locks::FrameLocks;
use hm_race_keys::held_frames::HeldFrames;
use hm_race_keys::map_locks::MapLocks;
use hm_race_keys::page_places::Places;
use hm_race_keys::shared_answers::SharedAnswers;
use hm_race_keys::table_entries::TableEntries;
use std::alloc::Global;
use std::rc::Rc;

fn spaces_after(
    alloc: Global,
    spaces: &Rc<RaceSpaces>,
    kind: &Kind,
) -> Result<Rc<RaceSpaces>, NoMemory>
    requires { SpacesFit (spaces_in spaces.now.value) kind.now }
    ensures { IfOk result (λ x. spaces_in x.value ≡ bare (plain_next (spaces_in spaces.now.value) kind.now)) }
{
    match kind {
        Kind::Mapped { .. }
        | Kind::Unmapped { .. }
        | Kind::Protected { .. }
        | Kind::Named { .. }
        | Kind::Forked { .. }
        | Kind::Exited(..) => Ok(Rc::new(alloc, spaces.after(alloc, kind)?)?),
        _ => Ok(spaces.clone()?),
    }
}

// The process whose memory an access is of; none if its mirror was never attached.
fn owner_of(mirrors: &RaceMirrors, who: Who) -> Option<Proc>
    ensures { result ≡ owner (plain_by (mirrors_in mirrors.now)) who }
{
    match who {
        Who::Cpu(proc) => Some(proc),
        Who::Mirror(mirror) => mirrors.owner(mirror),
    }
}

// The bytes after some were written for a process, if there is one.
fn with_written(
    alloc: Global,
    bytes: &Rc<RaceBytes>,
    proc: Option<Proc>,
    addr: u64,
    written: &[u8],
) -> Result<Rc<RaceBytes>, NoMemory>
    requires { InPage addr (length written.now) }
    ensures { IfOk result (λ x. bytes_in x.value
        ≡ written_for (bytes_in bytes.now.value) proc addr written.now) }
{
    match proc {
        None => Ok(bytes.clone()?),
        Some(proc) => {
            let mut new = bytes.copy(alloc)?;
            new.write(proc, addr, written)?;
            Ok(Rc::new(alloc, new)?)
        }
    }
}

// The bytes after a span of a process was mapped.
fn with_cleared(
    alloc: Global,
    bytes: &Rc<RaceBytes>,
    proc: Proc,
    span: Span,
) -> Result<Rc<RaceBytes>, NoMemory>
    ensures { IfOk result (λ x. bytes_in x.value
        ≡ with_at (bytes_in bytes.now.value) proc (with_zeros (bytes_in bytes.now.value proc) span)) }
{
    let mut new = bytes.copy(alloc)?;
    new.clear(proc, span);
    Ok(Rc::new(alloc, new)?)
}

// The bytes after a fork.
fn with_forked(
    alloc: Global,
    bytes: &Rc<RaceBytes>,
    parent: Proc,
    child: Proc,
) -> Result<Rc<RaceBytes>, NoMemory>
    ensures { IfOk result (λ x. bytes_in x.value
        ≡ with_at (bytes_in bytes.now.value) child (bytes_in bytes.now.value parent)) }
{
    let mut new = bytes.copy(alloc)?;
    new.fork(alloc, parent, child)?;
    Ok(Rc::new(alloc, new)?)
}

fn bytes_after(
    alloc: Global,
    bytes: &Rc<RaceBytes>,
    mirrors: &RaceMirrors,
    kind: &Kind,
) -> Result<Rc<RaceBytes>, NoMemory>
    requires { BytesTake kind.now }
    ensures { IfOk result (λ x. bytes_in x.value
        ≡ bytes_next (bytes_in bytes.now.value) (mirrors_in mirrors.now) kind.now) }
{
    match kind {
        Kind::Mapped {
            proc,
            span,
            rights: _,
        } => Ok(with_cleared(alloc, bytes, *proc, *span)?),
        Kind::Stored {
            who,
            addr,
            bytes: written,
        } => Ok(with_written(
            alloc,
            bytes,
            owner_of(mirrors, *who),
            *addr,
            written.as_slice(),
        )?),
        Kind::Added {
            mirror,
            addr,
            read: _,
            written,
        } => Ok(with_written(
            alloc,
            bytes,
            owner_of(mirrors, Who::Mirror(*mirror)),
            *addr,
            &[*written],
        )?),
        Kind::Forked { parent, child } => Ok(with_forked(alloc, bytes, *parent, *child)?),
        _ => Ok(bytes.clone()?),
    }
}

fn mirrors_after(
    alloc: Global,
    mirrors: &Rc<RaceMirrors>,
    kind: &Kind,
) -> Result<Rc<RaceMirrors>, NoMemory>
    ensures { IfOk result (λ x. mirrors_in x.value ≡ mirrors_next (mirrors_in mirrors.now.value) kind.now) }
{
    match kind {
        Kind::Attached { .. } | Kind::Detaching { .. } | Kind::Detached(..) => {
            let mut new = mirrors.copy(alloc)?;
            new.step(kind)?;
            Ok(Rc::new(alloc, new)?)
        }
        _ => Ok(mirrors.clone()?),
    }
}

fn new_places(alloc: Global, places: &Rc<Places>, kind: &Kind) -> Result<Rc<Places>, NoMemory>
    ensures { IfOk result (λ x. places_in x.value ≡ place_next (places_in places.now.value) kind.now) }
{
    match kind {
        Kind::Place { .. } => {
            let mut new = places.copy(alloc)?;
            new.step(kind)?;
            Ok(Rc::new(alloc, new)?)
        }
        _ => Ok(places.clone()?),
    }
}

fn held_after(alloc: Global, held: &Rc<HeldFrames>, kind: &Kind) -> Result<Rc<HeldFrames>, NoMemory>
    ensures { IfOk result (λ x. held_in x.value ≡ held_next (held_in held.now.value) kind.now) }
{
    match kind {
        Kind::Take(..) | Kind::Drop(..) => {
            let mut new = held.copy(alloc)?;
            new.step(kind)?;
            Ok(Rc::new(alloc, new)?)
        }
        _ => Ok(held.clone()?),
    }
}

fn marks_after(
    alloc: Global,
    marks: &Rc<DeviceMarks>,
    kind: &Kind,
) -> Result<Rc<DeviceMarks>, NoMemory>
    ensures withdrawn { IfOk result (λ x. flag_in x.value.withdrawn
        ≡ withdrawn_next (flag_in marks.now.value.withdrawn) kind.now) }
    ensures removed { IfOk result (λ x. flag_in x.value.removed
        ≡ removed_next (flag_in marks.now.value.removed) kind.now) }
{
    match kind {
        Kind::Withdrawn(..) | Kind::Removed(..) => {
            let mut new = **marks;
            new.step(kind);
            Ok(Rc::new(alloc, new)?)
        }
        _ => Ok(marks.clone()?),
    }
}

fn tables_after(
    alloc: Global,
    tables: &Rc<TableEntries>,
    kind: &Kind,
) -> Result<Rc<TableEntries>, NoMemory>
    ensures { IfOk result (λ x. table_in x.value ≡ table_next (table_in tables.now.value) kind.now) }
{
    match kind {
        Kind::Set { .. } | Kind::Told { .. } | Kind::Detaching { .. } | Kind::Detached(..) => {
            let mut new = tables.copy(alloc)?;
            new.step(kind)?;
            Ok(Rc::new(alloc, new)?)
        }
        _ => Ok(tables.clone()?),
    }
}

// The place that the page of an entry has.
fn place_before(places: &Places, kind: &Kind) -> Place
    ensures { result ≡ entry_old (places_in places.now) kind.now }
{
    match kind {
        Kind::Place {
            proc,
            page,
            place: _,
        } => places.get(*proc, *page),
        _ => Place::Empty,
    }
}

// `places` are those before the entry.
fn locks_after(
    alloc: Global,
    locks: &Rc<FrameLocks>,
    places: &Places,
    actor: Actor,
    kind: &Kind,
) -> Result<Rc<FrameLocks>, NoMemory>
    ensures { IfOk result (λ x. lockers_in x.value
        ≡ lockers_next (lockers_in locks.now.value) actor kind.now (entry_old (places_in places.now) kind.now)
        (orphan (record locks_start { frame = lockers_in locks.now.value }) (places_of places.now) kind.now)) }
{
    match kind {
        Kind::Take(..) | Kind::Done(..) | Kind::Drop(..) | Kind::Place { .. } => {
            let old = place_before(places, kind);
            let left = locks.orphan(places, kind);
            let mut new = locks.copy(alloc)?;
            new.step(actor, kind, &old, &left)?;
            Ok(Rc::new(alloc, new)?)
        }
        _ => Ok(locks.clone()?),
    }
}

fn maps_after(
    alloc: Global,
    maps: &Rc<MapLocks>,
    actor: Actor,
    kind: &Kind,
) -> Result<Rc<MapLocks>, NoMemory>
    ensures { IfOk result (λ x. lock_in x.value.locks
        ≡ map_next (record locks_start { map = lock_in maps.now.value.locks }) actor kind.now) }
{
    let mut new = maps.copy();
    new.step(actor, kind);
    if new.same(maps) {
        return Ok(maps.clone()?);
    }
    Ok(Rc::new(alloc, new)?)
}

/// What a state has by process and by mirror after an entry, with these sequences.
pub(crate) fn processes_after(
    alloc: Global,
    state: &RaceState,
    kind: &Kind,
    seqs: Rc<SmallSeqs>,
) -> Result<ProcessParts, NoMemory>
    requires { PartsTake (state_in state.now) kind.now }
    ensures parts { IfOk result (ProcessesGo state.now kind.now) }
    ensures seqs { IfOk result (λ y. y.seqs ≡ seqs) }
{
    Ok(ProcessParts {
        spaces: spaces_after(alloc, &state.spaces, kind)?,
        bytes: bytes_after(alloc, &state.bytes, &state.mirrors, kind)?,
        mirrors: mirrors_after(alloc, &state.mirrors, kind)?,
        seqs,
    })
}

/// What it has by page and by frame after an entry of this actor.
pub(crate) fn places_after(
    alloc: Global,
    state: &RaceState,
    actor: Actor,
    kind: &Kind,
) -> Result<PlaceParts, NoMemory>
    ensures { IfOk result (PlacesGo state.now actor kind.now) }
{
    Ok(PlaceParts {
        places: new_places(alloc, &state.places, kind)?,
        held: held_after(alloc, &state.held, kind)?,
        tables: tables_after(alloc, &state.tables, kind)?,
        locks: locks_after(alloc, &state.locks, &state.places, actor, kind)?,
    })
}

/// What it has by actor after an entry of this one, and the marks of devices, with these actors.
pub(crate) fn actors_after(
    alloc: Global,
    state: &RaceState,
    actor: Actor,
    kind: &Kind,
    tasks: Vec<Rc<RaceTask>>,
) -> Result<ActorParts, NoMemory>
    requires { length tasks.items ≤ 16 }
    ensures parts { IfOk result (ActorsGo state.now actor kind.now) }
    ensures tasks { IfOk result (λ y. y.tasks.items ≡ tasks.items) }
{
    Ok(ActorParts {
        marks: marks_after(alloc, &state.marks, kind)?,
        maps: maps_after(alloc, &state.maps, actor, kind)?,
        tasks,
    })
}

/// These sequences; if they are as before, those from before, so that the states share them.
pub(crate) fn shared_seqs(
    before: &Rc<SmallSeqs>,
    seqs: Rc<SmallSeqs>,
) -> Result<Rc<SmallSeqs>, NoMemory>
    ensures { IfOk result (λ x. kept_seqs x.value ≡ kept_seqs seqs.value) }
{
    if seqs.same(before) {
        return Ok(before.clone()?);
    }
    Ok(seqs)
}

// Whether the entry answers its operation or a piece of it.
fn is_answer(kind: &Kind) -> bool
    ensures { result ≡ is_some (answer_of kind.now) }
{
    matches!(
        kind,
        Kind::Loaded { .. }
            | Kind::Stored { .. }
            | Kind::Failed { .. }
            | Kind::Mapped { .. }
            | Kind::Unmapped { .. }
            | Kind::Protected { .. }
            | Kind::Forked { .. }
            | Kind::Exited(..)
            | Kind::Attached { .. }
            | Kind::Detached(..)
            | Kind::Refused(..)
            | Kind::Migrated(..)
            | Kind::Seen { .. }
            | Kind::Evicted(..)
            | Kind::Removed(..)
            | Kind::Excluded { .. }
            | Kind::Added { .. }
    )
}

/// The answers after an entry.
pub fn answers_after(
    alloc: Global,
    answers: &Rc<SharedAnswers>,
    entry: &Entry,
) -> Result<Rc<SharedAnswers>, NoMemory>
    ensures { IfOk result (λ x. answers_in x.value.lists.items
        ≡ answers_next (answers_in answers.now.value.lists.items) entry.now) }
{
    if !is_answer(&entry.kind) {
        return Ok(answers.clone()?);
    }
    let mut new = answers.copy(alloc)?;
    new.step(alloc, entry)?;
    Ok(Rc::new(alloc, new)?)
}
