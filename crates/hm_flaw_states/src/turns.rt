// The key after a turn.
ghost use Rattle.std.specs.Prelude.{◌≡◌, ◌+◌, ◌≤◌, ℕ, Bool, false, Some, None, [], ◌∷◌, ◌++◌, map, IfOk, IfSome};
ghost use Rattle.std.specs.Rc.{rc_value};
ghost use Rattle.hm_history.specs.Memory.After.{After};
ghost use Rattle.hm_history.specs.declared.Progress.{Progress as AnyProgress};
ghost use Rattle.hm_flaws.specs.Drivers.{Driver, driver_next};
ghost use Rattle.hm_flaws.specs.Flawed as spec;
ghost use Rattle.hm_flaws.specs.declared.flaws.Flaw.{Flaw as AnyFlaw};
ghost use Rattle.hm_flaw_states.specs.Follows.{Follows, Standing};
ghost use Rattle.hm_flaw_states.specs.Owns.{driver_in, StaysInPage};
ghost use Rattle.hm_race_states.specs.States.{goings_in};
ghost use Rattle.hm_flaw_parts.specs.Judged.{judged_parts};
ghost use Rattle.hm_flaw_parts.specs.Marks.{marked_next, marks_in};
ghost use Rattle.hm_flaw_parts.specs.Races.Races.{broken_at, point_entry};
ghost use Rattle.hm_flaw_states.specs.Keyed.{broken_in, entries_in, form_in};
ghost use Rattle.hm_flaw_states.specs.States.{state_in};
ghost use Rattle.hm_flaw_states.specs.Turns.{IsKept, IsNextKey, IsTurned, own_next};

use crate::details::Details;
use crate::due::due_by;
use crate::here::FlawHere;
use crate::judging::first_broken;
use crate::kept_owns::copy_own;
use crate::key::{BrokenBy, FlawKey};
use crate::owns::Own;
use crate::state::FlawState;
use crate::steps::tells_own;
use crate::trail::{longer, shared};
use hm_base::{Actor, NoMemory, Script};
use hm_flaw_parts::{Judging, Marks};
use hm_flaws::{Flaw, Part};
use hm_history::phases::Migrating;
use hm_history::{Entry, Kind, Progress};
use hm_race_states::same_tasks::task_at;
use hm_race_states::tasks::RaceTask;
use hm_reads::Reads;
use skip_rules::SkipRule;
use std::alloc::Global;
use std::rc::Rc;

// The records of an actor's migration.
fn records_of(tasks: &[Rc<RaceTask>], actor: Actor) -> &[Migrating]
    ensures { result.now ≡ (goings_in (map rc_value tasks.now) actor).pages }
{
    match task_at(tasks, actor.number() as usize) {
        Some(task) => task.records.as_slice(),
        None => &[],
    }
}

// The first part that the entry breaks.
fn broken_at(
    alloc: Global,
    script: &Script,
    judging: Judging,
    key: &FlawKey,
    entry: &Entry,
) -> Result<Option<Part>, NoMemory>
    requires { IsKept judging key.now }
    ensures { IfOk result (λ o. o ≡ broken_at (judged_parts judging) script.now (form_in key.now) entry.now) }
{
    let state: &FlawState = &key.state;
    let marks: &Marks = &key.marks;
    let here = FlawHere { script, state };
    let records = records_of(&state.tasks, entry.actor);
    first_broken(alloc, judging, &here, marks, records, entry)
}

// Whether such an entry may change what a driver has of its own. It may say so of one that does not.
fn may_change(kind: &Kind) -> bool
    ensures { result ≡ false → (l : AnyFlaw) (s : After) (own : Bool) (x : Driver) (a : ℕ)
        → driver_next l s own x a kind.now ≡ x }
{
    matches!(
        kind,
        Kind::Set { .. }
            | Kind::Told { .. }
            | Kind::End { .. }
            | Kind::Detaching { .. }
            | Kind::Detached(_)
            | Kind::Attached { .. }
            | Kind::Copied { .. }
            | Kind::Take(_)
            | Kind::Stored { .. }
            | Kind::Added { .. }
    )
}

// What the driver has of its own after an entry.
fn own_after<W: Details>(
    alloc: Global,
    world: &W,
    flaw: Flaw,
    own: &Rc<Own>,
    entry: &Entry,
) -> Result<Rc<Own>, NoMemory>
    requires { StaysInPage entry.now.kind }
    ensures { IfOk result (λ x. driver_in x.value
        ≡ own_next flaw (W.program world.now) (W.state world.now) (driver_in own.now.value) entry.now) }
{
    if !may_change(&entry.kind) {
        return Ok(own.clone()?);
    }
    let tells = tells_own(world, entry.actor, &entry.kind);
    let mut copy = copy_own(alloc, own)?;
    copy.step(alloc, world, flaw, tells, entry.actor, &entry.kind)?;
    Ok(Rc::new(alloc, copy)?)
}

// What a key keeps of a state after an entry, but for the entries.
#[derive(Drop)]
struct KeyParts {
    state: Rc<FlawState>,
    own: Rc<Own>,
    marks: Rc<Marks>,
}

// The parts of a key after an entry. The state is made last, so that none is given back at a way out.
fn parts_after(
    alloc: Global,
    script: &Script,
    flaw: Flaw,
    key: &FlawKey,
    entry: &Entry,
) -> Result<KeyParts, NoMemory>
    requires { Follows flaw script.now key.now.state.value (driver_in key.now.own.value) entry.now }
    ensures state { IfOk result (λ x. state_in x.state.value
        ≡ (spec.flawed_next flaw script.now (form_in key.now).flawed entry.now).state) }
    ensures own { IfOk result (λ x. driver_in x.own.value
        ≡ (spec.flawed_next flaw script.now (form_in key.now).flawed entry.now).driver) }
    ensures marks { IfOk result (λ x. marks_in x.marks.value
        ≡ marked_next script.now (state_in key.now.state.value).after (marks_in key.now.marks.value) entry.now) }
    ensures standing { IfOk result (λ x. Standing (state_in x.state.value)) }
{
    script.facts();
    let here = FlawHere {
        script,
        state: &key.state,
    };
    let own = own_after(alloc, &here, flaw, &key.own, entry)?;
    let marks = Rc::new(alloc, key.marks.after(alloc, &here, entry)?)?;
    let state = key.state.after(alloc, script, flaw, &key.own, entry)?;
    Ok(KeyParts {
        state: Rc::new(alloc, state)?,
        own,
        marks,
    })
}

// The key after an entry that breaks no part.
fn gone_on(
    alloc: Global,
    script: &Script,
    flaw: Flaw,
    key: &FlawKey,
    entry: Entry,
) -> Result<FlawKey, NoMemory>
    requires { Follows flaw script.now key.now.state.value (driver_in key.now.own.value) entry }
    ensures form { IfOk result (λ k. form_in k ≡ point_entry flaw script.now (form_in key.now) entry None) }
    ensures trail { IfOk result (λ k. entries_in k ≡ entries_in key.now ++ entry ∷ []) }
    ensures broken { IfOk result (λ k. broken_in k ≡ None) }
    ensures standing { IfOk result (λ k. Standing (state_in k.state.value)) }
{
    let parts = parts_after(alloc, script, flaw, key, &entry)?;
    let trail = longer(alloc, &key.trail, entry)?;
    Ok(FlawKey {
        state: parts.state,
        own: parts.own,
        marks: parts.marks,
        trail,
        broken: None,
    })
}

// The key after an entry that breaks a part.
fn ended(alloc: Global, key: &FlawKey, entry: Entry, part: Part) -> Result<FlawKey, NoMemory>
    ensures form { IfOk result (λ k. form_in k ≡ record (form_in key.now) { broken = Some part }) }
    ensures trail { IfOk result (λ k. entries_in k ≡ entries_in key.now) }
    ensures broken { IfOk result (λ k. broken_in k ≡ Some (entry, part)) }
{
    let entry = Rc::new(alloc, entry)?;
    Ok(FlawKey {
        state: key.state.clone()?,
        own: key.own.clone()?,
        marks: key.marks.clone()?,
        trail: shared(alloc, &key.trail)?,
        broken: Some(BrokenBy { entry, part }),
    })
}

// The key after an entry that is due to the actor.
fn turned(
    alloc: Global,
    script: &Script,
    flaw: Flaw,
    judging: Judging,
    key: &FlawKey,
    actor: Actor,
    entry: Entry,
) -> Result<FlawKey, NoMemory>
    requires kept { IsKept judging key.now }
    requires room { key.now.state.value.entries ≤ 2000000 }
    requires none { (form_in key.now).broken ≡ None }
    requires due { spec.due_by flaw script.now (form_in key.now).flawed actor ≡ AnyProgress.Did entry }
    ensures turned { IfOk result (λ k. IsTurned (judged_parts judging) flaw script.now key.now actor k) }
    ensures kept { IfOk result (IsKept judging) }
    ensures count { IfOk result (λ k. k.state.value.entries ≤ key.now.state.value.entries + 1) }
{
    match broken_at(alloc, script, judging, key, &entry)? {
        Some(part) => Ok(ended(alloc, key, entry, part)?),
        None => Ok(gone_on(alloc, script, flaw, key, entry)?),
    }
}

/// The key after a turn of the actor, or `None` if nothing is due to it.
pub fn next_key<R: SkipRule>(
    alloc: Global,
    script: &Script,
    rule: &R,
    flaw: Flaw,
    judging: Judging,
    key: &FlawKey,
    actor: Actor,
) -> Result<Option<FlawKey>, NoMemory>
    requires kept { IsKept judging key.now }
    requires room { key.now.state.value.entries ≤ 2000000 }
    ensures next { IfOk result (IsNextKey (judged_parts judging) flaw script.now key.now actor) }
    ensures kept { IfOk result (λ o. IfSome o (IsKept judging)) }
    ensures count { IfOk result
        (λ o. IfSome o (λ k. k.state.value.entries ≤ key.now.state.value.entries + 1)) }
{
    if key.part().is_some() {
        return Ok(None);
    }
    let here = FlawHere {
        script,
        state: &key.state,
    };
    match due_by(&here, &key.own, flaw, rule, alloc, actor)? {
        Progress::Did(entry) => Ok(Some(turned(alloc, script, flaw, judging, key, actor, entry)?)),
        Progress::Waiting(_) => Ok(None),
        Progress::Idle => Ok(None),
    }
}
