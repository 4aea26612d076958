// The key after a set-up, which the right driver made.
ghost use Rattle.std.specs.Prelude.{◌≡◌, ◌≤◌, ℕ, true, None, [], ◌∷◌, ◌++◌, List, length, IfOk, OnOk};
ghost use Rattle.hm_history.specs.Memory.Sequences.{interval_seq};
ghost use Rattle.hm_history.specs.Kernel.Due as spec;
ghost use Rattle.hm_history.specs.Kernel.Run.{is_entry};
ghost use Rattle.hm_history.specs.Laws.{DueFrom};
ghost use Rattle.hm_history.specs.declared.Entry.{Entry as AnyEntry};
ghost use Rattle.hm_history.specs.declared.Progress.{Progress as AnyProgress};
ghost use Rattle.hm_flaws.specs.Drivers.{driver_of};
ghost use Rattle.hm_folds.specs.Kept.{interval_at};
ghost use Rattle.hm_flaw_states.specs.Owns.{driver_in, seq_in};
ghost use Rattle.hm_flaw_states.specs.Exact.{exact_in};
ghost use Rattle.hm_flaw_parts.specs.Races.Races.{point_from};
ghost use Rattle.hm_flaw_states.specs.States.{state_in};
ghost use Rattle.hm_flaw_states.specs.Keyed.{entries_in, form_in};
ghost use Rattle.hm_flaws.specs.declared.flaws.Flaw.{Flaw as AnyFlaw};
ghost use Rattle.hm_flaw_parts.specs.declared.judged.Judging.{Judging as AnyJudging};
ghost use Rattle.hm_flaw_states.specs.Follows.{Follows};
ghost use Rattle.hm_flaw_states.specs.SetUps.{IsAfter, IsNext};
ghost use Rattle.hm_flaw_states.specs.Turns.{IsKept};

use crate::exact_seqs::ExactSeqs;
use crate::here::FlawHere;
use crate::key::FlawKey;
use crate::late_spans::LateSpans;
use crate::owns::Own;
use crate::state::FlawState;
use hm_base::{Actor, MirrorId, NoMemory, Script};
use hm_flaw_parts::Marks;
use hm_flaws::Flaw;
use hm_folds::intervals::KeptInterval;
use hm_history::{Entry, Progress};
use hm_reads::Reads;
use skip_rules::SkipRule;
use std::alloc::Global;
use std::rc::Rc;

/// The state and the marks after entries.
#[derive(Drop)]
pub(crate) struct SoFar {
    pub state: FlawState,
    pub marks: Marks,
}

// Before the first entry.
fn nothing(alloc: Global, script: &Script) -> Result<SoFar, NoMemory>
    ensures { IfOk result (IsAfter script.now []) }
{
    Ok(SoFar {
        state: FlawState::start(alloc, script)?,
        marks: Marks::start(alloc)?,
    })
}

// The entry that is due to the actor, to whom one is.
fn due_entry<R: SkipRule>(
    alloc: Global,
    script: &Script,
    rule: &R,
    state: &FlawState,
    actor: Actor,
) -> Result<Entry, NoMemory>
    requires { is_entry (spec.due_in script.now (state_in state.now) actor) ≡ true }
    ensures { IfOk result (λ e. spec.due_in script.now (state_in state.now) actor ≡ AnyProgress.Did e) }
{
    let here = FlawHere { script, state };
    match hm_steps::due(&here, rule, alloc, actor)? {
        Progress::Did(entry) => Ok(entry),
        Progress::Waiting(_) => unreachable!(),
        Progress::Idle => unreachable!(),
    }
}

// Adds an entry. What the driver has of its own does not count, since it is the right one.
fn add_entry(
    alloc: Global,
    script: &Script,
    own: &Own,
    so_far: &mut SoFar,
    entry: Entry,
) -> Result<(), NoMemory>
    requires { Follows AnyFlaw.NoFlaw script.now so_far.old.state (driver_in own.now) entry }
    ensures { OnOk result ((h : List AnyEntry) → IsAfter script.now h so_far.old
        → IsAfter script.now (h ++ entry ∷ []) so_far.new) }
{
    let here = FlawHere {
        script,
        state: &so_far.state,
    };
    let marks = so_far.marks.after(alloc, &here, &entry)?;
    let state = so_far
        .state
        .after(alloc, script, Flaw::NoFlaw, own, &entry)?;
    so_far.marks = marks;
    so_far.state = state;
    Ok(())
}

// Adds the entry that is due to the actor.
fn add_next<R: SkipRule>(
    alloc: Global,
    script: &Script,
    rule: &R,
    own: &Own,
    so_far: &mut SoFar,
    actor: Actor,
) -> Result<(), NoMemory>
    requires { IsNext script.now so_far.old actor }
    ensures { OnOk result ((h : List AnyEntry) (e : AnyEntry) → IsAfter script.now h so_far.old
        → spec.due script.now h actor ≡ AnyProgress.Did e → IsAfter script.now (h ++ e ∷ []) so_far.new) }
{
    script.facts();
    hm_laws::history_stands();
    hm_flaws::right_is_due();
    let entry = due_entry(alloc, script, rule, &so_far.state, actor)?;
    Ok(add_entry(alloc, script, own, so_far, entry)?)
}

// After all entries of the set-up.
fn after_set_up<R: SkipRule>(
    alloc: Global,
    script: &Script,
    rule: &R,
    set_up: &[Entry],
) -> Result<SoFar, NoMemory>
    requires due { DueFrom script.now [] set_up.now }
    requires few { length set_up.now ≤ 2000000 }
    ensures { IfOk result (IsAfter script.now set_up.now) }
{
    let own = Own::new(alloc)?;
    let mut so_far = nothing(alloc, script)?;
    for entry in set_up {
        add_next(alloc, script, rule, &own, &mut so_far, entry.actor)?;
    }
    Ok(so_far)
}

// Costs nothing: it hands the prover that no interval is kept past that of the last mirror.
fn none_past(intervals: &[Option<KeptInterval>; 32])
    ensures { (m : ℕ) → 32 ≤ m → interval_at intervals.now m ≡ None }
{
    let _ = intervals;
}

// The sequences of all intervals.
fn seqs_of(seqs: &ExactSeqs) -> [u64; 32]
    ensures { (m : ℕ) → seq_in result m ≡ interval_seq (exact_in seqs.now.kept) m }
{
    none_past(&seqs.kept.intervals);
    let mut all = [0; 32];
    for number in 0..32u32 {
        all[number as usize] = seqs.interval_seq(MirrorId::new(number));
    }
    all
}

// What the right driver has of its own at a state.
fn own_of(alloc: Global, state: &FlawState) -> Result<Own, NoMemory>
    ensures { IfOk result (λ x. driver_in x ≡ driver_of (state_in state.now).after) }
{
    Ok(Own {
        table: state.tables.copy(alloc)?,
        seqs: seqs_of(&state.seqs),
        late: LateSpans::new(alloc)?,
        bytes: state.contents.copy(alloc)?,
    })
}

/// The key after a set-up, which the right driver made.
pub fn first_key<R: SkipRule>(
    alloc: Global,
    script: &Script,
    rule: &R,
    set_up: &[Entry],
) -> Result<FlawKey, NoMemory>
    requires due { DueFrom script.now [] set_up.now }
    requires few { length set_up.now ≤ 2000000 }
    ensures form { IfOk result (λ k. form_in k ≡ point_from script.now set_up.now) }
    ensures trail { IfOk result (λ k. entries_in k ≡ []) }
    ensures kept { IfOk result (λ k. (j : AnyJudging) → IsKept j k) }
{
    script.facts();
    hm_laws::history_stands();
    let so_far = after_set_up(alloc, script, rule, set_up)?;
    let own = own_of(alloc, &so_far.state)?;
    Ok(FlawKey {
        state: Rc::new(alloc, so_far.state)?,
        own: Rc::new(alloc, own)?,
        marks: Rc::new(alloc, so_far.marks)?,
        trail: Vec::new(alloc),
        broken: None,
    })
}
