// A value to try the turn with: every actor adds as many entries as the script has frames.
ghost use Rattle.std.specs.Prelude.{◌≡◌, ℕ, ◌-◌, ◌<◌, ◌≤◌, [], length, None, IfOk, option_copied, slice_get};
ghost use Rattle.hm_toy.specs.Toys.{entries_of, entry_of, decided, script_of, touch_of};

use hm_base::{Actor, ActorLists, DeviceList, NoMemory, OpList, Proc, Schedule, Script, Version};
use hm_history::{Entry, Kind, Progress, StepError, Why};
use hm_turns::Stepped;
use std::alloc::Global;
use std::marker::Model;

/// A script of `actors` actors, each of which has `entries` entries to add.
pub fn script_for(alloc: Global, actors: u32, entries: u32) -> Result<Script, NoMemory>
    requires actors { actors ≤ 16 }
    requires entries { entries ≤ 16384 }
    ensures { IfOk result (λ s. s ≡ script_of actors entries) }
{
    let mut lists = ActorLists::new(alloc);
    for _ in 0..actors {
        lists.push(OpList::new(alloc))?;
    }
    Ok(Script {
        version: Version::One,
        frames: entries,
        devices: DeviceList::new(alloc),
        skip: 0,
        actors: lists,
        schedule: Schedule::new(alloc),
    })
}

/// The entries so far, and room for some.
#[derive(Drop)]
pub struct Toy {
    script: Script,
    history: Vec<Entry>,
    room: u64,
    halt: Option<StepError>,
}

impl Model for Toy {
    ghost use Rattle.hm_toy.specs.Toys.{Shown, IsSound};

    ghost Value = { Shown };

    ghost view = { λ t. record { script = t.script; history = t.history.items; halt = t.halt } };

    ghost invariant = { λ t. IsSound t.script t.history.items };
}

impl Toy {
    /// A step that finds `room` entries fails, as if memory had run out.
    pub fn new(alloc: Global, script: Script, room: u64) -> Toy
        ensures { (result.script ≡ script) × (result.history ≡ []) × (result.halt ≡ None) }
    {
        Toy {
            script,
            history: Vec::new(alloc),
            room,
            halt: None,
        }
    }

    /// The entries so far.
    pub fn entries(&self) -> &[Entry]
        ensures { result.now ≡ self.now.history }
    {
        self.history.as_slice()
    }
}

// The last entry.
fn last(history: &[Entry]) -> Option<&Entry>
    ensures { option_copied result ≡ slice_get history.now (length history.now - 1) }
{
    history.get(history.len().saturating_sub(1))
}

// How many entries are the actor's.
fn count_of(history: &[Entry], actor: Actor) -> u64
    ensures { result ≡ entries_of actor history.now }
{
    let number = actor.number();
    history
        .iter()
        .filter(|e| e.actor.number() == number)
        .count() as u64
}

/// What an actor does next.
#[derive(Drop)]
pub enum Choice {
    Add,
    Wait,
    Rest,
}

fn decide(script: &Script, history: &[Entry], actor: Actor) -> Choice
    ensures { result ≡ decided script.now history.now actor }
{
    let entries = script.frames as u64;
    let count = count_of(history, actor);
    if count >= entries {
        return Choice::Rest;
    }
    let first = count_of(history, Actor::new(0));
    if first < count && first < entries {
        Choice::Wait
    } else {
        Choice::Add
    }
}

// The first actor's entries touch no process, another's touch the process of its number.
fn made(actor: Actor) -> Entry
    ensures { result ≡ entry_of actor }
{
    let number = actor.number();
    let kind = if number == 0 {
        Kind::Rlock(Proc::new(0))
    } else {
        Kind::Exited(Proc::new(number))
    };
    Entry { actor, kind }
}

// The process that an entry of the actor touches.
fn touched_by(actor: Actor) -> Option<Proc>
    ensures { result ≡ touch_of actor }
{
    let number = actor.number();
    if number == 0 {
        None
    } else {
        Some(Proc::new(number))
    }
}

impl Stepped for Toy {
    ghost use Rattle.hm_toy.specs.Toys.{IsLegal, due_of};

    ghost script = { λ t. t.script };

    ghost history = { λ t. t.history };

    ghost halt = { λ t. t.halt };

    ghost legal = { IsLegal };

    ghost due = { due_of };

    fn step(&mut self, actor: Actor) -> Result<Progress, StepError> {
        if let Some(error) = self.halt {
            return Err(error);
        }
        match decide(&self.script, self.history.as_slice(), actor) {
            Choice::Rest => return Ok(Progress::Idle),
            Choice::Wait => {
                return Ok(Progress::Waiting(Why::MapLock(Proc::new(0), Actor::new(0))));
            }
            Choice::Add => (),
        }
        let length = self.history.len() as u64;
        if length >= 2_000_000 {
            self.halt = Some(StepError::Full(2_000_000));
            return Err(StepError::Full(2_000_000));
        }
        if length >= self.room || self.history.push(made(actor)).is_err() {
            self.halt = Some(StepError::NoMemory);
            return Err(StepError::NoMemory);
        }
        Ok(Progress::Did(made(actor)))
    }

    fn halted(&self) -> Option<StepError> {
        self.halt
    }

    fn length(&self) -> u64 {
        self.script.facts();
        self.history.len() as u64
    }

    fn touched(&self) -> Option<Proc> {
        match last(self.history.as_slice()) {
            None => None,
            Some(entry) => touched_by(entry.actor),
        }
    }
}
