// The machine of a script: a world, and the turns of its actors.
#![tactic(auto)]

mod copies;
mod looking;
mod stepped;

ghost use Rattle.std.specs.Prelude.{◌≡◌, ◌<◌, ◌≤◌, fold, length, slice_get, IfOk, None, Some, false};
ghost use Rattle.hm_base.specs.declared.limits.TheConstants.{MOST_ACTORS, MOST_ENTRIES};
ghost use Rattle.hm_base.specs.declared.ops.ScheduleLine.{ScheduleLine};
ghost use Rattle.hm_history.specs.Kernel.Due.{due};
ghost use Rattle.hm_history.specs.Kernel.Run.{turns, turns_on, round, drained, enough, has_room, actors_of, line_run};
ghost use Rattle.hm_history.specs.declared.Progress.{Progress};
ghost use Rattle.hm_history.specs.declared.StepError.{StepError};
ghost use Rattle.hm_world.specs.WorldValue.{opening, halted_by, MayHalt};
ghost use Rattle.hm_history.specs.Kernel.Overrun.{overruns_line, overruns_lines, overruns_turns, some_overruns};
ghost use Rattle.hm_machine.specs.Turning.{Turned, TurnsTo, Adds, CameTo};

pub use copies::copy_entry;
use hm_base::{Actor, MOST_ENTRIES, NoMemory, Schedule, ScheduleLine, Script};
use hm_history::{Entry, History, Progress, StepError, Why};
use hm_reads::Reads;
use hm_world::World;
use skip_rules::SkipRule;
use std::alloc::Global;
use std::marker::Model;

/// What a turn of a machine came to. An entry that it added is the history's last, and is not copied out.
#[derive(Clone, Copy, PartialEq, Eq)]
pub enum Turn {
    /// It added an entry, which is the history's last.
    Did,
    /// It added none, and why.
    Waiting(Why),
    /// The actor has no operation left.
    Idle,
}

/// A script with its world, which takes one step at each turn. Its rule decides which pages a migration skips. An error
/// halts it for good.
#[derive(Drop)]
pub struct Machine<R> {
    // In a place of its own, so that a machine that goes from thread to thread is a few words.
    world: Box<World>,
    rule: R,
    alloc: Global,
}

impl<R> Model for Machine<R> {
    ghost use Rattle.hm_world.specs.WorldValue.{WorldValue};

    ghost Value = { WorldValue };

    ghost view = { λ m. m.world.value };
}

fn line_of(turns: &Schedule, at: u64) -> ScheduleLine
    requires { at < length turns.now }
    ensures { slice_get turns.now at ≡ Some result }
{
    match turns.get(at) {
        Some(line) => *line,
        None => unreachable!(),
    }
}

impl<R: SkipRule> Machine<R> {
    /// The machine before the first turn.
    pub fn new(alloc: Global, script: Script, rule: R) -> Result<Machine<R>, NoMemory>
        ensures { IfOk result (λ machine. machine ≡ opening script) }
    {
        let world = World::new(alloc, script)?;
        match Box::new(alloc, world) {
            Ok(world) => Ok(Machine { world, rule, alloc }),
            Err(_) => Err(NoMemory),
        }
    }

    /// The world that the turns go on.
    pub fn world(&self) -> &World
        ensures { result.now ≡ self.now }
    {
        &*self.world
    }

    /// Gives the script and the history up, and drops the rest. It takes no memory.
    pub fn into_parts(self) -> (Script, History)
        ensures script { result.0 ≡ self.script }
        ensures history { result.1.entries ≡ self.history }
    {
        Box::into_inner(self.world).into_parts()
    }

    // Halts it at a full history. This and the next are calls, so that a turn that goes on has no room for an error.
    #[inline(never)]
    fn halt_full(&mut self)
        requires running { self.old.halted ≡ None }
        requires may { MayHalt self.old.script self.old.history (StepError.Full MOST_ENTRIES) }
        ensures { self.new ≡ halted_by self.old (StepError.Full MOST_ENTRIES) }
    {
        self.world.halt(StepError::Full(MOST_ENTRIES));
    }

    // Halts it for want of memory.
    #[inline(never)]
    fn halt_short(&mut self)
        requires running { self.old.halted ≡ None }
        ensures { self.new ≡ halted_by self.old StepError.NoMemory }
    {
        self.world.halt(StepError::NoMemory);
    }

    /// Adds an entry that is due.
    #[inline(always)]
    fn add(&mut self, entry: Entry) -> Result<Turn, StepError>
        requires running { self.old.halted ≡ None }
        requires due { due self.old.script self.old.history entry.actor ≡ Progress.Did entry }
        ensures { TurnsTo self.old (Progress.Did entry) result self.new }
    {
        self.world.facts();
        if self.world.history().len() == MOST_ENTRIES {
            self.halt_full();
            return Err(StepError::Full(MOST_ENTRIES));
        }
        match self.world.add(entry) {
            Ok(()) => Ok(Turn::Did),
            Err(NoMemory) => {
                self.halt_short();
                Err(StepError::NoMemory)
            }
        }
    }

    /// One turn of the actor: what is due to it.
    #[inline(always)]
    pub fn step(&mut self, actor: Actor) -> Result<Turn, StepError>
        ensures { Turned self.old actor result self.new }
    {
        if let Some(error) = self.world.halted() {
            return Err(error);
        }
        self.world.facts();
        match hm_steps::due(&*self.world, &self.rule, self.alloc, actor) {
            Ok(Progress::Did(entry)) => self.add(entry),
            Ok(Progress::Waiting(why)) => Ok(Turn::Waiting(why)),
            Ok(Progress::Idle) => Ok(Turn::Idle),
            Err(NoMemory) => {
                self.halt_short();
                Err(StepError::NoMemory)
            }
        }
    }

    /// One turn of the actor, and whether it added an entry.
    fn adds(&mut self, actor: Actor) -> Result<bool, StepError>
        requires { self.old.halted ≡ None }
        ensures { Adds self.old actor result self.new }
    {
        match self.step(actor) {
            Ok(Turn::Did) => Ok(true),
            Ok(Turn::Waiting(_)) => Ok(false),
            Ok(Turn::Idle) => Ok(false),
            Err(error) => Err(error),
        }
    }

    /// So many turns of one actor. After a wait none of them can add an entry, so they are not made.
    #[tactic(auto, using(crate::proofs::Short::begins))]
    fn turns(&mut self, actor: Actor, count: u32) -> Result<(), StepError>
        requires { self.old.halted ≡ None }
        ensures { CameTo self.old (turns self.old.script self.old.history actor count)
            (overruns_turns self.old.script self.old.history actor count) result self.new }
    {
        for made in 0..count {
            if !self.adds(actor)? {
                return Ok(());
            }
        }
        Ok(())
    }

    fn entries(&self) -> u64
        ensures { result ≡ length self.now.history }
    {
        self.world.history().len()
    }

    fn has_room(&self) -> bool
        ensures { result ≡ has_room self.now.history }
    {
        self.entries() < MOST_ENTRIES
    }

    fn actors(&self) -> u32
        ensures count { result ≡ length self.now.script.actors }
        ensures few { result ≤ MOST_ACTORS }
    {
        self.world.facts();
        self.world.script().actors.len() as u32
    }

    /// Turns of one actor until it waits or is idle, or the history is full, which is no error here.
    #[tactic(auto, using(crate::proofs::Short::begins))]
    fn turns_on(&mut self, actor: Actor) -> Result<(), StepError>
        requires { self.old.halted ≡ None }
        ensures { CameTo self.old (turns_on self.old.script self.old.history actor enough) false result self.new }
    {
        for turn in 0..MOST_ENTRIES {
            if !self.has_room() || !self.adds(actor)? {
                return Ok(());
            }
        }
        Ok(())
    }

    /// A round: each actor in order takes turns until it waits or is idle, or the history is full.
    #[tactic(auto, using(crate::proofs::Short::begins))]
    fn round(&mut self) -> Result<(), StepError>
        requires { self.old.halted ≡ None }
        ensures { CameTo self.old (round self.old.script self.old.history) false result self.new }
    {
        for number in 0..self.actors() {
            self.turns_on(Actor::new(number))?;
        }
        Ok(())
    }

    /// Rounds until all actors are idle or the history is full. If either holds, a round adds nothing, and after a
    /// round that adds nothing none does, so the first such round is the last, and nothing else is asked.
    #[tactic(auto, using(crate::proofs::Short::begins))]
    fn rounds(&mut self) -> Result<(), StepError>
        requires { self.old.halted ≡ None }
        ensures { CameTo self.old (drained self.old.script self.old.history enough) false result self.new }
    {
        for round in 0..MOST_ENTRIES {
            let entries = self.entries();
            self.round()?;
            if self.entries() == entries {
                return Ok(());
            }
        }
        Ok(())
    }

    /// A turn of each actor at a full history: an error if one has an entry due.
    fn turns_beyond(&mut self) -> Result<(), StepError>
        requires running { self.old.halted ≡ None }
        requires full { has_room self.old.history ≡ false }
        ensures { CameTo self.old self.old.history
            (some_overruns self.old.script self.old.history (actors_of self.old.script)) result self.new }
    {
        for number in 0..self.actors() {
            self.adds(Actor::new(number))?;
        }
        Ok(())
    }

    /// Rounds until nothing is left to do. An error if that filled the history and an actor has an entry due. If memory
    /// runs out, what was added before is kept.
    pub fn drain(&mut self) -> Result<(), StepError>
        requires { self.old.halted ≡ None }
        ensures { CameTo self.old (line_run self.old.script self.old.history ScheduleLine.Drain)
            (overruns_line self.old.script self.old.history ScheduleLine.Drain) result self.new }
    {
        self.rounds()?;
        if self.has_room() {
            return Ok(());
        }
        self.turns_beyond()
    }

    fn lines(&self) -> u64
        ensures { result ≡ length self.now.script.schedule }
    {
        self.world.script().schedule.len()
    }

    fn line(&self, at: u64) -> ScheduleLine
        requires { at < length self.now.script.schedule }
        ensures { slice_get self.now.script.schedule at ≡ Some result }
    {
        line_of(&self.world.script().schedule, at)
    }

    fn run_line(&mut self, line: ScheduleLine) -> Result<(), StepError>
        requires { self.old.halted ≡ None }
        ensures { CameTo self.old (line_run self.old.script self.old.history line)
            (overruns_line self.old.script self.old.history line) result self.new }
    {
        match line {
            ScheduleLine::Run { actor, count } => self.turns(actor, count),
            ScheduleLine::Drain => self.drain(),
        }
    }

    /// The turns of a schedule, line by line. An error if one of them finds an entry due and the history full. If
    /// memory runs out, what was added before is kept, and is a front of what the schedule comes to.
    #[tactic(auto, using(crate::proofs::Short::begins))]
    pub fn replay(&mut self, turns: &Schedule) -> Result<(), StepError>
        requires { self.old.halted ≡ None }
        ensures { CameTo self.old (fold (line_run self.old.script) self.old.history turns.now)
            (overruns_lines self.old.script self.old.history turns.now) result self.new }
    {
        for at in 0..turns.len() {
            let line = line_of(turns, at);
            self.run_line(line)?;
        }
        Ok(())
    }

    /// The turns of the script's own schedule, as `replay` makes them.
    #[tactic(auto, using(crate::proofs::Short::begins))]
    pub fn run(&mut self) -> Result<(), StepError>
        requires { self.old.halted ≡ None }
        ensures { CameTo self.old (fold (line_run self.old.script) self.old.history self.old.script.schedule)
            (overruns_lines self.old.script self.old.history self.old.script.schedule) result self.new }
    {
        for at in 0..self.lines() {
            let line = self.line(at);
            self.run_line(line)?;
        }
        Ok(())
    }
}
