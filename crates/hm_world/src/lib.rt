// A world: what a script's actors have made of processes, frames and mirrors so far.
#![tactic(auto)]

ghost use Rattle.std.specs.Prelude.{◌≡◌, ◌≤◌, [], length, IfOk, None};
ghost use Rattle.hm_base.specs.Program.{IsScript};
ghost use Rattle.hm_base.specs.declared.limits.TheConstants.{MOST_ENTRIES};
ghost use Rattle.hm_history.specs.Laws.{DueFrom};
ghost use Rattle.hm_history.specs.Kernel.Going.{state_of};
ghost use Rattle.hm_world.specs.WorldValue.{opening, halted_first, now, MayHalt, HaltsRightly};

mod adds;
mod contents;
mod goings;
mod migrations;
mod noted;
mod reads;
mod rooms;
mod steps;

use hm_actors::Actors;
use hm_base::{NoMemory, Script};
use hm_frames::FramePools;
use hm_history::{History, StepError};
use hm_mirrors::Mirrors;
use hm_notifiers::AllNotifiers;
use hm_spaces::Spaces;
use hm_tables::PageTables;
use std::alloc::Global;
use std::marker::Model;

/// A script, its history, and what that makes of each structure.
#[derive(Drop)]
pub struct World {
    script: Script,
    history: History,
    halted: Option<StepError>,
    frames: FramePools,
    tables: PageTables,
    spaces: Spaces,
    notifiers: AllNotifiers,
    mirrors: Mirrors,
    actors: Actors,
}

impl Model for World {
    ghost use Rattle.hm_world.specs.WorldValue.{WorldValue};
    ghost use Rattle.hm_world.specs.Stands.{Stands};

    ghost Value = { WorldValue };

    ghost view = { λ w. record { script = w.script; history = w.history.entries; halted = w.halted } };

    ghost invariant = { λ w. Stands (record { script = w.script; history = w.history.entries; halted = w.halted })
        (record {
          frames = w.frames;
          tables = w.tables;
          spaces = w.spaces;
          notifiers = w.notifiers;
          mirrors = w.mirrors;
          actors = w.actors;
        }) };
}

impl World {
    /// The world before the first entry. It takes all the memory that its frames will need.
    pub fn new(alloc: Global, script: Script) -> Result<World, NoMemory>
        ensures { IfOk result (λ world. world ≡ opening script) }
    {
        script.facts();
        Ok(World {
            history: History::new(alloc),
            halted: None,
            frames: FramePools::new(alloc, &script)?,
            tables: PageTables::new(alloc, &script)?,
            spaces: Spaces::new(alloc)?,
            notifiers: AllNotifiers::new(alloc)?,
            mirrors: Mirrors::new(alloc)?,
            actors: Actors::new(alloc, &script)?,
            script,
        })
    }

    /// Costs nothing: it hands the prover the invariant.
    pub fn facts(&self)
        ensures script { IsScript self.now.script }
        ensures due { DueFrom self.now.script [] self.now.history }
        ensures few { length self.now.history ≤ MOST_ENTRIES }
        ensures halted { HaltsRightly self.now.script self.now.history self.now.halted }
        ensures now { now self.now ≡ state_of self.now.script self.now.history }
    {
        let _ = &self.script;
    }

    /// Makes it go no further. The first cause is kept.
    pub fn halt(&mut self, error: StepError)
        requires { MayHalt self.old.script self.old.history error }
        ensures { self.new ≡ halted_first self.old error }
    {
        if self.halted.is_none() {
            self.halted = Some(error);
        }
    }

    /// Why it goes no further.
    pub fn halted(&self) -> Option<StepError>
        ensures { result ≡ self.now.halted }
    {
        self.halted
    }

    /// The entries so far.
    pub fn history(&self) -> &History
        ensures { result.now.entries ≡ self.now.history }
    {
        &self.history
    }

    /// Gives the script and the history up, and drops the rest.
    pub fn into_parts(self) -> (Script, History)
        ensures script { result.0 ≡ self.script }
        ensures history { result.1.entries ≡ self.history }
    {
        (self.script, self.history)
    }
}
