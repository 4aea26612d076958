// A script's run by its schedule.
ghost use Rattle.std.specs.Prelude.{◌≡◌, IfOk, None, true, false};
ghost use Rattle.hm_base.specs.Program.{IsScript};
ghost use Rattle.hm_history.specs.Kernel.Legal.{Legal};
ghost use Rattle.hm_world.specs.WorldValue.{opening};
ghost use Rattle.hm_machine.specs.Turning.{CameTo};
ghost use Rattle.hm_history.specs.Kernel.Run as runs;
ghost use Rattle.hm_history.specs.Kernel.Overrun.{overruns};
ghost use Rattle.hm_top.specs.Ran.{Replayed};
ghost use Rattle.hm_top.specs.Running.{RanFull, RanWhole};

use hm_base::{NoMemory, Script};
use hm_history::{History, StepError};
use hm_machine::Machine;
use hm_turns::Receipt;
use skip_rules::Kept;
use std::alloc::Global;

/// A script with its history, and whether a turn found the history full and an entry due.
#[derive(Drop)]
pub struct Ran {
    pub script: Script,
    pub history: History,
    pub full: bool,
    /// If threads made the history: that it is the one that they made.
    pub receipt: Option<Receipt>,
}

/// Makes the schedule's turns, and says whether one found the history full and an entry due.
fn run_schedule(machine: &mut Machine<&Kept>) -> Result<bool, NoMemory>
    requires { machine.old ≡ opening machine.old.script }
    ensures { IfOk result (Replayed machine.old machine.new) }
{
    match machine.run() {
        Ok(()) => Ok(false),
        Err(StepError::Full(_)) => Ok(true),
        Err(StepError::NoMemory) => Err(NoMemory),
    }
}

/// Runs the script by its schedule. The rule decides which pages a migration skips.
pub(crate) fn run_script(alloc: Global, script: Script, skip: &Kept) -> Result<Ran, NoMemory>
    ensures script { IfOk result (λ r. r.script ≡ script) }
    ensures receipt { IfOk result (λ r. r.receipt ≡ None) }
    ensures legal { IfOk result (λ r. Legal r.script r.history.entries) }
    ensures whole { IfOk result (λ r. r.full ≡ false → RanWhole script r.history.entries) }
    ensures full { IfOk result (λ r. r.full ≡ true → RanFull script r.history.entries) }
{
    script.facts();
    hm_laws::every_run_is_legal();
    hm_laws::never_stuck();
    hm_history::laws::runs_are_due();
    let mut machine = Machine::new(alloc, script, skip)?;
    let ran = run_schedule(&mut machine);
    machine.world().facts();
    let (script, history) = machine.into_parts();
    let full = ran?;
    Ok(Ran {
        script,
        history,
        full,
        receipt: None,
    })
}
