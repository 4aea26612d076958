// What is due to an actor of a driver with a flaw, in a state as it finds it: what is due to the right driver, and what
// the flaw does otherwise.

ghost use Rattle.std.specs.Prelude.{◌≡◌, ◌<◌, ℕ, IsTrue, IfOk};
ghost use Rattle.hm_base.specs.Program.{op_in_range};
ghost use Rattle.hm_history.specs.Memory.Plain.{plain_bytes};
ghost use Rattle.hm_history.specs.Kernel.Due as spec;
ghost use Rattle.hm_history.specs.declared.Who as who;
ghost use Rattle.hm_history.specs.declared.phases.Phase as phase;
ghost use Rattle.hm_reads.specs.Ranges.{phase_in_range};
ghost use Rattle.hm_flaws.specs.Drivers.{Driver};
ghost use Rattle.hm_flaws.specs.Overrides.{is_readable, coming_anyway};
ghost use Rattle.hm_flaws.specs.Flawed.{device_bytes, as_read};
ghost use Rattle.hm_flaw_states.specs.Steps.Found.{right_at, flawed_at, due_found, next_of};

mod accesses;
mod begins;
mod cpu_accesses;
mod endings;
mod flawed;
mod freezing;
mod invalidations;
mod locking;
mod look_ups;
mod migrations;
mod placing;
mod reading;
mod removals;
mod telling;

use flawed::flawed;
pub use freezing::taken_for;
use hm_base::{Actor, Bytes, MirrorId, NoMemory, Op, Page, Proc};
use hm_flaws::Flaw;
use hm_history::phases::{Migrating, MoveStep, Next, Phase};
use hm_history::{Entry, Progress};
use hm_reads::Reads;
use hm_steps::due;
use reading::as_read;
use skip_rules::SkipRule;
use std::alloc::Global;
pub use telling::tells_own;

/// A state as the actors of a driver find it: with the table, the sequences and the bytes that the driver has.
pub trait Finds: Reads {
    /// What the driver has of its own.
    ghost driver: { Self → Driver };

    /// Costs nothing: it hands the prover that the sequence of each process can be raised by one.
    fn can_be_raised(&self)
        ensures { (p : ℕ) → (Self.state self.now).after.sequences.seq p < 18446744073709551615 };

    /// Whether the mirror's table has an entry for the page that reads, and is not the zero page's.
    fn is_readable(&self, mirror: MirrorId, page: Page) -> bool
        ensures { result ≡ is_readable ((Self.state self.now).after.places.table mirror page) };

    /// The bytes that a device reads: those of the frames of the driver's table entries.
    fn device_bytes(
        &self,
        alloc: Global,
        mirror: MirrorId,
        addr: u64,
        len: u64,
    ) -> Result<Bytes, NoMemory>
        ensures { IfOk result (λ bytes. bytes ≡ device_bytes (driver self.now) mirror addr len) };

    /// The step, from this one on, and the page to which the actor's migration comes, whether or not the interval of
    /// its mirror is being invalidated; none at its end.
    fn coming_anyway(
        &self,
        actor: Actor,
        op: &Op,
        step: MoveStep,
        next: u64,
    ) -> Option<(MoveStep, Migrating)>
        ensures { result
            ≡ coming_anyway (Self.state self.now).after op.now ((Self.state self.now).going actor).pages
            (phase.Phase.Moves step next) };

    /// The bytes of a process, in whatever memory its pages lie.
    fn process_bytes(
        &self,
        alloc: Global,
        proc: Proc,
        addr: u64,
        len: u64,
    ) -> Result<Bytes, NoMemory>
        ensures { IfOk result
            (λ bytes. bytes ≡ plain_bytes (Self.state self.now).after.plain (who.Who.Cpu proc) addr len) };
}

// The entry or the wait that a turn comes to.
fn next_of(progress: Progress) -> Option<Next>
    ensures { result ≡ next_of progress }
{
    match progress {
        Progress::Did(entry) => Some(Next::Do(entry.kind)),
        Progress::Waiting(why) => Some(Next::Wait(why)),
        Progress::Idle => None,
    }
}

fn progress_of(actor: Actor, next: Next) -> Progress
    ensures { result ≡ spec.progress actor next }
{
    match next {
        Next::Do(kind) => Progress::Did(Entry { actor, kind }),
        Next::Wait(why) => Progress::Waiting(why),
    }
}

// What is due at this phase, given what is due there to the right driver.
fn due_at<W: Finds>(
    found: &W,
    alloc: Global,
    flaw: Flaw,
    actor: Actor,
    op: &Op,
    top: &Phase,
    right: Next,
) -> Result<Progress, NoMemory>
    requires range { IsTrue (op_in_range op.now) }
    requires top { IsTrue (phase_in_range top.now) }
    requires right { right ≡ right_at (W.program found.now) (W.state found.now) actor op.now top.now }
    ensures { IfOk result
        (λ p. p
        ≡ spec.progress actor
        (as_read flaw (W.driver found.now)
        (flawed_at flaw (W.program found.now) (W.state found.now) actor op.now top.now))) }
{
    let next = flawed(found, alloc, flaw, actor, op, top, right)?;
    let read = as_read(found, alloc, flaw, next)?;
    Ok(progress_of(actor, read))
}

/// What is due to the actor, if the driver has this flaw: the entry that its next step adds, or why it waits; idle if
/// it has no operation left. The rule decides which pages a migration skips. Memory is taken for the bytes of an answer
/// alone.
pub(crate) fn due_found<W: Finds, R: SkipRule>(
    found: &W,
    rule: &R,
    alloc: Global,
    flaw: Flaw,
    actor: Actor,
) -> Result<Progress, NoMemory>
    ensures { IfOk result
        (λ p. p ≡ due_found flaw (W.program found.now) (W.driver found.now) (W.state found.now) actor) }
{
    found.script().facts();
    let Some(op) = found.op(actor) else {
        return Ok(Progress::Idle);
    };
    let Some(top) = found.phase(actor) else {
        return Ok(Progress::Idle);
    };
    match next_of(due(found, rule, alloc, actor)?) {
        None => Ok(Progress::Idle),
        Some(right) => due_at(found, alloc, flaw, actor, op, top, right),
    }
}
