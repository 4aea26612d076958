// What is due to an actor with variants.
ghost use Rattle.std.specs.Prelude.{◌≡◌, IfOk, IsTrue};
ghost use Rattle.hm_base.specs.Program.{op_in_range};
ghost use Rattle.hm_history.specs.Kernel.Due as spec;
ghost use Rattle.hm_linux.specs.Instead.{due_varied, due_as};
ghost use Rattle.hm_linux_steps.specs.Found.{due_found};
ghost use Rattle.hm_linux_steps.specs.Notes.{noted_in};

use crate::found::Found;
use crate::notes::Notes;
use crate::shows::Shows;
use crate::varied::due_varied;
use hm_base::{Actor, NoMemory, Op};
use hm_history::phases::{Next, Phase};
use hm_history::{Entry, Progress};
use hm_linux::Variant;
use skip_rules::SkipRule;
use std::alloc::Global;

fn progress_of(actor: Actor, next: Next) -> Progress
    ensures { result ≡ spec.progress actor next }
{
    match next {
        Next::Do(kind) => Progress::Did(Entry { actor, kind }),
        Next::Wait(why) => Progress::Waiting(why),
    }
}

// What is due at this phase, given what the definitions say there.
fn varied<W: Shows>(
    found: &W,
    notes: &Notes,
    variant: Variant,
    actor: Actor,
    op: &Op,
    top: &Phase,
    next: Next,
) -> Progress
    requires range { IsTrue (op_in_range op.now) }
    requires next { next
        ≡ spec.due_phase (W.program found.now) (W.state found.now).after actor op.now
        ((W.state found.now).going actor).pages top.now }
    ensures { result
        ≡ spec.progress actor
        (due_varied variant (W.program found.now) (noted_in notes.now) (W.state found.now).after actor op.now
        ((W.state found.now).going actor).pages top.now
        (spec.due_phase (W.program found.now) (W.state found.now).after actor op.now
        ((W.state found.now).going actor).pages top.now)) }
{
    progress_of(
        actor,
        due_varied(found, notes, variant, actor, op, top, next),
    )
}

// What is due to an actor in a state as it finds it.
fn due_found<W: Shows, R: SkipRule>(
    found: &W,
    notes: &Notes,
    variant: Variant,
    rule: &R,
    alloc: Global,
    actor: Actor,
) -> Result<Progress, NoMemory>
    ensures { IfOk result
        (λ p. p ≡ due_found variant (W.program found.now) (noted_in notes.now) (W.state found.now) actor) }
{
    found.script().facts();
    let Some(op) = found.op(actor) else {
        return Ok(Progress::Idle);
    };
    let Some(top) = found.phase(actor) else {
        return Ok(Progress::Idle);
    };
    match hm_steps::due(found, rule, alloc, actor)? {
        Progress::Did(entry) => {
            let next = Next::Do(entry.kind);
            Ok(varied(found, notes, variant, actor, op, top, next))
        }
        Progress::Waiting(why) => {
            let next = Next::Wait(why);
            Ok(varied(found, notes, variant, actor, op, top, next))
        }
        Progress::Idle => Ok(Progress::Idle),
    }
}

/// What is due to the actor with these variants, in a state in which this is noted: the entry that its next step adds,
/// or why it waits; idle if it has no operation left. The rule decides which pages a migration skips. Memory is taken
/// for the bytes of an answer, and for the areas that are left while an unmap lets others in.
pub fn due_as<W: Shows, R: SkipRule>(
    world: &W,
    notes: &Notes,
    variant: Variant,
    rule: &R,
    alloc: Global,
    actor: Actor,
) -> Result<Progress, NoMemory>
    ensures { IfOk result
        (λ p. p
        ≡ due_as variant (W.program world.now) (record { state = W.state world.now; noted = noted_in notes.now })
        actor) }
{
    let found = Found::new(alloc, world, variant)?;
    due_found(&found, notes, variant, rule, alloc, actor)
}
