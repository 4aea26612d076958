// How actors stand: whether each could go on, waits, or is done.
ghost use Rattle.std.specs.Prelude.{◌≡◌, ◌+◌, ◌≤◌, ◌<◌, ◌∷◌, ◌++◌, length, OnOk};
ghost use Rattle.std.specs.List.{flat_map};
ghost use Rattle.hm_history.specs.Kernel.Due.{due};
ghost use Rattle.hm_history.specs.Kernel.Run.{actors_of};
ghost use Rattle.hm_view.specs.Standing.{standing_text, standing_of, standing_line};

use hm_base::{Actor, NoMemory, Text};
use hm_check::put_why;
use hm_history::Progress;
use hm_reads::Reads;
use hm_report::Buffer;
use hm_world::World;
use skip_rules::Multiples;
use std::alloc::Global;

/// Adds what is due.
fn put_standing(out: &mut Buffer, progress: &Progress)
    requires { length out.old ≤ 100 }
    ensures { out.new ≡ out.old ++ standing_text progress.now }
{
    match progress {
        Progress::Did(_) => out.put(b"+"),
        Progress::Waiting(why) => put_why(out, why, b"/"),
        Progress::Idle => out.put(b"-"),
    }
}

/// Adds how the actor stands, with a space before it.
#[tactic(auto, using(std::proofs::Common::append_assoc))]
fn add_standing(
    alloc: Global,
    text: &mut Text,
    out: &mut Buffer,
    world: &World,
    actor: Actor,
) -> Result<(), NoMemory>
    ensures { OnOk result (text.new ≡ text.old ++ standing_of world.now.script world.now.history actor) }
{
    world.facts();
    let progress = hm_steps::due(world, &Multiples, alloc, actor)?;
    out.clear();
    out.push(b' ');
    put_standing(out, &progress);
    text.extend(out.as_slice())
}

/// Adds how each actor stands.
fn add_standings(
    alloc: Global,
    text: &mut Text,
    out: &mut Buffer,
    world: &World,
) -> Result<(), NoMemory>
    ensures { OnOk result (text.new
        ≡ text.old ++ flat_map (standing_of world.now.script world.now.history) (actors_of world.now.script)) }
{
    world.facts();
    let count = world.script().actors.len();
    for actor in 0..count {
        add_standing(alloc, text, out, world, Actor::new(actor as u32))?;
    }
    Ok(())
}

/// Adds the line that tells how each actor stands.
#[tactic(auto, using(std::proofs::Common::append_assoc))]
pub(crate) fn add_standing_line(
    alloc: Global,
    text: &mut Text,
    out: &mut Buffer,
    world: &World,
) -> Result<(), NoMemory>
    ensures { OnOk result (text.new ≡ text.old ++ standing_line world.now.script world.now.history) }
{
    text.extend(b":")?;
    add_standings(alloc, text, out, world)?;
    text.push(b'\n')
}
