// How each actor stands.
ghost use Rattle.std.specs.Prelude.{◌≡◌, IfOk, map};
ghost use Rattle.hm_history.specs.Kernel.Due.{due};
ghost use Rattle.hm_history.specs.Kernel.Run.{actors_of};

use hm_base::{Actor, NoMemory};
use hm_history::Progress;
use hm_reads::Reads;
use hm_world::World;
use skip_rules::Multiples;
use std::alloc::Global;

/// What is due to the actor.
fn standing_of(alloc: Global, world: &World, actor: Actor) -> Result<Progress, NoMemory>
    ensures { IfOk result (λ p. p ≡ due world.now.script world.now.history actor) }
{
    world.facts();
    hm_steps::due(world, &Multiples, alloc, actor)
}

/// What is due to each actor of the script.
pub(crate) fn standings(alloc: Global, world: &World) -> Result<Vec<Progress>, NoMemory>
    ensures { IfOk result
        (λ x. x.items ≡ map (due world.now.script world.now.history) (actors_of world.now.script)) }
{
    world.facts();
    let count = world.script().actors.len();
    let mut standing = Vec::new(alloc);
    for actor in 0..count {
        let progress = standing_of(alloc, world, Actor::new(actor as u32))?;
        standing.push(progress)?;
    }
    Ok(standing)
}
