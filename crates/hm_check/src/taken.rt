// The world after the entries of a report, and what follows them.
ghost use Rattle.std.specs.Prelude.{◌≡◌, ◌≤◌, length, IfOk};
ghost use Rattle.hm_script.specs.Automaton.{lines};
ghost use Rattle.hm_check.specs.Parts.{BeginsNoEntry, TakenFrom, tail_of};

use crate::entries::take_entries;
use crate::tail::put_tail;
use hm_base::{NoMemory, Script};
use hm_reads::Reads;
use hm_report::Buffer;
use hm_world::World;
use std::alloc::Global;

/// The world after the entries that were due, and what follows them.
#[derive(Drop)]
pub struct Taken<'a> {
    pub world: World,
    pub rest: &'a [u8],
}

/// Goes on by the entries whose lines these are, as long as each is due.
pub fn take_all(alloc: Global, script: Script, bytes: &[u8]) -> Result<Taken<'_>, NoMemory>
    ensures taken { IfOk result (λ taken.
        TakenFrom script bytes.now taken.world.script taken.world.history taken.rest.now) }
    ensures ends { IfOk result (λ taken.
        BeginsNoEntry taken.world.script taken.world.history (lines taken.rest.now)) }
{
    let mut out = Buffer::new(alloc)?;
    let mut world = World::new(alloc, script)?;
    let taken = take_entries(alloc, &mut world, &mut out, bytes);
    world.facts();
    match taken {
        Ok(rest) => Ok(Taken { world, rest }),
        Err(NoMemory) => {
            // Taken apart, since a drop here would be proved once more, part by part.
            let _ = world.into_parts();
            Err(NoMemory)
        }
    }
}

/// Writes the lines that end the report of the world's history over the buffer.
pub fn put_ending(out: &mut Buffer, world: &World)
    ensures text { out.new ≡ tail_of world.now.script world.now.history }
    ensures few { length out.new ≤ 5000 }
{
    world.facts();
    put_tail(out, world.script(), world.history());
}
