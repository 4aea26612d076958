// How far each actor is.
ghost use Rattle.std.specs.Prelude.{◌≡◌};
ghost use Rattle.hm_phases.specs.Items.{phases_of};
ghost use Rattle.hm_world.specs.WorldValue.{now};

use crate::World;
use hm_base::Actor;
use hm_history::phases::Migrating;
use hm_phases::Items;

impl World {
    /// The number of the operation that the actor is at.
    pub(crate) fn index(&self, actor: Actor) -> u64
        ensures { result ≡ ((now self.now).going actor).index }
    {
        self.actors.index(actor)
    }

    /// Its phases, the top first.
    pub fn phases(&self, actor: Actor) -> Items
        ensures { phases_of result ≡ ((now self.now).going actor).stack }
    {
        self.actors.phases(actor)
    }

    /// The records of its migration.
    pub fn records(&self, actor: Actor) -> &[Migrating]
        ensures { result.now ≡ ((now self.now).going actor).pages }
    {
        self.actors.records(actor)
    }
}
