// What variants ask of a state besides what steps ask.
ghost use Rattle.std.specs.Prelude.{◌≡◌, nat_lt};
ghost use Rattle.hm_linux.specs.FirstAttach.{is_in_guard};

use hm_base::{Actor, Area, Proc};
use hm_history::locks::MapLock;
use hm_reads::Reads;

/// A state of a script with more of its details, as variants read it.
pub trait Shows: Reads {
    /// The areas of a process.
    fn areas(&self, proc: Proc) -> &[Area]
        ensures { result.now ≡ (Self.state self.now).after.plain.areas proc };

    /// The mmap lock that the actor has.
    fn map_lock(&self, actor: Actor) -> Option<MapLock>
        ensures { result ≡ (Self.state self.now).after.locks.map actor };

    /// Whether the invalidation that the actor has under way is one of the process.
    fn is_in_guard(&self, actor: Actor, proc: Proc) -> bool
        ensures { result ≡ is_in_guard proc ((Self.state self.now).after.sequences.guard actor) };

    /// Whether an invalidation of the process is under way.
    fn is_active(&self, proc: Proc) -> bool
        ensures { result ≡ nat_lt 0 ((Self.state self.now).after.sequences.active proc) };
}
