// The areas of each process, as lists.
ghost use Rattle.std.specs.Prelude.{◌≡◌, length};

use hm_base::{Area, Proc};

/// The areas of the 32 processes, by number.
#[derive(Drop)]
pub(crate) struct AreaLists {
    pub(crate) lists: Vec<Vec<Area>>,
    ghost sized: { length lists.items ≡ 32 },
}

impl AreaLists {
    ghost use Rattle.hm_linux_steps.specs.Found.{listed_areas};

    /// The areas of a process.
    pub(crate) fn of(&self, proc: Proc) -> &[Area]
        ensures { result.now ≡ listed_areas self.now proc }
    {
        &self.lists[proc.number() as usize]
    }
}
