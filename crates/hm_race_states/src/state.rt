// A state of a race, without positions and absolute sequences.
ghost use Rattle.std.specs.Prelude.{◌≤◌, length};

use crate::memory::RaceBytes;
use crate::mirrors::RaceMirrors;
use crate::small::SmallSeqs;
use crate::spaces::RaceSpaces;
use crate::tasks::RaceTask;
use hm_race_keys::device_marks::DeviceMarks;
use hm_race_keys::frame_locks::FrameLocks;
use hm_race_keys::held_frames::HeldFrames;
use hm_race_keys::map_locks::MapLocks;
use hm_race_keys::page_places::Places;
use hm_race_keys::table_entries::TableEntries;
use std::rc::Rc;

/// A state of a race. Copies share the parts that they have alike.
#[derive(Drop)]
pub struct RaceState {
    pub spaces: Rc<RaceSpaces>,
    pub bytes: Rc<RaceBytes>,
    pub mirrors: Rc<RaceMirrors>,
    pub places: Rc<Places>,
    pub held: Rc<HeldFrames>,
    pub marks: Rc<DeviceMarks>,
    pub tables: Rc<TableEntries>,
    pub locks: Rc<FrameLocks>,
    pub maps: Rc<MapLocks>,
    pub seqs: Rc<SmallSeqs>,
    pub tasks: Vec<Rc<RaceTask>>,
    ghost few: { length tasks.items ≤ 16 },
}
