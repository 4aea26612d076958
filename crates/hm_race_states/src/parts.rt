// The parts of a state in three groups, each made by a function of its own, so that what makes a state owns few values
// where it may fail.
ghost use Rattle.std.specs.Prelude.{◌≤◌, length};

use crate::memory::RaceBytes;
use crate::mirrors::RaceMirrors;
use crate::small::SmallSeqs;
use crate::spaces::RaceSpaces;
use crate::tasks::RaceTask;
use hm_race_keys::device_marks::DeviceMarks;
use hm_race_keys::frame_locks::FrameLocks;
use hm_race_keys::held_frames::HeldFrames;
use hm_race_keys::map_locks::MapLocks;
use hm_race_keys::page_places::Places;
use hm_race_keys::table_entries::TableEntries;
use std::rc::Rc;

/// Of a state what it has by process and by mirror.
#[derive(Drop)]
pub(crate) struct ProcessParts {
    pub spaces: Rc<RaceSpaces>,
    pub bytes: Rc<RaceBytes>,
    pub mirrors: Rc<RaceMirrors>,
    pub seqs: Rc<SmallSeqs>,
}

/// Of a state what it has by page and by frame.
#[derive(Drop)]
pub(crate) struct PlaceParts {
    pub places: Rc<Places>,
    pub held: Rc<HeldFrames>,
    pub tables: Rc<TableEntries>,
    pub locks: Rc<FrameLocks>,
}

/// Of a state what it has by actor, and the marks of devices.
#[derive(Drop)]
pub(crate) struct ActorParts {
    pub marks: Rc<DeviceMarks>,
    pub maps: Rc<MapLocks>,
    pub tasks: Vec<Rc<RaceTask>>,
    ghost few: { length tasks.items ≤ 16 },
}
