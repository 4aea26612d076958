// A state of a script, kept exactly.
ghost use Rattle.std.specs.Prelude.{◌≤◌, length};
ghost use Rattle.hm_flaw_states.specs.Exact.{IsPaced};
ghost use Rattle.hm_flaw_states.specs.Windows.{SameWindows};

use crate::commits::FrameCommits;
use crate::exact_seqs::ExactSeqs;
use crate::frame_bytes::FrameBytes;
use crate::guards::ActorGuards;
use crate::own_tables::OwnTables;
use crate::placed::PlacedPages;
use hm_race_keys::device_marks::DeviceMarks;
use hm_race_keys::frame_locks::FrameLocks;
use hm_race_keys::held_frames::HeldFrames;
use hm_race_keys::map_locks::MapLocks;
use hm_race_keys::page_places::Places;
use hm_race_states::memory::RaceBytes;
use hm_race_states::mirrors::RaceMirrors;
use hm_race_states::spaces::RaceSpaces;
use hm_race_states::tasks::RaceTask;
use std::rc::Rc;

/// A state of a script, exactly as the definitions have it. Copies share the parts that they have alike.
#[derive(Drop)]
pub struct FlawState {
    pub entries: u64,
    pub been: [bool; 32],
    pub spaces: Rc<RaceSpaces>,
    pub bytes: Rc<RaceBytes>,
    pub mirrors: Rc<RaceMirrors>,
    pub places: Rc<Places>,
    pub placed: Rc<PlacedPages>,
    pub held: Rc<HeldFrames>,
    pub commits: Rc<FrameCommits>,
    pub marks: Rc<DeviceMarks>,
    pub tables: Rc<OwnTables>,
    pub locks: Rc<FrameLocks>,
    pub maps: Rc<MapLocks>,
    pub seqs: Rc<ExactSeqs>,
    pub guards: Rc<ActorGuards>,
    pub contents: Rc<FrameBytes>,
    pub tasks: Vec<Rc<RaceTask>>,
    ghost few: { length tasks.items ≤ 16 },
    ghost windows: { SameWindows mirrors.value seqs.value.kept.intervals },
    ghost paced: { IsPaced seqs.value.kept entries },
}
