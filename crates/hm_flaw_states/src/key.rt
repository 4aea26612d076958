// What a search keeps of a state of a race of a driver with a flaw.
use crate::owns::Own;
use crate::state::FlawState;
use hm_flaw_parts::Marks;
use hm_flaws::Part;
use hm_history::Entry;
use std::rc::Rc;

/// An entry that broke a part of legality, with that part.
#[derive(Drop)]
pub struct BrokenBy {
    pub entry: Rc<Entry>,
    pub part: Part,
}

/// A state of a race of a driver with a flaw. Copies share the parts that they have alike.
#[derive(Drop)]
pub struct FlawKey {
    pub state: Rc<FlawState>,
    pub own: Rc<Own>,
    pub marks: Rc<Marks>,
    /// The entries after the set-up, but for one that broke a part.
    pub trail: Vec<Rc<Entry>>,
    /// The entry that broke a part.
    pub broken: Option<BrokenBy>,
}
