// How a call ended, and what it ran.
ghost use Rattle.std.specs.Prelude.{◌≡◌, None, []};

use hm_base::Script;
use hm_edge::Status;
use hm_history::History;
use hm_turns::Receipt;
use hm_workers::PeekList;
use std::alloc::Global;

/// How a call ended, and what it ran.
#[derive(Drop)]
pub struct Ended {
    pub status: Status,
    /// The script that was run, whose text went out, or whose report was checked.
    pub script: Option<Script>,
    /// Its history, if it was run or its report was checked.
    pub history: History,
    /// If threads made it: that it is the history of the one machine that they shared.
    pub receipt: Option<Receipt>,
    /// If a watcher looked at a process's memory: what it saw, in the order of the history.
    pub peeks: PeekList,
}

impl Ended {
    /// Ends a call that has nothing to show.
    pub(crate) fn stopped(alloc: Global, status: Status) -> Ended
        ensures status { result.status ≡ status }
        ensures script { result.script ≡ None }
        ensures history { result.history.entries ≡ [] }
        ensures receipt { result.receipt ≡ None }
        ensures peeks { result.peeks ≡ [] }
    {
        Ended {
            status,
            script: None,
            history: History::new(alloc),
            receipt: None,
            peeks: PeekList::new(alloc),
        }
    }
}
