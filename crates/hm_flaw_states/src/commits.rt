// Where frames were committed to.
ghost use Rattle.std.specs.Prelude.{◌≡◌, true, [], Some, None, IfOk, OnOk};
ghost use Rattle.hm_base.specs.PlaceWords.{with_frame};
ghost use Rattle.hm_base.specs.declared.Frame.{Frame as AnyFrame};
ghost use Rattle.hm_flaw_states.specs.Commits.{target_of, commits_in, commits_next, mixed_target};

use hm_base::frames::pool_index;
use hm_base::{Frame, NoMemory};
use hm_history::Kind;
use hm_race_keys::sparse::{Kept, Sparse, mixed};
use std::alloc::Global;
use std::marker::Model;
use std::rc::Rc;

/// The frame that a frame was committed to.
#[derive(Clone, Copy, PartialEq, Eq)]
pub struct CommittedTo {
    pub frame: Frame,
}

impl Kept for CommittedTo {
    ghost mixed = { mixed_target };

    fn is_same(&self, other: &CommittedTo) -> bool {
        self == other
    }

    fn mixed(&self, sum: u64) -> u64 {
        mixed(
            mixed(sum, pool_index(&self.frame.pool) as u64),
            u64::from(self.frame.number),
        )
    }
}

/// Where each frame was committed to since it was last taken, by pool and number.
#[derive(Drop)]
pub struct FrameCommits {
    items: Sparse<CommittedTo>,
}

impl Model for FrameCommits {
    ghost use Rattle.std.specs.Prelude.{List};
    ghost use Rattle.hm_race_keys.specs.declared.sparse.Item.{Item as AnyItem};
    ghost use Rattle.hm_flaw_states.specs.declared.commits.CommittedTo.{CommittedTo as AnyTo};

    ghost Value = { List (AnyItem AnyTo) };

    ghost view = { λ s. s.items };
}

impl FrameCommits {
    /// None was committed. It takes no memory.
    pub fn new(alloc: Global) -> FrameCommits
        ensures { result ≡ [] }
    {
        FrameCommits {
            items: Sparse::new(alloc),
        }
    }

    /// Where the frame was committed to.
    pub fn get(&self, frame: &Frame) -> Option<Frame>
        ensures { result ≡ commits_in self.now frame.now }
    {
        match self
            .items
            .get(pool_index(&frame.pool) as u32, u64::from(frame.number))
        {
            None => None,
            Some(to) => Some(to.frame),
        }
    }

    fn set(&mut self, frame: &Frame, to: &Frame) -> Result<(), NoMemory>
        ensures { OnOk result
            (commits_in self.new ≡ with_frame (commits_in self.old) frame.now (Some to.now)) }
    {
        let to = CommittedTo { frame: *to };
        Ok(self.items.set(pool_index(&frame.pool) as u32, u64::from(frame.number), to)?)
    }

    fn forget(&mut self, frame: &Frame)
        ensures { commits_in self.new ≡ with_frame (commits_in self.old) frame.now None }
    {
        self.items
            .remove(pool_index(&frame.pool) as u32, u64::from(frame.number));
    }

    fn step(&mut self, kind: &Kind) -> Result<(), NoMemory>
        ensures { OnOk result (commits_in self.new ≡ commits_next (commits_in self.old) kind.now) }
    {
        match kind {
            Kind::Take(frame) => {
                self.forget(frame);
                Ok(())
            }
            Kind::Committed { from, to } => Ok(self.set(from, to)?),
            _ => Ok(()),
        }
    }

    fn copy(&self, alloc: Global) -> Result<FrameCommits, NoMemory>
        ensures { IfOk result (λ x. x ≡ self.now) }
    {
        Ok(FrameCommits {
            items: self.items.copy(alloc)?,
        })
    }

    /// Whether each frame was committed to the same in both.
    pub fn same(&self, other: &FrameCommits) -> bool
        ensures yes { result ≡ true → self.now ≡ other.now }
        ensures no { ((f : AnyFrame) → commits_in self.now f ≡ commits_in other.now f) → result ≡ true }
    {
        self.items.same(&other.items)
    }
}

/// Where frames were committed to after an entry.
pub(crate) fn commits_after(
    alloc: Global,
    commits: &Rc<FrameCommits>,
    kind: &Kind,
) -> Result<Rc<FrameCommits>, NoMemory>
    ensures { IfOk result (λ x. commits_in x.value ≡ commits_next (commits_in commits.now.value) kind.now) }
{
    match kind {
        Kind::Take(..) | Kind::Committed { .. } => {
            let mut new = commits.copy(alloc)?;
            new.step(kind)?;
            Ok(Rc::new(alloc, new)?)
        }
        _ => Ok(commits.clone()?),
    }
}
