// Where the frames were committed to.
ghost use Rattle.std.specs.Prelude.{◌≡◌, ◌==◌, ℕ, if◌then◌else◌, option_map, Some, None, OnOk, OnErr};
ghost use Rattle.hm_base.specs.PlaceWords.{with_frame};
ghost use Rattle.hm_base.specs.declared.Frame.{Frame as AnyFrame};
ghost use Rattle.hm_folds.specs.TableMap.{pool_of, dev_of_pool};
ghost use Rattle.hm_folds.specs.Commits.{frame_in, frame_kept, committed_at};

use hm_base::frames::{dev_frame, pool_index, sys_frame};
use hm_base::{Dev, Frame, NoMemory, PoolId};
use std::alloc::Global;
use std::collections::BTreeMap;

/// A frame: its device, none for one of the system, and its number.
#[derive(Clone, Copy)]
pub struct KeptFrame {
    dev: Option<Dev>,
    number: u32,
}

impl KeptFrame {
    fn frame(self) -> Frame
        ensures { result ≡ frame_kept self }
    {
        match self.dev {
            None => sys_frame(self.number),
            Some(dev) => dev_frame(dev, self.number),
        }
    }
}

/// Where the frames of a pool were committed to, by number.
#[derive(Drop)]
pub struct PoolCommits {
    frames: BTreeMap<u64, KeptFrame>,
}

impl PoolCommits {
    /// None was committed. It takes no memory.
    pub(crate) fn new(alloc: Global) -> PoolCommits
        ensures { (n : ℕ) → frame_in result n ≡ None }
    {
        PoolCommits {
            frames: BTreeMap::new(alloc),
        }
    }

    /// Where a frame was committed to.
    pub(crate) fn get(&self, number: u64) -> Option<Frame>
        ensures { result ≡ frame_in self.now number }
    {
        match self.frames.get(&number) {
            None => None,
            Some(kept) => Some(kept.frame()),
        }
    }

    /// A frame is committed to another, of no device if that is the system's; a failure changes nothing.
    pub(crate) fn set(&mut self, number: u64, dev: Option<Dev>, to: u32) -> Result<(), NoMemory>
        ensures ok { OnOk result
            ((n : ℕ)
            → frame_in self.new n
            ≡ (if n == number then Some (record { pool = pool_of dev; number = to }) else frame_in self.old n)) }
        ensures err { OnErr result ((n : ℕ) → frame_in self.new n ≡ frame_in self.old n) }
    {
        let kept = KeptFrame { dev, number: to };
        match self.frames.insert(number, kept) {
            Ok(_) => Ok(()),
            Err(_) => Err(NoMemory),
        }
    }

    /// A frame was committed nowhere.
    pub(crate) fn forget(&mut self, number: u64)
        ensures { (n : ℕ) → frame_in self.new n ≡ (if n == number then None else frame_in self.old n) }
    {
        let _ = self.frames.remove(&number);
    }
}

/// Where all frames were committed to.
#[derive(Drop)]
pub struct Commits {
    pools: [PoolCommits; 5],
}

impl Commits {
    /// None was committed. It takes no memory.
    pub(crate) fn new(alloc: Global) -> Commits
        ensures { (f : AnyFrame) → committed_at result.pools f ≡ None }
    {
        Commits {
            pools: [
                PoolCommits::new(alloc),
                PoolCommits::new(alloc),
                PoolCommits::new(alloc),
                PoolCommits::new(alloc),
                PoolCommits::new(alloc),
            ],
        }
    }

    /// Where a frame was committed to.
    pub(crate) fn get(&self, frame: &Frame) -> Option<Frame>
        ensures { result ≡ committed_at self.now.pools frame.now }
    {
        self.pools[pool_index(&frame.pool)].get(u64::from(frame.number))
    }

    /// A frame is committed to another; a failure changes nothing.
    pub(crate) fn set(&mut self, frame: &Frame, to: &Frame) -> Result<(), NoMemory>
        ensures ok { OnOk result
            ((f : AnyFrame)
            → committed_at self.new.pools f
            ≡ with_frame (committed_at self.old.pools) frame.now (Some to.now) f) }
        ensures err { OnErr result ((f : AnyFrame) → committed_at self.new.pools f ≡ committed_at self.old.pools f) }
    {
        let dev = dev_of(&to.pool);
        let pool = &mut self.pools[pool_index(&frame.pool)];
        match pool.set(u64::from(frame.number), dev, to.number) {
            Ok(()) => Ok(()),
            Err(error) => Err(error),
        }
    }

    /// A frame was committed nowhere since.
    pub(crate) fn forget(&mut self, frame: &Frame)
        ensures { (f : AnyFrame)
            → committed_at self.new.pools f ≡ with_frame (committed_at self.old.pools) frame.now None f }
    {
        let pool = &mut self.pools[pool_index(&frame.pool)];
        pool.forget(u64::from(frame.number));
    }
}

fn dev_of(pool: &PoolId) -> Option<Dev>
    ensures { result ≡ dev_of_pool pool.now }
{
    match pool {
        PoolId::System => None,
        PoolId::Device(dev) => Some(*dev),
    }
}
