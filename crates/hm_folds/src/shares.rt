// For each frame, how many pages have to do with it, and how many of them are writable.
ghost use Rattle.std.specs.Prelude.{◌≡◌, ◌==◌, ℕ, if◌then◌else◌, true, OnOk, OnErr};
ghost use Rattle.hm_base.specs.declared.Frame.{Frame as AnyFrame};
ghost use Rattle.hm_base.specs.PlaceWords.{is_frame, moving_frame, with_frame};
ghost use Rattle.hm_folds.specs.Standing.{share_of};
ghost use Rattle.hm_folds.specs.Shares.{no_shares, plus, less, has_one_writer, shares_in, has_shares, shares_at};
ghost use Rattle.hm_folds.specs.Shares.{Fit, AllFit};

use hm_base::frames::pool_index;
use hm_base::{Frame, NoMemory, Place};
use std::alloc::Global;
use std::collections::BTreeMap;

/// A number of pages, and how many of them are writable.
#[derive(Clone, Copy)]
pub struct Shares {
    pub pages: u64,
    pub writers: u64,
}

impl Shares {
    /// Those of one page with this place.
    pub fn of_page(place: &Place) -> Shares
        ensures { result ≡ share_of place.now }
    {
        Shares {
            pages: 1,
            writers: if place.writable() { 1 } else { 0 },
        }
    }

    /// So many more. No history has as many pages as do not fit.
    fn plus(self, more: Shares) -> Shares
        ensures { Fit self more → result ≡ plus self more }
    {
        Shares {
            pages: self.pages.saturating_add(more.pages),
            writers: self.writers.saturating_add(more.writers),
        }
    }

    /// So many fewer.
    pub fn less(self, fewer: Shares) -> Shares
        ensures { result ≡ less self fewer }
    {
        Shares {
            pages: self.pages.saturating_sub(fewer.pages),
            writers: self.writers.saturating_sub(fewer.writers),
        }
    }

    /// Whether, with these more, none is writable or there is one page at the most.
    pub fn has_one_writer_with(self, more: Shares) -> bool
        ensures { result ≡ has_one_writer (plus self more) }
    {
        let one = match self.pages {
            0 => more.pages <= 1,
            1 => more.pages == 0,
            _ => false,
        };
        one || (self.writers == 0 && more.writers == 0)
    }
}

/// The shares of a pool's frames, by number.
#[derive(Drop)]
pub struct PoolShares {
    shares: BTreeMap<u64, Shares>,
}

impl PoolShares {
    /// No pages. It takes no memory.
    pub(crate) fn new(alloc: Global) -> PoolShares
        ensures { (n : ℕ) → shares_in result n ≡ no_shares }
    {
        PoolShares {
            shares: BTreeMap::new(alloc),
        }
    }

    /// Those of a frame.
    pub(crate) fn get(&self, number: u64) -> Shares
        ensures { result ≡ shares_in self.now number }
    {
        match self.shares.get(&number) {
            Some(shares) => *shares,
            None => Shares {
                pages: 0,
                writers: 0,
            },
        }
    }

    /// Those of a frame from now on; a failure changes nothing.
    pub(crate) fn set(&mut self, number: u64, shares: Shares) -> Result<(), NoMemory>
        ensures ok { OnOk result
            ((n : ℕ) → shares_in self.new n ≡ (if n == number then shares else shares_in self.old n)) }
        ensures err { OnErr result ((n : ℕ) → shares_in self.new n ≡ shares_in self.old n) }
    {
        match self.shares.insert(number, shares) {
            Ok(_) => Ok(()),
            Err(_) => Err(NoMemory),
        }
    }

    /// The same, of a frame that has a place in the map.
    fn put(&mut self, number: u64, shares: Shares)
        requires { has_shares self.old number ≡ true }
        ensures { (n : ℕ) → shares_in self.new n ≡ (if n == number then shares else shares_in self.old n) }
    {
        match self.shares.insert(number, shares) {
            Ok(_) => (),
            Err(_) => unreachable!(),
        }
    }

    /// So many fewer of a frame.
    pub(crate) fn lower(&mut self, number: u64, fewer: Shares)
        ensures { (n : ℕ)
            → shares_in self.new n
            ≡ (if n == number then less (shares_in self.old number) fewer else shares_in self.old n) }
    {
        if self.shares.contains_key(&number) {
            let left = self.get(number).less(fewer);
            self.put(number, left);
        }
    }
}

/// The shares of all frames.
#[derive(Drop)]
pub struct FrameShares {
    pools: [PoolShares; 5],
}

impl FrameShares {
    /// No pages. It takes no memory.
    pub(crate) fn new(alloc: Global) -> FrameShares
        ensures { (f : AnyFrame) → shares_at result.pools f ≡ no_shares }
    {
        FrameShares {
            pools: [
                PoolShares::new(alloc),
                PoolShares::new(alloc),
                PoolShares::new(alloc),
                PoolShares::new(alloc),
                PoolShares::new(alloc),
            ],
        }
    }

    /// Those of a frame.
    pub(crate) fn get(&self, frame: &Frame) -> Shares
        ensures { result ≡ shares_at self.now.pools frame.now }
    {
        self.pools[pool_index(&frame.pool)].get(u64::from(frame.number))
    }

    /// So many more of a frame, if there is one; a failure changes nothing.
    pub(crate) fn add(&mut self, frame: &Option<Frame>, more: Shares) -> Result<(), NoMemory>
        ensures ok { OnOk result
            (AllFit (shares_at self.old.pools) more → (f : AnyFrame)
            → shares_at self.new.pools f
            ≡
            (if is_frame frame.now f then plus (shares_at self.old.pools f) more else shares_at self.old.pools f)) }
        ensures err { OnErr result ((f : AnyFrame) → shares_at self.new.pools f ≡ shares_at self.old.pools f) }
    {
        match frame {
            None => Ok(()),
            Some(frame) => {
                let shares = self.get(frame).plus(more);
                self.set(frame, shares)
            }
        }
    }

    fn set(&mut self, frame: &Frame, shares: Shares) -> Result<(), NoMemory>
        ensures ok { OnOk result
            ((f : AnyFrame)
            → shares_at self.new.pools f ≡ with_frame (shares_at self.old.pools) frame.now shares f) }
        ensures err { OnErr result ((f : AnyFrame) → shares_at self.new.pools f ≡ shares_at self.old.pools f) }
    {
        let pool = &mut self.pools[pool_index(&frame.pool)];
        match pool.set(u64::from(frame.number), shares) {
            Ok(()) => Ok(()),
            Err(error) => Err(error),
        }
    }

    /// So many fewer of a frame, if there is one.
    pub(crate) fn lower(&mut self, frame: &Option<Frame>, fewer: Shares)
        ensures { (f : AnyFrame)
            → shares_at self.new.pools f
            ≡
            (if is_frame frame.now f then less (shares_at self.old.pools f) fewer else shares_at self.old.pools f) }
    {
        match frame {
            None => (),
            Some(frame) => self.lower_at(frame, fewer),
        }
    }

    fn lower_at(&mut self, frame: &Frame, fewer: Shares)
        ensures { (f : AnyFrame)
            → shares_at self.new.pools f
            ≡ with_frame (shares_at self.old.pools) frame.now (less (shares_at self.old.pools frame.now) fewer) f }
    {
        let pool = &mut self.pools[pool_index(&frame.pool)];
        pool.lower(u64::from(frame.number), fewer);
    }
}

fn moving_frame(place: &Place) -> Option<Frame>
    ensures { result ≡ moving_frame place.now }
{
    match place {
        Place::Moving { frame, writable: _ } => Some(*frame),
        _ => None,
    }
}

/// One page more of this place, which stands for the frame; a failure changes nothing.
pub(crate) fn share_more(
    standing: &mut FrameShares,
    moving: &mut FrameShares,
    to: &Option<Frame>,
    place: &Place,
) -> Result<(), NoMemory>
    ensures standing { OnOk result
        (AllFit (shares_at standing.old.pools) (share_of place.now) → (f : AnyFrame)
        → shares_at standing.new.pools f
        ≡
        (if is_frame to.now f then plus (shares_at standing.old.pools f) (share_of place.now)
        else shares_at standing.old.pools f)) }
    ensures moving { OnOk result
        (AllFit (shares_at moving.old.pools) (share_of place.now) → (f : AnyFrame)
        → shares_at moving.new.pools f
        ≡
        (if is_frame (moving_frame place.now) f then plus (shares_at moving.old.pools f) (share_of place.now)
        else shares_at moving.old.pools f)) }
    ensures stands { OnErr result
        (AllFit (shares_at standing.old.pools) (share_of place.now)
        → (f : AnyFrame) → shares_at standing.new.pools f ≡ shares_at standing.old.pools f) }
    ensures moves { OnErr result
        ((f : AnyFrame) → shares_at moving.new.pools f ≡ shares_at moving.old.pools f) }
{
    let share = Shares::of_page(place);
    standing.add(to, share)?;
    match moving.add(&moving_frame(place), share) {
        Ok(()) => Ok(()),
        Err(error) => {
            standing.lower(to, share);
            Err(error)
        }
    }
}

/// One page of this place fewer.
pub(crate) fn share_less(
    standing: &mut FrameShares,
    moving: &mut FrameShares,
    from: &Option<Frame>,
    place: &Place,
)
    ensures standing { (f : AnyFrame)
        → shares_at standing.new.pools f
        ≡
        (if is_frame from.now f then less (shares_at standing.old.pools f) (share_of place.now)
        else shares_at standing.old.pools f) }
    ensures moving { (f : AnyFrame)
        → shares_at moving.new.pools f
        ≡
        (if is_frame (moving_frame place.now) f then less (shares_at moving.old.pools f) (share_of place.now)
        else shares_at moving.old.pools f) }
{
    let share = Shares::of_page(place);
    standing.lower(from, share);
    moving.lower(&moving_frame(place), share);
}
