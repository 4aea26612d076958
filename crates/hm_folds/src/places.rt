// Where pages lie, which frames are held, and the mirrors' tables.
ghost use Rattle.std.specs.Prelude.{◌≡◌, ℕ, not, false, unwrap_or, IfOk, OnOk, OnErr};
ghost use Rattle.hm_history.specs.Memory.Plain.{plain_start, mirror_owner};
ghost use Rattle.hm_history.specs.Memory.Places.{places_start, places_next, places_accept, uses, is_used, next_page};
ghost use Rattle.hm_history.specs.Memory.Places.{lowest_direct, lowest_moving, lowest_free, held_from, is_withdrawn};
ghost use Rattle.hm_history.specs.Memory.Places.{is_removed};
ghost use Rattle.hm_folds.specs.Applied.{is_not_legal, is_no_memory, takes_room};
ghost use Rattle.hm_folds.specs.MirrorTables.{owner_next};
ghost use Rattle.hm_folds.specs.Commits.{committed_at};
ghost use Rattle.hm_folds.specs.Standing.{backing_by, entry_read};
ghost use Rattle.hm_folds.specs.Fitted.{IsFitted};

mod accepts;
mod steps;

use crate::commits::Commits;
use crate::held_frames::HeldFrames;
use crate::mirror_tables::MirrorTables;
use crate::shares::FrameShares;
use hm_base::frames::names;
use hm_base::{Dev, Frame, MirrorId, NoMemory, Page, Place, PoolId, Proc, Script};
use hm_history::{Entry, FoldError, TableRight};
use hm_tables::{PageTables, PageTest};
use std::alloc::Global;

/// The places after a history.
#[derive(Drop)]
pub struct PlaceState {
    tables: PageTables,
    held: HeldFrames,
    commits: Commits,
    // The pages that stand for each frame.
    standing: FrameShares,
    // The migration entries of each frame.
    moving: FrameShares,
    withdrawn: [bool; 4],
    removed: [bool; 4],
    mirror_tables: MirrorTables,
    devices: [Option<Dev>; 32],
    owners: [Option<Proc>; 32],
    ghost fitted: { IsFitted tables held.pools },
}

impl PlaceState {
    ghost use Rattle.hm_folds.specs.Places.{PlacesShown, ForShown, owners_of};

    /// Before the first entry. The tables take memory for each frame of the script.
    pub fn start(alloc: Global, script: &Script) -> Result<PlaceState, NoMemory>
        ensures shown { IfOk result (λ x. PlacesShown script.now places_start x) }
        ensures owners { IfOk result (λ x. (m : ℕ) → owners_of x m ≡ mirror_owner plain_start m) }
    {
        script.facts();
        let tables = PageTables::new(alloc, script)?;
        let mirror_tables = MirrorTables::new(alloc)?;
        Ok(PlaceState {
            tables,
            held: HeldFrames::new(alloc, script),
            commits: Commits::new(alloc),
            standing: FrameShares::new(alloc),
            moving: FrameShares::new(alloc),
            withdrawn: [false; 4],
            removed: [false; 4],
            mirror_tables,
            devices: [None; 32],
            owners: [None; 32],
        })
    }

    /// The place of a page.
    pub fn place(&self, proc: Proc, page: Page) -> Place
        ensures { ForShown self.now (λ c s. result ≡ s.place proc page) }
    {
        self.tables.place(proc, page)
    }

    /// The lowest page of the process from there on that has a place.
    pub fn next_used(&self, proc: Proc, from: u64) -> Option<Page>
        ensures { ForShown self.now (λ c s. result ≡ next_page s is_used proc from) }
    {
        if from < 1 << 36 {
            self.tables
                .next_page(proc, Page::new(from), 1 << 36, PageTest::Used)
        } else {
            None
        }
    }

    /// How many pages name the frame, migration entries included.
    pub fn uses(&self, frame: &Frame) -> u64
        ensures { ForShown self.now (λ c s. result ≡ uses s frame.now) }
    {
        self.tables.uses(frame)
    }

    /// The lowest page that names the frame, and not by a migration entry.
    pub fn lowest_direct(&self, frame: &Frame) -> Option<(Proc, Page)>
        ensures { ForShown self.now (λ c s. result ≡ lowest_direct s frame.now) }
    {
        self.tables.lowest_direct(frame)
    }

    /// The lowest page that names the frame by a migration entry.
    pub fn lowest_moving(&self, frame: &Frame) -> Option<(Proc, Page)>
        ensures { ForShown self.now (λ c s. result ≡ lowest_moving s frame.now) }
    {
        self.tables.lowest_moving(frame)
    }

    /// The frame that the next `take` of the pool gives; none of a device from which none is taken any more.
    pub fn lowest_free(&self, pool: PoolId) -> Option<Frame>
        ensures { ForShown self.now (λ c s. result ≡ lowest_free c s pool) }
    {
        if self.is_withdrawn(&pool) {
            return None;
        }
        match self.held.lowest_free(pool) {
            Some(number) => Some(Frame { pool, number }),
            None => None,
        }
    }

    /// The lowest held frame of the device from there on.
    pub fn held_from(&self, dev: Dev, from: u64) -> Option<u32>
        ensures { ForShown self.now (λ c s. result ≡ held_from c s dev from) }
    {
        self.held.held_from(dev, from)
    }

    /// Whether no frame of the device is taken any more.
    pub(crate) fn withdrawn(&self, dev: Dev) -> bool
        ensures { ForShown self.now (λ c s. result ≡ s.withdrawn dev) }
    {
        self.withdrawn[dev.number() as usize]
    }

    /// The entry of a mirror's table: its frame, none for the zero page, its right, and the position of its look-up's
    /// begin.
    pub fn table(&self, mirror: MirrorId, page: Page) -> Option<(Option<Frame>, TableRight, u64)>
        ensures { ForShown self.now (λ c s. result ≡ entry_read (s.table mirror page)) }
    {
        match self.mirror_tables.get(mirror, page) {
            None => None,
            Some(entry) => Some((entry.target(), entry.right, entry.since)),
        }
    }

    /// The state after one entry more. An entry that is not legal changes nothing; if memory ran out, what is kept
    /// still stands for the state before the entry.
    pub fn apply(&mut self, entry: &Entry) -> Result<(), FoldError>
        ensures legal { ForShown self.old
            (λ c s. is_not_legal result
            ≡ not (places_accept c (owners_of self.old) s entry.now.actor entry.now.kind)) }
        ensures ok { OnOk result (ForShown self.old (λ c s. PlacesShown c (places_next s entry.now.kind) self.new)) }
        ensures err { OnErr result (ForShown self.old (λ c s. PlacesShown c s self.new)) }
        ensures owners { OnOk result (owners_of self.new ≡ owner_next (owners_of self.old) entry.now.kind) }
        ensures kept { OnErr result (owners_of self.new ≡ owners_of self.old) }
        ensures memory { takes_room entry.now.kind ≡ false → is_no_memory result ≡ false }
    {
        if !self.accepts(entry.actor, &entry.kind) {
            return Err(FoldError::NotLegal);
        }
        match self.step(&entry.kind) {
            Ok(()) => Ok(()),
            Err(_) => Err(FoldError::NoMemory),
        }
    }

    fn is_withdrawn(&self, pool: &PoolId) -> bool
        ensures { ForShown self.now (λ c s. result ≡ is_withdrawn s pool.now) }
    {
        match pool {
            PoolId::System => false,
            PoolId::Device(dev) => self.withdrawn(*dev),
        }
    }

    fn is_removed(&self, pool: &PoolId) -> bool
        ensures { ForShown self.now (λ c s. result ≡ is_removed s pool.now) }
    {
        match pool {
            PoolId::System => false,
            PoolId::Device(dev) => self.removed[dev.number() as usize],
        }
    }

    // The frame that a migration entry of a frame stands for.
    fn destination(&self, frame: &Frame) -> Frame
        ensures { result ≡ unwrap_or (committed_at self.now.commits.pools frame.now) frame.now }
    {
        match self.commits.get(frame) {
            Some(to) => to,
            None => *frame,
        }
    }

    // The frame that a place stands for.
    fn backing(&self, place: &Place) -> Option<Frame>
        ensures { result ≡ backing_by (committed_at self.now.commits.pools) place.now }
    {
        match place {
            Place::Moving { frame, writable: _ } => Some(self.destination(frame)),
            _ => names(place),
        }
    }
}
