// The pools of the system and of all devices, with a step for every kind of entry.
ghost use Rattle.std.specs.Prelude.{◌≡◌, ◌≢◌, ℕ, ◌+◌, ◌*◌, ◌%◌, ◌<◌, ◌≤◌, true, Some, None, is_some, unwrap_or};
ghost use Rattle.std.specs.Prelude.{if◌then◌else◌, length, replicate, IfOk};
ghost use Rattle.frame_pool.specs.Frames.{IsPiece};
ghost use Rattle.hm_base.specs.PlaceWords.{names};
ghost use Rattle.hm_base.specs.declared.limits.TheConstants.{MOST_DEVICES};
ghost use Rattle.hm_base.specs.declared.Frame.{Frame};
ghost use Rattle.hm_base.specs.declared.PoolId.{PoolId};
ghost use Rattle.hm_frames.specs.Pools.{fresh_pool, fresh_pools, frames_of_device, pool_at, with_pool, pool_taken};
ghost use Rattle.hm_frames.specs.Pools.{pool_dropped, pool_locked, pool_unlocked, pool_settled, pool_frozen};
ghost use Rattle.hm_frames.specs.Pools.{pool_committed, withdrawn_in, is_held_in, locker_in, other_locker_in};
ghost use Rattle.hm_frames.specs.Pools.{committed_to_in, lowest_free_in, held_from_in, is_withdrawn_in, is_removed_in};
ghost use Rattle.hm_frames.specs.Pools.{bytes_in, shown_in, stands_for_in, backing_in, is_moving, placed_in, locked_in};
ghost use Rattle.hm_frames.specs.Pools.{stored_in, piece_of_part, copied_in, frames_next};
ghost use Rattle.hm_frames.specs.Shown.{StepFits};

use crate::one_pool::OnePool;
use frame_pool::Piece;
use hm_base::frames::{pool_index, sys_frame};
use hm_base::{Actor, Dev, DeviceList, Frame, NoMemory, Place, PoolId, Script};
use hm_history::Kind;
use std::alloc::Global;
use std::marker::Model;

/// The frames of the system and of the devices: which are held, by whom each is locked, what it contains and where it
/// was committed to; and which devices give out none any more, or are removed.
#[derive(Drop)]
pub struct FramePools {
    pools: [OnePool; 5],
    removed: [bool; 4],
}

impl Model for FramePools {
    ghost use Rattle.hm_frames.specs.Pools.{PoolsState};

    ghost Value = { PoolsState };

    ghost view = { λ x. record { pools = x.pools; removed = x.removed } };
}

impl FramePools {
    /// The pools of a script, of whose frames none is held. They take all the memory that they will need.
    pub fn new(alloc: Global, script: &Script) -> Result<FramePools, NoMemory>
        ensures { IfOk result (λ pools. pools ≡ fresh_pools script.now) }
    {
        let system = OnePool::new(alloc, script.frames)?;
        let first = device_pool(alloc, &script.devices, 0)?;
        let second = device_pool(alloc, &script.devices, 1)?;
        let third = device_pool(alloc, &script.devices, 2)?;
        let fourth = device_pool(alloc, &script.devices, 3)?;
        Ok(FramePools {
            pools: [system, first, second, third, fourth],
            removed: [false; 4],
        })
    }

    /// The pools after an entry of the actor: `old` is the place that it is about, before it, and `orphan` the frame
    /// that it leaves unnamed and that nobody had locked.
    pub fn step(&mut self, actor: Actor, kind: &Kind, old: &Place, orphan: &Option<Frame>)
        requires { StepFits kind.now old.now orphan.now self.old }
        ensures { self.new ≡ frames_next actor kind.now old.now orphan.now self.old }
    {
        match kind {
            Kind::Take(frame) => self.take(*frame, actor),
            Kind::Drop(frame) => self.drop_frame(*frame),
            Kind::Done(frame) => self.unlock(*frame),
            Kind::Place {
                proc: _,
                page: _,
                place,
            } => self.place(*old, actor, place, *orphan),
            Kind::Stored {
                who: _,
                addr: at,
                bytes,
            } => self.store(*old, *at, bytes.as_slice()),
            Kind::Added {
                mirror: _,
                addr: at,
                read: _,
                written: now,
            } => self.store(*old, *at, &[*now]),
            Kind::Copied { from, to, part } => self.copy(*from, *to, piece_of_part(*part)),
            Kind::Committed { from, to } => self.commit(*from, *to),
            Kind::Withdrawn(dev) => self.withdraw(*dev),
            Kind::Removed(dev) => self.removed[dev.number() as usize] = true,
            _ => (),
        }
    }

    fn take(&mut self, frame: Frame, actor: Actor)
        requires { lowest_free_in self.old frame.pool ≡ Some frame }
        ensures { self.new
            ≡ with_pool self.old frame.pool (pool_taken (pool_at self.old frame.pool) frame.number actor) }
    {
        self.pools[pool_index(&frame.pool)].take(frame.number, actor);
    }

    fn drop_frame(&mut self, frame: Frame)
        requires { is_held_in self.old frame ≡ true }
        ensures { self.new ≡ with_pool self.old frame.pool (pool_dropped (pool_at self.old frame.pool) frame.number) }
    {
        self.pools[pool_index(&frame.pool)].drop_frame(frame.number);
    }

    fn unlock(&mut self, frame: Frame)
        requires { is_some (locker_in self.old frame) ≡ true }
        ensures { self.new ≡ with_pool self.old frame.pool (pool_unlocked (pool_at self.old frame.pool) frame.number) }
    {
        self.pools[pool_index(&frame.pool)].unlock(frame.number);
    }

    /// The locks once a page of place `old` has this place, and the frame that it left is the actor's.
    fn place(&mut self, old: Place, actor: Actor, place: &Place, orphan: Option<Frame>)
        requires named { (f : Frame) → names place.now ≡ Some f → is_held_in self.old f ≡ true }
        requires left { (f : Frame) → orphan ≡ Some f → is_held_in self.old f ≡ true }
        ensures { self.new ≡ locked_in (placed_in self.old old actor place.now) orphan actor }
    {
        self.settle_or_freeze(old, actor, place);
        if let Some(frame) = orphan {
            self.lock(frame, actor);
        }
    }

    /// A frame that its taker places is no longer locked; one whose page is under way is locked from now on.
    fn settle_or_freeze(&mut self, old: Place, actor: Actor, place: &Place)
        requires { (f : Frame) → names place.now ≡ Some f → is_held_in self.old f ≡ true }
        ensures next { self.new ≡ placed_in self.old old actor place.now }
        ensures held { (f : Frame) → is_held_in self.new f ≡ is_held_in self.old f }
    {
        match place {
            Place::Sys {
                number,
                writable: _,
            } => self.settle(old, *number, actor),
            Place::Moving { frame, writable: _ } => self.freeze(*frame, actor),
            _ => (),
        }
    }

    fn settle(&mut self, old: Place, number: u32, actor: Actor)
        ensures { self.new
            ≡
            (if is_moving old then self.old else with_pool self.old PoolId.System
            (pool_settled (pool_at self.old PoolId.System) number actor)) }
    {
        if !is_moving(old) {
            self.pools[0].settle(number, actor);
        }
    }

    fn freeze(&mut self, frame: Frame, actor: Actor)
        requires { is_held_in self.old frame ≡ true }
        ensures { self.new
            ≡ with_pool self.old frame.pool (pool_frozen (pool_at self.old frame.pool) frame.number actor) }
    {
        self.pools[pool_index(&frame.pool)].freeze(frame.number, actor);
    }

    fn lock(&mut self, frame: Frame, actor: Actor)
        requires { is_held_in self.old frame ≡ true }
        ensures { self.new
            ≡ with_pool self.old frame.pool (pool_locked (pool_at self.old frame.pool) frame.number actor) }
    {
        self.pools[pool_index(&frame.pool)].lock(frame.number, actor);
    }

    /// Writes the bytes at their address's offset into the frame that the place stands for.
    fn store(&mut self, old: Place, at: u64, bytes: &[u8])
        requires held { (f : Frame) → backing_in self.old old ≡ Some f → is_held_in self.old f ≡ true }
        requires lies { at % 4096 + length bytes.now ≤ 4096 }
        ensures { self.new ≡ stored_in self.old (backing_in self.old old) at bytes.now }
    {
        if let Some(frame) = self.backing(&old) {
            self.pools[pool_index(&frame.pool)].write(frame.number, (at % 4096) as u32, bytes);
        }
    }

    fn copy(&mut self, from: Frame, to: Frame, piece: Piece)
        requires source { is_held_in self.old from ≡ true }
        requires target { is_held_in self.old to ≡ true }
        requires differ { from ≢ to }
        requires piece { IsPiece piece }
        ensures { self.new ≡ copied_in self.old from to piece }
    {
        let source = pool_index(&from.pool);
        let target = pool_index(&to.pool);
        if source == target {
            self.pools[source].copy_within(from.number, to.number, piece);
        } else if source < target {
            let (low, high) = self.pools.split_at_mut(target);
            high[0].copy_from(&low[source], from.number, to.number, piece);
        } else {
            let (low, high) = self.pools.split_at_mut(source);
            low[target].copy_from(&high[0], from.number, to.number, piece);
        }
    }

    fn commit(&mut self, from: Frame, to: Frame)
        requires { is_held_in self.old from ≡ true }
        ensures { self.new ≡ with_pool self.old from.pool (pool_committed (pool_at self.old from.pool) from.number to) }
    {
        self.pools[pool_index(&from.pool)].commit(from.number, to);
    }

    fn withdraw(&mut self, dev: Dev)
        ensures { self.new
            ≡ with_pool self.old (PoolId.Device dev) (withdrawn_in (pool_at self.old (PoolId.Device dev))) }
    {
        self.pools[pool_index(&PoolId::Device(dev))].withdraw();
    }

    /// Whether the frame was taken and not dropped since.
    pub(crate) fn is_held(&self, frame: &Frame) -> bool
        ensures { result ≡ is_held_in self.now frame.now }
    {
        self.pools[pool_index(&frame.pool)].is_held(frame.number)
    }

    /// The actor that has the frame locked.
    pub fn locker(&self, frame: &Frame) -> Option<Actor>
        ensures { result ≡ locker_in self.now frame.now }
    {
        self.pools[pool_index(&frame.pool)].holder(frame.number)
    }

    /// The other actor that has the frame locked.
    pub fn other_locker(&self, frame: &Frame, actor: Actor) -> Option<Actor>
        ensures { result ≡ other_locker_in self.now frame.now actor }
    {
        match self.locker(frame) {
            None => None,
            Some(by) => if actor == by { None } else { Some(by) },
        }
    }

    /// Where the frame was committed to since it was last taken.
    pub(crate) fn committed_to(&self, frame: &Frame) -> Option<Frame>
        ensures { result ≡ committed_to_in self.now frame.now }
    {
        self.pools[pool_index(&frame.pool)].committed_to(frame.number)
    }

    /// The lowest frame of the pool that is free, unless the pool gives out none any more.
    pub fn lowest_free(&self, pool: &PoolId) -> Option<Frame>
        ensures { result ≡ lowest_free_in self.now pool.now }
    {
        match self.pools[pool_index(pool)].lowest_free() {
            Some(number) => Some(Frame {
                pool: *pool,
                number,
            }),
            None => None,
        }
    }

    /// The lowest held frame of the device from this number on.
    pub fn held_from(&self, dev: Dev, from: u64) -> Option<u32>
        ensures { result ≡ held_from_in self.now dev from }
    {
        self.pools[pool_index(&PoolId::Device(dev))].held_at_or_after(from)
    }

    /// Whether no frame of the device can be taken any more.
    pub fn is_withdrawn(&self, dev: Dev) -> bool
        ensures same { result ≡ is_withdrawn_in self.now dev }
        ensures below { dev < MOST_DEVICES }
    {
        self.pools[pool_index(&PoolId::Device(dev))].is_withdrawn()
    }

    /// Whether the device was removed.
    pub fn is_removed(&self, dev: Dev) -> bool
        ensures same { result ≡ is_removed_in self.now dev }
        ensures below { dev < MOST_DEVICES }
    {
        self.removed[dev.number() as usize]
    }

    /// What the place stands for: a frame, the zero page (`Some(None)`), or nothing.
    pub(crate) fn stands_for(&self, place: &Place) -> Option<Option<Frame>>
        ensures { result ≡ stands_for_in self.now place.now }
    {
        match place {
            Place::Empty => None,
            Place::Zero => Some(None),
            Place::Sys {
                number,
                writable: _,
            } => Some(Some(sys_frame(*number))),
            Place::Own {
                dev,
                number,
                writable: _,
            } => Some(Some(Frame {
                pool: PoolId::Device(*dev),
                number: *number,
            })),
            Place::Moving { frame, writable: _ } => Some(Some(self.destination(frame))),
            Place::Exclusive { number, actor: _ } => Some(Some(sys_frame(*number))),
        }
    }

    /// Where the contents of a migrating frame are.
    fn destination(&self, frame: &Frame) -> Frame
        ensures { result ≡ unwrap_or (committed_to_in self.now frame.now) frame.now }
    {
        match self.committed_to(frame) {
            Some(to) => to,
            None => *frame,
        }
    }

    /// The frame that the place stands for; none for the zero page, or if nothing is mapped.
    pub(crate) fn backing(&self, place: &Place) -> Option<Frame>
        ensures { result ≡ backing_in self.now place.now }
    {
        match self.stands_for(place) {
            Some(target) => target,
            None => None,
        }
    }

    /// Fills `into` with the frame's bytes from `offset` on.
    pub fn read(&self, frame: &Frame, offset: u32, into: &mut [u8])
        requires held { is_held_in self.now frame.now ≡ true }
        requires lies { offset + length into.old ≤ 4096 }
        ensures { into.new ≡ bytes_in self.now frame.now offset (length into.old) }
    {
        self.pools[pool_index(&frame.pool)].read(frame.number, offset, into);
    }

    /// Fills `into` with what a page of this place shows from `offset` on: zeros if it stands for no frame.
    pub fn show(&self, place: &Place, offset: u32, into: &mut [u8])
        requires held { (f : Frame) → backing_in self.now place.now ≡ Some f → is_held_in self.now f ≡ true }
        requires lies { offset + length into.old ≤ 4096 }
        ensures { into.new ≡ shown_in self.now place.now offset (length into.old) }
    {
        match self.backing(place) {
            Some(frame) => self.read(&frame, offset, into),
            None => zero(into),
        }
    }
}

fn zero(into: &mut [u8])
    ensures { into.new ≡ replicate (length into.old) 0 }
{
    into.fill(0);
}

/// The pool of the device of this number, without frames if it is not declared.
fn device_pool(alloc: Global, devices: &DeviceList, number: u64) -> Result<OnePool, NoMemory>
    ensures { IfOk result (λ pool. pool ≡ fresh_pool (frames_of_device devices.now number)) }
{
    match devices.get(number) {
        Some(frames) => OnePool::new(alloc, *frames),
        None => OnePool::new(alloc, 0),
    }
}

fn is_moving(place: Place) -> bool
    ensures { result ≡ is_moving place }
{
    matches!(place, Place::Moving { .. })
}

fn piece_of_part(part: Option<u8>) -> Piece
    ensures { result ≡ piece_of_part part }
{
    match part {
        None => Piece::All,
        Some(part) => Piece::Part(part),
    }
}
