// A state as actors find it with variants: each call reads one part.
ghost use Rattle.std.specs.Prelude.{◌≡◌, ◌==◌, ◌&&◌, IfOk, is_some};
ghost use Rattle.hm_history.specs.Memory.Words.{least};
ghost use Rattle.hm_history.specs.Memory.Locks.{lock_passes};
ghost use Rattle.hm_linux.specs.Noted.{varied_from};
ghost use Rattle.hm_linux.specs.UnmapLetsIn.{for_reading, map_left, gone_by};
ghost use Rattle.hm_linux.specs.Instead.{locks_found};
ghost use Rattle.hm_linux.specs.Variants.{state_found};
ghost use Rattle.hm_linux_steps.specs.Found.{shown};

use crate::area_lists::AreaLists;
use crate::areas::{area_refusal, lists_left, meets, rights_at};
use crate::first::{Passes, first_actor};
use crate::gone::{Takes, gone_by};
use crate::shows::Shows;
use hm_base::{
    Actor, Area, Bytes, Cause, Dev, Frame, MirrorId, NoMemory, Op, Page, Place, PoolId, Proc,
    Rights, Script, Span,
};
use hm_history::locks::MapLock;
use hm_history::phases::{Migrating, MoveStep, Phase};
use hm_linux::Variant;
use hm_reads::Reads;
use hm_reads::operations::proc_of_op;
use std::alloc::Global;

/// A state as actors find it: without the areas that unmaps under way have taken away, whose locks are for reading.
#[derive(Drop)]
pub struct Found<'a, W> {
    world: &'a W,
    variant: Variant,
    left: Option<AreaLists>,
}

// Who has a process's mmap lock for writing, as actors find it.
#[derive(Drop)]
struct Writes<'a, W> {
    found: &'a Found<'a, W>,
    proc: Proc,
}

impl<'a, W: Shows> Passes for Writes<'a, W> {
    ghost passes = { λ q a. lock_passes (λ x. (x.proc == q.proc) && x.writes)
        ((locks_found q.found.now.variant (W.program q.found.now.world.now) (W.state q.found.now.world.now)).map a) };

    fn passes(&self, actor: Actor) -> bool {
        match self.found.map_lock(actor) {
            None => false,
            Some(lock) => lock.proc == self.proc && lock.writes,
        }
    }
}

fn for_reading(reads: bool, lock: Option<MapLock>) -> Option<MapLock>
    ensures { result ≡ for_reading reads lock }
{
    match lock {
        None => None,
        Some(lock) => Some(MapLock {
            proc: lock.proc,
            writes: lock.writes && !reads,
        }),
    }
}

// The mmap lock that the actor has, if an unmap under way has one for reading.
fn map_left<W: Shows>(world: &W, actor: Actor) -> Option<MapLock>
    ensures { result ≡ map_left (W.program world.now) (W.state world.now) actor }
{
    for_reading(gone_by(world, actor).is_some(), world.map_lock(actor))
}

// Whether an actor has taken areas away that the state has still.
fn is_less<W: Shows>(world: &W, variant: Variant) -> bool
    ensures { result
        ≡ (variant.unmap_lets_in && is_some (least (λ a. is_some (gone_by (W.program world.now) (W.state world.now) a))
        0 16)) }
{
    variant.unmap_lets_in && first_actor(&Takes { world }).is_some()
}

fn left_of<W: Shows>(
    world: &W,
    alloc: Global,
    variant: Variant,
) -> Result<Option<AreaLists>, NoMemory>
    ensures { IfOk result
        (λ x. shown variant (W.program world.now) x (W.state world.now)
        ≡ state_found variant (W.program world.now) (varied_from (W.state world.now))) }
{
    if is_less(world, variant) {
        Ok(Some(lists_left(world, alloc)?))
    } else {
        Ok(None)
    }
}

impl<'a, W: Shows> Found<'a, W> {
    /// The state as actors find it.
    pub(crate) fn new(
        alloc: Global,
        world: &'a W,
        variant: Variant,
    ) -> Result<Found<'a, W>, NoMemory>
        ensures world { IfOk result (λ f. f.world.now ≡ world.now) }
        ensures found { IfOk result
            (λ f. shown f.variant (W.program f.world.now) f.left (W.state f.world.now)
            ≡ state_found variant (W.program world.now) (varied_from (W.state world.now))) }
    {
        let left = left_of(world, alloc, variant)?;
        Ok(Found {
            world,
            variant,
            left,
        })
    }
}

impl<'a, W: Shows> Reads for Found<'a, W> {
    ghost program = { λ f. W.program f.world.now };

    ghost state = { λ f. shown f.variant (W.program f.world.now) f.left (W.state f.world.now) };

    fn script(&self) -> &Script {
        self.world.script()
    }

    fn length(&self) -> u64 {
        self.world.length()
    }

    fn op(&self, actor: Actor) -> Option<&Op> {
        self.world.op(actor)
    }

    fn phase(&self, actor: Actor) -> Option<&Phase> {
        self.world.phase(actor)
    }

    fn moved_pages(&self, actor: Actor) -> u64 {
        self.world.moved_pages(actor)
    }

    fn coming(
        &self,
        actor: Actor,
        op: &Op,
        step: MoveStep,
        next: u64,
    ) -> Option<(MoveStep, Migrating)> {
        self.world.coming(actor, op, step, next)
    }

    fn there(&self, proc: Proc) -> bool {
        self.world.there(proc)
    }

    fn named(&self, proc: Proc) -> bool {
        self.world.named(proc)
    }

    fn rights(&self, proc: Proc, page: Page) -> Option<Rights> {
        rights_at(self.areas(proc), page)
    }

    fn area_refusal(&self, op: &Op) -> Option<Cause> {
        area_refusal(self.areas(proc_of_op(op)), op)
    }

    fn meets(&self, proc: Proc, span: Span) -> bool {
        meets(self.areas(proc), &span)
    }

    fn writer(&self, proc: Proc) -> Option<Actor> {
        first_actor(&Writes { found: self, proc })
    }

    fn lowest_other(&self, proc: Proc, actor: Actor) -> Option<Actor> {
        self.world.lowest_other(proc, actor)
    }

    fn place(&self, proc: Proc, page: Page) -> Place {
        self.world.place(proc, page)
    }

    fn next_used(&self, proc: Proc, from: u64, end: u64) -> Option<Page> {
        self.world.next_used(proc, from, end)
    }

    fn next_writable(&self, proc: Proc, from: u64, end: u64) -> Option<Page> {
        self.world.next_writable(proc, from, end)
    }

    fn locker(&self, frame: &Frame) -> Option<Actor> {
        self.world.locker(frame)
    }

    fn other_locker(&self, frame: &Frame, actor: Actor) -> Option<Actor> {
        self.world.other_locker(frame, actor)
    }

    fn uses(&self, frame: &Frame) -> u64 {
        self.world.uses(frame)
    }

    fn lowest_direct(&self, frame: &Frame) -> Option<(Proc, Page)> {
        self.world.lowest_direct(frame)
    }

    fn lowest_moving(&self, frame: &Frame) -> Option<(Proc, Page)> {
        self.world.lowest_moving(frame)
    }

    fn lowest_named(&self, frame: &Frame) -> Option<(Proc, Page)> {
        self.world.lowest_named(frame)
    }

    fn lowest_free(&self, pool: PoolId) -> Option<Frame> {
        self.world.lowest_free(pool)
    }

    fn held_from(&self, dev: Dev, from: u64) -> Option<u32> {
        self.world.held_from(dev, from)
    }

    fn is_withdrawn(&self, dev: Dev) -> bool {
        self.world.is_withdrawn(dev)
    }

    fn is_removed(&self, dev: Dev) -> bool {
        self.world.is_removed(dev)
    }

    fn process_seq(&self, proc: Proc) -> u64 {
        self.world.process_seq(proc)
    }

    fn seq_started(&self, proc: Proc, span: Span) -> u64 {
        self.world.seq_started(proc, span)
    }

    fn seq_ended(&self, proc: Proc) -> u64 {
        self.world.seq_ended(proc)
    }

    fn interval_inserted(&self, proc: Proc) -> u64 {
        self.world.interval_inserted(proc)
    }

    fn interval_seq(&self, mirror: MirrorId) -> u64 {
        self.world.interval_seq(mirror)
    }

    fn in_tree(&self, mirror: MirrorId) -> bool {
        self.world.in_tree(mirror)
    }

    fn insert_deferred(&self, mirror: MirrorId) -> bool {
        self.world.insert_deferred(mirror)
    }

    fn next_told(&self, proc: Proc, span: Span, after: Option<MirrorId>) -> Option<MirrorId> {
        self.world.next_told(proc, span, after)
    }

    fn has_mirror(&self, mirror: MirrorId) -> bool {
        self.world.has_mirror(mirror)
    }

    fn is_attached(&self, mirror: MirrorId) -> bool {
        self.world.is_attached(mirror)
    }

    fn in_window(&self, mirror: MirrorId, span: Span) -> bool {
        self.world.in_window(mirror, span)
    }

    fn mirror_proc(&self, mirror: MirrorId) -> Proc {
        self.world.mirror_proc(mirror)
    }

    fn mirror_dev(&self, mirror: MirrorId) -> Dev {
        self.world.mirror_dev(mirror)
    }

    fn is_usable(&self, mirror: MirrorId, page: Page, writes: bool) -> bool {
        self.world.is_usable(mirror, page, writes)
    }

    fn has_exclusive(&self, actor: Actor, mirror: MirrorId, page: Page) -> bool {
        self.world.has_exclusive(actor, mirror, page)
    }

    fn cpu_bytes(&self, alloc: Global, proc: Proc, addr: u64, len: u64) -> Result<Bytes, NoMemory> {
        self.world.cpu_bytes(alloc, proc, addr, len)
    }

    fn mirror_bytes(
        &self,
        alloc: Global,
        mirror: MirrorId,
        addr: u64,
        len: u64,
    ) -> Result<Bytes, NoMemory> {
        self.world.mirror_bytes(alloc, mirror, addr, len)
    }

    fn sole_byte(&self, actor: Actor, mirror: MirrorId, addr: u64) -> u8 {
        self.world.sole_byte(actor, mirror, addr)
    }
}

impl<'a, W: Shows> Shows for Found<'a, W> {
    fn areas(&self, proc: Proc) -> &[Area] {
        match &self.left {
            None => self.world.areas(proc),
            Some(lists) => {
                proc.facts();
                lists.of(proc)
            }
        }
    }

    fn map_lock(&self, actor: Actor) -> Option<MapLock> {
        if self.variant.unmap_lets_in {
            map_left(self.world, actor)
        } else {
            self.world.map_lock(actor)
        }
    }

    fn is_in_guard(&self, actor: Actor, proc: Proc) -> bool {
        self.world.is_in_guard(actor, proc)
    }

    fn is_active(&self, proc: Proc) -> bool {
        self.world.is_active(proc)
    }
}
