// What steps ask of a world: each call reads one structure.
ghost use Rattle.std.specs.Prelude.{◌≡◌};
ghost use Rattle.hm_history.specs.Memory.Places.{next_page};
ghost use Rattle.hm_reads.specs.Cursors.{page_before};
ghost use Rattle.hm_tables.specs.Reads.{page_test};
ghost use Rattle.hm_world.specs.WorldValue.{now};

use crate::World;
use crate::contents::is_exclusive_by;
use hm_base::{
    Actor, Bytes, Cause, Dev, Frame, MirrorId, NoMemory, Op, Page, Place, PoolId, Proc, Rights,
    Script, Span,
};
use hm_history::phases::{Migrating, MoveStep, Phase};
use hm_reads::Reads;
use hm_reads::operations::page_of;
use hm_tables::PageTest;
use std::alloc::Global;

impl World {
    // Cursors may have passed the last page.
    fn next_page(&self, proc: Proc, from: u64, end: u64, test: PageTest) -> Option<Page>
        ensures { result ≡ page_before end (next_page (now self.now).after.places (page_test test) proc from) }
    {
        if from < 1 << 36 {
            self.tables.next_page(proc, Page::new(from), end, test)
        } else {
            None
        }
    }
}

impl Reads for World {
    ghost program = { λ t. t.script };

    ghost state = { now };

    fn script(&self) -> &Script {
        &self.script
    }

    fn length(&self) -> u64 {
        self.history.len()
    }

    fn op(&self, actor: Actor) -> Option<&Op> {
        self.actors.op(&self.script, actor)
    }

    fn phase(&self, actor: Actor) -> Option<&Phase> {
        self.actors.top(actor)
    }

    fn moved_pages(&self, actor: Actor) -> u64 {
        self.actors.moved_pages(actor)
    }

    #[inline(always)]
    fn coming(
        &self,
        actor: Actor,
        op: &Op,
        step: MoveStep,
        next: u64,
    ) -> Option<(MoveStep, Migrating)> {
        self.come_to(actor, op, step, next)
    }

    fn there(&self, proc: Proc) -> bool {
        self.spaces.there(proc)
    }

    fn named(&self, proc: Proc) -> bool {
        self.spaces.named(proc)
    }

    fn rights(&self, proc: Proc, page: Page) -> Option<Rights> {
        self.spaces.rights(proc, page)
    }

    fn area_refusal(&self, op: &Op) -> Option<Cause> {
        self.spaces.area_refusal(op)
    }

    fn meets(&self, proc: Proc, span: Span) -> bool {
        self.spaces.meets(proc, span)
    }

    fn writer(&self, proc: Proc) -> Option<Actor> {
        self.spaces.writer(proc)
    }

    fn lowest_other(&self, proc: Proc, actor: Actor) -> Option<Actor> {
        self.spaces.lowest_other(proc, actor)
    }

    fn place(&self, proc: Proc, page: Page) -> Place {
        self.tables.place(proc, page)
    }

    fn next_used(&self, proc: Proc, from: u64, end: u64) -> Option<Page> {
        self.next_page(proc, from, end, PageTest::Used)
    }

    fn next_writable(&self, proc: Proc, from: u64, end: u64) -> Option<Page> {
        self.next_page(proc, from, end, PageTest::Writable)
    }

    fn locker(&self, frame: &Frame) -> Option<Actor> {
        self.frames.locker(frame)
    }

    fn other_locker(&self, frame: &Frame, actor: Actor) -> Option<Actor> {
        self.frames.other_locker(frame, actor)
    }

    fn uses(&self, frame: &Frame) -> u64 {
        self.tables.uses(frame)
    }

    fn lowest_direct(&self, frame: &Frame) -> Option<(Proc, Page)> {
        self.tables.lowest_direct(frame)
    }

    fn lowest_moving(&self, frame: &Frame) -> Option<(Proc, Page)> {
        self.tables.lowest_moving(frame)
    }

    fn lowest_named(&self, frame: &Frame) -> Option<(Proc, Page)> {
        self.tables.lowest_named(frame)
    }

    fn lowest_free(&self, pool: PoolId) -> Option<Frame> {
        self.frames.lowest_free(&pool)
    }

    fn held_from(&self, dev: Dev, from: u64) -> Option<u32> {
        self.frames.held_from(dev, from)
    }

    fn is_withdrawn(&self, dev: Dev) -> bool {
        self.frames.is_withdrawn(dev)
    }

    fn is_removed(&self, dev: Dev) -> bool {
        self.frames.is_removed(dev)
    }

    fn process_seq(&self, proc: Proc) -> u64 {
        self.notifiers.seq(proc)
    }

    fn seq_started(&self, proc: Proc, span: Span) -> u64 {
        self.notifiers.seq_started(proc, span)
    }

    fn seq_ended(&self, proc: Proc) -> u64 {
        self.notifiers.seq_ended(proc)
    }

    fn interval_inserted(&self, proc: Proc) -> u64 {
        self.notifiers.interval_inserted(proc)
    }

    fn interval_seq(&self, mirror: MirrorId) -> u64 {
        self.notifiers.interval_seq(mirror)
    }

    fn in_tree(&self, mirror: MirrorId) -> bool {
        self.notifiers.in_tree(mirror)
    }

    fn insert_deferred(&self, mirror: MirrorId) -> bool {
        self.notifiers.insert_deferred(mirror)
    }

    fn next_told(&self, proc: Proc, span: Span, after: Option<MirrorId>) -> Option<MirrorId> {
        self.notifiers.next_told(proc, span, after)
    }

    fn has_mirror(&self, mirror: MirrorId) -> bool {
        self.mirrors.has_mirror(mirror)
    }

    fn is_attached(&self, mirror: MirrorId) -> bool {
        self.mirrors.is_attached(mirror)
    }

    fn in_window(&self, mirror: MirrorId, span: Span) -> bool {
        self.mirrors.in_window(mirror, span)
    }

    fn mirror_proc(&self, mirror: MirrorId) -> Proc {
        self.mirrors.mirror_proc(mirror)
    }

    fn mirror_dev(&self, mirror: MirrorId) -> Dev {
        self.mirrors.mirror_dev(mirror)
    }

    fn is_usable(&self, mirror: MirrorId, page: Page, writes: bool) -> bool {
        self.mirrors.is_usable(mirror, page, writes)
    }

    fn has_exclusive(&self, actor: Actor, mirror: MirrorId, page: Page) -> bool {
        self.mirrors.is_sole(mirror, page)
            && is_exclusive_by(&self.place(self.mirrors.mirror_proc(mirror), page), actor)
    }

    fn cpu_bytes(&self, alloc: Global, proc: Proc, addr: u64, len: u64) -> Result<Bytes, NoMemory> {
        // hands the prover the world's invariant
        let _ = &self.history;
        self.place_bytes(alloc, &self.place(proc, page_of(addr)), addr, len)
    }

    fn mirror_bytes(
        &self,
        alloc: Global,
        mirror: MirrorId,
        addr: u64,
        len: u64,
    ) -> Result<Bytes, NoMemory> {
        // hands the prover the world's invariant
        let _ = &self.history;
        self.place_bytes(alloc, &self.mirrored(mirror, page_of(addr)), addr, len)
    }

    fn sole_byte(&self, actor: Actor, mirror: MirrorId, addr: u64) -> u8 {
        // hands the prover the world's invariant
        let _ = &self.history;
        self.place_byte(&self.mirrored(mirror, page_of(addr)), addr)
    }
}
