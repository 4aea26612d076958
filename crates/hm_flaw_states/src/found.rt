// A state as the actors of a driver with a flaw find it: each call reads one part.
ghost use Rattle.std.specs.Prelude.{◌≡◌, ◌+◌, ◌%◌, IfOk};
ghost use Rattle.hm_history.specs.Memory.Words.{bytes_from};
ghost use Rattle.hm_history.specs.Memory.Sequences.{interval_seq};
ghost use Rattle.hm_history.specs.Memory.Contents.{shown_by};
ghost use Rattle.hm_history.specs.Kernel.Going.{is_direct, sets_now, concerns};
ghost use Rattle.hm_flaws.specs.Drivers.{target_at};
ghost use Rattle.hm_flaws.specs.Overrides.{uninvalidated};
ghost use Rattle.hm_flaws.specs.Flawed.{shown_bytes, device_bytes};
ghost use Rattle.hm_flaw_states.specs.Owns.{driver_in};
ghost use Rattle.hm_flaw_states.specs.Found.{found_in};

use crate::details::Details;
use crate::held_locks::{lowest_other, writer};
use crate::owns::{Own, backing, shown_at};
use crate::steps::Finds;
use hm_actors::Concerns;
use hm_base::{
    Actor, Bytes, Cause, Dev, Frame, MirrorId, NoMemory, Op, Page, Place, PoolId, Proc, Rights,
    Script, Span,
};
use hm_flaws::Flaw;
use hm_folds::place_tests::right_allows;
use hm_history::TableRight;
use hm_history::phases::{Migrating, MoveStep, Phase};
use hm_race_states::here::is_exclusive_by;
use hm_reads::Reads;
use hm_reads::operations::{is_to_device, op_mirror, page_of};
use std::alloc::Global;

/// A state as actors find it: the one that the history gives, with what the driver has of its own in it.
#[derive(Drop)]
pub struct Found<'a, W> {
    pub world: &'a W,
    pub own: &'a Own,
    pub flaw: Flaw,
}

// What tells of a migration's pages whether a step is about them.
#[derive(Drop)]
struct Asking<'a, W> {
    found: &'a Found<'a, W>,
    op: &'a Op,
}

impl<'a, W: Details> Concerns for Asking<'a, W> {
    ghost concerns = { λ q step x. concerns (found_in q.found.now.flaw (W.program q.found.now.world.now)
        (W.state q.found.now.world.now) (driver_in q.found.now.own.now)).after q.op.now step x };

    fn concerns(&self, step: MoveStep, migrating: &Migrating) -> bool {
        match step {
            MoveStep::FreezeOthers => self.found.is_direct(&migrating.source),
            MoveStep::TakeAndCopy => true,
            MoveStep::Commit => migrating.dest.is_some(),
            MoveStep::SetOwnTable => {
                is_to_device(self.op) && migrating.moved && self.found.sets_now(op_mirror(self.op))
            }
            MoveStep::Finish => migrating.source.is_some() || migrating.moved,
        }
    }
}

// The same, if no interval counts as being invalidated.
#[derive(Drop)]
struct AskingAnyway<'a, W> {
    asking: &'a Asking<'a, W>,
}

impl<'a, W: Details> Concerns for AskingAnyway<'a, W> {
    ghost concerns = { λ q step x. let a = q.asking.now in let f = a.found.now in
        concerns (uninvalidated (found_in f.flaw (W.program f.world.now) (W.state f.world.now)
        (driver_in f.own.now)).after) a.op.now step x };

    fn concerns(&self, step: MoveStep, migrating: &Migrating) -> bool {
        match step {
            MoveStep::SetOwnTable => {
                is_to_device(self.asking.op)
                    && migrating.moved
                    && self.asking.found.is_attached(op_mirror(self.asking.op))
            }
            _ => self.asking.concerns(step, migrating),
        }
    }
}

impl<'a, W: Details> Found<'a, W> {
    // The sequence of the mirror's interval; 0 for a mirror without one.
    fn seq_of(&self, mirror: MirrorId) -> u64
        ensures { result ≡ interval_seq (found_in self.now.flaw (W.program self.now.world.now)
            (W.state self.now.world.now) (driver_in self.now.own.now)).after.sequences mirror }
    {
        match self.world.interval_proc(mirror) {
            Some(_) => self.own.seqs[mirror.number() as usize],
            None => 0,
        }
    }

    fn is_direct(&self, frame: &Option<Frame>) -> bool
        ensures { result ≡ is_direct (W.state self.now.world.now).after frame.now }
    {
        match frame {
            Some(frame) => self.world.lowest_direct(frame).is_some(),
            None => false,
        }
    }

    fn sets_now(&self, mirror: MirrorId) -> bool
        ensures { result ≡ sets_now (found_in self.now.flaw (W.program self.now.world.now)
            (W.state self.now.world.now) (driver_in self.now.own.now)).after mirror }
    {
        self.world.is_attached(mirror)
            && self.seq_of(mirror) != self.world.process_seq(self.world.mirror_proc(mirror))
    }

    // The byte that a process's page shows this far after an address. Past the last page it is 0.
    fn shown(&self, proc: Proc, addr: u64, number: u64) -> u8
        ensures { result
            ≡ shown_bytes (W.state self.now.world.now).after.places (driver_in self.now.own.now).contents proc
            (addr + number) }
    {
        match addr.checked_add(number) {
            Some(at) => {
                let frame = shown_at(self.world, proc, at);
                self.own.bytes.shown(&frame, at % 4096)
            }
            None => {
                self.world.none_past();
                0
            }
        }
    }

    // The byte that a device reads this far after an address. Past the last page it is 0.
    fn read(&self, mirror: MirrorId, addr: u64, number: u64) -> u8
        ensures { result
            ≡ shown_by (driver_in self.now.own.now).contents
            (target_at (driver_in self.now.own.now) mirror (addr + number)) ((addr + number) % 4096) }
    {
        match addr.checked_add(number) {
            Some(at) => {
                let frame = self.own.target(mirror, at);
                self.own.bytes.shown(&frame, at % 4096)
            }
            None => {
                self.own.table.facts();
                0
            }
        }
    }

    // The bytes that a process's pages show from an address on.
    fn shown_from(&self, alloc: Global, proc: Proc, addr: u64, len: u64) -> Result<Bytes, NoMemory>
        ensures { IfOk result (λ bytes. bytes
            ≡ bytes_from (shown_bytes (W.state self.now.world.now).after.places (driver_in self.now.own.now).contents
            proc) addr len) }
    {
        let mut all = Vec::with_capacity(alloc, len as usize)?;
        for number in 0..len {
            all.push(self.shown(proc, addr, number))?;
        }
        Bytes::from_slice(alloc, &all)
    }

    // The bytes that a device reads from an address on.
    fn read_from(
        &self,
        alloc: Global,
        mirror: MirrorId,
        addr: u64,
        len: u64,
    ) -> Result<Bytes, NoMemory>
        ensures { IfOk result (λ bytes. bytes ≡ device_bytes (driver_in self.now.own.now) mirror addr len) }
    {
        let mut all = Vec::with_capacity(alloc, len as usize)?;
        for number in 0..len {
            all.push(self.read(mirror, addr, number))?;
        }
        Bytes::from_slice(alloc, &all)
    }
}

impl<'a, W: Details> Reads for Found<'a, W> {
    ghost program = { λ f. W.program f.world.now };

    ghost state = { λ f. found_in f.flaw (W.program f.world.now) (W.state f.world.now) (driver_in f.own.now) };

    fn script(&self) -> &Script {
        self.world.script()
    }

    fn length(&self) -> u64 {
        self.world.length()
    }

    fn op(&self, actor: Actor) -> Option<&Op> {
        self.world.op(actor)
    }

    fn phase(&self, actor: Actor) -> Option<&Phase> {
        self.world.phase(actor)
    }

    fn moved_pages(&self, actor: Actor) -> u64 {
        self.world.moved_pages(actor)
    }

    fn coming(
        &self,
        actor: Actor,
        op: &Op,
        step: MoveStep,
        next: u64,
    ) -> Option<(MoveStep, Migrating)> {
        self.world
            .coming_by(actor, &Asking { found: self, op }, step, next)
    }

    fn there(&self, proc: Proc) -> bool {
        self.world.there(proc)
    }

    fn named(&self, proc: Proc) -> bool {
        self.world.named(proc)
    }

    fn rights(&self, proc: Proc, page: Page) -> Option<Rights> {
        self.world.rights(proc, page)
    }

    fn area_refusal(&self, op: &Op) -> Option<Cause> {
        self.world.area_refusal(op)
    }

    fn meets(&self, proc: Proc, span: Span) -> bool {
        self.world.meets(proc, span)
    }

    fn writer(&self, proc: Proc) -> Option<Actor> {
        writer(self.world, self.flaw, proc)
    }

    fn lowest_other(&self, proc: Proc, actor: Actor) -> Option<Actor> {
        lowest_other(self.world, self.flaw, proc, actor)
    }

    fn place(&self, proc: Proc, page: Page) -> Place {
        self.world.place(proc, page)
    }

    fn next_used(&self, proc: Proc, from: u64, end: u64) -> Option<Page> {
        self.world.next_used(proc, from, end)
    }

    fn next_writable(&self, proc: Proc, from: u64, end: u64) -> Option<Page> {
        self.world.next_writable(proc, from, end)
    }

    fn locker(&self, frame: &Frame) -> Option<Actor> {
        self.world.locker(frame)
    }

    fn other_locker(&self, frame: &Frame, actor: Actor) -> Option<Actor> {
        self.world.other_locker(frame, actor)
    }

    fn uses(&self, frame: &Frame) -> u64 {
        self.world.uses(frame)
    }

    fn lowest_direct(&self, frame: &Frame) -> Option<(Proc, Page)> {
        self.world.lowest_direct(frame)
    }

    fn lowest_moving(&self, frame: &Frame) -> Option<(Proc, Page)> {
        self.world.lowest_moving(frame)
    }

    fn lowest_named(&self, frame: &Frame) -> Option<(Proc, Page)> {
        self.world.lowest_named(frame)
    }

    fn lowest_free(&self, pool: PoolId) -> Option<Frame> {
        self.world.lowest_free(pool)
    }

    fn held_from(&self, dev: Dev, from: u64) -> Option<u32> {
        self.world.held_from(dev, from)
    }

    fn is_withdrawn(&self, dev: Dev) -> bool {
        self.world.is_withdrawn(dev)
    }

    fn is_removed(&self, dev: Dev) -> bool {
        self.world.is_removed(dev)
    }

    fn process_seq(&self, proc: Proc) -> u64 {
        self.world.process_seq(proc)
    }

    fn seq_started(&self, proc: Proc, span: Span) -> u64 {
        self.world.seq_started(proc, span)
    }

    fn seq_ended(&self, proc: Proc) -> u64 {
        self.world.seq_ended(proc)
    }

    fn interval_inserted(&self, proc: Proc) -> u64 {
        self.world.interval_inserted(proc)
    }

    fn interval_seq(&self, mirror: MirrorId) -> u64 {
        self.seq_of(mirror)
    }

    fn in_tree(&self, mirror: MirrorId) -> bool {
        self.world.in_tree(mirror)
    }

    fn insert_deferred(&self, mirror: MirrorId) -> bool {
        self.world.insert_deferred(mirror)
    }

    fn next_told(&self, proc: Proc, span: Span, after: Option<MirrorId>) -> Option<MirrorId> {
        self.world.next_told(proc, span, after)
    }

    fn has_mirror(&self, mirror: MirrorId) -> bool {
        self.world.has_mirror(mirror)
    }

    fn is_attached(&self, mirror: MirrorId) -> bool {
        self.world.is_attached(mirror)
    }

    fn in_window(&self, mirror: MirrorId, span: Span) -> bool {
        self.world.in_window(mirror, span)
    }

    fn mirror_proc(&self, mirror: MirrorId) -> Proc {
        self.world.mirror_proc(mirror)
    }

    fn mirror_dev(&self, mirror: MirrorId) -> Dev {
        self.world.mirror_dev(mirror)
    }

    fn is_usable(&self, mirror: MirrorId, page: Page, writes: bool) -> bool {
        match self.own.table.get(mirror, page) {
            Some(entry) => right_allows(entry.mapping.right, writes),
            None => false,
        }
    }

    fn has_exclusive(&self, actor: Actor, mirror: MirrorId, page: Page) -> bool {
        match self.own.table.get(mirror, page) {
            Some(entry) => {
                matches!(entry.mapping.right, TableRight::Sole)
                    && is_exclusive_by(&self.place(self.mirror_proc(mirror), page), actor)
            }
            None => false,
        }
    }

    fn cpu_bytes(&self, alloc: Global, proc: Proc, addr: u64, len: u64) -> Result<Bytes, NoMemory> {
        self.shown_from(alloc, proc, addr, len)
    }

    fn mirror_bytes(
        &self,
        alloc: Global,
        mirror: MirrorId,
        addr: u64,
        len: u64,
    ) -> Result<Bytes, NoMemory> {
        self.shown_from(alloc, self.mirror_proc(mirror), addr, len)
    }

    fn sole_byte(&self, _actor: Actor, mirror: MirrorId, addr: u64) -> u8 {
        self.own.table.facts();
        let place = self
            .world
            .place(self.world.mirror_proc(mirror), page_of(addr));
        self.own
            .bytes
            .shown(&backing(self.world, &place), addr % 4096)
    }
}

impl<'a, W: Details> Finds for Found<'a, W> {
    ghost driver = { λ f. driver_in f.own.now };

    fn can_be_raised(&self) {
        self.world.can_be_raised();
    }

    fn is_readable(&self, mirror: MirrorId, page: Page) -> bool {
        match self.own.table.get(mirror, page) {
            Some(entry) => right_allows(entry.mapping.right, false)
                && entry.mapping.target.is_some(),
            None => false,
        }
    }

    fn device_bytes(
        &self,
        alloc: Global,
        mirror: MirrorId,
        addr: u64,
        len: u64,
    ) -> Result<Bytes, NoMemory> {
        self.read_from(alloc, mirror, addr, len)
    }

    fn coming_anyway(
        &self,
        actor: Actor,
        op: &Op,
        step: MoveStep,
        next: u64,
    ) -> Option<(MoveStep, Migrating)> {
        let asking = Asking { found: self, op };
        self.world
            .coming_by(actor, &AskingAnyway { asking: &asking }, step, next)
    }

    fn process_bytes(
        &self,
        alloc: Global,
        proc: Proc,
        addr: u64,
        len: u64,
    ) -> Result<Bytes, NoMemory> {
        self.shown_from(alloc, proc, addr, len)
    }
}
