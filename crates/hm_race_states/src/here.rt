// What steps ask of a state of a race: each call reads one part.
ghost use Rattle.std.specs.Prelude.{◌≡◌, ◌==◌, ◌+◌, ◌<◌, ◌≤◌, ◌&&◌, ℕ, true, None, Some, length, map};
ghost use Rattle.std.specs.Prelude.{slice_get, option_copied, IfOk};
ghost use Rattle.std.specs.Rc.{rc_value};
ghost use Rattle.hm_history.specs.Memory.Places.{is_exclusive_by};
ghost use Rattle.hm_history.specs.Memory.Words.{bytes_from};
ghost use Rattle.hm_history.specs.Kernel.Going.{is_direct, sets_now, concerns};
ghost use Rattle.hm_laws.specs.Allowed.{InPage};
ghost use Rattle.hm_race_states.specs.Bytes.{bytes_in};
ghost use Rattle.hm_race_states.specs.Tasks.{going_in};
ghost use Rattle.hm_race_states.specs.States.{state_in};

use crate::memory::RaceBytes;
use crate::state::RaceState;
use crate::tasks::RaceTask;
use hm_actors::{Concerns, op_at};
use hm_base::{
    Actor, Bytes, Cause, Dev, Frame, MirrorId, NoMemory, Op, Page, Place, PoolId, Proc, Rights,
    Script, Span,
};
use hm_folds::place_tests::right_allows;
use hm_history::TableRight;
use hm_history::phases::{Migrating, MoveStep, Phase};
use hm_reads::Reads;
use hm_reads::operations::{is_to_device, op_mirror};
use hm_spaces::map_locks;
use std::alloc::Global;

/// A state of a script's race, to which steps put their questions.
#[derive(Drop)]
pub struct Here<'a> {
    pub script: &'a Script,
    pub state: &'a RaceState,
}

// What tells of a migration's pages whether a step is about them.
#[derive(Drop)]
struct Asking<'a> {
    here: &'a Here<'a>,
    op: &'a Op,
}

impl<'a> Concerns for Asking<'a> {
    ghost concerns = { λ q step x. concerns (state_in q.here.now.state.now).after q.op.now step x };

    fn concerns(&self, step: MoveStep, migrating: &Migrating) -> bool {
        match step {
            MoveStep::FreezeOthers => self.here.is_direct(&migrating.source),
            MoveStep::TakeAndCopy => true,
            MoveStep::Commit => migrating.dest.is_some(),
            MoveStep::SetOwnTable => {
                is_to_device(self.op) && migrating.moved && self.here.sets_now(op_mirror(self.op))
            }
            MoveStep::Finish => migrating.source.is_some() || migrating.moved,
        }
    }
}

/// The bytes of a process from an address on, in one page.
pub fn bytes_of(
    alloc: Global,
    bytes: &RaceBytes,
    proc: Proc,
    addr: u64,
    len: u64,
) -> Result<Bytes, NoMemory>
    requires { InPage addr len }
    ensures { IfOk result (λ x. x ≡ bytes_from (bytes_in bytes.now proc) addr len) }
{
    let mut all = Vec::with_capacity(alloc, len as usize)?;
    for number in 0..len {
        all.push(bytes.byte(proc, addr + number))?;
    }
    Bytes::from_slice(alloc, &all)
}

/// Whether an actor has the page of this place alone.
pub fn is_exclusive_by(place: &Place, actor: Actor) -> bool
    ensures { result ≡ is_exclusive_by place.now actor }
{
    match place {
        Place::Exclusive {
            number: _,
            actor: by,
        } => actor == *by,
        _ => false,
    }
}

impl<'a> Here<'a> {
    fn task(&self, actor: Actor) -> Option<&RaceTask>
        ensures { option_copied result ≡ slice_get (map rc_value self.now.state.now.tasks.items) actor }
    {
        match self.state.tasks.get(actor.number() as usize) {
            Some(task) => Some(&**task),
            None => None,
        }
    }

    fn is_direct(&self, frame: &Option<Frame>) -> bool
        ensures { result ≡ is_direct (state_in self.now.state.now).after frame.now }
    {
        match frame {
            Some(frame) => self.state.places.lowest_direct(frame).is_some(),
            None => false,
        }
    }

    fn sets_now(&self, mirror: MirrorId) -> bool
        ensures { result ≡ sets_now (state_in self.now.state.now).after mirror }
    {
        self.state.mirrors.is_attached(mirror)
            && self.state.seqs.interval_seq(mirror)
                != self
                    .state
                    .seqs
                    .process_seq(self.state.mirrors.mirror_proc(mirror))
    }
}

impl<'a> Reads for Here<'a> {
    ghost program = { λ h. h.script.now };

    ghost state = { λ h. state_in h.state.now };

    fn script(&self) -> &Script {
        self.script
    }

    fn length(&self) -> u64 {
        0
    }

    fn op(&self, actor: Actor) -> Option<&Op> {
        match self.task(actor) {
            Some(task) => task.op(self.script, actor),
            None => op_at(self.script, actor, 0),
        }
    }

    fn phase(&self, actor: Actor) -> Option<&Phase> {
        match self.task(actor) {
            Some(task) => task.top(),
            None => None,
        }
    }

    fn moved_pages(&self, actor: Actor) -> u64 {
        match self.task(actor) {
            Some(task) => task.moved_pages(),
            None => 0,
        }
    }

    fn coming(
        &self,
        actor: Actor,
        op: &Op,
        step: MoveStep,
        next: u64,
    ) -> Option<(MoveStep, Migrating)> {
        match self.task(actor) {
            Some(task) => task.records.come_to(&Asking { here: self, op }, step, next),
            None => None,
        }
    }

    fn there(&self, proc: Proc) -> bool {
        self.state.spaces.there(proc)
    }

    fn named(&self, proc: Proc) -> bool {
        self.state.spaces.named(proc)
    }

    fn rights(&self, proc: Proc, page: Page) -> Option<Rights> {
        self.state.spaces.rights(proc, page)
    }

    fn area_refusal(&self, op: &Op) -> Option<Cause> {
        self.state.spaces.area_refusal(op)
    }

    fn meets(&self, proc: Proc, span: Span) -> bool {
        self.state.spaces.meets(proc, span)
    }

    fn writer(&self, proc: Proc) -> Option<Actor> {
        map_locks::writer(&self.state.maps.locks, proc)
    }

    fn lowest_other(&self, proc: Proc, actor: Actor) -> Option<Actor> {
        map_locks::lowest_other(&self.state.maps.locks, proc, actor)
    }

    fn place(&self, proc: Proc, page: Page) -> Place {
        self.state.places.get(proc, page)
    }

    fn next_used(&self, proc: Proc, from: u64, end: u64) -> Option<Page> {
        self.state.places.next_used(proc, from, end)
    }

    fn next_writable(&self, proc: Proc, from: u64, end: u64) -> Option<Page> {
        self.state.places.next_writable(proc, from, end)
    }

    fn locker(&self, frame: &Frame) -> Option<Actor> {
        self.state.locks.locker(frame)
    }

    fn other_locker(&self, frame: &Frame, actor: Actor) -> Option<Actor> {
        self.state.locks.other_locker(frame, actor)
    }

    fn uses(&self, frame: &Frame) -> u64 {
        self.state.places.uses(frame)
    }

    fn lowest_direct(&self, frame: &Frame) -> Option<(Proc, Page)> {
        self.state.places.lowest_direct(frame)
    }

    fn lowest_moving(&self, frame: &Frame) -> Option<(Proc, Page)> {
        self.state.places.lowest_moving(frame)
    }

    fn lowest_named(&self, frame: &Frame) -> Option<(Proc, Page)> {
        self.state.places.lowest_named(frame)
    }

    fn lowest_free(&self, pool: PoolId) -> Option<Frame> {
        self.state
            .held
            .lowest_free(self.script, &self.state.marks, pool)
    }

    fn held_from(&self, dev: Dev, from: u64) -> Option<u32> {
        self.state.held.held_from(self.script, dev, from)
    }

    fn is_withdrawn(&self, dev: Dev) -> bool {
        self.state.marks.withdrawn[dev.number() as usize]
    }

    fn is_removed(&self, dev: Dev) -> bool {
        self.state.marks.removed[dev.number() as usize]
    }

    fn process_seq(&self, proc: Proc) -> u64 {
        self.state.seqs.process_seq(proc)
    }

    fn seq_started(&self, proc: Proc, span: Span) -> u64 {
        self.state.seqs.seq_started(proc, span)
    }

    fn seq_ended(&self, proc: Proc) -> u64 {
        self.state.seqs.seq_ended(proc)
    }

    fn interval_inserted(&self, proc: Proc) -> u64 {
        self.state.seqs.interval_inserted(proc)
    }

    fn interval_seq(&self, mirror: MirrorId) -> u64 {
        self.state.seqs.interval_seq(mirror)
    }

    fn in_tree(&self, mirror: MirrorId) -> bool {
        self.state.seqs.in_tree(mirror)
    }

    fn insert_deferred(&self, mirror: MirrorId) -> bool {
        self.state.seqs.insert_deferred(mirror)
    }

    fn next_told(&self, proc: Proc, span: Span, after: Option<MirrorId>) -> Option<MirrorId> {
        self.state.seqs.next_told(proc, span, after)
    }

    fn has_mirror(&self, mirror: MirrorId) -> bool {
        self.state.mirrors.has_mirror(mirror)
    }

    fn is_attached(&self, mirror: MirrorId) -> bool {
        self.state.mirrors.is_attached(mirror)
    }

    fn in_window(&self, mirror: MirrorId, span: Span) -> bool {
        self.state.mirrors.in_window(mirror, span)
    }

    fn mirror_proc(&self, mirror: MirrorId) -> Proc {
        self.state.mirrors.mirror_proc(mirror)
    }

    fn mirror_dev(&self, mirror: MirrorId) -> Dev {
        self.state.mirrors.mirror_dev(mirror)
    }

    fn is_usable(&self, mirror: MirrorId, page: Page, writes: bool) -> bool {
        match self.state.tables.get(mirror, page) {
            Some(mapping) => right_allows(mapping.right, writes),
            None => false,
        }
    }

    fn has_exclusive(&self, actor: Actor, mirror: MirrorId, page: Page) -> bool {
        match self.state.tables.get(mirror, page) {
            Some(mapping) => {
                matches!(mapping.right, TableRight::Sole)
                    && is_exclusive_by(&self.place(self.mirror_proc(mirror), page), actor)
            }
            None => false,
        }
    }

    fn cpu_bytes(&self, alloc: Global, proc: Proc, addr: u64, len: u64) -> Result<Bytes, NoMemory> {
        bytes_of(alloc, &self.state.bytes, proc, addr, len)
    }

    fn mirror_bytes(
        &self,
        alloc: Global,
        mirror: MirrorId,
        addr: u64,
        len: u64,
    ) -> Result<Bytes, NoMemory> {
        bytes_of(
            alloc,
            &self.state.bytes,
            self.mirror_proc(mirror),
            addr,
            len,
        )
    }

    fn sole_byte(&self, _actor: Actor, mirror: MirrorId, addr: u64) -> u8 {
        self.state.bytes.byte(self.mirror_proc(mirror), addr)
    }
}
