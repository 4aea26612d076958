// What steps, and a driver with a flaw, ask of a state: each call reads one part.
ghost use Rattle.std.specs.Prelude.{◌≡◌, map, slice_get, option_copied};
ghost use Rattle.std.specs.Rc.{rc_value};
ghost use Rattle.hm_history.specs.Kernel.Going.{is_direct, sets_now, concerns};
ghost use Rattle.hm_flaw_states.specs.States.{state_in};
ghost use Rattle.hm_flaw_states.specs.Windows.{first_in};

use crate::details::Details;
use crate::placing;
use crate::state::FlawState;
use hm_actors::{Concerns, op_at};
use hm_base::{
    Actor, Bytes, Cause, Dev, Frame, MirrorId, NoMemory, Op, Page, Place, PoolId, Proc, Rights,
    Script, Span,
};
use hm_folds::place_tests::right_allows;
use hm_history::TableRight;
use hm_history::locks::MapLock;
use hm_history::phases::{Migrating, MoveStep, Phase};
use hm_race_states::here::{bytes_of, is_exclusive_by};
use hm_race_states::tasks::RaceTask;
use hm_reads::Reads;
use hm_reads::operations::{is_to_device, op_mirror};
use hm_spaces::map_locks;
use std::alloc::Global;

/// A state of a script, to which steps put their questions.
#[derive(Drop)]
pub struct FlawHere<'a> {
    pub script: &'a Script,
    pub state: &'a FlawState,
}

// What tells of a migration's pages whether a step is about them.
#[derive(Drop)]
struct Asking<'a> {
    here: &'a FlawHere<'a>,
    op: &'a Op,
}

impl<'a> Concerns for Asking<'a> {
    ghost concerns = { λ q step x. concerns (state_in q.here.now.state.now).after q.op.now step x };

    fn concerns(&self, step: MoveStep, migrating: &Migrating) -> bool {
        match step {
            MoveStep::FreezeOthers => self.here.is_direct(&migrating.source),
            MoveStep::TakeAndCopy => true,
            MoveStep::Commit => migrating.dest.is_some(),
            MoveStep::SetOwnTable => {
                is_to_device(self.op) && migrating.moved && self.here.sets_now(op_mirror(self.op))
            }
            MoveStep::Finish => migrating.source.is_some() || migrating.moved,
        }
    }
}

impl<'a> FlawHere<'a> {
    fn task(&self, actor: Actor) -> Option<&RaceTask>
        ensures { option_copied result ≡ slice_get (map rc_value self.now.state.now.tasks.items) actor }
    {
        match self.state.tasks.get(actor.number() as usize) {
            Some(task) => Some(&**task),
            None => None,
        }
    }

    fn is_direct(&self, frame: &Option<Frame>) -> bool
        ensures { result ≡ is_direct (state_in self.now.state.now).after frame.now }
    {
        match frame {
            Some(frame) => self.lowest_direct(frame).is_some(),
            None => false,
        }
    }

    fn sets_now(&self, mirror: MirrorId) -> bool
        ensures { result ≡ sets_now (state_in self.now.state.now).after mirror }
    {
        self.is_attached(mirror)
            && self.interval_seq(mirror) != self.process_seq(self.mirror_proc(mirror))
    }
}

impl<'a> Reads for FlawHere<'a> {
    ghost program = { λ h. h.script.now };

    ghost state = { λ h. state_in h.state.now };

    fn script(&self) -> &Script {
        self.script
    }

    fn length(&self) -> u64 {
        self.state.entries
    }

    fn op(&self, actor: Actor) -> Option<&Op> {
        match self.task(actor) {
            Some(task) => task.op(self.script, actor),
            None => op_at(self.script, actor, 0),
        }
    }

    fn phase(&self, actor: Actor) -> Option<&Phase> {
        match self.task(actor) {
            Some(task) => task.top(),
            None => None,
        }
    }

    fn moved_pages(&self, actor: Actor) -> u64 {
        match self.task(actor) {
            Some(task) => task.moved_pages(),
            None => 0,
        }
    }

    fn coming(
        &self,
        actor: Actor,
        op: &Op,
        step: MoveStep,
        next: u64,
    ) -> Option<(MoveStep, Migrating)> {
        self.coming_by(actor, &Asking { here: self, op }, step, next)
    }

    fn there(&self, proc: Proc) -> bool {
        self.state.spaces.there(proc)
    }

    fn named(&self, proc: Proc) -> bool {
        self.state.spaces.named(proc)
    }

    fn rights(&self, proc: Proc, page: Page) -> Option<Rights> {
        self.state.spaces.rights(proc, page)
    }

    fn area_refusal(&self, op: &Op) -> Option<Cause> {
        self.state.spaces.area_refusal(op)
    }

    fn meets(&self, proc: Proc, span: Span) -> bool {
        self.state.spaces.meets(proc, span)
    }

    fn writer(&self, proc: Proc) -> Option<Actor> {
        map_locks::writer(&self.state.maps.locks, proc)
    }

    fn lowest_other(&self, proc: Proc, actor: Actor) -> Option<Actor> {
        map_locks::lowest_other(&self.state.maps.locks, proc, actor)
    }

    fn place(&self, proc: Proc, page: Page) -> Place {
        self.state.places.get(proc, page)
    }

    fn next_used(&self, proc: Proc, from: u64, end: u64) -> Option<Page> {
        placing::next_used(&self.state.places, &self.state.placed, proc, from, end)
    }

    fn next_writable(&self, proc: Proc, from: u64, end: u64) -> Option<Page> {
        placing::next_writable(&self.state.places, &self.state.placed, proc, from, end)
    }

    fn locker(&self, frame: &Frame) -> Option<Actor> {
        self.state.locks.locker(frame)
    }

    fn other_locker(&self, frame: &Frame, actor: Actor) -> Option<Actor> {
        self.state.locks.other_locker(frame, actor)
    }

    fn uses(&self, frame: &Frame) -> u64 {
        placing::uses(&self.state.places, &self.state.placed, frame)
    }

    fn lowest_direct(&self, frame: &Frame) -> Option<(Proc, Page)> {
        placing::lowest_direct(&self.state.places, &self.state.placed, frame)
    }

    fn lowest_moving(&self, frame: &Frame) -> Option<(Proc, Page)> {
        placing::lowest_moving(&self.state.places, &self.state.placed, frame)
    }

    fn lowest_named(&self, frame: &Frame) -> Option<(Proc, Page)> {
        placing::lowest_named(&self.state.places, &self.state.placed, frame)
    }

    fn lowest_free(&self, pool: PoolId) -> Option<Frame> {
        self.state
            .held
            .lowest_free(self.script, &self.state.marks, pool)
    }

    fn held_from(&self, dev: Dev, from: u64) -> Option<u32> {
        self.state.held.held_from(self.script, dev, from)
    }

    fn is_withdrawn(&self, dev: Dev) -> bool {
        self.state.marks.withdrawn[dev.number() as usize]
    }

    fn is_removed(&self, dev: Dev) -> bool {
        self.state.marks.removed[dev.number() as usize]
    }

    fn process_seq(&self, proc: Proc) -> u64 {
        self.state.seqs.process_seq(proc)
    }

    fn seq_started(&self, proc: Proc, span: Span) -> u64 {
        self.state.seqs.seq_started(proc, span)
    }

    fn seq_ended(&self, proc: Proc) -> u64 {
        self.state.seqs.seq_ended(proc)
    }

    fn interval_inserted(&self, proc: Proc) -> u64 {
        self.state.seqs.interval_inserted(proc)
    }

    fn interval_seq(&self, mirror: MirrorId) -> u64 {
        self.state.seqs.interval_seq(mirror)
    }

    fn in_tree(&self, mirror: MirrorId) -> bool {
        self.state.seqs.in_tree(mirror)
    }

    fn insert_deferred(&self, mirror: MirrorId) -> bool {
        self.state.seqs.insert_deferred(mirror)
    }

    fn next_told(&self, proc: Proc, span: Span, after: Option<MirrorId>) -> Option<MirrorId> {
        self.state.seqs.next_told(proc, span, after)
    }

    fn has_mirror(&self, mirror: MirrorId) -> bool {
        self.state.mirrors.has_mirror(mirror)
    }

    fn is_attached(&self, mirror: MirrorId) -> bool {
        self.state.mirrors.is_attached(mirror)
    }

    fn in_window(&self, mirror: MirrorId, span: Span) -> bool {
        self.state.mirrors.in_window(mirror, span)
    }

    fn mirror_proc(&self, mirror: MirrorId) -> Proc {
        self.state.mirrors.mirror_proc(mirror)
    }

    fn mirror_dev(&self, mirror: MirrorId) -> Dev {
        self.state.mirrors.mirror_dev(mirror)
    }

    fn is_usable(&self, mirror: MirrorId, page: Page, writes: bool) -> bool {
        match self.state.tables.get(mirror, page) {
            Some(entry) => right_allows(entry.mapping.right, writes),
            None => false,
        }
    }

    fn has_exclusive(&self, actor: Actor, mirror: MirrorId, page: Page) -> bool {
        match self.state.tables.get(mirror, page) {
            Some(entry) => {
                matches!(entry.mapping.right, TableRight::Sole)
                    && is_exclusive_by(&self.place(self.mirror_proc(mirror), page), actor)
            }
            None => false,
        }
    }

    fn cpu_bytes(&self, alloc: Global, proc: Proc, addr: u64, len: u64) -> Result<Bytes, NoMemory> {
        bytes_of(alloc, &self.state.bytes, proc, addr, len)
    }

    fn mirror_bytes(
        &self,
        alloc: Global,
        mirror: MirrorId,
        addr: u64,
        len: u64,
    ) -> Result<Bytes, NoMemory> {
        bytes_of(
            alloc,
            &self.state.bytes,
            self.mirror_proc(mirror),
            addr,
            len,
        )
    }

    fn sole_byte(&self, _actor: Actor, mirror: MirrorId, addr: u64) -> u8 {
        self.state.bytes.byte(self.mirror_proc(mirror), addr)
    }
}

// The first page of a span that lies in a window, if there is one.
fn first_in(window: Option<Span>, span: Span) -> Page
    ensures { result ≡ first_in window span }
{
    match window {
        None => span.first(),
        Some(window) => {
            if span.first().number() < window.first().number() {
                window.first()
            } else {
                span.first()
            }
        }
    }
}

impl<'a> Details for FlawHere<'a> {
    fn none_past(&self) {
        self.state.places.facts();
    }

    fn can_be_raised(&self) {
        self.state.seqs.facts();
    }

    fn committed_to(&self, frame: &Frame) -> Option<Frame> {
        self.state.commits.get(frame)
    }

    fn interval_proc(&self, mirror: MirrorId) -> Option<Proc> {
        self.state.seqs.owner(mirror)
    }

    fn first_within(&self, mirror: MirrorId, span: Span) -> Page {
        first_in(self.state.seqs.window(mirror), span)
    }

    fn map_lock(&self, actor: Actor) -> Option<MapLock> {
        self.state.maps.locks[actor.number() as usize]
    }

    fn coming_by<C: Concerns>(
        &self,
        actor: Actor,
        concerns: &C,
        step: MoveStep,
        next: u64,
    ) -> Option<(MoveStep, Migrating)> {
        match self.task(actor) {
            Some(task) => task.records.come_to(concerns, step, next),
            None => None,
        }
    }
}
