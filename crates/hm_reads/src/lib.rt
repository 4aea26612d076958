// What a step asks of a world, before it is known how the world keeps its state.
#![tactic(auto)]

ghost use Rattle.std.specs.Prelude.{◌≡◌, ℕ, ◌+◌, ◌%◌, ◌≤◌, true, false, count_by, is_some, option_copied, slice_get};
ghost use Rattle.std.specs.Prelude.{IfOk, IsTrue};
ghost use Rattle.hm_base.specs.Areas.{meets};
ghost use Rattle.hm_base.specs.Program.{Program};
ghost use Rattle.hm_history.specs.Memory.Words.{page_of, writable};
ghost use Rattle.hm_history.specs.Memory.Plain.{rights_of, area_refusal, is_attached, in_window, mirror_proc};
ghost use Rattle.hm_history.specs.Memory.Plain.{mirror_dev, plain_bytes};
ghost use Rattle.hm_history.specs.Memory.Places.{uses, is_used, next_page, lowest_direct, lowest_moving, lowest_named};
ghost use Rattle.hm_history.specs.Memory.Places.{lowest_free, held_from, cpu_reads};
ghost use Rattle.hm_history.specs.Memory.Sequences.{interval_seq, in_tree, insert_deferred, next_told, seq_started};
ghost use Rattle.hm_history.specs.Memory.Sequences.{seq_ended, interval_inserted};
ghost use Rattle.hm_history.specs.Memory.Locks.{writer, lowest_other, other_locker};
ghost use Rattle.hm_history.specs.Kernel.Going.{State, op_at, coming};
ghost use Rattle.hm_history.specs.Kernel.Due.{is_usable, has_exclusive};
ghost use Rattle.hm_reads.specs.Cursors.{page_before};
ghost use Rattle.hm_reads.specs.Ranges.{top_in_range};
ghost use Rattle.hm_history.specs.declared.Who as who;
ghost use Rattle.hm_history.specs.declared.phases.Phase as phase;

pub mod decisions;
pub mod faults;
pub mod guards;
pub mod operations;

use hm_base::{
    Actor, Bytes, Cause, Dev, Frame, MirrorId, NoMemory, Op, Page, Place, PoolId, Proc, Rights,
    Script, Span,
};
use hm_history::phases::{Migrating, MoveStep, Phase};
use std::alloc::Global;

/// A state of a script, as steps read it. Each call answers from the state that the definitions give, and takes no
/// memory but for bytes that it answers.
pub trait Reads {
    ghost program: { Self → Program };

    ghost state: { Self → State };

    /// The script.
    fn script(&self) -> &Script
        ensures { result.now ≡ program self.now };

    /// How many entries there are.
    fn length(&self) -> u64
        ensures { result ≡ (state self.now).after.length };

    /// The actor's first operation that has not ended.
    fn op(&self, actor: Actor) -> Option<&Op>
        ensures { option_copied result ≡ op_at (program self.now) actor ((state self.now).going actor).index };

    /// The top of its stack. A fork between the two halves of a page is at a page.
    fn phase(&self, actor: Actor) -> Option<&Phase>
        ensures same { option_copied result ≡ slice_get ((state self.now).going actor).stack 0 }
        ensures range { IsTrue (top_in_range (slice_get ((state self.now).going actor).stack 0)) };

    /// How many pages its migration has moved.
    fn moved_pages(&self, actor: Actor) -> u64
        ensures { result ≡ count_by (λ x. x.moved) ((state self.now).going actor).pages };

    /// The step, from this one on, and the page to which its migration has come; none at its end.
    fn coming(
        &self,
        actor: Actor,
        op: &Op,
        step: MoveStep,
        next: u64,
    ) -> Option<(MoveStep, Migrating)>
        ensures { result
            ≡ coming (state self.now).after op.now ((state self.now).going actor).pages (phase.Phase.Moves step next) };

    fn there(&self, proc: Proc) -> bool
        ensures { result ≡ (state self.now).after.plain.there proc };

    fn named(&self, proc: Proc) -> bool
        ensures { result ≡ (state self.now).after.plain.named proc };

    /// The right of a page, where it has an area.
    fn rights(&self, proc: Proc, page: Page) -> Option<Rights>
        ensures { result ≡ rights_of (state self.now).after.plain proc page };

    /// The refusal that a change of areas meets: a page has an area, has none, or there would be too many.
    fn area_refusal(&self, op: &Op) -> Option<Cause>
        ensures { result ≡ area_refusal (state self.now).after.plain op.now };

    /// Whether some page of the span has an area.
    fn meets(&self, proc: Proc, span: Span) -> bool
        ensures { result ≡ meets span ((state self.now).after.plain.areas proc) };

    /// Who has the process's mmap lock for writing.
    fn writer(&self, proc: Proc) -> Option<Actor>
        ensures { result ≡ writer (state self.now).after.locks proc };

    /// The lowest other actor that has the process's mmap lock.
    fn lowest_other(&self, proc: Proc, actor: Actor) -> Option<Actor>
        ensures { result ≡ lowest_other (state self.now).after.locks proc actor };

    fn place(&self, proc: Proc, page: Page) -> Place
        ensures { result ≡ (state self.now).after.places.place proc page };

    /// The lowest page from there on and before the end whose place is not Empty.
    fn next_used(&self, proc: Proc, from: u64, end: u64) -> Option<Page>
        ensures { result ≡ page_before end (next_page (state self.now).after.places is_used proc from) };

    /// The lowest page from there on and before the end whose place is writable.
    fn next_writable(&self, proc: Proc, from: u64, end: u64) -> Option<Page>
        ensures { result ≡ page_before end (next_page (state self.now).after.places writable proc from) };

    /// Who has the frame locked.
    fn locker(&self, frame: &Frame) -> Option<Actor>
        ensures { result ≡ (state self.now).after.locks.frame frame.now };

    /// The other actor that has the frame locked.
    fn other_locker(&self, frame: &Frame, actor: Actor) -> Option<Actor>
        ensures { result ≡ other_locker (state self.now).after.locks frame.now actor };

    /// How many places name the frame.
    fn uses(&self, frame: &Frame) -> u64
        ensures { result ≡ uses (state self.now).after.places frame.now };

    /// The lowest place that names the frame directly, as a migration entry, or in either way.
    fn lowest_direct(&self, frame: &Frame) -> Option<(Proc, Page)>
        ensures { result ≡ lowest_direct (state self.now).after.places frame.now };

    fn lowest_moving(&self, frame: &Frame) -> Option<(Proc, Page)>
        ensures { result ≡ lowest_moving (state self.now).after.places frame.now };

    fn lowest_named(&self, frame: &Frame) -> Option<(Proc, Page)>
        ensures { result ≡ lowest_named (state self.now).after.places frame.now };

    /// The frame that the next `take` of the pool gives.
    fn lowest_free(&self, pool: PoolId) -> Option<Frame>
        ensures { result ≡ lowest_free (program self.now) (state self.now).after.places pool };

    /// The lowest held frame of the device from there on.
    fn held_from(&self, dev: Dev, from: u64) -> Option<u32>
        ensures { result ≡ held_from (program self.now) (state self.now).after.places dev from };

    fn is_withdrawn(&self, dev: Dev) -> bool
        ensures { result ≡ (state self.now).after.places.withdrawn dev };

    fn is_removed(&self, dev: Dev) -> bool
        ensures { result ≡ (state self.now).after.places.removed dev };

    /// The process's sequence, and what it becomes at a start over the span and at an end.
    fn process_seq(&self, proc: Proc) -> u64
        ensures { result ≡ (state self.now).after.sequences.seq proc };

    fn seq_started(&self, proc: Proc, span: Span) -> u64
        ensures { result ≡ seq_started (state self.now).after.sequences proc span };

    fn seq_ended(&self, proc: Proc) -> u64
        ensures { result ≡ seq_ended (state self.now).after.sequences proc };

    /// The sequence that an interval of the process gets when it is inserted now.
    fn interval_inserted(&self, proc: Proc) -> u64
        ensures { result ≡ interval_inserted (state self.now).after.sequences proc };

    /// The sequence of the mirror's interval; 0 for a mirror that was never attached.
    fn interval_seq(&self, mirror: MirrorId) -> u64
        ensures { result ≡ interval_seq (state self.now).after.sequences mirror };

    fn in_tree(&self, mirror: MirrorId) -> bool
        ensures { result ≡ in_tree (state self.now).after.sequences mirror };

    fn insert_deferred(&self, mirror: MirrorId) -> bool
        ensures { result ≡ insert_deferred (state self.now).after.sequences mirror };

    /// The least mirror above the last that was told whose interval in the tree overlaps the span.
    fn next_told(&self, proc: Proc, span: Span, after: Option<MirrorId>) -> Option<MirrorId>
        ensures { result ≡ next_told (state self.now).after.sequences proc span after };

    /// Whether the mirror was ever attached.
    fn has_mirror(&self, mirror: MirrorId) -> bool
        ensures { result ≡ is_some ((state self.now).after.plain.mirrors mirror) };

    fn is_attached(&self, mirror: MirrorId) -> bool
        ensures { result ≡ is_attached (state self.now).after.plain mirror };

    /// Attached, and the pages lie in its window.
    fn in_window(&self, mirror: MirrorId, span: Span) -> bool
        ensures { result ≡ in_window (state self.now).after.plain mirror span };

    /// The process and the device of a mirror; 0 for one that was never attached.
    fn mirror_proc(&self, mirror: MirrorId) -> Proc
        ensures { result ≡ mirror_proc (state self.now).after.plain mirror };

    fn mirror_dev(&self, mirror: MirrorId) -> Dev
        ensures { result ≡ mirror_dev (state self.now).after.plain mirror };

    /// The mirror's table has an entry for the page that reads, or writes.
    fn is_usable(&self, mirror: MirrorId, page: Page, writes: bool) -> bool
        ensures { result ≡ is_usable writes ((state self.now).after.places.table mirror page) };

    /// The actor has the page alone, through the mirror.
    fn has_exclusive(&self, actor: Actor, mirror: MirrorId, page: Page) -> bool
        ensures { result ≡ has_exclusive (state self.now).after actor mirror page };

    /// The bytes of a page that the CPU may read, from its frame.
    fn cpu_bytes(&self, alloc: Global, proc: Proc, addr: u64, len: u64) -> Result<Bytes, NoMemory>
        requires there { (state self.now).after.plain.there proc ≡ true }
        requires reads { cpu_reads ((state self.now).after.places.place proc (page_of addr)) ≡ true }
        requires lies { addr % 4096 + len ≤ 4096 }
        ensures { IfOk result (λ bytes. bytes ≡ plain_bytes (state self.now).after.plain (who.Who.Cpu proc) addr len) };

    /// The bytes of a page that the mirror may read, from the frame of its table's entry.
    fn mirror_bytes(
        &self,
        alloc: Global,
        mirror: MirrorId,
        addr: u64,
        len: u64,
    ) -> Result<Bytes, NoMemory>
        requires usable { is_usable false ((state self.now).after.places.table mirror (page_of addr)) ≡ true }
        requires lies { addr % 4096 + len ≤ 4096 }
        ensures { IfOk result
            (λ bytes. bytes ≡ plain_bytes (state self.now).after.plain (who.Who.Mirror mirror) addr len) };

    /// The byte of a page that the actor has alone, from the frame of the mirror's entry.
    fn sole_byte(&self, actor: Actor, mirror: MirrorId, addr: u64) -> u8
        requires { has_exclusive (state self.now).after actor mirror (page_of addr) ≡ true }
        ensures { result ≡ (state self.now).after.plain.bytes (mirror_proc (state self.now).after.plain mirror) addr };
}
