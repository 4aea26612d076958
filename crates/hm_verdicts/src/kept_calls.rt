// All callbacks of a trace, in their order.
ghost use Rattle.std.specs.Prelude.{◌≡◌, ◌⊎◌, ◌==◌, true, ◌&&◌, ◌||◌, ◌++◌, ◌∷◌, [], not, is_none, OnOk, map, reverse, find};
ghost use Rattle.std.specs.List.{list_any, list_all};
ghost use Rattle.hm_protocol.specs.Words.{drop_if, is_it};
ghost use Rattle.hm_protocol.specs.Known as known;
ghost use Rattle.hm_protocol.specs.Noted.{after_end, after_set, is_past, began};
ghost use Rattle.hm_verdicts.specs.Changes.{erased_by, returned_in, paged_in};
ghost use Rattle.hm_verdicts.specs.Asking.{are_over_since};
ghost use Rattle.hm_verdicts.specs.Numbers.{values_in};
ghost use Rattle.hm_verdicts.specs.Settled.{First, IsFresh, IsOver};

use crate::all_calls;
use crate::calls::Call;
use crate::flags::Positions;
use crate::looks::Look;
use crate::moves::Move;
use crate::newest_first::Passes;
use crate::numbered::Numbered;
use crate::over::{
    BelowSeq, EndedBy, Fresh, Over, ReturnedBy, drop_from, earlier, higher, last_on, latest, learn,
    rest, settle,
};
use hm_base::NoMemory;
use std::alloc::Global;
use std::marker::Model;

// How many more callbacks must be over before bounds of them are kept.
const STEP: usize = 64;

/// All callbacks, in their order.
#[derive(Drop)]
pub struct Calls {
    items: Vec<Call>,
    /// As many of the first as are known to be over.
    over: Over,
    /// Bounds of fewer ones, the fewest first.
    marks: Vec<Over>,
    /// Where the last of their invalidations began.
    top: u64,
    /// How many of the first no migration changes any more.
    lasting: usize,
    /// The highest sequence that callbacks of a mirror were given, of so many of the first.
    highest: Positions,
    learned: usize,
}

impl Model for Calls {
    ghost use Rattle.std.specs.Prelude.{List};
    ghost use Rattle.std.specs.List.{All};
    ghost use Rattle.hm_protocol.specs.Known as known;
    ghost use Rattle.hm_verdicts.specs.Settled.{First, IsBelow, IsMark, IsOver, is_lasting};
    ghost use Rattle.hm_verdicts.specs.Numbers.{positions_in};
    ghost use Rattle.std.specs.Prelude.{◌≡◌, true};

    ghost Value = { List known.Call };

    ghost view = { λ s. s.items.items };

    ghost invariant = { λ s. First (IsOver s.over) s.over.count s.items.items
        × All (IsMark s.top s.items.items) s.marks.items
        × First (λ x. is_lasting x ≡ true) s.lasting s.items.items
        × First (IsBelow (positions_in s.highest)) s.learned s.items.items };
}

impl Calls {
    /// None. It takes no memory.
    pub(crate) fn new(alloc: Global) -> Calls
        ensures { result ≡ [] }
    {
        Calls {
            items: Vec::new(alloc),
            over: Over::new(),
            marks: Vec::new(alloc),
            top: 0,
            lasting: 0,
            highest: Positions::new(alloc),
            learned: 0,
        }
    }

    /// All of them.
    pub(crate) fn all(&self) -> &[Call]
        ensures { result.now ≡ self.now }
    {
        &self.items
    }

    // Keeps the highest sequences.
    fn learn(&mut self) -> Result<(), NoMemory>
        ensures { self.new ≡ self.old }
    {
        match learn(&self.items, self.learned, &mut self.highest) {
            Err(failed) => {
                self.learned = 0;
                Err(failed)
            }
            Ok(learned) => {
                self.learned = learned;
                Ok(())
            }
        }
    }

    // Keeps the bounds of those that are over, if they are many more than the last time.
    fn mark(&mut self) -> Result<(), NoMemory>
        ensures { self.new ≡ self.old }
    {
        let few = latest(&self.marks).count.saturating_add(STEP);
        if few <= self.over.count {
            self.top = higher(self.top, self.over.of);
            self.marks.push(self.over)?;
        }
        Ok(())
    }

    // The bounds of the most callbacks that are known to pass.
    fn bounds<P: Passes<Over>>(&self, test: &P) -> Over
        ensures held { First (IsOver result) result.count self.now }
        ensures passes { (P.test test.now result ≡ true) ⊎ (result.count ≡ 0) }
    {
        if test.test(&self.over) {
            return self.over;
        }
        let count = self.marks.len();
        for number in 0..count {
            let mark = self.marks[count - 1 - number];
            if test.test(&mark) {
                return mark;
            }
        }
        Over::new()
    }

    // The sequence that the callback was given that the thread is in, and the most callbacks that are known to have
    // been given lower ones.
    fn fresh(&self, thread: u64, mirror: u64) -> Fresh
        ensures { IsFresh mirror result self.now }
    {
        let given = all_calls::given_seq(rest(&self.items, self.over.count), thread, mirror);
        let seq = given.unwrap_or(0);
        if self.highest.at(mirror) < seq {
            return Fresh {
                seq,
                count: self.learned,
            };
        }
        Fresh {
            seq,
            count: self.bounds(&BelowSeq(seq)).count,
        }
    }

    /// One more begins.
    pub(crate) fn push(&mut self, call: Call) -> Result<(), NoMemory>
        ensures { OnOk result (self.new ≡ self.old ++ call ∷ []) }
    {
        self.items.push(call)?;
        Ok(())
    }

    // ---- what events make of them

    /// The invalidation that began there has ended here.
    pub(crate) fn end(&mut self, begun: u64, at: u64) -> Result<(), NoMemory>
        ensures { OnOk result (self.new ≡ map (after_end begun at) self.old) }
    {
        drop_from(&mut self.marks, self.top, begun);
        let over = earlier(self.over, &self.marks, begun);
        match all_calls::end(&mut self.items, over, begun, at) {
            Err(failed) => {
                self.over = self.over.none();
                self.marks.clear();
                self.lasting = 0;
                self.learned = 0;
                Err(failed)
            }
            Ok(over) => {
                self.over = over;
                self.mark()
            }
        }
    }

    /// Another entry is set.
    pub(crate) fn set_over(&mut self, mirror: u64, page: u64) -> Result<(), NoMemory>
        ensures { OnOk result (self.new ≡ map (after_set mirror page) self.old) }
    {
        match all_calls::set_over(&mut self.items, self.over, mirror, page) {
            Err(failed) => {
                self.over = self.over.none();
                self.marks.clear();
                self.lasting = 0;
                self.learned = 0;
                Err(failed)
            }
            Ok(over) => {
                self.over = over;
                self.mark()
            }
        }
    }

    /// A thread, which has these migrations, the oldest first, erases the entry of a page.
    pub(crate) fn erase(
        &mut self,
        thread: u64,
        devices: &Numbered<u64>,
        moves: &[Move],
        mirror: u64,
        page: u64,
    ) -> Result<(), NoMemory>
        ensures { OnOk result (self.new ≡ map (erased_by (values_in devices.now)
            (list_any (λ y. (y.thread == thread) && is_none y.after) self.old)
            (reverse moves.now) thread mirror page) self.old) }
    {
        match all_calls::erase(
            &mut self.items,
            self.over,
            thread,
            devices,
            moves,
            mirror,
            page,
        ) {
            Err(failed) => {
                self.over = self.over.none();
                self.marks.clear();
                self.lasting = 0;
                self.learned = 0;
                Err(failed)
            }
            Ok(over) => {
                self.over = over;
                self.mark()
            }
        }
    }

    /// The inner migration of a thread, of those that are kept the oldest first, knows what moved.
    pub(crate) fn know_inner(
        &mut self,
        alloc: Global,
        devices: &Numbered<u64>,
        thread: u64,
        moves: &[Move],
    ) -> Result<(), NoMemory>
        ensures { OnOk result (self.new ≡ paged_in (values_in devices.now) thread (reverse moves.now) self.old) }
    {
        match all_calls::know_inner(alloc, &mut self.items, self.lasting, devices, thread, moves) {
            Err(failed) => {
                self.over = self.over.none();
                self.marks.clear();
                self.lasting = 0;
                self.learned = 0;
                Err(failed)
            }
            Ok(()) => {
                self.lasting = last_on(&self.items, self.lasting);
                Ok(())
            }
        }
    }

    /// Each callback returns that the thread is in, which has these migrations, the oldest first.
    pub(crate) fn return_all(
        &mut self,
        alloc: Global,
        moves: &[Move],
        thread: u64,
        mirror: u64,
        at: u64,
        seq: u64,
    ) -> Result<(), NoMemory>
        ensures { OnOk result (self.new
            ≡ map (returned_in at seq self.old (reverse moves.now) thread mirror) self.old) }
    {
        let fresh = self.fresh(thread, mirror);
        match all_calls::return_all(
            alloc,
            &mut self.items,
            self.over,
            fresh,
            moves,
            thread,
            mirror,
            at,
            seq,
        ) {
            Err(failed) => {
                self.over = self.over.none();
                self.marks.clear();
                self.lasting = 0;
                self.learned = 0;
                Err(failed)
            }
            Ok(()) => {
                self.over = settle(&self.items, self.over);
                self.learn()?;
                self.mark()
            }
        }
    }

    /// The callback that the thread is in was none.
    pub(crate) fn drop_current(&mut self, thread: u64, mirror: u64)
        ensures { self.new ≡ drop_if (known.is_current thread mirror) self.old }
    {
        all_calls::drop_current(&mut self.items, thread, mirror);
    }

    // ---- what is asked of them

    /// Where the invalidation began of the callback that the thread is in; none if it is in none.
    pub(crate) fn begun(&self, thread: u64, mirror: u64) -> Option<u64>
        ensures { result ≡ began (find (known.is_current thread mirror) self.now) }
    {
        all_calls::begun(rest(&self.items, self.over.count), thread, mirror)
    }

    /// Whether some has returned in this mirror, and its invalidation is under way.
    pub(crate) fn are_telling(&self, mirror: u64) -> bool
        ensures { result ≡ list_any (known.is_telling mirror) self.now }
    {
        all_calls::are_telling(rest(&self.items, self.over.count), mirror)
    }

    /// Whether the mirror is being invalidated, and its interval has that sequence.
    pub(crate) fn are_invalidating(&self, mirror: u64) -> bool
        ensures { result ≡ list_any (λ x. known.is_telling mirror x && is_it x.after x.seq) self.now }
    {
        all_calls::are_invalidating(rest(&self.items, self.over.count), mirror)
    }

    /// Whether some invalidation of the mirror under way has this sequence.
    pub(crate) fn are_early(&self, mirror: u64, seq: u64) -> bool
        ensures { result ≡ list_any (λ x. known.is_telling mirror x && (x.seq == seq)) self.now }
    {
        all_calls::are_early(rest(&self.items, self.over.count), mirror, seq)
    }

    /// Whether some of the mirror has returned, and its invalidation has ended after this position.
    pub(crate) fn are_over_since(&self, mirror: u64, last: u64) -> bool
        ensures { result ≡ are_over_since mirror last self.now }
    {
        all_calls::are_over_since(
            rest(&self.items, self.bounds(&EndedBy(last)).count),
            mirror,
            last,
        )
    }

    /// Whether the look-up meets some callback.
    pub(crate) fn are_met(&self, mirror: u64, look: &Look) -> bool
        ensures { result ≡ list_any (known.meets look.now mirror) self.now }
    {
        all_calls::are_met(
            rest(&self.items, self.bounds(&ReturnedBy(look.begun())).count),
            mirror,
            look,
        )
    }

    /// Whether it meets one whose invalidation is under way.
    pub(crate) fn are_met_under_way(&self, mirror: u64, look: &Look) -> bool
        ensures { result ≡ list_any (λ x. known.meets look.now mirror x && known.goes_on x) self.now }
    {
        all_calls::are_met_under_way(
            rest(&self.items, self.bounds(&ReturnedBy(look.begun())).count),
            mirror,
            look,
        )
    }

    /// Whether each that it meets was over when its last walk ended.
    pub(crate) fn are_past(&self, mirror: u64, look: &Look) -> bool
        ensures { result ≡ list_all (λ x. not (known.meets look.now mirror x) || is_past look.now x) self.now }
    {
        all_calls::are_past(
            rest(&self.items, self.bounds(&ReturnedBy(look.begun())).count),
            mirror,
            look,
        )
    }
}
