// Which entries may follow.
ghost use Rattle.std.specs.Prelude.{◌≡◌, true, if◌then◌else◌};
ghost use Rattle.hm_base.specs.PlaceWords.{names, is_frame};
ghost use Rattle.hm_history.specs.Memory.Words.{page_of};
ghost use Rattle.hm_history.specs.Memory.Plain.{owned};
ghost use Rattle.hm_history.specs.Memory.Places.{places_accept, holds_target, table_reads, table_writes, table_sole};
ghost use Rattle.hm_history.specs.Memory.Places.{is_for_device, stands_for, is_target, lowest_free};
ghost use Rattle.hm_history.specs.declared.Kind.{Kind as AnyKind};
ghost use Rattle.hm_folds.specs.TableMap.{entry_of};
ghost use Rattle.hm_folds.specs.HeldFrames.{held_at};
ghost use Rattle.hm_folds.specs.Shares.{shares_at};
ghost use Rattle.hm_folds.specs.Standing.{one_writer_after, may_access, entry_allows, accepts_frames};

use crate::place_tests::{
    cpu_may, is_exclusive_of, is_for_device, is_sole, place_allows, right_allows,
};
use crate::places::PlaceState;
use crate::shares::Shares;
use crate::table_map::KeptEntry;
use hm_base::frames::{is_frame, names};
use hm_base::{Actor, Frame, MirrorId, Page, Place, Proc};
use hm_history::{Kind, Who};

impl PlaceState {
    ghost use Rattle.hm_folds.specs.Places.{PlacesShown, ForShown, owners_of, HoldsNamed, StepFits};

    // Whether a place stands for this.
    fn is_target(&self, place: &Place, target: &Option<Frame>) -> bool
        ensures { ForShown self.now (λ c s. result ≡ is_target (stands_for s place.now) target.now) }
    {
        match target {
            None => matches!(place, Place::Zero),
            Some(frame) => is_frame(self.backing(place), frame),
        }
    }

    /// Whether there is a next state.
    pub(super) fn accepts(&self, actor: Actor, kind: &Kind) -> bool
        ensures same { ForShown self.now
            (λ c s. result ≡ places_accept c (owners_of self.now) s actor kind.now) }
        ensures fits { result ≡ true → StepFits self.now.held.pools kind.now }
    {
        match kind {
            Kind::Loaded {
                who,
                addr,
                bytes: _,
            } => self.may_access(who, *addr, false),
            Kind::Stored {
                who,
                addr,
                bytes: _,
            } => self.may_access(who, *addr, true),
            Kind::Fetched {
                mirror,
                addr,
                bytes: _,
            } => self.has_sole(actor, *mirror, *addr),
            Kind::Added { mirror, addr, .. } => self.has_sole(actor, *mirror, *addr),
            Kind::Set { mirror, target, .. } => self.is_for_device(*mirror, target),
            _ => self.accepts_frames(kind),
        }
    }

    // The place of the page of an address; no page past the last has one.
    fn place_at(&self, proc: Proc, addr: u64) -> Place
        ensures { ForShown self.now (λ c s. result ≡ s.place proc (page_of addr)) }
    {
        if addr >= 1 << 48 {
            return Place::Empty;
        }
        self.place(proc, Page::new(addr / 4096))
    }

    fn may_access(&self, who: &Who, addr: u64, writes: bool) -> bool
        ensures { ForShown self.now (λ c s. result ≡ may_access (owners_of self.now) s who.now addr writes) }
    {
        match who {
            Who::Cpu(proc) => cpu_may(&self.place_at(*proc, addr), writes),
            Who::Mirror(mirror) => match self.owners[mirror.number() as usize] {
                None => false,
                Some(proc) => self.table_may(*mirror, proc, addr, writes),
            },
        }
    }

    fn table_may(&self, mirror: MirrorId, proc: Proc, addr: u64, writes: bool) -> bool
        ensures { ForShown self.now
            (λ c s. result
            ≡
            (if writes then table_writes s mirror proc (page_of addr) else table_reads s mirror proc (page_of addr))) }
    {
        if addr >= 1 << 48 {
            return false;
        }
        let page = Page::new(addr / 4096);
        match self.mirror_tables.get(mirror, page) {
            None => false,
            Some(entry) => self.entry_may(&entry, &self.place(proc, page), writes),
        }
    }

    fn entry_may(&self, entry: &KeptEntry, place: &Place, writes: bool) -> bool
        ensures { ForShown self.now (λ c s. result ≡ entry_allows s (entry_of entry.now) place.now writes) }
    {
        if !right_allows(entry.right, writes) {
            return false;
        }
        if !place_allows(place, writes) {
            return false;
        }
        self.is_target(place, &entry.target())
    }

    // Whether the actor has the page of an address alone, through the mirror.
    fn has_sole(&self, actor: Actor, mirror: MirrorId, addr: u64) -> bool
        ensures { ForShown self.now
            (λ c s. result ≡ owned (owners_of self.now mirror) (λ p. table_sole s actor mirror p (page_of addr))) }
    {
        match self.owners[mirror.number() as usize] {
            None => false,
            Some(proc) => self.table_is_sole(actor, mirror, proc, addr),
        }
    }

    fn table_is_sole(&self, actor: Actor, mirror: MirrorId, proc: Proc, addr: u64) -> bool
        ensures { ForShown self.now (λ c s. result ≡ table_sole s actor mirror proc (page_of addr)) }
    {
        if addr >= 1 << 48 {
            return false;
        }
        let page = Page::new(addr / 4096);
        match self.mirror_tables.get(mirror, page) {
            None => false,
            Some(entry) => {
                is_sole(entry.right)
                    && is_exclusive_of(&self.place(proc, page), actor, &entry.target())
            }
        }
    }

    fn is_for_device(&self, mirror: MirrorId, target: &Option<Frame>) -> bool
        ensures { ForShown self.now (λ c s. result ≡ owned (s.device mirror) (is_for_device target.now)) }
    {
        match self.devices[mirror.number() as usize] {
            None => false,
            Some(dev) => is_for_device(target, dev),
        }
    }

    // Of an entry that changes frames or places.
    fn accepts_frames(&self, kind: &Kind) -> bool
        ensures same { ForShown self.now (λ c s. result ≡ accepts_frames c s kind.now) }
        ensures fits { result ≡ true → StepFits self.now.held.pools kind.now }
    {
        match kind {
            Kind::Place { proc, page, place } => self.may_place(*proc, *page, place),
            Kind::Committed { from, to } => self.may_commit(from, to),
            Kind::Take(frame) => self.may_take(frame),
            Kind::Drop(frame) => self.may_drop(frame),
            Kind::Removed(dev) => self.held_from(*dev, 0).is_none(),
            _ => true,
        }
    }

    // What a place names is held.
    fn holds(&self, frame: &Option<Frame>) -> bool
        ensures same { ForShown self.now (λ c s. result ≡ holds_target s frame.now) }
        ensures held { result ≡ true → HoldsNamed self.now.held.pools frame.now }
    {
        match frame {
            None => true,
            Some(frame) => self.held.is_held(frame),
        }
    }

    // Whether no page of a frame would share with a writable one, after pages have moved to it from another.
    fn has_one_writer_after(
        &self,
        to: &Option<Frame>,
        more: Shares,
        from: &Option<Frame>,
        fewer: Shares,
    ) -> bool
        ensures { result ≡ one_writer_after (shares_at self.now.standing.pools) to.now more from.now fewer }
    {
        match to {
            None => true,
            Some(frame) => {
                let all = self.standing.get(frame);
                let rest = if is_frame(*from, frame) {
                    all.less(fewer)
                } else {
                    all
                };
                rest.has_one_writer_with(more)
            }
        }
    }

    fn may_place(&self, proc: Proc, page: Page, place: &Place) -> bool
        ensures same { ForShown self.now
            (λ c s. result ≡ accepts_frames c s (AnyKind.Place proc page place.now)) }
        ensures fits { result ≡ true → HoldsNamed self.now.held.pools (names place.now) }
    {
        let old = self.place(proc, page);
        self.holds(&names(place))
            && self.has_one_writer_after(
                &self.backing(place),
                Shares::of_page(place),
                &self.backing(&old),
                Shares::of_page(&old),
            )
    }

    fn may_commit(&self, from: &Frame, to: &Frame) -> bool
        ensures { ForShown self.now (λ c s. result ≡ accepts_frames c s (AnyKind.Committed from.now to.now)) }
    {
        let shares = self.moving.get(from);
        self.has_one_writer_after(&Some(*to), shares, &Some(self.destination(from)), shares)
    }

    fn may_take(&self, frame: &Frame) -> bool
        ensures same { ForShown self.now (λ c s. result ≡ accepts_frames c s (AnyKind.Take frame.now)) }
        ensures fits { result ≡ true → StepFits self.now.held.pools (AnyKind.Take frame.now) }
    {
        self.is_next(frame) && !self.is_removed(&frame.pool)
    }

    // Whether the next `take` of its pool gives the frame.
    fn is_next(&self, frame: &Frame) -> bool
        ensures same { ForShown self.now (λ c s. result ≡ is_frame (lowest_free c s frame.now.pool) frame.now) }
        ensures fits { result ≡ true → StepFits self.now.held.pools (AnyKind.Take frame.now) }
    {
        if self.is_withdrawn(&frame.pool) {
            return false;
        }
        match self.held.lowest_free(frame.pool) {
            None => false,
            Some(number) => number == frame.number,
        }
    }

    fn may_drop(&self, frame: &Frame) -> bool
        ensures same { ForShown self.now (λ c s. result ≡ accepts_frames c s (AnyKind.Drop frame.now)) }
        ensures fits { result ≡ true → held_at self.now.held.pools frame.now ≡ true }
    {
        self.held.is_held(frame) && self.tables.lowest_named(frame).is_none()
    }
}
