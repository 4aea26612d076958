// What each kind of entry changes.
ghost use Rattle.std.specs.Prelude.{◌≡◌, true, false, is_ok, OnOk, OnErr};
ghost use Rattle.hm_base.specs.PlaceWords.{names};
ghost use Rattle.hm_history.specs.Memory.Places.{places_next};
ghost use Rattle.hm_history.specs.declared.Kind.{Kind as AnyKind};
ghost use Rattle.hm_folds.specs.Applied.{takes_room};
ghost use Rattle.hm_folds.specs.MirrorTables.{owner_next};
ghost use Rattle.hm_folds.specs.HeldFrames.{held_at};
ghost use Rattle.hm_folds.specs.Standing.{accepts_frames, with_mirrors};

use crate::mirror_tables::{step_devices, step_owners};
use crate::places::PlaceState;
use crate::shares::{share_less, share_more};
use hm_base::{Dev, Frame, NoMemory, Page, Place, Proc};
use hm_history::Kind;

impl PlaceState {
    ghost use Rattle.hm_folds.specs.Places.{PlacesShown, ForShown, owners_of, HoldsNamed, StepFits};

    /// The state after an entry that is accepted; a failure leaves it as it was.
    pub(super) fn step(&mut self, kind: &Kind) -> Result<(), NoMemory>
        requires { StepFits self.old.held.pools kind.now }
        ensures ok { OnOk result
            (ForShown self.old
            (λ c s. accepts_frames c s kind.now ≡ true → PlacesShown c (places_next s kind.now) self.new)) }
        ensures err { OnErr result (ForShown self.old (λ c s. PlacesShown c s self.new)) }
        ensures owners { OnOk result (owners_of self.new ≡ owner_next (owners_of self.old) kind.now) }
        ensures kept { OnErr result (owners_of self.new ≡ owners_of self.old) }
        ensures memory { takes_room kind.now ≡ false → is_ok result ≡ true }
    {
        match kind {
            Kind::Place { proc, page, place } => self.set_place(*proc, *page, place),
            Kind::Committed { from, to } => self.commit(from, to),
            Kind::Take(frame) => self.take(frame),
            Kind::Drop(frame) => self.drop_frame(frame),
            Kind::Withdrawn(dev) => {
                self.withdraw(*dev);
                Ok(())
            }
            Kind::Removed(dev) => {
                self.remove(*dev);
                Ok(())
            }
            _ => self.step_mirrors(kind),
        }
    }

    fn withdraw(&mut self, dev: Dev)
        ensures shown { ForShown self.old (λ c s. PlacesShown c (places_next s (AnyKind.Withdrawn dev)) self.new) }
        ensures owners { owners_of self.new ≡ owners_of self.old }
    {
        self.withdrawn[dev.number() as usize] = true;
    }

    fn remove(&mut self, dev: Dev)
        ensures shown { ForShown self.old (λ c s. PlacesShown c (places_next s (AnyKind.Removed dev)) self.new) }
        ensures owners { owners_of self.new ≡ owners_of self.old }
    {
        self.removed[dev.number() as usize] = true;
    }

    // The mirrors after an entry that leaves frames and places.
    fn step_mirrors(&mut self, kind: &Kind) -> Result<(), NoMemory>
        ensures ok { OnOk result
            (ForShown self.old (λ c s. PlacesShown c (with_mirrors s kind.now) self.new)) }
        ensures err { OnErr result (ForShown self.old (λ c s. PlacesShown c s self.new)) }
        ensures owners { OnOk result (owners_of self.new ≡ owner_next (owners_of self.old) kind.now) }
        ensures kept { OnErr result (owners_of self.new ≡ owners_of self.old) }
        ensures memory { takes_room kind.now ≡ false → is_ok result ≡ true }
    {
        match self.mirror_tables.step(kind) {
            Ok(()) => {
                step_devices(&mut self.devices, kind);
                step_owners(&mut self.owners, kind);
                Ok(())
            }
            Err(error) => Err(error),
        }
    }

    fn set_place(&mut self, proc: Proc, page: Page, place: &Place) -> Result<(), NoMemory>
        requires { HoldsNamed self.old.held.pools (names place.now) }
        ensures ok { OnOk result
            (ForShown self.old
            (λ c s. accepts_frames c s (AnyKind.Place proc page place.now) ≡ true
            → PlacesShown c (places_next s (AnyKind.Place proc page place.now)) self.new)) }
        ensures err { OnErr result (ForShown self.old (λ c s. PlacesShown c s self.new)) }
        ensures owners { owners_of self.new ≡ owners_of self.old }
    {
        let kind = Kind::Place {
            proc,
            page,
            place: *place,
        };
        let old = self.tables.place(proc, page);
        let to = self.backing(place);
        let from = self.backing(&old);
        self.tables.reserve(&kind)?;
        share_more(&mut self.standing, &mut self.moving, &to, place)?;
        share_less(&mut self.standing, &mut self.moving, &from, &old);
        self.tables.step(&kind);
        Ok(())
    }

    fn commit(&mut self, from: &Frame, to: &Frame) -> Result<(), NoMemory>
        ensures ok { OnOk result
            (ForShown self.old
            (λ c s. accepts_frames c s (AnyKind.Committed from.now to.now) ≡ true
            → PlacesShown c (places_next s (AnyKind.Committed from.now to.now)) self.new)) }
        ensures err { OnErr result (ForShown self.old (λ c s. PlacesShown c s self.new)) }
        ensures owners { owners_of self.new ≡ owners_of self.old }
    {
        let shares = self.moving.get(from);
        let left = self.destination(from);
        self.standing.add(&Some(*to), shares)?;
        match self.commits.set(from, to) {
            Ok(()) => {
                self.standing.lower(&Some(left), shares);
                Ok(())
            }
            Err(error) => {
                self.standing.lower(&Some(*to), shares);
                Err(error)
            }
        }
    }

    fn take(&mut self, frame: &Frame) -> Result<(), NoMemory>
        requires { StepFits self.old.held.pools (AnyKind.Take frame.now) }
        ensures ok { OnOk result
            (ForShown self.old
            (λ c s. accepts_frames c s (AnyKind.Take frame.now) ≡ true
            → PlacesShown c (places_next s (AnyKind.Take frame.now)) self.new)) }
        ensures err { OnErr result (ForShown self.old (λ c s. PlacesShown c s self.new)) }
        ensures owners { owners_of self.new ≡ owners_of self.old }
    {
        self.held.take(frame)?;
        self.commits.forget(frame);
        Ok(())
    }

    fn drop_frame(&mut self, frame: &Frame) -> Result<(), NoMemory>
        requires { held_at self.old.held.pools frame.now ≡ true }
        ensures ok { OnOk result
            (ForShown self.old
            (λ c s. accepts_frames c s (AnyKind.Drop frame.now) ≡ true
            → PlacesShown c (places_next s (AnyKind.Drop frame.now)) self.new)) }
        ensures err { OnErr result (ForShown self.old (λ c s. PlacesShown c s self.new)) }
        ensures owners { owners_of self.new ≡ owners_of self.old }
    {
        self.held.drop_frame(frame)?;
        Ok(())
    }
}
