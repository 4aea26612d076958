// Who goes and who waits, in one word.
ghost use Rattle.std.specs.Prelude.{◌≡◌, ◌<◌, ◌↔◌, ℕ, IfNone, IfSome, IsTrue};
ghost use Rattle.hm_workers.specs.Gates as spec;
ghost use Rattle.hm_workers.specs.Gates.{Changes, HasCome, IsCalled, IsHanded, IsIn, IsNotMade};

use hm_base::{Actor, MOST_ACTORS};

/// A bit for each actor.
const ALL: u64 = 0xffff;

/// Who goes, and who waits. It is kept in one word, so that all of it changes at once. A place is the number after that
/// of an actor, 0 for none.
#[derive(Clone, Copy)]
pub(crate) struct Places {
    /// A bit for each actor that waits.
    pub(crate) waiting: u64,
    /// A bit for each of them that looks all the time.
    pub(crate) looking: u64,
    /// A bit for each whose last try added nothing, if nobody has added an entry since.
    pub(crate) held: u64,
    /// The place of the actor that goes.
    pub(crate) goes: u64,
    /// The place of one that was called to look, and has not come.
    pub(crate) called: u64,
}

impl Places {
    pub(crate) fn of(word: u64) -> Places {
        Places {
            waiting: word & ALL,
            looking: word >> 16 & ALL,
            held: word >> 32 & ALL,
            goes: word >> 48 & 0x1f,
            called: word >> 53 & 0x1f,
        }
    }

    pub(crate) fn word(self) -> u64 {
        self.waiting
            | look_bit(self.looking)
            | held_bit(self.held)
            | self.goes << 48
            | self.called << 53
    }

    /// Whether the actor in this place goes.
    pub(crate) fn lets(self, place: u64) -> bool
        ensures { IsTrue result ↔ self.goes ≡ place }
    {
        self.goes == place
    }

    /// Those that wait and may go: that are not held, or all if all are.
    pub(crate) fn free(self) -> u64
        ensures same { result ≡ spec.free self }
        ensures wait { (place : ℕ) → IsIn result place → IsIn self.waiting place }
        ensures some { 0 < self.waiting → 0 < result }
    {
        let free = self.waiting & !self.held;
        if free == 0 { self.waiting } else { free }
    }

    /// Those of them that look.
    pub(crate) fn ready(self) -> u64
        ensures { (place : ℕ) → IsIn result place → IsIn self.waiting place }
    {
        self.free() & self.looking
    }

    /// Those that wait and do not look.
    pub(crate) fn asleep(self) -> u64 {
        self.waiting & !self.looking
    }

    // Who goes next where that is not said: one that looks, the one that was called, the one in the place `least`, or
    // any.
    fn next(self, least: u64, number: u64) -> u64
        ensures { 0 < self.waiting → IsIn self.waiting result }
    {
        let (free, ready) = (self.free(), self.ready());
        if ready != 0 {
            pick(ready, number)
        } else if has(free, self.called) {
            self.called
        } else if has(free, least) {
            least
        } else {
            pick(free, number)
        }
    }

    // Once one lets another go, if any waits.
    fn handed(self, hand: Hand) -> Option<Places>
        ensures some { IfSome result (λ p. IsHanded self hand p) }
        ensures none { IfNone result (IsNotMade self (Change.Hand hand)) }
    {
        if self.goes != hand.from || (self.waiting == 0 && hand.stays != 0) {
            return None;
        }
        let goes = if has(self.waiting, hand.to) {
            hand.to
        } else {
            self.next(hand.least, hand.number)
        };
        let waiting = (self.waiting | hand.stays) & !bit_at(goes);
        let looking = self.looking & waiting;
        Some(Places {
            waiting,
            looking: if looking == 0 {
                hand.looks & waiting
            } else {
                looking
            },
            held: self.held,
            goes,
            called: if self.called == goes { 0 } else { self.called },
        })
    }

    // Once one is called to look, if it waits and is not called.
    fn with_call(self, place: u64) -> Option<Places>
        ensures some { IfSome result (λ p. IsCalled self place p) }
        ensures none { IfNone result (IsNotMade self (Change.Call place)) }
    {
        if self.called == place || !has(self.waiting, place) {
            return None;
        }
        Some(self.with(self.looking, place))
    }

    // Once one that was called has come. It looks if no other does.
    fn with_come(self, place: u64) -> Option<Places>
        ensures some { IfSome result (λ p. HasCome self place p) }
        ensures none { IfNone result (IsNotMade self (Change.Come place)) }
    {
        if self.called != place || self.lets(place) {
            return None;
        }
        let looking = if self.looking == 0 {
            bit_at(place)
        } else {
            self.looking
        };
        Some(self.with(looking, 0))
    }

    fn with(self, looking: u64, called: u64) -> Places
        ensures { result ≡ record self { looking = looking; called = called } }
    {
        Places {
            waiting: self.waiting,
            looking,
            held: self.held,
            goes: self.goes,
            called,
        }
    }

    /// The places after a change; none if nothing changes.
    pub(crate) fn after(self, change: Change) -> Option<Places>
        ensures some { IfSome result (λ p. Changes self change p) }
        ensures none { IfNone result (IsNotMade self change) }
    {
        match change {
            Change::Hand(hand) => self.handed(hand),
            Change::Call(place) => self.with_call(place),
            Change::Come(place) => self.with_come(place),
        }
    }
}

/// One lets another go.
#[derive(Clone, Copy)]
pub(crate) struct Hand {
    /// The place of the one that went; 0 if none did.
    pub(crate) from: u64,
    /// Its bit, if it waits from then on.
    pub(crate) stays: u64,
    /// The bit of one that looks, if no other does.
    pub(crate) looks: u64,
    /// The place of the one that is to go, if it waits; else one that looks goes, or the one that was called.
    pub(crate) to: u64,
    /// The place of the one that goes if there is no such.
    pub(crate) least: u64,
    /// What is drawn by.
    pub(crate) number: u64,
}

/// A change of the places.
#[derive(Clone, Copy)]
pub(crate) enum Change {
    /// One lets another go, if any waits.
    Hand(Hand),
    /// The one in this place is called to look.
    Call(u64),
    /// The one in this place, which was called, comes.
    Come(u64),
}

/// The bit of the word that says that the actor with this bit looks.
pub(crate) fn look_bit(bit: u64) -> u64 {
    bit << 16
}

/// The bit of the word that says that the actor with this bit is held.
pub(crate) fn held_bit(bit: u64) -> u64 {
    bit << 32
}

/// The word of places where nobody waits, and the one in the place goes.
pub(crate) fn alone(place: u64) -> u64 {
    place << 48
}

/// The bits of the word that stay when nobody is held.
pub(crate) fn all_but_held() -> u64 {
    !held_bit(ALL)
}

pub(crate) fn bit_of(actor: Actor) -> u64 {
    1 << actor.number()
}

pub(crate) fn place_of(actor: Actor) -> u64 {
    u64::from(actor.number()) + 1
}

/// The bit of the actor in this place; none for 0.
pub(crate) fn bit_at(place: u64) -> u64 {
    match place.checked_sub(1) {
        Some(number) => 1 << number.min(63),
        None => 0,
    }
}

/// Whether the set has the bit of the actor in this place.
pub(crate) fn has(set: u64, place: u64) -> bool
    ensures { IsTrue result ↔ IsIn set place }
{
    place > 0 && place <= 64 && set >> (place - 1) & 1 == 1
}

// The place of the first actor of the set; 0 if the set is empty.
fn first(set: u64) -> u64
    ensures some { 0 < set → IsIn set result }
    ensures none { set ≡ 0 → result ≡ 0 }
{
    if set == 0 {
        return 0;
    }
    u64::from(set.trailing_zeros()) + 1
}

// The place after that of so many actors of the set; 0 if there are no more.
fn place_after(set: u64, count: u64) -> u64 {
    let found = (0..u64::from(MOST_ACTORS))
        .filter(|number| (set >> number) & 1 == 1)
        .nth(count as usize);
    match found {
        Some(number) => number.saturating_add(1),
        None => 0,
    }
}

/// The place of an actor of the set, drawn by the number; 0 if the set is empty.
pub(crate) fn pick(set: u64, number: u64) -> u64
    ensures some { 0 < set → IsIn set result }
    ensures none { set ≡ 0 → result ≡ 0 }
{
    let count = u64::from(set.count_ones());
    let place = place_after(set, number.checked_rem(count).unwrap_or(0));
    if has(set, place) { place } else { first(set) }
}
