// A gate that mixes the turns of the actors.
use crate::burst::Burst;
use crate::gate::Gate;
use crate::meeting::Meeting;
use crate::places::{
    Change, Hand, Places, all_but_held, alone, bit_at, bit_of, held_bit, look_bit, pick, place_of,
};
use hm_base::{Actor, MOST_ACTORS, NoMemory};
use hm_history::{Kind, Progress, Why};
use hm_turns::{Pass, Turn};
use std::alloc::Global;
use std::snapshot::Snapshot;
use std::sync::Wait;
use std::sync::atomic::{AtomicU64, Ordering};
use std::thread;

/// How often an actor that waits looks whether it may go, before it sleeps.
const LOOKS: u64 = 1 << 16;

// An actor that waits.
#[derive(Drop)]
struct Waiter {
    // How many entries it has added.
    added: AtomicU64,
    // How often it was called.
    calls: AtomicU64,
}

fn waiters(alloc: Global) -> Result<Vec<Waiter>, NoMemory> {
    let mut waiters = Vec::new(alloc);
    for _ in 0..MOST_ACTORS {
        waiters.push(Waiter {
            added: AtomicU64::new(0),
            calls: AtomicU64::new(0),
        })?;
    }
    Ok(waiters)
}

// The place of the actor that another waits for; 0 where that is not told.
fn place_of_holder(why: &Why) -> u64 {
    match why {
        Why::MapLock(_, actor) | Why::FrameLocked(_, actor) => place_of(*actor),
        Why::Moving(_, _) | Why::Invalidating(_, _) => 0,
    }
}

/// Lets one actor go at a time, for as many entries as is drawn: 1 to 32, and half as often if it is twice as many.
/// Then another goes, if any waits. No actor goes before all have come. If one is long in coming, as it is where no
/// thread can be started, nobody is held.
#[derive(Drop)]
pub struct Mixing<'a, R> {
    rt: &'a R,
    meeting: Meeting,
    places: AtomicU64,
    burst: Box<Burst>,
    waiters: Vec<Waiter>,
}

impl<'a, R> Mixing<'a, R> {
    /// What it draws depends on the seed, and on how the threads run.
    pub fn new(rt: &'a R, alloc: Global, seed: u64) -> Result<Mixing<'a, R>, NoMemory> {
        Ok(Mixing {
            rt,
            meeting: Meeting::new(),
            places: AtomicU64::new(0),
            burst: Box::new(alloc, Burst::new(seed))?,
            waiters: waiters(alloc)?,
        })
    }

    fn places(&self) -> Places {
        Places::of(self.places.load(Ordering::SeqCst))
    }

    fn goes(&self, place: u64) -> bool {
        self.places().lets(place)
    }

    // Changes the places. Gives them as they were and as they are, if they change.
    fn change(&self, change: Change) -> Option<(Places, Places)> {
        let order = Ordering::SeqCst;
        let changed = self.places.fetch_update(order, order, |word| {
            match Places::of(word).after(change) {
                Some(places) => Some(places.word()),
                None => None,
            }
        });
        let Ok(word) = changed else {
            return None;
        };
        let before = Places::of(word);
        match before.after(change) {
            Some(after) => Some((before, after)),
            None => None,
        }
    }

    // Ends the sleep of the actor in this place.
    fn wake(&self, place: u64) {
        let Some(at) = place.checked_sub(1) else {
            return;
        };
        if let Some(waiter) = self.waiters.get(at as usize) {
            waiter.calls.fetch_add(1, Ordering::SeqCst);
            waiter.calls.wake_one();
        }
    }

    // Calls the actor in this place to look.
    fn call(&self, place: u64) {
        if self.change(Change::Call(place)).is_some() {
            self.wake(place);
        }
    }

    // How many entries the actor with this number had added when it began to wait.
    fn added(&self, number: u64) -> u64 {
        match self.waiters.get(number as usize) {
            Some(waiter) => waiter.added.load(Ordering::SeqCst),
            None => u64::MAX,
        }
    }

    // The place of one of the set that has added the fewest entries; 0 if the set is empty. The number says where the
    // search begins.
    fn least(&self, set: u64, number: u64) -> u64 {
        let most = u64::from(MOST_ACTORS);
        let begin = number % most;
        let found = (begin..begin.saturating_add(most))
            .map(|number| number % most)
            .filter(|number| (set >> number) & 1 == 1)
            .min_by_key(|number| self.added(*number));
        match found {
            Some(number) => number.saturating_add(1),
            None => 0,
        }
    }

    // Lets another go, if any waits: the one in the place `to`, or any if that is 0. The actor waits from then on, if
    // `stays` is its bit, and looks if `looks` is.
    fn hand_on(&self, from: u64, stays: u64, looks: u64, to: u64, number: u64) {
        let places = self.places();
        let least = if to == 0 && places.ready() == 0 {
            self.least(places.free(), number >> 16)
        } else {
            0
        };
        self.burst.set_partner(from);
        let hand = Hand {
            from,
            stays,
            looks,
            to,
            least,
            number,
        };
        let Some((before, after)) = self.change(Change::Hand(hand)) else {
            return;
        };
        if before.looking & bit_at(after.goes) == 0 && before.called != after.goes {
            self.wake(after.goes);
        }
    }

    // As much of the bit as is to look.
    fn looks(&self, bit: u64) -> u64 {
        if self.burst.is_to_look() { bit } else { 0 }
    }

    // The burst of the actor is over. One that looks goes. If none does, it calls one and goes on for some bursts, or
    // lets the one go that went before.
    fn end_burst(&self, place: u64, bit: u64, kind: &Kind) {
        let number = self.burst.draw();
        let places = self.places();
        if places.waiting == 0 {
            return;
        }
        let rests = self.burst.rests(bit, kind, number >> 8);
        if places.ready() != 0 {
            self.burst.is_met();
            self.hand_on(
                place,
                bit,
                if rests { 0 } else { self.looks(bit) },
                0,
                number,
            );
            if rests && places.called == 0 {
                self.call(self.least(places.asleep(), number >> 16));
            }
        } else if self.burst.is_patient() {
            if places.called == 0 {
                self.call(self.least(places.free(), number >> 16));
            }
        } else {
            let to = if rests { 0 } else { self.burst.partner(places) };
            self.hand_on(place, bit, self.looks(bit), to, number);
        }
    }

    // The actor is held by the one in the place `holder`, or by one that is not known. If that one sleeps, it goes, or
    // is called where another looks.
    fn is_held(&self, place: u64, bit: u64, holder: u64) {
        let number = self.burst.draw();
        self.places.fetch_or(held_bit(bit), Ordering::SeqCst);
        let places = self.places();
        let sleeper = self.burst.holder(bit, places, number >> 8);
        let holder = if holder == 0 { sleeper } else { holder };
        let sleeps = bit_at(holder) & places.asleep() != 0;
        if sleeps && places.ready() != 0 {
            self.call(holder);
            return self.hand_on(place, bit, 0, 0, number);
        }
        let to = if holder == 0 && places.ready() == 0 {
            self.burst.partner(places)
        } else {
            holder
        };
        self.hand_on(place, bit, self.looks(bit), to, number);
    }

    // Looks whether it goes.
    fn look(&self, place: u64, bit: u64) -> bool {
        for look in 1..LOOKS {
            if self.goes(place) {
                self.burst.add_chance(look);
                self.burst.learn(true);
                return true;
            }
        }
        self.burst.learn(false);
        let before = self.places.fetch_and(!look_bit(bit), Ordering::SeqCst);
        Places::of(before).lets(place)
    }

    // Whether it is to look. It comes if it was called.
    fn is_to_look(&self, place: u64, bit: u64) -> bool {
        match self.change(Change::Come(place)) {
            Some((_, after)) => after.looking & bit != 0,
            None => self.places().looking & bit != 0,
        }
    }

    // Draws who goes first, and who looks, if that was not done.
    fn set_off(&self) {
        let places = self.places();
        if places.goes == 0 {
            let number = self.burst.draw();
            let to = pick(places.waiting, number);
            let looker = pick(places.waiting & !bit_at(to), number >> 16);
            self.hand_on(0, 0, bit_at(looker), to, number);
        }
    }

    // Notes a try of an actor that nobody let go: a schedule did, or nobody is held.
    fn tried_freely(&self, bit: u64, turn: &Turn) {
        match turn {
            Turn::Did(Progress::Did(_)) => (),
            Turn::Busy | Turn::Did(Progress::Waiting(_)) => thread::yield_now(),
            Turn::Did(Progress::Idle) | Turn::Stopped(_) | Turn::Halted => self.meeting.count(bit),
        }
    }
}

impl<R: Wait> Mixing<'_, R> {
    // Comes to the meeting. The first that sees all there lets one go. If one is missed nobody goes, and nobody is
    // held.
    fn come(&self, bit: u64) {
        self.places.fetch_or(bit, Ordering::SeqCst);
        let looks = self.meeting.attend(self.rt, bit).unwrap_or(0);
        if !self.meeting.was_missed() {
            self.burst.add_chance(looks);
            self.set_off();
        }
    }

    // Waits until it goes.
    fn wait(&self, actor: Actor, bit: u64) {
        let Some(waiter) = self.waiters.get(actor.number() as usize) else {
            return;
        };
        let place = place_of(actor);
        for _ in self.rt.forever() {
            let calls = waiter.calls.load(Ordering::SeqCst);
            if self.goes(place) || (self.is_to_look(place, bit) && self.look(place, bit)) {
                return;
            }
            if !self.goes(place) {
                waiter.calls.park(self.rt, (calls % (1 << 32)) as u32);
            }
        }
    }
}

impl<R: Wait> Gate for Mixing<'_, R> {
    fn begins(&self, actors: u64) {
        // One actor alone meets nobody, and goes.
        self.places
            .store(alone(u64::from(actors == 1)), Ordering::SeqCst);
        self.meeting.begin(actors);
    }

    fn admits(&self, actor: Actor, added: u64, _first: &Snapshot<Pass>, _pass: &Pass) -> bool {
        if self.goes(place_of(actor)) {
            return true;
        }
        let bit = bit_of(actor);
        if !self.meeting.has(bit) {
            self.come(bit);
        }
        if self.meeting.was_missed() {
            return true;
        }
        if let Some(waiter) = self.waiters.get(actor.number() as usize) {
            waiter.added.store(added, Ordering::SeqCst);
        }
        self.wait(actor, bit);
        true
    }

    fn tried(&self, actor: Actor, turn: &Turn) {
        let (place, bit) = (place_of(actor), bit_of(actor));
        let places = self.places();
        if !places.lets(place) {
            return self.tried_freely(bit, turn);
        }
        match turn {
            Turn::Busy => (),
            Turn::Did(Progress::Did(entry)) => {
                if places.held != 0 {
                    self.places.fetch_and(all_but_held(), Ordering::SeqCst);
                }
                if self.burst.is_over() {
                    self.end_burst(place, bit, &entry.kind);
                }
            }
            Turn::Did(Progress::Waiting(why)) => self.is_held(place, bit, place_of_holder(why)),
            Turn::Did(Progress::Idle) | Turn::Stopped(_) | Turn::Halted => {
                let number = self.burst.draw();
                self.hand_on(place, 0, 0, 0, number);
            }
        }
    }
}
