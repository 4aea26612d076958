// A gate that makes a schedule's turns first.
ghost use Rattle.std.specs.Prelude.{◌≡◌, ◌≤◌, ◌<◌, ◌↔◌, length, filter_map, take_while, IfOk, IsTrue};
ghost use Rattle.hm_workers.specs.Gates as spec;

use crate::gate::Gate;
use crate::meeting::Meeting;
use hm_base::{Actor, NoMemory, Schedule, ScheduleLine};
use hm_history::Progress;
use hm_turns::{Pass, Turn};
use std::alloc::Global;
use std::snapshot::Snapshot;
use std::sync::Wait;
use std::sync::atomic::{AtomicU64, Ordering};

/// So many turns of an actor.
#[derive(Clone, Copy, Drop)]
struct Stint {
    actor: Actor,
    count: u32,
}

fn stint_of(line: ScheduleLine) -> Option<Stint>
    ensures { result ≡ spec.stint_of line }
{
    match line {
        ScheduleLine::Run { actor, count } => Some(Stint { actor, count }),
        ScheduleLine::Drain => None,
    }
}

fn stints_of(alloc: Global, schedule: &Schedule) -> Result<Vec<Stint>, NoMemory>
    ensures { IfOk result (λ stints. stints.items ≡ filter_map spec.stint_of schedule.now) }
{
    let stints = schedule
        .as_slice()
        .iter()
        .filter_map(|line| stint_of(*line))
        .collect(alloc)?;
    Ok(stints)
}

// Whether the set has the bit of this actor.
fn has_bit(set: u64, actor: Actor) -> bool
    ensures { result ≡ spec.has_bit set actor }
{
    set >> actor.number() & 1 == 1
}

// Whether these turns are passed over, if those in the set have ended.
fn is_passed(stint: Stint, ended: u64) -> bool
    ensures { result ≡ spec.is_passed ended stint }
{
    stint.count == 0 || has_bit(ended, stint.actor)
}

// How many of the first stints are passed over.
fn passed(stints: &[Stint], ended: u64) -> usize
    ensures { result ≡ length (take_while (spec.is_passed ended) stints.now) }
{
    stints
        .iter()
        .take_while(|stint| is_passed(**stint, ended))
        .count()
}

// Whether this many turns are all of them.
fn are_all(stint: Stint, made: u64) -> bool
    ensures { IsTrue result ↔ stint.count ≤ made }
{
    made >= u64::from(stint.count)
}

/// What a schedule says to an actor that asks.
#[derive(Clone, Copy)]
enum Answer {
    /// Its turn comes next.
    Goes,
    /// That of another comes first.
    Waits,
    /// The schedule's turns are made, or are not used.
    IsFree,
}

// What the turns that are made say to the actor.
fn answer_to(stint: Option<Stint>, actor: Actor) -> Answer
    ensures { result ≡ spec.answer_to stint actor }
{
    match stint {
        None => Answer::IsFree,
        Some(stint) if stint.actor.number() == actor.number() => Answer::Goes,
        Some(_) => Answer::Waits,
    }
}

/// Admits only the actor whose turn the schedule names, until its turns are made, up to a `drain`. From there, or if no
/// thread was there for an actor, another gate decides. Turns of an actor that has ended are passed over.
#[derive(Drop)]
pub struct Staged<'a, R, G> {
    rt: &'a R,
    gate: &'a G,
    stints: Vec<Stint>,
    meeting: Meeting,
    // The place of the stint that is made.
    at: AtomicU64,
    // How many of its turns were made.
    made: AtomicU64,
    // A bit for each actor that has ended.
    ended: AtomicU64,
}

impl<'a, R: Wait, G: Gate> Staged<'a, R, G> {
    pub fn new(
        rt: &'a R,
        alloc: Global,
        schedule: &Schedule,
        gate: &'a G,
    ) -> Result<Staged<'a, R, G>, NoMemory>
        ensures { IfOk result (λ s. s.stints.items ≡ filter_map spec.stint_of schedule.now) }
    {
        Ok(Staged {
            rt,
            gate,
            stints: stints_of(alloc, schedule)?,
            meeting: Meeting::new(),
            at: AtomicU64::new(0),
            made: AtomicU64::new(0),
            ended: AtomicU64::new(0),
        })
    }

    // The stint in this place, if the schedule decides and is not used up.
    fn stint(&self, at: u64) -> Option<Stint> {
        if self.meeting.was_missed() {
            return None;
        }
        self.stints.get(at as usize).copied()
    }

    // The place of the next stint of an actor that has not ended.
    fn after(&self, at: u64) -> u64 {
        let left = self.stints.get(at as usize..).unwrap_or(&[]);
        let ended = self.ended.load(Ordering::SeqCst);
        at.saturating_add(passed(left, ended) as u64)
    }

    // Goes on to the next stint, and calls all who wait for it.
    fn go_on(&self, at: u64) {
        self.made.store(0, Ordering::SeqCst);
        self.at
            .store(self.after(at.saturating_add(1)), Ordering::SeqCst);
        self.at.wake_all();
    }
}

impl<R: Wait, G: Gate> Gate for Staged<'_, R, G> {
    fn begins(&self, actors: u64) {
        self.gate.begins(actors);
        self.meeting.begin(actors);
        self.ended.store(0, Ordering::SeqCst);
        self.made.store(0, Ordering::SeqCst);
        self.at.store(self.after(0), Ordering::SeqCst);
    }

    fn admits(&self, actor: Actor, added: u64, first: &Snapshot<Pass>, pass: &Pass) -> bool {
        if !self.meeting.has(1 << actor.number()) {
            self.meeting.attend(self.rt, 1 << actor.number());
        }
        for _ in self.rt.forever() {
            let at = self.at.load(Ordering::SeqCst);
            match answer_to(self.stint(at), actor) {
                Answer::IsFree => break,
                Answer::Goes => return true,
                Answer::Waits => self.at.park(self.rt, (at % (1 << 32)) as u32),
            }
        }
        self.gate.admits(actor, added, first, pass)
    }

    fn tried(&self, actor: Actor, turn: &Turn) {
        let at = self.at.load(Ordering::SeqCst);
        let Some(stint) = self.stint(at) else {
            return self.gate.tried(actor, turn);
        };
        match turn {
            Turn::Busy => return,
            Turn::Did(Progress::Did(_) | Progress::Waiting(_)) => (),
            Turn::Did(Progress::Idle) | Turn::Stopped(_) | Turn::Halted => {
                self.ended.fetch_or(1 << actor.number(), Ordering::SeqCst);
                self.gate.tried(actor, turn);
            }
        }
        let made = self.made.fetch_add(1, Ordering::SeqCst).saturating_add(1);
        if are_all(stint, made) || has_bit(self.ended.load(Ordering::SeqCst), actor) {
            self.go_on(at);
        }
    }
}
