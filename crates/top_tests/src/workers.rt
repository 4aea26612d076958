// Each test runs the calls of the turn and its workers on the small value.
ghost use Rattle.std.specs.Prelude.{◌≡◌, ◌<◌, ◌≤◌, [], length, None};
ghost use Rattle.hm_toy.specs.Toys.{script_of};
ghost use Rattle.hm_turns.specs.Sights.{all_shares};

use crate::gates::Open;
use hm_base::{Actor, Proc, Schedule, ScheduleLine};
use hm_history::{Entry, Progress, StepError};
use hm_toy::toy::{Toy, script_for};
use hm_turns::{Pass, Stepped, Turn, Turns};
use hm_workers::{Gate, Mixing, Staged, run_all};
use std::alloc::Global;
use std::process::Abort;
use std::snapshot::Snapshot;
use std::sync::Wait;
use std::sync::atomic::{AtomicU64, Ordering};
use std::thread::{self, Threads};

/// How often a gate looks before it gives up.
const LOOKS: u64 = 50_000_000;

/// Lets no actor go on before all have come, so that their workers run at the same time.
#[derive(Drop)]
struct Meeting {
    come: AtomicU64,
    all: u64,
    missed: AtomicU64,
}

impl Gate for Meeting {
    fn admits(&self, actor: Actor, added: u64, _first: &Snapshot<Pass>, _pass: &Pass) -> bool {
        if added > 0 {
            return true;
        }
        self.come.fetch_or(1 << actor.number(), Ordering::SeqCst);
        for _ in 0..LOOKS {
            if self.come.load(Ordering::SeqCst) == self.all {
                return true;
            }
            thread::yield_now();
        }
        self.missed.fetch_or(1, Ordering::SeqCst);
        true
    }
}

/// Makes two actors add in turn: the first is closed out while it has added more than the second, the second while
/// it has not added less.
#[derive(Drop)]
struct InTurn {
    first: AtomicU64,
    second: AtomicU64,
    entries: u64,
    looks: AtomicU64,
}

impl Gate for InTurn {
    fn admits(&self, actor: Actor, added: u64, _first: &Snapshot<Pass>, _pass: &Pass) -> bool {
        let is_first = actor.number() == 0;
        let (own, other) = if is_first {
            (&self.first, &self.second)
        } else {
            (&self.second, &self.first)
        };
        own.store(added, Ordering::SeqCst);
        let theirs = other.load(Ordering::SeqCst);
        let may = if is_first {
            added <= theirs
        } else {
            added < theirs
        };
        may || added >= self.entries || self.looks.fetch_add(1, Ordering::SeqCst) >= LOOKS
    }
}

/// What a turn came to.
#[derive(Clone, Copy)]
enum Came {
    Busy,
    Entry,
    Wait,
    Idle,
    Short,
    Full,
    Halted,
}

fn came_to(turn: &Turn) -> Came {
    match turn {
        Turn::Busy => Came::Busy,
        Turn::Did(Progress::Did(_)) => Came::Entry,
        Turn::Did(Progress::Waiting(_)) => Came::Wait,
        Turn::Did(Progress::Idle) => Came::Idle,
        Turn::Stopped(StepError::NoMemory) => Came::Short,
        Turn::Stopped(StepError::Full(_)) => Came::Full,
        Turn::Halted => Came::Halted,
    }
}

/// Makes a turn of the actor, and says what it came to.
fn turn_of(turns: &Turns<Toy>, pass: &mut Pass, actor: Actor) -> Came
    requires own { pass.old.desk ≡ turns.now }
    requires actor { actor < length turns.now.script.actors }
    ensures own { pass.new.desk ≡ turns.now }
    ensures shares { pass.new.shares ≡ pass.old.shares }
{
    came_to(&turns.try_turn(pass, actor))
}

/// The value whose actors have so many entries each to add, with room for some.
fn toy_of<R: Abort>(rt: &R, alloc: Global, actors: u32, entries: u32, room: u64) -> Toy
    requires actors { actors ≤ 16 }
    requires entries { entries ≤ 16384 }
    ensures script { result.script ≡ script_of actors entries }
    ensures start { (result.history ≡ []) × (result.halt ≡ None) }
{
    let script = script_for(alloc, actors, entries).expect(rt, "memory");
    Toy::new(alloc, script, room)
}

/// The value after a run of its actors, each from a thread, through this gate.
fn ran<R: Abort + Threads + Wait + Sync, G: Gate + Sync>(
    rt: &R,
    alloc: Global,
    toy: Toy,
    actors: u32,
    gate: &G,
) -> Toy
    requires start { (toy.history ≡ []) × (toy.halt ≡ None) }
    requires count { actors ≡ length toy.script.actors }
    requires few { actors < all_shares }
{
    let (toy, _receipt) = run_all(rt, alloc, toy, actors, gate).expect(rt, "memory");
    toy
}

/// Whether the value has so many entries, and is not halted.
fn is_done(toy: &Toy, entries: u64) -> bool {
    toy.length() == entries && toy.halted().is_none()
}

/// Whether it is halted after so many entries, since there was no room for more.
fn is_short(toy: &Toy, entries: u64) -> bool {
    toy.length() == entries && toy.halted() == Some(StepError::NoMemory)
}

/// Whether the second actor adds an entry, waits until the first has added one, and then both add their second.
fn take_turns(turns: &Turns<Toy>, first: &mut Pass, second: &mut Pass) -> bool
    requires own { (first.old.desk ≡ turns.now) × (second.old.desk ≡ turns.now) }
    requires actors { 1 < length turns.now.script.actors }
    ensures own { (first.new.desk ≡ turns.now) × (second.new.desk ≡ turns.now) }
    ensures shares { (first.new.shares ≡ first.old.shares) × (second.new.shares ≡ second.old.shares) }
{
    let one = turn_of(turns, second, Actor::new(1));
    let wait = turn_of(turns, second, Actor::new(1));
    let two = turn_of(turns, first, Actor::new(0));
    let three = turn_of(turns, second, Actor::new(1));
    let four = turn_of(turns, first, Actor::new(0));
    one == Came::Entry
        && wait == Came::Wait
        && two == Came::Entry
        && three == Came::Entry
        && four == Came::Entry
}

/// Whether four entries are counted, of which the third is the last that touches process 1, and none touches 0.
fn has_marks(turns: &Turns<Toy>, pass: &mut Pass) -> bool
    requires own { pass.old.desk ≡ turns.now }
    ensures own { pass.new.desk ≡ turns.now }
    ensures shares { pass.new.shares ≡ pass.old.shares }
{
    let count = turns.count(pass);
    let touched = turns.mark(pass, Proc::new(1));
    let untouched = turns.mark(pass, Proc::new(0));
    count == 4 && touched == 3 && untouched == 0
}

#[test]
fn turns_of_two_passes(rt: HostRuntime) {
    let toy = toy_of(&rt, rt.alloc(), 2, 2, 4);
    let (turns, mut first) = Turns::new(rt.alloc(), toy).expect(&rt, "memory");
    let mut second = turns.split(&mut first);
    let taken = take_turns(&turns, &mut first, &mut second);
    let marked = has_marks(&turns, &mut first);
    turns.join(&mut first, second);
    let last = turn_of(&turns, &mut first, Actor::new(0));
    let (toy, _receipt) = turns.close(first);
    assert!(rt; taken && marked && last == Came::Idle && is_done(&toy, 4));
}

#[test]
fn a_halt_is_told(rt: HostRuntime) {
    let toy = toy_of(&rt, rt.alloc(), 2, 2, 1);
    let (turns, mut first) = Turns::new(rt.alloc(), toy).expect(&rt, "memory");
    let mut second = turns.split(&mut first);
    let entry = turn_of(&turns, &mut first, Actor::new(0));
    let stopped = turn_of(&turns, &mut first, Actor::new(1));
    let halted = turn_of(&turns, &mut second, Actor::new(0));
    turns.join(&mut first, second);
    let (toy, _receipt) = turns.close(first);
    assert!(rt;
        entry == Came::Entry
            && stopped == Came::Short
            && halted == Came::Halted
            && is_short(&toy, 1)
    );
}

#[test]
fn all_workers_at_once(rt: HostRuntime) {
    let gate = Meeting {
        come: AtomicU64::new(0),
        all: 15,
        missed: AtomicU64::new(0),
    };
    let toy = toy_of(&rt, rt.alloc(), 4, 500, 2_000);
    let toy = ran(&rt, rt.alloc(), toy, 4, &gate);
    assert!(rt; gate.missed.load(Ordering::SeqCst) == 0 && is_done(&toy, 2_000));
}

/// Whether the entries are the two actors' in turn.
fn alternate(entries: &[Entry]) -> bool {
    entries
        .iter()
        .enumerate()
        .all(|(at, entry)| entry.actor.number() as usize == at % 2)
}

#[test]
fn a_closed_gate_holds_workers_apart(rt: HostRuntime) {
    let gate = InTurn {
        first: AtomicU64::new(0),
        second: AtomicU64::new(0),
        entries: 50,
        looks: AtomicU64::new(0),
    };
    let toy = toy_of(&rt, rt.alloc(), 2, 50, 100);
    let toy = ran(&rt, rt.alloc(), toy, 2, &gate);
    assert!(rt;
        gate.looks.load(Ordering::SeqCst) < LOOKS && is_done(&toy, 100) && alternate(toy.entries())
    );
}

#[test]
fn want_of_memory_ends_all_workers(rt: HostRuntime) {
    let toy = toy_of(&rt, rt.alloc(), 3, 500, 700);
    let toy = ran(&rt, rt.alloc(), toy, 3, &Open);
    assert!(rt; is_short(&toy, 700));
}

/// So many turns of an actor.
fn stint(number: u32, count: u32) -> ScheduleLine
    requires { number < 16 }
{
    ScheduleLine::Run {
        actor: Actor::new(number),
        count,
    }
}

/// The schedule of these lines.
fn schedule_of<R: Abort>(rt: &R, alloc: Global, lines: &[ScheduleLine]) -> Schedule {
    let mut schedule = Schedule::new(alloc);
    for line in lines {
        schedule.push(*line).expect(rt, "memory");
    }
    schedule
}

/// Whether the first entries are these actors'.
fn begins_with(entries: &[Entry], actors: &[u32]) -> bool {
    entries.len() >= actors.len()
        && entries
            .iter()
            .zip(actors)
            .all(|(entry, actor)| entry.actor.number() == *actor)
}

#[test]
fn a_schedule_comes_first(rt: HostRuntime) {
    let alloc = rt.alloc();
    // The second turn of actor 1 waits, and adds no entry.
    let lines = [stint(1, 2), stint(0, 2), stint(1, 1), stint(0, 1)];
    let schedule = schedule_of(&rt, alloc, &lines);
    let gate = Staged::new(&rt, alloc, &schedule, &Open).expect(&rt, "memory");
    let toy = toy_of(&rt, alloc, 2, 4, 8);
    let toy = ran(&rt, alloc, toy, 2, &gate);
    assert!(rt; is_done(&toy, 8) && begins_with(toy.entries(), &[1, 0, 0, 1, 0]));
}

#[test]
fn a_schedule_names_who_has_ended(rt: HostRuntime) {
    let alloc = rt.alloc();
    let schedule = schedule_of(&rt, alloc, &[stint(0, 99), stint(1, 1), stint(0, 99)]);
    let mixing = Mixing::new(&rt, alloc, 7).expect(&rt, "memory");
    let gate = Staged::new(&rt, alloc, &schedule, &mixing).expect(&rt, "memory");
    let toy = toy_of(&rt, alloc, 2, 3, 6);
    let toy = ran(&rt, alloc, toy, 2, &gate);
    assert!(rt; is_done(&toy, 6) && begins_with(toy.entries(), &[0, 0, 0, 1, 1, 1]));
}

/// How often the next entry is another actor's.
fn changes(entries: &[Entry]) -> usize {
    entries
        .iter()
        .zip(entries.iter().skip(1))
        .filter(|(first, second)| first.actor.number() != second.actor.number())
        .count()
}

/// Whether all actors end that a gate mixes, and their entries alternate so often at least.
fn are_mixed<R: Abort + Threads + Wait + Sync>(
    rt: &R,
    alloc: Global,
    toy: Toy,
    actors: u32,
    least: usize,
) -> bool
    requires start { (toy.history ≡ []) × (toy.halt ≡ None) }
    requires count { actors ≡ length toy.script.actors }
    requires few { actors < all_shares }
{
    let gate = Mixing::new(rt, alloc, 7).expect(rt, "memory");
    let toy = ran(rt, alloc, toy, actors, &gate);
    is_done(&toy, 500 * u64::from(actors)) && changes(toy.entries()) >= least
}

#[test]
fn a_mixing_gate(rt: HostRuntime) {
    let alloc = rt.alloc();
    let one = are_mixed(&rt, alloc, toy_of(&rt, alloc, 1, 500, 2_000), 1, 0);
    let two = are_mixed(&rt, alloc, toy_of(&rt, alloc, 2, 500, 2_000), 2, 20);
    let four = are_mixed(&rt, alloc, toy_of(&rt, alloc, 4, 500, 2_000), 4, 50);
    assert!(rt; one && two && four);
}

#[test]
fn a_halt_ends_all_that_are_mixed(rt: HostRuntime) {
    let gate = Mixing::new(&rt, rt.alloc(), 7).expect(&rt, "memory");
    let toy = toy_of(&rt, rt.alloc(), 3, 500, 700);
    let toy = ran(&rt, rt.alloc(), toy, 3, &gate);
    assert!(rt; is_short(&toy, 700));
}
