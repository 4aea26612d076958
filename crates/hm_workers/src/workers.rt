// The workers, one for each actor.
ghost use Rattle.std.specs.Prelude.{◌≡◌, ℕ, ◌<◌, ◌≤◌, length, vec_len, slice_index_or, IfOk};
ghost use Rattle.hm_turns.specs.Sights.{Sight};
ghost use Rattle.hm_workers.specs.Working as spec;
ghost use Rattle.hm_workers.specs.Working.{Works, Tries, IsTried, IsAdded, AllWork, AreOf, numbered, IsJobOf, DoesJob};
ghost use Rattle.hm_workers.specs.declared.workers.Job.{Job};

use crate::gate::Gate;
use crate::passes::Passes;
use hm_base::{Actor, NoMemory};
use hm_history::Progress;
use hm_turns::{Pass, Stepped, Turn, Turns};
use std::alloc::{AllocError, Global};
use std::snapshot::Snapshot;
use std::sync::Wait;
use std::thread;
use std::thread::Threads;

// What comes after a try.
#[derive(Drop)]
enum AfterTry {
    // An entry was added.
    Added,
    // Nothing was, and there is more to do.
    Again,
    // The actor has no operation left, or a halt was told.
    Done,
}

// What a turn's answer leads to.
fn next_of(turn: Turn) -> AfterTry
    ensures { result ≡ spec.next_of turn }
{
    match turn {
        Turn::Did(Progress::Did(_)) => AfterTry::Added,
        Turn::Did(Progress::Waiting(_)) => AfterTry::Again,
        Turn::Did(Progress::Idle) => AfterTry::Done,
        Turn::Busy => AfterTry::Again,
        Turn::Stopped(_) => AfterTry::Done,
        Turn::Halted => AfterTry::Done,
    }
}

// One try, if the gate admits it. The gate is told how many entries were added with the pass since it was the first.
fn try_once<S: Stepped, G: Gate>(
    turns: &Turns<S>,
    first: &Snapshot<Pass>,
    pass: &mut Pass,
    worker: (Actor, u64),
    gate: &G,
) -> AfterTry
    requires own { pass.old.desk ≡ turns.now }
    requires actor { worker.0 < length turns.now.script.actors }
    requires told { IsAdded first.now.value pass.old worker.1 }
    ensures tried { IsTried S.legal S.due worker.0 pass.old result pass.new }
    ensures tries { Tries S.due worker.0 pass.old result pass.new }
{
    let (actor, added) = worker;
    if gate.admits(actor, added, first, pass) {
        let turn = turns.try_turn(pass, actor);
        gate.tried(actor, &turn);
        next_of(turn)
    } else {
        thread::yield_now();
        AfterTry::Again
    }
}

// Makes turns of the actor until it has no operation left or a halt is told.
fn work<R: Wait, S: Stepped, G: Gate>(
    rt: &R,
    turns: &Turns<S>,
    mut pass: Pass,
    actor: Actor,
    gate: &G,
) -> Pass
    requires own { pass.desk ≡ turns.now }
    requires actor { actor < length turns.now.script.actors }
    ensures { Works S.due actor pass result }
{
    let first = Snapshot::of(&pass);
    let mut added = 0u64;
    for _ in rt.forever() {
        match try_once(turns, &first, &mut pass, (actor, added), gate) {
            AfterTry::Added => added = added.saturating_add(1),
            AfterTry::Again => (),
            AfterTry::Done => return pass,
        }
    }
    unreachable!()
}

// A pass with its actor.
#[derive(Drop)]
struct Job {
    actor: Actor,
    pass: Pass,
}

fn jobs_of(alloc: Global, passes: Vec<Pass>) -> Result<Vec<Job>, NoMemory>
    requires { vec_len passes ≤ 16 }
    ensures { IfOk result (λ jobs. jobs.items ≡ numbered 0 passes.items) }
{
    let mut jobs = Vec::new(alloc);
    let mut next = 0;
    for pass in passes {
        let actor = Actor::new(next);
        if jobs.push(Job { actor, pass }).is_err() {
            return Err(NoMemory);
        }
        next += 1;
    }
    Ok(jobs)
}

// Does each job in a thread of its own; where none can be started the calling thread does the work.
fn run_jobs<R: Threads + Wait + Sync, S: Stepped + Send, G: Gate + Sync>(
    rt: &R,
    turns: &Turns<S>,
    jobs: Vec<Job>,
    gate: &G,
) -> Result<Vec<Pass>, AllocError>
    requires { (i : ℕ) (j : Job) → i < length jobs.items → j ≡ slice_index_or jobs.items i j → IsJobOf turns.now j }
    ensures len { IfOk result (λ done. length done.items ≡ length jobs.items) }
    ensures each { IfOk result
        (λ done. (i : ℕ) (p : Sight) (j : Job) → i < length jobs.items
        → DoesJob S.due (slice_index_or jobs.items i j) (slice_index_or done.items i p)) }
{
    let worker = |job: Job| -> Pass
        requires { IsJobOf turns.now job }
        ensures { DoesJob S.due job result }
    {
        let Job { actor, pass } = job;
        work(rt, turns, pass, actor, gate)
    };
    match thread::map_vec(rt, jobs, &worker) {
        Ok(done) => Ok(done),
        Err(failed) => Err(failed),
    }
}

/// Runs each actor in a worker of its own, with the pass in its place, until the actor has no operation left or its
/// pass is told of a halt. A worker that finds the turn held, its actor waiting or the gate closed tries again. At
/// an `Err` the passes are gone, and the value stays where it is.
pub fn run_actors<R: Threads + Wait + Sync, S: Stepped + Send, G: Gate + Sync>(
    rt: &R,
    alloc: Global,
    turns: &Turns<S>,
    passes: Passes,
    gate: &G,
) -> Result<Passes, NoMemory>
    requires own { AreOf turns.now passes }
    requires count { length passes ≡ length turns.now.script.actors }
    ensures { IfOk result (λ done. AllWork S.due passes done) }
{
    turns.facts();
    let Passes { items } = passes;
    gate.begins(items.len() as u64);
    let jobs = jobs_of(alloc, items)?;
    match run_jobs(rt, turns, jobs, gate) {
        Ok(items) => Ok(Passes { items }),
        Err(_) => Err(NoMemory),
    }
}
