// What turns come to, of scripts that have no schedule.
ghost use Rattle.std.specs.Prelude.{◌≡◌, [], ◌∷◌, None, IfOk};

use hm_base::{
    Actor, ActorLists, DeviceList, NoMemory, Op, OpList, Page, Proc, Rights, Schedule,
    ScheduleLine, Script, Span, Version,
};
use hm_history::{Entry, History, Kind, Why};
use hm_machine::{Machine, Turn};
use hm_script::parse;
use skip_rules::Multiples;
use std::alloc::Global;
use std::process::Abort;

/// Actor 0 stores after a mapping, and actor 1 maps elsewhere in the same process.
const LOCKS: &[u8] =
    b"hmm 1\nframes 4\nactor 0\nmap 0 16 1 rw\nstore 0 0x10000 41\nactor 1\nmap 0 20 1 rw\n";

/// Whether each of three turns of the first actor adds an entry.
fn adds_three(machine: &mut Machine<Multiples>) -> bool {
    for _ in 0..3u64 {
        if machine.step(Actor::new(0)).ok() != Some(Turn::Did) {
            return false;
        }
    }
    true
}

/// Whether the second of two actors then waits for the lock that the first has.
fn has_to_wait(machine: &mut Machine<Multiples>) -> bool {
    let waits = Turn::Waiting(Why::MapLock(Proc::new(0), Actor::new(0)));
    adds_three(machine) && machine.step(Actor::new(1)).ok() == Some(waits)
}

#[test]
fn a_turn_waits_for_a_lock(rt: HostRuntime) {
    let script = parse(rt.alloc(), LOCKS)
        .ok()
        .expect(&rt, "the bytes are a script");
    let actors = script.actors.len();
    let mut machine = Machine::new(rt.alloc(), script, Multiples).expect(&rt, "memory");
    assert!(rt; actors == 2 && has_to_wait(&mut machine));
}

/// A script with one device of four frames, and one actor with nothing to do.
fn one_actor(alloc: Global) -> Result<Script, NoMemory>
    ensures { IfOk result (λ s. s.actors ≡ [] ∷ []) }
{
    let mut devices = DeviceList::new(alloc);
    devices.push(4)?;
    let mut actors = ActorLists::new(alloc);
    actors.push(OpList::new(alloc))?;
    Ok(Script {
        version: Version::Two,
        frames: 4,
        devices,
        skip: 0,
        actors,
        schedule: Schedule::new(alloc),
    })
}

/// Whether there was memory to add a mapping to the script's only actor, which has nothing to do yet.
fn adds_mapping(script: &mut Script) -> bool
    requires { script.old.actors ≡ [] ∷ [] }
{
    let proc = Proc::new(0);
    let span = Span::new(Page::new(16), 1);
    let rights = Rights::ReadWrite;
    script
        .push_op(Actor::new(0), Op::Map { proc, span, rights })
        .is_ok()
}

/// Whether the machine makes turns that stand in no script.
fn replays<R: Abort>(rt: &R, alloc: Global, machine: &mut Machine<Multiples>) -> bool
    requires { machine.old.halted ≡ None }
{
    let mut turns = Schedule::new(alloc);
    turns
        .push(ScheduleLine::Run {
            actor: Actor::new(0),
            count: 99,
        })
        .expect(rt, "memory");
    machine.replay(&turns).is_ok()
}

/// Whether the history has two entries, of which the second is a mapping.
fn is_mapped(history: &History) -> bool {
    let mapped = match history.get(1) {
        Some(
            Entry {
                kind: Kind::Mapped { .. },
                ..
            },
        ) => true,
        _ => false,
    };
    mapped && history.len() == 2
}

#[test]
fn an_operation_is_added_and_replayed(rt: HostRuntime) {
    let alloc = rt.alloc();
    let mut script = one_actor(alloc).expect(&rt, "memory");
    let added = adds_mapping(&mut script);
    let mut machine = Machine::new(alloc, script, Multiples).expect(&rt, "memory");
    let replayed = replays(&rt, alloc, &mut machine);
    let (_script, history) = machine.into_parts();
    assert!(rt; added && replayed && is_mapped(&history));
}
