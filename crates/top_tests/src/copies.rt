// A store comes between a copy and its check.
ghost use Rattle.std.specs.Prelude.{◌≡◌, ◌<◌, [], length, None};

use crate::gates::Open;
use crate::meeting::Sign;
use crate::watched::{Counted, Held};
use hm_base::{Actor, NoMemory, Proc};
use hm_machine::Machine;
use hm_script::parse;
use hm_turns::{Looks, Pass, Stepped, Turns};
use hm_workers::{PeekList, peek_all};
use seq_copies::{Snapshot, Taken, still, take_copy};
use skip_rules::Multiples;
use std::alloc::Global;
use std::process::Abort;
use std::sync::Wait;
use std::sync::atomic::{AtomicU64, Ordering};
use std::thread::{Threads, join_mut};

/// Two stores of a byte. The first is the seventh entry, the second the eighth.
const STORES: &[u8] =
    b"hmm 1\nframes 4\nactor 0\nmap 0 16 1 rw\nstore 0 0x10000 41\nstore 0 0x10000 42\n";

/// Twenty stores of a byte. The first is the seventh entry.
const MORE_STORES: &[u8] =
    b"hmm 1\nframes 4\nactor 0\nmap 0 16 1 rw\nstore 0 0x10000 01\nstore 0 0x10000 02\n\
    store 0 0x10000 03\nstore 0 0x10000 04\nstore 0 0x10000 05\nstore 0 0x10000 06\nstore 0 0x10000 07\n\
    store 0 0x10000 08\nstore 0 0x10000 09\nstore 0 0x10000 0a\nstore 0 0x10000 0b\nstore 0 0x10000 0c\n\
    store 0 0x10000 0d\nstore 0 0x10000 0e\nstore 0 0x10000 0f\nstore 0 0x10000 10\nstore 0 0x10000 11\n\
    store 0 0x10000 12\nstore 0 0x10000 13\nstore 0 0x10000 14\n";

/// Makes turns of the first actor.
fn make_turns<S: Stepped>(turns: &Turns<S>, pass: &mut Pass, count: u32)
    requires own { pass.old.desk ≡ turns.now }
    requires actor { 0 < length turns.now.script.actors }
    ensures own { pass.new.desk ≡ turns.now }
    ensures shares { pass.new.shares ≡ pass.old.shares }
{
    for _ in 0..count {
        turns.try_turn(pass, Actor::new(0));
    }
}

/// What a watcher sees of a copy when it is checked.
#[derive(Clone, Copy)]
enum Seen {
    /// There was no copy, or no sign in time.
    Nothing,
    /// A copy of this byte holds.
    Holds(u8),
    /// A copy of this byte does not hold.
    IsStale(u8),
}

/// The byte that the copy has.
fn byte_of(copy: &Snapshot) -> u8 {
    copy.bytes.as_slice().first().copied().unwrap_or(0)
}

/// What it sees of a copy that has this byte, if it sees the sign in time and the copy holds.
fn seen_of(in_time: bool, holds: bool, byte: u8) -> Seen {
    match (in_time, holds) {
        (false, _) => Seen::Nothing,
        (true, true) => Seen::Holds(byte),
        (true, false) => Seen::IsStale(byte),
    }
}

/// Takes a copy, signs, waits for the sign that the memory may have changed, and checks the copy.
fn watch<S: Looks>(
    alloc: Global,
    turns: &Turns<S>,
    pass: &mut Pass,
    copied: &Sign,
    changed: &Sign,
) -> Seen
    requires own { pass.old.desk ≡ turns.now }
    ensures own { pass.new.desk ≡ turns.now }
{
    let Ok(Taken::Taken(copy)) = take_copy(alloc, turns, pass, Proc::new(0), 0x10000, 1) else {
        return Seen::Nothing;
    };
    copied.show();
    let in_time = changed.is_seen();
    let holds = still(turns, pass, &copy).holds;
    seen_of(in_time, holds, byte_of(&copy))
}

/// Waits for the sign of a copy, makes one turn, and signs.
fn store<S: Stepped>(turns: &Turns<S>, pass: &mut Pass, copied: &Sign, changed: &Sign) -> bool
    requires own { pass.old.desk ≡ turns.now }
    requires actor { 0 < length turns.now.script.actors }
    ensures own { pass.new.desk ≡ turns.now }
{
    let was_copied = copied.is_seen();
    make_turns(turns, pass, 1);
    changed.show();
    was_copied
}

/// What a watcher sees of two copies.
#[derive(Clone, Copy)]
struct Looked {
    /// Of the first, which another thread's turn comes after.
    first: Seen,
    /// Of the second, which nothing comes after.
    second: Seen,
    was_copied: bool,
}

/// Makes some turns. Then one thread takes a copy, another makes a turn, and the first checks its copy. At last it
/// takes another and checks that.
fn meet<R: Threads + Wait + Sync, S: Stepped + Looks + Send>(
    rt: &R,
    alloc: Global,
    stepped: S,
    count: u32,
) -> Result<Looked, NoMemory>
    requires empty { S.history stepped ≡ [] }
    requires running { S.halt stepped ≡ None }
    requires actor { 0 < length (S.script stepped).actors }
{
    let (turns, mut pass) = Turns::new(alloc, stepped)?;
    make_turns(&turns, &mut pass, count);
    let mut watcher = turns.split(&mut pass);
    let (copied, changed) = (Sign::new(), Sign::new());
    let (first, was_copied) = join_mut(
        rt,
        &mut || watch(alloc, &turns, &mut watcher, &copied, &changed),
        &mut || store(&turns, &mut pass, &copied, &changed),
    );
    let second = watch(alloc, &turns, &mut watcher, &copied, &changed);
    Ok(Looked {
        first,
        second,
        was_copied,
    })
}

/// The machine of a script with one actor.
fn machine<R: Abort>(rt: &R, alloc: Global, text: &[u8]) -> Machine<Multiples>
    ensures { (result.history ≡ []) × (result.halted ≡ None) × (length result.script.actors ≡ 1) }
{
    let script = parse(alloc, text).ok().expect(rt, "the bytes are a script");
    assert!(rt; script.actors.len() == 1);
    Machine::new(alloc, script, Multiples).expect(rt, "memory")
}

#[test]
fn a_store_between_copy_and_check(rt: HostRuntime) {
    let looked = meet(&rt, rt.alloc(), machine(&rt, rt.alloc(), STORES), 7).expect(&rt, "memory");
    assert!(rt;
        looked.was_copied
            && matches!(looked.first, Seen::IsStale(0x41))
            && matches!(looked.second, Seen::Holds(0x42))
    );
}

#[test]
fn no_store_between_copy_and_check(rt: HostRuntime) {
    let looked = meet(&rt, rt.alloc(), machine(&rt, rt.alloc(), STORES), 8).expect(&rt, "memory");
    assert!(rt;
        looked.was_copied
            && matches!(looked.first, Seen::Holds(0x42))
            && matches!(looked.second, Seen::Holds(0x42))
    );
}

/// Whether the last peek was after so many entries, and there is one before it. The watcher looks after each store, and
/// drops what it sees only if the next store comes between a look and its check.
fn end_at(peeks: &PeekList, count: u64) -> bool {
    let last = peeks.get(peeks.len().saturating_sub(1));
    last.is_some_and(|peek| peek.count == count) && peeks.len() > 1
}

#[test]
fn a_watcher_looks_after_each_store(rt: HostRuntime) {
    let looks = AtomicU64::new(0);
    let gate = Held::new(7, &looks);
    let inner = machine(&rt, rt.alloc(), MORE_STORES);
    let counted = Counted {
        inner,
        looks: &looks,
    };
    let proc = Proc::new(0);
    let (counted, _receipt, peeks) = peek_all(
        &rt,
        rt.alloc(),
        counted,
        1,
        &gate,
        proc,
        0x10000,
        1,
    ).expect(&rt, "memory");
    assert!(rt; gate.missed() == 0 && counted.length() == 26 && end_at(&peeks, 26));
}

/// Half of the tries that a watcher makes at most.
const HALF_OF_THE_TRIES: u64 = 50_000;

/// Whether a watcher that finds nothing to copy, and so looks at each try at which the turn is free, ends before it has
/// made half of its tries.
fn ends_with_the_actors<R: Abort + Threads + Wait + Sync>(rt: &R, alloc: Global) -> bool {
    let looks = AtomicU64::new(0);
    let inner = machine(rt, alloc, STORES);
    let counted = Counted {
        inner,
        looks: &looks,
    };
    let proc = Proc::new(0);
    let (counted, _receipt, peeks) = peek_all(
        rt, alloc, counted, 1, &Open, proc, 0x50000, 1,
    ).expect(rt, "memory");
    counted.length() == 8 && peeks.len() == 0 && looks.load(Ordering::SeqCst) < HALF_OF_THE_TRIES
}

#[test]
fn a_watcher_ends_with_the_actors(rt: HostRuntime) {
    // So many tries last for tenths of a second. It makes them only if the actor's thread does not run in that time.
    let alloc = rt.alloc();
    assert!(rt;
        ends_with_the_actors(&rt, alloc)
            || ends_with_the_actors(&rt, alloc)
            || ends_with_the_actors(&rt, alloc)
    );
}
