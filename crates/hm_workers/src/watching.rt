// The watcher: it takes copies of a process's bytes, and records those that are still current.
ghost use Rattle.std.specs.Prelude.{◌≡◌, ◌+◌, ◌≤◌, [], ◌∷◌, ◌++◌, length, IfOk, IfSome, OnOk, OnErr};
ghost use Rattle.hm_turns.specs.Looking.{IsLook};
ghost use Rattle.hm_turns.specs.Sights.{all_shares};
ghost use Rattle.hm_workers.specs.Watching.{Checks, HasKept, HasWatched, IsKept, LastsTo, RightPeeks, peek_of};

use crate::meeting::Meeting;
use crate::peeks::{Peek, PeekList, is_newer};
use hm_base::{Bytes, NoMemory, Proc};
use hm_turns::{Looks, Pass, Stepped, Turns};
use seq_copies::{Snapshot, Taken, still, take_copy};
use std::alloc::Global;
use std::sync::Wait;
use std::sync::atomic::{AtomicBool, AtomicU64, Ordering};
use std::thread;
use std::time::Duration;

/// The most tries of a watcher, each of which takes a copy or checks one.
const MOST_TRIES: u32 = 100_000;

/// The most peeks that it records.
const MOST_PEEKS: u64 = 1_000;

/// So many tries make a pause longer by one look at whether the work has ended.
const TRIES_A_LOOK: u32 = 8;

/// After this many looks a pause lets other threads go first.
const LOOKS_A_YIELD: u32 = 4096;

/// After this many pauses with no new peek the watcher sleeps, since the actors may lack its processor.
const PAUSES_A_SLEEP: u64 = 16;

/// How many microseconds it sleeps. The system makes them about fifty more.
const SLEEP: u64 = 1;

/// Bytes of a process: the address of the first, and how many.
#[derive(Clone, Copy)]
pub(crate) struct WatchedBytes {
    pub(crate) proc: Proc,
    pub(crate) addr: u64,
    pub(crate) len: u32,
}

/// What the watcher and those who run the actors tell each other.
#[derive(Drop)]
pub(crate) struct Signs {
    /// They wait for one another before they begin: 1 is the watcher's bit, 2 the others'.
    pub(crate) meeting: Meeting,
    /// All actors have ended.
    pub(crate) ended: AtomicBool,
    /// How many tries the watcher has made.
    pub(crate) tries: AtomicU64,
    // What the watcher sleeps on: 1 if all actors have ended.
    bell: AtomicU64,
    // How many peeks there were at the last pause.
    seen: AtomicU64,
    // How many pauses there were since there was a new one.
    still: AtomicU64,
}

impl Signs {
    pub(crate) fn new() -> Signs {
        let meeting = Meeting::new();
        meeting.begin(2);
        Signs {
            meeting,
            ended: AtomicBool::new(false),
            tries: AtomicU64::new(0),
            bell: AtomicU64::new(0),
            seen: AtomicU64::new(0),
            still: AtomicU64::new(0),
        }
    }

    /// Tells the watcher that all actors have ended.
    pub(crate) fn end(&self) {
        self.ended.store(true, Ordering::SeqCst);
        self.bell.store(1, Ordering::SeqCst);
        self.bell.wake_all();
    }

    // Counts a pause, after which there are this many peeks. Says whether the watcher is to sleep.
    fn is_to_sleep(&self, peeks: u64) -> bool {
        if self.seen.swap(peeks, Ordering::SeqCst) != peeks {
            self.still.store(0, Ordering::SeqCst);
        }
        let still = self.still.fetch_add(1, Ordering::SeqCst);
        if still >= PAUSES_A_SLEEP {
            self.still.store(0, Ordering::SeqCst);
        }
        still >= PAUSES_A_SLEEP
    }
}

/// What the check of a copy comes to.
#[derive(Clone, Copy)]
pub(crate) enum Checked {
    /// It holds, and a peek was recorded.
    New,
    /// It holds, and a peek has the count already.
    Same,
    /// It does not hold.
    Stale,
}

/// What a try leaves.
#[derive(Drop)]
pub(crate) enum Tried {
    /// A copy was taken.
    Copied(Snapshot),
    /// The copy that was there holds.
    Kept(Snapshot),
    /// There is no copy.
    Nothing,
    /// There is none, and the value is halted.
    Halted,
}

// Records that a copy is current after this many entries.
fn record_peek(
    alloc: Global,
    copy: &Snapshot,
    count: u64,
    peeks: &mut PeekList,
) -> Result<(), NoMemory>
    ensures ok { OnOk result (peeks.new ≡ peeks.old ++ peek_of copy.now count ∷ []) }
    ensures err { OnErr result (peeks.new ≡ peeks.old) }
{
    let bytes = Bytes::from_slice(alloc, copy.bytes.as_slice())?;
    peeks.push(Peek {
        proc: copy.proc,
        addr: copy.addr,
        bytes,
        count,
    })
}

/// Checks a copy. Where it holds, and no peek has the count at which it does, a peek follows.
pub(crate) fn check<S: Stepped>(
    alloc: Global,
    turns: &Turns<S>,
    asked: &WatchedBytes,
    copy: &Snapshot,
    peeks: &mut PeekList,
    pass: &mut Pass,
) -> Result<Checked, NoMemory>
    requires own { pass.old.desk ≡ turns.now }
    requires kept { IsKept asked.now pass.old.list copy.now }
    requires peeks { RightPeeks asked.now pass.old peeks.old }
    ensures checks { IfOk result (λ r. Checks pass.old copy.now peeks.old r pass.new peeks.new) }
    ensures kept { IsKept asked.now pass.new.list copy.now }
    ensures peeks { RightPeeks asked.now pass.new peeks.new }
    ensures more { length peeks.new ≤ length peeks.old + 1 }
    ensures pass { HasWatched 1 pass.old pass.new }
{
    let seen = still(turns, pass, copy);
    if !seen.holds {
        return Ok(Checked::Stale);
    }
    if !is_newer(peeks, seen.count) {
        return Ok(Checked::Same);
    }
    record_peek(alloc, copy, seen.count, peeks)?;
    Ok(Checked::New)
}

// Checks the copy that is there.
fn try_copy<S: Stepped>(
    alloc: Global,
    turns: &Turns<S>,
    asked: &WatchedBytes,
    copy: Snapshot,
    peeks: &mut PeekList,
    pass: &mut Pass,
) -> Result<Tried, NoMemory>
    requires own { pass.old.desk ≡ turns.now }
    requires kept { IsKept asked.now pass.old.list copy }
    requires peeks { RightPeeks asked.now pass.old peeks.old }
    ensures kept { IfOk result (λ tried. HasKept asked.now pass.new.list tried) }
    ensures peeks { RightPeeks asked.now pass.new peeks.new }
    ensures more { length peeks.new ≤ length peeks.old + 1 }
    ensures pass { HasWatched 1 pass.old pass.new }
{
    match check(alloc, turns, asked, &copy, peeks, pass)? {
        Checked::New | Checked::Same => Ok(Tried::Kept(copy)),
        Checked::Stale => Ok(Tried::Nothing),
    }
}

// Takes a copy.
fn try_to_take<S: Looks>(
    alloc: Global,
    turns: &Turns<S>,
    asked: &WatchedBytes,
    pass: &mut Pass,
) -> Result<Tried, NoMemory>
    requires own { pass.old.desk ≡ turns.now }
    requires bytes { IsLook asked.now.addr asked.now.len }
    ensures kept { IfOk result (λ tried. HasKept asked.now pass.new.list tried) }
    ensures pass { HasWatched 1 pass.old pass.new }
{
    match take_copy(alloc, turns, pass, asked.proc, asked.addr, asked.len)? {
        Taken::Taken(copy) => Ok(Tried::Copied(copy)),
        Taken::Busy => Ok(Tried::Nothing),
        Taken::Halted => Ok(Tried::Halted),
        Taken::Locked(_) => Ok(Tried::Nothing),
        Taken::Unmapped => Ok(Tried::Nothing),
    }
}

// One try.
fn try_once<S: Looks>(
    alloc: Global,
    turns: &Turns<S>,
    asked: &WatchedBytes,
    copy: Option<Snapshot>,
    peeks: &mut PeekList,
    pass: &mut Pass,
) -> Result<Tried, NoMemory>
    requires own { pass.old.desk ≡ turns.now }
    requires bytes { IsLook asked.now.addr asked.now.len }
    requires kept { IfSome copy (λ s. IsKept asked.now pass.old.list s) }
    requires peeks { RightPeeks asked.now pass.old peeks.old }
    ensures kept { IfOk result (λ tried. HasKept asked.now pass.new.list tried) }
    ensures peeks { RightPeeks asked.now pass.new peeks.new }
    ensures more { length peeks.new ≤ length peeks.old + 1 }
    ensures pass { HasWatched 1 pass.old pass.new }
{
    match copy {
        Some(copy) => try_copy(alloc, turns, asked, copy, peeks, pass),
        None => try_to_take(alloc, turns, asked, pass),
    }
}

// Lets the work go on for a while, the longer the more tries were made, so that the tries last.
fn pause<R: Wait>(rt: &R, tries: u32, signs: &Signs, peeks: &PeekList) {
    if signs.is_to_sleep(peeks.len()) {
        signs.bell.park_timeout(rt, 0, Duration::from_micros(SLEEP));
        return;
    }
    for look in 0..tries / TRIES_A_LOOK {
        if signs.ended.load(Ordering::SeqCst) {
            return;
        }
        if look % LOOKS_A_YIELD == LOOKS_A_YIELD - 1 {
            thread::yield_now();
        }
    }
}

/// Takes copies and checks them until it is told that the work has ended, or the value is halted, or there are enough
/// peeks, or enough tries were made. A copy is checked at once, and as long as it holds again. If it waits in vain for
/// those who run the actors, it takes none.
pub(crate) fn watch<R: Wait, S: Looks>(
    rt: &R,
    alloc: Global,
    turns: &Turns<S>,
    asked: &WatchedBytes,
    signs: &Signs,
    pass: &mut Pass,
) -> Result<PeekList, NoMemory>
    requires own { pass.old.desk ≡ turns.now }
    requires bytes { IsLook asked.now.addr asked.now.len }
    ensures peeks { IfOk result (λ peeks. RightPeeks asked.now pass.new peeks) }
    ensures few { IfOk result (λ peeks. length peeks ≤ MOST_PEEKS) }
    ensures pass { HasWatched MOST_TRIES pass.old pass.new }
{
    let mut peeks = PeekList::new(alloc);
    if signs.meeting.attend(rt, 1).is_none() {
        return Ok(peeks);
    }
    let mut copy = None;
    for tries in 0..MOST_TRIES {
        if signs.ended.load(Ordering::SeqCst) || peeks.len() >= MOST_PEEKS {
            return Ok(peeks);
        }
        signs.tries.fetch_add(1, Ordering::SeqCst);
        match try_once(alloc, turns, asked, copy, &mut peeks, pass)? {
            Tried::Copied(taken) => copy = Some(taken),
            Tried::Kept(kept) => {
                copy = Some(kept);
                pause(rt, tries, signs, &peeks);
            }
            Tried::Nothing => {
                copy = None;
                pause(rt, tries, signs, &peeks);
            }
            Tried::Halted => return Ok(peeks),
        }
    }
    Ok(peeks)
}

/// Takes a copy with the pass that has all shares, and checks it, so that the last peek is of the whole history. There
/// is none if the value is halted, if an actor has the process's mmap lock for writing, or if a byte has no
/// area.
pub(crate) fn peek_last<S: Looks>(
    alloc: Global,
    turns: &Turns<S>,
    asked: &WatchedBytes,
    peeks: &mut PeekList,
    whole: &mut Pass,
) -> Result<(), NoMemory>
    requires own { whole.old.desk ≡ turns.now }
    requires shares { whole.old.shares ≡ all_shares }
    requires bytes { IsLook asked.now.addr asked.now.len }
    requires peeks { RightPeeks asked.now whole.old peeks.old }
    ensures peeks { RightPeeks asked.now whole.new peeks.new }
    ensures more { length peeks.new ≤ length peeks.old + 1 }
    ensures last { IfOk result (λ r. LastsTo asked.now whole.new peeks.new) }
    ensures pass { HasWatched 2 whole.old whole.new }
{
    match take_copy(alloc, turns, whole, asked.proc, asked.addr, asked.len)? {
        Taken::Taken(copy) => {
            check(alloc, turns, asked, &copy, peeks, whole)?;
            Ok(())
        }
        Taken::Busy => Ok(()),
        Taken::Halted => Ok(()),
        Taken::Locked(_) => Ok(()),
        Taken::Unmapped => Ok(()),
    }
}
