// The workers, with a watcher beside them.
ghost use Rattle.std.specs.Prelude.{◌≡◌, ◌≤◌, length, IfOk, MatchOption};
ghost use Rattle.hm_turns.specs.Looking.{IsLook};
ghost use Rattle.hm_workers.specs.Working.{AllWork, AreOf};
ghost use Rattle.hm_workers.specs.Peeking.{ArePeeks, IsRight};
ghost use Rattle.hm_workers.specs.Watching.{HasWatched};

use crate::gate::Gate;
use crate::glances::Watched;
use crate::passes::Passes;
use crate::peeks::PeekList;
use crate::watching::{Signs, WatchedBytes, watch};
use crate::workers::run_actors;
use hm_base::{NoMemory, Proc};
use hm_turns::{Looks, Pass, Stepped, Turns};
use std::alloc::Global;
use std::sync::Wait;
use std::thread::{Threads, join_mut};

// Runs the actors once the watcher is there, and tells when all have ended.
fn run_and_tell<R: Threads + Wait + Sync, S: Stepped + Send, G: Gate + Sync>(
    rt: &R,
    alloc: Global,
    turns: &Turns<S>,
    passes: &mut Option<Passes>,
    gate: &G,
    signs: &Signs,
) -> Result<Passes, NoMemory>
    requires { MatchOption passes.old ⊥
        (λ ps. AreOf turns.now ps × (length ps ≡ length turns.now.script.actors)) }
    ensures { IfOk result (λ done. MatchOption passes.old ⊥ (λ ps. AllWork S.due ps done)) }
{
    let Some(passes) = passes.take() else {
        unreachable!();
    };
    signs.meeting.attend(rt, 2);
    let done = run_actors(rt, alloc, turns, passes, &Watched::new(gate, signs));
    signs.end();
    done
}

/// Runs each actor as `run_actors` does, and a watcher beside them, which looks at 1 to 256 bytes of a process with a
/// pass of its own. It makes at most 100,000 tries, each of which takes a copy or checks one, and records at most 1,000
/// peeks. It ends when the actors have.
pub fn run_peeked<R: Threads + Wait + Sync, S: Stepped + Looks + Send, G: Gate + Sync>(
    rt: &R,
    alloc: Global,
    turns: &Turns<S>,
    passes: Passes,
    watcher: &mut Pass,
    gate: &G,
    proc: Proc,
    addr: u64,
    len: u32,
) -> Result<(Passes, PeekList), NoMemory>
    requires own { AreOf turns.now passes × (watcher.old.desk ≡ turns.now) }
    requires count { length passes ≡ length turns.now.script.actors }
    requires bytes { IsLook addr len }
    ensures work { IfOk result (λ r. AllWork S.due passes r.0) }
    ensures peeks { IfOk result (λ r. ArePeeks proc addr len (IsRight watcher.new) r.1) }
    ensures few { IfOk result (λ r. length r.1 ≤ 1000) }
    ensures watcher { HasWatched 100000 watcher.old watcher.new }
{
    let asked = WatchedBytes { proc, addr, len };
    let signs = Signs::new();
    let mut waiting = Some(passes);
    let (peeks, done) = join_mut(
        rt,
        &mut || watch(rt, alloc, turns, &asked, &signs, watcher),
        &mut ||
            requires { MatchOption waiting ⊥
                (λ ps. AreOf turns.now ps × (length ps ≡ length turns.now.script.actors)) }
        { run_and_tell(rt, alloc, turns, &mut waiting, gate, &signs) },
    );
    Ok((done?, peeks?))
}
