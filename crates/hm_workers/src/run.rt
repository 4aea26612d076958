// A run of all actors of a value, each in a thread.
ghost use Rattle.std.specs.Prelude.{◌≡◌, ◌+◌, ◌<◌, ◌≤◌, [], length, false, true, None, Some, IfOk};
ghost use Rattle.hm_history.specs.Memory.After.{after};
ghost use Rattle.hm_turns.specs.Looking.{IsLook, all_have_areas};
ghost use Rattle.hm_turns.specs.Sights.{all_shares};
ghost use Rattle.hm_turns.specs.Stepping.{is_halted};
ghost use Rattle.hm_workers.specs.Dealing.{HaveEnded};
ghost use Rattle.hm_workers.specs.Peeking.{ArePeeks, IsPlain, ReachesEnd, last_count};

use crate::dealing::{deal, gather};
use crate::gate::Gate;
use crate::peeked::run_peeked;
use crate::peeks::PeekList;
use crate::watching::{WatchedBytes, peek_last};
use crate::workers::run_actors;
use hm_base::{NoMemory, Proc};
use hm_turns::{Looks, Receipt, Stepped, Turns};
use std::alloc::Global;
use std::sync::Wait;
use std::thread::Threads;

/// Shares the value, runs each actor in a worker of its own until it has no operation left or the value is halted, and
/// gives the value back, with the receipt of its history.
pub fn run_all<R: Threads + Wait + Sync, S: Stepped + Send, G: Gate + Sync>(
    rt: &R,
    alloc: Global,
    stepped: S,
    actors: u32,
    gate: &G,
) -> Result<(S, Receipt), NoMemory>
    requires empty { S.history stepped ≡ [] }
    requires running { S.halt stepped ≡ None }
    requires count { actors ≡ length (S.script stepped).actors }
    requires few { actors < all_shares }
    ensures value { IfOk result (λ r. (S.script r.0 ≡ S.script stepped) × (S.history r.0 ≡ r.1)) }
    ensures legal { IfOk result (λ r. S.legal (S.script stepped) r.1) }
    ensures ended { IfOk result (λ r. HaveEnded S.due (S.script stepped) r.1 (is_halted (S.halt r.0))) }
{
    let (turns, mut whole) = Turns::new(alloc, stepped)?;
    let passes = deal(alloc, &turns, &mut whole, actors)?;
    let passes = run_actors(rt, alloc, &turns, passes, gate)?;
    gather(&turns, &mut whole, passes);
    Ok(turns.close(whole))
}

/// Does what `run_all` does, with a watcher beside the workers, which looks at 1 to 256 bytes of a process. After the
/// work one last copy is taken and checked, and its peek follows, unless its count was recorded. There is no last copy
/// if the value is halted.
pub fn peek_all<R: Threads + Wait + Sync, S: Looks + Send, G: Gate + Sync>(
    rt: &R,
    alloc: Global,
    stepped: S,
    actors: u32,
    gate: &G,
    proc: Proc,
    addr: u64,
    len: u32,
) -> Result<(S, Receipt, PeekList), NoMemory>
    requires empty { S.history stepped ≡ [] }
    requires running { S.halt stepped ≡ None }
    requires count { actors ≡ length (S.script stepped).actors }
    requires few { actors + 1 < all_shares }
    requires bytes { IsLook addr len }
    ensures value { IfOk result (λ r. (S.script r.0 ≡ S.script stepped) × (S.history r.0 ≡ r.1)) }
    ensures legal { IfOk result (λ r. S.legal (S.script stepped) r.1) }
    ensures ended { IfOk result (λ r. HaveEnded S.due (S.script stepped) r.1 (is_halted (S.halt r.0))) }
    // Each peek has the plain bytes after its count, and the counts rise.
    ensures peeks { IfOk result (λ r. ArePeeks proc addr len (IsPlain r.1) r.2) }
    ensures most { IfOk result (λ r. length r.2 ≤ 1001) }
    // The last peek is of the whole history, if a look at its end finds the bytes.
    ensures last { IfOk result (λ r. is_halted (S.halt r.0) ≡ false → ReachesEnd proc addr len r.1 r.2) }
    // It is only where they have areas then.
    ensures areas { IfOk result
        (λ r. last_count r.2 ≡ Some (length r.1) → all_have_areas (after r.1).plain proc addr len ≡ true) }
{
    let asked = WatchedBytes { proc, addr, len };
    let (turns, mut whole) = Turns::new(alloc, stepped)?;
    let mut watcher = turns.split(&mut whole);
    let passes = deal(alloc, &turns, &mut whole, actors)?;
    let (passes, mut peeks) = run_peeked(
        rt,
        alloc,
        &turns,
        passes,
        &mut watcher,
        gate,
        proc,
        addr,
        len,
    )?;
    gather(&turns, &mut whole, passes);
    turns.join(&mut whole, watcher);
    peek_last(alloc, &turns, &asked, &mut peeks, &mut whole)?;
    let (stepped, receipt) = turns.close(whole);
    Ok((stepped, receipt, peeks))
}
