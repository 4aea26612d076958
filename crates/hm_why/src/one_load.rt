// The sources of the bytes of one load.
ghost use Rattle.std.specs.Prelude.{◌≡◌, ℕ, ◌+◌, ◌≤◌, ◌^◌, length, map, Some, IfOk};
ghost use Rattle.hm_history.specs.Memory.Words.{numbers};
ghost use Rattle.hm_why.specs.Laws.{IsLegal};
ghost use Rattle.hm_why.specs.Writers.{source_in, IsSized};
ghost use Rattle.hm_why.specs.Follows.{Follows};
ghost use Rattle.hm_why.specs.Loads.{IsLoadAt, AreSources, AllFound};

use crate::laws::{loads_have_sources, loads_lie_in_a_page};
use crate::writers::Writers;
use hm_base::{ListOf, NoMemory, Proc};
use hm_history::{Entry, History, Kind};
use std::alloc::Global;

/// Positions of entries, one for each byte of a load.
pub type Sources = ListOf<u64>;

/// What is kept of the entries before a position.
fn follow(alloc: Global, entries: &[Entry], before: usize) -> Result<Writers, NoMemory>
    requires { before ≤ length entries.now }
    ensures { IfOk result (λ writers. Follows writers entries.now before) }
{
    let mut writers = Writers::new(alloc)?;
    for at in 0..before {
        writers.note(at as u64, &entries[at].kind)?;
    }
    Ok(writers)
}

/// The sources of this many bytes of a process, in their order.
fn sources_from(
    alloc: Global,
    writers: &Writers,
    proc: Proc,
    addr: u64,
    len: u64,
) -> Result<Sources, NoMemory>
    requires sized { IsSized writers.now }
    requires low { addr + len ≤ 2 ^ 48 }
    requires found { AllFound (source_in writers.now proc) addr len }
    ensures { IfOk result (λ found.
        map (λ (j : ℕ). Some j) found ≡ map (source_in writers.now proc) (numbers addr len)) }
{
    let mut found = Sources::new(alloc);
    for byte in addr..addr + len {
        match writers.source(proc, byte) {
            Some(at) => found.push(at)?,
            None => unreachable!(),
        }
    }
    Ok(found)
}

/// Where each byte of the load at this position came from: the position of the entry that gave it its value. It is a
/// store, an addition or a mapping, in the process itself or, before a fork, in its parent. One pass over the entries
/// before the load.
pub fn sources(alloc: Global, history: &History, at: u64) -> Result<Sources, NoMemory>
    requires legal { IsLegal history.now.entries }
    requires load { IsLoadAt history.now.entries at }
    ensures { IfOk result (AreSources history.now.entries at) }
{
    loads_have_sources();
    loads_lie_in_a_page();
    let entries = history.as_slice();
    let writers = follow(alloc, entries, at as usize)?;
    match &entries[at as usize].kind {
        Kind::Loaded { who, addr, bytes } => {
            let proc = writers.process(*who);
            sources_from(alloc, &writers, proc, *addr, bytes.len())
        }
        _ => unreachable!(),
    }
}
