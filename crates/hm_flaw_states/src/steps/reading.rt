// What a device reads.
ghost use Rattle.std.specs.Prelude.{◌≡◌, IfOk};
ghost use Rattle.hm_history.specs.declared.Kind as kinds;
ghost use Rattle.hm_history.specs.declared.phases.Next as next;
ghost use Rattle.hm_flaws.specs.Flawed.{as_read, read_through};

use crate::steps::Finds;
use hm_base::{Bytes, NoMemory};
use hm_flaws::Flaw;
use hm_history::phases::Next;
use hm_history::{Kind, Who};
use std::alloc::Global;

// The bytes of a load: those of a mirror are what the device reads.
fn loaded<W: Finds>(
    found: &W,
    alloc: Global,
    who: Who,
    addr: u64,
    bytes: Bytes,
) -> Result<Bytes, NoMemory>
    ensures { IfOk result (λ read.
        read_through (W.driver found.now) (next.Next.Do (kinds.Kind.Loaded who addr bytes))
        ≡ next.Next.Do (kinds.Kind.Loaded who addr read)) }
{
    match who {
        Who::Cpu(_) => Ok(bytes),
        Who::Mirror(mirror) => Ok(found.device_bytes(alloc, mirror, addr, bytes.len())?),
    }
}

// An entry with what the device reads.
fn read_kind<W: Finds>(found: &W, alloc: Global, kind: Kind) -> Result<Kind, NoMemory>
    ensures { IfOk result (λ k. read_through (W.driver found.now) (next.Next.Do kind) ≡ next.Next.Do k) }
{
    match kind {
        Kind::Loaded { who, addr, bytes } => Ok(Kind::Loaded {
            who,
            addr,
            bytes: loaded(found, alloc, who, addr, bytes)?,
        }),
        Kind::Fetched {
            mirror,
            addr,
            bytes: _,
        } => Ok(Kind::Fetched {
            mirror,
            addr,
            bytes: found.device_bytes(alloc, mirror, addr, 1)?,
        }),
        other => Ok(other),
    }
}

// An answer to a device with the bytes of the driver's own table entries.
fn read_through<W: Finds>(found: &W, alloc: Global, next: Next) -> Result<Next, NoMemory>
    ensures { IfOk result (λ n. n ≡ read_through (W.driver found.now) next) }
{
    match next {
        Next::Do(kind) => Ok(Next::Do(read_kind(found, alloc, kind)?)),
        Next::Wait(why) => Ok(Next::Wait(why)),
    }
}

/// What is due, with the bytes that are read; with the right driver they are the plain bytes.
pub(crate) fn as_read<W: Finds>(
    found: &W,
    alloc: Global,
    flaw: Flaw,
    next: Next,
) -> Result<Next, NoMemory>
    ensures { IfOk result (λ n. n ≡ as_read flaw (W.driver found.now) next) }
{
    match flaw {
        Flaw::NoFlaw => Ok(next),
        _ => read_through(found, alloc, next),
    }
}
