// The program hmmrun, but for the real streams: its arguments, one call, and what it says and ends with.
ghost use Rattle.std.specs.Prelude.{◌≡◌, map, string_bytes, IfOk, OnErr};
ghost use Rattle.std.specs.Vec.Iter.{into_iter_items};
ghost use Rattle.hm_edge.specs.Exits.{Begins, Exits, arguments};
ghost use Rattle.hm_edge.specs.Traffic.{IsUntouched, traffic};
ghost use Rattle.hm_top.specs.Runs.{Runs, name, usage};

use crate::ended::Ended;
use crate::top::run;
use hm_base::NoMemory;
use hm_edge::{Status, finish, words_after_name};
use hm_io::{Sink, Source};
use hm_workers::Mixing;
use skip_rules::{BoxedRule, Kept, Leans};
use std::alloc::Global;
use std::env::Args;
use std::sync::Wait;
use std::thread::Threads;
use std::{io, mem};

/// The program's name, which its messages begin with.
pub const NAME: &str = "hmmrun";

/// What it says if its words are none of the forms.
pub const USAGE: &str =
    "usage: hmmrun replay | threads | race | generate N | trial N | upgrade | check | \
    peek P ADDR LEN | advise | why";

/// How a call ended that was the last of its process. What it ran is not walked over once more to be given back, since
/// the process ends, and its memory with it.
fn status_of(ended: Ended) -> Status
    ensures { result ≡ ended.status }
{
    let Ended {
        status,
        script,
        history,
        receipt: _,
        peeks: _,
    } = ended;
    mem::forget(script);
    mem::forget(history);
    status
}

/// Makes the call, with the rules that this driver keeps.
fn call<R: Threads + Wait + Sync, S: Source, K: Sink>(
    rt: &R,
    alloc: Global,
    words: Vec<String>,
    source: &mut S,
    sink: &mut K,
    seed: u64,
) -> Result<Status, NoMemory>
    ensures ran { IfOk result (Runs (map string_bytes words.items)
        (traffic S.state K.state source.old source.new sink.old sink.new)) }
    ensures none { OnErr result (IsUntouched (traffic S.state K.state source.old source.new sink.old sink.new)) }
{
    let skips: BoxedRule = Box::new(
        alloc,
        |every: u64, page: u64| every != 0 && page % every == 0,
    )?;
    let leans: BoxedRule = Box::new(alloc, |x: u64, y: u64| x >= 4 && x - 4 >= y)?;
    let (skip, leans) = (Kept::new(skips), Leans::new(leans));
    let gate = Mixing::new(rt, alloc, seed)?;
    let ended = run(rt, alloc, words, source, sink, &gate, &skip, &leans);
    Ok(status_of(ended))
}

/// Makes the call with the words after the program's name, if they are there.
fn begin<R: Threads + Wait + Sync, S: Source, K: Sink>(
    rt: &R,
    alloc: Global,
    args: io::Result<Args>,
    source: &mut S,
    sink: &mut K,
    seed: u64,
) -> Status
    ensures { Begins Runs (arguments (λ x. map string_bytes (into_iter_items x)) args)
        (traffic S.state K.state source.old source.new sink.old sink.new) result }
{
    let words = match words_after_name(alloc, args) {
        Ok(words) => words,
        Err(status) => return status,
    };
    match call(rt, alloc, words, source, sink, seed) {
        Ok(status) => status,
        Err(NoMemory) => Status::NoMemory,
    }
}

/// Does what the arguments ask for, whose first is the program's name, and says on the error stream how it ended if not
/// all was done. Gives the exit code. Threads mix by draws from the seed.
pub fn program<R: Threads + Wait + Sync, S: Source, K: Sink, E: Sink>(
    rt: &R,
    alloc: Global,
    args: io::Result<Args>,
    source: &mut S,
    sink: &mut K,
    errors: &mut E,
    seed: u64,
) -> u8
    ensures { Exits Runs name usage (arguments (λ x. map string_bytes (into_iter_items x)) args)
        (traffic S.state K.state source.old source.new sink.old sink.new) (E.state errors.old) (E.state errors.new)
        result }
{
    let status = begin(rt, alloc, args, source, sink, seed);
    finish(NAME, USAGE, &status, errors)
}
