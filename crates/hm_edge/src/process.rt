// A program, but for the real streams: its arguments, one call, and what it says and ends with.
ghost use Rattle.std.specs.Prelude.{ℕ, List, map, string_bytes};
ghost use Rattle.std.specs.Vec.Iter.{into_iter_items};
ghost use Rattle.hm_edge.specs.Exits.{Begins, Exits, arguments};
ghost use Rattle.hm_edge.specs.Traffic.{Traffic, traffic};

use crate::ending::finish;
use crate::status::Status;
use crate::words::words_after_name;
use hm_io::{Sink, Source};
use std::alloc::Global;
use std::env::Args;
use std::io;

/// What a program does with the words after its name, a source and a sink. It waits for nobody.
pub trait Call {
    ghost use Rattle.hm_edge.specs.declared.status.Status.{Status as AnyStatus};

    /// What the words ask for was done with these streams, and the call ended so.
    ghost Runs: { List (List ℕ) → Traffic → AnyStatus → Type 0 };

    /// Does what the words ask for.
    fn call<S: Source, K: Sink>(
        &self,
        alloc: Global,
        words: &[String],
        source: &mut S,
        sink: &mut K,
    ) -> Status
        ensures { Runs (map string_bytes words.now)
            (traffic S.state K.state source.old source.new sink.old sink.new) result };
}

/// Makes the call with the words after the program's name, if they are there.
fn begin<C: Call, S: Source, K: Sink>(
    alloc: Global,
    args: io::Result<Args>,
    call: &C,
    source: &mut S,
    sink: &mut K,
) -> Status
    ensures { Begins C.Runs (arguments (λ x. map string_bytes (into_iter_items x)) args)
        (traffic S.state K.state source.old source.new sink.old sink.new) result }
{
    match words_after_name(alloc, args) {
        Ok(words) => call.call(alloc, words.as_slice(), source, sink),
        Err(status) => status,
    }
}

/// Does what the arguments ask for, whose first is the program's name, and says on the error stream how it ended if not
/// all was done. Gives the exit code. `name` is what its messages begin with, and `usage` what it says if its words are
/// none of the forms.
pub fn program<C: Call, S: Source, K: Sink, E: Sink>(
    alloc: Global,
    args: io::Result<Args>,
    call: &C,
    name: &str,
    usage: &str,
    source: &mut S,
    sink: &mut K,
    errors: &mut E,
) -> u8
    ensures { Exits C.Runs name.now usage.now (arguments (λ x. map string_bytes (into_iter_items x)) args)
        (traffic S.state K.state source.old source.new sink.old sink.new) (E.state errors.old) (E.state errors.new)
        result }
{
    let status = begin(alloc, args, call, source, sink);
    finish(name, usage, &status, errors)
}
