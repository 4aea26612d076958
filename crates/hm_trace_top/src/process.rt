// The program hmmtrace, but for the real streams: its arguments, one call, and what it says and ends with.
ghost use Rattle.std.specs.Prelude.{map, string_bytes};
ghost use Rattle.std.specs.Vec.Iter.{into_iter_items};
ghost use Rattle.hm_edge.specs.Exits.{arguments};
ghost use Rattle.hm_edge.specs.Traffic.{traffic};
ghost use Rattle.hm_trace_top.specs.Exits.{Begins, Exits};

use crate::call::judge;
use crate::ended::{Ended, finish};
use hm_edge::{Status, words_after_name};
use hm_io::{Sink, Source};
use std::alloc::Global;
use std::env::Args;
use std::io;

/// Makes the call with the words after the program's name, if they are there.
fn begin<S: Source, K: Sink>(
    alloc: Global,
    args: io::Result<Args>,
    source: &mut S,
    sink: &mut K,
) -> Ended
    ensures { Begins (arguments (λ x. map string_bytes (into_iter_items x)) args)
        (traffic S.state K.state source.old source.new sink.old sink.new) result }
{
    match words_after_name(alloc, args) {
        Ok(words) => judge(alloc, words.as_slice(), source, sink),
        Err(Status::NoMemory) => Ended::NoMemory,
        Err(_) => Ended::Usage,
    }
}

/// Does what the arguments ask for, whose first is the program's name, and says on the error stream how it ended if not
/// all was done or a rule is broken. Gives the exit code.
pub fn program<S: Source, K: Sink, E: Sink>(
    alloc: Global,
    args: io::Result<Args>,
    source: &mut S,
    sink: &mut K,
    errors: &mut E,
) -> u8
    ensures { Exits (arguments (λ x. map string_bytes (into_iter_items x)) args)
        (traffic S.state K.state source.old source.new sink.old sink.new) (E.state errors.old) (E.state errors.new)
        result }
{
    let ended = begin(alloc, args, source, sink);
    finish(&ended, errors)
}
