// The program hmmevents, but for the real streams: its arguments, one call, and what it says and ends with.
ghost use Rattle.std.specs.Prelude.{map, string_bytes};
ghost use Rattle.std.specs.Vec.Iter.{into_iter_items};
ghost use Rattle.hm_edge.specs.Exits.{Exits, arguments};
ghost use Rattle.hm_edge.specs.Traffic.{traffic};
ghost use Rattle.hm_projection.specs.Runs.{Runs, name, usage};

use crate::call::write_trace_of;
use hm_edge::{Call, Status};
use hm_io::{Sink, Source};
use std::alloc::Global;
use std::env::Args;
use std::io;

/// The program's name, which its messages begin with.
pub const NAME: &str = "hmmevents";

/// What it says if there are words.
pub const USAGE: &str = "usage: hmmevents";

/// Reads a report from the source, and writes the trace of its history to the sink, if there are no words.
fn tell<S: Source, K: Sink>(alloc: Global, words: &[String], source: &mut S, sink: &mut K) -> Status
    ensures { Runs (map string_bytes words.now)
        (traffic S.state K.state source.old source.new sink.old sink.new) result }
{
    match words {
        [] => write_trace_of(alloc, source, sink),
        _ => Status::Usage,
    }
}

/// The call of hmmevents.
struct Telling;

impl Call for Telling {
    ghost Runs = { Runs };

    fn call<S: Source, K: Sink>(
        &self,
        alloc: Global,
        words: &[String],
        source: &mut S,
        sink: &mut K,
    ) -> Status {
        tell(alloc, words, source, sink)
    }
}

/// Does what the arguments ask for, whose first is the program's name, and says on the error stream how it ended if not
/// all was done. Gives the exit code.
pub fn program<S: Source, K: Sink, E: Sink>(
    alloc: Global,
    args: io::Result<Args>,
    source: &mut S,
    sink: &mut K,
    errors: &mut E,
) -> u8
    ensures { Exits Runs name usage (arguments (λ x. map string_bytes (into_iter_items x)) args)
        (traffic S.state K.state source.old source.new sink.old sink.new) (E.state errors.old) (E.state errors.new)
        result }
{
    hm_edge::program(alloc, args, &Telling, NAME, USAGE, source, sink, errors)
}
