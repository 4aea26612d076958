// The program hmmraces, but for the real streams: its arguments, one call, and what it says and ends with.
ghost use Rattle.std.specs.Prelude.{map, string_bytes};
ghost use Rattle.std.specs.Vec.Iter.{into_iter_items};
ghost use Rattle.hm_edge.specs.Exits.{Exits, arguments};
ghost use Rattle.hm_edge.specs.Traffic.{traffic};
ghost use Rattle.hm_race_top.specs.Runs.{Runs, name, usage};

use crate::call::races;
use hm_edge::{Call, Status};
use hm_io::{Sink, Source};
use std::alloc::Global;
use std::env::Args;
use std::io;

/// The program's name, which its messages begin with.
pub const NAME: &str = "hmmraces";

/// What it says if its words are none of the forms.
pub const USAGE: &str =
    "usage: hmmraces [[--most] MOST] [--table | --script N | [--strict] --expect CONDITION ..]";

/// The call of hmmraces.
struct Racing;

impl Call for Racing {
    ghost Runs = { Runs };

    fn call<S: Source, K: Sink>(
        &self,
        alloc: Global,
        words: &[String],
        source: &mut S,
        sink: &mut K,
    ) -> Status {
        races(alloc, words, source, sink)
    }
}

/// Does what the arguments ask for, whose first is the program's name, and says on the error stream how it ended if not
/// all was done. Gives the exit code.
pub fn program<S: Source, K: Sink, E: Sink>(
    alloc: Global,
    args: io::Result<Args>,
    source: &mut S,
    sink: &mut K,
    errors: &mut E,
) -> u8
    ensures { Exits Runs name usage (arguments (λ x. map string_bytes (into_iter_items x)) args)
        (traffic S.state K.state source.old source.new sink.old sink.new) (E.state errors.old) (E.state errors.new)
        result }
{
    hm_edge::program(alloc, args, &Racing, NAME, USAGE, source, sink, errors)
}
