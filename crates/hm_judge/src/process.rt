// The program hmmjudge, but for the real streams: its arguments, one call, and what it says and ends with.
ghost use Rattle.std.specs.Prelude.{map, string_bytes};
ghost use Rattle.std.specs.Vec.Iter.{into_iter_items};
ghost use Rattle.hm_edge.specs.Exits.{Exits, arguments};
ghost use Rattle.hm_edge.specs.Traffic.{traffic};
ghost use Rattle.hm_judge.specs.Runs.{Runs, name, usage};

use crate::call::judge;
use hm_edge::{Call, Status};
use hm_io::{Sink, Source};
use std::alloc::Global;
use std::env::Args;
use std::io;

/// The program's name, which its messages begin with.
pub const NAME: &str = "hmmjudge";

/// What it says if there are words.
pub const USAGE: &str = "usage: hmmjudge [--standing | --all]";

/// The call of hmmjudge.
struct Judging;

impl Call for Judging {
    ghost Runs = { Runs };

    fn call<S: Source, K: Sink>(
        &self,
        alloc: Global,
        words: &[String],
        source: &mut S,
        sink: &mut K,
    ) -> Status {
        judge(alloc, words, source, sink)
    }
}

/// Does what the arguments ask for, whose first is the program's name, and says on the error stream how it ended if not
/// all was done. Gives the exit code.
pub fn program<S: Source, K: Sink, E: Sink>(
    alloc: Global,
    args: io::Result<Args>,
    source: &mut S,
    sink: &mut K,
    errors: &mut E,
) -> u8
    ensures { Exits Runs name usage (arguments (λ x. map string_bytes (into_iter_items x)) args)
        (traffic S.state K.state source.old source.new sink.old sink.new) (E.state errors.old) (E.state errors.new)
        result }
{
    hm_edge::program(alloc, args, &Judging, NAME, USAGE, source, sink, errors)
}
