// The program hmmwithout, but for the real streams: its arguments, one call, and what it says and ends with.
ghost use Rattle.std.specs.Prelude.{map, string_bytes};
ghost use Rattle.std.specs.Vec.Iter.{into_iter_items};
ghost use Rattle.hm_edge.specs.Exits.{Exits, arguments};
ghost use Rattle.hm_edge.specs.Traffic.{traffic};
ghost use Rattle.hm_flaw_top.specs.Runs.{Runs, name, usage};

use crate::call::without;
use hm_edge::{Call, Status};
use hm_io::{Sink, Source};
use std::alloc::Global;
use std::env::Args;
use std::io;

/// The program's name, which its messages begin with.
pub const NAME: &str = "hmmwithout";

/// What it says if a word is bad.
pub const USAGE: &str =
    "usage: hmmwithout RULE [--holds] | right [--holds] | --all [--answers] [--most MOST], with RULE one of \
    compare compare-sequence entry-right mmap-lock own-device begin-waits begin-first set-sequence erase \
    erase-all erase-in-time own-events own-sequence own-entries stop-at-detach write-entry detach-waits \
    copy-all clear set-moved set-right set-unless-invalidated drop-lost take-from-there evict-first \
    withdraw-first wait-for-locked exclusive-waits look-again, or of the memory manager's own: tell-first \
    end-last fork-narrows fault-looks-again bring-home freeze-others freeze-first fresh-looks-again \
    fresh-right back-right lock-page put-back drop-unnamed";

/// The call of hmmwithout.
struct Leaving;

impl Call for Leaving {
    ghost Runs = { Runs };

    fn call<S: Source, K: Sink>(
        &self,
        alloc: Global,
        words: &[String],
        source: &mut S,
        sink: &mut K,
    ) -> Status {
        without(alloc, words, source, sink)
    }
}

/// Does what the arguments ask for, whose first is the program's name, and says on the error stream how it ended if not
/// all was done. Gives the exit code.
pub fn program<S: Source, K: Sink, E: Sink>(
    alloc: Global,
    args: io::Result<Args>,
    source: &mut S,
    sink: &mut K,
    errors: &mut E,
) -> u8
    ensures { Exits Runs name usage (arguments (λ x. map string_bytes (into_iter_items x)) args)
        (traffic S.state K.state source.old source.new sink.old sink.new) (E.state errors.old) (E.state errors.new)
        result }
{
    hm_edge::program(alloc, args, &Leaving, NAME, USAGE, source, sink, errors)
}
