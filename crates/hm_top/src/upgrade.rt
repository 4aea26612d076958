// The word `upgrade`.
ghost use Rattle.std.specs.Prelude.{◌≡◌, []};
ghost use Rattle.hm_edge.specs.Traffic.{traffic};
ghost use Rattle.hm_top.specs.Upgrades.{Upgrades};

use crate::ended::Ended;
use crate::output::write_script;
use hm_edge::read_script;
use hm_io::{Sink, Source};
use std::alloc::Global;

/// Reads a script, and writes its text in version 2.
pub(crate) fn upgrade<S: Source, K: Sink>(alloc: Global, source: &mut S, sink: &mut K) -> Ended
    ensures does { Upgrades
        (traffic S.state K.state source.old source.new sink.old sink.new) result }
    ensures peeks { result.peeks ≡ [] }
{
    match read_script(alloc, source) {
        Ok(mut script) => {
            hm_script::upgrade(&mut script);
            write_script(alloc, script, sink)
        }
        Err(status) => Ended::stopped(alloc, status),
    }
}
