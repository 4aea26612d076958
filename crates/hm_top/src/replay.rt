// The word `replay`.
ghost use Rattle.std.specs.Prelude.{◌≡◌, []};
ghost use Rattle.hm_top.specs.Replays.{Replays};
ghost use Rattle.hm_edge.specs.Traffic.{traffic};

use crate::ended::Ended;
use crate::output::report_run;
use crate::schedule::run_script;
use hm_edge::{Status, read_script};
use hm_io::{Sink, Source};
use hm_script::one_text;
use skip_rules::Kept;
use std::alloc::Global;

/// Reads a script, makes its schedule's turns and writes the report.
pub(crate) fn replay<S: Source, K: Sink>(
    alloc: Global,
    source: &mut S,
    sink: &mut K,
    skip: &Kept,
) -> Ended
    ensures does { Replays
        (traffic S.state K.state source.old source.new sink.old sink.new) result }
    ensures peeks { result.peeks ≡ [] }
{
    one_text();
    hm_quiet_laws::drain_alone_has_room();
    let script = match read_script(alloc, source) {
        Ok(script) => script,
        Err(status) => return Ended::stopped(alloc, status),
    };
    match run_script(alloc, script, skip) {
        Ok(ran) => report_run(alloc, ran, sink),
        Err(_) => Ended::stopped(alloc, Status::NoMemory),
    }
}
