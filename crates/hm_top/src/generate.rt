// The words `generate N` and `trial N`, which read nothing.
ghost use Rattle.std.specs.Prelude.{◌≡◌, []};
ghost use Rattle.hm_io.specs.Streams.{SinkState, SourceState};
ghost use Rattle.hm_top.specs.Generates.{Generates, Tries};
ghost use Rattle.hm_edge.specs.Traffic.{traffic_of};

use crate::ended::Ended;
use crate::output::{write_script, write_summary};
use crate::schedule::run_script;
use hm_edge::Status;
use hm_io::Sink;
use skip_rules::Kept;
use std::alloc::Global;

/// Writes the text of the trial of this number.
pub(crate) fn generate<K: Sink>(alloc: Global, number: u64, sink: &mut K) -> Ended
    ensures does { (source : SourceState) → Generates number
        (traffic_of source K.state sink.old sink.new) result }
    ensures peeks { result.peeks ≡ [] }
{
    match hm_script::generate(alloc, number) {
        Ok(script) => write_script(alloc, script, sink),
        Err(_) => Ended::stopped(alloc, Status::NoMemory),
    }
}

/// Runs the trial of this number, and writes the summary.
pub(crate) fn trial<K: Sink>(alloc: Global, number: u64, sink: &mut K, skip: &Kept) -> Ended
    ensures does { (source : SourceState) → Tries number
        (traffic_of source K.state sink.old sink.new) result }
    ensures peeks { result.peeks ≡ [] }
{
    let Ok(script) = hm_script::generate(alloc, number) else {
        return Ended::stopped(alloc, Status::NoMemory);
    };
    match run_script(alloc, script, skip) {
        Ok(ran) => write_summary(alloc, number, ran, sink),
        Err(_) => Ended::stopped(alloc, Status::NoMemory),
    }
}
