// The word `advise`.
ghost use Rattle.std.specs.Prelude.{◌≡◌, []};
ghost use Rattle.hm_top.specs.Advises.{Advises, advice_on};
ghost use Rattle.hm_top.specs.Ran.{Shows};
ghost use Rattle.hm_edge.specs.Traffic.{traffic};
ghost use Rattle.hm_edge.specs.Writing.{HasWritten, IsFlushed, WriteFaulted};

use crate::ended::Ended;
use crate::output::show_run;
use crate::schedule::{Ran, run_script};
use hm_advisor::write_advice;
use hm_edge::{Status, read_script};
use hm_io::{Sink, Source};
use hm_script::one_text;
use skip_rules::{Kept, Leans};
use std::alloc::Global;

/// Writes the advice on what ran, and ends the call.
fn advise_on<K: Sink>(alloc: Global, ran: Ran, sink: &mut K, leans: &Leans) -> Ended
    ensures shows { Shows ran result }
    ensures written { HasWritten (advice_on ran.script ran.history.entries)
        (λ t. t ≡ advice_on ran.script ran.history.entries) (K.state sink.old) (K.state sink.new) result.status }
    ensures write_faults { WriteFaulted (K.state sink.old).faults (K.state sink.new).faults result.status }
    ensures flushed { IsFlushed (K.state sink.new).pending result.status }
    ensures peeks { result.peeks ≡ [] }
{
    let Ok(advice) = hm_advisor::advise(alloc, &ran.history, leans) else {
        return Ended::stopped(alloc, Status::NoMemory);
    };
    let written = write_advice(alloc, &advice, sink);
    show_run(alloc, ran, written)
}

/// Reads a script, makes its schedule's turns, and writes how often the pages of its mirrors' windows were accessed,
/// and which of them should move.
pub(crate) fn advise<S: Source, K: Sink>(
    alloc: Global,
    source: &mut S,
    sink: &mut K,
    skip: &Kept,
    leans: &Leans,
) -> Ended
    ensures does { Advises
        (traffic S.state K.state source.old source.new sink.old sink.new) result }
    ensures peeks { result.peeks ≡ [] }
{
    one_text();
    hm_quiet_laws::drain_alone_has_room();
    let script = match read_script(alloc, source) {
        Ok(script) => script,
        Err(status) => return Ended::stopped(alloc, status),
    };
    match run_script(alloc, script, skip) {
        Ok(ran) => advise_on(alloc, ran, sink, leans),
        Err(_) => Ended::stopped(alloc, Status::NoMemory),
    }
}
