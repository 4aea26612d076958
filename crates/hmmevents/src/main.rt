// The program: its arguments, the real streams, and one call.
#![tactic(auto)]

use hm_io::{StdSink, StdSource, StreamSink};
use hm_projection::program;
use std::env;
use std::process::ExitCode;

fn main(rt: HostRuntime) -> ExitCode {
    ExitCode::from(program(
        rt.alloc(),
        env::args(&rt),
        &mut StdSource::new(rt.stdin()),
        &mut StdSink::new(rt.stdout()),
        &mut StreamSink::new(rt.stderr()),
    ))
}
