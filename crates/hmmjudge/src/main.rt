// The program: its arguments, the real streams, and one call.
#![tactic(auto)]

use hm_io::{StreamSink, StreamSource};
use hm_judge::program;
use std::env;
use std::process::ExitCode;

fn main(rt: HostRuntime) -> ExitCode {
    ExitCode::from(program(
        rt.alloc(),
        env::args(&rt),
        &mut StreamSource::new(rt.stdin()),
        &mut StreamSink::new(rt.stdout()),
        &mut StreamSink::new(rt.stderr()),
    ))
}
