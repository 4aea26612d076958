// The program: its arguments, the real streams, and one call.
#![tactic(auto)]

use hm_io::{StdSink, StdSource, StreamSink};
use hm_top::program;
use std::env;
use std::process::ExitCode;
use std::time::{SystemTime, UNIX_EPOCH};

/// A number that no two runs need share; 0 if the clock cannot be read.
fn seed(rt: &HostRuntime) -> u64 {
    match SystemTime::now(rt) {
        Ok(now) => match now.duration_since(UNIX_EPOCH) {
            Ok(since) => u64::from(since.subsec_nanos()),
            Err(_) => 0,
        },
        Err(_) => 0,
    }
}

fn main(rt: HostRuntime) -> ExitCode {
    ExitCode::from(program(
        &rt,
        rt.alloc(),
        env::args(&rt),
        &mut StdSource::new(rt.stdin()),
        &mut StdSink::new(rt.stdout()),
        &mut StreamSink::new(rt.stderr()),
        seed(&rt),
    ))
}
