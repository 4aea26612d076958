// What hmmrun and hmmraces say. All calls of their libraries stand here.
use crate::outcome::replayed;
use crate::streams::{empty_sink, source_of, text_of};
use hm_edge::Status;
use hm_io::MemorySink;
use hm_race_top::races;
use std::alloc::Global;
use std::io;

/// What was written, if all was done.
fn written(alloc: Global, status: &Status, sink: &MemorySink) -> io::Result<String> {
    if !matches!(status, Status::Done) {
        return Err(io::Error::from(io::ErrorKind::InvalidData));
    }
    text_of(alloc, sink.held())
}

/// The report of the script's run.
pub fn report(alloc: Global, script: &[u8]) -> io::Result<String> {
    replayed(alloc, script)?.done()
}

/// What hmmraces writes of the script's race.
pub fn outcomes(alloc: Global, script: &[u8]) -> io::Result<String> {
    let mut source = source_of(alloc, script)?;
    let mut sink = empty_sink(alloc)?;
    let status = races(alloc, &[], &mut source, &mut sink);
    written(alloc, &status, &sink)
}
