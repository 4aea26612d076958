// What a script comes to, by a replay and by the files beside it.
use crate::files::{no_memory, text};
use crate::streams::{empty_sink, source_of, text_of, words_in};
use hm_edge::{Status, message};
use hm_io::{MemorySink, MemorySource};
use hm_top::{USAGE, run_alone};
use skip_rules::{BoxedRule, Kept, Leans};
use std::alloc::Global;
use std::io;

/// How a replay ends, what it says, and what it writes.
#[derive(Drop)]
pub struct Outcome {
    code: u8,
    message: String,
    report: String,
}

impl Outcome {
    pub fn report(&self) -> &str {
        self.report.as_str()
    }

    /// The report, if all was done.
    pub fn done(self) -> io::Result<String> {
        if self.code == Status::Done.code() {
            Ok(self.report)
        } else {
            Err(io::Error::from(io::ErrorKind::InvalidData))
        }
    }

    pub fn is(&self, other: &Outcome) -> bool {
        self.code == other.code
            && self.message.as_str() == other.message.as_str()
            && self.report.as_str() == other.report.as_str()
    }
}

/// Makes the top call for a replay.
fn replay(alloc: Global, source: &mut MemorySource, sink: &mut MemorySink) -> io::Result<Status> {
    let words = words_in(alloc, "replay")?;
    let skips: BoxedRule = Box::new(
        alloc,
        |every: u64, page: u64| every != 0 && page % every == 0,
    )?;
    let leans: BoxedRule = Box::new(alloc, |x: u64, y: u64| x >= 4 && x - 4 >= y)?;
    let (skip, leans) = (Kept::new(skips), Leans::new(leans));
    Ok(run_alone(alloc, words, source, sink, &skip, &leans).status)
}

/// What the program says of this status.
fn message_of(alloc: Global, status: &Status) -> io::Result<String> {
    let message = message(alloc, USAGE, status).map_err(no_memory)?;
    text_of(alloc, message.as_slice())
}

/// How a replay ended, with what the sink holds of it.
fn outcome_of(alloc: Global, status: &Status, sink: &MemorySink) -> io::Result<Outcome> {
    let message = message_of(alloc, status)?;
    Ok(Outcome {
        code: status.code(),
        message,
        report: text_of(alloc, sink.held())?,
    })
}

/// What the top call comes to on these bytes.
pub fn replayed(alloc: Global, script: &[u8]) -> io::Result<Outcome> {
    let mut source = source_of(alloc, script)?;
    let mut sink = empty_sink(alloc)?;
    let status = replay(alloc, &mut source, &mut sink)?;
    outcome_of(alloc, &status, &sink)
}

/// The text of a file beside the script; there is none if there is no such file.
fn beside(rt: &HostRuntime, stem: &str, ending: &str) -> io::Result<String> {
    match text(rt, stem, ending) {
        Err(e) if e.kind() == io::ErrorKind::NotFound => Ok(String::new(rt.alloc())),
        read => read,
    }
}

/// The exit code that this text gives; that of `Done` if it is empty.
fn code(text: &str) -> io::Result<u8> {
    if text.is_empty() {
        return Ok(Status::Done.code());
    }
    match text.trim_end().parse::<u8>() {
        Ok(code) => Ok(code),
        Err(_) => Err(io::Error::from(io::ErrorKind::InvalidData)),
    }
}

/// The message beside the script.
fn message_beside(rt: &HostRuntime, stem: &str) -> io::Result<String> {
    let message = beside(rt, stem, ".message")?;
    Ok(String::from_str(rt.alloc(), message.as_str().trim_end())?)
}

/// What the files beside the script say that it comes to: all done, no message and nothing written, if they are
/// missing.
pub fn wanted(rt: &HostRuntime, stem: &str) -> io::Result<Outcome> {
    let code = code(beside(rt, stem, ".status")?.as_str())?;
    let message = message_beside(rt, stem)?;
    Ok(Outcome {
        code,
        message,
        report: beside(rt, stem, ".report")?,
    })
}
