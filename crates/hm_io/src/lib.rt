// Where scripts come from and where texts go: sources and sinks that count their faults.
#![tactic(auto)]

ghost use Rattle.std.specs.Prelude.{◌≡◌, ◌<◌, length};

mod memory;
mod plan;
mod stream;
mod sure;

pub use memory::{MemorySink, MemorySource};
pub use stream::{StdSink, StdSource, StreamSink, StreamSource};
pub use sure::{SureSink, SureSource};

/// What a read came to.
#[derive(Clone, Copy, PartialEq, Eq)]
pub enum Got {
    /// So many bytes were put at the front of the buffer.
    Bytes(usize),
    /// Nothing is left.
    Ended,
    /// It failed, and what is left is as it was.
    Failed,
}

/// What a write came to.
#[derive(Clone, Copy, PartialEq, Eq)]
pub enum Put {
    /// So many bytes of the front were taken.
    Took(usize),
    /// It failed, and what is held is as it was.
    Failed,
    /// It ran out of memory, and what is held is as it was.
    NoMemory,
}

/// What a flush came to.
#[derive(Clone, Copy)]
pub enum Flushed {
    /// All that was taken has gone on to where it was to go.
    Done,
    /// It failed, and what is held is as it was.
    Failed,
}

/// Bytes that come one piece after another.
pub trait Source {
    ghost use Rattle.hm_io.specs.Streams.{SourceState, GotCount, Reads, ReadCause};

    /// The bytes that are left, if they are known: in memory, or of a reader whose own contract says them; and how
    /// often a read has failed.
    ghost state: { Self → SourceState };

    /// Puts the front of what is left at the front of the buffer.
    fn read(&mut self, into: &mut [u8]) -> Got
        requires { 0 < length into.old }
        ensures count { GotCount result (length into.old) }
        ensures bytes { Reads (state self.old).left (state self.new).left result into.new }
        ensures cause { ReadCause (state self.old).faults (state self.new).faults result };

    /// How often a read has failed, up to 2^64 - 1.
    fn faults(&self) -> u64
        ensures { result ≡ (state self.now).faults };
}

/// Where bytes go, one piece after another.
pub trait Sink {
    ghost use Rattle.hm_io.specs.Streams.{SinkState, PutCount, Writes, WriteCause, WantCause, Stays, IsSentOn};
    ghost use Rattle.hm_io.specs.Streams.{FlushCause};

    /// The bytes that it holds, if they are known: in memory, or of a writer whose own contract says them; how often a
    /// write or a flush has failed; how often it ran out of memory; and whether bytes that it took may not have gone on
    /// yet to where they are to go.
    ghost state: { Self → SinkState };

    /// Adds a front of these bytes to what it holds.
    fn write(&mut self, from: &[u8]) -> Put
        requires { 0 < length from.now }
        ensures count { PutCount result (length from.now) }
        ensures bytes { Writes (state self.old).held (state self.new).held result from.now }
        ensures cause { WriteCause (state self.old).faults (state self.new).faults result }
        ensures want { WantCause (state self.old).wants (state self.new).wants result };

    /// Sends on all that was taken.
    fn flush(&mut self) -> Flushed
        ensures bytes { Stays (state self.old).held (state self.new).held }
        ensures done { IsSentOn (state self.new).pending result }
        ensures cause { FlushCause (state self.old).faults (state self.new).faults result }
        ensures want { (state self.new).wants ≡ (state self.old).wants };

    /// How often a write or a flush has failed, up to 2^64 - 1.
    fn faults(&self) -> u64
        ensures { result ≡ (state self.now).faults };

    /// How often it ran out of memory, up to 2^64 - 1.
    fn wants(&self) -> u64
        ensures { result ≡ (state self.now).wants };
}
