// What calls of sources and sinks come to, through their traits.
use hm_io::{
    Flushed, Got, MemorySink, MemorySource, Put, Sink, Source, StdSink, StreamSink, StreamSource,
    SureSink, SureSource,
};
use std::io::{self, ErrorKind, Write};
use std::sync::atomic::{AtomicU64, Ordering};

/// Whether the next read into three bytes comes to this, and these bytes are then there.
fn reads<S: Source>(source: &mut S, wanted: Got, bytes: &[u8; 3]) -> bool {
    let mut into = [0; 3];
    source.read(&mut into) == wanted && into == *bytes
}

/// Whether a write of two bytes comes to this.
fn writes<K: Sink>(sink: &mut K, from: &[u8; 2], wanted: Put) -> bool {
    sink.write(from) == wanted
}

/// Whether the sink has counted just these faults, and nothing that it wanted.
fn has_faults<K: Sink>(sink: &K, faults: u64) -> bool {
    sink.faults() == faults && sink.wants() == 0
}

/// Whether two pieces are read, with a planned fault between them.
fn gives_two_pieces(source: &mut MemorySource) -> bool {
    reads(source, Got::Bytes(2), b"ab\0")
        && reads(source, Got::Failed, &[0; 3])
        && reads(source, Got::Bytes(2), b"cd\0")
}

/// Whether the last byte is read, and the end after the second planned fault.
fn gives_the_last(source: &mut MemorySource) -> bool {
    reads(source, Got::Bytes(1), b"e\0\0")
        && reads(source, Got::Failed, &[0; 3])
        && reads(source, Got::Ended, &[0; 3])
        && source.faults() == 2
}

#[test]
fn memory_source_gives_pieces_and_planned_faults(rt: HostRuntime) {
    let mut source = MemorySource::new(rt.alloc(), b"abcde", 2, &[2, 5]).expect(&rt, "memory");
    assert!(rt; gives_two_pieces(&mut source) && gives_the_last(&mut source));
}

/// Whether the planned write fails, and the one for which there is no room.
fn takes_two_of_four(sink: &mut MemorySink) -> bool {
    writes(sink, b"ab", Put::Took(2))
        && writes(sink, b"ab", Put::Failed)
        && writes(sink, b"ab", Put::Took(2))
        && writes(sink, b"ab", Put::Failed)
}

#[test]
fn memory_sink_keeps_to_its_room(rt: HostRuntime) {
    let mut sink = MemorySink::new(rt.alloc(), 5, &[2]).expect(&rt, "memory");
    assert!(rt;
        takes_two_of_four(&mut sink) && sink.held() == b"abab".as_slice() && has_faults(&sink, 2)
    );
}

/// Whether four bytes and then the end are read, with no fault.
fn gives_four<S: Source>(source: &mut S) -> bool {
    reads(source, Got::Bytes(3), b"abc")
        && reads(source, Got::Bytes(1), b"d\0\0")
        && reads(source, Got::Ended, &[0; 3])
        && source.faults() == 0
}

/// Whether four bytes are taken, with no fault.
fn takes_four(sink: &mut SureSink) -> bool {
    writes(sink, b"ab", Put::Took(2))
        && writes(sink, b"cd", Put::Took(2))
        && sink.held() == b"abcd".as_slice()
        && has_faults(sink, 0)
}

#[test]
fn sure_streams_never_fail(rt: HostRuntime) {
    let mut source = SureSource::new(rt.alloc(), b"abcd").expect(&rt, "memory");
    let mut sink = SureSink::new(rt.alloc());
    assert!(rt; gives_four(&mut source) && takes_four(&mut sink));
}

/// Whether two empty lines are written and sent on.
fn takes_lines<K: Sink>(sink: &mut K) -> bool {
    writes(sink, b"\n\n", Put::Took(2)) && sink.flush() == Flushed::Done && has_faults(sink, 0)
}

#[test]
fn standard_output_takes_a_line(rt: HostRuntime) {
    let mut sink = StdSink::new(rt.stdout());
    assert!(rt; takes_lines(&mut sink));
}

#[test]
fn a_reader_gives_its_bytes(rt: HostRuntime) {
    let mut source = StreamSource::new(b"abcd".as_slice());
    assert!(rt; gives_four(&mut source));
}

/// A writer that takes one byte a call, and whose first flush fails.
#[derive(Drop)]
struct Reluctant {
    flushed: bool,
}

impl Write for Reluctant {
    fn write(&mut self, from: &[u8]) -> io::Result<usize> {
        Ok(from.len().min(1))
    }

    fn flush(&mut self) -> io::Result<()> {
        let before = self.flushed;
        self.flushed = true;
        if before {
            Ok(())
        } else {
            Err(io::Error::from(ErrorKind::Other))
        }
    }
}

/// Whether one byte is taken, and the second flush is done.
fn takes_one(sink: &mut StreamSink<Reluctant>) -> bool {
    writes(sink, b"ab", Put::Took(1))
        && sink.flush() == Flushed::Failed
        && sink.flush() == Flushed::Done
        && has_faults(sink, 1)
}

#[test]
fn a_flush_is_the_writers_own(rt: HostRuntime) {
    let mut sink = StreamSink::new(Reluctant { flushed: false });
    assert!(rt; takes_one(&mut sink));
}

/// A writer that keeps what it takes, and hands it on to what lies below only at a flush. If that is broken, a flush
/// fails, and hands on nothing.
#[derive(Drop)]
struct Keeper<'a> {
    kept: u64,
    below: &'a AtomicU64,
    is_broken: bool,
}

impl Write for Keeper<'_> {
    fn write(&mut self, from: &[u8]) -> io::Result<usize> {
        self.kept = self.kept.saturating_add(from.len() as u64);
        Ok(from.len())
    }

    fn flush(&mut self) -> io::Result<()> {
        if self.is_broken {
            return Err(io::Error::from(ErrorKind::Other));
        }
        let before = self.below.load(Ordering::SeqCst);
        let after = before.saturating_add(self.kept);
        self.below.store(after, Ordering::SeqCst);
        self.kept = 0;
        Ok(())
    }
}

/// Whether four bytes are taken, and none of them is handed on.
fn keeps_four(sink: &mut StreamSink<Keeper<'_>>, below: &AtomicU64) -> bool {
    writes(sink, b"ab", Put::Took(2))
        && writes(sink, b"cd", Put::Took(2))
        && below.load(Ordering::SeqCst) == 0
}

/// Whether a flush fails, and no byte is handed on, if the writer is broken.
fn broken_hands_on_nothing(below: &AtomicU64) -> bool {
    let mut sink = StreamSink::new(Keeper {
        kept: 0,
        below,
        is_broken: true,
    });
    keeps_four(&mut sink, below)
        && sink.flush() == Flushed::Failed
        && below.load(Ordering::SeqCst) == 0
        && has_faults(&sink, 1)
}

/// Whether a flush is done, and the four bytes are handed on, if it is not.
fn whole_hands_on_all(below: &AtomicU64) -> bool {
    let mut sink = StreamSink::new(Keeper {
        kept: 0,
        below,
        is_broken: false,
    });
    keeps_four(&mut sink, below)
        && sink.flush() == Flushed::Done
        && below.load(Ordering::SeqCst) == 4
        && has_faults(&sink, 0)
}

#[test]
fn a_flush_hands_on_what_was_written(rt: HostRuntime) {
    let below = AtomicU64::new(0);
    assert!(rt; broken_hands_on_nothing(&below) && whole_hands_on_all(&below));
}
