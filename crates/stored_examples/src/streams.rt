// Streams in memory, on which the programs' calls are made, and the words of a call.
use crate::files::{bytes, no_memory};
use hm_io::{MemorySink, MemorySource};
use std::alloc::Global;
use std::io;

/// So few bytes come at a time that no text of a few lines is read at once.
const PIECE: usize = 16;

/// Nothing that is written of an example takes more bytes.
const ROOM: usize = 1_048_576;

/// The words in these lines, one in each.
pub fn words_in(alloc: Global, lines: &str) -> io::Result<Vec<String>> {
    let mut words = Vec::new(alloc);
    for line in lines.lines() {
        words.push(String::from_str(alloc, line)?)?;
    }
    Ok(words)
}

/// A source that has these bytes.
pub fn source_of(alloc: Global, bytes: &[u8]) -> io::Result<MemorySource> {
    MemorySource::new(alloc, bytes, PIECE, &[]).map_err(no_memory)
}

/// A source that has what the file of this path and ending holds.
pub fn source_beside(rt: &HostRuntime, stem: &str, ending: &str) -> io::Result<MemorySource> {
    source_of(rt.alloc(), bytes(rt, stem, ending)?.as_slice())
}

/// A sink that holds nothing.
pub fn empty_sink(alloc: Global) -> io::Result<MemorySink> {
    MemorySink::new(alloc, ROOM, &[]).map_err(no_memory)
}

/// The bytes as a text.
pub fn text_of(alloc: Global, bytes: &[u8]) -> io::Result<String> {
    match str::from_utf8(bytes) {
        Ok(text) => Ok(String::from_str(alloc, text)?),
        Err(_) => Err(io::Error::from(io::ErrorKind::InvalidData)),
    }
}
