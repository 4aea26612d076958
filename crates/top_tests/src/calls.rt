// How the tests make the top call, and whether it ends as it should.
use crate::gates::Open;
use hm_edge::{Status, message};
use hm_io::{Sink, Source, SureSink, SureSource};
use hm_top::{USAGE, run, run_alone};
use hm_workers::Gate;
use skip_rules::{BoxedRule, Kept, Leans};
use std::alloc::{AllocError, Global};
use std::process::Abort;
use std::sync::Wait;
use std::thread::Threads;

/// How a call ends: its exit code, and what is said of it.
#[derive(Clone, Copy)]
pub struct Ending<'a> {
    pub code: u8,
    pub says: &'a str,
}

pub const DONE: Ending<'static> = Ending { code: 0, says: "" };

pub const NOT_LEGAL: Ending<'static> = Ending {
    code: 1,
    says: "not legal",
};

pub const UNKNOWN: Ending<'static> = Ending {
    code: 2,
    says: USAGE,
};

pub const READ_FAULT: Ending<'static> = Ending {
    code: 4,
    says: "read fault",
};

pub const WRITE_FAULT: Ending<'static> = Ending {
    code: 5,
    says: "write fault",
};

pub const FULL: Ending<'static> = Ending {
    code: 7,
    says: "history full",
};

/// The call without a gate, which waits for nobody.
pub const ALONE: Option<&'static Open> = None;

/// The words of a text, with a blank between two.
pub fn words_in<R: Abort>(rt: &R, alloc: Global, text: &str) -> Vec<String> {
    let mut words = Vec::new(alloc);
    for word in text.split(' ') {
        let word = String::from_str(alloc, word).expect(rt, "memory");
        words.push(word).expect(rt, "memory");
    }
    words
}

/// How the call with these words ends: the one whose threads go when the gate admits them, or without a gate the one
/// that waits for nobody. Its rules are closures that capture nothing.
fn status_of<R: Threads + Wait + Sync, G: Gate + Sync, S: Source, K: Sink>(
    rt: &R,
    alloc: Global,
    gate: Option<&G>,
    words: Vec<String>,
    source: &mut S,
    sink: &mut K,
) -> Result<Status, AllocError> {
    let skips: BoxedRule = Box::new(
        alloc,
        |every: u64, page: u64| every != 0 && page % every == 0,
    )?;
    let leans: BoxedRule = Box::new(alloc, |x: u64, y: u64| x >= 4 && x - 4 >= y)?;
    let (skip, leans) = (Kept::new(skips), Leans::new(leans));
    let ended = match gate {
        Some(gate) => run(rt, alloc, words, source, sink, gate, &skip, &leans),
        None => run_alone(alloc, words, source, sink, &skip, &leans),
    };
    Ok(ended.status)
}

/// Whether this is said of a call that ended so.
fn is_said(alloc: Global, status: &Status, wanted: &str) -> bool {
    match message(alloc, USAGE, status) {
        Ok(text) => text.as_slice() == wanted.as_bytes(),
        Err(_) => false,
    }
}

/// Whether the call with these words ends so.
pub fn ends<R: Abort + Threads + Wait + Sync, G: Gate + Sync, S: Source, K: Sink>(
    rt: &R,
    alloc: Global,
    gate: Option<&G>,
    words: &str,
    source: &mut S,
    sink: &mut K,
    wanted: Ending<'_>,
) -> bool {
    let words = words_in(rt, alloc, words);
    let status = status_of(rt, alloc, gate, words, source, sink).expect(rt, "memory");
    status.code() == wanted.code && is_said(alloc, &status, wanted.says)
}

/// Whether the call with these words ends so on this text.
pub fn ends_on<R: Abort + Threads + Wait + Sync, G: Gate + Sync, K: Sink>(
    rt: &R,
    alloc: Global,
    gate: Option<&G>,
    words: &str,
    text: &[u8],
    sink: &mut K,
    wanted: Ending<'_>,
) -> bool {
    let mut source = SureSource::new(alloc, text).expect(rt, "memory");
    ends(rt, alloc, gate, words, &mut source, sink, wanted)
}

/// Whether it does, and has written this.
pub fn writes<R: Abort + Threads + Wait + Sync, G: Gate + Sync>(
    rt: &R,
    alloc: Global,
    gate: Option<&G>,
    words: &str,
    text: &[u8],
    wanted: Ending<'_>,
    written: &[u8],
) -> bool {
    let mut sink = SureSink::new(alloc);
    ends_on(rt, alloc, gate, words, text, &mut sink, wanted) && sink.held() == written
}

/// The same of a call with threads that nothing holds.
pub fn threads_write<R: Abort + Threads + Wait + Sync>(
    rt: &R,
    alloc: Global,
    words: &str,
    text: &[u8],
    wanted: Ending<'_>,
    written: &[u8],
) -> bool {
    writes(rt, alloc, Some(&Open), words, text, wanted, written)
}

/// Whether a call with threads that nothing holds ends so on this text.
pub fn threads_end<R: Abort + Threads + Wait + Sync, K: Sink>(
    rt: &R,
    alloc: Global,
    words: &str,
    text: &[u8],
    sink: &mut K,
    wanted: Ending<'_>,
) -> bool {
    ends_on(rt, alloc, Some(&Open), words, text, sink, wanted)
}
