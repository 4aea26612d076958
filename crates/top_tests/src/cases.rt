// What a program is run on, and what it has to come to.
use crate::calls::words_in;
use hm_io::{MemorySink, MemorySource, SureSink, SureSource};
use std::alloc::Global;
use std::env::Args;
use std::io;
use std::process::Abort;
use std::sync::Wait;
use std::thread::Threads;

/// The report of a script with nothing to do. Without its last two lines it is that script.
pub const EMPTY_REPORT: &str = "hmm 1\nframes 0\nhistory\nend 0\n";

/// That script.
pub const EMPTY: &str = "hmm 1\nframes 0\n";

/// A program, but for the real streams.
#[derive(Clone, Copy)]
pub enum Program {
    Hmmrun,
    Hmmraces,
    Hmmview,
}

impl Program {
    /// Runs the program, and gives its exit code. Threads of hmmrun mix by draws from 7.
    fn code<R: Threads + Wait + Sync>(
        self,
        rt: &R,
        alloc: Global,
        args: io::Result<Args>,
        source: &mut MemorySource,
        sink: &mut MemorySink,
        errors: &mut SureSink,
    ) -> u8 {
        match self {
            Program::Hmmrun => hm_top::program(rt, alloc, args, source, sink, errors, 7),
            Program::Hmmraces => hm_race_top::program(alloc, args, source, sink, errors),
            Program::Hmmview => hm_view::program(alloc, args, source, sink, errors),
        }
    }
}

/// A run of a program, and what it has to come to.
#[derive(Clone, Copy)]
pub struct Case<'a> {
    /// The program's name and the words after it, with a blank between two.
    pub words: &'a str,
    pub input: &'a [u8],
    /// The read that fails, from 1; 0 if none does.
    pub bad_read: u64,
    /// The write that fails.
    pub bad_write: u64,
    pub code: u8,
    /// What the sink holds in the end, and what the error sink holds.
    pub output: &'a str,
    pub says: &'a str,
}

/// A run with streams that do not fail.
pub fn expected<'a>(
    words: &'a str,
    input: &'a str,
    code: u8,
    output: &'a str,
    says: &'a str,
) -> Case<'a> {
    Case {
        words,
        input: input.as_bytes(),
        bad_read: 0,
        bad_write: 0,
        code,
        output,
        says,
    }
}

/// The three streams of a case.
#[derive(Drop)]
struct Streams {
    source: MemorySource,
    sink: MemorySink,
    errors: SureSink,
}

fn open_streams<R: Abort>(rt: &R, alloc: Global, case: &Case<'_>) -> Streams {
    let source = MemorySource::new(alloc, case.input, 4096, &[case.bad_read]).expect(rt, "memory");
    let sink = MemorySink::new(alloc, 65536, &[case.bad_write]).expect(rt, "memory");
    Streams {
        source,
        sink,
        errors: SureSink::new(alloc),
    }
}

/// Whether a run with this exit code, and these streams in the end, is what its case wants.
fn is_wanted(case: &Case<'_>, streams: &Streams, code: u8) -> bool {
    code == case.code
        && streams.errors.held() == case.says.as_bytes()
        && streams.sink.held() == case.output.as_bytes()
}

/// Whether the program comes to what the case wants.
fn comes_to<R: Abort + Threads + Wait + Sync>(
    rt: &R,
    alloc: Global,
    program: Program,
    case: &Case<'_>,
) -> bool {
    let mut streams = open_streams(rt, alloc, case);
    let args = Ok(words_in(rt, alloc, case.words).into_iter());
    let code = program.code(
        rt,
        alloc,
        args,
        &mut streams.source,
        &mut streams.sink,
        &mut streams.errors,
    );
    is_wanted(case, &streams, code)
}

/// Whether the program comes to what each of the cases wants.
pub fn all_come_to<R: Abort + Threads + Wait + Sync>(
    rt: &R,
    alloc: Global,
    program: Program,
    cases: &[Case<'_>],
) -> bool {
    for case in cases {
        if !comes_to(rt, alloc, program, case) {
            return false;
        }
    }
    true
}

/// Whether hmmrun with these words reads this text and ends with 0. What it writes is then in the sink.
pub fn hmmrun_writes<R: Abort + Threads + Wait + Sync>(
    rt: &R,
    alloc: Global,
    words: &str,
    text: &str,
    sink: &mut SureSink,
) -> bool {
    let mut source = SureSource::new(alloc, text.as_bytes()).expect(rt, "memory");
    let mut errors = SureSink::new(alloc);
    let args = Ok(words_in(rt, alloc, words).into_iter());
    hm_top::program(rt, alloc, args, &mut source, sink, &mut errors, 7) == 0
}

/// So many bytes of a text that is no script.
pub fn long_text<R: Abort>(rt: &R, alloc: Global, count: usize) -> Vec<u8> {
    let mut bytes = Vec::new(alloc);
    bytes.resize(count, b'h').expect(rt, "memory");
    bytes
}

/// Whether the program with these words refuses a script of one byte too many, and says so.
pub fn refuses_too_long<R: Abort + Threads + Wait + Sync>(
    rt: &R,
    alloc: Global,
    program: Program,
    words: &str,
    says: &str,
) -> bool {
    let bytes = long_text(rt, alloc, 4_194_305);
    let whole = expected(words, "", 8, "", says);
    let case = Case {
        input: bytes.as_slice(),
        ..whole
    };
    comes_to(rt, alloc, program, &case)
}
