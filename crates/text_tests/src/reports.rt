// A report that breaks off, and the summary of a history.
use hm_base::{Script, Text};
use hm_history::History;
use hm_io::{MemorySink, Sink};
use hm_report::{Written, ends_are_counted, summary, write_text};
use hm_script::parse;
use std::alloc::Global;

/// Whether the write ends so, and the sink then holds this much of the text: all of it, if it has counted no fault.
fn writes(alloc: Global, text: &Text, sink: &mut MemorySink, wanted: Written, held: usize) -> bool {
    write_text(alloc, text, sink) == wanted
        && sink.held().len() == held
        && sink.faults() == u64::from(held != 5000)
}

/// The same of a new sink, whose call of this number fails.
fn fails_at(alloc: Global, text: &Text, failing: u64, wanted: Written, held: usize) -> bool {
    match MemorySink::new(alloc, 8192, &[failing]) {
        Ok(mut sink) => writes(alloc, text, &mut sink, wanted, held),
        Err(_) => false,
    }
}

#[test]
fn a_fault_leaves_a_front(rt: HostRuntime) {
    let alloc = rt.alloc();
    let text = Text::from_slice(alloc, &[b'a'; 5000]).expect(&rt, "memory");
    assert!(rt;
        fails_at(alloc, &text, 1, Written::Fault, 0)
            && fails_at(alloc, &text, 2, Written::Fault, 4096)
            && fails_at(alloc, &text, 3, Written::Done, 5000)
    );
}

/// Whether this is the summary of a history with no entry.
fn is_summary(alloc: Global, script: &Script, wanted: &[u8]) -> bool {
    let history = History::new(alloc);
    ends_are_counted();
    match summary(alloc, 7, script, &history) {
        Ok(summary) => summary.as_slice() == wanted,
        Err(_) => false,
    }
}

#[test]
fn the_summary_has_ten_lines(rt: HostRuntime) {
    let script = parse(
        rt.alloc(),
        b"hmm 1\nframes 4\nactor 0\nmap 0 16 1 rw\nturns 0 20\n",
    )
    .ok()
    .expect(&rt, "the bytes are a script");
    let wanted =
        b"trial 7\nentries 0\nloaded 0\nstored 0\nfailed 0\nrefused 0\nmigrated 0\nevicted 0\nretry 0\nunfinished 1\n";
    assert!(rt; is_summary(rt.alloc(), &script, wanted));
}
