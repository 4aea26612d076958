// Rules as closures that capture something of the caller's.
use crate::calls::{ALONE, DONE, words_in, writes};
use hm_io::{SureSink, SureSource};
use hm_top::run_alone;
use skip_rules::{BoxedRule, Kept, Leans};
use std::alloc::{AllocError, Global};
use std::process::Abort;
use std::sync::Arc;
use std::sync::atomic::{AtomicU64, Ordering};

/// A migration of two pages, which passes over every second one.
const SKIPS: &[u8] =
    b"hmm 1\nframes 4\ndevice 0 4\nskip 2\nactor 0\nmap 0 16 2 rw\nstore 0 0x10000 41\nstore 0 0x11000 42\n\
    attach 0 0 0 16 2\ntodev 0 16 2\nturns 0 99\n";

/// Whether all is done in a replay with these rules.
fn replays<R: Abort>(
    rt: &R,
    alloc: Global,
    sink: &mut SureSink,
    skip: &Kept,
    leans: &Leans,
) -> bool {
    let words = words_in(rt, alloc, "replay");
    let mut source = SureSource::new(alloc, SKIPS).expect(rt, "memory");
    let ended = run_alone(alloc, words, &mut source, sink, skip, leans);
    ended.status.code() == 0
}

// The rule counts in a counter of the caller's how often it is asked, and the report is the same.
#[test]
fn a_rule_that_counts(rt: HostRuntime) -> Result<(), AllocError> {
    let alloc = rt.alloc();
    let asked = Arc::new(alloc, AtomicU64::new(0))?;
    let count = asked.clone()?;
    let skips: BoxedRule = Box::new(alloc, move |every: u64, page: u64| {
        count.fetch_add(1, Ordering::SeqCst);
        every != 0 && page % every == 0
    })?;
    let leans: BoxedRule = Box::new(alloc, |x: u64, y: u64| x >= 4 && x - 4 >= y)?;
    let (skip, leans) = (Kept::new(skips), Leans::new(leans));
    let mut sink = SureSink::new(alloc);
    assert!(rt;
        replays(&rt, alloc, &mut sink, &skip, &leans)
            && asked.load(Ordering::SeqCst) == 2
            && writes(&rt, alloc, ALONE, "replay", SKIPS, DONE, sink.held())
    );
    Ok(())
}
