// Scripts that are made, upgraded, and refused for what no small example shows.
use hm_base::Script;
use hm_script::{Reason, ScriptError, Words, generate, parse, parse_words, print, upgrade};
use std::alloc::Global;

/// The line and the number of the reason of a refusal, and 0 for both if there is none.
fn refusal(alloc: Global, text: &[u8]) -> (u64, u32) {
    match parse(alloc, text) {
        Err(ScriptError::Refused(refused)) => (refused.line, refused.why.number()),
        _ => (0, 0),
    }
}

/// Whether the text got one operation more than a script may have.
fn add_loads(text: &mut Vec<u8>) -> bool {
    for _ in 0..100_001 {
        if text.extend_from_slice(b"load 0 0x10000 1\n").is_err() {
            return false;
        }
    }
    true
}

#[test]
fn the_operation_after_the_last_is_refused(rt: HostRuntime) {
    let start = b"hmm 1\nframes 4\nactor 0\n".as_slice();
    let mut text = Vec::from_slice(rt.alloc(), start).expect(&rt, "memory");
    assert!(rt; add_loads(&mut text) && refusal(rt.alloc(), text.as_slice()) == (100_004, 7));
    assert!(rt; Reason::Limit.text() == "too many");
}

/// The line and the reason of the refusal of a word that is not there.
fn refused_word(alloc: Global) -> Option<(u64, Reason)> {
    let mut few = Words::all();
    few.drain = false;
    match parse_words(alloc, b"hmm 1\nframes 4\ndrain\n", &few) {
        Err(ScriptError::Refused(refused)) => Some((refused.line, refused.why)),
        _ => None,
    }
}

#[test]
fn a_word_that_is_not_there_is_a_bad_word(rt: HostRuntime) {
    assert!(rt; refused_word(rt.alloc()) == Some((3, Reason::Word)));
}

/// How the trial of 7 begins.
const TRIAL: &[u8] =
    b"hmm 1\nframes 2048\ndevice 0 256\ndevice 1 256\nskip 16\nactor 0\nmap 0 0 256 rw\n\
    map 0 256 64 r\nfork 0 1\nfork 0 2\nfork 0 3\nattach 0 0 0 0 320\nattach 1 1 0 0 320\n\
    attach 2 0 1 0 320\nattach 3 1 2 0 320\n";

/// Whether the script's text begins as the trial does, and is that of a script.
fn is_trial(alloc: Global, script: &Script) -> bool {
    match print(alloc, script) {
        Ok(text) => text.as_slice().starts_with(TRIAL) && is_script(alloc, text.as_slice()),
        Err(_) => false,
    }
}

/// Whether the bytes are a script.
fn is_script(alloc: Global, text: &[u8]) -> bool {
    parse(alloc, text).is_ok()
}

#[test]
fn a_trial_is_drawn(rt: HostRuntime) {
    let script = generate(rt.alloc(), 7).ok().expect(&rt, "memory");
    assert!(rt; is_trial(rt.alloc(), &script));
}

/// Whether this is the text of the script after the upgrade.
fn is_upgraded(alloc: Global, script: &mut Script, wanted: &[u8]) -> bool {
    upgrade(script);
    match print(alloc, script) {
        Ok(text) => text.as_slice() == wanted,
        Err(_) => false,
    }
}

#[test]
fn an_upgraded_script_has_another_first_line(rt: HostRuntime) {
    let mut script = parse(rt.alloc(), b"hmm 1\nframes 4\n")
        .ok()
        .expect(&rt, "the bytes are a script");
    assert!(rt; is_upgraded(rt.alloc(), &mut script, b"hmm 2\nframes 4\n"));
}
