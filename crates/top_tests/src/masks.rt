// The pages that a rule skips, as words that are worked out beforehand.
use hm_base::{Page, Script, Span};
use hm_script::parse;
use skip_masks::{mask, masks};
use skip_rules::Multiples;
use std::alloc::Global;

/// Two actors, of which each migrates pages to a device, from page 6 and from page 16 on. Every fourth page is skipped.
const MIGRATIONS: &[u8] =
    b"hmm 1\nframes 4\ndevice 0 4\nskip 4\nactor 0\nload 0 0x10000 1\ntodev 0 6 8\n\
    tosys 0 6 8\nactor 1\ntodev 0 16 1\n";

/// Whether the script's four operations have these words.
fn has_words(alloc: Global, script: &Script) -> bool {
    match masks(alloc, &Multiples, script) {
        Ok(words) => words.as_slice() == [0u64, 0b0100_0100, 0, 1].as_slice(),
        Err(_) => false,
    }
}

#[test]
fn a_word_for_each_operation(rt: HostRuntime) {
    let script = parse(rt.alloc(), MIGRATIONS)
        .ok()
        .expect(&rt, "the bytes are a script");
    assert!(rt; has_words(rt.alloc(), &script));
}

#[test]
fn every_fourth_page(rt: HostRuntime) {
    let span = Span::new(Page::new(6), 8);
    let long = Span::new(Page::new(0), 100);
    assert!(rt;
        mask(&Multiples, 4, span) == 0b0100_0100
            && mask(&Multiples, 0, span) == 0
            && mask(&Multiples, 1, long) == u64::MAX
    );
}
