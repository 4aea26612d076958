// The spans that mirrors were told of.
ghost use Rattle.std.specs.Prelude.{◌≡◌, [], true, length, IfOk};
ghost use Rattle.hm_base.specs.Pages.{covers};
ghost use Rattle.hm_flaw_parts.specs.Told.{is_covered, is_within, told_in, with_told};
ghost use Rattle.hm_race_keys.specs.Sparse.{mixed};

use hm_base::{MirrorId, NoMemory, Span};
use hm_race_keys::sparse::mixed;
use std::alloc::Global;
use std::marker::Model;

/// A span that a mirror was told of, and the position of the entry that told it.
#[derive(Clone, Copy, PartialEq, Eq)]
pub struct ToldSpan {
    pub mirror: MirrorId,
    pub span: Span,
    pub at: u64,
}

/// The spans that mirrors were told of, the last first; without those within a later one of their mirror.
#[derive(Drop)]
pub struct ToldSpans {
    spans: Vec<ToldSpan>,
}

impl Model for ToldSpans {
    ghost use Rattle.std.specs.Prelude.{List};
    ghost use Rattle.hm_flaw_parts.specs.declared.told_spans.ToldSpan.{ToldSpan as AnySpan};

    ghost Value = { List AnySpan };

    ghost view = { λ s. s.spans.items };
}

// Whether each page of the one is a page of the other.
fn is_within(one: &Span, other: &Span) -> bool
    ensures { result ≡ is_within one.now other.now }
{
    let first = one.first().number();
    let from = other.first().number();
    from <= first && first + one.count() <= from + other.count()
}

impl ToldSpan {
    // Whether the mirror of this one was told of all its pages by another one.
    fn is_covered(&self, by: &ToldSpan) -> bool
        ensures { result ≡ is_covered by.now self.now }
    {
        self.mirror == by.mirror && is_within(&self.span, &by.span)
    }
}

fn has_page(span: &Span, page: u64) -> bool
    ensures { result ≡ covers span.now page }
{
    let first = span.first().number();
    first <= page && page < first + span.count()
}

// The position of the first of these that told the page of the mirror.
fn last_of(spans: &[ToldSpan], mirror: MirrorId, page: u64) -> Option<u64>
    ensures { result ≡ told_in spans.now mirror page }
{
    for told in spans {
        if told.mirror == mirror && has_page(&told.span, page) {
            return Some(told.at);
        }
    }
    None
}

fn same_spans(one: &[ToldSpan], other: &[ToldSpan]) -> bool
    ensures yes { result ≡ true → one.now ≡ other.now }
    ensures no { one.now ≡ other.now → result ≡ true }
{
    if one.len() != other.len() {
        return false;
    }
    for at in 0..one.len() {
        if one[at] != other[at] {
            return false;
        }
    }
    true
}

impl ToldSpans {
    /// No mirror was told of any. It takes no memory.
    pub fn new(alloc: Global) -> ToldSpans
        ensures { result ≡ [] }
    {
        ToldSpans {
            spans: Vec::new(alloc),
        }
    }

    /// One span more, the last.
    pub(crate) fn with(&self, alloc: Global, span: ToldSpan) -> Result<ToldSpans, NoMemory>
        ensures { IfOk result (λ x. x ≡ with_told span self.now) }
    {
        let mut spans = Vec::from_slice(alloc, self.spans.as_slice())?;
        spans.retain(|old| !old.is_covered(&span));
        match spans.insert(0, span) {
            Ok(()) => Ok(ToldSpans { spans }),
            Err(_) => Err(NoMemory),
        }
    }

    /// The position of the entry that told a page of a mirror last.
    pub(crate) fn last(&self, mirror: MirrorId, page: u64) -> Option<u64>
        ensures { result ≡ told_in self.now mirror page }
    {
        last_of(self.spans.as_slice(), mirror, page)
    }

    /// Whether both are the same.
    pub fn same(&self, other: &ToldSpans) -> bool
        ensures yes { result ≡ true → self.now ≡ other.now }
        ensures no { self.now ≡ other.now → result ≡ true }
    {
        same_spans(self.spans.as_slice(), other.spans.as_slice())
    }

    /// A sum with their number mixed in.
    pub fn bucket(&self, sum: u64) -> u64
        ensures { result ≡ mixed sum (length self.now) }
    {
        mixed(sum, self.spans.len() as u64)
    }
}
