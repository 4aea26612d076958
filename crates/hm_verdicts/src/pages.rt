// Spans of pages, as a trace has them.
ghost use Rattle.std.specs.Prelude.{◌≡◌, ◌+◌};
ghost use Rattle.hm_base.specs.Pages as pages;

use hm_protocol::TraceSpan;

// The first page after the span.
fn end(span: TraceSpan) -> u128
    ensures { result ≡ span.first + span.count }
{
    u128::from(span.first()) + u128::from(span.count())
}

/// Whether the page is one of the span's.
pub(crate) fn covers(span: TraceSpan, page: u64) -> bool
    ensures { result ≡ pages.covers span page }
{
    span.first() <= page && u128::from(page) < end(span)
}

/// Whether some page is in both.
pub(crate) fn overlap(one: TraceSpan, other: TraceSpan) -> bool
    ensures { result ≡ pages.overlap one other }
{
    u128::from(one.first()) < end(other) && u128::from(other.first()) < end(one)
}
