// Frames, spans and places, as a trace has them.
ghost use Rattle.std.specs.Prelude.{◌≡◌, [], ◌∷◌, ◌++◌, OnOk};
ghost use Rattle.hm_base.specs.Pages.{one_page};
ghost use Rattle.hm_history.specs.Memory.Words.{names};
ghost use Rattle.hm_protocol.specs.Projection as spec;

use hm_base::frames::names;
use hm_base::{Frame, NoMemory, Page, Place, PoolId, Span};
use hm_protocol::{Event, TraceFrame, TraceSpan};

/// Adds an event.
pub(crate) fn tell(told: &mut Vec<Event>, event: Event) -> Result<(), NoMemory>
    ensures { OnOk result (told.new.items ≡ told.old.items ++ event ∷ []) }
{
    told.push(event)?;
    Ok(())
}

/// The span, as a trace has it.
pub(crate) fn in_span(span: Span) -> TraceSpan
    ensures { result ≡ span }
{
    TraceSpan::new(span.first().number(), span.count())
}

/// The span of one page.
pub(crate) fn one_page(page: Page) -> TraceSpan
    ensures { result ≡ one_page page }
{
    TraceSpan::new(page.number(), 1)
}

/// The frame, as a trace has it.
pub(crate) fn in_trace(frame: &Frame) -> TraceFrame
    ensures { result ≡ spec.in_trace frame.now }
{
    let number = u64::from(frame.number);
    match frame.pool {
        PoolId::System => TraceFrame::System(number),
        PoolId::Device(dev) => TraceFrame::Private {
            device: u64::from(dev.number()),
            number,
        },
    }
}

/// A frame, or none.
pub(crate) fn frame_in_trace(frame: &Option<Frame>) -> TraceFrame
    ensures { result ≡ spec.frame_in_trace frame.now }
{
    match frame {
        None => TraceFrame::Nothing,
        Some(frame) => in_trace(frame),
    }
}

/// What a place shows.
pub(crate) fn shown(place: &Place) -> TraceFrame
    ensures { result ≡ spec.shown place.now }
{
    match place {
        Place::Zero => TraceFrame::ZeroPage,
        _ => frame_in_trace(&names(place)),
    }
}

/// What an entry of a table names.
pub(crate) fn entry_frame(frame: &Option<Frame>) -> TraceFrame
    ensures { result ≡ spec.entry_frame frame.now }
{
    match frame {
        None => TraceFrame::ZeroPage,
        Some(frame) => in_trace(frame),
    }
}

/// The device whose memory has the frame.
pub(crate) fn owner_of(frame: &Frame) -> Option<u64>
    ensures { result ≡ spec.owner_of frame.now }
{
    match frame.pool {
        PoolId::System => None,
        PoolId::Device(dev) => Some(u64::from(dev.number())),
    }
}
