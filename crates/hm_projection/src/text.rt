// The text of a trace: what was recorded, and a line for each event, from number 0 on.
ghost use Rattle.std.specs.Prelude.{◌≡◌, ◌++◌, ◌<◌, ◌^◌, length, IfOk, OnOk};
ghost use Rattle.hm_projection.specs.Traces.{all};
ghost use Rattle.hm_trace.specs.Fits.{FitsTraced};
ghost use Rattle.hm_trace.specs.Traces.{FitsAll, trace_text};

use hm_base::{NoMemory, Text};
use hm_protocol::{Recorded, Traced};
use hm_report::Buffer;
use hm_trace::{TraceLine, put_line};
use std::alloc::Global;

/// All that the driver of the model does is in its history.
const ALL: Recorded = Recorded {
    set: true,
    erase: true,
    uses: true,
    take: true,
    free: true,
    model: true,
};

/// Costs nothing: it hands the prover that the event's numbers fit in 64 bits.
fn event_fits(traced: Traced)
    ensures { FitsTraced traced }
{
    let _ = traced;
}

/// The same of one that is lent.
fn fits_traced(traced: &Traced)
    ensures { FitsTraced traced.now }
{
    event_fits(*traced);
}

/// The text of a whole trace with these events.
#[tactic(auto, using(std::proofs::Common::append_assoc))]
pub(crate) fn trace_text(alloc: Global, events: &[Traced]) -> Result<Text, NoMemory>
    ensures text { IfOk result (λ t. t ≡ trace_text all events.now) }
    ensures fits { IfOk result (λ t. FitsAll events.now) }
    ensures few { length events.now < 2 ^ 64 }
{
    let mut text = Text::new(alloc);
    let mut out = Buffer::new(alloc)?;
    put_line(&mut out, &TraceLine::Names(ALL));
    text.extend(out.as_slice())?;
    for at in 0..events.len() {
        let event = events[at];
        fits_traced(&event);
        let number = at as u64;
        put_line(&mut out, &TraceLine::Event { number, event });
        text.extend(out.as_slice())?;
    }
    Ok(text)
}
