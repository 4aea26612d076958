// Frames of events, which of them are held, and rights of entries.
ghost use Rattle.std.specs.Prelude.{◌≡◌, ◌∷◌, OnOk, reverse};
ghost use Rattle.std.specs.List.{list_any};
ghost use Rattle.hm_protocol.specs.Words as words;

use hm_base::NoMemory;
use hm_history::TableRight;
use hm_protocol::TraceFrame;

/// The device whose memory has the frame.
pub(crate) fn device_of(frame: TraceFrame) -> Option<u64>
    ensures { result ≡ words.device_of frame }
{
    match frame {
        TraceFrame::Private { device, .. } | TraceFrame::Coherent { device, .. } => Some(device),
        TraceFrame::Nothing | TraceFrame::ZeroPage | TraceFrame::System(_) => None,
    }
}

/// The device that alone reaches it.
pub(crate) fn private_to(frame: TraceFrame) -> Option<u64>
    ensures { result ≡ words.private_to frame }
{
    match frame {
        TraceFrame::Private { device, .. } => Some(device),
        _ => None,
    }
}

/// Whether it is the same frame.
pub(crate) fn is_same(one: TraceFrame, other: TraceFrame) -> bool
    ensures { result ≡ words.is_same one other }
{
    match (one, other) {
        (TraceFrame::Nothing, TraceFrame::Nothing) | (TraceFrame::ZeroPage, TraceFrame::ZeroPage) =>
            true,
        (TraceFrame::System(n), TraceFrame::System(k)) => n == k,
        (
            TraceFrame::Private {
                device: d,
                number: n,
            },
            TraceFrame::Private {
                device: e,
                number: k,
            },
        )
        | (
            TraceFrame::Coherent {
                device: d,
                number: n,
            },
            TraceFrame::Coherent {
                device: e,
                number: k,
            },
        ) => d == e && n == k,
        _ => false,
    }
}

/// Whether the device's memory has the frame.
pub(crate) fn is_of(frame: TraceFrame, device: u64) -> bool
    ensures { result ≡ words.is_it (words.device_of frame) device }
{
    match device_of(frame) {
        None => false,
        Some(other) => other == device,
    }
}

/// Whether the entry is for reads.
pub(crate) fn is_read(right: TableRight) -> bool
    ensures { result ≡ words.is_read right }
{
    match right {
        TableRight::Read => true,
        _ => false,
    }
}

/// Whether it is for writes.
pub(crate) fn is_write(right: TableRight) -> bool
    ensures { result ≡ words.is_write right }
{
    match right {
        TableRight::Write => true,
        _ => false,
    }
}

/// Whether it is for one actor.
pub(crate) fn is_sole(right: TableRight) -> bool
    ensures { result ≡ words.is_sole right }
{
    match right {
        TableRight::Sole => true,
        _ => false,
    }
}

// Whether the device's memory has one of them.
fn some_of(frames: &[TraceFrame], device: u64) -> bool
    ensures { result ≡ list_any (λ f. words.is_it (words.device_of f) device) frames.now }
{
    frames.iter().any(|frame| is_of(*frame, device))
}

/// The same of frames that are kept the oldest first.
#[tactic(auto, using(crate::proofs::Reversed::any_reversed))]
pub(crate) fn are_of(frames: &[TraceFrame], device: u64) -> bool
    ensures { result ≡ list_any (λ f. words.is_it (words.device_of f) device) (reverse frames.now) }
{
    some_of(frames, device)
}

/// The frame is held.
pub(crate) fn hold(held: &mut Vec<TraceFrame>, frame: TraceFrame) -> Result<(), NoMemory>
    ensures { OnOk result (reverse held.new.items ≡ frame ∷ reverse held.old.items) }
{
    held.push(frame)?;
    Ok(())
}

// The frame is not among them any more.
fn drop_frame(held: &mut Vec<TraceFrame>, frame: TraceFrame)
    ensures { held.new.items ≡ words.drop_if (words.is_same frame) held.old.items }
{
    held.retain(|other| !is_same(frame, *other));
}

/// The frame is free.
#[tactic(auto, using(crate::proofs::Reversed::filter_reversed))]
pub(crate) fn free(held: &mut Vec<TraceFrame>, frame: TraceFrame)
    ensures { reverse held.new.items ≡ words.drop_if (words.is_same frame) (reverse held.old.items) }
{
    drop_frame(held, frame);
}
