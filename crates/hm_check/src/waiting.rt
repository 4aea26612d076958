// Frames, and why an actor waits, as words.
ghost use Rattle.std.specs.Prelude.{◌≡◌, ◌+◌, ◌≤◌, ◌++◌, length};
ghost use Rattle.hm_check.specs.Waiting.{why_text};
ghost use Rattle.hm_report.specs.Words.{frame_text};

use hm_base::{Frame, PoolId};
use hm_history::Why;
use hm_report::{Buffer, put_decimal};

/// Adds the frame.
#[tactic(auto, using(std::proofs::Common::append_assoc))]
pub fn put_frame(out: &mut Buffer, frame: &Frame)
    requires { length out.old ≤ 1000 }
    ensures text { out.new ≡ out.old ++ frame_text frame.now }
    ensures room { length out.new ≤ length out.old + 200 }
{
    match frame.pool {
        PoolId::System => put_decimal(out, b"s", u64::from(frame.number)),
        PoolId::Device(dev) => {
            put_decimal(out, b"d", u64::from(dev.number()));
            put_decimal(out, b".", u64::from(frame.number));
        }
    }
}

/// Adds why an actor waits: of what kind the wait is, and what it tells, with these bytes between its words.
#[tactic(auto, using(std::proofs::Common::append_assoc))]
pub fn put_why(out: &mut Buffer, why: &Why, between: &[u8])
    requires room { length out.old ≤ 100 }
    requires between { length between.now ≤ 10 }
    ensures text { out.new ≡ out.old ++ why_text between.now why.now }
    ensures room { length out.new ≤ length out.old + 1000 }
{
    match why {
        Why::MapLock(proc, actor) => {
            out.put(b"lock");
            out.put(between);
            put_decimal(out, b"p", u64::from(proc.number()));
            out.put(between);
            put_decimal(out, b"a", u64::from(actor.number()));
        }
        Why::Moving(proc, page) => {
            out.put(b"moving");
            out.put(between);
            put_decimal(out, b"p", u64::from(proc.number()));
            put_decimal(out, between, page.number());
        }
        Why::FrameLocked(frame, actor) => {
            out.put(b"frame");
            out.put(between);
            put_frame(out, frame);
            out.put(between);
            put_decimal(out, b"a", u64::from(actor.number()));
        }
        Why::Invalidating(mirror, seq) => {
            out.put(b"told");
            out.put(between);
            put_decimal(out, b"m", u64::from(mirror.number()));
            put_decimal(out, between, *seq);
        }
    }
}
