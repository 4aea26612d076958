// Events and the other lines of a trace, written into a buffer.
ghost use Rattle.std.specs.Prelude.{◌≡◌, ◌+◌, ◌≤◌, ◌∷◌, ◌++◌, [], true, false, length};
ghost use Rattle.std.specs.Fmt.{decimal};
ghost use Rattle.hm_report.specs.Line.{spaced};
ghost use Rattle.hm_report.specs.Words.{actor_text, device_text, mirror_text, proc_text, table_right_text, write_text};
ghost use Rattle.hm_trace.specs.EventWords.{is_of_driver, is_of_frames};
ghost use Rattle.hm_trace.specs.Spelling.{done_text, event_words, frame_text, lock_text, owner_text, reason_text};
ghost use Rattle.hm_trace.specs.Spelling.{way_text};

use hm_history::TableRight;
use hm_protocol::{Event, Reason as StartReason, TraceFrame, TraceSpan};
use hm_report::{Buffer, put_decimal};

fn put_number(out: &mut Buffer, number: u64)
    requires { length out.old + 140 ≤ 8192 }
    ensures text { out.new ≡ out.old ++ 32 ∷ decimal number }
    ensures room { length out.new ≤ length out.old + 140 }
{
    put_decimal(out, b" ", number);
}

fn put_mirror(out: &mut Buffer, mirror: u64)
    requires { length out.old + 140 ≤ 8192 }
    ensures text { out.new ≡ out.old ++ 32 ∷ mirror_text mirror }
    ensures room { length out.new ≤ length out.old + 140 }
{
    put_decimal(out, b" m", mirror);
}

fn put_proc(out: &mut Buffer, proc: u64)
    requires { length out.old + 140 ≤ 8192 }
    ensures text { out.new ≡ out.old ++ 32 ∷ proc_text proc }
    ensures room { length out.new ≤ length out.old + 140 }
{
    put_decimal(out, b" p", proc);
}

fn put_device(out: &mut Buffer, device: u64)
    requires { length out.old + 140 ≤ 8192 }
    ensures text { out.new ≡ out.old ++ 32 ∷ device_text device }
    ensures room { length out.new ≤ length out.old + 140 }
{
    put_decimal(out, b" d", device);
}

/// A device, or that there is none.
fn put_owner(out: &mut Buffer, owner: Option<u64>)
    requires { length out.old + 140 ≤ 8192 }
    ensures text { out.new ≡ out.old ++ 32 ∷ owner_text owner }
    ensures room { length out.new ≤ length out.old + 140 }
{
    match owner {
        Some(device) => put_device(out, device),
        None => out.put(b" -"),
    }
}

/// The first page of a span, and how many pages it has.
#[tactic(auto, using(std::proofs::Common::append_assoc))]
fn put_span(out: &mut Buffer, span: TraceSpan)
    requires { length out.old + 280 ≤ 8192 }
    ensures text { out.new ≡ out.old ++ spaced (decimal span.first ∷ decimal span.count ∷ []) }
    ensures room { length out.new ≤ length out.old + 280 }
{
    put_number(out, span.first());
    put_number(out, span.count());
}

#[tactic(auto, using(std::proofs::Common::append_assoc))]
fn put_frame(out: &mut Buffer, frame: TraceFrame)
    requires { length out.old + 140 ≤ 8192 }
    ensures text { out.new ≡ out.old ++ 32 ∷ frame_text frame }
    ensures room { length out.new ≤ length out.old + 140 }
{
    match frame {
        TraceFrame::Nothing => out.put(b" none"),
        TraceFrame::ZeroPage => out.put(b" zero"),
        TraceFrame::System(number) => put_decimal(out, b" s", number),
        TraceFrame::Private { device, number } => {
            put_decimal(out, b" d", device);
            put_decimal(out, b".", number);
        }
        TraceFrame::Coherent { device, number } => {
            put_decimal(out, b" c", device);
            put_decimal(out, b".", number);
        }
    }
}

/// Whether a call did what it was to do.
fn put_done(out: &mut Buffer, done: bool)
    requires { length out.old + 140 ≤ 8192 }
    ensures text { out.new ≡ out.old ++ 32 ∷ done_text done }
    ensures room { length out.new ≤ length out.old + 140 }
{
    if done {
        out.put(b" done");
    } else {
        out.put(b" failed");
    }
}

/// Whether somebody holds the mmap lock.
fn put_lock(out: &mut Buffer, locked: bool)
    requires { length out.old + 140 ≤ 8192 }
    ensures text { out.new ≡ out.old ++ 32 ∷ lock_text locked }
    ensures room { length out.new ≤ length out.old + 140 }
{
    if locked {
        out.put(b" locked");
    } else {
        out.put(b" unlocked");
    }
}

/// Whether a migration goes to a device.
fn put_way(out: &mut Buffer, to_device: bool)
    requires { length out.old + 140 ≤ 8192 }
    ensures text { out.new ≡ out.old ++ 32 ∷ way_text to_device }
    ensures room { length out.new ≤ length out.old + 140 }
{
    if to_device {
        out.put(b" todev");
    } else {
        out.put(b" tosys");
    }
}

/// Whether a page may be written.
fn put_writes(out: &mut Buffer, writes: bool)
    requires { length out.old + 140 ≤ 8192 }
    ensures text { out.new ≡ out.old ++ 32 ∷ write_text writes }
    ensures room { length out.new ≤ length out.old + 140 }
{
    if writes {
        out.put(b" w");
    } else {
        out.put(b" r");
    }
}

fn put_right(out: &mut Buffer, right: TableRight)
    requires { length out.old + 140 ≤ 8192 }
    ensures text { out.new ≡ out.old ++ 32 ∷ table_right_text right }
    ensures room { length out.new ≤ length out.old + 140 }
{
    match right {
        TableRight::Read => out.put(b" r"),
        TableRight::Write => out.put(b" w"),
        TableRight::Sole => out.put(b" x"),
    }
}

/// Why an invalidation begins.
#[tactic(auto, using(std::proofs::Common::append_assoc))]
fn put_reason(out: &mut Buffer, why: StartReason)
    requires { length out.old + 140 ≤ 8192 }
    ensures text { out.new ≡ out.old ++ 32 ∷ reason_text why }
    ensures room { length out.new ≤ length out.old + 140 }
{
    match why {
        StartReason::Unmap => out.put(b" unmap"),
        StartReason::Clear => out.put(b" clear"),
        StartReason::ProtectArea => out.put(b" protect_vma"),
        StartReason::ProtectPage => out.put(b" protect_page"),
        StartReason::SoftDirty => out.put(b" soft_dirty"),
        StartReason::Release => out.put(b" release"),
        StartReason::Migrate => out.put(b" migrate"),
        StartReason::Exclusive => out.put(b" exclusive"),
    }
}

/// Adds a name and a mirror.
#[tactic(auto, using(std::proofs::Common::append_assoc))]
fn put_of_mirror(out: &mut Buffer, name: &[u8], mirror: u64)
    requires name { length name.now ≤ 100 }
    requires room { length out.old + 700 ≤ 8192 }
    ensures text { out.new
        ≡ out.old ++ (name.now ++ spaced (mirror_text mirror ∷ [])) }
    ensures room { length out.new ≤ length out.old + 100 + 140 }
{
    out.put(name);
    put_mirror(out, mirror);
}

/// Adds a name, a mirror and a number.
#[tactic(auto, using(std::proofs::Common::append_assoc))]
fn put_of_mirror_at(out: &mut Buffer, name: &[u8], mirror: u64, number: u64)
    requires name { length name.now ≤ 100 }
    requires room { length out.old + 700 ≤ 8192 }
    ensures text { out.new
        ≡ out.old ++ (name.now ++ spaced (mirror_text mirror ∷ decimal number ∷ [])) }
    ensures room { length out.new ≤ length out.old + 100 + 280 }
{
    out.put(name);
    put_mirror(out, mirror);
    put_number(out, number);
}

/// Adds a name and a process.
#[tactic(auto, using(std::proofs::Common::append_assoc))]
fn put_of_proc(out: &mut Buffer, name: &[u8], proc: u64)
    requires name { length name.now ≤ 100 }
    requires room { length out.old + 700 ≤ 8192 }
    ensures text { out.new
        ≡ out.old ++ (name.now ++ spaced (proc_text proc ∷ [])) }
    ensures room { length out.new ≤ length out.old + 100 + 140 }
{
    out.put(name);
    put_proc(out, proc);
}

/// Adds a name and a frame.
#[tactic(auto, using(std::proofs::Common::append_assoc))]
fn put_of_frame(out: &mut Buffer, name: &[u8], frame: TraceFrame)
    requires name { length name.now ≤ 100 }
    requires room { length out.old + 700 ≤ 8192 }
    ensures text { out.new
        ≡ out.old ++ (name.now ++ spaced (frame_text frame ∷ [])) }
    ensures room { length out.new ≤ length out.old + 100 + 140 }
{
    out.put(name);
    put_frame(out, frame);
}

/// Adds a name and a device.
#[tactic(auto, using(std::proofs::Common::append_assoc))]
fn put_of_device(out: &mut Buffer, name: &[u8], device: u64)
    requires name { length name.now ≤ 100 }
    requires room { length out.old + 700 ≤ 8192 }
    ensures text { out.new
        ≡ out.old ++ (name.now ++ spaced (device_text device ∷ [])) }
    ensures room { length out.new ≤ length out.old + 100 + 140 }
{
    out.put(name);
    put_device(out, device);
}

/// Adds a name, a page and its frame.
#[tactic(auto, using(std::proofs::Common::append_assoc))]
fn put_of_page_frame(out: &mut Buffer, name: &[u8], number: u64, frame: TraceFrame)
    requires name { length name.now ≤ 100 }
    requires room { length out.old + 700 ≤ 8192 }
    ensures text { out.new
        ≡ out.old ++ (name.now ++ spaced (decimal number ∷ frame_text frame ∷ [])) }
    ensures room { length out.new ≤ length out.old + 100 + 280 }
{
    out.put(name);
    put_number(out, number);
    put_frame(out, frame);
}

/// Adds a name, a mirror, a sequence and whether the call did what it was to do.
#[tactic(auto, using(std::proofs::Common::append_assoc))]
fn put_of_answer(out: &mut Buffer, name: &[u8], mirror: u64, number: u64, done: bool)
    requires name { length name.now ≤ 100 }
    requires room { length out.old + 700 ≤ 8192 }
    ensures text { out.new
        ≡ out.old ++ (name.now ++ spaced (mirror_text mirror ∷ decimal number ∷ done_text done ∷ [])) }
    ensures room { length out.new ≤ length out.old + 100 + 420 }
{
    out.put(name);
    put_mirror(out, mirror);
    put_number(out, number);
    put_done(out, done);
}

/// Adds a name, a process and a span.
#[tactic(auto, using(std::proofs::Common::append_assoc))]
fn put_of_span(out: &mut Buffer, name: &[u8], proc: u64, span: TraceSpan)
    requires name { length name.now ≤ 100 }
    requires room { length out.old + 700 ≤ 8192 }
    ensures text { out.new
        ≡ out.old ++ (name.now ++ spaced (proc_text proc ∷ decimal span.first ∷ decimal span.count ∷ [])) }
    ensures room { length out.new ≤ length out.old + 100 + 420 }
{
    out.put(name);
    put_proc(out, proc);
    put_span(out, span);
}

/// Adds a name, a mirror and a span.
#[tactic(auto, using(std::proofs::Common::append_assoc))]
fn put_of_mirror_span(out: &mut Buffer, name: &[u8], mirror: u64, span: TraceSpan)
    requires name { length name.now ≤ 100 }
    requires room { length out.old + 700 ≤ 8192 }
    ensures text { out.new
        ≡ out.old ++ (name.now ++ spaced (mirror_text mirror ∷ decimal span.first ∷ decimal span.count ∷ [])) }
    ensures room { length out.new ≤ length out.old + 100 + 420 }
{
    out.put(name);
    put_mirror(out, mirror);
    put_span(out, span);
}

/// Adds the words of `found`.
#[tactic(auto, using(std::proofs::Common::append_assoc))]
fn put_found_event(out: &mut Buffer, mirror: u64, page: u64, frame: TraceFrame, writes: bool)
    requires { length out.old + 1200 ≤ 8192 }
    ensures text { out.new ≡ out.old ++ spaced (event_words (Event.Found mirror page frame writes)) }
    ensures room { length out.new ≤ length out.old + 1200 }
{
    put_of_mirror_at(out, b" found", mirror, page);
    put_frame(out, frame);
    put_writes(out, writes);
}

/// Adds the words of `use`.
#[tactic(auto, using(std::proofs::Common::append_assoc))]
fn put_use_event(out: &mut Buffer, mirror: u64, span: TraceSpan, writes: bool)
    requires { length out.old + 1200 ≤ 8192 }
    ensures text { out.new ≡ out.old ++ spaced (event_words (Event.Use mirror span writes)) }
    ensures room { length out.new ≤ length out.old + 1200 }
{
    put_of_mirror_span(out, b" use", mirror, span);
    put_writes(out, writes);
}

/// Adds the words of `set`.
#[tactic(auto, using(std::proofs::Common::append_assoc))]
fn put_set_event(out: &mut Buffer, mirror: u64, page: u64, frame: TraceFrame, right: TableRight)
    requires { length out.old + 1200 ≤ 8192 }
    ensures text { out.new ≡ out.old ++ spaced (event_words (Event.Set mirror page frame right)) }
    ensures room { length out.new ≤ length out.old + 1200 }
{
    put_of_mirror_at(out, b" set", mirror, page);
    put_frame(out, frame);
    put_right(out, right);
}

/// Adds the words of `start`.
#[tactic(auto, using(std::proofs::Common::append_assoc))]
fn put_start_event(
    out: &mut Buffer,
    proc: u64,
    span: TraceSpan,
    reason: StartReason,
    owner: Option<u64>,
)
    requires { length out.old + 1200 ≤ 8192 }
    ensures text { out.new ≡ out.old ++ spaced (event_words (Event.Start proc span reason owner)) }
    ensures room { length out.new ≤ length out.old + 1200 }
{
    put_of_span(out, b" start", proc, span);
    put_reason(out, reason);
    put_owner(out, owner);
}

/// Adds the words of `tell`.
#[tactic(auto, using(std::proofs::Common::append_assoc))]
fn put_tell_event(out: &mut Buffer, mirror: u64, span: TraceSpan, seq: u64)
    requires { length out.old + 1200 ≤ 8192 }
    ensures text { out.new ≡ out.old ++ spaced (event_words (Event.Tell mirror span seq)) }
    ensures room { length out.new ≤ length out.old + 1200 }
{
    put_of_mirror_span(out, b" tell", mirror, span);
    put_number(out, seq);
}

/// Adds the words of `walk`.
#[tactic(auto, using(std::proofs::Common::append_assoc))]
fn put_walk_event(
    out: &mut Buffer,
    mirror: u64,
    span: TraceSpan,
    seq: u64,
    locked: bool,
    owner: Option<u64>,
)
    requires { length out.old + 1200 ≤ 8192 }
    ensures text { out.new ≡ out.old ++ spaced (event_words (Event.Walk mirror span seq locked owner)) }
    ensures room { length out.new ≤ length out.old + 1200 }
{
    put_of_mirror_span(out, b" walk", mirror, span);
    put_number(out, seq);
    put_lock(out, locked);
    put_owner(out, owner);
}

/// Adds the words of `walked`.
#[tactic(auto, using(std::proofs::Common::append_assoc))]
fn put_walked_event(out: &mut Buffer, mirror: u64, done: bool)
    requires { length out.old + 1200 ≤ 8192 }
    ensures text { out.new ≡ out.old ++ spaced (event_words (Event.Walked mirror done)) }
    ensures room { length out.new ≤ length out.old + 1200 }
{
    put_of_mirror(out, b" walked", mirror);
    put_done(out, done);
}

/// Adds the words of `from`.
#[tactic(auto, using(std::proofs::Common::append_assoc))]
fn put_collected_event(out: &mut Buffer, page: u64, frame: TraceFrame, writes: bool)
    requires { length out.old + 1200 ≤ 8192 }
    ensures text { out.new ≡ out.old ++ spaced (event_words (Event.From page frame writes)) }
    ensures room { length out.new ≤ length out.old + 1200 }
{
    put_of_page_frame(out, b" from", page, frame);
    put_writes(out, writes);
}

/// Adds the words of `setup`.
#[tactic(auto, using(std::proofs::Common::append_assoc))]
fn put_setup_event(
    out: &mut Buffer,
    proc: u64,
    span: TraceSpan,
    to_device: bool,
    owner: Option<u64>,
)
    requires { length out.old + 1200 ≤ 8192 }
    ensures text { out.new ≡ out.old ++ spaced (event_words (Event.Setup proc span to_device owner)) }
    ensures room { length out.new ≤ length out.old + 1200 }
{
    put_of_span(out, b" setup", proc, span);
    put_way(out, to_device);
    put_owner(out, owner);
}

/// Adds the words of `insert`.
#[tactic(auto, using(std::proofs::Common::append_assoc))]
fn put_insert_event(
    out: &mut Buffer,
    mirror: u64,
    proc: u64,
    window: TraceSpan,
    device: Option<u64>,
)
    requires { length out.old + 1200 ≤ 8192 }
    ensures text { out.new ≡ out.old ++ spaced (event_words (Event.Insert mirror proc window device)) }
    ensures room { length out.new ≤ length out.old + 1200 }
{
    put_of_mirror(out, b" insert", mirror);
    put_proc(out, proc);
    put_span(out, window);
    put_owner(out, device);
}

/// Adds the words of an event of a migration, or of the frames of a device.
fn put_of_frames(out: &mut Buffer, event: &Event)
    requires room { length out.old + 1200 ≤ 8192 }
    requires which { is_of_frames event.now ≡ true }
    ensures text { out.new ≡ out.old ++ spaced (event_words event.now) }
    ensures room { length out.new ≤ length out.old + 1200 }
{
    match event {
        Event::From {
            page,
            frame,
            writes,
        } => put_collected_event(out, *page, *frame, *writes),
        Event::Moved { page, frame } => put_of_page_frame(out, b" moved", *page, *frame),
        Event::Stayed { page, frame } => put_of_page_frame(out, b" stayed", *page, *frame),
        Event::Setup {
            proc,
            span,
            to_device,
            owner,
        } => put_setup_event(out, *proc, *span, *to_device, *owner),
        Event::Ready { proc } => put_of_proc(out, b" ready", *proc),
        Event::Paged { proc } => put_of_proc(out, b" pages", *proc),
        Event::Finalize { proc } => put_of_proc(out, b" finalize", *proc),
        Event::Take { frame } => put_of_frame(out, b" take", *frame),
        Event::Free { frame } => put_of_frame(out, b" free", *frame),
        Event::Withdraw { device } => put_of_device(out, b" withdraw", *device),
        Event::Gone { device } => put_of_device(out, b" gone", *device),
        Event::Pass { frame } => put_of_frame(out, b" pass", *frame),
        _ => unreachable!(),
    }
}

/// Adds the words of an event of intervals and invalidations, or of one of those.
fn put_of_notifiers(out: &mut Buffer, event: &Event)
    requires room { length out.old + 1200 ≤ 8192 }
    requires which { is_of_driver event.now ≡ false }
    ensures text { out.new ≡ out.old ++ spaced (event_words event.now) }
    ensures room { length out.new ≤ length out.old + 1200 }
{
    match event {
        Event::Insert {
            mirror,
            proc,
            window,
            device,
        } => put_insert_event(out, *mirror, *proc, *window, *device),
        Event::Inserted { mirror, seq, done } => put_of_answer(
            out,
            b" inserted",
            *mirror,
            *seq,
            *done,
        ),
        Event::Remove { mirror } => put_of_mirror(out, b" remove", *mirror),
        Event::Removed { mirror } => put_of_mirror(out, b" removed", *mirror),
        Event::Start {
            proc,
            span,
            reason,
            owner,
        } => put_start_event(out, *proc, *span, *reason, *owner),
        Event::End { proc, span } => put_of_span(out, b" end", *proc, *span),
        Event::Tell { mirror, span, seq } => put_tell_event(out, *mirror, *span, *seq),
        Event::Told { mirror, seq, done } => put_of_answer(out, b" told", *mirror, *seq, *done),
        _ => put_of_frames(out, event),
    }
}

/// Adds the words of an event, each with a space before it.
pub(crate) fn put_event(out: &mut Buffer, event: &Event)
    requires { length out.old + 1200 ≤ 8192 }
    ensures text { out.new ≡ out.old ++ spaced (event_words event.now) }
    ensures room { length out.new ≤ length out.old + 1200 }
{
    match event {
        Event::Found {
            mirror,
            page,
            frame,
            writes,
        } => put_found_event(out, *mirror, *page, *frame, *writes),
        Event::Use {
            mirror,
            span,
            writes,
        } => put_use_event(out, *mirror, *span, *writes),
        Event::Set {
            mirror,
            page,
            frame,
            right,
        } => put_set_event(out, *mirror, *page, *frame, *right),
        Event::Erase { mirror, page } => put_of_mirror_at(out, b" erase", *mirror, *page),
        Event::Begin { mirror, seq } => put_of_mirror_at(out, b" begin", *mirror, *seq),
        Event::Walk {
            mirror,
            span,
            seq,
            locked,
            owner,
        } => put_walk_event(out, *mirror, *span, *seq, *locked, *owner),
        Event::Walked { mirror, done } => put_walked_event(out, *mirror, *done),
        Event::Fetch { mirror, page } => put_of_mirror_at(out, b" fetch", *mirror, *page),
        Event::Add { mirror, page } => put_of_mirror_at(out, b" add", *mirror, *page),
        _ => put_of_notifiers(out, event),
    }
}
