// The lines of an entry's changes: what is so from the entry on.
ghost use Rattle.std.specs.Fmt.{decimal};
ghost use Rattle.std.specs.Prelude.{◌≡◌, ◌+◌, ◌≤◌, ◌∷◌, ◌++◌, [], Some, None, true, false, length, codes, OnOk};
ghost use Rattle.hm_history.specs.Memory.Plain.{Attachment, owner, mirror_owner};
ghost use Rattle.hm_history.specs.Memory.Sequences.{interval_seq};
ghost use Rattle.hm_history.specs.Memory.Words.{names};
ghost use Rattle.hm_report.specs.Line.{spaced};
ghost use Rattle.hm_report.specs.Words.{head_words};
ghost use Rattle.hm_script.specs.Spelling.{right_text};
ghost use Rattle.hm_world.specs.WorldValue.{now};
ghost use Rattle.hm_view.specs.Changes.{change_line, change_lines, first_lines};
ghost use Rattle.hm_view.specs.Shown.{Change, lock_changes, locker_changes, place_before};
ghost use Rattle.hm_view.specs.Shown.{byte_changes, changes_to, frame_changes, mirror_changes, other_changes};
ghost use Rattle.hm_view.specs.Shown.{process_changes, stored_changes};

use hm_base::frames::names;
use hm_base::{Actor, Dev, Frame, MirrorId, NoMemory, Place, Proc, Rights, Span, Text};
use hm_check::put_frame;
use hm_history::{Entry, Kind, Who};
use hm_reads::Reads;
use hm_report::{Buffer, add_tail, digit, put_decimal, put_head, put_interval};
use hm_spaces::map_locks::releases;
use hm_world::World;

/// The place of the page that a `place` is about.
pub(crate) fn place_before(world: &World, kind: &Kind) -> Place
    ensures { result ≡ place_before (now world.now).after kind.now }
{
    match kind {
        Kind::Place {
            proc,
            page,
            place: _,
        } => world.place(*proc, *page),
        _ => Place::Empty,
    }
}

// ---- words

fn put_proc(out: &mut Buffer, lead: &[u8], proc: Proc)
    requires old { length out.old ≤ 2000 }
    requires lead { length lead.now ≤ 20 }
    ensures text { out.new ≡ out.old ++ (lead.now ++ decimal proc) }
    ensures room { length out.new ≤ length out.old + 90 }
{
    put_decimal(out, lead, u64::from(proc.number()));
}

fn put_mirror(out: &mut Buffer, lead: &[u8], mirror: MirrorId)
    requires old { length out.old ≤ 2000 }
    requires lead { length lead.now ≤ 20 }
    ensures text { out.new ≡ out.old ++ (lead.now ++ decimal mirror) }
    ensures room { length out.new ≤ length out.old + 90 }
{
    put_decimal(out, lead, u64::from(mirror.number()));
}

fn put_actor(out: &mut Buffer, lead: &[u8], actor: Actor)
    requires old { length out.old ≤ 2000 }
    requires lead { length lead.now ≤ 20 }
    ensures text { out.new ≡ out.old ++ (lead.now ++ decimal actor) }
    ensures room { length out.new ≤ length out.old + 90 }
{
    put_decimal(out, lead, u64::from(actor.number()));
}

/// Adds a span and the line's end.
#[tactic(auto, using(std::proofs::Common::append_assoc))]
fn put_span(out: &mut Buffer, span: Span)
    requires { length out.old ≤ 2000 }
    ensures text { out.new ≡ out.old ++ (spaced (decimal span.first ∷ decimal span.count ∷ []) ++ 10 ∷ []) }
    ensures room { length out.new ≤ length out.old + 140 }
{
    put_decimal(out, b" ", span.first().number());
    put_decimal(out, b" ", span.count());
    out.push(b'\n');
}

/// Adds a span, a right and the line's end.
#[tactic(auto, using(std::proofs::Common::append_assoc))]
fn put_area(out: &mut Buffer, span: Span, rights: Rights)
    requires { length out.old ≤ 2000 }
    ensures text { out.new
        ≡ out.old ++ (spaced (decimal span.first ∷ decimal span.count ∷ right_text rights ∷ []) ++ 10 ∷ []) }
    ensures room { length out.new ≤ length out.old + 150 }
{
    put_decimal(out, b" ", span.first().number());
    put_decimal(out, b" ", span.count());
    match rights {
        Rights::Read => out.put(b" r\n"),
        Rights::ReadWrite => out.put(b" rw\n"),
    }
}

// ---- mmap locks

/// Adds that the actor holds a process's mmap lock.
#[tactic(auto, using(std::proofs::Common::append_assoc))]
fn put_holds(out: &mut Buffer, actor: Actor, proc: Proc, writes: bool)
    requires { length out.old ≤ 100 }
    ensures text { out.new
        ≡ out.old ++ change_line (Change.Lock actor (Some (record { proc = proc; writes = writes }))) }
    ensures room { length out.new ≤ length out.old + 200 }
{
    if writes {
        put_actor(out, b"= writes a", actor);
    } else {
        put_actor(out, b"= reads a", actor);
    }
    put_proc(out, b" p", proc);
    out.push(b'\n');
}

/// Adds that the actor holds none.
#[tactic(auto, using(std::proofs::Common::append_assoc))]
fn put_unlock(out: &mut Buffer, actor: Actor)
    requires { length out.old ≤ 100 }
    ensures text { out.new ≡ out.old ++ change_line (Change.Lock actor None) }
    ensures room { length out.new ≤ length out.old + 200 }
{
    put_actor(out, b"= unlock a", actor);
    out.push(b'\n');
}

/// Adds the mmap lock that the actor has after its entry.
#[tactic(auto, using(std::proofs::Common::append_assoc))]
fn put_lock(out: &mut Buffer, actor: Actor, kind: &Kind)
    requires { length out.old ≤ 100 }
    ensures text { out.new ≡ out.old ++ change_lines (lock_changes actor kind.now) }
    ensures room { length out.new ≤ length out.old + 200 }
{
    match kind {
        Kind::Rlock(proc) => put_holds(out, actor, *proc, false),
        Kind::Wlock(proc) => put_holds(out, actor, *proc, true),
        _ => {
            if releases(kind) {
                put_unlock(out, actor);
            }
        }
    }
}

// ---- frames

/// Adds whether the frame is held.
#[tactic(auto, using(std::proofs::Common::append_assoc))]
fn put_held(out: &mut Buffer, frame: &Frame, held: bool)
    requires { length out.old ≤ 300 }
    ensures text { out.new ≡ out.old ++ change_line (Change.Held frame.now held) }
    ensures room { length out.new ≤ length out.old + 250 }
{
    if held {
        out.put(b"= held ");
    } else {
        out.put(b"= free ");
    }
    put_frame(out, frame);
    out.push(b'\n');
}

/// Adds who has the frame locked.
#[tactic(auto, using(std::proofs::Common::append_assoc))]
fn put_locker(out: &mut Buffer, frame: &Frame, locker: Option<Actor>)
    requires { length out.old ≤ 900 }
    ensures text { out.new ≡ out.old ++ change_line (Change.Locker frame.now locker) }
    ensures room { length out.new ≤ length out.old + 310 }
{
    match locker {
        None => {
            out.put(b"= loose ");
            put_frame(out, frame);
        }
        Some(actor) => {
            out.put(b"= locked ");
            put_frame(out, frame);
            put_actor(out, b" a", actor);
        }
    }
    out.push(b'\n');
}

/// Adds who has the frame locked now, if there is one.
#[tactic(auto, using(std::proofs::Common::append_assoc))]
fn put_locker_of(out: &mut Buffer, world: &World, frame: &Option<Frame>)
    requires { length out.old ≤ 900 }
    ensures text { out.new ≡ out.old ++ change_lines (locker_changes (now world.now).after.locks frame.now) }
    ensures room { length out.new ≤ length out.old + 310 }
{
    match frame {
        None => (),
        Some(frame) => put_locker(out, frame, world.locker(frame)),
    }
}

// ---- processes

/// Adds that a process is there.
#[tactic(auto, using(std::proofs::Common::append_assoc))]
fn put_there(out: &mut Buffer, proc: Proc)
    requires { length out.old ≤ 300 }
    ensures text { out.new ≡ out.old ++ change_line (Change.There proc true) }
    ensures room { length out.new ≤ length out.old + 100 }
{
    put_proc(out, b"= there p", proc);
    out.push(b'\n');
}

/// Adds that a process has this sequence.
#[tactic(auto, using(std::proofs::Common::append_assoc))]
fn put_sequence(out: &mut Buffer, proc: Proc, number: u64)
    requires { length out.old ≤ 1000 }
    ensures text { out.new ≡ out.old ++ change_line (Change.Seq proc number) }
    ensures room { length out.new ≤ length out.old + 200 }
{
    put_proc(out, b"= sequence p", proc);
    put_decimal(out, b" ", number);
    out.push(b'\n');
}

/// Adds the sequence of a process.
fn put_seq(out: &mut Buffer, world: &World, proc: Proc)
    requires { length out.old ≤ 1000 }
    ensures text { out.new ≡ out.old ++ change_line (Change.Seq proc ((now world.now).after.sequences.seq proc)) }
    ensures room { length out.new ≤ length out.old + 200 }
{
    put_sequence(out, proc, world.process_seq(proc));
}

/// Adds that a span was mapped, with nothing but zeros.
#[tactic(auto, using(std::proofs::Common::append_assoc))]
fn put_mapped(out: &mut Buffer, proc: Proc, span: Span, rights: Rights)
    requires { length out.old ≤ 300 }
    ensures { out.new
        ≡ out.old ++ change_lines (Change.NewArea proc span rights ∷ Change.Zeros proc span ∷ []) }
{
    put_proc(out, b"= area p", proc);
    put_area(out, span, rights);
    put_proc(out, b"= zeros p", proc);
    put_span(out, span);
}

#[tactic(auto, using(std::proofs::Common::append_assoc))]
fn put_cut(out: &mut Buffer, proc: Proc, span: Span)
    requires { length out.old ≤ 300 }
    ensures { out.new ≡ out.old ++ change_lines (Change.Cut proc span ∷ []) }
{
    put_proc(out, b"= cut p", proc);
    put_span(out, span);
}

#[tactic(auto, using(std::proofs::Common::append_assoc))]
fn put_right(out: &mut Buffer, proc: Proc, span: Span, rights: Rights)
    requires { length out.old ≤ 300 }
    ensures { out.new ≡ out.old ++ change_lines (Change.Right proc span rights ∷ []) }
{
    put_proc(out, b"= right p", proc);
    put_area(out, span, rights);
}

/// Adds that a process has the areas and the bytes of another.
#[tactic(auto, using(std::proofs::Common::append_assoc))]
fn put_copy(out: &mut Buffer, parent: Proc, child: Proc)
    requires { length out.old ≤ 1000 }
    ensures { out.new ≡ out.old ++ change_line (Change.Copy parent child) }
{
    put_proc(out, b"= copy p", parent);
    put_proc(out, b" p", child);
    out.push(b'\n');
}

/// Adds that a child is there, with what its parent has.
#[tactic(auto, using(std::proofs::Common::append_assoc))]
fn put_forked(out: &mut Buffer, parent: Proc, child: Proc)
    requires { length out.old ≤ 300 }
    ensures { out.new ≡ out.old ++ change_lines (Change.There child true ∷ Change.Copy parent child ∷ []) }
{
    put_there(out, child);
    put_copy(out, parent, child);
}

#[tactic(auto, using(std::proofs::Common::append_assoc))]
fn put_exited(out: &mut Buffer, proc: Proc)
    requires { length out.old ≤ 300 }
    ensures { out.new ≡ out.old ++ change_lines (Change.There proc false ∷ Change.Bare proc ∷ []) }
{
    put_proc(out, b"= left p", proc);
    put_proc(out, b"\n= bare p", proc);
    out.push(b'\n');
}

// ---- invalidations and mirrors

#[tactic(auto, using(std::proofs::Common::append_assoc))]
fn put_interval_seq(out: &mut Buffer, world: &World, mirror: MirrorId)
    requires { length out.old ≤ 2000 }
    ensures text { out.new
        ≡ out.old ++ change_line (Change.Interval mirror (interval_seq (now world.now).after.sequences mirror)) }
    ensures room { length out.new ≤ length out.old + 200 }
{
    put_mirror(out, b"= interval m", mirror);
    put_decimal(out, b" ", world.interval_seq(mirror));
    out.push(b'\n');
}

/// Adds that the actor invalidates a span of a process.
#[tactic(auto, using(std::proofs::Common::append_assoc))]
fn put_started(out: &mut Buffer, world: &World, actor: Actor, proc: Proc, span: Span)
    requires { length out.old ≤ 300 }
    ensures { out.new
        ≡ out.old ++ change_lines (Change.Seq proc ((now world.now).after.sequences.seq proc)
        ∷ Change.Guard actor (Some (proc, span))
        ∷ []) }
{
    put_seq(out, world, proc);
    put_actor(out, b"= guard a", actor);
    put_proc(out, b" p", proc);
    put_span(out, span);
}

/// Adds that the actor invalidates nothing.
#[tactic(auto, using(std::proofs::Common::append_assoc))]
fn put_unguard(out: &mut Buffer, actor: Actor)
    requires { length out.old ≤ 1000 }
    ensures { out.new ≡ out.old ++ change_line (Change.Guard actor None) }
{
    put_actor(out, b"= unguard a", actor);
    out.push(b'\n');
}

/// Adds that an invalidation ended.
#[tactic(auto, using(std::proofs::Common::append_assoc))]
fn put_ended(out: &mut Buffer, world: &World, actor: Actor, proc: Proc)
    requires { length out.old ≤ 300 }
    ensures { out.new
        ≡ out.old ++ change_lines (Change.Seq proc ((now world.now).after.sequences.seq proc)
        ∷ Change.Guard actor None
        ∷ []) }
{
    put_seq(out, world, proc);
    put_unguard(out, actor);
}

/// Adds that the mirror was told of an invalidation.
#[tactic(auto, using(std::proofs::Common::append_assoc))]
fn put_told(out: &mut Buffer, world: &World, mirror: MirrorId, span: Span)
    requires { length out.old ≤ 300 }
    ensures { out.new
        ≡ out.old ++ change_lines (Change.Erase mirror span
        ∷ Change.Interval mirror (interval_seq (now world.now).after.sequences mirror)
        ∷ []) }
{
    put_mirror(out, b"= erase m", mirror);
    put_span(out, span);
    put_interval_seq(out, world, mirror);
}

/// Adds that the mirror is attached.
#[tactic(auto, using(std::proofs::Common::append_assoc))]
fn put_window(out: &mut Buffer, mirror: MirrorId, dev: Dev, proc: Proc, span: Span)
    requires { length out.old ≤ 1000 }
    ensures text { out.new ≡ out.old ++ change_line (Change.Mirror mirror dev proc span) }
    ensures room { length out.new ≤ length out.old + 900 }
{
    out.put(b"=");
    put_interval(out, mirror, dev, proc, span);
    out.push(b'\n');
}

/// Adds that the mirror is attached, and the two sequences.
#[tactic(auto, using(std::proofs::Common::append_assoc))]
fn put_attached(out: &mut Buffer, world: &World, mirror: MirrorId, dev: Dev, proc: Proc, span: Span)
    requires { length out.old ≤ 300 }
    ensures { out.new
        ≡ out.old ++ change_lines (Change.Seq proc ((now world.now).after.sequences.seq proc)
        ∷ Change.Mirror mirror dev proc span
        ∷ Change.Interval mirror (interval_seq (now world.now).after.sequences mirror)
        ∷ []) }
{
    put_seq(out, world, proc);
    put_window(out, mirror, dev, proc, span);
    put_interval_seq(out, world, mirror);
}

/// Adds that the mirror's table is empty.
#[tactic(auto, using(std::proofs::Common::append_assoc))]
fn put_clear(out: &mut Buffer, mirror: MirrorId)
    requires { length out.old ≤ 1000 }
    ensures { out.new ≡ out.old ++ change_line (Change.Clear mirror) }
{
    put_mirror(out, b"= clear m", mirror);
    out.push(b'\n');
}

/// Adds that the mirror is detaching.
#[tactic(auto, using(std::proofs::Common::append_assoc))]
fn put_leaving(out: &mut Buffer, mirror: MirrorId)
    requires { length out.old ≤ 300 }
    ensures text { out.new ≡ out.old ++ change_line (Change.Stage mirror Attachment.Detaching) }
    ensures room { length out.new ≤ length out.old + 200 }
{
    put_mirror(out, b"= stage m", mirror);
    out.put(b" detaching\n");
}

/// Adds that the mirror is gone.
#[tactic(auto, using(std::proofs::Common::append_assoc))]
fn put_gone(out: &mut Buffer, mirror: MirrorId)
    requires { length out.old ≤ 300 }
    ensures text { out.new ≡ out.old ++ change_line (Change.Stage mirror Attachment.Gone) }
    ensures room { length out.new ≤ length out.old + 200 }
{
    put_mirror(out, b"= stage m", mirror);
    out.put(b" gone\n");
}

/// Adds that the mirror is detaching, and its table empty.
#[tactic(auto, using(std::proofs::Common::append_assoc))]
fn put_detaching(out: &mut Buffer, mirror: MirrorId)
    requires { length out.old ≤ 300 }
    ensures { out.new
        ≡ out.old ++ change_lines (Change.Stage mirror Attachment.Detaching ∷ Change.Clear mirror ∷ []) }
{
    put_leaving(out, mirror);
    put_clear(out, mirror);
}

/// Adds that the mirror is gone, and its table empty.
#[tactic(auto, using(std::proofs::Common::append_assoc))]
fn put_detached(out: &mut Buffer, mirror: MirrorId)
    requires { length out.old ≤ 300 }
    ensures { out.new
        ≡ out.old ++ change_lines (Change.Stage mirror Attachment.Gone ∷ Change.Clear mirror ∷ []) }
{
    put_gone(out, mirror);
    put_clear(out, mirror);
}

// ---- bytes

/// The process whose memory an access is of; none if its mirror was never attached.
fn owner(world: &World, who: Who) -> Option<Proc>
    ensures { result ≡ owner (now world.now).after.plain who }
{
    match who {
        Who::Cpu(proc) => Some(proc),
        Who::Mirror(mirror) => {
            if world.has_mirror(mirror) {
                Some(world.mirror_proc(mirror))
            } else {
                None
            }
        }
    }
}

/// Adds the byte that an addition wrote, if the mirror has a process.
#[tactic(auto, using(std::proofs::Common::append_assoc))]
fn put_added(out: &mut Buffer, world: &World, mirror: MirrorId, addr: u64, written: u8)
    requires { length out.old ≤ 300 }
    ensures { out.new
        ≡ out.old ++ change_lines (byte_changes (mirror_owner (now world.now).after.plain mirror) addr (written ∷ [])) }
{
    if let Some(proc) = owner(world, Who::Mirror(mirror)) {
        put_proc(out, b"= bytes p", proc);
        put_decimal(out, b" ", addr);
        out.push(b' ');
        out.push(digit(written / 16));
        out.push(digit(written % 16));
        out.push(b'\n');
    }
}

/// Adds the line of the bytes that the entry stores, if there is one. The buffer is written over.
#[tactic(auto, using(std::proofs::Common::append_assoc))]
fn add_stored(text: &mut Text, out: &mut Buffer, world: &World, kind: &Kind) -> Result<(), NoMemory>
    ensures { OnOk result (text.new
        ≡ text.old ++ change_lines (stored_changes (now world.now).after kind.now)) }
{
    let Kind::Stored { who, addr, .. } = kind else {
        return Ok(());
    };
    let Some(proc) = owner(world, *who) else {
        return Ok(());
    };
    out.clear();
    put_proc(out, b"= bytes p", proc);
    put_decimal(out, b" ", *addr);
    text.extend(out.as_slice())?;
    add_tail(text, kind)?;
    text.push(b'\n')
}

// ---- an entry

/// Adds a change that has the words of its entry.
#[tactic(auto, using(std::proofs::Common::append_assoc))]
fn put_same(out: &mut Buffer, kind: &Kind)
    requires { length out.old ≤ 2000 }
    ensures { out.new ≡ out.old ++ (codes "=" ++ (spaced (head_words kind.now) ++ 10 ∷ [])) }
{
    out.put(b"=");
    put_head(out, kind);
    out.push(b'\n');
}

/// Adds who has the frames locked that the places name, and the place.
#[tactic(auto, using(std::proofs::Common::append_assoc))]
fn put_placed(out: &mut Buffer, world: &World, before: &Place, place: &Place, kind: &Kind)
    requires { length out.old ≤ 300 }
    ensures { out.new
        ≡ out.old ++ (change_lines (locker_changes (now world.now).after.locks (names before.now))
        ++ (change_lines (locker_changes (now world.now).after.locks (names place.now))
        ++ (codes "=" ++ (spaced (head_words kind.now) ++ 10 ∷ [])))) }
{
    put_locker_of(out, world, &names(before));
    put_locker_of(out, world, &names(place));
    put_same(out, kind);
}

/// Adds what a `take` changes.
#[tactic(auto, using(std::proofs::Common::append_assoc))]
fn put_taken(out: &mut Buffer, frame: &Frame, actor: Actor)
    requires { length out.old ≤ 300 }
    ensures { out.new
        ≡ out.old ++ change_lines (Change.Held frame.now true ∷ Change.Locker frame.now (Some actor) ∷ []) }
{
    put_held(out, frame, true);
    put_locker(out, frame, Some(actor));
}

/// Adds what a `drop` changes.
#[tactic(auto, using(std::proofs::Common::append_assoc))]
fn put_dropped(out: &mut Buffer, frame: &Frame)
    requires { length out.old ≤ 300 }
    ensures { out.new
        ≡ out.old ++ change_lines (Change.Held frame.now false ∷ Change.Locker frame.now None ∷ []) }
{
    put_held(out, frame, false);
    put_locker(out, frame, None);
}

/// Adds what a `done` changes.
#[tactic(auto, using(std::proofs::Common::append_assoc))]
fn put_done(out: &mut Buffer, frame: &Frame)
    requires { length out.old ≤ 300 }
    ensures { out.new ≡ out.old ++ change_lines (Change.Locker frame.now None ∷ []) }
{
    put_locker(out, frame, None);
}

/// Adds what the entry changes of processes and invalidations.
fn put_of_processes(out: &mut Buffer, world: &World, actor: Actor, kind: &Kind)
    requires { length out.old ≤ 300 }
    ensures text { out.new ≡ out.old ++ change_lines (process_changes (now world.now).after actor kind.now) }
{
    match kind {
        Kind::Mapped { proc, span, rights } => put_mapped(out, *proc, *span, *rights),
        Kind::Unmapped { proc, span } => put_cut(out, *proc, *span),
        Kind::Protected { proc, span, rights } => put_right(out, *proc, *span, *rights),
        Kind::Named { child, .. } => put_seq(out, world, *child),
        Kind::Forked { parent, child } => put_forked(out, *parent, *child),
        Kind::Exited(proc) => put_exited(out, *proc),
        Kind::Start { proc, span, .. } => put_started(out, world, actor, *proc, *span),
        Kind::End { proc, .. } => put_ended(out, world, actor, *proc),
        _ => (),
    }
}

/// Adds what the entry changes of mirrors.
fn put_of_mirrors(out: &mut Buffer, world: &World, kind: &Kind)
    requires { length out.old ≤ 300 }
    ensures text { out.new ≡ out.old ++ change_lines (mirror_changes (now world.now).after kind.now) }
{
    match kind {
        Kind::Attached {
            mirror,
            dev,
            proc,
            span,
            ..
        } => put_attached(out, world, *mirror, *dev, *proc, *span),
        Kind::Detaching { mirror, .. } => put_detaching(out, *mirror),
        Kind::Detached(mirror) => put_detached(out, *mirror),
        Kind::Told { mirror, span, .. } => put_told(out, world, *mirror, *span),
        Kind::Set { .. } => put_same(out, kind),
        Kind::Added {
            mirror,
            addr,
            written,
            ..
        } => put_added(out, world, *mirror, *addr, *written),
        _ => (),
    }
}

/// Adds what the entry changes of frames, devices and page tables, if its page had this place.
fn put_of_frames(out: &mut Buffer, world: &World, before: &Place, actor: Actor, kind: &Kind)
    requires { length out.old ≤ 300 }
    ensures text { out.new
        ≡ out.old ++ change_lines (frame_changes before.now (now world.now).after actor kind.now) }
{
    match kind {
        Kind::Take(frame) => put_taken(out, frame, actor),
        Kind::Drop(frame) => put_dropped(out, frame),
        Kind::Done(frame) => put_done(out, frame),
        Kind::Place { place, .. } => put_placed(out, world, before, place, kind),
        Kind::Withdrawn(_) => put_same(out, kind),
        Kind::Removed(_) => put_same(out, kind),
        _ => (),
    }
}

/// Adds what the entry changes of all but mmap locks and the bytes that it stores. The buffer is written over.
#[tactic(auto, using(std::proofs::Common::append_assoc, crate::proofs::Texts::lines_append))]
fn add_others(
    text: &mut Text,
    out: &mut Buffer,
    world: &World,
    before: &Place,
    entry: &Entry,
) -> Result<(), NoMemory>
    ensures { OnOk result (text.new
        ≡ text.old ++ change_lines (other_changes before.now (now world.now).after entry.now)) }
{
    out.clear();
    put_of_processes(out, world, entry.actor, &entry.kind);
    text.extend(out.as_slice())?;
    out.clear();
    put_of_mirrors(out, world, &entry.kind);
    text.extend(out.as_slice())?;
    out.clear();
    put_of_frames(out, world, before, entry.actor, &entry.kind);
    text.extend(out.as_slice())
}

/// Adds the lines of what the entry changed. The world is that after the entry. The buffer is written over.
#[tactic(auto, using(std::proofs::Common::append_assoc, crate::proofs::Texts::lines_append))]
pub(crate) fn add_change_lines(
    text: &mut Text,
    out: &mut Buffer,
    world: &World,
    before: &Place,
    entry: &Entry,
) -> Result<(), NoMemory>
    ensures { OnOk result (text.new
        ≡ text.old ++ change_lines (changes_to before.now (now world.now).after entry.now)) }
{
    out.clear();
    put_lock(out, entry.actor, &entry.kind);
    text.extend(out.as_slice())?;
    add_stored(text, out, world, &entry.kind)?;
    add_others(text, out, world, before, entry)
}

/// Adds the lines before the rows. The buffer is written over.
#[tactic(auto, using(std::proofs::Common::append_assoc))]
pub(crate) fn add_first_lines(text: &mut Text, out: &mut Buffer) -> Result<(), NoMemory>
    ensures { OnOk result (text.new ≡ text.old ++ first_lines) }
{
    out.clear();
    put_there(out, Proc::new(0));
    put_sequence(out, Proc::new(0), 2);
    text.extend(out.as_slice())
}
