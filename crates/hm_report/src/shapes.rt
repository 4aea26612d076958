// A name and the words after it, in the forms that several kinds of entries have. Each name has its space.
ghost use Rattle.std.specs.Prelude.{◌≡◌, ◌+◌, ◌≤◌, ◌∷◌, ◌++◌, [], length};
ghost use Rattle.std.specs.Fmt.{decimal};
ghost use Rattle.hm_script.specs.Spelling.{address_text, right_text};
ghost use Rattle.hm_report.specs.Words.{proc_text, mirror_text, device_text, who_text, frame_text};
ghost use Rattle.hm_report.specs.Line.{spaced};

use crate::buffer::{Buffer, ROOM};
use crate::numerals::put_address;
use crate::words::{
    put_device, put_frame, put_mirror, put_number, put_proc, put_rights, put_span, put_who,
};
use hm_base::{Dev, Frame, MirrorId, Page, Proc, Rights, Span};
use hm_history::Who;

/// Adds a name and a number.
#[inline(always)]
#[tactic(auto, using(std::proofs::Common::append_assoc))]
pub(crate) fn put_of_number(out: &mut Buffer, name: &[u8], number: u64)
    requires name { length name.now ≤ 100 }
    requires room { length out.old + 900 ≤ ROOM }
    ensures text { out.new ≡ out.old ++ (name.now ++ spaced (decimal number ∷ [])) }
    ensures room { length out.new ≤ length out.old + 300 }
{
    out.put(name);
    put_number(out, number);
}

/// Adds a name and a process.
#[inline(always)]
#[tactic(auto, using(std::proofs::Common::append_assoc))]
pub(crate) fn put_of_proc(out: &mut Buffer, name: &[u8], proc: Proc)
    requires name { length name.now ≤ 100 }
    requires room { length out.old + 900 ≤ ROOM }
    ensures text { out.new ≡ out.old ++ (name.now ++ spaced (proc_text proc ∷ [])) }
    ensures room { length out.new ≤ length out.old + 300 }
{
    out.put(name);
    put_proc(out, proc);
}

/// Adds a name and two processes.
#[inline(always)]
#[tactic(auto, using(std::proofs::Common::append_assoc))]
pub(crate) fn put_of_procs(out: &mut Buffer, name: &[u8], one: Proc, other: Proc)
    requires name { length name.now ≤ 100 }
    requires room { length out.old + 900 ≤ ROOM }
    ensures text { out.new ≡ out.old ++ (name.now ++ spaced (proc_text one ∷ proc_text other ∷ [])) }
    ensures room { length out.new ≤ length out.old + 400 }
{
    out.put(name);
    put_proc(out, one);
    put_proc(out, other);
}

/// Adds a name, a process and a page.
#[inline(always)]
#[tactic(auto, using(std::proofs::Common::append_assoc))]
pub(crate) fn put_of_page(out: &mut Buffer, name: &[u8], proc: Proc, page: Page)
    requires name { length name.now ≤ 100 }
    requires room { length out.old + 900 ≤ ROOM }
    ensures text { out.new ≡ out.old ++ (name.now ++ spaced (proc_text proc ∷ decimal page ∷ [])) }
    ensures room { length out.new ≤ length out.old + 400 }
{
    out.put(name);
    put_proc(out, proc);
    put_number(out, page.number());
}

/// Adds a name, a process and a span.
#[inline(always)]
#[tactic(auto, using(std::proofs::Common::append_assoc))]
pub(crate) fn put_of_span(out: &mut Buffer, name: &[u8], proc: Proc, span: Span)
    requires name { length name.now ≤ 100 }
    requires room { length out.old + 900 ≤ ROOM }
    ensures text { out.new
        ≡ out.old ++ (name.now ++ spaced (proc_text proc ∷ decimal span.first ∷ decimal span.count ∷ [])) }
    ensures room { length out.new ≤ length out.old + 500 }
{
    out.put(name);
    put_proc(out, proc);
    put_span(out, span);
}

/// Adds a name, a process, a span and a right.
#[inline(always)]
#[tactic(auto, using(std::proofs::Common::append_assoc))]
pub(crate) fn put_of_area(out: &mut Buffer, name: &[u8], proc: Proc, span: Span, rights: Rights)
    requires name { length name.now ≤ 100 }
    requires room { length out.old + 900 ≤ ROOM }
    ensures text { out.new
        ≡ out.old ++ (name.now
        ++ spaced (proc_text proc ∷ decimal span.first ∷ decimal span.count ∷ right_text rights ∷ [])) }
    ensures room { length out.new ≤ length out.old + 700 }
{
    out.put(name);
    put_proc(out, proc);
    put_span(out, span);
    put_rights(out, rights);
}

/// Adds a name, a process, a span and a sequence.
#[inline(always)]
#[tactic(auto, using(std::proofs::Common::append_assoc))]
pub(crate) fn put_of_guard(out: &mut Buffer, name: &[u8], proc: Proc, span: Span, seq: u64)
    requires name { length name.now ≤ 100 }
    requires room { length out.old + 900 ≤ ROOM }
    ensures text { out.new
        ≡ out.old ++ (name.now
        ++ spaced (proc_text proc ∷ decimal span.first ∷ decimal span.count ∷ decimal seq ∷ [])) }
    ensures room { length out.new ≤ length out.old + 700 }
{
    out.put(name);
    put_proc(out, proc);
    put_span(out, span);
    put_number(out, seq);
}

/// Adds a name and a mirror.
#[inline(always)]
#[tactic(auto, using(std::proofs::Common::append_assoc))]
pub(crate) fn put_of_mirror(out: &mut Buffer, name: &[u8], mirror: MirrorId)
    requires name { length name.now ≤ 100 }
    requires room { length out.old + 900 ≤ ROOM }
    ensures text { out.new ≡ out.old ++ (name.now ++ spaced (mirror_text mirror ∷ [])) }
    ensures room { length out.new ≤ length out.old + 300 }
{
    out.put(name);
    put_mirror(out, mirror);
}

/// Adds a name, a mirror and a number.
#[inline(always)]
#[tactic(auto, using(std::proofs::Common::append_assoc))]
pub(crate) fn put_of_mirror_at(out: &mut Buffer, name: &[u8], mirror: MirrorId, number: u64)
    requires name { length name.now ≤ 100 }
    requires room { length out.old + 900 ≤ ROOM }
    ensures text { out.new ≡ out.old ++ (name.now ++ spaced (mirror_text mirror ∷ decimal number ∷ [])) }
    ensures room { length out.new ≤ length out.old + 400 }
{
    out.put(name);
    put_mirror(out, mirror);
    put_number(out, number);
}

/// Adds a name and a device.
#[inline(always)]
#[tactic(auto, using(std::proofs::Common::append_assoc))]
pub(crate) fn put_of_device(out: &mut Buffer, name: &[u8], dev: Dev)
    requires name { length name.now ≤ 100 }
    requires room { length out.old + 900 ≤ ROOM }
    ensures text { out.new ≡ out.old ++ (name.now ++ spaced (device_text dev ∷ [])) }
    ensures room { length out.new ≤ length out.old + 300 }
{
    out.put(name);
    put_device(out, dev);
}

/// Adds a name and a frame.
#[inline(always)]
#[tactic(auto, using(std::proofs::Common::append_assoc))]
pub(crate) fn put_of_frame(out: &mut Buffer, name: &[u8], frame: &Frame)
    requires name { length name.now ≤ 100 }
    requires room { length out.old + 900 ≤ ROOM }
    ensures text { out.new ≡ out.old ++ (name.now ++ spaced (frame_text frame.now ∷ [])) }
    ensures room { length out.new ≤ length out.old + 300 }
{
    out.put(name);
    put_frame(out, frame);
}

/// Adds a name and two frames.
#[inline(always)]
#[tactic(auto, using(std::proofs::Common::append_assoc))]
pub(crate) fn put_of_frames(out: &mut Buffer, name: &[u8], from: &Frame, to: &Frame)
    requires name { length name.now ≤ 100 }
    requires room { length out.old + 900 ≤ ROOM }
    ensures text { out.new ≡ out.old ++ (name.now ++ spaced (frame_text from.now ∷ frame_text to.now ∷ [])) }
    ensures room { length out.new ≤ length out.old + 400 }
{
    out.put(name);
    put_frame(out, from);
    put_frame(out, to);
}

/// Adds a name, whose access it is, and an address.
#[inline(always)]
#[tactic(auto, using(std::proofs::Common::append_assoc))]
pub(crate) fn put_of_access(out: &mut Buffer, name: &[u8], who: Who, addr: u64)
    requires name { length name.now ≤ 100 }
    requires room { length out.old + 900 ≤ ROOM }
    ensures text { out.new ≡ out.old ++ (name.now ++ spaced (who_text who ∷ address_text addr ∷ [])) }
    ensures room { length out.new ≤ length out.old + 400 }
{
    out.put(name);
    put_who(out, who);
    put_address(out, addr);
}
