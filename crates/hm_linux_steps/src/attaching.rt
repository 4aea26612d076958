// The first mirror that a process ever has comes inside no invalidation.
ghost use Rattle.std.specs.Prelude.{◌≡◌, ◌==◌, ◌&&◌, is_some};
ghost use Rattle.hm_history.specs.Memory.Plain.{mirror_proc};
ghost use Rattle.hm_history.specs.declared.phases.Next as next;
ghost use Rattle.hm_linux.specs.FirstAttach.{is_in_guard, has_had_mirror, attaches};

use crate::first::{Passes, first_actor};
use crate::shows::Shows;
use hm_base::{Actor, MirrorId, Proc};
use hm_history::phases::Next;
use hm_history::{Kind, Why};
use hm_reads::Reads;

// Who invalidates a process.
#[derive(Drop)]
struct Invalidates<'a, W> {
    found: &'a W,
    proc: Proc,
}

impl<'a, W: Shows> Passes for Invalidates<'a, W> {
    ghost passes = { λ q a. is_in_guard q.proc ((W.state q.found.now).after.sequences.guard a) };

    fn passes(&self, actor: Actor) -> bool {
        self.found.is_in_guard(actor, self.proc)
    }
}

// Whether the mirror is or was one of the process.
fn was_of<W: Reads>(found: &W, mirror: MirrorId, proc: Proc) -> bool
    ensures { result
        ≡ (is_some ((W.state found.now).after.plain.mirrors mirror)
        && (mirror_proc (W.state found.now).after.plain mirror == proc)) }
{
    found.has_mirror(mirror) && found.mirror_proc(mirror) == proc
}

// Whether some mirror is or was one of the process.
fn has_had_mirror<W: Reads>(found: &W, proc: Proc) -> bool
    ensures { result ≡ has_had_mirror (W.state found.now).after proc }
{
    for number in 0..32u32 {
        if was_of(found, MirrorId::new(number), proc) {
            return true;
        }
    }
    false
}

// An attach waits for the actor that invalidates its process, if no mirror was one of the process before.
fn attached<W: Shows>(found: &W, kind: Kind) -> Next
    ensures { result ≡ attaches (W.state found.now).after (next.Next.Do kind) }
{
    match kind {
        Kind::Attached {
            mirror,
            dev,
            proc,
            span,
            seq,
        } => match first_actor(&Invalidates { found, proc }) {
            Some(by) if !has_had_mirror(found, proc) => Next::Wait(Why::MapLock(proc, by)),
            _ => Next::Do(Kind::Attached {
                mirror,
                dev,
                proc,
                span,
                seq,
            }),
        },
        other => Next::Do(other),
    }
}

/// The first mirror waits for the actor that invalidates its process.
pub(crate) fn attaches<W: Shows>(found: &W, next: Next) -> Next
    ensures { result ≡ attaches (W.state found.now).after next }
{
    match next {
        Next::Do(kind) => attached(found, kind),
        Next::Wait(why) => Next::Wait(why),
    }
}
