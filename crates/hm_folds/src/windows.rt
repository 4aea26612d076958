// The mirrors: each with its device, process and window, and how far it is.
ghost use Rattle.std.specs.Prelude.{◌≡◌, ◌&&◌, ◌||◌, ℕ, is_none};
ghost use Rattle.hm_base.specs.Pages.{lies_in, one_page};
ghost use Rattle.hm_history.specs.Memory.Words.{with_at};
ghost use Rattle.hm_history.specs.declared.Kind.{Kind as AnyKind};
ghost use Rattle.hm_history.specs.Memory.Plain.{mirror_passes, is_attached_state, is_detaching_state, with_attachment};
ghost use Rattle.hm_history.specs.Memory.Plain.{MirrorState as AnyState};
ghost use Rattle.hm_folds.specs.Windows.{attachment_of, mirror_of, mirrors_of, mirrors_next, mirror_read, owner_in};
ghost use Rattle.hm_folds.specs.Windows.{proc_in};

use hm_base::{Dev, MirrorId, Proc, Span};
use hm_history::Kind;

/// How far a mirror is.
#[derive(Clone, Copy)]
pub enum KeptAttachment {
    Attached,
    Detaching,
    Gone,
}

/// A mirror that was attached at some time.
#[derive(Clone, Copy)]
pub struct KeptMirror {
    pub dev: Dev,
    pub proc: Proc,
    pub window: Span,
    pub stage: KeptAttachment,
}

/// Whether it is attached.
pub(crate) fn is_attached(mirror: &Option<KeptMirror>) -> bool
    ensures { result ≡ mirror_passes is_attached_state (mirror_of mirror.now) }
{
    match mirror {
        None => false,
        Some(mirror) => matches!(mirror.stage, KeptAttachment::Attached),
    }
}

/// Whether it is detaching.
pub(crate) fn is_detaching(mirror: &Option<KeptMirror>) -> bool
    ensures { result ≡ mirror_passes is_detaching_state (mirror_of mirror.now) }
{
    match mirror {
        None => false,
        Some(mirror) => matches!(mirror.stage, KeptAttachment::Detaching),
    }
}

/// Whether it is attached, and the page lies in its window.
pub(crate) fn has_page(mirror: &Option<KeptMirror>, page: u64) -> bool
    ensures { result
        ≡ mirror_passes (λ (x : AnyState). is_attached_state x && lies_in (one_page page) x.window)
        (mirror_of mirror.now) }
{
    match mirror {
        None => false,
        Some(kept) => is_attached(mirror) && lies_in(page, kept.window),
    }
}

fn lies_in(page: u64, window: Span) -> bool
    ensures { result ≡ lies_in (one_page page) window }
{
    let first = window.first().number();
    first <= page && page < first + window.count()
}

/// Its process, if it was attached at some time.
pub(crate) fn owner(mirror: &Option<KeptMirror>) -> Option<Proc>
    ensures { result ≡ owner_in (mirror_of mirror.now) }
{
    match mirror {
        None => None,
        Some(mirror) => Some(mirror.proc),
    }
}

/// Its process, and process 0 if it was never attached.
pub(crate) fn proc_of(mirror: &Option<KeptMirror>) -> Proc
    ensures { result ≡ proc_in (mirror_of mirror.now) }
{
    match mirror {
        None => Proc::new(0),
        Some(mirror) => mirror.proc,
    }
}

/// Whether it was never attached.
pub(crate) fn is_new(mirror: &Option<KeptMirror>) -> bool
    ensures { result ≡ is_none (mirror_of mirror.now) }
{
    mirror.is_none()
}

/// Whether it is attached or detaching.
pub(crate) fn may_detach(mirror: &Option<KeptMirror>) -> bool
    ensures { result
        ≡ (mirror_passes is_attached_state (mirror_of mirror.now)
        || mirror_passes is_detaching_state (mirror_of mirror.now)) }
{
    is_attached(mirror) || is_detaching(mirror)
}

/// Its device, process and window, and whether it is attached.
pub(crate) fn read(mirror: &Option<KeptMirror>) -> Option<(Dev, Proc, Span, bool)>
    ensures { result ≡ mirror_read (mirror_of mirror.now) }
{
    match mirror {
        None => None,
        Some(kept) => Some((kept.dev, kept.proc, kept.window, is_attached(mirror))),
    }
}

fn with_stage(mirror: &Option<KeptMirror>, stage: KeptAttachment) -> Option<KeptMirror>
    ensures { mirror_of result ≡ with_attachment (attachment_of stage) (mirror_of mirror.now) }
{
    match mirror {
        None => None,
        Some(mirror) => Some(KeptMirror { stage, ..*mirror }),
    }
}

/// The mirrors after an entry.
pub(crate) fn step(mirrors: &mut [Option<KeptMirror>; 32], kind: &Kind)
    ensures { mirrors_of mirrors.new ≡ mirrors_next (mirrors_of mirrors.old) kind.now }
{
    match kind {
        Kind::Attached {
            mirror,
            dev,
            proc,
            span,
            seq: _,
        } => attach(mirrors, *mirror, *dev, *proc, *span),
        Kind::Detaching { mirror, seq: _ } => stand(mirrors, *mirror, KeptAttachment::Detaching),
        Kind::Detached(mirror) => stand(mirrors, *mirror, KeptAttachment::Gone),
        _ => (),
    }
}

fn attach(
    mirrors: &mut [Option<KeptMirror>; 32],
    mirror: MirrorId,
    dev: Dev,
    proc: Proc,
    window: Span,
)
    ensures { (q : ℕ) → mirrors_of mirrors.new
        ≡ mirrors_next (mirrors_of mirrors.old) (AnyKind.Attached mirror dev proc window q) }
{
    mirrors[mirror.number() as usize] = Some(KeptMirror {
        dev,
        proc,
        window,
        stage: KeptAttachment::Attached,
    });
}

fn stand(mirrors: &mut [Option<KeptMirror>; 32], mirror: MirrorId, stage: KeptAttachment)
    ensures { mirrors_of mirrors.new
        ≡ with_at (mirrors_of mirrors.old) mirror
        (with_attachment (attachment_of stage) (mirrors_of mirrors.old mirror)) }
{
    let at = mirror.number() as usize;
    mirrors[at] = with_stage(&mirrors[at], stage);
}
