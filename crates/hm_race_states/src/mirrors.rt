// The mirrors: each with its device, process and window, and how far it is.
ghost use Rattle.std.specs.Prelude.{◌≡◌, ℕ, true, [], is_some, IfOk, OnOk, OnErr};
ghost use Rattle.hm_base.specs.Pages.{Pages, lies_in};
ghost use Rattle.hm_history.specs.Memory.Words.{with_at};
ghost use Rattle.hm_history.specs.Memory.Plain.{Attachment, is_attached, in_window, mirror_proc, mirror_owner};
ghost use Rattle.hm_history.specs.Memory.Plain.{mirror_dev};
ghost use Rattle.hm_history.specs.Memory.Plain.{with_attachment};
ghost use Rattle.hm_race_keys.specs.Sparse.{mixed_items};
ghost use Rattle.hm_race_keys.specs.Trail.{mirrors_next};
ghost use Rattle.hm_race_states.specs.Mirrors.{mirror_of, attachment_of, stage_number, mixed_mirror, mirrors_in};
ghost use Rattle.hm_race_states.specs.Mirrors.{plain_by};

use hm_base::{Dev, MirrorId, NoMemory, Proc, Span};
use hm_history::Kind;
use hm_race_keys::sparse::{Kept, Sparse, mixed};
use std::alloc::Global;
use std::marker::Model;

/// How far a mirror is.
#[derive(Clone, Copy, PartialEq, Eq)]
pub enum RaceAttachment {
    Attached,
    Detaching,
    Gone,
}

/// A mirror that was attached at some time.
#[derive(Clone, Copy, PartialEq, Eq)]
pub struct RaceMirror {
    pub dev: Dev,
    pub proc: Proc,
    pub window: Span,
    pub stage: RaceAttachment,
}

fn stage_number(stage: RaceAttachment) -> u64
    ensures { result ≡ stage_number stage }
{
    match stage {
        RaceAttachment::Attached => 1,
        RaceAttachment::Detaching => 2,
        RaceAttachment::Gone => 3,
    }
}

impl Kept for RaceMirror {
    ghost mixed = { mixed_mirror };

    fn is_same(&self, other: &RaceMirror) -> bool {
        self == other
    }

    fn mixed(&self, sum: u64) -> u64 {
        let sum = mixed(
            mixed(sum, u64::from(self.dev.number())),
            u64::from(self.proc.number()),
        );
        let sum = mixed(
            mixed(sum, self.window.first().number()),
            self.window.count(),
        );
        mixed(sum, stage_number(self.stage))
    }
}

fn span_lies_in(span: Span, window: Span) -> bool
    ensures { result ≡ lies_in span window }
{
    let first = window.first().number();
    let from = span.first().number();
    first <= from && from + span.count() <= first + window.count()
}

/// The mirrors that were attached at some time.
#[derive(Drop)]
pub struct RaceMirrors {
    items: Sparse<RaceMirror>,
}

impl Model for RaceMirrors {
    ghost use Rattle.std.specs.Prelude.{List};
    ghost use Rattle.hm_race_keys.specs.declared.sparse.Item.{Item as AnyItem};
    ghost use Rattle.hm_race_states.specs.Mirrors.{AreMirrors};
    ghost use Rattle.hm_race_states.specs.declared.mirrors.RaceMirror.{RaceMirror as AnyMirror};

    ghost Value = { List (AnyItem AnyMirror) };

    ghost view = { λ s. s.items };

    ghost invariant = { λ s. AreMirrors s.items };
}

impl RaceMirrors {
    /// None. It takes no memory.
    pub fn new(alloc: Global) -> RaceMirrors
        ensures { result ≡ [] }
    {
        RaceMirrors {
            items: Sparse::new(alloc),
        }
    }

    fn mirror(&self, mirror: MirrorId) -> Option<RaceMirror>
        ensures { mirror_of result ≡ mirrors_in self.now mirror }
    {
        self.items.get(0, u64::from(mirror.number()))
    }

    /// Whether the mirror was ever attached.
    pub fn has_mirror(&self, mirror: MirrorId) -> bool
        ensures { result ≡ is_some (mirrors_in self.now mirror) }
    {
        self.mirror(mirror).is_some()
    }

    /// Whether the mirror is attached.
    pub fn is_attached(&self, mirror: MirrorId) -> bool
        ensures { result ≡ is_attached (plain_by (mirrors_in self.now)) mirror }
    {
        match self.mirror(mirror) {
            Some(mirror) => matches!(mirror.stage, RaceAttachment::Attached),
            None => false,
        }
    }

    /// Whether the mirror is attached, and the pages lie in its window.
    pub fn in_window(&self, mirror: MirrorId, span: Span) -> bool
        ensures { result ≡ in_window (plain_by (mirrors_in self.now)) mirror span }
    {
        match self.mirror(mirror) {
            Some(
                RaceMirror {
                    dev: _,
                    proc: _,
                    window,
                    stage,
                },
            ) => matches!(stage, RaceAttachment::Attached) && span_lies_in(span, window),
            None => false,
        }
    }

    /// The process of a mirror; process 0 of one that was never attached.
    pub fn mirror_proc(&self, mirror: MirrorId) -> Proc
        ensures { result ≡ mirror_proc (plain_by (mirrors_in self.now)) mirror }
    {
        match self.mirror(mirror) {
            Some(mirror) => mirror.proc,
            None => Proc::new(0),
        }
    }

    /// The process of a mirror, if it was ever attached.
    pub fn owner(&self, mirror: MirrorId) -> Option<Proc>
        ensures { result ≡ mirror_owner (plain_by (mirrors_in self.now)) mirror }
    {
        match self.mirror(mirror) {
            Some(mirror) => Some(mirror.proc),
            None => None,
        }
    }

    /// The device of a mirror; device 0 of one that was never attached.
    pub fn mirror_dev(&self, mirror: MirrorId) -> Dev
        ensures { result ≡ mirror_dev (plain_by (mirrors_in self.now)) mirror }
    {
        match self.mirror(mirror) {
            Some(mirror) => mirror.dev,
            None => Dev::new(0),
        }
    }

    /// The mirrors after an entry; a failure changes nothing.
    pub fn step(&mut self, kind: &Kind) -> Result<(), NoMemory>
        ensures ok { OnOk result (mirrors_in self.new ≡ mirrors_next (mirrors_in self.old) kind.now) }
        ensures err { OnErr result (self.new ≡ self.old) }
    {
        match kind {
            Kind::Attached {
                mirror,
                dev,
                proc,
                span,
                seq: _,
            } => self.items.set(
                0,
                u64::from(mirror.number()),
                RaceMirror {
                    dev: *dev,
                    proc: *proc,
                    window: *span,
                    stage: RaceAttachment::Attached,
                },
            ),
            Kind::Detaching { mirror, seq: _ } => self.stand(*mirror, RaceAttachment::Detaching),
            Kind::Detached(mirror) => self.stand(*mirror, RaceAttachment::Gone),
            _ => Ok(()),
        }
    }

    // The mirror comes to this stage, if it was ever attached.
    fn stand(&mut self, mirror: MirrorId, stage: RaceAttachment) -> Result<(), NoMemory>
        ensures ok { OnOk result
            (mirrors_in self.new
            ≡ with_at (mirrors_in self.old) mirror
            (with_attachment (attachment_of stage) (mirrors_in self.old mirror))) }
        ensures err { OnErr result (self.new ≡ self.old) }
    {
        match self.mirror(mirror) {
            Some(kept) => self.items.set(
                0,
                u64::from(mirror.number()),
                RaceMirror { stage, ..kept },
            ),
            None => Ok(()),
        }
    }

    /// The same mirrors, in memory of their own.
    pub fn copy(&self, alloc: Global) -> Result<RaceMirrors, NoMemory>
        ensures { IfOk result (λ x. x ≡ self.now) }
    {
        Ok(RaceMirrors {
            items: self.items.copy(alloc)?,
        })
    }

    /// Whether the mirrors are the same.
    pub fn same(&self, other: &RaceMirrors) -> bool
        ensures yes { result ≡ true → self.now ≡ other.now }
        ensures no { ((m : ℕ) → mirrors_in self.now m ≡ mirrors_in other.now m) → result ≡ true }
    {
        self.items.same(&other.items)
    }

    /// A sum with all mirrors mixed in.
    pub fn bucket(&self, sum: u64) -> u64
        ensures { result ≡ mixed_items mixed_mirror sum self.now }
    {
        self.items.bucket(sum)
    }
}
