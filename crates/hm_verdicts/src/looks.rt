// Look-ups of threads in mirrors.
ghost use Rattle.std.specs.Prelude.{◌≡◌, ◌∷◌, [], ◌&&◌, ◌||◌, is_some, true, false};
ghost use Rattle.std.specs.Prelude.{not, Some, None, is_none, if◌then◌else◌, OnOk, reverse, find, ◌==◌};
ghost use Rattle.hm_protocol.specs.Known as known;
ghost use Rattle.hm_protocol.specs.Noted as noted;
ghost use Rattle.hm_verdicts.specs.Stages.{stage_of};
ghost use Rattle.hm_verdicts.specs.Looking.{reads_itself, walked_by};

use crate::calls::Call;
use crate::newest_first::NewestFirst;
use crate::numbered::Numbered;
use hm_base::NoMemory;
use std::alloc::Global;
use std::marker::Model;

/// What a look-up has done last.
#[derive(Clone, Copy, PartialEq, Eq)]
pub enum Stage {
    Unbegun,
    Begun,
    Walked,
}

/// The look-up of a thread in a mirror.
#[derive(Drop)]
pub struct Look {
    stage: Stage,
    /// Where it has read its sequence.
    begun: Option<u64>,
    seq: u64,
    /// It has walked with a sequence of its own, since the last `Begin`.
    itself: bool,
    /// Where the last walk went through.
    walked: Option<u64>,
    /// The pages that it found, and whether for writes.
    found: NewestFirst<(u64, bool)>,
    /// One of them was set.
    set: bool,
}

impl Model for Look {
    ghost use Rattle.hm_protocol.specs.Known as known;

    ghost Value = { known.Look };

    ghost use Rattle.hm_verdicts.specs.Stages.{stage_of};

    ghost view = { λ s. record {
      stage = stage_of s.stage;
      begun = s.begun;
      seq = s.seq;
      itself = s.itself;
      walked = s.walked;
      found = s.found;
      set = s.set;
    } };
}

impl Look {
    /// One that has not begun.
    pub(crate) fn new(alloc: Global) -> Look
        ensures { result ≡ known.no_look }
    {
        Look {
            stage: Stage::Unbegun,
            begun: None,
            seq: 0,
            itself: false,
            walked: None,
            found: NewestFirst::new(alloc),
            set: false,
        }
    }

    /// What it has done last.
    pub(crate) fn stage(&self) -> Stage
        ensures { stage_of result ≡ self.now.stage }
    {
        self.stage
    }

    /// Whether it has walked with a sequence of its own.
    pub(crate) fn itself(&self) -> bool
        ensures { result ≡ self.now.itself }
    {
        self.itself
    }

    /// What it found of a page last is this.
    pub(crate) fn has_found(&self, page: u64, writes: bool) -> bool
        ensures { result ≡ known.is_noted page writes self.now.found }
    {
        is_noted(self.found.oldest_first(), page, writes)
    }

    /// Where it has read its sequence.
    pub(crate) fn begun(&self) -> Option<u64>
        ensures { result ≡ self.now.begun }
    {
        self.begun
    }

    /// The mirror was told since it began, and has another sequence by that.
    pub(crate) fn meets(&self, mirror: u64, call: &Call) -> bool
        ensures { result ≡ known.meets self.now mirror call.now }
    {
        call.mirror() == mirror
            && call.after().is_some_and(|after| after != self.seq)
            && self.begun.is_some_and(|begun| begun < call.at())
    }

    /// Whether its invalidation was over when the last walk ended.
    pub(crate) fn is_past(&self, call: &Call) -> bool
        ensures { result ≡ noted.is_past self.now call.now }
    {
        call.of().is_some()
            && match self.walked {
                None => false,
                Some(walked) => call.ended().is_some_and(|ended| ended < walked),
            }
    }

    /// It begins, at this position, with this sequence.
    pub(crate) fn begin(&mut self, at: u64, seq: u64)
        ensures { self.new ≡ record self.old {
          stage = known.Stage.Begun;
          begun = Some at;
          seq = seq;
          itself = false;
          set = false;
        } }
    {
        self.stage = Stage::Begun;
        self.begun = Some(at);
        self.seq = seq;
        self.itself = false;
        self.set = false;
    }

    /// Whether its last walk went through, it has set nothing since, and it has done no more.
    pub(crate) fn is_open(&self) -> bool
        ensures { result ≡ noted.is_walked self.now.stage && (is_some self.now.walked && not self.now.set) }
    {
        self.stage == Stage::Walked && self.walked.is_some() && !self.set
    }

    /// Whether it has walked last, with a sequence of its own since the last `Begin`.
    pub(crate) fn walks_itself(&self) -> bool
        ensures { result ≡ noted.is_walked self.now.stage && self.now.itself }
    {
        self.stage == Stage::Walked && self.itself
    }

    /// Whether a walk with this sequence has one that its driver has read itself.
    pub(crate) fn reads_itself(&self, seq: u64) -> bool
        ensures { result ≡ reads_itself seq self.now }
    {
        self.begun.is_none() || seq != self.seq
    }

    /// A walk begins, at this position, with this sequence.
    pub(crate) fn walk(&mut self, alloc: Global, at: u64, seq: u64)
        ensures { self.new ≡ walked_by at seq self.old }
    {
        let reads_itself = self.reads_itself(seq);
        if reads_itself || self.stage == Stage::Begun || self.set {
            self.found = NewestFirst::new(alloc);
        }
        if reads_itself {
            self.begun = Some(at);
            self.itself = true;
        }
        self.seq = seq;
        self.walked = None;
        self.set = false;
    }

    /// It has found a page.
    pub(crate) fn find(&mut self, page: u64, writes: bool) -> Result<(), NoMemory>
        ensures { OnOk result (self.new ≡ record self.old { found = (page, writes) ∷ self.old.found }) }
    {
        self.found.push((page, writes))?;
        Ok(())
    }

    /// Its walk is over, and went through if it is done.
    pub(crate) fn end_walk(&mut self, at: u64, done: bool)
        ensures { self.new ≡ record self.old {
          stage = known.Stage.Walked;
          walked = if done then Some at else None;
        } }
    {
        self.stage = Stage::Walked;
        self.walked = if done { Some(at) } else { None };
    }

    /// One of its pages is set.
    pub(crate) fn commit(&mut self)
        ensures { self.new ≡ record self.old { set = true } }
    {
        self.set = true;
    }
}

// What was said last of a page.
fn said_last(noted: &[(u64, bool)], page: u64) -> Option<(u64, bool)>
    ensures { result ≡ find (λ x. x.0 == page) (reverse noted.now) }
{
    let mut last = None;
    for x in noted {
        if x.0 == page {
            last = Some(*x);
        }
    }
    last
}

/// Whether what was said last of a page is this.
pub(crate) fn is_noted(noted: &[(u64, bool)], page: u64, writes: bool) -> bool
    ensures { result ≡ known.is_noted page writes (reverse noted.now) }
{
    match said_last(noted, page) {
        None => false,
        Some(x) => x.1 == writes,
    }
}
