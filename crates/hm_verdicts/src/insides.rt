// Invalidations of threads, and look-ups that have the sequence of one.
ghost use Rattle.std.specs.Prelude.{◌≡◌, ◌==◌, ◌&&◌, false, if◌then◌else◌};
ghost use Rattle.hm_protocol.specs.Noted as noted;

use hm_protocol::TraceSpan;
use std::marker::Model;

/// An invalidation of a thread, and where it began; the device whose migration it is for.
#[derive(Clone, Copy)]
pub struct Inside {
    at: u64,
    proc: u64,
    span: TraceSpan,
    owner: Option<u64>,
}

impl Model for Inside {
    ghost use Rattle.hm_protocol.specs.Known as known;

    ghost Value = { known.Inside };

    ghost view = { λ s. record { at = s.at; proc = s.proc; span = s.span; owner = s.owner } };

    ghost inverse = { λ s. record { at = s.at; proc = s.proc; span = s.span; owner = s.owner } };
}

impl Inside {
    pub(crate) fn new(at: u64, proc: u64, span: TraceSpan, owner: Option<u64>) -> Inside
        ensures { result ≡ record { at = at; proc = proc; span = span; owner = owner } }
    {
        Inside {
            at,
            proc,
            span,
            owner,
        }
    }

    pub(crate) fn at(&self) -> u64
        ensures { result ≡ self.now.at }
    {
        self.at
    }

    pub(crate) fn owner(&self) -> Option<u64>
        ensures { result ≡ self.now.owner }
    {
        self.owner
    }

    /// Whether it is of this process and span.
    pub(crate) fn is_of(&self, proc: u64, span: TraceSpan) -> bool
        ensures { result ≡ (self.now.proc == proc)
            && ((self.now.span.first == span.first) && (self.now.span.count == span.count)) }
    {
        self.proc == proc && self.span.first() == span.first() && self.span.count() == span.count()
    }
}

/// A `Begin` or walk of a thread in a mirror, with the sequence of an invalidation under way; whether it is a walk that
/// no `Begin` has followed.
#[derive(Clone, Copy)]
pub struct Early {
    thread: u64,
    mirror: u64,
    last: bool,
    at: u64,
}

impl Model for Early {
    ghost use Rattle.hm_protocol.specs.Known as known;

    ghost Value = { known.Early };

    ghost view = { λ s. record { thread = s.thread; mirror = s.mirror; last = s.last; at = s.at } };

    ghost inverse = { λ s. record { thread = s.thread; mirror = s.mirror; last = s.last; at = s.at } };
}

impl Early {
    pub(crate) fn new(thread: u64, mirror: u64, last: bool, at: u64) -> Early
        ensures { result ≡ record { thread = thread; mirror = mirror; last = last; at = at } }
    {
        Early {
            thread,
            mirror,
            last,
            at,
        }
    }

    pub(crate) fn at(&self) -> u64
        ensures { result ≡ self.now.at }
    {
        self.at
    }

    /// Whether it is among the last walks of a thread in a mirror.
    pub(crate) fn is_last(&self, thread: u64, mirror: u64) -> bool
        ensures { result ≡ noted.is_last thread mirror self.now }
    {
        self.thread == thread && self.mirror == mirror && self.last
    }

    /// The same, with a `Begin` that has followed if it is among them.
    pub(crate) fn followed(self, thread: u64, mirror: u64) -> Early
        ensures { result ≡ (if noted.is_last thread mirror self then record self { last = false } else self) }
    {
        if self.is_last(thread, mirror) {
            Early {
                last: false,
                ..self
            }
        } else {
            self
        }
    }
}
