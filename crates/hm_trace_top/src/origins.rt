// Which earlier events a verdict goes back to.
ghost use Rattle.std.specs.Prelude.{◌≡◌, ◌≤◌, length, reverse};
ghost use Rattle.hm_trace_top.specs.Origins as spec;

use hm_protocol::{Event, Rule, Traced};

/// To what a rule's verdict goes back.
#[derive(Clone, Copy)]
pub enum Kind {
    /// An entry of a look-up: to where that began.
    LookUp,
    /// One that is stale: also to the callback that the look-up met.
    Stale,
    /// The return of a callback: to where its invalidation began.
    Callback,
    /// The beginning of a look-up: to where the invalidation began that has its sequence.
    Early,
    /// Any other event: to nothing.
    Other,
}

/// The events that a verdict goes back to, by their positions.
#[derive(Clone, Copy)]
pub struct Origin {
    pub from: Option<u64>,
    /// The callback that was met after that.
    pub met: Option<u64>,
}

/// A look-up: where it began, and with which sequence.
#[derive(Clone, Copy)]
pub(crate) struct Begun {
    at: Option<u64>,
    seq: u64,
}

// No look-up has begun.
const UNBEGUN: Begun = Begun { at: None, seq: 0 };

// To nothing.
const NO_ORIGIN: Origin = Origin {
    from: None,
    met: None,
};

// To what the verdict on a rule goes back.
fn kind_of(rule: Rule) -> Kind
    ensures { result ≡ spec.kind_of rule }
{
    match rule {
        Rule::Compare | Rule::CompareSequence => Kind::Stale,
        Rule::EntryRight | Rule::BeginFirst => Kind::LookUp,
        Rule::BeginWaits => Kind::Early,
        Rule::SetSequence
        | Rule::Erase
        | Rule::EraseAll
        | Rule::EraseInTime
        | Rule::OwnEvents
        | Rule::OwnSequence
        | Rule::OwnEntries => Kind::Callback,
        _ => Kind::Other,
    }
}

// A mirror's look-up after an event, by whether that is of its thread.
fn begun_by(own: bool, mirror: u64, at: u64, begun: Begun, event: &Event) -> Begun
    ensures { result ≡ spec.begun_by own mirror at begun event.now }
{
    match *event {
        Event::Insert { mirror: other, .. } if mirror == other => UNBEGUN,
        Event::Begin { mirror: other, seq } if own && mirror == other => Begun {
            at: Some(at),
            seq,
        },
        Event::Walk {
            mirror: other,
            seq,
            ..
        } if own && mirror == other && (begun.at.is_none() || seq != begun.seq) => {
            Begun { at: Some(at), seq }
        }
        _ => begun,
    }
}

// The look-up of a thread in a mirror, after some events.
fn look_up(events: &[Traced], thread: u64, mirror: u64) -> Begun
    ensures { result ≡ spec.begun_on thread mirror 0 spec.unbegun events.now }
{
    let mut begun = UNBEGUN;
    let mut at: u64 = 0;
    let mut left = events;
    while let [traced, more @ ..] = left {
        let own = thread == traced.thread;
        begun = begun_by(own, mirror, at, begun, &traced.event);
        at += 1;
        left = more;
    }
    begun
}

// Whether a callback of the mirror returns, and leaves another sequence.
fn is_met(mirror: u64, seq: u64, event: &Event) -> bool
    ensures { result ≡ spec.is_met mirror seq event.now }
{
    match *event {
        Event::Told {
            mirror: other,
            seq: left,
            done: true,
        } => other == mirror && left != seq,
        _ => false,
    }
}

// The first such event after a position.
fn first_met(events: &[Traced], mirror: u64, seq: u64, from: u64) -> Option<u64>
    ensures { result ≡ spec.first_met mirror seq from 0 events.now }
{
    let mut at: u64 = 0;
    let mut left = events;
    while let [traced, more @ ..] = left {
        if from < at && is_met(mirror, seq, &traced.event) {
            return Some(at);
        }
        at += 1;
        left = more;
    }
    None
}

// Going back from a thread's event: where its inner invalidation began that is under way.
fn start_back(events: &[Traced], thread: u64) -> Option<u64>
    ensures { result ≡ spec.start_back thread 0 (reverse events.now) }
{
    let mut closed: u64 = 0;
    let mut left = events;
    while let [more @ .., traced] = left {
        if traced.thread == thread {
            match traced.event {
                Event::Start { .. } if closed == 0 => return Some(more.len() as u64),
                Event::Start { .. } => closed -= 1,
                Event::End { .. } | Event::Told { done: false, .. } => closed += 1,
                _ => (),
            }
        }
        left = more;
    }
    None
}

// Whether a callback of the mirror is given this sequence.
fn is_tell(mirror: u64, seq: u64, event: &Event) -> bool
    ensures { result ≡ spec.is_tell mirror seq event.now }
{
    match *event {
        Event::Tell {
            mirror: other,
            seq: given,
            ..
        } => other == mirror && given == seq,
        _ => false,
    }
}

// Going back: where the invalidation began whose callback was given this sequence last.
fn start_told(events: &[Traced], mirror: u64, seq: u64) -> Option<u64>
    ensures { result ≡ spec.start_told mirror seq (reverse events.now) }
{
    let mut left = events;
    while let [more @ .., traced] = left {
        if is_tell(mirror, seq, &traced.event) {
            return start_back(more, traced.thread);
        }
        left = more;
    }
    None
}

// To one event, or to nothing.
fn from_one(from: Option<u64>) -> Origin
    ensures { result ≡ spec.from_one from }
{
    Origin { from, met: None }
}

// An entry of a look-up that is stale: to where that began, and to the first callback that it met.
fn of_stale(events: &[Traced], thread: u64, mirror: u64) -> Origin
    ensures { result ≡ spec.of_stale thread mirror events.now }
{
    let begun = look_up(events, thread, mirror);
    match begun.at {
        None => NO_ORIGIN,
        Some(from) => Origin {
            from: Some(from),
            met: first_met(events, mirror, begun.seq, from),
        },
    }
}

// To what an event goes back that comes after these.
fn origin_at(kind: Kind, events: &[Traced], thread: u64, event: &Event) -> Origin
    ensures { result ≡ spec.origin_at kind events.now thread event.now }
{
    match (kind, *event) {
        (Kind::LookUp, Event::Set { mirror, .. }) => from_one(look_up(events, thread, mirror).at),
        (Kind::Stale, Event::Set { mirror, .. }) => of_stale(events, thread, mirror),
        (Kind::Callback, Event::Told { .. }) => from_one(start_back(events, thread)),
        (Kind::Early, Event::Begin { mirror, seq }) => from_one(start_told(events, mirror, seq)),
        (Kind::Early, Event::Walk { mirror, seq, .. }) => {
            from_one(start_told(events, mirror, seq))
        }
        _ => NO_ORIGIN,
    }
}

/// To which events before it the event at a position goes back, which breaks the rule or may do so.
pub(crate) fn origin_of(rule: Rule, events: &[Traced], at: u64) -> Origin
    ensures { result ≡ spec.origin_of rule events.now at }
{
    let at = at as usize;
    if at > events.len() {
        return NO_ORIGIN;
    }
    let (before, rest) = events.split_at(at);
    match rest {
        [] => NO_ORIGIN,
        [traced, ..] => origin_at(kind_of(rule), before, traced.thread, &traced.event),
    }
}
