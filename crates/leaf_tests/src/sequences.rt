// Two invalidations at once, a mirror that comes while they are under way, and the calls against the
// rules over a plain list.
ghost use Rattle.std.specs.Prelude.{◌≡◌};
ghost use Rattle.hm_base.specs.Pages.{IsSpan};
ghost use Rattle.notifier_seq.specs.Sequences.{is_leaving};

use crate::drawn::after;
use hm_base::{MirrorId, Page, Span};
use notifier_seq::{Begin, Notifiers, Removal, Stage, Started};
use plain::{Line, Plain};
use std::alloc::Global;

mod plain;

/// The pages from the first on, as many as `count`.
fn span(first: u64, count: u64) -> Span
    requires { IsSpan (record { first = first; count = count }) }
{
    Span::new(Page::new(first), count)
}

/// Two pages, and each of them.
fn both() -> Span {
    span(16, 2)
}

/// The first of the two.
fn first() -> Span {
    span(16, 1)
}

/// The second of the two.
fn second() -> Span {
    span(17, 1)
}

/// What an invalidation of these pages finds as it starts; nothing if the counts are too high.
fn start(notifiers: &mut Notifiers, span: Span) -> Option<Started> {
    if notifiers.seq() < 1000 && notifiers.active() < 1000 {
        Some(notifiers.start(span))
    } else {
        None
    }
}

/// The sequence after the end of an invalidation; nothing if none is under way.
fn end(notifiers: &mut Notifiers) -> Option<u64> {
    if notifiers.seq() < 1000 && notifiers.active() > 0 {
        Some(notifiers.end())
    } else {
        None
    }
}

/// The sequence that a mirror is given as it comes; nothing if it is there already, or there is no memory.
fn insert(alloc: Global, notifiers: &mut Notifiers, id: MirrorId, span: Span) -> Option<u64> {
    match notifiers.interval_seq(id) {
        None => match notifiers.reserve(alloc) {
            Ok(()) => Some(notifiers.insert(id, span)),
            Err(_) => None,
        },
        Some(_) => None,
    }
}

/// Whether the mirror leaves as soon as the invalidations under way have ended.
fn is_leaving(notifiers: &Notifiers, id: MirrorId) -> bool
    ensures { result ≡ is_leaving notifiers.now id }
{
    match notifiers.interval(id) {
        Some(interval) => matches!(interval.stage, Stage::RemoveDeferred),
        None => false,
    }
}

/// What the removal of a mirror comes to; nothing if it is not there or leaves already.
fn remove(notifiers: &mut Notifiers, id: MirrorId) -> Option<Removal> {
    if notifiers.present(id) && !is_leaving(notifiers, id) {
        Some(notifiers.remove(id))
    } else {
        None
    }
}

/// The mirror, if it is there, is told of this sequence.
fn tell(notifiers: &mut Notifiers, id: MirrorId, seq: u64) {
    match notifiers.interval_seq(id) {
        Some(_) => notifiers.set_seq(id, seq),
        None => (),
    }
}

/// What a mirror reads as it begins; nothing if it is not there.
fn begin(notifiers: &Notifiers, id: MirrorId) -> Option<Begin> {
    match notifiers.interval_seq(id) {
        Some(_) => Some(notifiers.read_begin(id)),
        None => None,
    }
}

/// Whether a mirror that began at this sequence has to do so again; nothing if it is not there.
fn retry(notifiers: &Notifiers, id: MirrorId, seq: u64) -> Option<bool> {
    match notifiers.interval_seq(id) {
        Some(_) => Some(notifiers.retry(id, seq)),
        None => None,
    }
}

/// The mirror that is there from the first on.
fn old() -> MirrorId {
    MirrorId::new(0)
}

/// The mirror that comes while the two are under way.
fn new() -> MirrorId {
    MirrorId::new(7)
}

/// Whether each of two invalidations is the first to know of the mirror, and makes the sequence odd.
fn two_start(alloc: Global, notifiers: &mut Notifiers) -> bool {
    let told = Some(Started {
        seq: 3,
        overlapped: true,
    });
    insert(alloc, notifiers, old(), both()) == Some(1)
        && start(notifiers, first()) == told
        && start(notifiers, second()) == told
}

/// Whether a mirror that comes meanwhile has to wait.
fn one_waits(alloc: Global, notifiers: &mut Notifiers) -> bool {
    tell(notifiers, old(), 3);
    insert(alloc, notifiers, new(), both()) == Some(3)
        && notifiers.deferred(new())
        && !notifiers.in_tree(new())
        && notifiers.present(new())
}

/// Whether the first end leaves the sequence odd, and the second makes it even.
fn both_end(notifiers: &mut Notifiers) -> bool {
    end(notifiers) == Some(3)
        && begin(notifiers, old()) == Some(Begin::Invalidating(3))
        && end(notifiers) == Some(4)
        && begin(notifiers, old()) == Some(Begin::Ready(3))
}

/// Whether the mirror that came is in the tree now.
fn one_came(notifiers: &Notifiers) -> bool {
    notifiers.in_tree(new()) && !notifiers.deferred(new())
}

#[test]
fn the_first_end_leaves_the_odd_sequence(rt: HostRuntime) {
    let mut notifiers = Notifiers::new();
    assert!(rt;
        two_start(rt.alloc(), &mut notifiers)
            && one_waits(rt.alloc(), &mut notifiers)
            && both_end(&mut notifiers)
            && one_came(&notifiers)
    );
}

/// Whether an invalidation that meets no mirror leaves the sequence even, and a mirror that comes makes it odd.
fn an_insert_makes_odd(alloc: Global, notifiers: &mut Notifiers) -> bool {
    let alone = Some(Started {
        seq: 2,
        overlapped: false,
    });
    start(notifiers, first()) == alone
        && insert(alloc, notifiers, old(), both()) == Some(3)
        && begin(notifiers, old()) == Some(Begin::Invalidating(3))
        && end(notifiers) == Some(4)
}

#[test]
fn an_insert_makes_an_even_sequence_odd(rt: HostRuntime) {
    let mut notifiers = Notifiers::new();
    assert!(rt; an_insert_makes_odd(rt.alloc(), &mut notifiers));
}

/// Whether the same is said of where a mirror is.
fn agree_where(notifiers: &Notifiers, id: MirrorId, line: Option<Line>) -> bool {
    let (in_tree, deferred, present) = match line {
        Some(line) => (
            line.is_in_tree(),
            line.is_deferred(),
            line.stage != Stage::Out,
        ),
        None => (false, false, false),
    };
    notifiers.in_tree(id) == in_tree
        && notifiers.deferred(id) == deferred
        && notifiers.present(id) == present
}

/// Whether the same is said of each mirror.
fn agree_of_mirrors(notifiers: &Notifiers, plain: &Plain) -> bool {
    for number in 0..16u32 {
        let id = MirrorId::new(number);
        let line = plain.line(number);
        if notifiers.interval_seq(id) != line.map(|line| line.seq)
            || begin(notifiers, id) != plain.begin(number)
            || !agree_where(notifiers, id, line)
        {
            return false;
        }
    }
    true
}

/// Whether the same is said of everything.
fn agree(notifiers: &Notifiers, plain: &Plain) -> bool {
    notifiers.seq() == plain.seq
        && notifiers.active() == plain.active
        && agree_of_mirrors(notifiers, plain)
}

/// The next mirror above the number is told of the pages, by both; whether it is the same one.
fn tell_next(notifiers: &mut Notifiers, plain: &mut Plain, after: MirrorId, pages: Span) -> bool {
    let (first, end) = (
        pages.first().number(),
        pages.first().number() + pages.count(),
    );
    let seq = notifiers.seq();
    let next = notifiers.next_overlapping(pages, Some(after));
    if let Some(id) = next {
        tell(notifiers, id, seq);
        plain.set_seq(id.number(), seq);
    }
    next.map(|id| id.number()) == plain.told(first, end, after.number() + 1)
}

/// A mirror comes, by both; whether they answer the same.
fn insert_both(
    alloc: Global,
    notifiers: &mut Notifiers,
    plain: &mut Plain,
    id: MirrorId,
    pages: Span,
) -> bool {
    let first = pages.first().number();
    let seq = insert(alloc, notifiers, id, pages);
    match plain.insert(id.number(), first, first + pages.count()) {
        Ok(other) => seq == other,
        Err(_) => false,
    }
}

/// A drawn call, by both; whether they answer the same.
fn turn(alloc: Global, notifiers: &mut Notifiers, plain: &mut Plain, x: u64) -> bool {
    let number = ((x >> 33) % 16) as u32;
    let id = MirrorId::new(number);
    let (first, count) = ((x >> 37) % 32, 1 + (x >> 42) % 8);
    let pages = span(first, count);
    match (x >> 50) % 8 {
        0 | 1 => start(notifiers, pages) == Some(plain.start(first, first + count)),
        2 | 3 => end(notifiers) == plain.end(),
        4 => insert_both(alloc, notifiers, plain, id, pages),
        5 => remove(notifiers, id) == plain.remove(number),
        6 => tell_next(notifiers, plain, id, pages),
        _ => retry(notifiers, id, count) == plain.line(number).map(|line| line.seq != count),
    }
}

/// The number after those of 80 drawn calls; nothing if the two do not agree at each.
fn turns(alloc: Global, notifiers: &mut Notifiers, plain: &mut Plain, from: u64) -> Option<u64> {
    let mut x = from;
    for _ in 0..80u64 {
        x = after(x);
        if !turn(alloc, notifiers, plain, x) || !agree(notifiers, plain) {
            return None;
        }
    }
    Some(x)
}

/// The same for two that begin empty.
fn new_turns(alloc: Global, from: u64) -> Option<u64> {
    let mut notifiers = Notifiers::new();
    let mut plain = Plain::new(alloc);
    turns(alloc, &mut notifiers, &mut plain, from)
}

/// Whether the two agree at each of 4,000 calls, of which each 80 begin with empty ones.
fn all_turns_agree(alloc: Global) -> bool {
    let mut x: u64 = 1;
    for _ in 0..50u64 {
        match new_turns(alloc, x) {
            Some(after) => x = after,
            None => return false,
        }
    }
    true
}

#[test]
fn the_calls_agree_with_the_rules(rt: HostRuntime) {
    assert!(rt; all_turns_agree(rt.alloc()));
}
