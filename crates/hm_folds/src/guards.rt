// The invalidations under way, one of each actor at most, and sets of mirrors.
ghost use Rattle.std.specs.Prelude.{◌≡◌, ◌++◌, ◌∷◌, [], ◌==◌, ◌&&◌, ◌||◌, ◌≤◌, ℕ, nat_lt, nat_le, true, length};
ghost use Rattle.std.specs.Prelude.{count_by, is_none};
ghost use Rattle.std.specs.List.{list_all, list_any};
ghost use Rattle.hm_history.specs.Memory.Sequences.{guard_passes, with_told, same_span, all_told, Guarded as AnyGuard};
ghost use Rattle.hm_base.specs.Pages.{covers};
ghost use Rattle.hm_folds.specs.Kept.{mirrors_of, guard_of, guards_proc};

use hm_base::{MirrorId, Page, Proc, Span};

/// The guard of an actor: its process and span, the mirrors whose interval overlapped at its start, and those told.
#[derive(Clone, Copy)]
pub struct KeptGuard {
    pub proc: Proc,
    pub span: Span,
    pub met: [bool; 32],
    pub told: [bool; 32],
}

/// Whether the set has a mirror.
pub fn has_some(set: &[bool; 32]) -> bool
    ensures { result ≡ nat_lt 0 (length (mirrors_of set.now)) }
{
    for number in 0..32usize {
        if set[number] {
            return true;
        }
    }
    false
}

/// Whether each mirror of `met` was told.
pub(crate) fn all_told(met: &[bool; 32], told: &[bool; 32]) -> bool
    ensures { result ≡ list_all (λ m. list_any (λ k. k == m) (mirrors_of told.now)) (mirrors_of met.now) }
{
    for number in 0..32usize {
        if met[number] && !told[number] {
            return false;
        }
    }
    true
}

/// Whether each mirror of the set has a lower number.
pub(crate) fn all_below(set: &[bool; 32], mirror: MirrorId) -> bool
    ensures { result ≡ list_all (λ k. nat_lt k mirror) (mirrors_of set.now) }
{
    for number in 0..32u32 {
        if set[number as usize] && number >= mirror.number() {
            return false;
        }
    }
    true
}

/// Whether each lower mirror of `all` was told.
pub(crate) fn lower_told(all: &[bool; 32], told: &[bool; 32], mirror: MirrorId) -> bool
    ensures { result
        ≡ list_all (λ k. nat_le mirror k || list_any (λ t. t == k) (mirrors_of told.now)) (mirrors_of all.now) }
{
    for number in 0..32u32 {
        if all[number as usize] && number < mirror.number() && !told[number as usize] {
            return false;
        }
    }
    true
}

/// How many invalidations of the process are under way.
pub(crate) fn active(guards: &[Option<KeptGuard>; 16], proc: Proc) -> u64
    ensures active { result ≡ count_by (guards_proc proc) guards.now }
    ensures few { result ≤ 16 }
{
    let mut count = 0;
    for guard in guards {
        if is_of(guard, proc) {
            count += 1;
        }
    }
    count
}

fn is_of(guard: &Option<KeptGuard>, proc: Proc) -> bool
    ensures { result ≡ guards_proc proc guard.now }
{
    match guard {
        None => false,
        Some(guard) => guard.proc == proc,
    }
}

fn with_mirror(set: &[bool; 32], mirror: MirrorId) -> [bool; 32]
    requires { list_all (λ k. nat_lt k mirror) (mirrors_of set.now) ≡ true }
    ensures { mirrors_of result ≡ mirrors_of set.now ++ mirror ∷ [] }
{
    let mut more = *set;
    more[mirror.number() as usize] = true;
    more
}

/// The guard with one more mirror told.
pub(crate) fn with_told(guard: &Option<KeptGuard>, mirror: MirrorId) -> Option<KeptGuard>
    requires { guard_passes (λ (g : AnyGuard). list_all (λ k. nat_lt k mirror) g.told) (guard_of guard.now) ≡ true }
    ensures told { guard_of result ≡ with_told mirror (guard_of guard.now) }
    ensures proc { (p : ℕ) → guards_proc p result ≡ guards_proc p guard.now }
{
    match guard {
        None => None,
        Some(guard) => {
            let told = with_mirror(&guard.told, mirror);
            Some(KeptGuard { told, ..*guard })
        }
    }
}

/// Whether the actor has no guard.
pub(crate) fn is_free(guard: &Option<KeptGuard>) -> bool
    ensures { result ≡ is_none (guard_of guard.now) }
{
    guard.is_none()
}

/// Whether the guard is of that process and span, and all mirrors that it met were told.
pub(crate) fn is_done(guard: &Option<KeptGuard>, proc: Proc, span: Span) -> bool
    ensures { result
        ≡ guard_passes (λ (g : AnyGuard). (g.proc == proc) && (same_span g.span span && all_told g))
        (guard_of guard.now) }
{
    match guard {
        None => false,
        Some(guard) => {
            guard.proc == proc && same_span(guard.span, span) && all_told(&guard.met, &guard.told)
        }
    }
}

/// Whether the guard is of that process and has the page, and all mirrors that it met were told.
pub(crate) fn covers_told(guard: &Option<KeptGuard>, proc: Proc, page: Page) -> bool
    ensures { result
        ≡ guard_passes (λ (g : AnyGuard). (g.proc == proc) && (covers g.span page && all_told g)) (guard_of guard.now) }
{
    match guard {
        None => false,
        Some(guard) => {
            guard.proc == proc && has_page(guard.span, page) && all_told(&guard.met, &guard.told)
        }
    }
}

/// Whether the page is one of the span.
pub fn has_page(span: Span, page: Page) -> bool
    ensures { result ≡ covers span page }
{
    let first = span.first().number();
    first <= page.number() && page.number() < first + span.count()
}

/// Whether the spans have the same pages.
pub fn same_span(one: Span, other: Span) -> bool
    ensures { result ≡ same_span one other }
{
    one.first() == other.first() && one.count() == other.count()
}
