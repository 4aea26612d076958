// Rules of a driver that a caller gives as code. Each is a trait whose contract says what every rule answers; `Kept`
// and `Leans` are types that keep a closure beside the fact that it answers so.
#![tactic(auto)]

ghost use Rattle.std.specs.Prelude.{◌≡◌};
ghost use Rattle.skip_rules.specs.Rules.{divides, outweighs, AnswersBy, MayBeAsked};

/// Says which pages a driver passes over when it gets destinations for a migration to its device (in lib/test_hmm.c,
/// `dmirror_migrate_alloc_and_copy` does so). Whatever code it is, it answers the same.
pub trait SkipRule: Drop {
    ghost use Rattle.skip_rules.specs.Rules.{divides};

    /// Whether a migration that skips each page whose number `every` divides passes over this one. At 0 it passes over
    /// none.
    fn skips(&self, every: u64, page: u64) -> bool
        ensures { result ≡ divides every page };
}

/// Says on which side a page should live, from how often two parties accessed it. Whatever code it is, it answers the
/// same.
pub trait LeanRule: Drop {
    ghost use Rattle.skip_rules.specs.Rules.{outweighs};

    /// Whether a page leans to a party that accessed it `x` times, and the other `y` times. A page that
    /// both use much the same stays where it is.
    fn leans(&self, x: u64, y: u64) -> bool
        ensures { result ≡ outweighs x y };
}

/// The rule itself, for a caller that keeps no closure: what the history of a legal run follows.
#[derive(Drop)]
pub struct Multiples;

impl SkipRule for Multiples {
    fn skips(&self, every: u64, page: u64) -> bool {
        every != 0 && page % every == 0
    }
}

/// A closure in a box, which the caller makes. It may own what it captures, and may be asked from several threads.
pub type BoxedRule = Box<dyn Fn(u64, u64) -> bool + Send + Sync>;

/// A closure kept as a `SkipRule`.
#[derive(Drop)]
pub struct Kept {
    rule: BoxedRule,
    ghost may: { MayBeAsked (pre rule) },
    ghost says: { AnswersBy divides (post rule) },
}

impl Kept {
    /// Keeps the closure, which says whether the first number is not 0 and divides the second.
    pub fn new(rule: BoxedRule) -> Kept
        requires may { MayBeAsked (pre rule) }
        requires says { AnswersBy divides (post rule) }
    {
        Kept { rule }
    }
}

impl SkipRule for Kept {
    fn skips(&self, every: u64, page: u64) -> bool {
        (self.rule)(every, page)
    }
}

/// So that a machine, and the threads that share it, ask a rule that stays the caller's.
impl SkipRule for &Kept {
    fn skips(&self, every: u64, page: u64) -> bool {
        (**self).skips(every, page)
    }
}

/// A closure kept as a `LeanRule`.
#[derive(Drop)]
pub struct Leans {
    rule: BoxedRule,
    ghost may: { MayBeAsked (pre rule) },
    ghost says: { AnswersBy outweighs (post rule) },
}

impl Leans {
    /// Keeps the closure, which says whether the first number is at least 4 and, less 4, at least the second.
    pub fn new(rule: BoxedRule) -> Leans
        requires may { MayBeAsked (pre rule) }
        requires says { AnswersBy outweighs (post rule) }
    {
        Leans { rule }
    }
}

impl LeanRule for Leans {
    fn leans(&self, x: u64, y: u64) -> bool {
        (self.rule)(x, y)
    }
}
