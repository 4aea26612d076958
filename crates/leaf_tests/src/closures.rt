// What a caller writes: its rules as closures.
ghost use Rattle.std.specs.Prelude.{◌≡◌};
ghost use Rattle.skip_rules.specs.Rules.{divides};

use skip_rules::{BoxedRule, Kept, LeanRule, Leans, SkipRule};
use std::alloc::AllocError;
use std::sync::Arc;
use std::sync::atomic::{AtomicU64, Ordering};

/// Asks by the trait.
fn asks<R: SkipRule>(rule: &R, every: u64, page: u64) -> bool
    ensures { result ≡ divides every page }
{
    rule.skips(every, page)
}

/// Whether the rule skips the multiples of the first number, if that is not 0.
fn skips_multiples(rule: &Kept) -> bool {
    !asks(rule, 0, 0) && asks(&rule, 8, 16) && !asks(&rule, 8, 17)
}

// The closure captures a counter, which it shares with the caller, and counts how often it is asked.
#[test]
fn a_closure_skips(rt: HostRuntime) -> Result<(), AllocError> {
    let asked = Arc::new(rt.alloc(), AtomicU64::new(0))?;
    let count = asked.clone()?;
    let rule: BoxedRule = Box::new(rt.alloc(), move |every: u64, page: u64| {
        count.fetch_add(1, Ordering::SeqCst);
        every != 0 && page % every == 0
    })?;
    let rule = Kept::new(rule);
    assert!(rt; skips_multiples(&rule) && asked.load(Ordering::SeqCst) == 3);
    Ok(())
}

/// Whether the rule leans to the first number from 4 more on.
fn leans_from_four(rule: &Leans) -> bool {
    !rule.leans(3, 0) && rule.leans(4, 0) && !rule.leans(4, 1)
}

// The closure captures a number of the caller's, and the caller knows which.
#[test]
fn a_closure_leans(rt: HostRuntime) -> Result<(), AllocError> {
    let least = 4;
    let rule: BoxedRule = Box::new(
        rt.alloc(),
        move |x: u64, y: u64|
            requires { least ≡ 4 }
        { x >= least && x - least >= y },
    )?;
    let rule = Leans::new(rule);
    assert!(rt; leans_from_four(&rule));
    Ok(())
}
