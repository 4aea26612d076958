// Passes for all actors out of one, and back into one.
ghost use Rattle.std.specs.Prelude.{◌≡◌, ℕ, ◌+◌, ◌<◌, length, replicate, IfOk};
ghost use Rattle.hm_turns.specs.Sights.{half_of};
ghost use Rattle.hm_workers.specs.Working.{AreOf};
ghost use Rattle.hm_workers.specs.Dealing.{IsGathered, gathered, less_shares, shares_of};

use crate::passes::Passes;
use hm_base::NoMemory;
use hm_turns::{Pass, Stepped, Turns};
use std::alloc::Global;

/// A pass of one share for each of this many actors. At an `Err` those shares are gone, and the value stays where it
/// is.
pub fn deal<S: Stepped>(
    alloc: Global,
    turns: &Turns<S>,
    whole: &mut Pass,
    count: u32,
) -> Result<Passes, NoMemory>
    requires own { whole.old.desk ≡ turns.now }
    requires shares { count < whole.old.shares }
    ensures passes { IfOk result (λ ps. ps ≡ replicate count (half_of whole.old)) }
    ensures whole { IfOk result (λ ps. whole.new ≡ less_shares whole.old count) }
    ensures own { IfOk result (λ ps. AreOf turns.now ps × (length ps ≡ count)) }
    ensures shares { IfOk result (λ ps. whole.new.shares + shares_of ps ≡ whole.old.shares) }
    ensures rest { whole.new.desk ≡ whole.old.desk }
{
    let mut passes = Passes::new(alloc);
    for _ in 0..count {
        let pass = turns.split(whole);
        passes.push(pass)?;
    }
    Ok(passes)
}

/// Takes all passes into one.
pub fn gather<S: Stepped>(turns: &Turns<S>, whole: &mut Pass, mut passes: Passes)
    requires own { (whole.old.desk ≡ turns.now) × AreOf turns.now passes }
    ensures all { whole.new ≡ gathered whole.old passes }
    ensures own { whole.new.desk ≡ turns.now }
    ensures shares { whole.new.shares ≡ whole.old.shares + shares_of passes }
    ensures lists { IsGathered whole.old passes whole.new }
{
    while let Some(pass) = passes.pop() {
        turns.join(whole, pass);
    }
}
