// The rules that each entry of a history keeps.
ghost use Rattle.std.specs.Prelude.{◌≡◌, ◌≤◌, [], length, IfOk};
ghost use Rattle.hm_parts.specs.Rules.{rules_from};

use crate::follower::Follower;
use crate::rules::Rules;
use hm_base::{NoMemory, Script};
use hm_history::Entry;
use std::alloc::Global;

/// Which rules each entry keeps after those before it, up to the first after which there is no state. It goes over the
/// entries once.
pub fn follow(alloc: Global, script: &Script, entries: &[Entry]) -> Result<Vec<Rules>, NoMemory>
    ensures rules { IfOk result (λ x. x.items ≡ rules_from script.now [] entries.now) }
    ensures few { IfOk result (λ x. length x.items ≤ length entries.now) }
{
    let mut so_far = Follower::start(alloc, script)?;
    let mut all = Vec::new(alloc);
    for at in 0..entries.len() {
        let rules = so_far.take(&entries[at], at as u64)?;
        all.push(rules)?;
        if !rules.goes_on {
            return Ok(all);
        }
    }
    Ok(all)
}
