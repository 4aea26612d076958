// The verdicts on a trace.
ghost use Rattle.std.specs.Prelude.{◌≡◌, ◌≤◌, ◌^◌, List, length, map, IfOk, IsOkUnless};
ghost use Rattle.std.specs.List.{list_all};
ghost use Rattle.hm_protocol.specs.Rules.{all_rules};
ghost use Rattle.hm_protocol.specs.Verdicts.{joined, verdict};
ghost use Rattle.hm_protocol.specs.declared.events.Traced.{Traced as AnyTraced};
ghost use Rattle.hm_verdicts.specs.Ending.{fails_at_end};
ghost use Rattle.hm_verdicts.specs.Judging.{said_of, unbroken_at_end, Follows};
ghost use Rattle.hm_verdicts.specs.Knowledge.{known_of};
ghost use Rattle.hm_verdicts.specs.declared.failed.Failed.TheVariants as reasons;

use crate::ending::fails_in_end;
use crate::failed::Failed;
use crate::judge::{Count, Judge};
use crate::knowledge::Knowledge;
use crate::saying::verdict_of;
use hm_base::NoMemory;
use hm_protocol::{Recorded, Rule, Traced, Verdict};
use std::alloc::Global;

// Whether none of these rules is broken in the end.
fn are_unbroken(knowledge: &Knowledge, rules: &[Rule]) -> bool
    ensures { result ≡ unbroken_at_end rules.now (known_of knowledge.now) }
{
    rules
        .iter()
        .all(|rule| fails_in_end(knowledge, *rule).is_none())
}

// Whether none is of the rules of which one is broken if it is not said which.
fn joined_unbroken(knowledge: &Knowledge, rule: Rule) -> bool
    ensures { result ≡ unbroken_at_end (joined rule) (known_of knowledge.now) }
{
    match rule {
        Rule::Compare | Rule::CompareSequence => {
            are_unbroken(knowledge, &[Rule::Compare, Rule::CompareSequence])
        }
        Rule::Erase | Rule::EraseAll | Rule::EraseInTime => {
            are_unbroken(knowledge, &[Rule::Erase, Rule::EraseAll, Rule::EraseInTime])
        }
        Rule::OwnEntries => are_unbroken(
            knowledge,
            &[
                Rule::Erase,
                Rule::EraseAll,
                Rule::EraseInTime,
                Rule::OwnEntries,
            ],
        ),
        Rule::SetSequence | Rule::OwnEvents | Rule::OwnSequence => are_unbroken(
            knowledge,
            &[Rule::SetSequence, Rule::OwnEvents, Rule::OwnSequence],
        ),
        _ => true,
    }
}

// The verdict on a rule, of which this is kept.
fn verdict_on(knowledge: &Knowledge, recorded: Recorded, count: Count) -> Verdict
    ensures { result ≡ said_of recorded (known_of knowledge.now) count }
{
    let broken = count.broken.or(fails_in_end(knowledge, count.rule));
    let none_joined_broken = joined_unbroken(knowledge, count.rule);
    verdict_of(
        recorded,
        count.rule,
        knowledge,
        broken,
        none_joined_broken,
        count.asked,
    )
}

// The verdicts on rules, of which this is kept.
fn verdicts_on(
    alloc: Global,
    knowledge: &Knowledge,
    recorded: Recorded,
    counts: &[Count],
) -> Result<Vec<Verdict>, NoMemory>
    ensures { IfOk result (λ vs. vs.items ≡ map (said_of recorded (known_of knowledge.now)) counts.now) }
{
    let verdicts = counts
        .iter()
        .map(|count| verdict_on(knowledge, recorded, *count))
        .collect(alloc)?;
    Ok(verdicts)
}

impl Judge {
    /// The verdicts on the events so far, in the order of the rules; what was recorded beside the kernel's own.
    pub fn verdicts(&self, alloc: Global, recorded: Recorded) -> Result<Vec<Verdict>, Failed>
        ensures are { (es : List AnyTraced) → Follows self.now es
            → IfOk result (λ vs. vs.items ≡ map (λ r. verdict recorded r es) all_rules) }
        ensures unless { IsOkUnless result reasons.NoMemory }
    {
        let verdicts = verdicts_on(alloc, &self.knowledge, recorded, &self.counts)?;
        Ok(verdicts)
    }
}

// The judge, after these events.
fn judged(alloc: Global, events: &[Traced]) -> Result<Judge, Failed>
    ensures next { IfOk result (λ judge. Follows judge events.now) }
    ensures short { length events.now ≤ 2 ^ 32 → IsOkUnless result reasons.NoMemory }
{
    let mut judge = Judge::new(alloc)?;
    for event in events {
        judge.add(event)?;
    }
    Ok(judge)
}

/// The verdicts on a trace, in the order of the rules; what was recorded beside the kernel's own events.
pub fn verdicts_of(
    alloc: Global,
    recorded: Recorded,
    events: &[Traced],
) -> Result<Vec<Verdict>, Failed>
    ensures are { IfOk result (λ vs. vs.items ≡ map (λ r. verdict recorded r events.now) all_rules) }
    ensures short { length events.now ≤ 2 ^ 32 → IsOkUnless result reasons.NoMemory }
{
    let judge = judged(alloc, events)?;
    judge.verdicts(alloc, recorded)
}
