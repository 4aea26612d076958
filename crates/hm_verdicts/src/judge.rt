// A trace judged, event by event.
ghost use Rattle.std.specs.Prelude.{◌≡◌, ◌<◌, ◌≤◌, ◌^◌, ◌++◌, ◌∷◌, [], length, map, Err, IfOk, OnOk, IsOkUnless};
ghost use Rattle.hm_protocol.specs.Rules.{all_rules};
ghost use Rattle.hm_protocol.specs.declared.events.Traced.{Traced as AnyTraced};
ghost use Rattle.std.specs.Prelude.{List};
ghost use Rattle.hm_verdicts.specs.Judging.{count_start, count_next, Follows};
ghost use Rattle.hm_verdicts.specs.Knowledge.{known_of};
ghost use Rattle.hm_verdicts.specs.declared.failed.Failed.TheVariants as reasons;

use crate::asking::breaks;
use crate::counting::asks;
use crate::failed::Failed;
use crate::knowledge::Knowledge;
use crate::newest_first::{Changes, change_items};
use hm_base::NoMemory;
use hm_protocol::{Rule, Traced};
use std::alloc::Global;

// The most events that are judged.
const MOST_EVENTS: u64 = 1 << 32;

const ALL_RULES: [Rule; 27] = [
    Rule::Compare,
    Rule::CompareSequence,
    Rule::EntryRight,
    Rule::MmapLock,
    Rule::OwnDevice,
    Rule::BeginWaits,
    Rule::BeginFirst,
    Rule::SetSequence,
    Rule::Erase,
    Rule::EraseAll,
    Rule::EraseInTime,
    Rule::OwnEvents,
    Rule::OwnSequence,
    Rule::OwnEntries,
    Rule::StopAtDetach,
    Rule::WriteEntry,
    Rule::DetachWaits,
    Rule::SetMoved,
    Rule::SetRight,
    Rule::SetUnlessInvalidated,
    Rule::DropLost,
    Rule::TakeFromThere,
    Rule::EvictFirst,
    Rule::WithdrawFirst,
    Rule::WaitForLocked,
    Rule::ExclusiveWaits,
    Rule::LookAgain,
];

/// All rules, in the order of docs/BROKEN.md.
pub fn all_rules() -> [Rule; 27]
    ensures { result ≡ all_rules }
{
    ALL_RULES
}

/// What is kept of a rule: the first event that breaks it, and how often events put it to the test.
#[derive(Clone, Copy)]
pub struct Count {
    pub(crate) rule: Rule,
    pub(crate) broken: Option<u64>,
    pub(crate) asked: u64,
}

// An event, after what is known.
#[derive(Drop)]
struct Next<'a> {
    knowledge: &'a Knowledge,
    event: &'a Traced,
}

impl<'a> Changes<Count> for Next<'a> {
    ghost use Rattle.hm_verdicts.specs.Judging.{count_next};
    ghost use Rattle.hm_verdicts.specs.Knowledge.{known_of};

    ghost made = { λ s. count_next (known_of s.knowledge.now) s.event.now };

    fn change(&self, count: &mut Count) -> Result<(), NoMemory> {
        if count.broken.is_none() && breaks(self.knowledge, count.rule, self.event) {
            count.broken = Some(self.knowledge.at);
        }
        let asked = asks(self.knowledge, count.rule, self.event);
        count.asked = count.asked.saturating_add(asked);
        Ok(())
    }
}

/// Judges a trace, event by event.
#[derive(Drop)]
pub struct Judge {
    pub(crate) knowledge: Knowledge,
    pub(crate) counts: Vec<Count>,
}

// What is kept of each rule before the first event.
fn counts_start(alloc: Global) -> Result<Vec<Count>, NoMemory>
    ensures { IfOk result (λ xs. xs.items ≡ map count_start all_rules) }
{
    let counts = ALL_RULES
        .iter()
        .map(|rule| Count {
            rule: *rule,
            broken: None,
            asked: 0,
        })
        .collect(alloc)?;
    Ok(counts)
}

impl Judge {
    /// Before the first event.
    pub fn new(alloc: Global) -> Result<Judge, Failed>
        ensures start { IfOk result (λ judge. Follows judge []) }
        ensures unless { IsOkUnless result reasons.NoMemory }
    {
        let counts = counts_start(alloc)?;
        Ok(Judge {
            knowledge: Knowledge::new(alloc),
            counts,
        })
    }

    /// One event more. After a failure it says nothing.
    pub fn add(&mut self, event: &Traced) -> Result<(), Failed>
        ensures next { (es : List AnyTraced) → Follows self.old es
            → OnOk result (Follows self.new (es ++ event.now ∷ [])) }
        ensures short { (es : List AnyTraced) → Follows self.old es → length es < 2 ^ 32
            → IsOkUnless result reasons.NoMemory }
        ensures long { (es : List AnyTraced) → Follows self.old es → 2 ^ 32 ≤ length es
            → result ≡ Err reasons.TooLong }
    {
        if MOST_EVENTS <= self.knowledge.at {
            return Err(Failed::TooLong);
        }
        let next = Next {
            knowledge: &self.knowledge,
            event,
        };
        change_items(&mut self.counts, &next)?;
        self.knowledge.note(event)?;
        Ok(())
    }
}
