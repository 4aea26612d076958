// What the words after the program's name ask for.
ghost use Rattle.std.specs.Prelude.{◌≡◌, [], map, string_bytes, IfErr, IfOk, Ok};
ghost use Rattle.hm_trace_top.specs.Names.{rule_named};
ghost use Rattle.hm_trace_top.specs.Words.{HasNoTask, asked_by, rules_on, task_in};

use crate::ended::Ended;
use crate::names::rule_name;
use hm_protocol::Rule;
use hm_verdicts::all_rules;
use std::alloc::Global;

/// What the words after the program's name ask for.
#[derive(Drop)]
pub(crate) enum Task {
    /// The verdicts on a trace.
    Verdicts,
    /// The same; and how the call ends tells if one of these rules is not put to the test.
    Expect(Vec<Rule>),
}

/// The rule that a word names.
#[tactic(auto, unfolding(crate::specs::Names::rule_named))]
fn rule_named(word: &[u8]) -> Option<Rule>
    ensures { result ≡ rule_named word.now }
{
    all_rules()
        .iter()
        .copied()
        .find(|rule| rule_name(*rule).as_bytes() == word)
}

/// The rules that words name, which come after the first word.
fn rules_of(alloc: Global, words: &[String]) -> Result<Vec<Rule>, Ended>
    ensures rules { IfOk result (λ rs. rules_on [] 2 (map string_bytes words.now) ≡ Ok rs.items) }
    ensures none { IfErr result (HasNoTask (rules_on [] 2 (map string_bytes words.now))) }
{
    let mut rules = Vec::new(alloc);
    let mut left = words;
    let mut at: u64 = 2;
    while let [word, rest @ ..] = left {
        let Some(rule) = rule_named(word.as_str().as_bytes()) else {
            return Err(Ended::NoRule(at));
        };
        if rules.push(rule).is_err() {
            return Err(Ended::NoMemory);
        }
        at += 1;
        left = rest;
    }
    Ok(rules)
}

/// What the words ask for: the verdicts, or after `--expect` one rule at least. Or how the call ends that does nothing.
pub(crate) fn task_of(alloc: Global, words: &[String]) -> Result<Task, Ended>
    ensures task { IfOk result (λ t. task_in (map string_bytes words.now) ≡ Ok (asked_by t)) }
    ensures none { IfErr result (HasNoTask (task_in (map string_bytes words.now))) }
{
    match words {
        [] => Ok(Task::Verdicts),
        [_] => Err(Ended::Usage),
        [word, rules @ ..] => {
            if word.as_str() != "--expect" {
                return Err(Ended::Usage);
            }
            match rules_of(alloc, rules) {
                Ok(rules) => Ok(Task::Expect(rules)),
                Err(ended) => Err(ended),
            }
        }
    }
}
