// What several traces say of a rule together.
ghost use Rattle.std.specs.Prelude.{◌≡◌, ◌++◌, [], IfSome, OnOk};
ghost use Rattle.hm_protocol.specs.Verdicts.{joined};
ghost use Rattle.hm_trace_top.specs.Together as spec;

use crate::ended::Outcome;
use crate::names::{place_of, rule_name};
use hm_base::{NoMemory, Text};
use hm_protocol::{Rule, Verdict};
use hm_report::{Buffer, put_decimal};
use hm_verdicts::{Failed, all_rules};
use std::alloc::Global;
use std::marker::Model;

/// The verdicts on a trace, one for each rule.
#[derive(Drop)]
pub struct Said {
    pub(crate) verdicts: Vec<Verdict>,
}

impl Model for Said {
    ghost use Rattle.std.specs.Prelude.{List};
    ghost use Rattle.hm_protocol.specs.declared.rules.Verdict.{Verdict as AnyVerdict};

    ghost Value = { List AnyVerdict };

    ghost view = { λ s. s.verdicts.items };
}

/// What several traces say of a rule together.
#[derive(Clone, Copy)]
pub enum Combined {
    /// So many of them break it.
    Broken(u64),
    /// None does, and so many may; the first rule that would account for them, and that one of the traces breaks.
    Maybe(u64, Option<Rule>),
    /// It was put to the test so often, and kept.
    Kept(u64),
    /// Nothing tests it.
    Unseen,
}

// Whether a verdict says that its rule is broken.
fn is_broken(verdict: &Verdict) -> bool
    ensures { result ≡ spec.is_broken verdict.now }
{
    matches!(verdict, Verdict::Broken(_))
}

impl Said {
    // What is said of a rule.
    fn on(&self, rule: Rule) -> Verdict
        ensures { result ≡ spec.verdict_on self.now rule }
    {
        match self.verdicts.get(place_of(rule)) {
            Some(verdict) => *verdict,
            None => Verdict::Unseen,
        }
    }

    // Whether the rule is broken.
    fn breaks(&self, rule: Rule) -> bool
        ensures { result ≡ spec.is_broken (spec.verdict_on self.now rule) }
    {
        matches!(self.on(rule), Verdict::Broken(_))
    }

    // Whether it may be.
    fn may_break(&self, rule: Rule) -> bool
        ensures { result ≡ spec.is_open (spec.verdict_on self.now rule) }
    {
        matches!(self.on(rule), Verdict::Maybe(_))
    }

    // Whether nothing tests it.
    fn leaves_out(&self, rule: Rule) -> bool
        ensures { result ≡ spec.is_unseen (spec.verdict_on self.now rule) }
    {
        matches!(self.on(rule), Verdict::Unseen)
    }

    // How often it was kept.
    fn times_kept(&self, rule: Rule) -> u64
        ensures { result ≡ spec.times_kept (spec.verdict_on self.now rule) }
    {
        match self.on(rule) {
            Verdict::Kept(times) => times,
            _ => 0,
        }
    }

    // Whether some rule is broken.
    fn has_broken(&self) -> bool
        ensures { result ≡ spec.has_broken self.now }
    {
        self.verdicts.iter().any(is_broken)
    }
}

// The rules of which one is broken where this one may be.
fn joined(rule: Rule) -> &'static [Rule]
    ensures { result.now ≡ joined rule }
{
    match rule {
        Rule::Compare | Rule::CompareSequence => &[Rule::Compare, Rule::CompareSequence],
        Rule::Erase | Rule::EraseAll | Rule::EraseInTime => {
            &[Rule::Erase, Rule::EraseAll, Rule::EraseInTime]
        }
        Rule::OwnEntries => &[
            Rule::Erase,
            Rule::EraseAll,
            Rule::EraseInTime,
            Rule::OwnEntries,
        ],
        Rule::SetSequence | Rule::OwnEvents | Rule::OwnSequence => {
            &[Rule::SetSequence, Rule::OwnEvents, Rule::OwnSequence]
        }
        _ => &[],
    }
}

// How many of the traces break the rule.
fn broken_in(said: &[Said], rule: Rule) -> u64
    ensures { result ≡ spec.broken_in said.now rule }
{
    said.iter().filter(|said| said.breaks(rule)).count() as u64
}

// How many of them may.
fn open_in(said: &[Said], rule: Rule) -> u64
    ensures { result ≡ spec.open_in said.now rule }
{
    said.iter().filter(|said| said.may_break(rule)).count() as u64
}

// Whether none of them tests it.
fn is_unseen_in(said: &[Said], rule: Rule) -> bool
    ensures { result ≡ spec.is_unseen_in said.now rule }
{
    said.iter().all(|said| said.leaves_out(rule))
}

// How often they keep it, if a number of 64 bits counts that.
fn kept_in(said: &[Said], rule: Rule) -> Option<u64>
    ensures { IfSome result (λ n. n ≡ spec.kept_in said.now rule) }
{
    let mut sum: u64 = 0;
    let mut left = said;
    while let [first, more @ ..] = left {
        let Some(next) = sum.checked_add(first.times_kept(rule)) else {
            return None;
        };
        sum = next;
        left = more;
    }
    Some(sum)
}

// The first of the rules of which one is broken where this one may be, that some trace breaks.
fn broken_partner(said: &[Said], rule: Rule) -> Option<Rule>
    ensures { result ≡ spec.broken_partner said.now rule }
{
    joined(rule)
        .iter()
        .copied()
        .find(|other| broken_in(said, *other) > 0)
}

/// What the traces say of a rule together, if a number of 64 bits counts it.
fn together(said: &[Said], rule: Rule) -> Option<Combined>
    ensures { IfSome result (λ t. t ≡ spec.together said.now rule) }
{
    let broken = broken_in(said, rule);
    if broken > 0 {
        return Some(Combined::Broken(broken));
    }
    let open = open_in(said, rule);
    if open > 0 {
        return Some(Combined::Maybe(open, broken_partner(said, rule)));
    }
    if is_unseen_in(said, rule) {
        return Some(Combined::Unseen);
    }
    match kept_in(said, rule) {
        Some(times) => Some(Combined::Kept(times)),
        None => None,
    }
}

// Whether some trace breaks a rule.
fn has_broken(said: &[Said]) -> bool
    ensures { result ≡ spec.some_broken said.now }
{
    said.iter().any(|said| said.has_broken())
}

// The first of these rules that no trace tests.
fn first_unseen(expected: &[Rule], said: &[Said]) -> Option<Rule>
    ensures { result ≡ spec.first_unseen expected.now said.now }
{
    expected
        .iter()
        .copied()
        .find(|rule| is_unseen_in(said, *rule))
}

/// What verdicts come to, if these rules are to be tested.
pub(crate) fn outcome(expected: &[Rule], said: &[Said]) -> Outcome
    ensures { result ≡ spec.outcome_of expected.now said.now }
{
    if has_broken(said) {
        return Outcome::Broken;
    }
    match first_unseen(expected, said) {
        Some(rule) => Outcome::Unseen(rule),
        None => Outcome::Kept,
    }
}

// Puts what is said of a rule after its word into the empty buffer.
fn put_together(out: &mut Buffer, together: Combined)
    requires { out.old ≡ [] }
    ensures { out.new ≡ spec.together_text together }
{
    match together {
        Combined::Broken(traces) => put_decimal(out, b" broken in ", traces),
        Combined::Maybe(traces, _) => put_decimal(out, b" maybe in ", traces),
        Combined::Kept(times) => put_decimal(out, b" kept ", times),
        Combined::Unseen => out.put(b" unseen"),
    }
}

// Adds the broken rule that would account for what may be.
fn add_unless(text: &mut Text, together: Combined) -> Result<(), NoMemory>
    ensures { OnOk result (text.new ≡ text.old ++ spec.unless_text together) }
{
    match together {
        Combined::Maybe(_, Some(rule)) => {
            text.extend(b" if not ")?;
            text.extend(rule_name(rule).as_bytes())
        }
        _ => Ok(()),
    }
}

// Adds the line of a rule. The buffer is written over.
#[tactic(auto, using(std::proofs::Common::append_assoc))]
fn add_line(
    text: &mut Text,
    out: &mut Buffer,
    rule: Rule,
    together: Combined,
) -> Result<(), NoMemory>
    ensures { OnOk result (text.new ≡ text.old ++ spec.together_line rule together) }
{
    out.clear();
    put_together(out, together);
    text.extend(rule_name(rule).as_bytes())?;
    text.extend(out.as_slice())?;
    add_unless(text, together)?;
    text.extend(b"\n")
}

// Adds the lines of some rules. The buffer is written over.
#[tactic(auto, using(std::proofs::Common::append_assoc))]
fn add_lines(text: &mut Text, out: &mut Buffer, said: &[Said], rules: &[Rule]) -> Result<(), Failed>
    ensures { OnOk result (text.new ≡ text.old ++ spec.together_lines said.now rules.now) }
{
    let mut left = rules;
    while let [rule, more @ ..] = left {
        let Some(together) = together(said, *rule) else {
            return Err(Failed::TooLong);
        };
        add_line(text, out, *rule, together)?;
        left = more;
    }
    Ok(())
}

// Adds the line that says how many traces there are.
#[tactic(auto, using(std::proofs::Common::append_assoc))]
fn add_count(text: &mut Text, out: &mut Buffer, count: u64) -> Result<(), NoMemory>
    ensures { OnOk result (text.new ≡ text.old ++ spec.count_line count) }
{
    out.clear();
    put_decimal(out, b"all ", count);
    out.put(b" traces\n");
    text.extend(out.as_slice())
}

/// Adds what all traces say together: how many there are, and a line for each rule.
#[tactic(auto, using(std::proofs::Common::append_assoc), unfolding(crate::specs::Together::all_text))]
pub(crate) fn add_all(alloc: Global, text: &mut Text, said: &[Said]) -> Result<(), Failed>
    ensures { OnOk result (text.new ≡ text.old ++ spec.all_text said.now) }
{
    let mut out = Buffer::new(alloc)?;
    add_count(text, &mut out, said.len() as u64)?;
    add_lines(text, &mut out, said, &all_rules())
}
