// The text of the verdicts on a trace.
ghost use Rattle.std.specs.Prelude.{◌≡◌, ◌+◌, ◌≤◌, ◌∷◌, ◌++◌, [], length, IfOk, OnOk};
ghost use Rattle.hm_trace_top.specs.Texts.{events_line, lines_text, number_at, origin_text, reason_line, rule_line, rule_lines};
ghost use Rattle.hm_trace_top.specs.Texts.{sentence_line, verdict_text};

use crate::names::rule_name;
use crate::origins::{Origin, origin_of};
use crate::reading::Trace;
use crate::sentences::sentence;
use hm_base::{NoMemory, Text};
use hm_protocol::{Rule, Verdict};
use hm_report::{Buffer, put_decimal};
use hm_trace::Progress;
use hm_verdicts::all_rules;
use std::alloc::Global;

/// The number of the event at a position.
fn number_at(numbers: &[u64], at: u64) -> u64
    ensures { result ≡ number_at numbers.now at }
{
    match numbers.get(at as usize) {
        Some(number) => *number,
        None => at,
    }
}

/// Adds what is said of a rule after its word.
fn put_verdict(out: &mut Buffer, numbers: &[u64], verdict: Verdict)
    requires { length out.old ≤ 100 }
    ensures text { out.new ≡ out.old ++ verdict_text numbers.now verdict }
    ensures room { length out.new ≤ length out.old + 100 }
{
    match verdict {
        Verdict::Kept(times) => put_decimal(out, b" kept ", times),
        Verdict::Unseen => out.put(b" unseen"),
        Verdict::Maybe(at) => put_decimal(out, b" maybe ", number_at(numbers, at)),
        Verdict::Broken(at) => put_decimal(out, b" broken ", number_at(numbers, at)),
    }
}

/// Puts the events that a verdict goes back to, if there are any, into the empty buffer.
fn put_origin(out: &mut Buffer, numbers: &[u64], origin: Origin)
    requires { out.old ≡ [] }
    ensures { out.new ≡ origin_text numbers.now origin.from origin.met }
{
    let Some(from) = origin.from else {
        return;
    };
    put_decimal(out, b"; goes back to ", number_at(numbers, from));
    if let Some(met) = origin.met {
        put_decimal(out, b" and ", number_at(numbers, met));
    }
}

/// Adds what a rule says, and to which events its verdict goes back. The buffer is written over.
#[tactic(auto, using(std::proofs::Common::append_assoc))]
fn add_sentence(
    text: &mut Text,
    out: &mut Buffer,
    numbers: &[u64],
    rule: Rule,
    origin: Origin,
) -> Result<(), NoMemory>
    ensures { OnOk result (text.new ≡ text.old ++ sentence_line numbers.now rule origin) }
{
    out.clear();
    put_origin(out, numbers, origin);
    text.extend(b"  ")?;
    text.extend(sentence(rule).as_bytes())?;
    text.extend(out.as_slice())?;
    text.extend(b"\n")
}

/// Adds what a rule says that is broken, or may be. The buffer is written over.
fn add_reason(
    text: &mut Text,
    out: &mut Buffer,
    trace: &Trace,
    rule: Rule,
    verdict: Verdict,
) -> Result<(), NoMemory>
    ensures { OnOk result
        (text.new ≡ text.old ++ reason_line trace.now.events.items trace.now.numbers.items rule verdict) }
{
    let at = match verdict {
        Verdict::Kept(_) | Verdict::Unseen => return Ok(()),
        Verdict::Maybe(at) | Verdict::Broken(at) => at,
    };
    let origin = origin_of(rule, trace.events.as_slice(), at);
    add_sentence(text, out, trace.numbers.as_slice(), rule, origin)
}

/// Adds the line of a rule, and what it says if it is broken, or may be. The buffer is written over.
#[tactic(auto, using(std::proofs::Common::append_assoc))]
fn add_rule_line(
    text: &mut Text,
    out: &mut Buffer,
    trace: &Trace,
    rule: Rule,
    verdict: Verdict,
) -> Result<(), NoMemory>
    ensures { OnOk result
        (text.new ≡ text.old ++ rule_line trace.now.events.items trace.now.numbers.items rule verdict) }
{
    out.clear();
    put_verdict(out, trace.numbers.as_slice(), verdict);
    out.push(b'\n');
    text.extend(rule_name(rule).as_bytes())?;
    text.extend(out.as_slice())?;
    add_reason(text, out, trace, rule, verdict)
}

/// Adds the lines of some rules. The buffer is written over.
#[tactic(auto, using(std::proofs::Common::append_assoc))]
fn add_rule_lines(
    text: &mut Text,
    out: &mut Buffer,
    trace: &Trace,
    rules: &[Rule],
    verdicts: &[Verdict],
) -> Result<(), NoMemory>
    ensures { OnOk result
        (text.new ≡ text.old ++ rule_lines trace.now.events.items trace.now.numbers.items rules.now verdicts.now) }
{
    let mut left = rules;
    let mut said = verdicts;
    while let [rule, more @ ..] = left {
        let [verdict, others @ ..] = said else {
            return Ok(());
        };
        add_rule_line(text, out, trace, *rule, *verdict)?;
        left = more;
        said = others;
    }
    Ok(())
}

/// Adds the first line, of a trace with so many events. The buffer is written over.
#[tactic(auto, using(std::proofs::Common::append_assoc))]
fn add_events_line(
    text: &mut Text,
    out: &mut Buffer,
    progress: &Progress,
    count: u64,
) -> Result<(), NoMemory>
    ensures { OnOk result (text.new ≡ text.old ++ events_line progress.now count) }
{
    out.clear();
    put_decimal(out, b"events ", count);
    if progress.is_whole() {
        out.put(b" whole\n");
    } else {
        out.put(b" part\n");
    }
    text.extend(out.as_slice())
}

/// The lines on a trace with these verdicts: how many events it has, and a line for each rule.
#[tactic(auto, using(std::proofs::Common::append_assoc), unfolding(crate::specs::Texts::lines_text))]
pub fn lines_text(alloc: Global, trace: &Trace, verdicts: &[Verdict]) -> Result<Text, NoMemory>
    ensures { IfOk result (λ t. t ≡ lines_text trace.now.progress trace.now.events.items
        trace.now.numbers.items verdicts.now) }
{
    let mut text = Text::new(alloc);
    let mut out = Buffer::new(alloc)?;
    let events = trace.events.as_slice();
    add_events_line(&mut text, &mut out, &trace.progress, events.len() as u64)?;
    let rules = all_rules();
    add_rule_lines(&mut text, &mut out, trace, &rules, verdicts)?;
    Ok(text)
}
