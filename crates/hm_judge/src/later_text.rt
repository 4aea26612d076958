// The text of what is said of the entries after a first bad line.
ghost use Rattle.std.specs.Prelude.{◌≡◌, ◌+◌, ◌^◌, ◌≤◌, ◌++◌, length, IfOk, OnOk};
ghost use Rattle.hm_judge.specs.LaterTexts.{also_line, also_lines, also_text, answer_text, early_text, followed_text};
ghost use Rattle.hm_judge.specs.LaterTexts.{last_line, late_text, later_text, stop_line, stops};

use crate::answer::Answer;
use crate::asked::Asked;
use crate::followed::{Followed, Later};
use crate::judgement::Judgement;
use crate::text::{add_break, add_judgement, add_numbered};
use hm_base::{NoMemory, Text};
use hm_history::Entry;
use hm_parts::Rules;
use hm_report::{Buffer, add_entry, put_decimal};
use std::alloc::Global;

// ---- one entry

/// Adds the lines of each of the first rules that is broken. The buffer is written over.
fn add_early(text: &mut Text, out: &mut Buffer, rules: &Rules) -> Result<(), NoMemory>
    ensures { OnOk result (text.new ≡ text.old ++ early_text rules.now) }
{
    add_break(text, out, rules.answers, b"breaks answers\n", &None)?;
    add_break(text, out, rules.places, b"breaks places\n", &None)?;
    add_break(text, out, rules.frames, b"breaks frames\n", &None)
}

/// Adds the lines of each of the others that is broken. The buffer is written over.
fn add_late(text: &mut Text, out: &mut Buffer, rules: &Rules) -> Result<(), NoMemory>
    ensures { OnOk result (text.new ≡ text.old ++ late_text rules.now) }
{
    add_break(text, out, rules.sequences, b"breaks sequences\n", &None)?;
    add_break(text, out, rules.untold, b"breaks untold\n", &None)?;
    add_break(text, out, rules.guarded, b"breaks guarded\n", &None)
}

/// Adds what is said of an entry that breaks a rule. The buffer is written over.
fn add_also(
    text: &mut Text,
    out: &mut Buffer,
    line: u64,
    at: u64,
    entry: &Entry,
    rules: &Rules,
) -> Result<(), NoMemory>
    ensures { OnOk result (text.new ≡ text.old ++ also_text line at entry.now rules.now) }
{
    add_numbered(text, out, b"also ", line)?;
    text.extend(b"entry ")?;
    add_entry(text, out, at, entry)?;
    add_early(text, out, rules)?;
    add_late(text, out, rules)
}

/// Adds what is said of an entry, if it comes after the first bad line and breaks a rule. The buffer is written over.
fn add_also_if(
    text: &mut Text,
    out: &mut Buffer,
    first: u64,
    bad: u64,
    at: u64,
    entry: &Entry,
    rules: &Rules,
) -> Result<(), NoMemory>
    requires first { first ≤ 2 ^ 63 + 2 }
    requires at { at ≤ 2000000 }
    ensures { OnOk result (text.new ≡ text.old ++ also_line first bad at entry.now rules.now) }
{
    if at <= bad || rules.hold() {
        return Ok(());
    }
    add_also(text, out, first + at, at, entry, rules)
}

// ---- all entries

/// Adds what is said of the entries. The buffer is written over.
fn add_also_lines(
    text: &mut Text,
    out: &mut Buffer,
    first: u64,
    bad: u64,
    entries: &[Entry],
    rules: &[Rules],
) -> Result<(), NoMemory>
    requires first { first ≤ 2 ^ 63 + 2 }
    requires few { length entries.now ≤ 2000000 }
    requires many { length rules.now ≤ length entries.now }
    ensures { OnOk result (text.new ≡ text.old ++ also_lines first bad 0 entries.now rules.now) }
{
    for at in 0..rules.len() {
        add_also_if(text, out, first, bad, at as u64, &entries[at], &rules[at])?;
    }
    Ok(())
}

/// Whether no state follows the last entry that was judged.
fn stops(rules: &[Rules]) -> bool
    ensures { result ≡ stops rules.now }
{
    match rules.last() {
        None => false,
        Some(last) => !last.goes_on,
    }
}

/// Adds the line at which it stops, and why. The buffer is written over.
#[tactic(auto, using(std::proofs::Common::append_assoc))]
fn add_stop(text: &mut Text, out: &mut Buffer, line: u64, why: &[u8]) -> Result<(), NoMemory>
    ensures { OnOk result (text.new ≡ text.old ++ stop_line line why.now) }
{
    out.clear();
    put_decimal(out, b"stops ", line);
    text.extend(out.as_slice())?;
    text.extend(why)
}

/// Adds the last line. The buffer is written over.
fn add_last(text: &mut Text, out: &mut Buffer, first: u64, rules: &[Rules]) -> Result<(), NoMemory>
    requires first { first ≤ 2 ^ 63 + 2 }
    requires few { length rules.now ≤ 2000000 }
    ensures { OnOk result (text.new ≡ text.old ++ last_line first rules.now) }
{
    let count = rules.len() as u64;
    if stops(rules) {
        add_stop(text, out, first + count.saturating_sub(1), b" state\n")
    } else {
        add_numbered(text, out, b"judged ", count)
    }
}

/// Adds what is said of the entries that were followed. The buffer is written over.
#[tactic(auto, using(std::proofs::Common::append_assoc))]
fn add_followed(
    text: &mut Text,
    out: &mut Buffer,
    bad: u64,
    followed: &Followed,
) -> Result<(), NoMemory>
    ensures { OnOk result (text.new ≡ text.old ++ followed_text bad followed.now) }
{
    let rules = followed.rules.as_slice();
    add_also_lines(
        text,
        out,
        followed.first,
        bad,
        followed.history.as_slice(),
        rules,
    )?;
    add_last(text, out, followed.first, rules)
}

/// Adds what is said of the later entries. The buffer is written over.
fn add_later(
    text: &mut Text,
    out: &mut Buffer,
    judgement: &Judgement,
    later: &Later,
) -> Result<(), NoMemory>
    ensures { OnOk result (text.new ≡ text.old ++ later_text judgement.now later.now) }
{
    match judgement {
        Judgement::Legal(_) => Ok(()),
        Judgement::Bad(bad) => match later {
            Later::Unasked => Ok(()),
            Later::Unread(line) => add_stop(text, out, *line, b" text\n"),
            Later::Read(followed) => add_followed(text, out, bad.at, followed),
        },
    }
}

/// All that is written of an answer: the text of the judgement, and then of the later entries.
pub fn answer_text(alloc: Global, asked: Asked, answer: &Answer) -> Result<Text, NoMemory>
    ensures { IfOk result (λ t. t ≡ answer_text asked answer.now) }
{
    let mut out = Buffer::new(alloc)?;
    let mut text = Text::new(alloc);
    add_judgement(&mut text, &mut out, asked, &answer.judgement)?;
    add_later(&mut text, &mut out, &answer.judgement, &answer.later)?;
    Ok(text)
}
