// The text of what was found of one driver.
ghost use Rattle.std.specs.Prelude.{◌≡◌, ◌+◌, ◌<◌, ◌^◌, ◌++◌, ◌∷◌, [], codes, length, IfOk, OnOk};
ghost use Rattle.std.specs.Fmt.{decimal};
ghost use Rattle.hm_report.specs.Report.{entry_line, entry_lines};
ghost use Rattle.hm_race_top.specs.Text.Text.{states_line};
ghost use Rattle.hm_flaw_search.specs.Outcomes.{extent, race_length};
ghost use Rattle.hm_flaw_top.specs.Text.Lines.{answer_text, breaks_line, due_line, found_text, owed_text};

use crate::text::names::part_name;
use hm_base::{Actor, NoMemory, Text};
use hm_flaw_search::{Answer, Found, Owed};
use hm_flaws::Part;
use hm_history::{Entry, Progress};
use hm_race_top::text::{add_decimal, add_states};
use hm_report::{Buffer, add_entry};
use std::alloc::Global;

/// Adds the lines of entries in a row, the first of which has this position. The buffer is written over.
fn add_entries(
    text: &mut Text,
    out: &mut Buffer,
    start: u64,
    entries: &[Entry],
) -> Result<(), NoMemory>
    requires { start + length entries.now < 2 ^ 64 }
    ensures { OnOk result (text.new ≡ text.old ++ entry_lines start entries.now) }
{
    let mut at = start;
    for entry in entries {
        add_entry(text, out, at, entry)?;
        at += 1;
    }
    Ok(())
}

/// Adds the line of a part that is broken.
#[tactic(auto, using(std::proofs::Common::append_assoc))]
fn add_breaks(text: &mut Text, part: Part) -> Result<(), NoMemory>
    ensures { OnOk result (text.new ≡ text.old ++ breaks_line part) }
{
    text.extend(b"breaks ")?;
    text.extend(part_name(part).as_bytes())?;
    text.push(b'\n')
}

/// Adds the line of an actor that makes no entry at this position, with a word for why.
#[tactic(auto, using(std::proofs::Common::append_assoc))]
fn add_none_due(
    alloc: Global,
    text: &mut Text,
    at: u64,
    actor: Actor,
    why: &[u8],
) -> Result<(), NoMemory>
    ensures { OnOk result (text.new ≡ text.old ++ (decimal at ++ (codes " a" ++ (decimal actor ++ why.now)))) }
{
    add_decimal(alloc, text, b"", at)?;
    add_decimal(alloc, text, b" a", actor.number() as u64)?;
    text.extend(why)
}

/// Adds the line of what was due to an actor at this position. The buffer is written over.
fn add_due(alloc: Global, text: &mut Text, out: &mut Buffer, owed: &Owed) -> Result<(), NoMemory>
    ensures { OnOk result (text.new ≡ text.old ++ due_line owed.now.at owed.now.actor owed.now.due) }
{
    match &owed.due {
        Progress::Did(entry) => add_entry(text, out, owed.at, entry),
        Progress::Waiting(_) => add_none_due(alloc, text, owed.at, owed.actor, b" waits\n"),
        Progress::Idle => add_none_due(alloc, text, owed.at, owed.actor, b" idle\n"),
    }
}

/// Adds the line of what was owed in a race, if something was. The buffer is written over.
#[tactic(auto, using(std::proofs::Common::append_assoc))]
fn add_owed(
    alloc: Global,
    text: &mut Text,
    out: &mut Buffer,
    owed: &Option<Owed>,
) -> Result<(), NoMemory>
    ensures { OnOk result (text.new ≡ text.old ++ owed_text owed.now) }
{
    match owed {
        Some(owed) => {
            text.extend(b"owed ")?;
            add_due(alloc, text, out, owed)
        }
        None => Ok(()),
    }
}

/// Adds the lines of entries, and of the one after them. The buffer is written over.
#[tactic(auto, using(std::proofs::Common::append_assoc))]
fn add_race(
    text: &mut Text,
    out: &mut Buffer,
    start: u64,
    entries: &[Entry],
    last: &Entry,
) -> Result<(), NoMemory>
    requires { start + length entries.now < 2 ^ 64 }
    ensures { OnOk result
        (text.new ≡ text.old ++ (entry_lines start entries.now ++ entry_line (start + length entries.now) last.now)) }
{
    add_entries(text, out, start, entries)?;
    add_entry(text, out, start + entries.len() as u64, last)
}

/// Adds a word as a line.
#[tactic(auto, using(std::proofs::Common::append_assoc))]
fn add_word(text: &mut Text, word: &str) -> Result<(), NoMemory>
    ensures { OnOk result (text.new ≡ text.old ++ (word.now ++ 10 ∷ [])) }
{
    text.extend(word.as_bytes())?;
    text.push(b'\n')
}

/// Adds the lines of what was found. The buffer is written over.
#[tactic(auto, using(std::proofs::Common::append_assoc))]
fn add_found(
    alloc: Global,
    text: &mut Text,
    out: &mut Buffer,
    start: u64,
    answer: &Answer,
) -> Result<(), NoMemory>
    requires { start + race_length answer.now.found < 2 ^ 64 }
    ensures { OnOk result
        (text.new ≡ text.old ++ found_text start answer.now.unused answer.now.owed answer.now.found) }
{
    match &answer.found {
        Found::Broken {
            entries,
            last,
            part,
        } => {
            add_race(text, out, start, entries.as_slice(), last)?;
            add_owed(alloc, text, out, &answer.owed)?;
            add_breaks(text, *part)
        }
        Found::Stuck { entries } => {
            add_entries(text, out, start, entries.as_slice())?;
            add_owed(alloc, text, out, &answer.owed)?;
            text.extend(b"stuck\n")
        }
        Found::Nothing => add_word(text, answer.nothing_word()),
    }
}

/// The text of what was found of a driver: the entries after the set-up, whose length is `start`, then what they come
/// to, and how many states are known.
#[tactic(auto, using(std::proofs::Common::append_assoc), unfolding(crate::specs::Text::Lines::answer_text))]
pub fn answer_text(alloc: Global, start: u64, answer: &Answer) -> Result<Text, NoMemory>
    requires { start + race_length answer.now.found < 2 ^ 64 }
    ensures { IfOk result (λ t. t ≡ answer_text start answer.now) }
{
    let mut out = Buffer::new(alloc)?;
    let mut text = Text::new(alloc);
    add_found(alloc, &mut text, &mut out, start, answer)?;
    add_states(alloc, &mut text, answer.states, answer.extent())?;
    Ok(text)
}
