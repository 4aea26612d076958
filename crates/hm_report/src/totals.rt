// The summary of a generated script's history.
ghost use Rattle.std.specs.Prelude.{◌≡◌, ◌+◌, ◌*◌, ◌≤◌, ◌++◌, ◌<◌, ◌^◌, length, slice_index, OnOk, IfOk};
ghost use Rattle.hm_report.specs.Summary.{summary_line, answer_lines, move_lines, unfinished_count, summary_by};
ghost use Rattle.hm_report.specs.Summary.{summary};
ghost use Rattle.hm_history.specs.Kernel.Legal.{Legal};
ghost use Rattle.hm_report.specs.Counted.{counted};

use crate::ended::{op_count, operations_ended};
use crate::laws::ends_are_counted;
use hm_base::{NoMemory, Script, Text};
use hm_history::{Entry, History, Kind};
use std::alloc::Global;

/// What entries are counted.
#[derive(Clone, Copy)]
pub enum Topic {
    Loaded,
    Stored,
    Failed,
    Refused,
    Retry,
}

/// What numbers of entries are summed.
#[derive(Clone, Copy)]
pub enum Amount {
    Migrated,
    Evicted,
}

ghost use Rattle.hm_report.specs.Summary.{is_of, count_of, amount_in, amount_of};

fn is_of(topic: Topic, kind: &Kind) -> bool
    ensures { result ≡ is_of topic kind.now }
{
    match (topic, kind) {
        (Topic::Loaded, Kind::Loaded { .. }) => true,
        (Topic::Stored, Kind::Stored { .. }) => true,
        (Topic::Failed, Kind::Failed { .. }) => true,
        (Topic::Refused, Kind::Refused(_)) => true,
        (Topic::Retry, Kind::Retry(_)) => true,
        _ => false,
    }
}

fn count_of(topic: Topic, entries: &[Entry]) -> u64
    ensures { result ≡ count_of topic entries.now }
{
    let mut count = 0;
    for entry in entries {
        if is_of(topic, &entry.kind) {
            count += 1;
        }
    }
    count
}

fn amount_in(amount: Amount, kind: &Kind) -> u64
    ensures { result ≡ amount_in amount kind.now }
{
    match (amount, kind) {
        (Amount::Migrated, Kind::Migrated(pages)) => *pages,
        (Amount::Evicted, Kind::Evicted(frames)) => *frames,
        _ => 0,
    }
}

fn amount_of(amount: Amount, entries: &[Entry]) -> u128
    ensures { result ≡ amount_of amount entries.now }
{
    let mut total: u128 = 0;
    for entry in entries {
        total += u128::from(amount_in(amount, &entry.kind));
    }
    total
}

fn unfinished(script: &Script, history: &History) -> u64
    ensures { result ≡ unfinished_count script.now (counted script.now history.now.entries) (length script.now.actors) }
{
    script.facts();
    let ended = operations_ended(script, history);
    let mut count = 0;
    for actor in 0..script.actors.len() {
        if ended[actor as usize] != op_count(script, actor) {
            count += 1;
        }
    }
    count
}

/// Adds a line of a word and a number.
fn put_line(alloc: Global, text: &mut Text, word: &str, number: u128) -> Result<(), NoMemory>
    ensures { OnOk result (text.new ≡ text.old ++ summary_line word.now number) }
{
    let line = format!(in alloc; "{word} {number}\n")?;
    text.extend(line.as_bytes())
}

fn put_number(alloc: Global, text: &mut Text, word: &str, number: u64) -> Result<(), NoMemory>
    ensures { OnOk result (text.new ≡ text.old ++ summary_line word.now number) }
{
    put_line(alloc, text, word, u128::from(number))
}

/// Adds the line of a topic.
fn put_count(
    alloc: Global,
    text: &mut Text,
    word: &str,
    topic: Topic,
    entries: &[Entry],
) -> Result<(), NoMemory>
    ensures { OnOk result (text.new ≡ text.old ++ summary_line word.now (count_of topic entries.now)) }
{
    let count = count_of(topic, entries);
    put_number(alloc, text, word, count)
}

/// Adds the line of an amount.
fn put_amount(
    alloc: Global,
    text: &mut Text,
    word: &str,
    amount: Amount,
    entries: &[Entry],
) -> Result<(), NoMemory>
    ensures { OnOk result (text.new ≡ text.old ++ summary_line word.now (amount_of amount entries.now)) }
{
    let total = amount_of(amount, entries);
    put_line(alloc, text, word, total)
}

/// Adds the lines of the answers of accesses and the refusals.
#[tactic(auto, using(std::proofs::Common::append_assoc))]
fn put_answers(alloc: Global, text: &mut Text, entries: &[Entry]) -> Result<(), NoMemory>
    ensures { OnOk result (text.new ≡ text.old ++ answer_lines entries.now) }
{
    put_count(alloc, text, "loaded", Topic::Loaded, entries)?;
    put_count(alloc, text, "stored", Topic::Stored, entries)?;
    put_count(alloc, text, "failed", Topic::Failed, entries)?;
    put_count(alloc, text, "refused", Topic::Refused, entries)
}

/// Adds the lines of migrations, evictions and look-ups that were given up.
#[tactic(auto, using(std::proofs::Common::append_assoc))]
fn put_moves(alloc: Global, text: &mut Text, entries: &[Entry]) -> Result<(), NoMemory>
    ensures { OnOk result (text.new ≡ text.old ++ move_lines entries.now) }
{
    put_amount(alloc, text, "migrated", Amount::Migrated, entries)?;
    put_amount(alloc, text, "evicted", Amount::Evicted, entries)?;
    put_count(alloc, text, "retry", Topic::Retry, entries)
}

/// The summary with the ends of operations that the entries tell.
#[tactic(auto, using(std::proofs::Common::append_assoc))]
pub(crate) fn counted_summary(
    alloc: Global,
    number: u64,
    script: &Script,
    history: &History,
) -> Result<Text, NoMemory>
    ensures { IfOk result
        (λ t. t ≡ summary_by number script.now history.now.entries (counted script.now history.now.entries)) }
{
    let mut text = Text::new(alloc);
    put_number(alloc, &mut text, "trial", number)?;
    put_number(alloc, &mut text, "entries", history.len())?;
    put_answers(alloc, &mut text, history.as_slice())?;
    put_moves(alloc, &mut text, history.as_slice())?;
    let count = unfinished(script, history);
    put_number(alloc, &mut text, "unfinished", count)?;
    Ok(text)
}

/// Ten lines of a word and a number: the number of the trial, how many entries there are and of which kinds,
/// how many pages were migrated and frames emptied, and how many actors have an operation that has not ended.
pub fn summary(
    alloc: Global,
    number: u64,
    script: &Script,
    history: &History,
) -> Result<Text, NoMemory>
    requires { Legal script.now history.now.entries }
    ensures { IfOk result (λ t. t ≡ summary number script.now history.now.entries) }
{
    ends_are_counted();
    counted_summary(alloc, number, script, history)
}
