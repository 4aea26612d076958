// The lines of holds.
ghost use Rattle.std.specs.Fmt.{decimal};
ghost use Rattle.std.specs.Prelude.{◌≡◌, ◌∷◌, ◌++◌, [], codes, OnOk};
ghost use Rattle.hm_held_search.specs.Text.{after_text, found_text, hold_line, hold_lines, nth_text, word_text};
ghost use Rattle.hm_held_search.specs.Text.{WordsAreOfEntries};

use crate::finding::FoundHolds;
use hm_base::{NoMemory, Text};
use hm_holds::{Hold, Nth, Word};
use hm_race_top::text::{add_decimal, add_states};
use hm_search::End;
use std::alloc::Global;

/// The word, as an entry of a report begins with it after its position and its actor.
pub fn word_name(word: Word) -> &'static str
    ensures { result.now ≡ word_text word }
{
    match word {
        Word::Loaded => "loaded",
        Word::Stored => "stored",
        Word::Failed => "failed",
        Word::Mapped => "mapped",
        Word::Unmapped => "unmapped",
        Word::Protected => "protected",
        Word::Forked => "forked",
        Word::Exited => "exited",
        Word::Attached => "attached",
        Word::Detaching => "detaching",
        Word::Detached => "detached",
        Word::Refused => "refused",
        Word::Migrated => "migrated",
        Word::Seen => "seen",
        Word::Evicted => "evicted",
        Word::Removed => "removed",
        Word::Rlock => "rlock",
        Word::Runlock => "runlock",
        Word::Wlock => "wlock",
        Word::Named => "named",
        Word::Take => "take",
        Word::Drop => "drop",
        Word::Place => "place",
        Word::Start => "start",
        Word::Told => "told",
        Word::End => "end",
        Word::Begin => "begin",
        Word::Retry => "retry",
        Word::Set => "set",
        Word::Fresh => "fresh",
        Word::Copied => "copied",
        Word::Committed => "committed",
        Word::Kept => "kept",
        Word::Done => "done",
        Word::Withdrawn => "withdrawn",
        Word::Excluded => "excluded",
        Word::Fetched => "fetched",
        Word::Added => "added",
    }
}

/// An entry of a report begins with its word.
pub fn words_are_of_entries()
    ensures { WordsAreOfEntries }
{}

// Adds the word of an entry and its number, each after a space.
#[tactic(auto, using(std::proofs::Common::append_assoc))]
fn add_nth(alloc: Global, text: &mut Text, nth: Nth) -> Result<(), NoMemory>
    ensures { OnOk result (text.new ≡ text.old ++ nth_text nth) }
{
    text.push(b' ')?;
    text.extend(word_name(nth.word).as_bytes())?;
    add_decimal(alloc, text, b" ", nth.number)
}

// Adds the entry after which an actor waits.
#[tactic(auto, using(std::proofs::Common::append_assoc))]
fn add_after(alloc: Global, text: &mut Text, after: Option<Nth>) -> Result<(), NoMemory>
    ensures { OnOk result (text.new ≡ text.old ++ after_text after) }
{
    match after {
        None => text.extend(b" first"),
        Some(own) => {
            text.extend(b" after")?;
            add_nth(alloc, text, own)
        }
    }
}

// Adds the line of a hold.
#[tactic(auto, using(std::proofs::Common::append_assoc))]
fn add_hold(alloc: Global, text: &mut Text, hold: Hold) -> Result<(), NoMemory>
    ensures { OnOk result (text.new ≡ text.old ++ hold_line hold) }
{
    add_decimal(alloc, text, b"hold a", u64::from(hold.actor.number()))?;
    add_after(alloc, text, hold.after)?;
    add_decimal(alloc, text, b" until a", u64::from(hold.other.number()))?;
    add_nth(alloc, text, hold.until)?;
    text.push(b'\n')
}

// Adds a line for each hold.
fn add_holds(alloc: Global, text: &mut Text, holds: &[Hold]) -> Result<(), NoMemory>
    ensures { OnOk result (text.new ≡ text.old ++ hold_lines holds.now) }
{
    for hold in holds {
        add_hold(alloc, text, *hold)?;
    }
    Ok(())
}

/// Adds what a search for holds came to: a line for each of them, and to how many states the orders come that keep
/// them.
#[tactic(auto, using(std::proofs::Common::append_assoc))]
pub fn add_found(alloc: Global, text: &mut Text, found: &FoundHolds) -> Result<(), NoMemory>
    ensures { OnOk result (text.new ≡ text.old ++ found_text found.now) }
{
    match found {
        FoundHolds::Needed { holds, states } => {
            add_holds(alloc, text, holds)?;
            add_states(alloc, text, *states, End::Whole)
        }
        FoundHolds::NotSure(_) => text.extend(b"holds none\n"),
        FoundHolds::Cut => text.extend(b"holds cut\n"),
    }
}
