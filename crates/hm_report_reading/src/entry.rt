// The words of an entry's line.
ghost use Rattle.std.specs.Prelude.{◌≡◌, ◌++◌, [], ℕ, List, IfOk, MatchOption};
ghost use Rattle.hm_script.specs.Splitting.{split};
ghost use Rattle.hm_report_reading.specs.Kinds.{entry_at};

use crate::kind_word::KindWord;
use crate::kinds::EntryWords;
use crate::words::actor;
use hm_base::NoMemory;
use hm_history::Entry;
use hm_script::{LineWords, Reason};
use std::alloc::Global;

/// What stands before this end, if the text has it.
pub(crate) fn strip_end<'a>(text: &'a [u8], end: &[u8]) -> Option<&'a [u8]>
    ensures { MatchOption result ((front : List ℕ) → text.now ≡ front ++ end.now → ⊥)
        (λ front. text.now ≡ front.now ++ end.now) }
{
    text.strip_suffix(end)
}

/// Reads the words of a line.
pub(crate) fn read_words(alloc: Global, line: &[u8]) -> Result<Result<Entry, Reason>, NoMemory>
    ensures { IfOk result (λ r. r ≡ entry_at (split line.now)) }
{
    let words = EntryWords {
        words: LineWords::of(line),
    };
    let actor = match actor(words.words.get(1)) {
        Ok(actor) => actor,
        Err(reason) => return Ok(Err(reason)),
    };
    let Some(word) = KindWord::named(words.words.get(2)) else {
        return Ok(Err(Reason::Word));
    };
    match words.read(alloc, word)? {
        Ok(kind) => Ok(Ok(Entry { actor, kind })),
        Err(reason) => Ok(Err(reason)),
    }
}
