// The lines of a report after its script.
ghost use Rattle.std.specs.Prelude.{◌≡◌, IfOk};
ghost use Rattle.hm_report_reading.specs.Entries.{IsEnd, IsRead, IsUnfinished, unfinished_text};

use crate::entry::{read_words, strip_end};
use crate::words::actor;
use hm_base::{Actor, NoMemory};
use hm_history::Entry;
use hm_report::{Buffer, put_end, put_unfinished_line};
use hm_report_front::is_line_of;
use hm_script::{LineWords, number};
use std::alloc::Global;

/// An actor with an operation that has not ended.
#[derive(Clone, Copy, PartialEq, Eq)]
pub struct Unfinished {
    pub actor: Actor,
    /// The number of its first such operation, from 0.
    pub index: u64,
}

/// Writes that line over the buffer.
fn put_unfinished(out: &mut Buffer, actor: Actor, index: u64)
    ensures { out.new ≡ unfinished_text actor index }
{
    out.clear();
    // Any other count than the number has the line written.
    let count = if index == 0 { 1 } else { 0 };
    put_unfinished_line(out, u64::from(actor.number()), index, count);
}

/// Reads the lines of a report after its script, one at a time, and keeps the memory that this takes. A line comes
/// with its line feed.
#[derive(Drop)]
pub struct LineReader {
    front: Buffer,
}

impl LineReader {
    pub fn new(alloc: Global) -> Result<LineReader, NoMemory> {
        Ok(LineReader {
            front: Buffer::new(alloc)?,
        })
    }

    /// The entry whose line this is, if it is the line of one at this position, counted from 0.
    pub fn entry(&mut self, alloc: Global, line: &[u8], at: u64) -> Result<Option<Entry>, NoMemory>
        ensures { IfOk result (IsRead at line.now) }
    {
        let Some(text) = strip_end(line, b"\n") else {
            return Ok(None);
        };
        let Ok(entry) = read_words(alloc, text)? else {
            return Ok(None);
        };
        if is_line_of(&mut self.front, line, at, &entry) {
            Ok(Some(entry))
        } else {
            Ok(None)
        }
    }

    /// What the line tells, if it is of an actor with an operation that has not ended.
    pub fn unfinished(&mut self, line: &[u8]) -> Option<Unfinished>
        ensures { IsUnfinished line.now result }
    {
        let Some(text) = strip_end(line, b"\n") else {
            return None;
        };
        let words = LineWords::of(text);
        let Ok(actor) = actor(words.get(1)) else {
            return None;
        };
        let Ok(index) = number(words.get(2)) else {
            return None;
        };
        put_unfinished(&mut self.front, actor, index);
        if line == self.front.as_slice() {
            Some(Unfinished { actor, index })
        } else {
            None
        }
    }

    /// How many entries the line tells, if it is a last line.
    pub fn end(&mut self, line: &[u8]) -> Option<u64>
        ensures { IsEnd line.now result }
    {
        let Some(text) = strip_end(line, b"\n") else {
            return None;
        };
        let Ok(count) = number(LineWords::of(text).get(1)) else {
            return None;
        };
        self.front.clear();
        put_end(&mut self.front, count);
        if line == self.front.as_slice() {
            Some(count)
        } else {
            None
        }
    }
}
