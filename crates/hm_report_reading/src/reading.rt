// A whole report, read.
ghost use Rattle.std.specs.Prelude.{◌≡◌, ◌+◌, ◌^◌, ◌≤◌, IfOk, List, length};
ghost use Rattle.hm_base.specs.Program.{Program};
ghost use Rattle.hm_history.specs.declared.Entry.{Entry};
ghost use Rattle.hm_report_reading.specs.declared.reader.Unfinished.{Unfinished};
ghost use Rattle.hm_report_reading.specs.Reports.{IsReadBehind, IsReadOf, IsThis};
ghost use Rattle.hm_report_reading.specs.Texts.{HasText, text_of};

use crate::entries::read_entries;
use crate::reader::{LineReader, Unfinished};
use crate::unfinished::read_unfinished;
use hm_base::{NoMemory, Script};
use hm_history::History;
use hm_report::{Buffer, put_end};
use hm_report_front::{BadLine, first_difference, read_head};
use std::alloc::Global;

/// What a report's text says.
#[derive(Drop)]
pub struct WholeReport {
    pub script: Script,
    /// The number, from 1, of the first line after `history`.
    pub first: u64,
    /// It may be of any entries, also if they are no legal history of the script.
    pub history: History,
    /// In the order of their lines.
    pub unfinished: Vec<Unfinished>,
}

/// Reads the lines after `history`, of which the first has this number.
fn read_behind(
    alloc: Global,
    script: Script,
    first: u64,
    bytes: &[u8],
) -> Result<Result<WholeReport, BadLine>, NoMemory>
    requires { first + length bytes.now ≤ 2 ^ 63 + 2 }
    ensures read { IfOk result (IsReadBehind script first bytes.now) }
    ensures first { IfOk result (λ r. IfOk r (λ whole. whole.first ≡ first)) }
{
    script.facts();
    hm_script::one_text();
    let mut reader = LineReader::new(alloc)?;
    let (history, rest) = read_entries(alloc, &mut reader, bytes)?;
    let (unfinished, rest) = read_unfinished(alloc, &mut reader, rest)?;
    let mut end = Buffer::new(alloc)?;
    put_end(&mut end, history.len());
    match first_difference(end.as_slice(), rest) {
        Some(same) => {
            let before = history.len() + unfinished.len() as u64;
            Ok(Err(BadLine(first + before + same)))
        }
        None => Ok(Ok(WholeReport {
            script,
            first,
            history,
            unfinished,
        })),
    }
}

/// Reads a whole report, each line once. Its history need not be legal, nor need the operations that have not ended be
/// those of the history; that the last line counts the entries is part of the text. A bad line is the first that no
/// such text has there, and one more than there are lines if a line is missing.
pub fn read_report(alloc: Global, bytes: &[u8]) -> Result<Result<WholeReport, BadLine>, NoMemory>
    // The bytes are the text of what is read; a line that is refused is the first bad one.
    ensures read { IfOk result (IsReadOf bytes.now) }
    // What has the bytes as its text is read, unless memory runs out.
    ensures only { (c : Program) (h : List Entry) (us : List Unfinished) → HasText c h us → bytes.now ≡ text_of c h us
        → IfOk result (IsThis c h us) }
    // The number of a line is not too high for one number more for each entry.
    ensures low { IfOk result (λ r. IfOk r (λ whole. whole.first ≤ 2 ^ 63 + 2)) }
{
    hm_script::one_text();
    match read_head(alloc, bytes)? {
        Ok(head) => read_behind(alloc, head.script, head.first, head.rest),
        Err(bad) => Ok(Err(bad)),
    }
}
