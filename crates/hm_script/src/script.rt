// Reading the text of a script.

ghost use Rattle.std.specs.Prelude.{◌≡◌, IfOk, Ok};
ghost use Rattle.hm_base.specs.Program.{Program, IsScript};
ghost use Rattle.hm_script.specs.Spelling.{text};
ghost use Rattle.hm_script.specs.Automaton.{finish, reading};
ghost use Rattle.hm_script.specs.Reader.{state_of, Reads, OnRefused, error_at};
ghost use Rattle.hm_script.specs.BadLine.{IsFirstBad, IsFirstBadOf};
ghost use Rattle.hm_script.specs.Built.{IsBuilt, every_word};

use crate::lines::cut_line;
use crate::part::Part;
use crate::reader::Reader;
use crate::reason::{LineError, Reason, Refused, ScriptError};
use crate::words::{ALL_WORDS, Words};
use hm_base::Script;
use std::alloc::Global;

fn refused(line: u64, why: Reason) -> ScriptError
    ensures { result ≡ ScriptError.Refused (record { line = line; why = why }) }
{
    ScriptError::Refused(Refused { line, why })
}

/// The error of this line.
fn at_line(line: u64, error: LineError) -> ScriptError
    ensures { result ≡ error_at line error }
{
    match error {
        LineError::Bad(why) => refused(line, why),
        LineError::NoMemory => ScriptError::NoMemory,
    }
}

/// The script that was read, if no line is missing.
fn finish(reader: Reader, line: u64) -> Result<Script, ScriptError>
    requires { IfOk (finish line (state_of reader)) IsScript }
    ensures { Reads result (finish line (state_of reader)) }
{
    match reader.part {
        Part::Start => Err(refused(line, Reason::Header)),
        Part::Headed => Err(refused(line, Reason::Word)),
        _ => Ok(reader.into_script()),
    }
}

/// Reads all lines.
fn read(alloc: Global, bytes: &[u8], words: &Words) -> Result<Script, ScriptError>
    ensures { Reads result (reading words.now bytes.now) }
{
    let mut reader = Reader::new(alloc);
    let mut rest = bytes;
    let mut number: u64 = 1;
    while !rest.is_empty() {
        let (line, after) = cut_line(rest);
        match reader.line(alloc, line, words) {
            Ok(()) => {}
            Err(error) => return Err(at_line(number, error)),
        }
        number += 1;
        rest = after;
    }
    finish(reader, number)
}

/// The script of these words whose text the bytes are.
pub fn parse_words(alloc: Global, bytes: &[u8], words: &Words) -> Result<Script, ScriptError>
    // What is read has the bytes as its text, and only words of the set.
    ensures found { IfOk result (λ s. (text s ≡ bytes.now) × IsBuilt words.now s) }
    // A script of the set whose text the bytes are is read, unless memory runs out.
    ensures only { (s : Program) → IsScript s → IsBuilt words.now s → text s ≡ bytes.now → Reads result (Ok s) }
    // What is refused is the first bad line.
    ensures first { OnRefused result (λ r. IsFirstBadOf words.now bytes.now r.line) }
    // Which reason it has.
    ensures exact { Reads result (reading words.now bytes.now) }
{
    read(alloc, bytes, words)
}

/// The script whose text the bytes are.
pub fn parse(alloc: Global, bytes: &[u8]) -> Result<Script, ScriptError>
    // What is read has the bytes as its text.
    ensures found { IfOk result (λ s. text s ≡ bytes.now) }
    // A script whose text the bytes are is read, unless memory runs out.
    ensures only { (s : Program) → IsScript s → text s ≡ bytes.now → Reads result (Ok s) }
    // What is refused is the first bad line.
    ensures first { OnRefused result (λ r. IsFirstBad bytes.now r.line) }
    // Which reason it has.
    ensures exact { Reads result (reading every_word bytes.now) }
{
    parse_words(alloc, bytes, &ALL_WORDS)
}
