// What a program says of a status.
ghost use Rattle.std.specs.Prelude.{◌≡◌, IfOk};
ghost use Rattle.hm_edge.specs.Messages.{fixed_text, message_text, no_condition_text, race_text};
ghost use Rattle.hm_script.specs.Reasons.{refused_text};

use crate::status::{RaceEnd, Status};
use arrayvec::ArrayString;
use hm_base::{NoMemory, Text};
use hm_script::Refused;
use std::alloc::Global;

/// The bytes of a message with numbers, of which it has two at the most. It takes no memory.
pub(crate) type Numbered = ArrayString<80>;

/// The first bad line of a script and its reason.
pub(crate) fn refusal(refused: &Refused) -> Numbered
    ensures { result.bytes ≡ refused_text refused.now }
{
    let mut text = Numbered::new();
    text.push_str("script line ");
    text.push_str(itoa::Buffer::new().format(refused.line));
    text.push_str(": ");
    text.push_str(refused.why.text());
    text
}

/// The condition and its first word that may not come.
pub(crate) fn no_condition(condition: u64, word: u64) -> Numbered
    ensures { result.bytes ≡ no_condition_text condition word }
{
    let mut text = Numbered::new();
    text.push_str("condition ");
    text.push_str(itoa::Buffer::new().format(condition));
    text.push_str(": bad word ");
    text.push_str(itoa::Buffer::new().format(word));
    text
}

/// The message of a search that did not do all that was asked for, if it has no number in it.
pub(crate) fn race_text(end: &RaceEnd) -> &'static str
    ensures { result.now ≡ race_text end.now }
{
    match end {
        RaceEnd::NoCondition(_, _) => "",
        RaceEnd::Fails => "a condition fails",
        RaceEnd::Unsettled => "a condition is not settled: the search was cut; allow more states",
        RaceEnd::NoOutcome => "no such outcome",
        RaceEnd::NotFound => "no such outcome was found, but the search was cut; allow more states",
        RaceEnd::Drained => {
            "nothing is left to race after drain: end the schedule where the race is to begin"
        }
        RaceEnd::Broken => "in some order of turns a driver does what it must not do",
        RaceEnd::Open => "nothing was found, but the search was cut; allow more states",
    }
}

/// The message of a status that has no number in it. A program has a line on its words, which is what `Usage` says.
pub(crate) fn fixed_text<'a>(status: &Status, usage: &'a str) -> &'a str
    ensures { result.now ≡ fixed_text usage.now status.now }
{
    match status {
        Status::Done | Status::Refused(_) => "",
        Status::NotLegal(_) => "not legal",
        Status::Usage => usage,
        Status::ReadFault => "read fault",
        Status::WriteFault => "write fault",
        Status::NoMemory => "out of memory",
        Status::HistoryFull => "history full",
        Status::ScriptTooLong => "script too long",
        Status::ReportTooLong => "report too long",
        Status::NoRows => "no such rows: FROM is after TO, or after the end of the report",
        Status::TooManyRows => "a page has at most 20000 rows; ask for fewer by FROM TO",
        Status::Race(end) => race_text(end),
    }
}

/// What is printed on standard error after the program's name, without a line end; nothing if all was done.
pub fn message(alloc: Global, usage: &str, status: &Status) -> Result<Text, NoMemory>
    ensures { IfOk result (λ t. t ≡ message_text usage.now status.now) }
{
    match status {
        Status::Refused(refused) => Text::from_slice(alloc, refusal(refused).as_str().as_bytes()),
        Status::Race(RaceEnd::NoCondition(condition, word)) => {
            Text::from_slice(alloc, no_condition(*condition, *word).as_str().as_bytes())
        }
        _ => Text::from_slice(alloc, fixed_text(status, usage).as_bytes()),
    }
}
