// What is said of bytes that are a trace, or several.
ghost use Rattle.std.specs.Prelude.{◌≡◌, ◌++◌, ◌∷◌, [], ◌<◌, true, length, IfErr, IfOk, OnOk, Ok};
ghost use Rattle.hm_script.specs.Automaton.{lines};
ghost use Rattle.hm_trace_top.specs.Heard.{IsUnheard, IsUnsaid, hear, hear_all, hear_one, nothing_heard, one_read};
ghost use Rattle.hm_trace_top.specs.Heard.{IsShortage, IsUnread, said_of};
ghost use Rattle.hm_trace_top.specs.Lists.{is_list, is_rest, traces_in};
ghost use Rattle.hm_trace_top.specs.Reading.{read_by};
ghost use Rattle.hm_trace_top.specs.Texts.{recorded_in, verdicts};
ghost use Rattle.hm_trace_top.specs.Together.{all_text};

use crate::ended::Ended;
use crate::reading::{Trace, Unread, is_list, read_part, read_trace};
use crate::text::lines_text;
use crate::together::{Said, add_all};
use hm_base::{NoMemory, Text};
use hm_protocol::{Recorded, Verdict};
use hm_script::cut_line;
use hm_verdicts::{Failed, verdicts_of};
use std::alloc::Global;
use std::marker::Model;

/// What is recorded of a driver if no line says it.
const NOTHING: Recorded = Recorded {
    set: false,
    erase: false,
    uses: false,
    take: false,
    free: false,
    model: false,
};

/// What is recorded of a driver, by what a line says.
fn recorded_in(said: Option<Recorded>) -> Recorded
    ensures { result ≡ recorded_in said }
{
    match said {
        Some(recorded) => recorded,
        None => NOTHING,
    }
}

/// The verdicts on a trace.
#[tactic(auto, unfolding(crate::specs::Texts::verdicts))]
fn verdicts(alloc: Global, trace: &Trace) -> Result<Vec<Verdict>, Failed>
    ensures { IfOk result (λ vs. vs.items ≡ verdicts trace.now.progress.recorded trace.now.events.items) }
{
    let recorded = recorded_in(trace.progress.recorded);
    verdicts_of(alloc, recorded, trace.events.as_slice())
}

/// What is said of some traces: the text, and the verdicts on each.
#[derive(Drop)]
pub(crate) struct Judged {
    pub(crate) text: Text,
    pub(crate) said: Vec<Said>,
}

impl Model for Judged {
    ghost use Rattle.hm_trace_top.specs.Heard.{Heard};

    ghost Value = { Heard };

    ghost view = { λ s. record { text = s.text; said = s.said.items } };
}

/// How a call ends that failed so.
fn shortage(failed: Failed) -> Ended
    ensures { IsShortage result }
{
    match failed {
        Failed::NoMemory => Ended::NoMemory,
        Failed::TooLong => Ended::TooLong,
    }
}

impl Judged {
    /// Of no trace.
    fn new(alloc: Global) -> Judged
        ensures { result ≡ nothing_heard }
    {
        Judged {
            text: Text::new(alloc),
            said: Vec::new(alloc),
        }
    }

    /// Adds the text of a trace, after the line that names it, and the verdicts on it.
    fn keep(&mut self, header: &[u8], text: &Text, verdicts: Vec<Verdict>) -> Result<(), NoMemory>
        ensures text { OnOk result (self.new.text ≡ self.old.text ++ (header.now ++ text.now)) }
        ensures said { OnOk result (self.new.said ≡ self.old.said ++ verdicts.items ∷ []) }
    {
        self.text.extend(header)?;
        self.text.extend(text.as_slice())?;
        self.said.push(Said { verdicts })?;
        Ok(())
    }

    /// Judges a trace more, which this line names.
    fn add(&mut self, alloc: Global, header: &[u8], trace: &Trace) -> Result<(), Failed>
        ensures { OnOk result (self.new ≡ hear self.old header.now (read_by trace.now)) }
    {
        let verdicts = verdicts(alloc, trace)?;
        let text = lines_text(alloc, trace, verdicts.as_slice())?;
        self.keep(header, &text, verdicts)?;
        Ok(())
    }

    /// Judges the first trace of those that are left of a list, and gives what is left then.
    fn add_part<'a>(&mut self, alloc: Global, bytes: &'a [u8]) -> Result<&'a [u8], Ended>
        requires some { 0 < length bytes.now }
        requires named { is_rest (lines bytes.now) ≡ true }
        ensures heard { IfOk result (λ rest. hear_all self.new (traces_in (lines rest.now))
            ≡ hear_all self.old (traces_in (lines bytes.now))) }
        ensures named { IfOk result (λ rest. is_rest (lines rest.now) ≡ true) }
        ensures shorter { IfOk result (λ rest. length rest.now < length bytes.now) }
        ensures none { IfErr result (IsUnheard (hear_all self.old (traces_in (lines bytes.now)))) }
    {
        let (header, after) = cut_line(bytes);
        let (trace, rest) = match read_part(alloc, after) {
            Ok(part) => part,
            Err(Unread::Refused(refused)) => {
                return Err(Ended::RefusedIn(self.said.len() as u64 + 1, refused));
            }
            Err(Unread::NoMemory) => return Err(Ended::NoMemory),
        };
        match self.add(alloc, header, &trace) {
            Ok(()) => Ok(rest),
            Err(failed) => Err(shortage(failed)),
        }
    }
}

/// Judges the traces of a list.
fn judge_list(alloc: Global, bytes: &[u8]) -> Result<Judged, Ended>
    requires { is_rest (lines bytes.now) ≡ true }
    ensures heard { IfOk result (λ h. hear_all nothing_heard (traces_in (lines bytes.now)) ≡ Ok h) }
    ensures none { IfErr result (IsUnheard (hear_all nothing_heard (traces_in (lines bytes.now)))) }
{
    let mut judged = Judged::new(alloc);
    let mut rest = bytes;
    while !rest.is_empty() {
        match judged.add_part(alloc, rest) {
            Ok(left) => rest = left,
            Err(ended) => return Err(ended),
        }
    }
    Ok(judged)
}

/// Judges the traces of a list, and adds what all say together.
fn judge_all(alloc: Global, bytes: &[u8]) -> Result<Judged, Ended>
    requires { is_list (lines bytes.now) ≡ true }
    ensures said { IfOk result (λ h. said_of bytes.now ≡ Ok h) }
    ensures none { IfErr result (IsUnsaid bytes.now) }
{
    let mut judged = match judge_list(alloc, bytes) {
        Ok(judged) => judged,
        Err(ended) => return Err(ended),
    };
    match add_all(alloc, &mut judged.text, judged.said.as_slice()) {
        Ok(()) => Ok(judged),
        Err(failed) => Err(shortage(failed)),
    }
}

/// Judges one trace, which no line names.
fn judge_one(alloc: Global, bytes: &[u8]) -> Result<Judged, Ended>
    ensures said { IfOk result (λ h. hear_one (one_read (lines bytes.now)) ≡ Ok h) }
    ensures none { IfErr result (IsUnread (lines bytes.now)) }
{
    let trace = match read_trace(alloc, bytes) {
        Ok(trace) => trace,
        Err(Unread::Refused(refused)) => return Err(Ended::Refused(refused)),
        Err(Unread::NoMemory) => return Err(Ended::NoMemory),
    };
    let mut judged = Judged::new(alloc);
    match judged.add(alloc, &[], &trace) {
        Ok(()) => Ok(judged),
        Err(failed) => Err(shortage(failed)),
    }
}

/// What is said of bytes that are a trace, or several after lines that name them.
pub(crate) fn judge_bytes(alloc: Global, bytes: &[u8]) -> Result<Judged, Ended>
    ensures said { IfOk result (λ h. said_of bytes.now ≡ Ok h) }
    ensures none { IfErr result (IsUnsaid bytes.now) }
{
    if is_list(bytes) {
        judge_all(alloc, bytes)
    } else {
        judge_one(alloc, bytes)
    }
}
