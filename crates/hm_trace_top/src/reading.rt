// A trace, read line by line: its events, and their numbers.
ghost use Rattle.std.specs.Prelude.{◌≡◌, ◌≤◌, length, IfOk, IfErr, OnOk, Ok};
ghost use Rattle.hm_script.specs.Automaton.{lines};
ghost use Rattle.hm_trace_top.specs.Lists.{after_body, body, is_header, is_list};
ghost use Rattle.hm_trace_top.specs.Reading.{IsTrace, IsUnread, Stops, opening, read_line, read_more, read_on};
ghost use Rattle.hm_trace_top.specs.Reading.{with_event};

use hm_base::NoMemory;
use hm_protocol::{Event, Traced};
use hm_script::cut_line;
use hm_trace::{Progress, Refused, TraceLine, TraceReader};
use std::alloc::Global;
use std::marker::Model;

/// A trace that was read.
#[derive(Drop)]
pub struct Trace {
    /// How far reading has come after it.
    pub progress: Progress,
    pub events: Vec<Traced>,
    /// The number of each event.
    pub numbers: Vec<u64>,
}

/// Why bytes were not read as a trace.
#[derive(Clone, Copy)]
pub enum Unread {
    /// They are none: the first bad line.
    Refused(Refused),
    NoMemory,
}

/// The lines of a trace that were read so far.
#[derive(Drop)]
struct Reading {
    reader: TraceReader,
    events: Vec<Traced>,
    numbers: Vec<u64>,
}

impl Model for Reading {
    ghost use Rattle.hm_trace_top.specs.Reading.{Read};

    ghost Value = { Read };

    ghost view = { λ s. record { progress = s.reader; events = s.events.items; numbers = s.numbers.items } };
}

impl Reading {
    /// Before the first line.
    fn new(alloc: Global) -> Result<Reading, NoMemory>
        ensures { IfOk result (λ r. r ≡ opening) }
    {
        Ok(Reading {
            reader: TraceReader::new(alloc)?,
            events: Vec::new(alloc),
            numbers: Vec::new(alloc),
        })
    }

    /// Adds an event.
    fn add(&mut self, number: u64, thread: u64, event: Event) -> Result<(), NoMemory>
        ensures { OnOk result (self.new ≡ with_event self.old number (record { thread = thread; event = event })) }
    {
        self.events.push(Traced { thread, event })?;
        self.numbers.push(number)?;
        Ok(())
    }

    /// Keeps what a line tells.
    fn keep(&mut self, told: TraceLine) -> Result<(), NoMemory>
        ensures { OnOk result (self.new ≡ read_more self.old self.old.progress told) }
    {
        match told {
            TraceLine::Event { number, event } => self.add(number, event.thread, event.event),
            TraceLine::Blank | TraceLine::Names(_) | TraceLine::Lost { .. } => Ok(()),
        }
    }

    /// Reads a line more.
    fn line(&mut self, line: &[u8]) -> Result<(), Unread>
        ensures ok { OnOk result (read_line self.old line.now ≡ Ok self.new) }
        ensures err { IfErr result (Stops (read_line self.old line.now)) }
    {
        let told = match self.reader.line(line) {
            Ok(told) => told,
            Err(refused) => return Err(Unread::Refused(refused)),
        };
        match self.keep(told) {
            Ok(()) => Ok(()),
            Err(NoMemory) => Err(Unread::NoMemory),
        }
    }

    /// Reads the lines of a text.
    fn lines(&mut self, bytes: &[u8]) -> Result<(), Unread>
        ensures ok { OnOk result (read_on self.old (lines bytes.now) ≡ Ok self.new) }
        ensures err { IfErr result (Stops (read_on self.old (lines bytes.now))) }
    {
        let mut rest = bytes;
        while !rest.is_empty() {
            let (line, after) = cut_line(rest);
            if let Err(why) = self.line(line) {
                return Err(why);
            }
            rest = after;
        }
        Ok(())
    }

    /// Reads the lines of a text up to the first that names a trace, and gives what is left.
    fn body<'a>(&mut self, bytes: &'a [u8]) -> Result<&'a [u8], Unread>
        ensures read { OnOk result (read_on self.old (body (lines bytes.now)) ≡ Ok self.new) }
        ensures rest { IfOk result (λ rest. lines rest.now ≡ after_body (lines bytes.now)) }
        ensures shorter { IfOk result (λ rest. length rest.now ≤ length bytes.now) }
        ensures err { IfErr result (Stops (read_on self.old (body (lines bytes.now)))) }
    {
        let mut rest = bytes;
        while !rest.is_empty() {
            let (line, after) = cut_line(rest);
            if is_header(line) {
                return Ok(rest);
            }
            if let Err(why) = self.line(line) {
                return Err(why);
            }
            rest = after;
        }
        Ok(rest)
    }

    /// What was read.
    fn into_trace(self) -> Trace
        ensures progress { result.progress ≡ self.progress }
        ensures events { result.events.items ≡ self.events }
        ensures numbers { result.numbers.items ≡ self.numbers }
    {
        let Reading {
            reader,
            events,
            numbers,
        } = self;
        Trace {
            progress: reader.progress(),
            events,
            numbers,
        }
    }
}

/// Whether a line names the trace that begins after it.
#[tactic(auto, unfolding(crate::specs::Lists::is_header))]
pub(crate) fn is_header(line: &[u8]) -> bool
    ensures { result ≡ is_header line.now }
{
    line.starts_with(b"trace ".as_slice()) && line.ends_with(b"\n".as_slice())
}

/// Whether the first line of a text names a trace.
pub(crate) fn is_list(bytes: &[u8]) -> bool
    ensures { result ≡ is_list (lines bytes.now) }
{
    if bytes.is_empty() {
        return false;
    }
    let (line, _after) = cut_line(bytes);
    is_header(line)
}

/// Reads a trace up to the line that names the next one, and gives what is left.
pub(crate) fn read_part(alloc: Global, bytes: &[u8]) -> Result<(Trace, &[u8]), Unread>
    ensures trace { IfOk result (λ x. IsTrace (body (lines bytes.now)) x.0) }
    ensures rest { IfOk result (λ x. lines x.1.now ≡ after_body (lines bytes.now)) }
    ensures shorter { IfOk result (λ x. length x.1.now ≤ length bytes.now) }
    ensures none { IfErr result (IsUnread (body (lines bytes.now))) }
{
    let Ok(mut reading) = Reading::new(alloc) else {
        return Err(Unread::NoMemory);
    };
    match reading.body(bytes) {
        Ok(rest) => Ok((reading.into_trace(), rest)),
        Err(why) => Err(why),
    }
}

/// The trace that the bytes are, or their first bad line.
pub fn read_trace(alloc: Global, bytes: &[u8]) -> Result<Trace, Unread>
    ensures trace { IfOk result (IsTrace (lines bytes.now)) }
    ensures none { IfErr result (IsUnread (lines bytes.now)) }
{
    let Ok(mut reading) = Reading::new(alloc) else {
        return Err(Unread::NoMemory);
    };
    match reading.lines(bytes) {
        Ok(()) => Ok(reading.into_trace()),
        Err(why) => Err(why),
    }
}
