// A trace, read a line at a time: how far reading has come, and the first line that is refused.
ghost use Rattle.std.specs.Prelude.{◌≡◌, IfOk, codes};
ghost use Rattle.hm_trace.specs.Progress as spec;

use crate::line::{TraceLine, read_line};
use hm_base::NoMemory;
use hm_protocol::Recorded;
use hm_report::Buffer;
use hm_script::Reason;
use std::alloc::Global;
use std::fmt;
use std::marker::Model;

/// Why a line is refused.
#[derive(Clone, Copy, Debug, PartialEq, Eq)]
pub enum Fault {
    /// It tells nothing.
    Line(Reason),
    /// Its event has not the number after the last one.
    NotNext,
    /// It says what was recorded, and is not the first that says something.
    LateNames,
    /// A number is too high to count on from.
    TooMany,
}

impl Fault {
    /// The words that are shown.
    pub fn text(self) -> &'static str
        ensures { result.now ≡ spec.fault_text self }
    {
        match self {
            Fault::Line(why) => why.text(),
            Fault::NotNext => "not the next number",
            Fault::LateNames => "names not first",
            Fault::TooMany => "too many",
        }
    }
}

/// The first bad line, from 1, and what is wrong with it.
#[derive(Clone, Copy, Debug)]
pub struct Refused {
    pub line: u64,
    pub why: Fault,
}

impl fmt::Display for Refused {
    ghost use Rattle.std.specs.Prelude.{Some};
    ghost use Rattle.hm_trace.specs.Progress.{refused_text};

    ghost output = { λ r. Some (refused_text r) };

    fn fmt<W: fmt::Write>(&self, f: &mut fmt::Formatter<W>) -> fmt::Result {
        let line = self.line;
        let why = self.why.text();
        write!(f, "trace line {line}: {why}")
    }
}

/// The number of the first event, and that of the next.
#[derive(Clone, Copy)]
pub struct Numbers {
    pub first: u64,
    pub next: u64,
}

/// How far the reading of a trace has come.
#[derive(Clone, Copy)]
pub struct Progress {
    /// How many lines were read, up to 2^64 - 1.
    pub lines: u64,
    /// The numbers of events, if there was one.
    pub numbers: Option<Numbers>,
    /// What was recorded, if a line has said it.
    pub recorded: Option<Recorded>,
    /// How many events with a number are missing.
    pub lost: u64,
    /// How many calls had no number.
    pub missed: u64,
}

impl Progress {
    const START: Progress = Progress {
        lines: 0,
        numbers: None,
        recorded: None,
        lost: 0,
        missed: 0,
    };

    /// The number of the next line, from 1.
    fn line_number(&self) -> u64
        ensures { result ≡ spec.line_number self.now }
    {
        self.lines.saturating_add(1)
    }

    /// After an event with this number.
    fn after_event(&self, number: u64) -> Result<Progress, Fault>
        ensures { result ≡ spec.event_next self.now number }
    {
        let Some(next) = number.checked_add(1) else {
            return Err(Fault::TooMany);
        };
        let first = match self.numbers {
            None => number,
            Some(numbers) if numbers.next == number => numbers.first,
            Some(_) => return Err(Fault::NotNext),
        };
        Ok(Progress {
            lines: self.line_number(),
            numbers: Some(Numbers { first, next }),
            ..*self
        })
    }

    /// The numbers after some that are missing.
    fn numbers_after(&self, count: u64) -> Result<Option<Numbers>, Fault>
        ensures { result ≡ spec.skipped self.now.numbers count }
    {
        let Some(numbers) = self.numbers else {
            return Ok(None);
        };
        match numbers.next.checked_add(count) {
            Some(next) => Ok(Some(Numbers {
                first: numbers.first,
                next,
            })),
            None => Err(Fault::TooMany),
        }
    }

    /// After a line that says what is missing.
    fn after_lost(&self, count: u64, missed: u64) -> Result<Progress, Fault>
        ensures { result ≡ spec.lost_next self.now count missed }
    {
        let Some(lost) = self.lost.checked_add(count) else {
            return Err(Fault::TooMany);
        };
        let Some(missed) = self.missed.checked_add(missed) else {
            return Err(Fault::TooMany);
        };
        Ok(Progress {
            lines: self.line_number(),
            numbers: self.numbers_after(count)?,
            lost,
            missed,
            ..*self
        })
    }

    /// Whether nothing was read but blank lines.
    fn is_new(&self) -> bool
        ensures { result ≡ spec.is_new self.now }
    {
        self.recorded.is_none() && self.numbers.is_none() && self.lost == 0 && self.missed == 0
    }

    /// After a line that says what was recorded.
    fn after_names(&self, recorded: Recorded) -> Result<Progress, Fault>
        ensures { result ≡ spec.names_next self.now recorded }
    {
        if !self.is_new() {
            return Err(Fault::LateNames);
        }
        Ok(Progress {
            lines: self.line_number(),
            recorded: Some(recorded),
            ..*self
        })
    }

    /// After a line that tells this.
    fn after(&self, line: &TraceLine) -> Result<Progress, Fault>
        ensures { result ≡ spec.progress_next self.now line.now }
    {
        match line {
            TraceLine::Blank => Ok(Progress {
                lines: self.line_number(),
                ..*self
            }),
            TraceLine::Names(recorded) => self.after_names(*recorded),
            TraceLine::Event { number, .. } => self.after_event(*number),
            TraceLine::Lost { count, missed } => self.after_lost(*count, *missed),
        }
    }

    /// Whether the trace begins with number 0, and nothing is missing.
    pub fn is_whole(&self) -> bool
        ensures { result ≡ spec.is_whole self.now }
    {
        self.lost == 0
            && self.missed == 0
            && match self.numbers {
                None => true,
                Some(numbers) => numbers.first == 0,
            }
    }
}

/// Reads the lines of a trace, one after the other.
#[derive(Drop)]
pub struct TraceReader {
    front: Buffer,
    progress: Progress,
}

impl Model for TraceReader {
    ghost use Rattle.hm_trace.specs.declared.reader.Progress.{Progress};

    ghost Value = { Progress };

    ghost view = { λ s. s.progress };
}

impl TraceReader {
    /// A reader that has read nothing.
    pub fn new(alloc: Global) -> Result<TraceReader, NoMemory>
        ensures { IfOk result (λ reader. reader ≡ spec.start) }
    {
        Ok(TraceReader {
            front: Buffer::new(alloc)?,
            progress: Progress::START,
        })
    }

    /// How far it has come.
    pub fn progress(&self) -> Progress
        ensures { result ≡ self.now }
    {
        self.progress
    }

    /// What the next line tells, with its line feed. A line that is refused changes nothing.
    pub fn line(&mut self, line: &[u8]) -> Result<TraceLine, Refused>
        ensures { spec.Reads self.old line.now self.new result }
    {
        let told = match read_line(&mut self.front, line) {
            Ok(told) => told,
            Err(why) => return Err(self.refused(Fault::Line(why))),
        };
        match self.progress.after(&told) {
            Ok(progress) => self.progress = progress,
            Err(why) => return Err(self.refused(why)),
        }
        Ok(told)
    }

    /// The next line, refused.
    fn refused(&self, why: Fault) -> Refused
        ensures { result ≡ spec.refused self.now why }
    {
        Refused {
            line: self.progress.line_number(),
            why,
        }
    }
}
