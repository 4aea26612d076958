// Why a script could not be read.

ghost use Rattle.std.specs.Prelude.{◌≡◌};
ghost use Rattle.hm_script.specs.Reasons.{reason_number, reason_text};

use hm_base::NoMemory;
use std::error::Error;
use std::fmt;

/// What is wrong with a line: the first that holds, in this order.
#[derive(Clone, Copy, Debug, PartialEq, Eq)]
pub enum Reason {
    /// The line has no line feed, or a byte outside printable ASCII.
    LineEnd,
    /// Line 1 is missing, or is not `hmm 1`.
    Header,
    /// The first word is not allowed here, or the line that must come is missing.
    Word,
    /// The number of words or a space is wrong.
    Shape,
    /// A number, an address, hexadecimal digits or a right is not spelled as it has to be.
    Number,
    /// A number, a sum or a count of bytes is outside its range, or a device or an actor out of order.
    Range,
    /// The device of an operation or the actor of a schedule line is not declared.
    Undeclared,
    /// There are too many operations or schedule lines.
    Limit,
}

impl Reason {
    /// The number that is shown.
    pub fn number(self) -> u32
        ensures { result ≡ reason_number self }
    {
        match self {
            Reason::Header => 1,
            Reason::LineEnd => 2,
            Reason::Word => 3,
            Reason::Shape => 4,
            Reason::Number => 5,
            Reason::Range => 6,
            Reason::Limit => 7,
            Reason::Undeclared => 8,
        }
    }

    /// The words that are shown.
    pub fn text(self) -> &'static str
        ensures { result.now ≡ reason_text self }
    {
        match self {
            Reason::LineEnd => "bad line end or byte",
            Reason::Header => "bad header",
            Reason::Word => "bad word",
            Reason::Shape => "bad shape",
            Reason::Number => "bad number",
            Reason::Range => "out of range",
            Reason::Undeclared => "not declared",
            Reason::Limit => "too many",
        }
    }
}

/// The first bad line, from 1, and its reason.
#[derive(Clone, Copy, Debug)]
pub struct Refused {
    pub line: u64,
    pub why: Reason,
}

impl fmt::Display for Refused {
    ghost use Rattle.std.specs.Prelude.{Some};
    ghost use Rattle.hm_script.specs.Reasons.{refused_text};

    ghost output = { λ r. Some (refused_text r) };

    fn fmt<W: fmt::Write>(&self, f: &mut fmt::Formatter<W>) -> fmt::Result {
        let line = self.line;
        let why = self.why.text();
        write!(f, "script line {line}: {why}")
    }
}

impl Error for Refused {}

/// Why bytes were not read as a script: a bad line, or memory ran out.
#[derive(Debug, Drop)]
pub enum ScriptError {
    Refused(Refused),
    NoMemory,
}

impl fmt::Display for ScriptError {
    ghost use Rattle.std.specs.Prelude.{Some};
    ghost use Rattle.hm_script.specs.Reasons.{error_text};

    ghost output = { λ e. Some (error_text e) };

    fn fmt<W: fmt::Write>(&self, f: &mut fmt::Formatter<W>) -> fmt::Result {
        match self {
            ScriptError::Refused(refused) => refused.fmt(f),
            ScriptError::NoMemory => write!(f, "out of memory"),
        }
    }
}

impl Error for ScriptError {}

/// Why a line could not be read.
#[derive(Debug, Drop, thiserror::Error)]
pub enum LineError {
    #[error("{}", .0.text())]
    Bad(Reason),
    #[error("out of memory")]
    NoMemory,
}

impl From<Reason> for LineError {
    ghost use Rattle.std.specs.Prelude.{◌≡◌};
    ghost use Rattle.hm_script.specs.declared.reason.LineError.TheVariants.{Bad};

    ghost from_gives = { λ r e. e ≡ Bad r };

    fn from(r: Reason) -> LineError {
        LineError::Bad(r)
    }
}

impl From<NoMemory> for LineError {
    ghost use Rattle.std.specs.Prelude.{◌≡◌};
    ghost use Rattle.hm_script.specs.declared.reason.LineError.TheVariants as errors;

    ghost from_gives = { λ _ e. e ≡ errors.NoMemory };

    fn from(_e: NoMemory) -> LineError {
        LineError::NoMemory
    }
}
