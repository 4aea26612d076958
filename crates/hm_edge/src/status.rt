// How a call ended.
ghost use Rattle.std.specs.Prelude.{◌≡◌};
ghost use Rattle.hm_edge.specs.Messages.{code_of, race_code};

use hm_script::Refused;

/// How a search of a race ended that did not do all that was asked for.
#[derive(Clone, Copy)]
pub enum RaceEnd {
    /// A condition is none: its number among those that are given, and that of its first word that may not come, both
    /// from 1.
    NoCondition(u64, u64),
    /// A condition fails.
    Fails,
    /// No condition fails, and one is not settled: the search was cut before.
    Unsettled,
    /// The race has no outcome with the number that is asked for.
    NoOutcome,
    /// No outcome with that number was found, and the search was cut before all were known.
    NotFound,
    /// The schedule of the script ends in `drain`, which leaves nothing to race.
    Drained,
    /// In some order of turns a driver does what it must not do.
    Broken,
    /// No such order of turns was found, and the search was cut before all were known.
    Open,
}

impl RaceEnd {
    /// The program's exit code.
    pub fn code(&self) -> u8
        ensures { result ≡ race_code self.now }
    {
        match self {
            RaceEnd::Fails | RaceEnd::Broken => 1,
            RaceEnd::NoCondition(_, _) => 2,
            RaceEnd::NoOutcome | RaceEnd::Drained => 9,
            RaceEnd::Unsettled | RaceEnd::NotFound | RaceEnd::Open => 10,
        }
    }
}

/// How a call of a program ended.
#[derive(Clone, Copy)]
pub enum Status {
    /// What the words ask for was done, and its text went out whole.
    Done,
    /// The bytes are no legal report: the first bad line.
    NotLegal(u64),
    /// The words ask for nothing that there is.
    Usage,
    /// No script has the bytes as its text: the first bad line and its reason.
    Refused(Refused),
    /// The source failed.
    ReadFault,
    /// The sink failed, and a front of the text went out.
    WriteFault,
    /// Memory ran out.
    NoMemory,
    /// A turn found an entry due and the history full. Of hmmrun's commands, the report went out whole.
    HistoryFull,
    /// The source has more bytes than a script.
    ScriptTooLong,
    /// The source has more bytes than a report.
    ReportTooLong,
    /// The rows that are asked for are not in the report.
    NoRows,
    /// More rows are asked for than a page has.
    TooManyRows,
    /// A search of a race did not do all that was asked for.
    Race(RaceEnd),
}

impl Status {
    /// The program's exit code.
    pub fn code(&self) -> u8
        ensures { result ≡ code_of self.now }
    {
        match self {
            Status::Done => 0,
            Status::NotLegal(_) => 1,
            Status::Usage => 2,
            Status::Refused(_) => 3,
            Status::ReadFault => 4,
            Status::WriteFault => 5,
            Status::NoMemory => 6,
            Status::HistoryFull => 7,
            Status::ScriptTooLong | Status::ReportTooLong => 8,
            Status::NoRows | Status::TooManyRows => 9,
            Status::Race(end) => end.code(),
        }
    }
}
