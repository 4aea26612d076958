// Searches the race of every script of the folder `races`, asks for the conditions there, and draws every report; of
// the scripts of the folder `broken` it asks which rules a driver may leave out, and of both folders and of `drivers`
// for shortest races of drivers that do. Compares what is written with the files beside the scripts, and the pages with
// the lines there, between the files of the folder page.
use crate::files::{stems, text};
use crate::streams::{empty_sink, source_beside, words_in};
use hm_edge::{RaceEnd, Status};
use hm_flaw_top::without;
use hm_io::{MemorySink, MemorySource};
use hm_race_top::races;
use hm_view::view;
use std::alloc::Global;
use std::io;

/// The folder of the files that a page is made of.
const PAGE: &str = "races/page/";

/// Where the lines of a page begin.
const MARK: &str = "<pre id=\"data\">";

/// What is made of an example.
#[derive(Clone, Copy)]
enum Made {
    /// The outcomes of a script's race.
    Outcomes,
    /// What is said of conditions on its outcomes.
    Rulings,
    /// The page of a report.
    Page,
    /// A line for each rule that a driver may leave out.
    Rules,
    /// The same, if answers alone are judged.
    Answers,
    /// The shortest race of a driver that leaves a rule out, in a script of the folder `races`.
    Shortest,
    /// The same, in a script of the folder `broken`.
    Punished,
    /// The same, in a script of the folder `drivers`: what a driver of Linux may lose.
    Suspected,
}

impl Made {
    /// How the names of such examples end, and those of the files that have what is to be written.
    fn endings(self) -> (&'static str, &'static str) {
        match self {
            Made::Outcomes => (".hmm", ".outcomes"),
            Made::Rulings => (".conditions", ".rulings"),
            Made::Page => (".report", ".lines"),
            Made::Rules => (".rules", ".rules"),
            Made::Answers => (".answers", ".answers"),
            Made::Shortest | Made::Punished | Made::Suspected => (".without", ".shortest"),
        }
    }

    /// The folder of such examples.
    fn folder(self) -> &'static str {
        match self {
            Made::Rules | Made::Answers | Made::Punished => "broken",
            Made::Suspected => "drivers",
            _ => "races",
        }
    }

    /// How the name of the file ends that is read.
    fn read(self) -> &'static str {
        match self {
            Made::Page => ".report",
            _ => ".hmm",
        }
    }

    fn write(
        self,
        alloc: Global,
        words: &[String],
        source: &mut MemorySource,
        sink: &mut MemorySink,
    ) -> Status {
        match self {
            Made::Outcomes | Made::Rulings => races(alloc, words, source, sink),
            Made::Page => view(alloc, words, source, sink),
            _ => without(alloc, words, source, sink),
        }
    }

    /// Whether this text says that a condition fails, or that a driver does wrong.
    fn fails(self, text: &str) -> bool {
        match self {
            Made::Outcomes | Made::Page => false,
            Made::Rulings => text.starts_with("fails "),
            Made::Rules | Made::Answers => text.split_once(" after ").is_some(),
            Made::Shortest | Made::Punished | Made::Suspected => !text.starts_with("none\n"),
        }
    }

    /// Whether a call that wrote this text ends so.
    fn ends(self, text: &str, status: &Status) -> bool {
        match status {
            Status::Done => !self.fails(text),
            Status::Race(RaceEnd::Fails | RaceEnd::Broken) => self.fails(text),
            _ => false,
        }
    }
}

/// The file that a line of page.html names, if it names one, and the tag that its text stands in.
fn named(line: &str) -> Option<(&str, &str)> {
    if let Some(rest) = line.strip_prefix("<link rel=\"stylesheet\" href=\"") {
        return Some((rest.strip_suffix("\">")?, "style"));
    }
    let rest = line.strip_prefix("<script src=\"")?;
    Some((rest.strip_suffix("\"></script>")?, "script"))
}

/// A line of page.html, with the text of the file that it names.
fn line_text(rt: &HostRuntime, line: &str) -> io::Result<String> {
    match named(line) {
        None => Ok(format!(in rt.alloc(); "{line}\n")?),
        Some((name, tag)) => {
            let held = text(rt, PAGE, name)?;
            Ok(format!(in rt.alloc(); "<{tag}>\n{held}</{tag}>\n")?)
        }
    }
}

/// The page of the files, without lines.
fn page_of_files(rt: &HostRuntime) -> io::Result<String> {
    let mut page = String::new(rt.alloc());
    for line in text(rt, PAGE, "page.html")?.lines() {
        page.push_str(line_text(rt, line)?.as_str())?;
    }
    Ok(page)
}

/// The page that has these lines.
fn page_with(rt: &HostRuntime, lines: &str) -> io::Result<String> {
    let page = page_of_files(rt)?;
    match page.as_str().split_once(MARK) {
        None => Ok(page),
        Some((head, tail)) => Ok(format!(in rt.alloc(); "{head}{MARK}{lines}{tail}")?),
    }
}

/// The words that ask for the conditions in the file.
fn expected(rt: &HostRuntime, stem: &str) -> io::Result<Vec<String>> {
    let conditions = text(rt, stem, ".conditions")?;
    let lines = format!(in rt.alloc(); "--expect\n{conditions}")?;
    words_in(rt.alloc(), lines.as_str())
}

/// The words that ask for such an example.
fn words_of(rt: &HostRuntime, stem: &str, made: Made) -> io::Result<Vec<String>> {
    match made {
        Made::Outcomes | Made::Page => Ok(Vec::new(rt.alloc())),
        Made::Rulings => expected(rt, stem),
        Made::Rules => words_in(rt.alloc(), "--all"),
        Made::Answers => words_in(rt.alloc(), "--all\n--answers"),
        Made::Shortest | Made::Punished | Made::Suspected => {
            words_in(rt.alloc(), text(rt, stem, ".without")?.as_str())
        }
    }
}

/// What is to be made of the example.
fn wanted(rt: &HostRuntime, stem: &str, made: Made) -> io::Result<String> {
    let (_, ending) = made.endings();
    let beside = text(rt, stem, ending)?;
    match made {
        Made::Page => page_with(rt, beside.as_str()),
        _ => Ok(beside),
    }
}

/// Whether this text is made of the example, with these words.
fn gives(
    rt: &HostRuntime,
    stem: &str,
    made: Made,
    words: &[String],
    wanted: &str,
) -> io::Result<bool> {
    let mut source = source_beside(rt, stem, made.read())?;
    let mut sink = empty_sink(rt.alloc())?;
    let status = made.write(rt.alloc(), words, &mut source, &mut sink);
    Ok(made.ends(wanted, &status) && sink.held() == wanted.as_bytes())
}

/// Whether what is made of the example is what the file beside it has.
fn agrees(rt: &HostRuntime, stem: &str, made: Made) -> io::Result<bool> {
    let wanted = wanted(rt, stem, made)?;
    let words = words_of(rt, stem, made)?;
    gives(rt, stem, made, words.as_slice(), wanted.as_str())
}

/// How many examples agree; each that does not is named.
fn compare(rt: &HostRuntime, made: Made) -> io::Result<u64> {
    let (ending, beside) = made.endings();
    let mut agreeing = 0u64;
    for stem in stems(rt, made.folder(), ending)?.iter() {
        if agrees(rt, stem.as_str(), made)? {
            agreeing = agreeing.saturating_add(1);
        } else {
            println!(rt; "{stem}: what is written is not {beside}")?;
        }
    }
    Ok(agreeing)
}

/// Says how many agree of what is made of races.
fn compare_races(rt: &HostRuntime) -> io::Result<()> {
    let races = compare(rt, Made::Outcomes)?;
    let rulings = compare(rt, Made::Rulings)?;
    let pages = compare(rt, Made::Page)?;
    println!(rt; "{races} races have the outcomes beside them")?;
    println!(rt; "of {rulings} races it is said what is beside them of their conditions")?;
    println!(rt; "{pages} report has its page")
}

/// Says how many agree of what is said of drivers that leave a rule out.
fn compare_rules(rt: &HostRuntime) -> io::Result<()> {
    let rules = compare(rt, Made::Rules)?;
    let answers = compare(rt, Made::Answers)?;
    let shortest = compare(rt, Made::Shortest)?;
    let punished = compare(rt, Made::Punished)?;
    let suspected = compare(rt, Made::Suspected)?;
    println!(rt;
        "of {rules} scripts it is said which rules a driver may leave out, of {answers} by answers"
    )?;
    println!(rt;
        "{shortest} shortest races of the gallery and {punished} others are those beside their scripts"
    )?;
    println!(rt; "so are {suspected} for drivers of Linux")
}

/// Says how many agree, of each kind.
pub fn compare_all(rt: &HostRuntime) -> io::Result<()> {
    compare_races(rt)?;
    compare_rules(rt)
}
