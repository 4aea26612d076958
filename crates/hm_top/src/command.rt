// What the words after the program's name ask for.
ghost use Rattle.std.specs.Prelude.{◌≡◌, map, string_bytes};
ghost use Rattle.hm_top.specs.Commands as spec;

use hm_base::Proc;
use hm_script::{address, number};

/// Bytes of a process that are asked for: 1 to 256 of them, that end at or below 2^48.
#[derive(Clone, Copy)]
pub struct PeekedBytes {
    pub proc: Proc,
    /// The address of the first.
    pub addr: u64,
    pub len: u32,
}

/// What the program does on the calling thread alone.
#[derive(Clone, Copy)]
pub enum Alone {
    /// Runs a script by its schedule, and writes the report.
    Replay,
    /// Writes the text of a generated script.
    Generate(u64),
    /// Runs a generated script, and writes the summary.
    Trial(u64),
    /// Writes the text of a script in version 2.
    Upgrade,
    /// Writes the verdict on a report.
    Check,
    /// Runs a script by its schedule, and writes which pages were accessed and where they should live.
    Advise,
    /// Reads a report, and writes for each load the entries that its bytes came from.
    Why,
}

/// How a run from threads begins.
#[derive(Clone, Copy, PartialEq, Eq)]
pub enum Begin {
    /// All actors race from the start, and the schedule is not used.
    AtOnce,
    /// The schedule's turns are made first, up to its `drain`. The race goes on from there.
    AfterSchedule,
}

/// What the program does, by its words.
#[derive(Clone, Copy)]
pub enum Command {
    /// What the calling thread does alone, which waits for nobody.
    Alone(Alone),
    /// Runs each actor of a script from a thread of its own, and writes the report.
    Threads(Begin),
    /// Does what `threads` does, with a watcher that looks at bytes of a process, and writes what it saw too.
    Peek(PeekedBytes),
}

fn plain_command(word: &str) -> Option<Command>
    ensures same { result ≡ spec.plain_command word.now }
    ensures looks { spec.Looks result }
{
    if word == "replay" {
        return Some(Command::Alone(Alone::Replay));
    }
    if word == "threads" {
        return Some(Command::Threads(Begin::AtOnce));
    }
    if word == "race" {
        return Some(Command::Threads(Begin::AfterSchedule));
    }
    if word == "upgrade" {
        return Some(Command::Alone(Alone::Upgrade));
    }
    if word == "check" {
        return Some(Command::Alone(Alone::Check));
    }
    if word == "advise" {
        return Some(Command::Alone(Alone::Advise));
    }
    if word == "why" {
        return Some(Command::Alone(Alone::Why));
    }
    None
}

fn numbered_command(word: &str, numeral: &str) -> Option<Command>
    ensures same { result ≡ spec.numbered_command word.now numeral.now }
    ensures looks { spec.Looks result }
{
    if word == "generate" {
        return match number(numeral.as_bytes()) {
            Ok(number) => Some(Command::Alone(Alone::Generate(number))),
            Err(_) => None,
        };
    }
    if word == "trial" {
        return match number(numeral.as_bytes()) {
            Ok(number) => Some(Command::Alone(Alone::Trial(number))),
            Err(_) => None,
        };
    }
    None
}

fn peek_at(proc: u64, addr: u64, len: u64) -> Option<Command>
    ensures same { result ≡ spec.peek_at proc addr len }
    ensures looks { spec.Looks result }
{
    if proc < 32 && len > 0 && len <= 256 && addr <= (1 << 48) - len {
        Some(Command::Peek(PeekedBytes {
            proc: Proc::new(proc as u32),
            addr,
            len: len as u32,
        }))
    } else {
        None
    }
}

fn peek_command(word: &str, proc: &str, addr: &str, len: &str) -> Option<Command>
    ensures same { result ≡ spec.peek_command word.now proc.now addr.now len.now }
    ensures looks { spec.Looks result }
{
    if word != "peek" {
        return None;
    }
    let Ok(proc) = number(proc.as_bytes()) else {
        return None;
    };
    let Ok(addr) = address(addr.as_bytes()) else {
        return None;
    };
    match number(len.as_bytes()) {
        Ok(len) => peek_at(proc, addr, len),
        Err(_) => None,
    }
}

impl Command {
    /// What the words ask for, if it is something that there is. A number is decimal, without leading zeros, and below
    /// 2^64.
    pub fn of(words: &[String]) -> Option<Command>
        ensures same { result ≡ spec.command_of (map string_bytes words.now) }
        ensures looks { spec.Looks result }
    {
        match words {
            [word] => plain_command(word.as_str()),
            [word, numeral] => numbered_command(word.as_str(), numeral.as_str()),
            [word, proc, addr, len] => {
                peek_command(word.as_str(), proc.as_str(), addr.as_str(), len.as_str())
            }
            _ => None,
        }
    }
}
