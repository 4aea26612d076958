// What the words after the program's name ask for.
ghost use Rattle.std.specs.Prelude.{◌≡◌, ◌≤◌, map, string_bytes, IfErr, IfOk};
ghost use Rattle.hm_flaw_top.specs.declared.text.task.Task.{Task as AnyTask};
ghost use Rattle.hm_flaw_top.specs.Text.Tasks.{after_answers, after_number, bad, ended, first_number, last_number};
ghost use Rattle.hm_flaw_top.specs.Text.Tasks.{later, options_of, task_in, which_of, words_of, IsTask, WordsAreTasks};

use crate::text::names::rule_named;
use hm_flaw_parts::Judging;
use hm_flaws::Flaw;
use hm_script::number;

/// As many states as a search may know, if no word says another number.
pub const MOST_STATES: u64 = 1_000_000;

/// Of which drivers shortest races are looked for.
#[derive(Clone, Copy)]
pub enum Which {
    /// Of this one.
    One(Flaw),
    /// Of this one, and the holds of the race.
    Holds(Flaw),
    /// Of each, one after the other.
    All,
}

/// What the words after the program's name ask for.
#[derive(Clone, Copy)]
pub struct Task {
    pub which: Which,
    pub judging: Judging,
    /// As many states as the search of a driver may know.
    pub most: u64,
}

/// What is wrong with a word.
#[derive(Clone, Copy)]
pub enum WordFault {
    /// It is missing.
    Missing,
    /// It is no rule, and neither `right` nor `--all`.
    NoRule,
    /// No option that it could be comes there, or none at all.
    NoOption,
    /// It is no number: decimal digits without leading zeros, below 2^64.
    NoNumber,
}

/// A word that may not stand where it stands.
#[derive(Clone, Copy)]
pub struct BadWord {
    /// Its number among the words, from 1. One that is missing has the number after the last.
    pub at: u64,
    pub why: WordFault,
}

/// Words ask for a task if and only if they are words of it.
pub fn words_are_tasks()
    ensures { WordsAreTasks }
{}

/// The word of this number is bad.
fn bad(at: u64, why: WordFault) -> Result<Task, BadWord>
    requires { at ≤ 5 }
    ensures exact { result ≡ bad at why }
    ensures few { IfErr result (λ b. b.at ≤ 5) }
{
    Err(BadWord { at, why })
}

/// The task, if no word comes after the others; it would have this number.
fn ended(at: u64, task: Task, words: &[String]) -> Result<Task, BadWord>
    requires { at ≤ 5 }
    ensures exact { result ≡ ended at task (map string_bytes words.now) }
    ensures few { IfErr result (λ b. b.at ≤ 5) }
{
    match words {
        [] => Ok(task),
        [_, ..] => bad(at, WordFault::NoOption),
    }
}

/// The task with another number of states.
fn with_most(task: Task, most: u64) -> Task
    ensures { result ≡ record task { most = most } }
{
    Task {
        which: task.which,
        judging: task.judging,
        most,
    }
}

/// The task that judges answers alone.
fn with_answers(task: Task) -> Task
    ensures { result ≡ record task { judging = Judging.AnswersAlone } }
{
    Task {
        which: task.which,
        judging: Judging::AnswersAlone,
        most: task.most,
    }
}

/// The number that comes after `--answers` and `--most`.
fn last_number(task: Task, words: &[String]) -> Result<Task, BadWord>
    ensures exact { result ≡ last_number task (map string_bytes words.now) }
    ensures few { IfErr result (λ b. b.at ≤ 5) }
{
    match words {
        [] => bad(4, WordFault::Missing),
        [numeral, rest @ ..] => match number(numeral.as_bytes()) {
            Ok(most) => ended(5, with_most(task, most), rest),
            Err(_) => bad(4, WordFault::NoNumber),
        },
    }
}

/// The words that come after `--answers`.
fn after_answers(task: Task, words: &[String]) -> Result<Task, BadWord>
    ensures exact { result ≡ after_answers task (map string_bytes words.now) }
    ensures few { IfErr result (λ b. b.at ≤ 5) }
{
    match words {
        [] => Ok(task),
        [word, rest @ ..] => {
            if word.as_str() == "--most" {
                last_number(task, rest)
            } else {
                bad(3, WordFault::NoOption)
            }
        }
    }
}

/// The words that come after `--most` and its number.
fn after_number(task: Task, words: &[String]) -> Result<Task, BadWord>
    ensures exact { result ≡ after_number task (map string_bytes words.now) }
    ensures few { IfErr result (λ b. b.at ≤ 5) }
{
    match words {
        [] => Ok(task),
        [word, rest @ ..] => {
            if word.as_str() == "--answers" {
                ended(5, with_answers(task), rest)
            } else {
                bad(4, WordFault::NoOption)
            }
        }
    }
}

/// The number that comes after `--most`, and the words after it.
fn first_number(task: Task, words: &[String]) -> Result<Task, BadWord>
    ensures exact { result ≡ first_number task (map string_bytes words.now) }
    ensures few { IfErr result (λ b. b.at ≤ 5) }
{
    match words {
        [] => bad(3, WordFault::Missing),
        [numeral, rest @ ..] => match number(numeral.as_bytes()) {
            Ok(most) => after_number(with_most(task, most), rest),
            Err(_) => bad(3, WordFault::NoNumber),
        },
    }
}

/// The words that come after the first.
fn options_of(task: Task, words: &[String]) -> Result<Task, BadWord>
    ensures exact { result ≡ options_of task (map string_bytes words.now) }
    ensures few { IfErr result (λ b. b.at ≤ 5) }
{
    match words {
        [] => Ok(task),
        [word, rest @ ..] => {
            if word.as_str() == "--answers" {
                after_answers(with_answers(task), rest)
            } else if word.as_str() == "--most" {
                first_number(task, rest)
            } else {
                bad(2, WordFault::NoOption)
            }
        }
    }
}

/// The drivers that a word names.
fn which_of(word: &str) -> Option<Which>
    ensures { result ≡ which_of word.now }
{
    match rule_named(word.as_bytes()) {
        Some(flaw) => Some(Which::One(flaw)),
        None => {
            if word == "--all" {
                Some(Which::All)
            } else {
                None
            }
        }
    }
}

/// The task of these drivers, if no more words come.
fn plain_task(which: Which) -> Task
    ensures { result ≡ record { which = which; judging = Judging.AllParts; most = MOST_STATES } }
{
    Task {
        which,
        judging: Judging::AllParts,
        most: MOST_STATES,
    }
}

/// The same after one word more.
fn later(asked: Result<Task, BadWord>) -> Result<Task, BadWord>
    requires { IfErr asked (λ b. b.at ≤ 5) }
    ensures { result ≡ later asked }
{
    match asked {
        Ok(task) => Ok(task),
        Err(word) => Err(BadWord {
            at: word.at + 1,
            why: word.why,
        }),
    }
}

/// The words that come after the first, which names this driver: `--holds` may be the first of them.
fn words_of_one(flaw: Flaw, words: &[String]) -> Result<Task, BadWord>
    ensures { result ≡ words_of (Which.One flaw) (map string_bytes words.now) }
{
    match words {
        [] => options_of(plain_task(Which::One(flaw)), words),
        [word, rest @ ..] => {
            if word.as_str() == "--holds" {
                later(options_of(plain_task(Which::Holds(flaw)), rest))
            } else {
                options_of(plain_task(Which::One(flaw)), words)
            }
        }
    }
}

/// The words that come after the first, which names these drivers.
fn words_of(which: Which, words: &[String]) -> Result<Task, BadWord>
    ensures { result ≡ words_of which (map string_bytes words.now) }
{
    match which {
        Which::One(flaw) => words_of_one(flaw, words),
        Which::Holds(_) => bad(1, WordFault::NoRule),
        Which::All => options_of(plain_task(which), words),
    }
}

/// What the words ask for: a rule, `right` or `--all`, after a rule perhaps `--holds`, and then in any order
/// `--answers` and `--most` with a number. Or the first of them that may not stand there.
pub fn task_of(words: &[String]) -> Result<Task, BadWord>
    ensures exact { result ≡ task_in (map string_bytes words.now) }
    ensures task { IfOk result (IsTask (map string_bytes words.now)) }
    ensures none { IfErr result (λ _. (t : AnyTask) → ¬ IsTask (map string_bytes words.now) t) }
{
    words_are_tasks();
    match words {
        [] => bad(1, WordFault::Missing),
        [word, rest @ ..] => match which_of(word.as_str()) {
            Some(which) => words_of(which, rest),
            None => bad(1, WordFault::NoRule),
        },
    }
}
