// How many states a search may know, and what is to be written of a race, by the words after the program's name.
ghost use Rattle.std.specs.Prelude.{◌≡◌, ◌<◌, ◌∷◌, [], None, Some, codes, length, map, string_bytes, IfOk, IfErr};
ghost use Rattle.std.specs.Prelude.{MatchOption};
ghost use Rattle.hm_race_top.specs.Asked.{after_most, front, goals_in, questions_in};
ghost use Rattle.hm_race_top.specs.Asked.{HasNoTask, IsTask};

use crate::text::{BadQuestion, Question, questions_of};
use hm_base::ListOf;
use hm_edge::{RaceEnd, Status};
use hm_script::number;
use std::alloc::Global;

/// As many states as a search may know, if the words say nothing else.
pub const MOST_STATES: u64 = 1_000_000;

/// What is to be written of a race.
#[derive(Drop)]
pub enum Task {
    /// All outcomes, one after the other.
    Outcomes,
    /// The outcomes as a table.
    Table,
    /// The script with the schedule of the outcome with this number, from 1.
    Script(u64),
    /// Whether these conditions hold.
    Expect(ListOf<Question>),
    /// The same; and also whether outcomes have the lines of these conditions.
    Strict(ListOf<Question>),
}

impl Task {
    /// The conditions of a task.
    pub(crate) fn questions(&self) -> &[Question]
        ensures { result.now ≡ questions_in self.now }
    {
        match self {
            Task::Expect(questions) | Task::Strict(questions) => questions.as_slice(),
            Task::Outcomes | Task::Table | Task::Script(_) => &[],
        }
    }

    /// The conditions at which the search stops as soon as an outcome settles them.
    pub(crate) fn goals(&self) -> &[Question]
        ensures { result.now ≡ goals_in self.now }
    {
        match self {
            Task::Expect(questions) => questions.as_slice(),
            Task::Strict(_) | Task::Outcomes | Task::Table | Task::Script(_) => &[],
        }
    }
}

/// The number of states after `--most`, and the words after it.
fn after_most(words: &[String]) -> Option<(u64, &[String])>
    ensures { MatchOption result (after_most (map string_bytes words.now) ≡ None)
        (λ r. after_most (map string_bytes words.now) ≡ Some (r.0, map string_bytes r.1.now)) }
{
    match words {
        [] => None,
        [numeral, rest @ ..] => match number(numeral.as_bytes()) {
            Ok(most) => Some((most, rest)),
            Err(_) => None,
        },
    }
}

/// The number of states that the words ask for, and the words that say what is to be written; or none if a number is
/// missing. A number is decimal, without leading zeros, and below 2^64.
pub(crate) fn front(words: &[String]) -> Option<(u64, &[String])>
    ensures { MatchOption result (front (map string_bytes words.now) ≡ None)
        (λ r. front (map string_bytes words.now) ≡ Some (r.0, map string_bytes r.1.now)) }
{
    match words {
        [] => Some((MOST_STATES, words)),
        [word, rest @ ..] => match number(word.as_bytes()) {
            Ok(most) => Some((most, rest)),
            Err(_) => {
                if word.as_str() == "--most" {
                    after_most(rest)
                } else {
                    Some((MOST_STATES, words))
                }
            }
        },
    }
}

/// The task of the only word.
fn plain_task(word: &str) -> Result<Task, Status>
    ensures task { IfOk result (IsTask (word.now ∷ [])) }
    ensures none { IfErr result (HasNoTask (word.now ∷ [])) }
{
    if word == "--table" {
        Ok(Task::Table)
    } else {
        Err(Status::Usage)
    }
}

/// The task of these conditions, one at least.
fn expect_task(alloc: Global, word: &str, texts: &[String]) -> Result<Task, Status>
    requires word { word.now ≡ codes "--expect" }
    requires some { 0 < length texts.now }
    ensures task { IfOk result (IsTask (word.now ∷ map string_bytes texts.now)) }
    ensures none { IfErr result (HasNoTask (word.now ∷ map string_bytes texts.now)) }
{
    let _ = word;
    match questions_of(alloc, texts) {
        Ok(questions) => Ok(Task::Expect(questions)),
        Err(BadQuestion::Word(at, word)) => Err(Status::Race(RaceEnd::NoCondition(at, word))),
        Err(BadQuestion::NoMemory) => Err(Status::NoMemory),
    }
}

/// The task of the outcome whose number is the only word after the first.
fn script_task(word: &str, words: &[String]) -> Result<Task, Status>
    requires word { word.now ≡ codes "--script" }
    requires some { 0 < length words.now }
    ensures task { IfOk result (IsTask (word.now ∷ map string_bytes words.now)) }
    ensures none { IfErr result (HasNoTask (word.now ∷ map string_bytes words.now)) }
{
    let _ = word;
    let [numeral] = words else {
        return Err(Status::Usage);
    };
    match number(numeral.as_bytes()) {
        Ok(at) => Ok(Task::Script(at)),
        Err(_) => Err(Status::Usage),
    }
}

/// The task of these conditions, one at least, whose lines outcomes must have too.
fn strict_expect_task(
    alloc: Global,
    word: &str,
    next: &str,
    texts: &[String],
) -> Result<Task, Status>
    requires word { word.now ≡ codes "--strict" }
    requires next { next.now ≡ codes "--expect" }
    requires some { 0 < length texts.now }
    ensures task { IfOk result (IsTask (word.now ∷ next.now ∷ map string_bytes texts.now)) }
    ensures none { IfErr result (HasNoTask (word.now ∷ next.now ∷ map string_bytes texts.now)) }
{
    let _ = word;
    let _ = next;
    match questions_of(alloc, texts) {
        Ok(questions) => Ok(Task::Strict(questions)),
        Err(BadQuestion::Word(at, word)) => Err(Status::Race(RaceEnd::NoCondition(at, word))),
        Err(BadQuestion::NoMemory) => Err(Status::NoMemory),
    }
}

/// The task of the words after `--strict`, one at least.
fn strict_task(alloc: Global, word: &str, words: &[String]) -> Result<Task, Status>
    requires word { word.now ≡ codes "--strict" }
    requires some { 0 < length words.now }
    ensures task { IfOk result (IsTask (word.now ∷ map string_bytes words.now)) }
    ensures none { IfErr result (HasNoTask (word.now ∷ map string_bytes words.now)) }
{
    let [next, texts @ ..] = words else {
        return Err(Status::Usage);
    };
    if next.as_str() != "--expect" || texts.is_empty() {
        return Err(Status::Usage);
    }
    strict_expect_task(alloc, word, next.as_str(), texts)
}

/// The task of a word and of more.
fn long_task(alloc: Global, word: &str, more: &[String]) -> Result<Task, Status>
    requires { 0 < length more.now }
    ensures task { IfOk result (IsTask (word.now ∷ map string_bytes more.now)) }
    ensures none { IfErr result (HasNoTask (word.now ∷ map string_bytes more.now)) }
{
    if word == "--expect" {
        return expect_task(alloc, word, more);
    }
    if word == "--script" {
        return script_task(word, more);
    }
    if word == "--strict" {
        return strict_task(alloc, word, more);
    }
    Err(Status::Usage)
}

/// What is to be written by these words, or how a call ends that says nothing.
pub(crate) fn task_of(alloc: Global, words: &[String]) -> Result<Task, Status>
    ensures task { IfOk result (IsTask (map string_bytes words.now)) }
    ensures none { IfErr result (HasNoTask (map string_bytes words.now)) }
{
    match words {
        [] => Ok(Task::Outcomes),
        [word] => plain_task(word.as_str()),
        [word, more @ ..] => long_task(alloc, word.as_str(), more),
    }
}
