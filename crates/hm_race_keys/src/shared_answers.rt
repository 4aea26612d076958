// Answers that states share.
ghost use Rattle.std.specs.Prelude.{◌≡◌, ◌++◌, [], ◌∷◌, ℕ, true, Some, length, IfOk, OnOk, OnErr};
ghost use Rattle.hm_race_laws.specs.Outcomes.{answer_of, answers_next};
ghost use Rattle.hm_race_keys.specs.Answers.{mixed_bytes, mixed_kind, mixed_kinds, mixed_lists};
ghost use Rattle.hm_race_keys.specs.Trail.{answers_in};

use crate::answers::{answer_of, same_kind};
use crate::sparse::mixed;
use hm_base::{ListOf, NoMemory};
use hm_history::{Entry, Kind};
use std::alloc::Global;
use std::marker::Model;
use std::rc::Rc;

/// An answer that several lists may share.
#[derive(Drop)]
pub struct Answer {
    kind: Rc<Kind>,
}

impl Model for Answer {
    ghost use Rattle.std.specs.Prelude.{◌≡◌, Some};
    ghost use Rattle.hm_history.specs.declared.Kind.{Kind as AnyKind};
    ghost use Rattle.hm_race_laws.specs.Outcomes.{answer_of};

    ghost Value = { AnyKind };

    ghost view = { λ s. s.kind.value };

    ghost invariant = { λ s. answer_of s.kind.value ≡ Some s.kind.value };
}

impl Answer {
    /// An answer of its own.
    pub fn new(alloc: Global, kind: Kind) -> Result<Answer, NoMemory>
        requires { answer_of kind ≡ Some kind }
        ensures { IfOk result (λ x. x ≡ kind) }
    {
        Ok(Answer {
            kind: Rc::new(alloc, kind)?,
        })
    }

    /// The same answer, in the same memory.
    pub fn share(&self) -> Result<Answer, NoMemory>
        ensures { IfOk result (λ x. x ≡ self.now) }
    {
        Ok(Answer {
            kind: self.kind.clone()?,
        })
    }

    /// What it is.
    pub fn kind(&self) -> &Kind
        ensures same { result.now ≡ self.now }
        ensures answer { answer_of self.now ≡ Some self.now }
    {
        self.kind.as_ref()
    }

    /// Whether the two are the same.
    pub(crate) fn is_same(&self, other: &Answer) -> bool
        ensures yes { result ≡ true → self.now ≡ other.now }
        ensures no { self.now ≡ other.now → result ≡ true }
    {
        same_kind(self.kind(), other.kind())
    }
}

/// A list of answers that several states may share.
#[derive(Drop)]
pub struct AnswerList {
    list: Rc<ListOf<Answer>>,
}

impl Model for AnswerList {
    ghost use Rattle.std.specs.Prelude.{List};
    ghost use Rattle.hm_history.specs.declared.Kind.{Kind as AnyKind};

    ghost Value = { List AnyKind };

    ghost view = { λ s. s.list.value };
}

// A list with one answer more; it shares the others.
fn with_answer(alloc: Global, list: &[Answer], answer: Answer) -> Result<ListOf<Answer>, NoMemory>
    ensures { IfOk result (λ xs. xs ≡ list.now ++ answer ∷ []) }
{
    let mut copy = ListOf::new(alloc);
    for item in list {
        copy.push(item.share()?)?;
    }
    copy.push(answer)?;
    Ok(copy)
}

fn same_answers(one: &[Answer], other: &[Answer]) -> bool
    ensures yes { result ≡ true → one.now ≡ other.now }
    ensures no { one.now ≡ other.now → result ≡ true }
{
    if one.len() != other.len() {
        return false;
    }
    for at in 0..one.len() {
        if !one[at].is_same(&other[at]) {
            return false;
        }
    }
    true
}

fn mixed_bytes(sum: u64, bytes: &[u8]) -> u64
    ensures { result ≡ mixed_bytes sum bytes.now }
{
    let mut total = sum;
    for byte in bytes {
        total = mixed(total, u64::from(*byte));
    }
    total
}

fn mixed_kind(sum: u64, kind: &Kind) -> u64
    ensures { result ≡ mixed_kind sum kind.now }
{
    match kind {
        Kind::Loaded { bytes, .. } => mixed_bytes(mixed(sum, 1), bytes.as_slice()),
        Kind::Stored { bytes, .. } => mixed_bytes(mixed(sum, 2), bytes.as_slice()),
        Kind::Failed { addr, .. } => mixed(mixed(sum, 3), *addr),
        Kind::Migrated(count) => mixed(mixed(sum, 4), *count),
        Kind::Evicted(count) => mixed(mixed(sum, 5), *count),
        Kind::Seen { code, .. } => mixed(mixed(sum, 6), u64::from(*code)),
        Kind::Added { read, .. } => mixed(mixed(sum, 7), u64::from(*read)),
        _ => mixed(sum, 0),
    }
}

fn mixed_kinds(sum: u64, answers: &[Answer]) -> u64
    ensures { result ≡ mixed_kinds sum answers.now }
{
    let mut total = sum;
    for answer in answers {
        total = mixed_kind(total, answer.kind());
    }
    total
}

fn mixed_lists(sum: u64, lists: &[AnswerList]) -> u64
    ensures { result ≡ mixed_lists sum lists.now }
{
    let mut total = sum;
    for list in lists {
        let answers = list.as_slice();
        total = mixed_kinds(mixed(total, answers.len() as u64), answers);
    }
    total
}

impl AnswerList {
    fn new(alloc: Global, list: ListOf<Answer>) -> Result<AnswerList, NoMemory>
        ensures { IfOk result (λ x. x ≡ list) }
    {
        Ok(AnswerList {
            list: Rc::new(alloc, list)?,
        })
    }

    /// The same list, in the same memory.
    pub fn share(&self) -> Result<AnswerList, NoMemory>
        ensures { IfOk result (λ x. x ≡ self.now) }
    {
        Ok(AnswerList {
            list: self.list.clone()?,
        })
    }

    /// The answers, in order.
    pub fn as_slice(&self) -> &[Answer]
        ensures { result.now ≡ self.now }
    {
        self.list.as_ref().as_slice()
    }
}

/// The answers of each actor. A step makes a new list for one actor, and keeps those of the others.
#[derive(Drop)]
pub struct SharedAnswers {
    pub lists: Vec<AnswerList>,
    ghost sized: { length lists.items ≡ 16 },
}

impl SharedAnswers {
    /// Nobody has been answered anything.
    pub fn new(alloc: Global) -> Result<SharedAnswers, NoMemory>
        ensures { IfOk result (λ x. (a : ℕ) → answers_in x.lists.items a ≡ []) }
    {
        let mut lists = Vec::with_capacity(alloc, 16)?;
        for _ in 0..16u32 {
            lists.push(AnswerList::new(alloc, ListOf::new(alloc))?)?;
        }
        Ok(SharedAnswers { lists })
    }

    /// The answers after an entry; a failure changes nothing.
    pub fn step(&mut self, alloc: Global, entry: &Entry) -> Result<(), NoMemory>
        ensures ok { OnOk result
            (answers_in self.new.lists.items ≡ answers_next (answers_in self.old.lists.items) entry.now) }
        ensures err { OnErr result (self.new.lists.items ≡ self.old.lists.items) }
    {
        match answer_of(alloc, &entry.kind)? {
            None => Ok(()),
            Some(kind) => {
                let answer = Answer::new(alloc, kind)?;
                let at = entry.actor.number() as usize;
                let list = with_answer(alloc, self.lists[at].as_slice(), answer)?;
                self.lists[at] = AnswerList::new(alloc, list)?;
                Ok(())
            }
        }
    }

    /// The same lists, in the same memory.
    pub fn copy(&self, alloc: Global) -> Result<SharedAnswers, NoMemory>
        ensures { IfOk result (λ x. x.lists.items ≡ self.now.lists.items) }
    {
        let mut lists = Vec::with_capacity(alloc, 16)?;
        for actor in 0..16usize {
            lists.push(self.lists[actor].share()?)?;
        }
        Ok(SharedAnswers { lists })
    }

    /// Whether both have the same answers.
    pub fn same(&self, other: &SharedAnswers) -> bool
        ensures yes { result ≡ true
            → (a : ℕ) → answers_in self.now.lists.items a ≡ answers_in other.now.lists.items a }
        ensures no { ((a : ℕ) → answers_in self.now.lists.items a ≡ answers_in other.now.lists.items a)
            → result ≡ true }
    {
        for actor in 0..16usize {
            let (x, y) = (&self.lists[actor], &other.lists[actor]);
            if !same_answers(x.as_slice(), y.as_slice()) {
                return false;
            }
        }
        true
    }

    /// A sum with all answers mixed in.
    pub fn bucket(&self, sum: u64) -> u64
        ensures { result ≡ mixed_lists sum self.now.lists.items }
    {
        mixed_lists(sum, self.lists.as_slice())
    }
}
