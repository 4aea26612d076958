// Which conditions can be asked of a script: those each of whose lines an operation of the script may end with.
ghost use Rattle.std.specs.Prelude.{◌≡◌, IfOk};
ghost use Rattle.hm_race_top.specs.Text.Conditions.Asking as spec;

use crate::text::conditions::condition::{Condition, Literal};
use crate::text::conditions::question::Question;
use hm_base::{NoMemory, Script};
use hm_race_lines::may_end_with;
use hm_report::Buffer;
use std::alloc::Global;

/// Whether an operation of the script may end with each of these lines. The buffer is written over.
fn may_ask_all(alloc: Global, out: &mut Buffer, script: &Script, literals: &[Literal]) -> bool
    ensures { result ≡ spec.may_ask_all script.now literals.now }
{
    for literal in literals {
        if !may_end_with(alloc, out, script, literal.line.as_slice()) {
            return false;
        }
    }
    true
}

/// Whether an operation of the script may end with each line of the condition.
fn may_ask(alloc: Global, out: &mut Buffer, script: &Script, condition: &Condition) -> bool
    ensures { result ≡ spec.may_ask script.now condition.now }
{
    for literals in condition.body.as_slice() {
        if !may_ask_all(alloc, out, script, literals.as_slice()) {
            return false;
        }
    }
    true
}

/// The index of the first condition with a line that no operation of the script may end with.
fn unasked_at(
    alloc: Global,
    out: &mut Buffer,
    script: &Script,
    questions: &[Question],
) -> Option<usize>
    ensures { result ≡ spec.unasked_at script.now questions.now }
{
    for at in 0..questions.len() {
        if !may_ask(alloc, out, script, &questions[at].condition) {
            return Some(at);
        }
    }
    None
}

/// The number of the first condition with a line that no operation of the script may end with, from 1, and that of its
/// second word, where the lines begin; none if there is no such condition.
pub fn unasked(
    alloc: Global,
    script: &Script,
    questions: &[Question],
) -> Result<Option<(u64, u64)>, NoMemory>
    ensures { IfOk result (λ bad. bad ≡ spec.unasked script.now questions.now) }
{
    let mut out = Buffer::new(alloc)?;
    match unasked_at(alloc, &mut out, script, questions) {
        Some(at) => Ok(Some((at as u64 + 1, 2))),
        None => Ok(None),
    }
}
