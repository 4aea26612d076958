// The verdict on bytes that may be a report.
ghost use Rattle.std.specs.Prelude.{◌≡◌, ◌+◌, ◌^◌, ◌≤◌, IfOk, IfSome, MatchOption, ℕ, List, length};
ghost use Rattle.hm_base.specs.Program.{Program};
ghost use Rattle.hm_history.specs.declared.Entry.{Entry};
ghost use Rattle.hm_report.specs.Report.{report};
ghost use Rattle.hm_script.specs.Automaton.{lines};
ghost use Rattle.hm_script.specs.Spelling.{text};
ghost use Rattle.hm_check.specs.FirstBad.{IsLegalReport};
ghost use Rattle.hm_check.specs.Judged.{Judged, IsYes, JudgedBehind};
ghost use Rattle.hm_check.specs.Parts.{tail_of};
ghost use Rattle.hm_report_front.specs.Parts.{Differ};

use crate::taken::{Taken, put_ending, take_all};
use hm_base::{NoMemory, Script};
use hm_history::History;
use hm_report::Buffer;
use hm_report_front::{first_difference, read_head};
use hm_world::World;
use std::alloc::Global;

/// What a legal report tells.
#[derive(Drop)]
pub struct Report {
    pub script: Script,
    pub history: History,
}

/// The verdict on bytes.
#[derive(Drop)]
pub enum Verdict {
    /// They are the report of this script and this history, which is legal for it.
    Yes(Report),
    /// They are no legal report. This is the first bad line, from 1: no legal report begins with the lines up to it.
    /// It is one more than there are lines if a line is missing.
    No(u64),
}

/// How many of the lines after the world's entries are the lines that end its report; none if they are these lines and
/// nothing follows.
fn same_as_ending(alloc: Global, world: &World, rest: &[u8]) -> Result<Option<u64>, NoMemory>
    ensures differ { IfOk result (λ o. MatchOption o
        (tail_of world.now.script world.now.history ≡ rest.now)
        (Differ (lines (tail_of world.now.script world.now.history)) (lines rest.now))) }
    ensures few { IfOk result (λ o. IfSome o (λ n. n ≤ 5000)) }
{
    let mut out = Buffer::new(alloc)?;
    put_ending(&mut out, world);
    Ok(first_difference(out.as_slice(), rest))
}

/// The verdict on the lines after `history`, of which the first has this number.
fn judge(alloc: Global, script: Script, first: u64, bytes: &[u8]) -> Result<Verdict, NoMemory>
    requires { first ≤ 2 ^ 63 + 2 }
    ensures { IfOk result (JudgedBehind script first bytes.now) }
{
    hm_laws::every_history_is_legal();
    hm_script::one_text();
    let Taken { world, rest } = match take_all(alloc, script, bytes) {
        Ok(taken) => taken,
        Err(NoMemory) => return Err(NoMemory),
    };
    let same = same_as_ending(alloc, &world, rest);
    world.facts();
    let (script, history) = world.into_parts();
    let same = same?;
    match same {
        Some(same) => Ok(Verdict::No(first + history.len() + same)),
        None => Ok(Verdict::Yes(Report { script, history })),
    }
}

/// Whether the bytes are the report of a script and a legal history of at most 2,000,000 entries, and of which. It
/// reads each line once, and makes what is due to the line's actor, whose text the line has to be.
pub fn check(alloc: Global, bytes: &[u8]) -> Result<Verdict, NoMemory>
    // What is found is legal, and the bytes are its report; a line that is refused is the first bad one.
    ensures judged { IfOk result (Judged bytes.now) }
    // The report of a script and a legal history is found to be theirs, unless memory runs out.
    ensures only { (c : Program) (h : List Entry) → IsLegalReport c h → bytes.now ≡ report c h
        → IfOk result (IsYes c h) }
{
    hm_script::one_text();
    match read_head(alloc, bytes)? {
        Ok(head) => judge(alloc, head.script, head.first, head.rest),
        Err(bad) => Ok(Verdict::No(bad.0)),
    }
}
