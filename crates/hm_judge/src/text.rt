// The text of a judgement.
ghost use Rattle.std.specs.Prelude.{◌≡◌, ◌+◌, ◌≤◌, ◌∷◌, ◌++◌, [], codes, length, OnOk};
ghost use Rattle.std.specs.Fmt.{decimal};
ghost use Rattle.hm_report.specs.Line.{spaced};
ghost use Rattle.hm_report.specs.Words.{head_words, tail_text};
ghost use Rattle.hm_script.specs.Reasons.{refused_text};
ghost use Rattle.hm_judge.specs.Standing.{standing_line, standing_lines};
ghost use Rattle.hm_judge.specs.Texts.{asked_lines, bad_text, breaks, fault_text, first_parts_text};
ghost use Rattle.hm_judge.specs.Texts.{judgement_text, last_parts_text, legal_text, line_text, shown_line};
ghost use Rattle.hm_judge.specs.Texts.{unset_text, wrong_text};

use crate::asked::Asked;
use crate::judgement::{BadReport, Fault, Judgement, LegalReport};
use hm_base::{MirrorId, NoMemory, Page, Text};
use hm_check::put_why;
use hm_history::{Entry, Kind, Progress};
use hm_parts::{Parts, Shown, ShownParts};
use hm_report::{Buffer, add_entry, add_tail, put_decimal, put_head};
use hm_script::Refused;
use std::alloc::Global;

// ---- what is wrong

/// Adds what is so, in the words of an entry. The buffer is written over.
#[tactic(auto, using(std::proofs::Common::append_assoc))]
fn add_words(text: &mut Text, out: &mut Buffer, kind: &Kind) -> Result<(), NoMemory>
    ensures { OnOk result (text.new
        ≡ text.old ++ (codes "shows" ++ (spaced (head_words kind.now) ++ (tail_text kind.now ++ 10 ∷ [])))) }
{
    out.clear();
    out.put(b"shows");
    put_head(out, kind);
    text.extend(out.as_slice())?;
    add_tail(text, kind)?;
    text.push(b'\n')
}

/// Adds that the mirror's table has nothing for the page.
#[tactic(auto, using(std::proofs::Common::append_assoc), unfolding(crate::specs::Texts::unset_text))]
fn put_unset(out: &mut Buffer, mirror: MirrorId, page: Page)
    requires { length out.old ≤ 100 }
    ensures text { out.new ≡ out.old ++ unset_text mirror page }
    ensures room { length out.new ≤ length out.old + 1000 }
{
    put_decimal(out, b"unset m", u64::from(mirror.number()));
    put_decimal(out, b" ", page.number());
}

/// Adds the line that the mirror's table has nothing for the page. The buffer is written over.
#[tactic(auto, using(std::proofs::Common::append_assoc))]
fn add_unset(
    text: &mut Text,
    out: &mut Buffer,
    mirror: MirrorId,
    page: Page,
) -> Result<(), NoMemory>
    ensures { OnOk result (text.new ≡ text.old ++ (codes "shows " ++ (unset_text mirror page ++ 10 ∷ []))) }
{
    out.clear();
    out.put(b"shows ");
    put_unset(out, mirror, page);
    out.push(b'\n');
    text.extend(out.as_slice())
}

/// Adds the line of what is so, if there is one. The buffer is written over.
fn add_shown(text: &mut Text, out: &mut Buffer, shown: &Option<Shown>) -> Result<(), NoMemory>
    ensures { OnOk result (text.new ≡ text.old ++ shown_line shown.now) }
{
    match shown {
        None => Ok(()),
        Some(Shown::Words(kind)) => add_words(text, out, kind),
        Some(Shown::Unset(mirror, page)) => add_unset(text, out, *mirror, *page),
    }
}

/// Adds the line of a part, and what shows it, if it is broken. The buffer is written over.
#[tactic(auto, using(std::proofs::Common::append_assoc), unfolding(crate::specs::Texts::breaks))]
pub(crate) fn add_break(
    text: &mut Text,
    out: &mut Buffer,
    met: bool,
    line: &[u8],
    shown: &Option<Shown>,
) -> Result<(), NoMemory>
    ensures { OnOk result (text.new ≡ text.old ++ breaks met line.now shown.now) }
{
    if met {
        return Ok(());
    }
    text.extend(line)?;
    add_shown(text, out, shown)
}

/// Adds the lines of each of the first parts that is broken. The buffer is written over.
fn add_first_parts(
    text: &mut Text,
    out: &mut Buffer,
    parts: &Parts,
    shown: &ShownParts,
) -> Result<(), NoMemory>
    ensures { OnOk result (text.new ≡ text.old ++ first_parts_text parts.now shown.now) }
{
    add_break(
        text,
        out,
        parts.answers,
        b"breaks answers\n",
        &shown.answers,
    )?;
    add_break(text, out, parts.places, b"breaks places\n", &shown.places)?;
    add_break(text, out, parts.frames, b"breaks frames\n", &shown.frames)?;
    add_break(
        text,
        out,
        parts.sequences,
        b"breaks sequences\n",
        &shown.sequences,
    )
}

/// Adds the lines of each of the others that is broken. The buffer is written over.
fn add_last_parts(
    text: &mut Text,
    out: &mut Buffer,
    parts: &Parts,
    shown: &ShownParts,
) -> Result<(), NoMemory>
    ensures { OnOk result (text.new ≡ text.old ++ last_parts_text parts.now shown.now) }
{
    add_break(text, out, parts.untold, b"breaks untold\n", &shown.untold)?;
    add_break(
        text,
        out,
        parts.guarded,
        b"breaks guarded\n",
        &shown.guarded,
    )?;
    add_break(text, out, parts.kept, b"breaks kept\n", &shown.kept)
}

/// Adds the line of an entry that is not due, and those of each part that it breaks. The buffer is written over.
fn add_wrong(
    text: &mut Text,
    out: &mut Buffer,
    at: u64,
    entry: &Entry,
    parts: &Parts,
    shown: &ShownParts,
) -> Result<(), NoMemory>
    ensures { OnOk result (text.new ≡ text.old ++ wrong_text at entry.now parts.now shown.now) }
{
    text.extend(b"entry ")?;
    add_entry(text, out, at, entry)?;
    text.extend(b"breaks due\n")?;
    add_first_parts(text, out, parts, shown)?;
    add_last_parts(text, out, parts, shown)
}

/// Adds why a script was refused. The buffer is written over.
#[tactic(auto, using(std::proofs::Common::append_assoc))]
fn add_refused(text: &mut Text, out: &mut Buffer, refused: &Refused) -> Result<(), NoMemory>
    ensures { OnOk result (text.new ≡ text.old ++ (refused_text refused.now ++ 10 ∷ [])) }
{
    out.clear();
    put_decimal(out, b"script line ", refused.line);
    out.put(b": ");
    text.extend(out.as_slice())?;
    text.extend(refused.why.text().as_bytes())?;
    text.push(b'\n')
}

/// Adds what is wrong. The buffer is written over.
fn add_fault(text: &mut Text, out: &mut Buffer, at: u64, fault: &Fault) -> Result<(), NoMemory>
    ensures { OnOk result (text.new ≡ text.old ++ fault_text at fault.now) }
{
    match fault {
        Fault::Script(refused) => add_refused(text, out, refused),
        Fault::Entry(entry, parts, shown) => add_wrong(text, out, at, entry, parts, shown),
        Fault::Full => text.extend(b"full\n"),
        Fault::NoEntry => text.extend(b"text\n"),
        Fault::Behind => text.extend(b"behind\n"),
        Fault::Missing => text.extend(b"missing\n"),
    }
}

// ---- how the actors stand

/// Adds the line of an actor. The buffer is written over.
#[tactic(auto, using(std::proofs::Common::append_assoc))]
fn add_standing(
    text: &mut Text,
    out: &mut Buffer,
    at: u64,
    actor: u64,
    progress: &Progress,
) -> Result<(), NoMemory>
    ensures { OnOk result (text.new ≡ text.old ++ standing_line at actor progress.now) }
{
    out.clear();
    match progress {
        Progress::Did(entry) => {
            put_decimal(out, b"due a", actor);
            out.push(b' ');
            text.extend(out.as_slice())?;
            add_entry(text, out, at, entry)
        }
        Progress::Waiting(why) => {
            put_decimal(out, b"waits a", actor);
            out.push(b' ');
            put_why(out, why, b" ");
            out.push(b'\n');
            text.extend(out.as_slice())
        }
        Progress::Idle => {
            put_decimal(out, b"idle a", actor);
            out.push(b'\n');
            text.extend(out.as_slice())
        }
    }
}

/// Adds the lines of all actors.
fn add_standings(
    text: &mut Text,
    out: &mut Buffer,
    at: u64,
    standing: &[Progress],
) -> Result<(), NoMemory>
    ensures { OnOk result (text.new ≡ text.old ++ standing_lines at 0 standing.now) }
{
    for (actor, progress) in standing.iter().enumerate() {
        add_standing(text, out, at, actor as u64, progress)?;
    }
    Ok(())
}

// ---- all of it

/// Adds a line after a word, if the line is there.
#[tactic(auto, using(std::proofs::Common::append_assoc))]
fn add_line(text: &mut Text, word: &[u8], line: &[u8]) -> Result<(), NoMemory>
    ensures { OnOk result (text.new ≡ text.old ++ line_text word.now line.now) }
{
    if line.is_empty() {
        return Ok(());
    }
    text.extend(word)?;
    text.extend(line)
}

/// Adds a line with a number.
#[tactic(auto, using(std::proofs::Common::append_assoc))]
pub(crate) fn add_numbered(
    text: &mut Text,
    out: &mut Buffer,
    word: &[u8],
    number: u64,
) -> Result<(), NoMemory>
    requires { length word.now ≤ 100 }
    ensures { OnOk result (text.new ≡ text.old ++ (word.now ++ (decimal number ++ 10 ∷ []))) }
{
    out.clear();
    put_decimal(out, word, number);
    out.push(b'\n');
    text.extend(out.as_slice())
}

/// Adds what is said of bytes that are no legal report.
#[tactic(auto, using(std::proofs::Common::append_assoc), unfolding(crate::specs::Texts::bad_text))]
fn add_bad(text: &mut Text, out: &mut Buffer, bad: &BadReport) -> Result<(), NoMemory>
    ensures { OnOk result (text.new ≡ text.old ++ bad_text bad.now) }
{
    add_numbered(text, out, b"bad ", bad.line)?;
    add_fault(text, out, bad.at, &bad.fault)?;
    add_line(text, b"nearest ", bad.nearest.as_slice())?;
    add_standings(text, out, bad.at, bad.standing.as_slice())?;
    add_line(text, b"ends ", bad.ending.as_slice())
}

/// Adds the lines of all actors after a history of this length, if they are asked for.
fn add_asked(
    text: &mut Text,
    out: &mut Buffer,
    asked: Asked,
    at: u64,
    standing: &[Progress],
) -> Result<(), NoMemory>
    ensures { OnOk result (text.new ≡ text.old ++ asked_lines asked at standing.now) }
{
    match asked {
        Asked::Verdict => Ok(()),
        Asked::All => Ok(()),
        Asked::Standing => add_standings(text, out, at, standing),
    }
}

/// Adds what is said of a legal report.
#[tactic(auto, using(std::proofs::Common::append_assoc))]
fn add_legal(
    text: &mut Text,
    out: &mut Buffer,
    asked: Asked,
    legal: &LegalReport,
) -> Result<(), NoMemory>
    ensures { OnOk result (text.new ≡ text.old ++ legal_text asked legal.now) }
{
    let count = legal.report.history.len();
    add_numbered(text, out, b"legal ", count)?;
    add_asked(text, out, asked, count, legal.standing.as_slice())
}

/// Adds the text of a judgement. The buffer is written over.
pub(crate) fn add_judgement(
    text: &mut Text,
    out: &mut Buffer,
    asked: Asked,
    judgement: &Judgement,
) -> Result<(), NoMemory>
    ensures { OnOk result (text.new ≡ text.old ++ judgement_text asked judgement.now) }
{
    match judgement {
        Judgement::Legal(legal) => add_legal(text, out, asked, legal),
        Judgement::Bad(bad) => add_bad(text, out, bad),
    }
}
