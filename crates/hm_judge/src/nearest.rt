// Which of the lines that could stand in a place is nearest to the one that does.
ghost use Rattle.std.specs.Prelude.{◌≡◌, ◌++◌, ◌∷◌, [], List, ℕ, IfOk};
ghost use Rattle.std.specs.List.{flat_map};
ghost use Rattle.hm_report.specs.Report.{entry_line};
ghost use Rattle.hm_judge.specs.Nearest.{IsNearest, IsNearestSo, due_line, shared};

use hm_base::{NoMemory, Text};
use hm_history::{Entry, Progress};
use hm_report::{Buffer, add_entry};
use std::alloc::Global;

/// How many bytes the two texts share at the front.
fn shared(one: &[u8], other: &[u8]) -> usize
    ensures { result ≡ shared one.now other.now }
{
    let most = one.len().min(other.len());
    for at in 0..most {
        if one[at] != other[at] {
            return at;
        }
    }
    most
}

/// The line that shares more with this one: the first of the two, unless the other shares more.
fn nearer(line: &[u8], best: Option<Text>, other: Text) -> Text
    ensures { (ks : List (List ℕ)) → IsNearestSo line.now ks best → IsNearest line.now (ks ++ other ∷ []) result }
{
    match best {
        None => other,
        Some(best) => {
            if shared(line, best.as_slice()) < shared(line, other.as_slice()) {
                other
            } else {
                best
            }
        }
    }
}

/// The line of an entry. The buffer is written over.
fn line_of(alloc: Global, out: &mut Buffer, at: u64, entry: &Entry) -> Result<Text, NoMemory>
    ensures { IfOk result (λ t. t ≡ entry_line at entry.now) }
{
    let mut text = Text::new(alloc);
    add_entry(&mut text, out, at, entry)?;
    Ok(text)
}

/// The nearest line, if the line of what is due to one actor more is asked for too. The buffer is written over.
fn with_due(
    alloc: Global,
    out: &mut Buffer,
    line: &[u8],
    at: u64,
    best: Option<Text>,
    progress: &Progress,
) -> Result<Option<Text>, NoMemory>
    ensures { IfOk result (λ t. (ks : List (List ℕ)) → IsNearestSo line.now ks best
        → IsNearestSo line.now (ks ++ due_line at progress.now) t) }
{
    match progress {
        Progress::Did(entry) => {
            let due = line_of(alloc, out, at, entry)?;
            Ok(Some(nearer(line, best, due)))
        }
        Progress::Waiting(_) => Ok(best),
        Progress::Idle => Ok(best),
    }
}

/// The nearest of the lines that are due, if there is one.
fn nearest_due(
    alloc: Global,
    line: &[u8],
    at: u64,
    standing: &[Progress],
) -> Result<Option<Text>, NoMemory>
    ensures { IfOk result (IsNearestSo line.now (flat_map (due_line at) standing.now)) }
{
    let mut out = Buffer::new(alloc)?;
    let mut best = None;
    for progress in standing {
        best = with_due(alloc, &mut out, line, at, best, progress)?;
    }
    Ok(best)
}

/// The nearest of the lines that are due and the one that goes on to end the report.
pub(crate) fn nearest_line(
    alloc: Global,
    line: &[u8],
    at: u64,
    standing: &[Progress],
    ending: &[u8],
) -> Result<Text, NoMemory>
    ensures { IfOk result (IsNearest line.now (flat_map (due_line at) standing.now ++ ending.now ∷ [])) }
{
    let best = nearest_due(alloc, line, at, standing)?;
    let ending = Text::from_slice(alloc, ending)?;
    Ok(nearer(line, best, ending))
}
