// The findings of a history.
ghost use Rattle.std.specs.Prelude.{◌≡◌, ◌++◌, length, OnOk};
ghost use Rattle.hm_view.specs.Rows.{is_finding, finding, findings};

use hm_base::{NoMemory, Text};
use hm_history::{Entry, Kind};
use hm_report::{Buffer, add_entry};

fn is_finding(kind: &Kind) -> bool
    ensures { result ≡ is_finding kind.now }
{
    match kind {
        Kind::Failed { .. } => true,
        Kind::Refused(_) => true,
        Kind::Retry(_) => true,
        Kind::Kept { .. } => true,
        Kind::Migrated(_) => true,
        Kind::Evicted(_) => true,
        _ => false,
    }
}

/// Adds the line of the entry at this position, if it is a finding.
fn add_finding(text: &mut Text, out: &mut Buffer, at: u64, entry: &Entry) -> Result<(), NoMemory>
    ensures { OnOk result (text.new ≡ text.old ++ finding at entry.now) }
{
    if is_finding(&entry.kind) {
        return add_entry(text, out, at, entry);
    }
    Ok(())
}

/// Adds the lines of the findings.
pub(crate) fn add_findings(
    text: &mut Text,
    out: &mut Buffer,
    entries: &[Entry],
) -> Result<(), NoMemory>
    ensures { OnOk result (text.new ≡ text.old ++ findings entries.now (length entries.now)) }
{
    for at in 0..entries.len() {
        add_finding(text, out, at as u64, &entries[at])?;
    }
    Ok(())
}
