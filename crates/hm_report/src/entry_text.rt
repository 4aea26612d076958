// Words and lines of entries, added to a text.
ghost use Rattle.std.specs.Prelude.{◌≡◌, ◌∷◌, ◌++◌, OnOk};
ghost use Rattle.hm_report.specs.Words.{tail_text};
ghost use Rattle.hm_report.specs.Report.{entry_line};
ghost use Rattle.hm_script.specs.Spelling.{hex_text};

use crate::buffer::Buffer;
use crate::kinds::put_front;
use hm_base::{NoMemory, Text};
use hm_history::{Entry, Kind};
use hm_script::extend_hex;

/// Adds a space and two digits for each byte.
fn add_bytes(text: &mut Text, bytes: &[u8]) -> Result<(), NoMemory>
    ensures { OnOk result (text.new ≡ text.old ++ 32 ∷ hex_text bytes.now) }
{
    text.push(b' ')?;
    extend_hex(text, bytes)
}

/// Adds the bytes that were read or written, if the kind tells some.
pub fn add_tail(text: &mut Text, kind: &Kind) -> Result<(), NoMemory>
    ensures { OnOk result (text.new ≡ text.old ++ tail_text kind.now) }
{
    match kind {
        Kind::Loaded { bytes, .. } => add_bytes(text, bytes.as_slice()),
        Kind::Stored { bytes, .. } => add_bytes(text, bytes.as_slice()),
        Kind::Fetched { bytes, .. } => add_bytes(text, bytes.as_slice()),
        _ => Ok(()),
    }
}

/// Adds the line of an entry. The buffer is written over.
#[tactic(auto, using(std::proofs::Common::append_assoc, crate::proofs::Lines::entry_split))]
pub fn add_entry(text: &mut Text, out: &mut Buffer, at: u64, entry: &Entry) -> Result<(), NoMemory>
    ensures { OnOk result (text.new ≡ text.old ++ entry_line at entry.now) }
{
    out.clear();
    put_front(out, at, entry);
    text.extend(out.as_slice())?;
    add_tail(text, &entry.kind)?;
    text.push(b'\n')
}
