// Texts of a width.
ghost use Rattle.std.specs.Prelude.{◌≡◌, ◌++◌, replicate, OnOk};
ghost use Rattle.hm_race_top.specs.Text.Text.{padded};

use hm_base::{NoMemory, Text};

fn add_spaces(text: &mut Text, count: u64) -> Result<(), NoMemory>
    ensures { OnOk result (text.new ≡ text.old ++ replicate count 32) }
{
    for at in 0..count {
        text.push(b' ')?;
    }
    Ok(())
}

/// Adds a text, and spaces up to this width. Widths count bytes.
pub fn add_padded(text: &mut Text, width: u64, from: &[u8]) -> Result<(), NoMemory>
    ensures { OnOk result (text.new ≡ text.old ++ padded width from.now) }
{
    text.extend(from)?;
    add_spaces(text, width.saturating_sub(from.len() as u64))
}
