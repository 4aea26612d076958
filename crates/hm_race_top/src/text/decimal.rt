// Numbers, added to a text.
ghost use Rattle.std.specs.Prelude.{◌≡◌, ◌++◌, OnOk};
ghost use Rattle.std.specs.Fmt.{decimal};

use hm_base::{NoMemory, Text};
use std::alloc::Global;

/// Adds a few bytes and the number.
#[tactic(auto, using(std::proofs::Common::append_assoc))]
pub fn add_decimal(alloc: Global, text: &mut Text, lead: &[u8], number: u64) -> Result<(), NoMemory>
    ensures { OnOk result (text.new ≡ text.old ++ (lead.now ++ decimal number)) }
{
    let digits = format!(in alloc; "{number}")?;
    text.extend(lead)?;
    text.extend(digits.as_bytes())
}
