// The text of a script with turns after its own schedule.
ghost use Rattle.std.specs.Prelude.{◌≡◌, IfOk};
ghost use Rattle.hm_script.specs.Spelling.{text as script_text};
ghost use Rattle.hm_race_top.specs.Text.Schedule.{with_turns};

use crate::text::laws::turns_come_last;
use crate::text::schedule::add_turns;
use hm_base::{Actor, NoMemory, Script, Text};
use hm_script::print;
use std::alloc::Global;

/// The text of the script with these turns after its schedule. If the schedule has a `drain`, no script has that text.
pub fn text_with_turns(alloc: Global, script: &Script, turns: &[Actor]) -> Result<Text, NoMemory>
    ensures { IfOk result (λ t. t ≡ script_text (with_turns script.now turns.now)) }
{
    turns_come_last();
    let mut text = print(alloc, script)?;
    add_turns(alloc, &mut text, turns)?;
    Ok(text)
}
