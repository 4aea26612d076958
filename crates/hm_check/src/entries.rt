// The lines of entries, each of which has to be what is due.
ghost use Rattle.std.specs.Prelude.{◌≡◌, length, None, IfOk};
ghost use Rattle.hm_world.specs.WorldValue.{opening};
ghost use Rattle.hm_check.specs.Parts.{TakesLine, TakesAll};

use crate::actor::actor_in;
use hm_base::{MOST_ENTRIES, NoMemory};
use hm_history::Progress;
use hm_report::Buffer;
use hm_report_front::is_line_of;
use hm_script::cut_line;
use hm_world::World;
use skip_rules::Multiples;
use std::alloc::Global;

/// Adds the entry whose line this is, if it is due to its actor, and says whether that is so.
fn take_line(
    alloc: Global,
    world: &mut World,
    out: &mut Buffer,
    line: &[u8],
) -> Result<bool, NoMemory>
    requires { world.old.halted ≡ None }
    ensures { IfOk result (TakesLine world.old world.new line.now) }
{
    world.facts();
    let at = world.history().len();
    if at == MOST_ENTRIES {
        return Ok(false);
    }
    let Some(actor) = actor_in(out, line, at) else {
        return Ok(false);
    };
    match hm_steps::due(&*world, &Multiples, alloc, actor)? {
        Progress::Did(entry) => {
            if !is_line_of(out, line, at, &entry) {
                return Ok(false);
            }
            world.add(entry)?;
            Ok(true)
        }
        Progress::Waiting(_) => Ok(false),
        Progress::Idle => Ok(false),
    }
}

/// Adds the entries whose lines these are, as long as each is due, and gives the lines after them.
pub(crate) fn take_entries<'a>(
    alloc: Global,
    world: &mut World,
    out: &mut Buffer,
    bytes: &'a [u8],
) -> Result<&'a [u8], NoMemory>
    requires { world.old ≡ opening world.old.script }
    ensures { IfOk result (λ rest. TakesAll world.old world.new bytes.now rest.now) }
{
    let mut rest = bytes;
    while !rest.is_empty() {
        let (line, after) = cut_line(rest);
        if !take_line(alloc, world, out, line)? {
            return Ok(rest);
        }
        rest = after;
    }
    Ok(rest)
}
