// What follows the entries in a report.
ghost use Rattle.std.specs.Prelude.{◌≡◌, ◌≤◌, [], length};
ghost use Rattle.hm_history.specs.Laws.{DueFrom};
ghost use Rattle.hm_check.specs.Parts.{tail_of};

use hm_base::Script;
use hm_history::History;
use hm_report::{
    Buffer, ends_are_counted, op_count, operations_ended, put_end, put_unfinished_line,
};

/// Writes the lines of operations that have not ended, and the last line, over the buffer.
pub fn put_tail(out: &mut Buffer, script: &Script, history: &History)
    requires { DueFrom script.now [] history.now.entries }
    ensures text { out.new ≡ tail_of script.now history.now.entries }
    ensures few { length out.new ≤ 5000 }
{
    script.facts();
    ends_are_counted();
    let ended = operations_ended(script, history);
    out.clear();
    for actor in 0..script.actors.len() {
        let count = op_count(script, actor);
        put_unfinished_line(out, actor, ended[actor as usize], count);
    }
    put_end(out, history.len());
}
