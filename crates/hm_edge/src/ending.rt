// What a program says at its end, and its exit code.
ghost use Rattle.std.specs.Prelude.{◌≡◌, ◌++◌, false, OnOk, IfErr};
ghost use Rattle.hm_edge.specs.Messages.{Says, Wrote, code_of, line_of, race_message};
ghost use Rattle.hm_report.specs.Sends.{Sends, Stops};

use crate::messages::{fixed_text, no_condition, race_text, refusal};
use crate::status::{RaceEnd, Status};
use hm_io::Sink;
use hm_report::{Stop, send_on, write_all};

/// Writes two pieces, one after the other.
fn write_both<K: Sink>(sink: &mut K, first: &[u8], second: &[u8]) -> Result<(), Stop>
    ensures ok { OnOk result (Sends (K.state sink.old) (K.state sink.new) (first.now ++ second.now)) }
    ensures err { IfErr result (Stops (K.state sink.old) (K.state sink.new) (first.now ++ second.now)) }
{
    write_all(sink, first)?;
    write_all(sink, second)
}

/// Writes the line of a message, and has the sink send it on.
fn write_line<K: Sink>(errors: &mut K, name: &str, message: &[u8]) -> Result<(), Stop>
    ensures ok { OnOk result (Sends (K.state errors.old) (K.state errors.new) (line_of name.now message.now)) }
    ensures sent { OnOk result ((K.state errors.new).pending ≡ false) }
    ensures err { IfErr result (Stops (K.state errors.old) (K.state errors.new) (line_of name.now message.now)) }
{
    write_both(errors, name.as_bytes(), b": ")?;
    write_both(errors, message, b"\n")?;
    send_on(errors)
}

/// Writes the line of a message, as far as the stream takes it.
fn say<K: Sink>(errors: &mut K, name: &str, message: &[u8])
    ensures { Wrote (line_of name.now message.now) (K.state errors.old) (K.state errors.new) }
{
    match write_line(errors, name, message) {
        Ok(()) => (),
        Err(_) => (),
    }
}

/// Says why a search of a race did not do all that was asked for.
fn say_race<K: Sink>(name: &str, end: &RaceEnd, errors: &mut K)
    ensures { Wrote (line_of name.now (race_message end.now)) (K.state errors.old) (K.state errors.new) }
{
    match end {
        RaceEnd::NoCondition(condition, word) => {
            say(
                errors,
                name,
                no_condition(*condition, *word).as_str().as_bytes(),
            );
        }
        _ => say(errors, name, race_text(end).as_bytes()),
    }
}

/// Says why the call did not end with all done.
fn say_why<K: Sink>(name: &str, usage: &str, status: &Status, errors: &mut K)
    ensures { Says name.now usage.now status.now (K.state errors.old) (K.state errors.new) }
{
    match status {
        Status::Done => (),
        Status::Refused(refused) => say(errors, name, refusal(refused).as_str().as_bytes()),
        Status::Race(end) => say_race(name, end, errors),
        _ => say(errors, name, fixed_text(status, usage).as_bytes()),
    }
}

/// Says on the error stream why the call did not end with all done, in one line after the program's name, and gives the
/// exit code. It takes no memory of its own. `usage` is what it says at `Status::Usage`.
pub fn finish<K: Sink>(name: &str, usage: &str, status: &Status, errors: &mut K) -> u8
    ensures code { result ≡ code_of status.now }
    ensures says { Says name.now usage.now status.now (K.state errors.old) (K.state errors.new) }
{
    say_why(name, usage, status, errors);
    status.code()
}
