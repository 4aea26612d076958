// How a call of the program ended, and what is said of it.
ghost use Rattle.std.specs.Prelude.{◌≡◌};
ghost use Rattle.hm_edge.specs.Messages.{Wrote, line_of};
ghost use Rattle.hm_trace.specs.Progress.{refused_text};
ghost use Rattle.hm_trace_top.specs.Endings.{Says, code_of, name, no_rule_text, outcome_code, refused_in_text, unseen_text};
ghost use Rattle.hm_trace_top.specs.declared.ended.Ended.{Ended as AnyEnded};

use crate::names::rule_name;
use arrayvec::ArrayString;
use hm_edge::Status;
use hm_io::Sink;
use hm_protocol::Rule;
use hm_report::write_last;
use hm_trace::Refused;

/// The program's name, which its messages begin with.
pub const NAME: &str = "hmmtrace";

/// What it says if the words are none of the forms.
pub const USAGE: &str = "usage: hmmtrace [--expect RULE ..]";

/// What verdicts come to.
#[derive(Clone, Copy)]
pub enum Outcome {
    /// No rule is broken, and each that was asked for was put to the test.
    Kept,
    /// A rule is broken.
    Broken,
    /// None is, and this one that was asked for was not put to the test: the first.
    Unseen(Rule),
}

/// How a call of the program ended.
#[derive(Clone, Copy)]
pub enum Ended {
    /// The verdicts went out whole, and come to this.
    Told(Outcome),
    /// The words ask for nothing that there is.
    Usage,
    /// The word of this number, from 1, had to be a rule.
    NoRule(u64),
    /// The bytes are no trace: the first bad line.
    Refused(Refused),
    /// The trace of this number in a list, from 1, is none: its first bad line.
    RefusedIn(u64, Refused),
    /// The source failed.
    ReadFault,
    /// The sink failed, and a front of the text went out.
    WriteFault,
    /// Memory ran out.
    NoMemory,
    /// The source has more bytes than a trace that is read, or more than a number of 64 bits counts.
    TooLong,
}

/// A line on standard error: a name, a number and a few words.
type Line = ArrayString<120>;

/// The line on a bad line of a trace.
#[tactic(auto, using(std::proofs::Common::append_assoc))]
fn refusal(refused: &Refused) -> Line
    ensures { result.bytes ≡ line_of name (refused_text refused.now) }
{
    let mut text = Line::new();
    text.push_str(NAME);
    text.push_str(": trace line ");
    text.push_str(itoa::Buffer::new().format(refused.line));
    text.push_str(": ");
    text.push_str(refused.why.text());
    text.push_str("\n");
    text
}

/// The line on a bad line of a trace in a list.
#[tactic(auto, using(std::proofs::Common::append_assoc))]
fn refusal_in(trace: u64, refused: &Refused) -> Line
    ensures { result.bytes ≡ line_of name (refused_in_text trace refused.now) }
{
    let mut text = Line::new();
    text.push_str(NAME);
    text.push_str(": trace ");
    text.push_str(itoa::Buffer::new().format(trace));
    text.push_str(" line ");
    text.push_str(itoa::Buffer::new().format(refused.line));
    text.push_str(": ");
    text.push_str(refused.why.text());
    text.push_str("\n");
    text
}

/// The line on a word that is no rule.
#[tactic(auto, using(std::proofs::Common::append_assoc))]
fn no_rule(word: u64) -> Line
    ensures { result.bytes ≡ line_of name (no_rule_text word) }
{
    let mut text = Line::new();
    text.push_str(NAME);
    text.push_str(": word ");
    text.push_str(itoa::Buffer::new().format(word));
    text.push_str(" is no rule\n");
    text
}

/// The line on a rule that was asked for, and was not put to the test.
#[tactic(auto, using(std::proofs::Common::append_assoc))]
fn unseen(rule: Rule) -> Line
    ensures { result.bytes ≡ line_of name (unseen_text rule) }
{
    let mut text = Line::new();
    text.push_str(NAME);
    text.push_str(": no event tests the rule ");
    text.push_str(rule_name(rule));
    text.push_str("\n");
    text
}

/// Writes a line, as far as the stream takes it.
fn say<K: Sink>(errors: &mut K, line: &[u8])
    ensures { Wrote line.now (K.state errors.old) (K.state errors.new) }
{
    match write_last(errors, line) {
        Ok(()) => (),
        Err(_) => (),
    }
}

/// Writes such a line.
fn say_line<K: Sink>(errors: &mut K, line: &Line)
    ensures { Wrote line.now.bytes (K.state errors.old) (K.state errors.new) }
{
    say(errors, line.as_str().as_bytes());
}

/// Says what verdicts come to that went out, unless there is nothing to say, and gives the exit code.
fn finish_told<K: Sink>(outcome: Outcome, errors: &mut K) -> u8
    ensures code { result ≡ outcome_code outcome }
    ensures says { Says (AnyEnded.Told outcome) (K.state errors.old) (K.state errors.new) }
{
    match outcome {
        Outcome::Kept => 0,
        Outcome::Broken => {
            say(errors, b"hmmtrace: a rule is broken\n");
            1
        }
        Outcome::Unseen(rule) => {
            say_line(errors, &unseen(rule));
            10
        }
    }
}

/// Says on the error stream how the call ended, in one line after the program's name, unless there is nothing to say,
/// and gives the exit code. It takes no memory of its own.
pub(crate) fn finish<K: Sink>(ended: &Ended, errors: &mut K) -> u8
    ensures code { result ≡ code_of ended.now }
    ensures says { Says ended.now (K.state errors.old) (K.state errors.new) }
{
    match ended {
        Ended::Told(outcome) => finish_told(*outcome, errors),
        Ended::NoRule(word) => {
            say_line(errors, &no_rule(*word));
            2
        }
        Ended::Refused(refused) => {
            say_line(errors, &refusal(refused));
            3
        }
        Ended::RefusedIn(trace, refused) => {
            say_line(errors, &refusal_in(*trace, refused));
            3
        }
        Ended::TooLong => {
            say(errors, b"hmmtrace: trace too long\n");
            8
        }
        Ended::Usage => hm_edge::finish(NAME, USAGE, &Status::Usage, errors),
        Ended::ReadFault => hm_edge::finish(NAME, USAGE, &Status::ReadFault, errors),
        Ended::WriteFault => hm_edge::finish(NAME, USAGE, &Status::WriteFault, errors),
        Ended::NoMemory => hm_edge::finish(NAME, USAGE, &Status::NoMemory, errors),
    }
}
