// A line of a trace: what it tells, and its text.
ghost use Rattle.std.specs.Prelude.{◌≡◌, ◌+◌, ◌≤◌, ◌++◌, ◌∷◌, [], length};
ghost use Rattle.std.specs.Fmt.{decimal};
ghost use Rattle.hm_report.specs.Line.{spaced};
ghost use Rattle.hm_report.specs.Words.{actor_text};
ghost use Rattle.hm_script.specs.Splitting.{split};
ghost use Rattle.hm_trace.specs.Lines as spec;
ghost use Rattle.hm_trace.specs.Spelling.{event_words, recorded_words};

use crate::event::read_event;
use crate::event_word::EventWord;
use crate::fields::Fields;
use crate::words::{first_or_end, lettered};
use crate::writing::put_event;
use hm_protocol::{Recorded, Traced};
use hm_report::{Buffer, put_decimal};
use hm_script::{LineWords, Reason, number};

/// What a line of a trace tells.
#[derive(Clone, Copy)]
pub enum TraceLine {
    /// Nothing: the line is empty, or a comment.
    Blank,
    /// What was recorded, beside the kernel's own events.
    Names(Recorded),
    /// An event, with its number.
    Event { number: u64, event: Traced },
    /// So many events with a number are not there, and so many calls had none.
    Lost { count: u64, missed: u64 },
}

// ---- reading

/// The line up to the first `#`.
fn before_comment(line: &[u8]) -> &[u8]
    ensures { result.now ≡ spec.before_comment line.now }
{
    &line[..first_or_end(line, b'#')]
}

/// The bytes without the white space at their end.
fn trimmed(line: &[u8]) -> &[u8]
    ensures { result.now ≡ spec.trimmed line.now }
{
    line.trim_ascii_end()
}

/// The line without its comment and the white space at its end.
#[tactic(auto, unfolding(crate::specs::Lines::text_of))]
fn text_of(line: &[u8]) -> &[u8]
    ensures { result.now ≡ spec.text_of line.now }
{
    trimmed(before_comment(line))
}

/// Whether the line ends in a line feed.
fn is_ended(line: &[u8]) -> bool
    ensures { result ≡ spec.is_ended line.now }
{
    match line {
        [] => false,
        [.., last] => *last == b'\n',
    }
}

/// The words of a line, of which there is one.
#[derive(Drop)]
struct AnyLine<'a> {
    words: LineWords<'a>,
}

impl AnyLine<'_> {
    /// Whether one of the six words after the first is this one.
    fn has_word(&self, word: &[u8]) -> bool
        ensures { result ≡ spec.has_word word.now self.now.words }
    {
        self.words.get(1) == word
            || self.words.get(2) == word
            || self.words.get(3) == word
            || self.words.get(4) == word
            || self.words.get(5) == word
            || self.words.get(6) == word
    }

    /// What was recorded.
    #[tactic(auto, unfolding(crate::specs::Lines::recorded_at))]
    fn recorded(&self) -> Recorded
        ensures { result ≡ spec.recorded_at self.now.words }
    {
        Recorded {
            set: self.has_word(b"set"),
            erase: self.has_word(b"erase"),
            uses: self.has_word(b"use"),
            take: self.has_word(b"take"),
            free: self.has_word(b"free"),
            model: self.has_word(b"model"),
        }
    }

    /// What is not there.
    #[tactic(auto, unfolding(crate::specs::Lines::lost_at))]
    fn lost(&self) -> Result<TraceLine, Reason>
        ensures { result ≡ spec.lost_at self.now.words }
    {
        let count = number(self.words.get(1))?;
        let missed = number(self.words.get(2))?;
        Ok(TraceLine::Lost { count, missed })
    }
}

/// An event with its number and its thread.
#[tactic(auto, unfolding(crate::specs::Lines::numbered_at))]
fn numbered(words: &mut Fields) -> Result<TraceLine, Reason>
    ensures { result ≡ spec.numbered_at words.old }
{
    let number = number(words.next())?;
    let thread = lettered(words.next())?;
    let word = EventWord::named(words.next()).ok_or(Reason::Word)?;
    let event = read_event(words, word)?;
    let event = Traced { thread, event };
    Ok(TraceLine::Event { number, event })
}

/// What the words of a line tell, of which there is one.
#[tactic(auto, unfolding(crate::specs::Lines::words_at))]
fn words_told(text: &[u8]) -> Result<TraceLine, Reason>
    ensures { result ≡ spec.words_at (split text.now) }
{
    let line = AnyLine {
        words: LineWords::of(text),
    };
    let first = line.words.get(0);
    if first == b"names".as_slice() {
        return Ok(TraceLine::Names(line.recorded()));
    }
    if first == b"lost".as_slice() {
        return line.lost();
    }
    numbered(&mut Fields::of(text))
}

/// What a text tells.
fn told_by(text: &[u8]) -> Result<TraceLine, Reason>
    ensures { result ≡ spec.told_by text.now }
{
    if text.is_empty() {
        return Ok(TraceLine::Blank);
    }
    words_told(text)
}

// ---- writing

/// Adds the words of what was recorded.
#[tactic(auto, using(std::proofs::Common::append_assoc))]
fn put_recorded(out: &mut Buffer, recorded: &Recorded)
    requires { length out.old + 200 ≤ 8192 }
    ensures text { out.new ≡ out.old ++ spaced (recorded_words recorded.now) }
    ensures room { length out.new ≤ length out.old + 200 }
{
    if recorded.set {
        out.put(b" set");
    }
    if recorded.erase {
        out.put(b" erase");
    }
    if recorded.uses {
        out.put(b" use");
    }
    if recorded.take {
        out.put(b" take");
    }
    if recorded.free {
        out.put(b" free");
    }
    if recorded.model {
        out.put(b" model");
    }
}

/// Writes the line over the buffer, but for its line feed.
fn put_text(out: &mut Buffer, line: &TraceLine)
    ensures text { out.new ++ 10 ∷ [] ≡ spec.line_text line.now }
    ensures room { length out.new ≤ 2000 }
{
    out.clear();
    match line {
        TraceLine::Blank => {}
        TraceLine::Names(recorded) => {
            out.put(b"names");
            put_recorded(out, recorded);
        }
        TraceLine::Event { number, event } => {
            put_decimal(out, b"", *number);
            put_decimal(out, b" a", event.thread);
            put_event(out, &event.event);
        }
        TraceLine::Lost { count, missed } => {
            put_decimal(out, b"lost ", *count);
            put_decimal(out, b" ", *missed);
        }
    }
}

/// Writes the line over the buffer.
pub fn put_line(out: &mut Buffer, line: &TraceLine)
    ensures { out.new ≡ spec.line_text line.now }
{
    put_text(out, line);
    out.push(b'\n');
}

// ---- a line

/// What the line tells, with its line feed. The buffer is written over.
#[tactic(auto, unfolding(crate::specs::Lines::line_at))]
pub fn read_line(front: &mut Buffer, line: &[u8]) -> Result<TraceLine, Reason>
    ensures { result ≡ spec.line_at line.now }
{
    if !is_ended(line) {
        return Err(Reason::LineEnd);
    }
    let text = text_of(line);
    let told = told_by(text)?;
    put_text(front, &told);
    if text == front.as_slice() {
        Ok(told)
    } else {
        Err(Reason::Shape)
    }
}
