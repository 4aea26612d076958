// The text of an advice.
ghost use Rattle.std.specs.Prelude.{◌≡◌, ◌≤◌, [], ◌∷◌, ◌++◌, length, codes, IfOk, OnOk};
ghost use Rattle.std.specs.Fmt.{decimal};
ghost use Rattle.std.specs.List.{flat_map};
ghost use Rattle.hm_script.specs.Spelling.{line};
ghost use Rattle.hm_report.specs.Written.{Writes, SentOn, FaultCause, ReportWants};
ghost use Rattle.hm_advisor.specs.Text.{count_line, move_line, end_line, advice_text};

use crate::advice::{Advice, Move};
use crate::counts::Count;
use hm_base::{NoMemory, Text};
use hm_io::Sink;
use hm_report::{Buffer, Written, put_decimal, write_text};
use std::alloc::Global;

/// Adds the line of a count.
#[tactic(auto, using(std::proofs::Common::append_assoc))]
fn put_count(out: &mut Buffer, count: &Count)
    requires { length out.old ≤ 4096 }
    ensures { out.new ≡ out.old ++ count_line count.now }
{
    put_decimal(out, b"count m", count.mirror.number() as u64);
    put_decimal(out, b" ", count.page.number());
    put_decimal(out, b" ", count.cpu);
    put_decimal(out, b" ", count.dev);
    out.push(b'\n');
}

/// Adds the line of a move, with this word.
#[tactic(auto, using(std::proofs::Common::append_assoc))]
fn put_step(out: &mut Buffer, word: &[u8], step: &Move)
    requires room { length out.old ≤ 4096 }
    requires word { length word.now ≤ 16 }
    ensures { out.new
        ≡ out.old ++ line (word.now ∷ decimal step.now.mirror ∷ decimal step.now.page ∷ codes "1" ∷ []) }
{
    out.put(word);
    put_decimal(out, b" ", step.mirror.number() as u64);
    put_decimal(out, b" ", step.page.number());
    out.put(b" 1\n");
}

/// Adds the line of a move.
fn put_move(out: &mut Buffer, step: &Move)
    requires { length out.old ≤ 4096 }
    ensures { out.new ≡ out.old ++ move_line step.now }
{
    if step.to_device {
        put_step(out, b"todev", step)
    } else {
        put_step(out, b"tosys", step)
    }
}

/// Adds the last line.
#[tactic(auto, using(std::proofs::Common::append_assoc))]
fn put_end(out: &mut Buffer, counts: u64, moves: u64)
    requires { length out.old ≤ 4096 }
    ensures { out.new ≡ out.old ++ end_line counts moves }
{
    put_decimal(out, b"end ", counts);
    put_decimal(out, b" ", moves);
    out.push(b'\n');
}

fn add_counts(text: &mut Text, out: &mut Buffer, counts: &[Count]) -> Result<(), NoMemory>
    ensures { OnOk result (text.new ≡ text.old ++ flat_map count_line counts.now) }
{
    for count in counts {
        out.clear();
        put_count(out, count);
        text.extend(out.as_slice())?;
    }
    Ok(())
}

fn add_moves(text: &mut Text, out: &mut Buffer, moves: &[Move]) -> Result<(), NoMemory>
    ensures { OnOk result (text.new ≡ text.old ++ flat_map move_line moves.now) }
{
    for step in moves {
        out.clear();
        put_move(out, step);
        text.extend(out.as_slice())?;
    }
    Ok(())
}

/// The text of an advice: a line for each count and for each move, and a last line with how many of each there are.
pub fn advice_text(alloc: Global, advice: &Advice) -> Result<Text, NoMemory>
    ensures { IfOk result (λ text. text ≡ advice_text advice.now) }
{
    let mut out = Buffer::new(alloc)?;
    let mut text = Text::new(alloc);
    add_counts(&mut text, &mut out, advice.counts.as_slice())?;
    add_moves(&mut text, &mut out, advice.moves.as_slice())?;
    out.clear();
    put_end(&mut out, advice.counts.len(), advice.moves.len());
    text.extend(out.as_slice())?;
    Ok(text)
}

/// Writes that text and flushes the sink. The text is made whole before anything is written.
pub fn write_advice<K: Sink>(alloc: Global, advice: &Advice, sink: &mut K) -> Written
    ensures text { Writes (K.state sink.old).held (K.state sink.new).held (advice_text advice.now) result }
    ensures sent { SentOn (K.state sink.new).pending result }
    ensures faults { FaultCause (K.state sink.old).faults (K.state sink.new).faults result }
    ensures wants { ReportWants (K.state sink.old)
        (K.state sink.new) result }
{
    match advice_text(alloc, advice) {
        Ok(text) => write_text(alloc, &text, sink),
        Err(NoMemory) => Written::NoMemory,
    }
}
