// From a buffer to a sink, in whole pieces.
ghost use Rattle.std.specs.Prelude.{◌≡◌, ◌+◌, ◌≤◌, ◌<◌, ◌∷◌, ◌++◌, [], false, length, OnOk, IfErr};
ghost use Rattle.hm_script.specs.Spelling.{hex_text};
ghost use Rattle.hm_report.specs.Sends.{Sends, GoesOn, Stops};

use crate::buffer::{Buffer, PIECE, ROOM};
use crate::numerals::put_byte;
use hm_io::{Flushed, Put, Sink};

/// Why a text did not go out whole.
#[derive(Clone, Copy)]
pub enum Stop {
    Fault,
    NoMemory,
}

/// Writes these bytes, and again what the sink did not take.
pub fn write_all<K: Sink>(sink: &mut K, bytes: &[u8]) -> Result<(), Stop>
    ensures ok { OnOk result
        (Sends (K.state sink.old)
        (K.state sink.new) bytes.now) }
    ensures err { IfErr result
        (Stops (K.state sink.old)
        (K.state sink.new) bytes.now) }
{
    let mut at = 0;
    while at < bytes.len() {
        match sink.write(&bytes[at..]) {
            Put::Took(count) => at += count,
            Put::Failed => return Err(Stop::Fault),
            Put::NoMemory => return Err(Stop::NoMemory),
        }
    }
    Ok(())
}

/// Writes these bytes in pieces.
fn write_pieces<K: Sink>(sink: &mut K, bytes: &[u8]) -> Result<(), Stop>
    ensures ok { OnOk result
        (Sends (K.state sink.old)
        (K.state sink.new) bytes.now) }
    ensures err { IfErr result
        (Stops (K.state sink.old)
        (K.state sink.new) bytes.now) }
{
    let mut at = 0;
    while at < bytes.len() {
        let end = at + (bytes.len() - at).min(PIECE);
        write_all(sink, &bytes[at..end])?;
        at = end;
    }
    Ok(())
}

/// Has the sink send on all that it took.
pub fn send_on<K: Sink>(sink: &mut K) -> Result<(), Stop>
    ensures ok { OnOk result
        (Sends (K.state sink.old)
        (K.state sink.new) []) }
    ensures sent { OnOk result ((K.state sink.new).pending ≡ false) }
    ensures err { IfErr result
        (Stops (K.state sink.old)
        (K.state sink.new) []) }
{
    match sink.flush() {
        Flushed::Done => Ok(()),
        Flushed::Failed => Err(Stop::Fault),
    }
}

/// Writes these bytes, the last of a text, in pieces, and has the sink send them on.
pub fn write_last<K: Sink>(sink: &mut K, bytes: &[u8]) -> Result<(), Stop>
    ensures ok { OnOk result
        (Sends (K.state sink.old)
        (K.state sink.new) bytes.now) }
    ensures sent { OnOk result ((K.state sink.new).pending ≡ false) }
    ensures err { IfErr result
        (Stops (K.state sink.old)
        (K.state sink.new) bytes.now) }
{
    write_pieces(sink, bytes)?;
    send_on(sink)
}

/// Writes the piece at the front, if there is one.
#[inline(always)]
pub fn settle<K: Sink>(out: &mut Buffer, sink: &mut K) -> Result<(), Stop>
    requires { length out.old ≤ ROOM }
    ensures ok { OnOk result
        (GoesOn (K.state sink.old)
        (K.state sink.new) out.old out.new []) }
    ensures room { OnOk result (length out.new ≤ PIECE) }
    ensures err { IfErr result
        (Stops (K.state sink.old)
        (K.state sink.new) out.old) }
{
    if out.len() >= PIECE {
        write_all(sink, out.piece())?;
        out.remove_piece();
    }
    Ok(())
}

/// Adds the bytes of a text.
pub(crate) fn put_text<K: Sink>(out: &mut Buffer, sink: &mut K, text: &[u8]) -> Result<(), Stop>
    requires { length out.old ≤ PIECE }
    ensures ok { OnOk result
        (GoesOn (K.state sink.old)
        (K.state sink.new) out.old out.new text.now) }
    ensures room { OnOk result (length out.new ≤ PIECE) }
    ensures err { IfErr result
        (Stops (K.state sink.old) (K.state sink.new)
        (out.old ++ text.now)) }
{
    let mut at = 0;
    while at < text.len() {
        let end = at + (text.len() - at).min(PIECE);
        out.put(&text[at..end]);
        settle(out, sink)?;
        at = end;
    }
    Ok(())
}

/// Adds a space and the digits of the bytes.
pub(crate) fn put_hex<K: Sink>(out: &mut Buffer, sink: &mut K, bytes: &[u8]) -> Result<(), Stop>
    requires { length out.old + 1 < ROOM }
    ensures ok { OnOk result
        (GoesOn (K.state sink.old)
        (K.state sink.new) out.old out.new (32 ∷ hex_text bytes.now)) }
    ensures room { OnOk result (length out.new < ROOM) }
    ensures err { IfErr result
        (Stops (K.state sink.old) (K.state sink.new)
        (out.old ++ 32 ∷ hex_text bytes.now)) }
{
    out.push(b' ');
    for byte in bytes {
        settle(out, sink)?;
        put_byte(out, *byte);
    }
    Ok(())
}
