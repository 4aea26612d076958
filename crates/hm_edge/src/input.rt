// Reading a source to its end, and the script that it has.
ghost use Rattle.std.specs.Prelude.{◌≡◌, ◌<◌, ◌≤◌, ◌^◌, length, IfOk, IfErr, OnOk};
ghost use Rattle.hm_base.specs.Program.{IsScript};
ghost use Rattle.hm_edge.specs.Reading.{HasNotJudged, HasNotRead, IsTextOf, ReadAs, ReadFaulted};
ghost use Rattle.hm_edge.specs.Input.{CameWhole, ReadsText, ReadFaults};

use crate::status::Status;
use hm_base::{MOST_REPORT_BYTES, MOST_SCRIPT_BYTES, Script, Text};
use hm_io::{Got, Source};
use hm_script::{ScriptError, parse};
use std::alloc::Global;

/// What was read of a source.
#[derive(Drop)]
pub enum Input {
    /// All that was left in it.
    Whole(Text),
    /// The source failed.
    Fault,
    /// It has more bytes than the limit.
    TooLong,
    /// Memory ran out.
    NoMemory,
}

/// Reads piece by piece, until the source ends, fails or gives a byte more than the limit.
pub fn read_all<S: Source>(alloc: Global, source: &mut S, most: u64) -> Input
    requires { most < 2 ^ 63 }
    ensures text { ReadsText most (S.state source.old).left (S.state source.new).left result }
    ensures faults { ReadFaults (S.state source.old).faults (S.state source.new).faults result }
{
    let mut text = Text::new(alloc);
    let mut chunk = [0u8; 4096];
    // A call brings a byte at least, so the limit is passed by one call more than it has bytes, if not before.
    for turn in 0..most + 1 {
        match source.read(&mut chunk) {
            Got::Bytes(count) => {
                let piece = &chunk[..count];
                if text.extend(piece).is_err() {
                    return Input::NoMemory;
                }
                if text.len() > most {
                    return Input::TooLong;
                }
            }
            Got::Ended => return Input::Whole(text),
            Got::Failed => return Input::Fault,
        }
    }
    unreachable!()
}

/// The script whose text the source has, or how a call ends that finds none.
pub fn read_script<S: Source>(alloc: Global, source: &mut S) -> Result<Script, Status>
    ensures script { IfOk result IsScript }
    ensures text { IfOk result
        (λ s. ReadAs 4194304 (IsTextOf s) (S.state source.old)
        (S.state source.new)) }
    ensures none { IfErr result
        (HasNotRead (S.state source.old) (S.state source.new)) }
    ensures faults { OnOk result ((S.state source.new).faults ≡ (S.state source.old).faults) }
    ensures fault { IfErr result (ReadFaulted (S.state source.old).faults (S.state source.new).faults) }
{
    let text = match read_all(alloc, source, MOST_SCRIPT_BYTES) {
        Input::Whole(text) => text,
        Input::Fault => return Err(Status::ReadFault),
        Input::TooLong => return Err(Status::ScriptTooLong),
        Input::NoMemory => return Err(Status::NoMemory),
    };
    match parse(alloc, text.as_slice()) {
        Ok(script) => {
            script.facts();
            Ok(script)
        }
        Err(ScriptError::Refused(refused)) => Err(Status::Refused(refused)),
        Err(ScriptError::NoMemory) => Err(Status::NoMemory),
    }
}

/// The bytes that the source has, if they are no more than a report has; or how a call ends that comes to none.
pub fn read_report<S: Source>(alloc: Global, source: &mut S) -> Result<Text, Status>
    ensures short { IfOk result (λ t. length t ≤ 268435456) }
    ensures whole { IfOk result (λ t. CameWhole (S.state source.old).left (S.state source.new).left t) }
    ensures none { IfErr result (HasNotJudged (S.state source.old) (S.state source.new)) }
    ensures faults { OnOk result ((S.state source.new).faults ≡ (S.state source.old).faults) }
    ensures fault { IfErr result (ReadFaulted (S.state source.old).faults (S.state source.new).faults) }
{
    match read_all(alloc, source, MOST_REPORT_BYTES) {
        Input::Whole(text) => Ok(text),
        Input::Fault => Err(Status::ReadFault),
        Input::TooLong => Err(Status::ReportTooLong),
        Input::NoMemory => Err(Status::NoMemory),
    }
}
