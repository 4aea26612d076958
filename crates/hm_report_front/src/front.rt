// The script at the front of a report.
ghost use Rattle.std.specs.Prelude.{◌≡◌, ◌+◌, ◌≤◌, length, IfSome};
ghost use Rattle.hm_script.specs.Automaton.{lines};
ghost use Rattle.hm_report_front.specs.Parts.{FrontOf};

use hm_script::cut_line;

/// The lines up to the first line `history`, or all, and how many they are.
#[derive(Clone, Copy)]
pub struct Front<'a> {
    pub script: &'a [u8],
    pub lines: u64,
    /// The lines after `history`, if there is such a line.
    pub rest: Option<&'a [u8]>,
}

/// Cuts the bytes at the first line `history`.
pub(crate) fn cut_front(bytes: &[u8]) -> Front<'_>
    ensures parts { FrontOf bytes.now result.script.now result.rest }
    ensures count { result.lines ≡ length (lines result.script.now) }
    ensures few { result.lines ≤ length bytes.now }
    ensures shorter { IfSome result.rest (λ rest. result.lines + length rest.now ≤ length bytes.now) }
{
    let mut rest = bytes;
    let mut count: u64 = 0;
    while !rest.is_empty() {
        let (line, after) = cut_line(rest);
        if line == b"history\n".as_slice() {
            let (script, _) = bytes.split_at(bytes.len() - rest.len());
            return Front {
                script,
                lines: count,
                rest: Some(after),
            };
        }
        count += 1;
        rest = after;
    }
    Front {
        script: bytes,
        lines: count,
        rest: None,
    }
}
