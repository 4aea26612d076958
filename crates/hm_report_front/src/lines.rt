// The lines that texts share.
ghost use Rattle.std.specs.Prelude.{◌≡◌, ◌≤◌, length, MatchOption, IfSome};
ghost use Rattle.hm_script.specs.Automaton.{lines};
ghost use Rattle.hm_report_front.specs.Parts.{Differ};

use hm_script::cut_line;

/// How many lines the two texts share at the front; none if they are equal.
pub fn first_difference(text: &[u8], other: &[u8]) -> Option<u64>
    ensures differ { MatchOption result (text.now ≡ other.now) (Differ (lines text.now) (lines other.now)) }
    ensures few { IfSome result (λ n. n ≤ length text.now) }
{
    let mut rest = text;
    let mut others = other;
    let mut same: u64 = 0;
    while !rest.is_empty() && !others.is_empty() {
        let (line, after) = cut_line(rest);
        let (other_line, other_after) = cut_line(others);
        if line != other_line {
            return Some(same);
        }
        same += 1;
        rest = after;
        others = other_after;
    }
    if rest.is_empty() && others.is_empty() {
        None
    } else {
        Some(same)
    }
}
