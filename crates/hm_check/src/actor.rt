// The actor that a line names.
ghost use Rattle.std.specs.Prelude.{◌≡◌, ◌<◌, ◌∷◌, ◌++◌, ℕ, List, Some};
ghost use Rattle.std.specs.Fmt.{decimal};
ghost use Rattle.hm_history.specs.declared.Entry.{Entry};
ghost use Rattle.hm_report.specs.Report.{entry_line};
ghost use Rattle.hm_check.specs.Parts.{IsNoDigit};

use hm_base::Actor;
use hm_report::{Buffer, put_decimal};
use hm_report_front::strip_front;

/// The actor with whose number the bytes begin.
fn actor_at(digits: &[u8]) -> Option<Actor>
    ensures { (a b : ℕ) (more : List ℕ) → a < 16 → IsNoDigit b → digits.now ≡ decimal a ++ b ∷ more → result ≡ Some a }
{
    if digits.len() < 2 {
        return None;
    }
    let (first, second) = (digits[0], digits[1]);
    if first == b'1' && second >= b'0' && second <= b'5' {
        return Some(Actor::new(10 + u32::from(second - b'0')));
    }
    if first >= b'0' && first <= b'9' {
        return Some(Actor::new(u32::from(first - b'0')));
    }
    None
}

/// The actor that the line names, if it is the line of an entry at this position; of other lines any or none. The
/// buffer is written over.
pub(crate) fn actor_in(out: &mut Buffer, line: &[u8], at: u64) -> Option<Actor>
    ensures { (e : Entry) → e.actor < 16 → line.now ≡ entry_line at e → result ≡ Some e.actor }
{
    out.clear();
    put_decimal(out, b"", at);
    out.put(b" a");
    match strip_front(line, out.as_slice()) {
        Some(digits) => actor_at(digits),
        None => None,
    }
}
